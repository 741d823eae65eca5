// One call of a script, in which a slip goes by its number.
ghost use Rattle.std.specs.Prelude.{◌≡◌, false, [], vec_len, vec_items};
ghost use Rattle.driver.specs.Called.{slip_reply, chain_reply, read_reply};
ghost use Rattle.driver.specs.Scripts.{answer_of, bytes_for, read_length, Turned};
ghost use Rattle.driver.specs.Turns.{answered, surveying, driving, is_close};

use crate::driver::Driver;
use crate::script::Answer;
use crate::slip::Slip;
use crate::survey::Survey;
use calls::call::Call;
use flash::address::Column;
use flash::fault::Fault;
use flash::page::Page;
use port::port::Port;

// The slip is spent: in a script it goes by its number. No `From`, which every program could call: only
// `quit` gives up a live slip.
fn slip_answer(came: Result<Slip, Fault>) -> Answer
    ensures { answer_of result ≡ answered (slip_reply came) }
{
    came.map(|slip| Answer::Slip(slip.spend())).into()
}

// A further page of a chain answers the slip's new number.
fn chain_answer(came: Result<(), Fault>, slip: Slip) -> Answer
    ensures { answer_of result ≡ answered (chain_reply came slip.number) }
{
    let number = slip.spend();
    came.map(|()| Answer::Slip(number)).into()
}

// A read answers what is in its buffer.
fn read_answer(came: Result<(), Fault>, buffer: Vec<u8>) -> Answer
    ensures { answer_of result ≡ answered (read_reply came (vec_items buffer)) }
{
    came.map(|()| buffer).into()
}

impl<P: Port> Survey<P> {
    // Any call but close.
    pub(crate) fn ask(&mut self, call: Call) -> Answer
        ensures { is_close call ≡ false → Turned P.Port surveying call [] (answer_of result) self.old.session self.new.session }
    {
        match call {
            Call::Identify => self.identify().into(),
            Call::Look(page) => self.look(page).into(),
            Call::Reset => self.reset().into(),
            _ => Answer::NotOffered,
        }
    }
}

impl<P: Port> Driver<P> {
    // A read into the buffer, which is as long as the read, or 2,113 bytes where that is longer: then
    // every length is refused alike.
    fn read_all(&mut self, page: Page, column: Column, length: usize, mut buffer: Vec<u8>) -> Answer
        requires { vec_len buffer ≡ read_length (Call.Read page column length) }
        ensures { Turned P.Port driving (Call.Read page column length) [] (answer_of result) self.old.session self.new.session }
    {
        let came = self.read(page, column, &mut buffer);
        read_answer(came, buffer)
    }

    // Any call, with the bytes that it programs, and a buffer as long as it reads. A slip is made and let
    // go at each call that takes one: of a closure that is lent the slip, too little is known of the driver.
    // A match on the call: the laws go over the calls by cases.
    pub(crate) fn perform(&mut self, call: Call, bytes: &[u8], buffer: Vec<u8>) -> Answer
        requires { vec_len buffer ≡ read_length call }
        ensures { Turned P.Port driving call (bytes_for call bytes.now) (answer_of result) self.old.session self.new.session }
    {
        match call {
            Call::Read {
                page,
                column,
                length,
            } => self.read_all(page, column, length, buffer),
            Call::Erase { block } => slip_answer(self.erase(block)),
            Call::Program { page, column } => slip_answer(self.program(page, column, bytes)),
            Call::CacheFirst { page, column } => {
                slip_answer(self.cache_first(page, column, bytes))
            }
            Call::CacheNext { slip, page, column } => {
                let mut slip = Slip { number: slip };
                let came = self.cache_next(&mut slip, page, column, bytes);
                chain_answer(came, slip)
            }
            Call::CacheLast { slip, page, column } => {
                let mut slip = Slip { number: slip };
                let came = self.cache_last(&mut slip, page, column, bytes);
                chain_answer(came, slip)
            }
            Call::Copy {
                source,
                destination,
            } => slip_answer(self.copy(source, destination)),
            Call::Settle { slip } => {
                let mut slip = Slip { number: slip };
                let came = self.settle(&mut slip);
                slip.spend();
                came.into()
            }
            Call::Abandon { slip } => {
                let mut slip = Slip { number: slip };
                let came = self.abandon(&mut slip);
                slip.spend();
                came.into()
            }
            Call::Reset => self.reset().into(),
            Call::Pick { from } => self.pick(from).into(),
            Call::Record { block } => self.record(block).into(),
            Call::Identify | Call::Look(_) | Call::Close => Answer::NotOffered,
        }
    }
}
