// Whether a call is let through to the chip: state, arguments, record and port, in this order.
ghost use Rattle.std.specs.Prelude.{◌≡◌};
ghost use Rattle.record.specs.Judgements.{admitted};
ghost use Rattle.driver.specs.Refusals.{state_fault, program_fault, record_fault, page_named, port_fault, refusal};

use crate::session::Session;
use crate::state::State;
use calls::call::Call;
use calls::slip::{chain_page, slip_page};
use flash::fault::Fault;
use flash::page::Page;
use port::port::Port;
use record::judgement::{judge_block, judge_page};

fn page_named(call: Call) -> Option<Page>
    ensures { result ≡ page_named call }
{
    match call {
        Call::Look(page)
        | Call::Read { page, .. }
        | Call::Program { page, .. }
        | Call::CacheFirst { page, .. } => Some(page),
        Call::Copy { destination, .. } => Some(destination),
        Call::Erase { block } => Some(Page { block, page: 0 }),
        Call::CacheNext { slip, page, .. } | Call::CacheLast { slip, page, .. } => {
            Some(chain_page(slip, page))
        }
        Call::Settle { slip } | Call::Abandon { slip } => Some(slip_page(slip)),
        _ => None,
    }
}

fn admit_room(room: usize, need: usize, page: Option<Page>) -> Result<(), Fault>
    ensures { result ≡ admitted (port_fault room need page) }
{
    if room < need {
        Err(Fault::NoRoom(page))
    } else {
        Ok(())
    }
}

impl State {
    fn unidentified(&self) -> Result<(), Fault>
        ensures { result ≡ admitted (state_fault self.now.part self.now.standing Call.Identify) }
    {
        self.standing.free()?;
        if self.part.is_some() {
            Err(Fault::Identified)
        } else {
            Ok(())
        }
    }

    fn admit_state(&self, call: Call) -> Result<(), Fault>
        ensures { result ≡ admitted (state_fault self.now.part self.now.standing call) }
    {
        let standing = self.standing;
        match call {
            Call::Identify => self.unidentified(),
            Call::Look(_)
            | Call::Read { .. }
            | Call::Erase { .. }
            | Call::Program { .. }
            | Call::CacheFirst { .. }
            | Call::Copy { .. } => standing.free(),
            Call::CacheNext { slip, .. } | Call::CacheLast { slip, .. } => {
                standing.holding(slip, standing.in_chain())
            }
            Call::Settle { slip } => standing.holding(slip, !standing.in_chain()),
            Call::Abandon { slip } => standing.holding(slip, true),
            Call::Reset => standing.resettable(),
            Call::Close | Call::Pick { .. } | Call::Record { .. } => Ok(()),
        }
    }

    fn admit_program(&self, page: Page, in_chain: bool) -> Result<(), Fault>
        ensures { result ≡ admitted (program_fault self.now.part self.now.blocks page in_chain) }
    {
        let block = self.known.block(page.block);
        judge_block(&block, page)?;
        judge_page(&block, page, in_chain, self.programs_allowed())
    }

    fn admit_record(&self, call: Call) -> Result<(), Fault>
        ensures { result ≡ admitted (record_fault self.now.part self.now.blocks call) }
    {
        match call {
            Call::Erase { block } => {
                judge_block(&self.known.block(block), Page { block, page: 0 })
            }
            Call::Program { page, .. } | Call::CacheFirst { page, .. } => {
                self.admit_program(page, false)
            }
            Call::CacheNext { slip, page, .. } | Call::CacheLast { slip, page, .. } => {
                self.admit_program(chain_page(slip, page), true)
            }
            Call::Copy { destination, .. } => self.admit_program(destination, false),
            _ => Ok(()),
        }
    }

    fn admit(&self, room: usize, call: Call, count: usize) -> Result<(), Fault>
        ensures { result ≡ admitted (refusal self.now room call count) }
    {
        self.admit_state(call)?;
        self.admit_arguments(call, count)?;
        self.admit_record(call)?;
        let need = call.most_cycles(self.part, self.polls, count);
        admit_room(room, need, page_named(call))
    }
}

impl<P: Port> Session<P> {
    /// Turns a call away where anything is against it, before anything is put.
    pub(crate) fn admit(&self, call: Call, count: usize) -> Result<(), Fault>
        ensures { result ≡ admitted (refusal self.now.state (P.Port.meaning self.now.port).room call count) }
    {
        self.state.admit(self.port.room(), call, count)
    }
}
