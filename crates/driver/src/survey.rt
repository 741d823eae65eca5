// The survey: it finds out which part the chip is and which blocks the factory marked.
ghost use Rattle.std.specs.Prelude.{◌≡◌, []};
ghost use Rattle.driver.specs.Called.{Called, view_of, unit_reply, byte_reply};
ghost use Rattle.driver.specs.Opens.{opened};

use crate::driver::Driver;
use crate::session::Session;
use crate::state::State;
use calls::call::Call;
use flash::fault::Fault;
use flash::page::Page;
use port::port::Port;

// Survey and driver are two types, so that a call that a stage does not offer cannot be written.
pub struct Survey<P: Port> {
    pub(crate) session: Session<P>,
}

impl<P: Port> Survey<P> {
    /// Takes the port, and puts nothing. A poll will ask `polls` times at most: once for 0, and never
    /// more than 1,000 times.
    pub fn open(port: P, polls: u32) -> Survey<P>
        ensures port { result.session.port ≡ port }
        ensures view { view_of result.session ≡ opened polls }
    {
        Survey {
            session: Session {
                port,
                state: State::opened(polls),
            },
        }
    }

    /// Resets the chip and finds out which part it is.
    pub fn identify(&mut self) -> Result<(), Fault>
        ensures { Called P.Port Call.Identify [] (unit_reply result) self.old.session self.new.session }
    {
        self.session.identify()
    }

    /// Reads the mark of page 0 or 1 of a block.
    pub fn look(&mut self, page: Page) -> Result<u8, Fault>
        ensures { Called P.Port (Call.Look page) [] (byte_reply result) self.old.session self.new.session }
    {
        self.session.look(page)
    }

    /// Brings a chip that did not become ready back.
    pub fn reset(&mut self) -> Result<(), Fault>
        ensures { Called P.Port Call.Reset [] (unit_reply result) self.old.session self.new.session }
    {
        self.session.reset()
    }

    /// Ends the survey: what it found out is the driver's. Nothing is put.
    pub fn close(self) -> Driver<P>
        ensures { result.session ≡ self.session }
    {
        // A survey is linear: it is taken apart whole, not read at a field.
        let Survey { session } = self;
        Driver { session }
    }
}
