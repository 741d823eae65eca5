// The copy of a page inside the chip.
ghost use Rattle.std.specs.Prelude.{[]};
ghost use Rattle.driver.specs.Called.{Called, slip_reply};

use crate::session::Session;
use crate::slip::Slip;
use crate::standing::Standing;
use bus::act::Confirm;
use calls::call::Call;
use commands::copy::{send_copy_program, send_copy_read};
use flash::fault::Fault;
use flash::page::Page;
use port::port::Port;

impl<P: Port> Session<P> {
    /// Where the source does not come up, the session is stuck.
    pub(crate) fn copy(&mut self, source: Page, destination: Page) -> Result<Slip, Fault>
        ensures { Called P.Port (Call.Copy source destination) [] (slip_reply result) self.old self.new }
    {
        self.admit(
            Call::Copy {
                source,
                destination,
            },
            0,
        )?;
        let part = self.state.part_or();
        let polls = self.state.polls();
        self.state.stand(Standing::Stuck);
        send_copy_read(&mut self.port, part, polls, source)?;
        send_copy_program(&mut self.port, part, destination.row())?;
        let number = self.state.begin_program(destination, Confirm::Copy);
        Ok(Slip { number })
    }
}
