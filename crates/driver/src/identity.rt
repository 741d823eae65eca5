// Which part the chip is.
ghost use Rattle.std.specs.Prelude.{[]};
ghost use Rattle.driver.specs.Called.{Called, unit_reply};

use crate::session::Session;
use crate::standing::Standing;
use calls::call::Call;
use commands::reset::{send_identity, send_reset};
use flash::fault::Fault;
use flash::part::Part;
use port::port::Port;

impl<P: Port> Session<P> {
    /// Resets the chip and takes its identity; where the chip does not become ready, the session is
    /// stuck.
    pub(crate) fn identify(&mut self) -> Result<(), Fault>
        ensures { Called P.Port Call.Identify [] (unit_reply result) self.old self.new }
    {
        self.admit(Call::Identify, 0)?;
        let polls = self.state.polls();
        self.state.stand(Standing::Stuck);
        send_reset(&mut self.port, polls, None)?;
        let bytes = send_identity(&mut self.port)?;
        self.state.stand(Standing::Ready);
        let part = Part::try_from(bytes)?;
        self.state.identify(part);
        Ok(())
    }
}
