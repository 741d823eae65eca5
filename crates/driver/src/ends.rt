// The calls that end work: settle, abandon, and a reset.
ghost use Rattle.std.specs.Prelude.{◌≡◌, ℕ, ◌≤◌, List, [], length};
ghost use Rattle.commands.specs.Polls.{polled};
ghost use Rattle.commands.specs.Sequences.{reset_cycles};
ghost use Rattle.driver.specs.Called.{Did, Called, unit_reply, spent_if, settle_takes, abandon_takes};
ghost use Rattle.driver.specs.Outcomes.{verdict_reply, reset_by};

use crate::session::Session;
use crate::slip::Slip;
use crate::standing::Standing;
use calls::call::Call;
use calls::slip::slip_page;
use commands::poll::poll;
use commands::reset::send_reset;
use flash::fault::Fault;
use flash::page::Page;
use flash::status::Verdict;
use port::port::Port;

fn report(page: Page, verdict: Verdict) -> Result<(), Fault>
    ensures { unit_reply result ≡ verdict_reply page verdict }
{
    match verdict {
        Verdict::Good => Ok(()),
        Verdict::Failed => Err(Fault::WorkFailed(page)),
        Verdict::Protected => Err(Fault::WorkProtected(page)),
    }
}

impl<P: Port> Session<P> {
    /// Asks until the work of the slip has ended, and says how it did.
    pub(crate) fn settle(&mut self, slip: &mut Slip) -> Result<(), Fault>
        ensures called { Called P.Port (Call.Settle slip.old.number) [] (unit_reply result) self.old self.new }
        ensures slip { slip.new.number ≡ spent_if (settle_takes (unit_reply result)) slip.old.number }
    {
        self.admit(Call::Settle { slip: slip.number }, 0)?;
        let page = slip_page(slip.number);
        let status = poll(&mut self.port, self.state.polls(), Some(page))?;
        slip.number = 0;
        let verdict = Verdict::from(status);
        self.state.note_end(verdict);
        self.state.stand(Standing::Ready);
        report(page, verdict)
    }

    // FFh cuts off what is under way; until the chip is ready again, the session is stuck.
    fn start_over(&mut self, page: Option<Page>) -> Result<(), Fault>
        requires { (rs : List ℕ) → length (reset_cycles self.old.state.polls rs) ≤ (P.Port.meaning self.old.port).room }
        ensures { Did P.Port (λ rs. reset_by self.old.state page (polled self.old.state.polls rs)) (reset_cycles self.old.state.polls) (unit_reply result) self.new.state self.old.port self.new.port }
    {
        self.state.note_cut();
        self.state.stand(Standing::Stuck);
        send_reset(&mut self.port, self.state.polls(), page)?;
        self.state.stand(Standing::Ready);
        Ok(())
    }

    /// Cuts the work of the slip off.
    pub(crate) fn abandon(&mut self, slip: &mut Slip) -> Result<(), Fault>
        ensures called { Called P.Port (Call.Abandon slip.old.number) [] (unit_reply result) self.old self.new }
        ensures slip { slip.new.number ≡ spent_if (abandon_takes (unit_reply result)) slip.old.number }
    {
        self.admit(Call::Abandon { slip: slip.number }, 0)?;
        let page = slip_page(slip.number);
        slip.number = 0;
        self.start_over(Some(page))
    }

    pub(crate) fn reset(&mut self) -> Result<(), Fault>
        ensures { Called P.Port Call.Reset [] (unit_reply result) self.old self.new }
    {
        self.admit(Call::Reset, 0)?;
        self.start_over(None)
    }
}
