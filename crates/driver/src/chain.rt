// The later pages of a chain of cache programs. KeptAtRefusal stands at each function that passes a refusal
// on: it is one definition.
ghost use Rattle.std.specs.Prelude.{◌≡◌, ◌≢◌, ℕ, ◌≤◌, List, length, Some as some};
ghost use Rattle.bus.specs.declared.act.Confirm.TheVariants as confirms;
ghost use Rattle.commands.specs.Polls.{polled};
ghost use Rattle.driver.specs.Called.{Did, Called, chain_reply, KeptAtRefusal};
ghost use Rattle.driver.specs.Outcomes.{added_by, added_cycles, chain_call};
ghost use Rattle.driver.specs.Views.{part_or};

use crate::session::Session;
use crate::slip::Slip;
use bus::act::Confirm;
use calls::call::Call;
use calls::slip::chain_page;
use commands::poll::poll;
use flash::address::Column;
use flash::fault::Fault;
use flash::page::Page;
use port::port::Port;

// The call that sends a further page with this confirm.
fn chain_call(confirm: Confirm, slip: u32, page: u8, column: Column) -> Call
    ensures { result ≡ chain_call confirm slip page column }
{
    match confirm {
        Confirm::Cache => Call::CacheNext { slip, page, column },
        Confirm::Program | Confirm::Copy => Call::CacheLast { slip, page, column },
    }
}

impl<P: Port> Session<P> {
    // Once the chip is ready, the bytes of a further page are sent with a confirm; the slip then stands
    // for the work that this confirm begins.
    fn add_page(
        &mut self,
        slip: &mut Slip,
        page: Page,
        column: Column,
        bytes: &[u8],
        confirm: Confirm,
    ) -> Result<(), Fault>
        requires known { some (part_or self.old.state.part) ≡ self.old.state.part }
        requires room { (rs : List ℕ) → length (added_cycles confirm self.old.state page column bytes.now rs) ≤ (P.Port.meaning self.old.port).room }
        ensures did { Did P.Port (λ rs. added_by confirm self.old.state page (polled self.old.state.polls rs)) (added_cycles confirm self.old.state page column bytes.now) (chain_reply result slip.new.number) self.new.state self.old.port self.new.port }
        ensures kept { KeptAtRefusal result slip.old.number slip.new.number }
    {
        poll(&mut self.port, self.state.polls(), Some(page))?;
        slip.number = self.begin_program(page, column, bytes, confirm)?;
        Ok(())
    }

    // The call goes by its confirm, which is never a copy's.
    fn chain(
        &mut self,
        slip: &mut Slip,
        page: u8,
        column: Column,
        bytes: &[u8],
        confirm: Confirm,
    ) -> Result<(), Fault>
        requires { confirm ≢ confirms.Copy }
        ensures called { Called P.Port (chain_call confirm slip.old.number page column) bytes.now (chain_reply result slip.new.number) self.old self.new }
        ensures kept { KeptAtRefusal result slip.old.number slip.new.number }
    {
        let number = slip.number;
        self.admit(chain_call(confirm, number, page, column), bytes.len())?;
        self.add_page(slip, chain_page(number, page), column, bytes, confirm)
    }

    /// Another page of the chain; the slip then stands for the chain up to that page.
    pub(crate) fn cache_next(
        &mut self,
        slip: &mut Slip,
        page: u8,
        column: Column,
        bytes: &[u8],
    ) -> Result<(), Fault>
        ensures called { Called P.Port (Call.CacheNext slip.old.number page column) bytes.now (chain_reply result slip.new.number) self.old self.new }
        ensures slip { KeptAtRefusal result slip.old.number slip.new.number }
    {
        self.chain(slip, page, column, bytes, Confirm::Cache)
    }

    /// The last page of the chain; the slip then stands for a program of that page.
    pub(crate) fn cache_last(
        &mut self,
        slip: &mut Slip,
        page: u8,
        column: Column,
        bytes: &[u8],
    ) -> Result<(), Fault>
        ensures called { Called P.Port (Call.CacheLast slip.old.number page column) bytes.now (chain_reply result slip.new.number) self.old self.new }
        ensures slip { KeptAtRefusal result slip.old.number slip.new.number }
    {
        self.chain(slip, page, column, bytes, Confirm::Program)
    }
}
