// The calls that begin work: an erase, a program, and the first page of a chain.
ghost use Rattle.std.specs.Prelude.{[], Some as some};
ghost use Rattle.flash.specs.Addresses.{row_at};
ghost use Rattle.commands.specs.Sequences.{program_cycles};
ghost use Rattle.commands.specs.Sent.{Sent};
ghost use Rattle.driver.specs.Called.{Called, Begun, slip_reply};
ghost use Rattle.driver.specs.Outcomes.{begun};
ghost use Rattle.driver.specs.Views.{part_or};

use crate::session::Session;
use crate::slip::Slip;
use crate::standing::Standing;
use bus::act::Confirm;
use calls::call::Call;
use commands::erase::send_erase;
use commands::program::send_program;
use flash::address::Column;
use flash::fault::Fault;
use flash::page::Page;
use port::port::Port;

impl<P: Port> Session<P> {
    pub(crate) fn erase(&mut self, block: u16) -> Result<Slip, Fault>
        ensures { Called P.Port (Call.Erase block) [] (slip_reply result) self.old self.new }
    {
        self.admit(Call::Erase { block }, 0)?;
        let page = Page { block, page: 0 };
        send_erase(&mut self.port, self.state.part_or(), page.row())?;
        self.state.forget_pages(block);
        let number = self.state.begin(Standing::Erasing { block });
        Ok(Slip { number })
    }

    /// Sends the bytes of a page with a confirm: its program is under way, and the slip has this number.
    pub(crate) fn begin_program(
        &mut self,
        page: Page,
        column: Column,
        bytes: &[u8],
        confirm: Confirm,
    ) -> Result<u32, Fault>
        ensures sent { Sent P.Port (program_cycles (some (part_or self.old.state.part)) (row_at page) column bytes.now confirm) result self.old.port self.new.port }
        ensures begun { Begun result (begun confirm self.old.state page) self.new.state }
    {
        let part = self.state.part_or();
        send_program(&mut self.port, part, page.row(), column, bytes, confirm)?;
        Ok(self.state.begin_program(page, confirm))
    }

    // This and the first page of a chain are not one method over the confirm: the table of its calls would be
    // longer than either.
    pub(crate) fn program(
        &mut self,
        page: Page,
        column: Column,
        bytes: &[u8],
    ) -> Result<Slip, Fault>
        ensures { Called P.Port (Call.Program page column) bytes.now (slip_reply result) self.old self.new }
    {
        self.admit(Call::Program { page, column }, bytes.len())?;
        let number = self.begin_program(page, column, bytes, Confirm::Program)?;
        Ok(Slip { number })
    }

    pub(crate) fn cache_first(
        &mut self,
        page: Page,
        column: Column,
        bytes: &[u8],
    ) -> Result<Slip, Fault>
        ensures { Called P.Port (Call.CacheFirst page column) bytes.now (slip_reply result) self.old self.new }
    {
        self.admit(Call::CacheFirst { page, column }, bytes.len())?;
        let number = self.begin_program(page, column, bytes, Confirm::Cache)?;
        Ok(Slip { number })
    }
}
