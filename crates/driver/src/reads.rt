// The calls that read: the mark of a page, and bytes of a page.
ghost use Rattle.std.specs.Prelude.{◌≡◌, ℕ, ◌<◌, ◌≤◌, List, [], length, Some as some};
ghost use Rattle.flash.specs.Addresses.{row_at};
ghost use Rattle.commands.specs.Polls.{polled, left, first_of};
ghost use Rattle.commands.specs.Sequences.{read_cycles};
ghost use Rattle.driver.specs.Called.{Did, Called, byte_reply, read_reply, KeptAtRefusal};
ghost use Rattle.driver.specs.Marks.{mark_in};
ghost use Rattle.driver.specs.Outcomes.{read_by};
ghost use Rattle.driver.specs.Views.{part_or};

use crate::session::Session;
use crate::standing::Standing;
use calls::call::Call;
use commands::read::send_read;
use flash::address::Column;
use flash::fault::Fault;
use flash::geometry::MARK_COLUMN;
use flash::page::Page;
use port::port::Port;

fn mark_in(column: u16, bytes: &[u8]) -> Option<u8>
    ensures { result ≡ mark_in column bytes.now }
{
    let at = MARK_COLUMN.checked_sub(column)?;
    bytes.get(usize::from(at)).copied()
}

impl<P: Port> Session<P> {
    // Until the page has come up, the session is stuck.
    fn fetch(&mut self, page: Page, column: Column, buffer: &mut [u8]) -> Result<(), Fault>
        requires known { some (part_or self.old.state.part) ≡ self.old.state.part }
        requires inside { page.page < 64 }
        requires room { (rs : List ℕ) → length (read_cycles self.old.state.part self.old.state.polls (row_at page) column (length buffer.old) rs) ≤ (P.Port.meaning self.old.port).room }
        ensures did { Did P.Port (λ rs. read_by self.old.state page column (first_of (length buffer.old) (left self.old.state.polls rs)) (polled self.old.state.polls rs)) (read_cycles self.old.state.part self.old.state.polls (row_at page) column (length buffer.old)) (read_reply result buffer.new) self.new.state self.old.port self.new.port }
        ensures kept { KeptAtRefusal result buffer.old buffer.new }
    {
        let part = self.state.part_or();
        let polls = self.state.polls();
        self.state.stand(Standing::Stuck);
        send_read(&mut self.port, part, polls, page, column, buffer)?;
        self.state.note_mark(page, mark_in(column.number(), buffer));
        self.state.stand(Standing::Ready);
        Ok(())
    }

    /// The byte at the mark of page 0 or 1 of a block.
    pub(crate) fn look(&mut self, page: Page) -> Result<u8, Fault>
        ensures { Called P.Port (Call.Look page) [] (byte_reply result) self.old self.new }
    {
        self.admit(Call::Look(page), 0)?;
        let mut mark = [0];
        self.fetch(page, Column::new(MARK_COLUMN), &mut mark)?;
        Ok(mark[0])
    }

    /// As many bytes of a page as the buffer has.
    pub(crate) fn read(
        &mut self,
        page: Page,
        column: Column,
        buffer: &mut [u8],
    ) -> Result<(), Fault>
        ensures called { Called P.Port (Call.Read page column (length buffer.old)) [] (read_reply result buffer.new) self.old self.new }
        ensures kept { KeptAtRefusal result buffer.old buffer.new }
    {
        let length = buffer.len();
        self.admit(
            Call::Read {
                page,
                column,
                length,
            },
            0,
        )?;
        self.fetch(page, column, buffer)
    }
}
