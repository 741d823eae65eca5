// What the work on a block leaves in the record.
ghost use Rattle.std.specs.Prelude.{◌≡◌, Some as some};
ghost use Rattle.flash.specs.Records.{stale};
ghost use Rattle.driver.specs.Marks.{mark_found};
ghost use Rattle.driver.specs.Outcomes.{keeping, changed_in, programmed_in, ended_in, cut_off, begun, slip as slip_reply};

use crate::standing::Standing;
use crate::state::State;
use bus::act::Confirm;
use flash::page::Page;
use flash::status::Verdict;

impl State {
    /// Nothing is known of the block's pages any more.
    pub(crate) fn forget_pages(&mut self, block: u16)
        ensures { self.new ≡ keeping self.old (changed_in self.old (some block) stale) }
    {
        let blocks = self.blocks();
        self.known.forget_pages(blocks, block);
    }

    fn note_program(&mut self, page: Page)
        ensures { self.new ≡ keeping self.old (programmed_in self.old page) }
    {
        let blocks = self.blocks();
        let allowed = self.programs_allowed();
        self.known.note_program(blocks, page, allowed);
    }

    /// A program of a page is confirmed: it is under way, and its slip has this number.
    pub(crate) fn begin_program(&mut self, page: Page, confirm: Confirm) -> u32
        ensures slip { slip_reply result ≡ (begun confirm self.old page).reply }
        ensures state { self.new ≡ (begun confirm self.old page).view }
    {
        self.note_program(page);
        match confirm {
            Confirm::Cache => self.begin(Standing::Chaining(page)),
            Confirm::Program | Confirm::Copy => self.begin(Standing::Programming(page)),
        }
    }

    /// The work that was under way ended.
    pub(crate) fn note_end(&mut self, verdict: Verdict)
        ensures { self.new ≡ keeping self.old (ended_in self.old self.old.standing verdict) }
    {
        let blocks = self.blocks();
        match self.standing {
            Standing::Erasing { block } => self.known.end_erase(blocks, block, verdict),
            Standing::Programming(page) => self.known.end_program(blocks, page.block, verdict),
            _ => {}
        }
    }

    /// The work that was under way is cut off: its block is stale.
    pub(crate) fn note_cut(&mut self)
        ensures { self.new ≡ keeping self.old (cut_off self.old) }
    {
        if let Some(block) = self.standing.block_at_work() {
            self.forget_pages(block);
        }
    }

    /// The byte at the mark of a page was read, if it was among those that were.
    pub(crate) fn note_mark(&mut self, page: Page, mark: Option<u8>)
        ensures { self.new ≡ keeping self.old (mark_found self.old.part page mark self.old.blocks) }
    {
        if let Some(byte) = mark {
            let blocks = self.blocks();
            self.known.note_mark(blocks, page, byte);
        }
    }
}
