// A record for each block of the larger part.
ghost use Rattle.std.specs.Prelude.{◌≡◌, replicate, Some, slice_index_or};
ghost use Rattle.bus.specs.Bus.{changed_at};
ghost use Rattle.flash.specs.Records.{first_record, stale, programmed, program_ended, erase_ended, mark_read};
ghost use Rattle.flash.specs.declared.record.BlockRecord.{BlockRecord as TheRecord};
ghost use Rattle.record.specs.Changes.{Makes};
ghost use Rattle.record.specs.Picks.{suitable, picked};

use flash::geometry::MOST_BLOCKS;
use flash::page::Page;
use flash::record::{BlockRecord, Pages};
use flash::status::Verdict;

#[derive(Drop)]
pub struct Record {
    blocks: [BlockRecord; MOST_BLOCKS],
}

// Clean, not failed, fresh and without a page.
fn is_suitable(block: &BlockRecord) -> bool
    ensures { result ≡ suitable block.now }
{
    block.pages == Pages::Blank && block.is_fit()
}

impl Record {
    /// Nothing is known of any block.
    pub fn new() -> Record
        ensures { result.blocks ≡ replicate 2048 first_record }
    {
        Record {
            blocks: [BlockRecord::FIRST; MOST_BLOCKS],
        }
    }

    /// What is known of a block.
    pub fn block(&self, block: u16) -> BlockRecord
        ensures { result ≡ slice_index_or self.now.blocks block first_record }
    {
        self.blocks
            .get(usize::from(block))
            .copied()
            .unwrap_or(BlockRecord::FIRST)
    }

    // The record of one block is lent to `change`, if the part has the block, and no other is. A method
    // that lends it to its caller has no proof yet where it stands in an array.
    fn change<F: FnOnce(&mut BlockRecord)>(&mut self, blocks: u16, block: u16, change: F)
        requires { F.IsAlwaysCallable change }
        ensures { (g : TheRecord → TheRecord) → Makes F.FnOnce change g → self.new.blocks ≡ changed_at blocks (Some block) g self.old.blocks }
    {
        let at = usize::from(block);
        if block < blocks && at < self.blocks.len() {
            change(&mut self.blocks[at]);
        }
    }

    /// An erase of the block is confirmed, or work on it is cut off: nothing is known of its pages.
    pub fn forget_pages(&mut self, blocks: u16, block: u16)
        ensures { self.new.blocks ≡ changed_at blocks (Some block) stale self.old.blocks }
    {
        self.change(blocks, block, |known| known.forget_pages());
    }

    /// A program of the page is confirmed.
    pub fn note_program(&mut self, blocks: u16, page: Page, allowed: u8)
        ensures { self.new.blocks ≡ changed_at blocks (Some page.block) (programmed allowed page.page) self.old.blocks }
    {
        self.change(
            blocks,
            page.block,
            |known| known.note_program(allowed, page.page),
        );
    }

    /// A program in the block ended.
    pub fn end_program(&mut self, blocks: u16, block: u16, verdict: Verdict)
        ensures { self.new.blocks ≡ changed_at blocks (Some block) (program_ended verdict) self.old.blocks }
    {
        self.change(blocks, block, |known| known.end_program(verdict));
    }

    /// An erase of the block ended.
    pub fn end_erase(&mut self, blocks: u16, block: u16, verdict: Verdict)
        ensures { self.new.blocks ≡ changed_at blocks (Some block) (erase_ended verdict) self.old.blocks }
    {
        self.change(blocks, block, |known| known.end_erase(verdict));
    }

    /// The byte at the mark's column of the page was read.
    pub fn note_mark(&mut self, blocks: u16, page: Page, byte: u8)
        ensures { self.new.blocks ≡ changed_at blocks (Some page.block) (mark_read page.page byte) self.old.blocks }
    {
        self.change(blocks, page.block, |known| known.note_mark(page.page, byte));
    }

    /// The lowest block of the part at or above `from` that can take a first page.
    pub fn pick(&self, blocks: u16, from: u16) -> Option<u16>
        ensures { result ≡ picked self.now.blocks blocks from }
    {
        (from..blocks).find(|block| is_suitable(&self.block(*block)))
    }
}
