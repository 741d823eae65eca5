// What a reader tells and holds once it has read a log from its first state.
use crate::shown;
use crate::standing::bus_text;
use bus::breach::Breaches;
use bus::reader::BusReader;
use bus::state::BusState;
use flash::cycle::Cycle;
use flash::geometry::MOST_BLOCKS;
use flash::record::{BlockRecord, Mark, Pages};
use std::process::Abort;
use std::test::*;

// What the records hold before they are lent: a new reader forgets it.
pub const USED: BlockRecord = BlockRecord {
    mark0: Mark::Marked,
    mark1: Mark::Marked,
    failed: true,
    pages: Pages::Last { page: 63, count: 4 },
};

/// Where the bus stands, and what is known of one block.
#[derive(Clone, Copy)]
pub struct Held {
    pub bus: BusState,
    pub block: BlockRecord,
}

impl Held {
    fn by(reader: &BusReader, block: u32) -> Held {
        Held {
            bus: reader.bus(),
            block: reader.block(block),
        }
    }

    pub(crate) fn after(cycles: &[Cycle], block: u32) -> Held {
        let mut blocks = [USED; MOST_BLOCKS];
        let mut reader = BusReader::new(&mut blocks);
        reader.read_all(cycles);
        Held::by(&reader, block)
    }

    pub(crate) fn check_block(
        &self,
        rt: &(impl Abort + AllocGlobal),
        expected: &str,
        log: &str,
    ) -> Result<(), Fail> {
        assert_eq!(rt;
            shown::block(rt.alloc(), self.block)?.as_str(),
            expected,
            "{}",
            log
        );
        Ok(())
    }

    // Only the count of breaches may differ.
    fn check_same(
        &self,
        rt: &(impl Abort + AllocGlobal),
        other: &Held,
        log: &str,
    ) -> Result<(), Fail> {
        let bus = bus_text(rt.alloc(), &other.bus)?;
        assert_eq!(rt;
            bus_text(rt.alloc(), &self.bus)?.as_str(),
            bus.as_str(),
            "{}",
            log
        );
        assert_eq!(rt; self.block, other.block, "{}", log);
        Ok(())
    }
}

/// One cycle after others: what is held before and after it, and the rules that it breaks.
#[derive(Clone, Copy)]
pub struct Step {
    before: Held,
    pub breaches: Breaches,
    after: Held,
}

impl Step {
    pub(crate) fn after(cycles: &[Cycle], cycle: Cycle) -> Step {
        let mut blocks = [USED; MOST_BLOCKS];
        let mut reader = BusReader::new(&mut blocks);
        reader.read_all(cycles);
        let before = Held::by(&reader, 2);
        let breaches = reader.read(cycle).breaches;
        let after = Held::by(&reader, 2);
        Step {
            before,
            breaches,
            after,
        }
    }

    /// The breaches are counted, and a cycle that is not taken changes nothing else.
    pub(crate) fn check(&self, rt: &(impl Abort + AllocGlobal), log: &str) -> Result<(), Fail> {
        let breaches = self.breaches;
        if breaches.while_busy || breaches.out_of_place {
            self.after.check_same(rt, &self.before, log)?;
        }
        let broken = breaches.rules().into_iter().flatten().count();
        let count = self
            .before
            .bus
            .breaches
            .saturating_add(u16::try_from(broken)?);
        assert_eq!(rt; self.after.bus.breaches, count, "{}", log);
        Ok(())
    }
}
