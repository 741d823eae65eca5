// Where the bus stands between two cycles: all that the reader holds but the block records.
ghost use Rattle.std.specs.Prelude.{◌≡◌};
ghost use Rattle.bus.specs.States.{plus, nothing_given, column_skipped, quiet, under_way, blocks_in, allowed_in};
ghost use Rattle.bus.specs.Bus.{work_done};

use flash::address::{Column, Row};
use flash::part::Part;

/// What an address is given for.
#[derive(Clone, Copy)]
pub enum Setup {
    Read,
    Erase,
    Program,
    Copy,
}

/// Up to five bytes in the order in which they came; a place not yet given holds 0.
// A count beside the bytes, and no ArrayVec: where the bus stands is copied, and that is not Copy.
#[derive(Clone, Copy)]
pub struct Given {
    pub count: u8,
    pub bytes: [u8; 5],
}

/// What has been given of a command, and what bytes from the chip are.
#[derive(Clone, Copy)]
pub enum Phase {
    /// No command is half given, and no byte may be taken.
    Quiet,
    /// 70h was given: bytes from the chip are its status.
    Status,
    /// A byte of the register was taken: more may follow.
    Output,
    /// 90h was given: its address byte is to come.
    Identity,
    /// The identity bytes come.
    IdentityBytes {
        given: Given,
    },
    /// 00h was given: an address, or bytes of the register.
    ReadSetup,
    /// Address bytes are being given.
    Addressing {
        setup: Setup,
        given: Given,
    },
    /// The whole address was given.
    Addressed {
        setup: Setup,
        column: Column,
        row: Row,
    },
    /// Bytes to program are being given, from `start` on; the next goes to `next`.
    Loading {
        row: Row,
        start: Column,
        next: Column,
    },
}

/// A page that is read, and the column of the byte that comes next. The copy flag is up from a
/// copy read until a byte is taken.
#[derive(Clone, Copy)]
pub struct PageRead {
    pub row: Row,
    pub column: Column,
    pub copy: bool,
}

/// What the chip is at work on. A chip at work is busy, and takes only 70h and FFh.
#[derive(Clone, Copy)]
pub enum Work {
    Reset,
    Read(PageRead),
    CachePage,
    Program { block: u32 },
    Erase { block: u32 },
}

/// A chain is a run of cache programs of one block: open from the first 15h until a program ends it.
#[derive(Clone, Copy)]
pub struct BusState {
    pub part: Option<Part>,
    pub phase: Phase,
    pub busy: Option<Work>,
    pub register: Option<PageRead>,
    pub chain: Option<u32>,
    pub breaches: u16,
}

impl Given {
    pub const NOTHING: Given = Given {
        count: 0,
        bytes: [0; 5],
    };
    /// An erase has no column: its address begins at the row.
    pub const NO_COLUMN: Given = Given {
        count: 2,
        bytes: [0; 5],
    };

    /// One byte more; after five there is no place for another.
    pub(crate) fn plus(self, byte: u8) -> Given
        ensures { result ≡ plus self byte }
    {
        if self.count < 5 {
            let mut bytes = self.bytes;
            bytes[usize::from(self.count)] = byte;
            Given {
                count: self.count + 1,
                bytes,
            }
        } else {
            self
        }
    }
}

impl Phase {
    /// No command is half given.
    pub(crate) fn is_quiet(self) -> bool
        ensures { result ≡ quiet self }
    {
        matches!(self, Phase::Quiet | Phase::Status | Phase::Output)
    }
}

impl BusState {
    /// Nothing known, nothing begun.
    pub const FIRST: BusState = BusState {
        part: None,
        phase: Phase::Quiet,
        busy: None,
        register: None,
        chain: None,
        breaches: 0,
    };

    /// The block of a program or erase that is busy.
    pub(crate) fn work_block(&self) -> Option<u32>
        ensures { result ≡ work_done self.now.busy }
    {
        match self.busy {
            Some(Work::Program { block } | Work::Erase { block }) => Some(block),
            _ => None,
        }
    }

    /// The block of a program or erase that is busy, or else of an open chain.
    pub fn under_way(&self) -> Option<u32>
        ensures { result ≡ under_way self.now }
    {
        self.work_block().or(self.chain)
    }

    /// How many blocks the part has; an unknown one has none.
    pub fn blocks(&self) -> u16
        ensures { result ≡ blocks_in self.now.part }
    {
        self.part.map_or(0, |part| part.blocks())
    }

    /// How many programs of a page the part allows; an unknown one allows none.
    pub fn programs_allowed(&self) -> u8
        ensures { result ≡ allowed_in self.now.part }
    {
        self.part.map_or(0, |part| part.programs_allowed())
    }
}
