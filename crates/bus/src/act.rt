// What an arriving cycle is, given the phase that it meets.
ghost use Rattle.std.specs.Prelude.{◌≡◌, true};
ghost use Rattle.bus.specs.Acts.{when, begins, read_confirmed, erase_confirmed, program_confirmed, cache_confirmed, commanded, command, nameable, addressing, loading, identity, output, act_of};
ghost use Rattle.bus.specs.States.{idle, cycles_in, copy_up};

use crate::state::{BusState, Given, PageRead, Phase, Setup};
use flash::address::{Column, Row};
use flash::cycle::{Cycle, Kind};
use flash::opcode::Opcode;

/// How a program is confirmed: 10h, 15h, or the 10h of a copy.
#[derive(Clone, Copy)]
pub enum Confirm {
    Program,
    Cache,
    Copy,
}

#[derive(Clone, Copy)]
pub enum Act {
    /// A command that a busy chip does not take.
    WhileBusy,
    /// A cycle that the phase does not take.
    OutOfPlace,
    Reset,
    /// The phase moves on, and the register is kept or emptied; nothing else changes.
    Prepare {
        phase: Phase,
        register: Option<PageRead>,
    },
    Status {
        byte: u8,
    },
    /// The last of five identity bytes came.
    Identify {
        bytes: [u8; 5],
    },
    Read(PageRead),
    /// A byte of the register came.
    Data {
        row: Row,
        column: Column,
        byte: u8,
    },
    Erase {
        row: Row,
    },
    /// A byte to program, for this column of a page that is given from `start` on.
    Load {
        row: Row,
        start: Column,
        column: Column,
        byte: u8,
    },
    Program {
        row: Row,
        column: Column,
        confirm: Confirm,
    },
}

impl Phase {
    fn confirm_read(self, copy: bool) -> Act
        ensures { result ≡ read_confirmed copy self }
    {
        match self {
            Phase::Addressed {
                setup: Setup::Read,
                column,
                row,
            } => Act::Read(PageRead { row, column, copy }),
            _ => Act::OutOfPlace,
        }
    }

    fn confirm_erase(self) -> Act
        ensures { result ≡ erase_confirmed self }
    {
        match self {
            Phase::Addressed {
                setup: Setup::Erase,
                row,
                ..
            } => Act::Erase { row },
            _ => Act::OutOfPlace,
        }
    }

    // Two matches on the phase, 10h and 15h each by itself: a copy is confirmed by 10h alone.
    fn confirm_program(self) -> Act
        ensures { result ≡ program_confirmed self }
    {
        match self {
            Phase::Addressed {
                setup: Setup::Copy,
                column,
                row,
            } => Act::Program {
                row,
                column,
                confirm: Confirm::Copy,
            },
            Phase::Loading { row, start, .. } => Act::Program {
                row,
                column: start,
                confirm: Confirm::Program,
            },
            _ => Act::OutOfPlace,
        }
    }

    fn confirm_cache(self) -> Act
        ensures { result ≡ cache_confirmed self }
    {
        match self {
            Phase::Loading { row, start, .. } => Act::Program {
                row,
                column: start,
                confirm: Confirm::Cache,
            },
            _ => Act::OutOfPlace,
        }
    }
}

// The register is emptied.
fn begin(phase: Phase) -> Act
    ensures { result ≡ Act.Prepare phase None }
{
    Act::Prepare {
        phase,
        register: None,
    }
}

// One more byte to program.
fn load(row: Row, start: Column, column: Column, byte: u8) -> Act
    ensures { result ≡ loading row start column byte }
{
    if column.is_in_page() {
        Act::Load {
            row,
            start,
            column,
            byte,
        }
    } else {
        Act::OutOfPlace
    }
}

impl Act {
    // The act where it may be, else out of place.
    fn when(self, may: bool) -> Act
        ensures { result ≡ when may self }
    {
        if may { self } else { Act::OutOfPlace }
    }
}

impl BusState {
    // A command may begin: none is half given, no chain is open, the part is known.
    fn can_begin(&self) -> bool
        ensures { result ≡ begins self.now }
    {
        self.phase.is_quiet() && self.chain.is_none() && self.part.is_some()
    }

    fn prepare(&self, phase: Phase) -> Act
        ensures { result ≡ Act.Prepare phase self.now.register }
    {
        Act::Prepare {
            phase,
            register: self.register,
        }
    }

    // The copy flag of the register is up.
    fn copy_up(&self) -> bool
        ensures { result ≡ copy_up self.now.register }
    {
        self.register.is_some_and(|read| read.copy)
    }

    // A command to a chip that is not busy.
    fn idle_command(&self, opcode: Opcode) -> Act
        requires { idle self.now.busy ≡ true }
        ensures { result ≡ commanded self.now opcode }
    {
        match opcode {
            Opcode::Reset => Act::Reset,
            Opcode::ReadStatus => self.prepare(Phase::Status).when(self.phase.is_quiet()),
            Opcode::ReadId => begin(Phase::Identity).when(
                self.phase.is_quiet() && self.chain.is_none(),
            ),
            Opcode::Read => self.prepare(Phase::ReadSetup).when(self.can_begin()),
            Opcode::ReadConfirm => self.phase.confirm_read(false).when(self.chain.is_none()),
            Opcode::CopyReadConfirm => self.phase.confirm_read(true).when(self.chain.is_none()),
            Opcode::Erase => begin(Phase::Addressing {
                setup: Setup::Erase,
                given: Given::NO_COLUMN,
            })
            .when(self.can_begin()),
            Opcode::EraseConfirm => self.phase.confirm_erase().when(self.chain.is_none()),
            Opcode::Program => {
                begin(Phase::Addressing {
                    setup: Setup::Program,
                    given: Given::NOTHING,
                })
                .when(self.phase.is_quiet() && self.part.is_some())
            }
            Opcode::CopyProgram => {
                begin(Phase::Addressing {
                    setup: Setup::Copy,
                    given: Given::NOTHING,
                })
                .when(self.can_begin() && self.copy_up())
            }
            Opcode::ProgramConfirm => self.phase.confirm_program(),
            Opcode::CacheConfirm => self.phase.confirm_cache(),
        }
    }

    fn command(&self, opcode: Option<Opcode>) -> Act
        ensures { result ≡ command self.now opcode }
    {
        match opcode {
            Some(Opcode::Reset) => Act::Reset,
            Some(Opcode::ReadStatus) => self.prepare(Phase::Status).when(self.phase.is_quiet()),
            _ if self.busy.is_some() => Act::WhileBusy,
            Some(opcode) => self.idle_command(opcode),
            None => Act::OutOfPlace,
        }
    }

    fn address_cycles(&self) -> u8
        ensures { result ≡ cycles_in self.now.part }
    {
        self.part.map_or(0, |part| part.address_cycles())
    }

    // A row in the part and, while a chain is open, in its block.
    fn can_name(&self, row: Row) -> bool
        ensures { result ≡ nameable self.now row }
    {
        row.block() < u32::from(self.blocks())
            && self.chain.is_none_or(|block| row.block() == block)
    }

    // The address bytes so far: the last one is judged.
    fn address(&self, setup: Setup, given: Given) -> Act
        ensures { result ≡ addressing self.now setup given }
    {
        if given.count < self.address_cycles() {
            return self.prepare(Phase::Addressing { setup, given });
        }
        let [low, high, row_low, row_middle, row_high] = given.bytes;
        let column = Column::of_bytes(low, high);
        let row = Row::of_bytes(row_low, row_middle, row_high);
        self.prepare(Phase::Addressed { setup, column, row })
            .when(self.can_name(row))
    }

    // A byte of the register, at its column.
    fn output(&self, byte: u8) -> Act
        ensures { result ≡ output self.now.register byte }
    {
        match self.register {
            Some(PageRead { row, column, .. }) if column.is_in_page() => Act::Data {
                row,
                column,
                byte,
            },
            _ => Act::OutOfPlace,
        }
    }

    // The identity bytes so far.
    fn identify(&self, given: Given) -> Act
        ensures { result ≡ identity self.now given }
    {
        if given.count < 5 {
            return self.prepare(Phase::IdentityBytes { given });
        }
        let bytes = given.bytes;
        Act::Identify { bytes }
    }

    /// What this cycle is to a bus that stands so.
    pub fn act(&self, cycle: Cycle) -> Act
        ensures { result ≡ act_of self.now cycle }
    {
        let byte = cycle.byte;
        // the reader is a match on its phase and the cycle: the laws go over these by cases
        match (self.phase, cycle.kind) {
            (_, Kind::Command) => self.command(Opcode::try_from(byte).ok()),
            (Phase::Identity, Kind::Address) => self
                .prepare(Phase::IdentityBytes {
                    given: Given::NOTHING,
                })
                .when(byte == 0),
            (Phase::ReadSetup, Kind::Address) => begin(Phase::Addressing {
                setup: Setup::Read,
                given: Given::NOTHING.plus(byte),
            }),
            (Phase::Addressing { setup, given }, Kind::Address) => self.address(
                setup,
                given.plus(byte),
            ),
            (
                Phase::Addressed {
                    setup: Setup::Program,
                    column,
                    row,
                },
                Kind::DataIn,
            ) => load(row, column, column, byte),
            (Phase::Loading { row, start, next }, Kind::DataIn) => load(row, start, next, byte),
            (Phase::Status, Kind::DataOut) => Act::Status { byte },
            (Phase::IdentityBytes { given }, Kind::DataOut) => self.identify(given.plus(byte)),
            (Phase::ReadSetup | Phase::Output, Kind::DataOut) => self.output(byte),
            _ => Act::OutOfPlace,
        }
    }
}
