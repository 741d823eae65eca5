// One thing told.
use bus::act::Confirm;
use bus::breach::Breach;
use bus::state::PageRead;
use flash::address::{Column, Row};

#[derive(Drop)]
pub enum Event {
    /// The n-th cycle broke this rule; cycles are counted from 1.
    Breach {
        cycle: u64,
        breach: Breach,
    },
    Reset,
    Status {
        byte: u8,
    },
    Identity {
        bytes: [u8; 5],
    },
    Read(PageRead),
    /// A byte of the register came with the n-th cycle.
    Data {
        cycle: u64,
        byte: u8,
    },
    Erase {
        block: u32,
    },
    /// A program with the bytes that were given; a copy has none.
    Program {
        row: Row,
        column: Column,
        confirm: Confirm,
        bytes: Vec<u8>,
    },
}
