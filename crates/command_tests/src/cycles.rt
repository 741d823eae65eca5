// Cycles as text: a kind digit and two hexadecimal digits, with a space between two cycles.
use flash::cycle::{Cycle, Kind};
use std::alloc::{AllocError, Global};
use std::test::Fail;
use test_logs::run::read_run;

/// Adds the cycles of a text to a list.
pub(crate) fn add_cycles(text: &str, cycles: &mut Vec<Cycle>) -> Result<(), Fail> {
    read_run(text.as_bytes(), cycles)?;
    Ok(())
}

/// The bytes that the chip gives in a list of cycles.
pub(crate) fn bytes_out(heap: Global, cycles: &[Cycle]) -> Result<Vec<u8>, AllocError> {
    cycles
        .iter()
        .filter(|cycle| cycle.kind == Kind::DataOut)
        .map(|cycle| cycle.byte)
        .collect(heap)
}
