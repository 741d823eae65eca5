// A run of cycles as text, with a space between.
ghost use Rattle.std.specs.Prelude.{◌≡◌, [], ◌∷◌, ◌++◌, OnOk};
ghost use Rattle.bus_log.specs.Logs.{standing, reads};
ghost use Rattle.test_logs.specs.Runs.{ran};

use bus_log::log_reader::{LogError, LogReader};
use flash::cycle::Cycle;

// A whole line.
fn read_line(log: &mut LogReader, line: &[u8], cycles: &mut Vec<Cycle>) -> Result<(), LogError>
    ensures { OnOk result (reads (standing log.old cycles.old.items) (line.now ++ 10 ∷ []) ≡ standing log.new cycles.new.items) }
{
    log.read(line, cycles)?;
    log.read(b"\n", cycles)
}

/// Adds the cycles of a run to `cycles`.
pub fn read_run(run: &[u8], cycles: &mut Vec<Cycle>) -> Result<(), LogError>
    ensures { OnOk result (cycles.new.items ≡ ran cycles.old.items run.now) }
{
    let mut log = LogReader::new();
    for line in run.split(|byte| *byte == b' ') {
        read_line(&mut log, line, cycles)?;
    }
    Ok(())
}
