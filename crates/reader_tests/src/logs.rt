// Logs as text, in tables: cycles and names of runs of cycles, with a space between.
use flash::cycle::Cycle;
use std::alloc::Global;
use std::test::*;
use test_logs::run::read_run;

// What a word of a table stands for; any other is a cycle. Block 2 of the 1 Gbit part has the rows
// 80h to BFh.
fn run_of(word: &str) -> &str {
    match word {
        // a reset, and the identity of the part
        "one" => "0FF 070 3C0 090 100 3C8 3D1 380 395 342",
        "two" => "0FF 070 3C0 090 100 3C8 3DA 390 395 344",
        // the commands that may begin on a known part with the copy flag down
        "any" => "000 060 070 080 090 0FF",
        // ready, and no failure
        "ready" => "070 3C0",
        // the factory mark of page 0 or 1, read as clean or marked, and both read as clean
        "mark0" => "000 100 108 180 100 030 070 3C0 000 3FF",
        "mark1" => "000 100 108 181 100 030 070 3C0 000 3FF",
        "bad0" => "000 100 108 180 100 030 070 3C0 000 300",
        "bad1" => "000 100 108 181 100 030 070 3C0 000 300",
        "clean" => {
            "000 100 108 180 100 030 070 3C0 000 3FF 000 100 108 181 100 030 070 3C0 000 3FF"
        }
        // an erase up to its address, and a whole one
        "erase" => "060 180 100",
        "fresh" => "060 180 100 0D0 070 3C0",
        // page 4, 5 or 6, up to the confirm
        "load4" => "080 100 100 184 100 2AA",
        "load5" => "080 100 100 185 100 2AA",
        "load6" => "080 100 100 186 100 2AA",
        "read5" => "000 100 100 185 100",
        "copy5" => "085 100 100 185 100",
        // a whole program of page 5
        "page5" => "080 100 100 185 100 2AA 010 070 3C0",
        _ => word,
    }
}

// Each crate of tests has this over words of its own: one for both would need a closure and a contract on it.
pub(crate) fn cycles_of(heap: Global, text: &str) -> Result<Vec<Cycle>, Fail> {
    let mut cycles = Vec::new(heap);
    for word in text.split(' ') {
        read_run(run_of(word).as_bytes(), &mut cycles)?;
    }
    Ok(cycles)
}

/// The two columns of a table's row: a log, and what is expected of it.
pub(crate) fn columns(row: &str) -> Result<(&str, &str), Fail> {
    Ok(row.split_once(": ").ok_or("a row of one column")?)
}
