// Scripts as text: cycles with a space between. A byte out is what the chip is expected to give.
use flash::cycle::{Cycle, Kind};
use port::port::{HostCycle, HostKind, Port};
use std::alloc::Global;
use std::process::Abort;
use std::test::Fail;
use test_logs::run::read_run;

// What a word of a script stands for; any other is a cycle. Block 0 has the rows 0 to 63.
fn run_of(word: &str) -> &str {
    match word {
        "one" => "0FF 070 3C0 090 100 3C8 3D1 380 395 342",
        "two" => "0FF 070 3C0 090 100 3C8 3DA 390 395 344",
        "ready" => "070 3C0",
        "erase0" => "060 100 100 0D0 070 3C0",
        // a read of page 0 or 1 of block 0 from column 0 on
        "read0" => "000 100 100 100 100 030 070 3C0 000",
        "read1" => "000 100 100 101 100 030 070 3C0 000",
        // a program of page 0 or 1 of block 0 from column 0 on, up to its bytes
        "page0" => "080 100 100 100 100",
        "page1" => "080 100 100 101 100",
        _ => word,
    }
}

// Each crate of tests has this over words of its own: one for both would need a closure and a contract on it.
pub(crate) fn cycles_of(heap: Global, script: &str) -> Result<Vec<Cycle>, Fail> {
    let mut cycles = Vec::new(heap);
    for word in script.split(' ') {
        read_run(run_of(word).as_bytes(), &mut cycles)?;
    }
    Ok(cycles)
}

fn put<P: Port>(port: &mut P, kind: HostKind, byte: u8) -> Result<(), Fail> {
    Ok(port.put(HostCycle { kind, byte })?)
}

/// Takes a byte, and compares it with the one expected.
pub(crate) fn expect<P: Port>(
    rt: &impl Abort,
    port: &mut P,
    byte: u8,
    script: &str,
) -> Result<(), Fail> {
    let given = port.take()?;
    assert_eq!(rt; given, byte, "{}", script);
    Ok(())
}

/// Runs a script on a port.
pub(crate) fn run<P: Port>(
    rt: &(impl Abort + AllocGlobal),
    port: &mut P,
    script: &str,
) -> Result<(), Fail> {
    for Cycle { kind, byte } in cycles_of(rt.alloc(), script)? {
        match kind {
            Kind::Command => put(port, HostKind::Command, byte)?,
            Kind::Address => put(port, HostKind::Address, byte)?,
            Kind::DataIn => put(port, HostKind::DataIn, byte)?,
            Kind::DataOut => expect(rt, port, byte, script)?,
        }
    }
    Ok(())
}
