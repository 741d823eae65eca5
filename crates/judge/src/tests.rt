// Reports on short logs, whole and broken off.
use crate::judging::{JudgeError, Judging};
use bus_log::log_reader::LogError;
use events::teller::Teller;
use flash::record::BlockRecord;
use std::alloc::Global;
use std::test::Fail;

const NOTHING: &str = "part unknown\nunder way: nothing\nbreaches 0\n";

const RESET: &str = "reset\npart unknown\nunder way: nothing\nbreaches 0\n";

// A log, its report, and the line that ends it, if it is no cycle.
struct Case {
    log: &'static [u8],
    report: &'static str,
    line: Option<u64>,
}

const CASES: [Case; 9] = [
    Case {
        log: b"",
        report: NOTHING,
        line: None,
    },
    Case {
        log: b"\n# a comment\n \t\r\n",
        report: NOTHING,
        line: None,
    },
    Case {
        log: b" 0ff\t\r\n",
        report: RESET,
        line: None,
    },
    Case {
        log: b"0FF",
        report: RESET,
        line: None,
    },
    Case {
        log: b"0FF\n\n#\nhello\n0FF\n",
        report: RESET,
        line: Some(4),
    },
    Case {
        log: b"\xFF\xFE\n",
        report: NOTHING,
        line: Some(1),
    },
    Case {
        log: b"0FF\n4FF\n",
        report: RESET,
        line: Some(2),
    },
    Case {
        log: b"0FFF",
        report: NOTHING,
        line: Some(1),
    },
    Case {
        log: b"0 FF\n",
        report: NOTHING,
        line: Some(1),
    },
];

fn judged(heap: Global, log: &[u8], out: &mut Vec<u8>) -> Result<Option<u64>, Fail> {
    let mut blocks = [BlockRecord::FIRST; 8];
    let teller = Teller::new(heap, &mut blocks);
    let mut input = log;
    let mut judging = Judging::new(heap, teller, out);
    match judging.run(&mut input) {
        Ok(()) => Ok(None),
        Err(JudgeError::Log(LogError::NotACycle { line })) => Ok(Some(line)),
        Err(error) => Err(error.into()),
    }
}

#[test]
fn reports_on_short_logs(rt: HostRuntime) -> Result<(), Fail> {
    for case in &CASES {
        let mut out = Vec::new(rt.alloc());
        assert_eq!(rt; judged(rt.alloc(), case.log, &mut out)?, case.line);
        assert!(rt; out.as_slice() == case.report.as_bytes(), "{}", case.report);
    }
    Ok(())
}
