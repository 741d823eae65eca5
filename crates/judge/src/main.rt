// judge: reads a log of bus cycles and reports what was done to the chip and which rules were broken.
// With names of logs as arguments it reads those, one after the other, each with a reader of its own;
// `-`, or no argument, is standard input.
#![tactic(auto)]

mod judging;
mod report;
#[cfg(test)]
mod tests;

use events::teller::Teller;
use flash::geometry::MOST_BLOCKS;
use flash::record::BlockRecord;
use judging::{JudgeError, Judging};
use std::fs::File;
use std::io::{BufWriter, Read};
use std::process::ExitCode;
use std::{env, io};

fn judge<R: Read>(rt: &HostRuntime, input: &mut R) -> Result<(), JudgeError> {
    let mut blocks = [BlockRecord::FIRST; MOST_BLOCKS];
    let teller = Teller::new(rt.alloc(), &mut blocks);
    Judging::new(rt.alloc(), teller, BufWriter::new(rt.alloc(), rt.stdout())?).run(input)
}

// Standard input has no name.
fn judge_log<R: Read>(rt: &HostRuntime, name: Option<&str>, input: &mut R) -> io::Result<ExitCode> {
    let Err(error) = judge(rt, input) else {
        return Ok(ExitCode::SUCCESS);
    };
    match (error, name) {
        (JudgeError::Io(error), _) => return Err(error),
        (error, Some(name)) => eprintln!(rt; "{name}: {error}")?,
        (error, None) => eprintln!(rt; "{error}")?,
    }
    Ok(ExitCode::FAILURE)
}

fn judge_named(rt: &HostRuntime, name: &str) -> io::Result<ExitCode> {
    if name == "-" {
        println!(rt; "# {name}")?;
        return judge_log(rt, None, &mut rt.stdin());
    }
    match File::open(rt, name) {
        Ok(mut file) => {
            println!(rt; "# {name}")?;
            judge_log(rt, Some(name), &mut file)
        }
        Err(error) => {
            eprintln!(rt; "{name}: {error}")?;
            Ok(ExitCode::FAILURE)
        }
    }
}

fn main(rt: HostRuntime) -> io::Result<ExitCode> {
    let mut names = env::args(&rt)?.skip(1).peekable();
    if names.peek().is_none() {
        return judge_log(&rt, None, &mut rt.stdin());
    }
    for name in names {
        let code = judge_named(&rt, name.as_str())?;
        if code != ExitCode::SUCCESS {
            return Ok(code);
        }
    }
    Ok(ExitCode::SUCCESS)
}
