// A run of a script, any list of calls with any arguments, on any port.
ghost use Rattle.std.specs.Prelude.{◌≡◌, [], ◌∷◌, vec_len, vec_capacity, MatchResult};
ghost use Rattle.port.specs.Meanings.{Fresh};
ghost use Rattle.driver.specs.Opens.{poll_count};
ghost use Rattle.driver.specs.Scripts.{answer_of, read_length, Followed};
ghost use Rattle.driver.specs.Stages.{session_of, stage_of, Stepped, Made, Rested};

use crate::script::{Answer, Step};
use crate::slip::Slip;
use crate::stage::Stage;
use crate::survey::Survey;
use calls::call::Call;
use port::port::Port;
use std::alloc::{AllocFailed, Global};

fn read_length(call: Call) -> usize
    ensures { result ≡ read_length call }
{
    match call {
        Call::Read { length, .. } => length.min(2113),
        _ => 0,
    }
}

fn survey_turn<P: Port>(mut survey: Survey<P>, call: Call) -> (Stage<P>, Answer)
    ensures { Stepped P.Port call [] (answer_of result.1) (Stage.Surveying survey) result.0 }
{
    if let Call::Close = call {
        return (Stage::Driving(survey.close()), Answer::Done);
    }
    let answer = survey.ask(call);
    (Stage::Surveying(survey), answer)
}

fn turn<P: Port>(stage: Stage<P>, call: Call, bytes: &[u8], buffer: Vec<u8>) -> (Stage<P>, Answer)
    requires { vec_len buffer ≡ read_length call }
    ensures { Stepped P.Port call bytes.now (answer_of result.1) stage result.0 }
{
    match stage {
        Stage::Surveying(survey) => survey_turn(survey, call),
        Stage::Driving(mut driver) => {
            let answer = driver.perform(call, bytes, buffer);
            (Stage::Driving(driver), answer)
        }
    }
}

// One step, if there is memory for its answer; else the stage comes back as it was.
fn take_step<P: Port>(
    heap: Global,
    stage: Stage<P>,
    step: &Step,
    answers: &mut Vec<Answer>,
) -> Result<Stage<P>, AllocFailed<Stage<P>>>
    ensures { MatchResult result (λ next. Made P.Port step.now answers.old.items answers.new.items stage next) (λ rest. Rested answers.old.items answers.new.items stage rest.value) }
{
    if answers.reserve(1).is_err() {
        return Err(AllocFailed { value: stage });
    }
    let Ok(buffer) = vec![in heap; 0; read_length(step.call)] else {
        return Err(AllocFailed { value: stage });
    };
    let (next, answer) = turn(stage, step.call, step.bytes.as_slice(), buffer);
    answers.push_reserved(answer);
    Ok(next)
}

fn finish<P: Port>(stage: Stage<P>) -> P
    ensures { result ≡ (session_of stage).port }
{
    match stage {
        Stage::Surveying(survey) => survey.close().quit(Slip::spent()),
        Stage::Driving(driver) => driver.quit(Slip::spent()),
    }
}

/// Opens a survey on the port and makes the calls of the script, one after the other; the answers are
/// added to those given. Where memory for an answer is wanting, the run ends before its call.
pub fn run<P: Port>(
    heap: Global,
    port: P,
    polls: u32,
    script: &[Step],
    answers: &mut Vec<Answer>,
) -> P
    ensures { Fresh (P.Port.meaning port) → Followed P.Port (poll_count polls) script.now answers.old.items answers.new.items port result }
{
    let mut stage = Stage::Surveying(Survey::open(port, polls));
    for step in script {
        match take_step(heap, stage, step, answers) {
            Ok(next) => stage = next,
            Err(rest) => return finish(rest.value),
        }
    }
    finish(stage)
}
