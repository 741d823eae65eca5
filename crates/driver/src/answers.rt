// What a call of a script answers.
ghost use Rattle.std.specs.Prelude.{◌≡◌, MatchResult};
ghost use Rattle.driver.specs.declared.script.Answer.TheVariants as answer;

use crate::script::Answer;
use flash::fault::Fault;
use flash::record::BlockRecord;

impl From<()> for Answer {
    ghost from_gives = { λ _ a. a ≡ answer.Done };

    fn from(_done: ()) -> Answer {
        Answer::Done
    }
}

impl From<u8> for Answer {
    ghost from_gives = { λ b a. a ≡ answer.Byte b };

    fn from(byte: u8) -> Answer {
        Answer::Byte(byte)
    }
}

impl From<Vec<u8>> for Answer {
    ghost from_gives = { λ v a. a ≡ answer.Bytes v };

    fn from(bytes: Vec<u8>) -> Answer {
        Answer::Bytes(bytes)
    }
}

impl From<Option<u16>> for Answer {
    ghost from_gives = { λ o a. a ≡ answer.Block o };

    fn from(block: Option<u16>) -> Answer {
        Answer::Block(block)
    }
}

impl From<BlockRecord> for Answer {
    ghost from_gives = { λ k a. a ≡ answer.Known k };

    fn from(known: BlockRecord) -> Answer {
        Answer::Known(known)
    }
}

impl<T: Into<Answer>> From<Result<T, Fault>> for Answer {
    ghost from_gives = { λ r a. MatchResult r (λ x. T.converts x a) (λ f. a ≡ answer.Refused f) };

    fn from(came: Result<T, Fault>) -> Answer {
        match came {
            Ok(value) => value.into(),
            Err(fault) => Answer::Refused(fault),
        }
    }
}
