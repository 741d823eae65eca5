// A call of a script, and its answer.
use calls::call::Call;
use flash::fault::Fault;
use flash::record::BlockRecord;

/// A call with the bytes that it programs, if it programs any.
#[derive(Drop)]
pub struct Step {
    pub call: Call,
    pub bytes: Vec<u8>,
}

// One enum and no Result: that a call is not offered is an answer, and the law of a run goes over the answers
// by cases.
#[derive(Drop)]
pub enum Answer {
    Done,
    Slip(u32),
    Byte(u8),
    Bytes(Vec<u8>),
    Block(Option<u16>),
    Known(BlockRecord),
    Refused(Fault),
    /// The session does not offer the call at this stage.
    NotOffered,
}
