ghost use Rattle.std.specs.Prelude.{◌≡◌, length};
ghost use Rattle.flowreport.specs.Steps.{Within, events_after, step_of};

use crate::flow::{Answer, Flow};
use keys::refusal::Refusal;
use records::read::{front_mark, read_record};

// What came of the bytes at hand. Kept as three cases: in nested Results a refusal would stand for an
// answer and for a stop.
#[derive(Clone, Copy, Debug, PartialEq, Eq)]
pub(crate) enum Step {
    // Nothing is left, or only the beginning of a record that further input completes.
    Wait,
    // The record at the front has this length and got this answer.
    Took(usize, Answer),
    // No record can be told apart from here on.
    Stop(Refusal),
}

// Takes the record at the front of the bytes; `ended` says that no input follows them.
pub(crate) fn take_front(flow: &mut Flow, bytes: &[u8], ended: bool) -> Step
    ensures value { result ≡ step_of flow.old.run bytes.now ended }
    ensures within { Within (length bytes.now) result }
    ensures after { flow.new.run ≡ events_after flow.old.run bytes.now }
{
    if bytes.is_empty() {
        return Step::Wait;
    }
    let length = match front_mark(bytes) {
        Ok(mark) => mark.length(),
        Err(Refusal::CutShort) if !ended => return Step::Wait,
        Err(refusal) => return Step::Stop(refusal),
    };
    // Kept as a match: tried with `and_then`, and the proof did not close.
    match read_record(bytes) {
        Ok(found) => Step::Took(length, flow.take(found.0)),
        Err(refusal) => Step::Took(length, Err(refusal)),
    }
}
