ghost use Rattle.std.specs.Prelude.{◌≡◌, ◌≤◌, ◌<◌, ℕ, List, ◌++◌, length, string_bytes, IfOk, IfSome};
ghost use Rattle.flowreport.specs.Pieces.{Taken};

use crate::flow::Flow;
use crate::step::{Step, take_front};
use crate::text::Lines;
use std::alloc::AllocError;

// Takes the whole records of a piece, and adds the lines that they print to the text. The result is
// how many bytes are left over at the end, the beginning of a record; none where the program stops.
pub(crate) fn take_piece(
    flow: &mut Flow,
    bytes: &[u8],
    ended: bool,
    text: &mut String,
) -> Result<Option<usize>, AllocError>
    ensures value { IfOk result (λ o. (lines : List ℕ) × (string_bytes text.new ≡ string_bytes text.old ++ lines) × Taken ended flow.old.run bytes.now lines flow.new.run o) }
    ensures within { IfOk result (λ o. IfSome o (λ left. (left ≤ length bytes.now) × (left < 10))) }
{
    let mut rest = bytes;
    loop {
        match take_front(flow, rest, ended) {
            Step::Wait => return Ok(Some(rest.len())),
            Step::Took(length, answer) => {
                write!(text, "{}", Lines(answer))?;
                rest = &rest[length..];
            }
            Step::Stop(refusal) => {
                write!(text, "{}", Lines(Err(refusal)))?;
                return Ok(None);
            }
        }
    }
}
