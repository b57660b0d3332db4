ghost use Rattle.std.specs.Prelude.{◌≡◌, ◌<◌, vec_len};

use crate::flow::Flow;
use crate::piece::take_piece;
use std::alloc::{AllocError, Global};
use std::io;
use std::io::Read;

// How many bytes of input are held at a time, however long the input is.
const HELD: usize = 65536;

// The input, as far as it is held: the beginning of a record at the front of a buffer, which is
// shorter than a report, so there is always room to read into.
// Kept as a buffer with a count: memory stays fixed, and a Vec of what is held would have to be
// filled with zeros again before each read.
#[derive(Drop)]
pub(crate) struct Input {
    buffer: Vec<u8>,
    held: usize,
    ghost room: { vec_len buffer ≡ 65536 },
    ghost short: { held < 10 },
}

impl Input {
    pub(crate) fn new(heap: Global) -> Result<Input, AllocError> {
        let buffer = vec![in heap; 0u8; HELD]?;
        Ok(Input { buffer, held: 0 })
    }

    // Reads on, takes the records, and prints what they answer. Tells whether the program goes on.
    pub(crate) fn turn(&mut self, rt: &HostRuntime, flow: &mut Flow) -> io::Result<bool> {
        let got = rt.stdin().read(&mut self.buffer[self.held..])?;
        let have = self.held + got;
        let ended = got == 0;
        let mut text = String::new(rt.alloc());
        let left = take_piece(flow, &self.buffer[..have], ended, &mut text)?;
        rt.print(text.as_str())?;
        match left {
            Some(left) if !ended => {
                self.buffer.copy_within(have - left..have, 0);
                self.held = left;
                Ok(true)
            }
            _ => Ok(false),
        }
    }
}
