ghost use Rattle.std.specs.Prelude.{◌≡◌, ◌+◌, length, vec_len, OnOk};
ghost use Rattle.meter.specs.Runs.{Batch};

use crate::call::{Call, Rooms, Told};
use crate::state::Meter;
use keys::key::Key;
use std::alloc::{AllocError, Global};
use tally::Tally;

impl<'a, A: Key, B: Key, T: Tally<Key = A>> Meter<'a, A, B, T> {
    // Runs a list of calls and adds all their answers to those that are there. Where memory runs out,
    // the calls that have an answer were made, and no others.
    pub(crate) fn run(
        &mut self,
        calls: &[Call<A, B>],
        rooms: Rooms,
        answers: &mut Vec<Told<A::Record, B::Record>>,
        heap: Global,
    ) -> Result<(), AllocError>
        ensures batch { Batch A.Key B.Key T.Tally rooms self.old calls.now answers.old.items answers.new.items self.new }
        ensures all { OnOk result (vec_len answers.new ≡ vec_len answers.old + length calls.now) }
    {
        answers.reserve(calls.len())?;
        for &call in calls {
            let told = self.answer(call, rooms, heap)?;
            answers.push_reserved(told);
        }
        Ok(())
    }
}
