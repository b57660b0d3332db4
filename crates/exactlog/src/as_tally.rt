ghost use Rattle.std.specs.Prelude.{◌≡◌, IsTrue, length};
ghost use Rattle.exactlog.specs.ExactLog.{count_in, key_at, reach_of, vouches};
ghost use Rattle.exactlog.specs.Logs.{most_kept};
ghost use Rattle.tally.specs.Plans.{plannable};

use crate::log::ExactLog;
use crate::places::record_back;
use crate::records::count_of;
use keys::key::Key;
use keys::refusal::Refusal;
use tally::Tally;

// The exact log as a tally: its reach is the number of arrivals that it keeps.
impl<'a, K: Key> Tally for ExactLog<'a, K> {
    type Key = K;

    ghost vouches = { vouches K.Key };

    ghost planned = { λ t. IsTrue (plannable most_kept (length t.area.now)) };

    ghost noted = { λ t. t.run };

    ghost reaches = { reach_of };

    ghost low = { count_in K.Key };

    ghost high = { count_in K.Key };

    ghost wide = { λ t. 0 };

    ghost top = { λ t. 0 };

    ghost spots = { reach_of };

    ghost held = { key_at K.Key };

    fn arrivals(&self) -> u32 {
        self.run.arrivals()
    }

    fn reach(&self) -> u32 {
        self.size() as u32
    }

    // How often a key stands in the log: both ends of its range.
    fn range(&self, key: K) -> (u32, u32) {
        let n = count_of(self.records(), key);
        (n, n)
    }

    fn width(&self) -> u32 {
        0
    }

    // A key held at no place does not stand in the log.
    fn ceiling(&self) -> u32 {
        0
    }

    fn places(&self) -> usize {
        self.size()
    }

    // The key of the arrival at a place, from the newest back.
    fn key_at(&self, place: usize) -> Option<K> {
        record_back(self.records(), self.next, place).and_then(|record| K::of_record(record))
    }

    fn note(&mut self, key: K) -> Result<(), Refusal> {
        self.count(key)
    }

    fn clear(&mut self) {
        self.empty();
    }
}
