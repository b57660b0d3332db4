ghost use Rattle.std.specs.Prelude.{◌≡◌, false, IfOk};
ghost use Rattle.tally.specs.Arrivals.{occurs, true_count};

use keys::key::Key;
use keys::reader::Reader;
use keys::refusal::Refusal;
use std::alloc::{AllocError, Global};
use std::io;
use tally::Tally;
use trials::range::is_right;
use trials::trial::{Outcome, Trial, run};

// How many arrivals each pile is run over, and how many different readers come.
const ARRIVALS: usize = 400;

const READERS: u16 = 6;

// How often a key stands in a list of arrivals. A sum of ones and zeros: a count of what a filter lets
// through takes a branch for each arrival.
fn count<K: Key>(history: &[K], key: K) -> usize
    ensures { result ≡ occurs K.eq key history.now }
{
    history.iter().map(|held| usize::from(key == *held)).sum()
}

// How often a key stands in the latest t of all arrivals.
fn count_latest<K: Key>(history: &[K], t: usize, key: K) -> usize
    ensures { result ≡ true_count K.eq t key history.now }
{
    let from = history.len().saturating_sub(t);
    count(&history[from..], key)
}

// Whether what a tally tells of a key is false of the arrivals; never, of arrivals that it vouches
// for.
fn is_wrong<T: Tally>(tally: &T, history: &[T::Key], key: T::Key) -> bool
    ensures { T.vouches tally.now history.now → result ≡ false }
{
    let n = count_latest(history, tally.within() as usize, key);
    let range = tally.range(key);
    if !is_right(range, n, tally.width() as usize) {
        return true;
    }
    range.1 > tally.ceiling() && !tally.is_held_before(key, tally.places())
}

// A tally on trial, by arrivals of readers.
#[derive(Drop)]
struct Pile<'a, T> {
    tally: &'a mut T,
}

impl<'a, T: Tally<Key = Reader>> Pile<'a, T> {
    // Whether what the tally tells of the reader with a number is false of the arrivals.
    fn is_wrong_at(&self, history: &[Reader], number: u16) -> bool
        ensures { T.vouches self.now.tally.now history.now → result ≡ false }
    {
        Reader::try_from(number).is_ok_and(|reader| is_wrong(self.tally, history, reader))
    }
}

impl<'a, T: Tally<Key = Reader>> Trial for Pile<'a, T> {
    type Arrival = Reader;

    ghost vouches = { λ s xs. T.vouches s.tally.now xs };

    // The lower readers come more often.
    fn arrival(number: u32) -> Option<Reader> {
        Reader::try_from(1 + ((number >> 16) % 6 * ((number >> 24) % 7) / 6) as u16).ok()
    }

    fn note(&mut self, reader: Reader) -> Result<(), Refusal> {
        self.tally.note(reader)
    }

    fn count_wrong(&self, history: &[Reader]) -> u32 {
        (1..READERS + 2)
            .filter(|number| self.is_wrong_at(history, *number))
            .count() as u32
    }
}

// Clears a tally, and runs it over many arrivals. No answer is wrong.
fn tried<T: Tally<Key = Reader>>(tally: &mut T, heap: Global) -> Result<Outcome, AllocError>
    ensures { IfOk result (λ o. o.wrong ≡ 0) }
{
    tally.clear();
    run(&mut Pile { tally }, 7, ARRIVALS, heap)
}

// Runs a tally, and prints how many answers were wrong.
pub(crate) fn compare<T: Tally<Key = Reader>>(
    rt: &HostRuntime,
    name: &str,
    tally: &mut T,
) -> io::Result<()> {
    let outcome = tried(tally, rt.alloc())?;
    println!(rt; "{name}: {outcome}")
}
