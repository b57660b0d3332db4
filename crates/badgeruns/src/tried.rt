ghost use Rattle.std.specs.Prelude.{◌≡◌, ◌+◌, ◌/◌, false, List};
ghost use Rattle.badgetable.specs.Shown.{badge_count, reader_count};
ghost use Rattle.badgetable.specs.Tables.{accounts_for};

use badgetable::table::BadgeTable;
use keys::badge::Badge;
use keys::key::Key;
use keys::reader::Reader;
use keys::refusal::Refusal;
use trials::range::is_right;
use trials::trial::Trial;

// A kind of key with a first, a second and so on.
pub(crate) trait Listed: Key {
    // The key with a number, counting from 0.
    fn nth(number: u16) -> Option<Self>;

    // The number of the key that a pseudo-random number stands for; the lower ones come more often. Kept
    // by each kind: its numbers are all that it says.
    fn drawn(number: u32) -> u16;
}

// Readers 1 to 5 come.
impl Listed for Reader {
    fn nth(number: u16) -> Option<Reader> {
        Reader::try_from(number.checked_add(1)?).ok()
    }

    fn drawn(number: u32) -> u16 {
        ((number >> 16) % 5 * ((number >> 24) % 6) / 5) as u16
    }
}

// Badges with cards 0 to 3 come.
impl Listed for Badge {
    fn nth(number: u16) -> Option<Badge> {
        Some(Badge {
            site: 1,
            card: number,
        })
    }

    fn drawn(number: u32) -> u16 {
        ((number >> 12) % 4 * ((number >> 20) % 5) / 4) as u16
    }
}

// How many readers are asked for, and how many badges at each: those that come, and one more.
const READERS: u16 = 6;

const BADGES: u16 = 5;

// How often a reader stands in a list of arrivals. A sum of ones and zeros: a count of what a filter lets
// through takes a branch for each arrival.
fn count_reader<A: Key, B: Key>(history: &[(A, B)], reader: A) -> usize
    ensures { result ≡ reader_count A.eq reader history.now }
{
    history
        .iter()
        .map(|x| x.0)
        .map(|held| usize::from(reader == held))
        .sum()
}

// How often a badge stands there at a reader.
fn count_badge<A: Key, B: Key>(history: &[(A, B)], reader: A, badge: B) -> usize
    ensures { result ≡ badge_count A.eq B.eq reader badge history.now }
{
    history
        .iter()
        .filter(|x| reader == x.0 && badge == x.1)
        .count()
}

// n/(k + 1), rounded down.
fn share_beside(n: usize, k: usize) -> usize
    ensures { result ≡ n / (k + 1) }
{
    k.checked_add(1).map_or(0, |parts| n / parts)
}

// A badge table on trial.
#[derive(Drop)]
pub(crate) struct Tried<'a, A: Key, B: Key> {
    pub(crate) table: BadgeTable<'a, A, B>,
}

impl<'a, A: Listed, B: Listed> Tried<'a, A, B> {
    // Whether the range of a reader that came f times is false of the arrivals.
    fn is_reader_wrong(&self, reader: A, f: usize) -> bool
        ensures { (ps : List (A × B)) → accounts_for A.Key B.Key self.now.table ps → f ≡ reader_count A.eq reader ps → result ≡ false }
    {
        let width = share_beside(self.table.arrivals() as usize, self.table.rows());
        !is_right(self.table.reader_range(reader), f, width)
    }

    // Whether the range of a badge at such a reader is.
    fn is_badge_wrong(&self, history: &[(A, B)], reader: A, f: usize, badge: B) -> bool
        ensures { accounts_for A.Key B.Key self.now.table history.now → f ≡ reader_count A.eq reader history.now → result ≡ false }
    {
        let outer = share_beside(self.table.arrivals() as usize, self.table.rows());
        let inner = share_beside(f, self.table.cells_a_row());
        let count = count_badge(history, reader, badge);
        !is_right(
            self.table.badge_range(reader, badge),
            count,
            outer.saturating_add(inner),
        )
    }

    // The same for the badge with a number.
    fn is_wrong_there(&self, history: &[(A, B)], reader: A, f: usize, number: u16) -> bool
        ensures { accounts_for A.Key B.Key self.now.table history.now → f ≡ reader_count A.eq reader history.now → result ≡ false }
    {
        let Some(badge) = B::nth(number) else {
            return false;
        };
        self.is_badge_wrong(history, reader, f, badge)
    }

    // How many of the ranges of the reader with a number, and of all badges at it, are false. The reader
    // is counted once for all of them.
    fn count_wrong_at(&self, history: &[(A, B)], number: u16) -> u32
        ensures { accounts_for A.Key B.Key self.now.table history.now → result ≡ 0 }
    {
        let Some(reader) = A::nth(number) else {
            return 0;
        };
        let f = count_reader(history, reader);
        let badges = (0..BADGES)
            .filter(|number| self.is_wrong_there(history, reader, f, *number))
            .count();
        u32::from(self.is_reader_wrong(reader, f)) + badges as u32
    }
}

impl<'a, A: Listed, B: Listed> Trial for Tried<'a, A, B> {
    type Arrival = (A, B);

    ghost vouches = { λ s ps. accounts_for A.Key B.Key s.table ps };

    fn arrival(number: u32) -> Option<(A, B)> {
        A::nth(A::drawn(number)).zip(B::nth(B::drawn(number)))
    }

    fn note(&mut self, arrival: (A, B)) -> Result<(), Refusal> {
        self.table.note(arrival.0, arrival.1)
    }

    // The ranges of all readers asked for, and of all badges at them. Kept as a loop: the sum stops at the
    // largest number, as that of the whole run.
    fn count_wrong(&self, history: &[(A, B)]) -> u32 {
        let mut wrong: u32 = 0;
        for number in 0..READERS {
            wrong = wrong.saturating_add(self.count_wrong_at(history, number));
        }
        wrong
    }
}
