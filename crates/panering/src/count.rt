ghost use Rattle.std.specs.Prelude.{◌≡◌, ◌≤◌, List, [], ◌∷◌, ◌++◌, if◌then◌else◌, Ok, Err, MatchResult, OnOk, nat_lt, slice_set};
ghost use Rattle.keys.specs.declared.refusal.Refusal.TheVariants.{RunFull};
ghost use Rattle.panering.specs.PaneRing.{Advanced, InPane, Noted, SameArea, vouches};
ghost use Rattle.tally.specs.Owed.{most_arrivals};

use crate::ring::{PaneRing, SLOTS};
use keys::key::Key;
use keys::refusal::Refusal;
use parts::part::{empty_part, note_part};

// Sets the level of the pane in a slot. Kept beside the log's `write_at`: no crate below both is about
// areas.
#[tactic(auto, using(std::proofs::lemmas::List::set_past))]
fn set_level(levels: &mut [u32; SLOTS], slot: usize, level: u32)
    ensures { levels.new ≡ slice_set levels.old slot level }
{
    // Kept as a test: after `get_mut` of an array a proof knows no element.
    if slot < SLOTS {
        levels[slot] = level;
    }
}

impl<'a, K: Key> PaneRing<'a, K> {
    // Notes an arrival in the current pane.
    fn note_current(&mut self, key: K)
        ensures noted { InPane K.Key key self.old self.new }
        ensures same { SameArea self.old self.new }
    {
        let slot = usize::from(self.shape.slot);
        let before = self.level_in(slot);
        let after = note_part(self.cells, usize::from(self.shape.k), slot, before, key);
        set_level(&mut self.levels, slot, after);
    }

    // Begins the next pane, as an empty table, where one arrival more fills the current one.
    fn advance(&mut self)
        ensures after { Advanced self.old self.new }
        ensures same { SameArea self.old self.new }
    {
        let shape = self.shape;
        if shape.fills() {
            let next = usize::from(shape.next_slot());
            empty_part::<K>(self.cells, usize::from(shape.k), next);
            set_level(&mut self.levels, next, 0);
        }
        self.shape = shape.after();
    }

    // Counts an arrival. Refused as run full, with everything as it was, at 100,000,000 arrivals.
    pub fn count(&mut self, key: K) -> Result<(), Refusal>
        ensures answer { result ≡ (if nat_lt self.old.run most_arrivals then Ok tt else Err RunFull) }
        ensures few { self.old.run ≤ most_arrivals }
        ensures after { MatchResult result (λ _. Noted K.Key key self.old self.new) (λ _. self.new ≡ self.old) }
        ensures ringed { OnOk result ((xs : List K) → vouches K.Key self.old xs → vouches K.Key self.new (xs ++ key ∷ [])) }
        ensures same { SameArea self.old self.new }
    {
        self.run.add()?;
        self.note_current(key);
        self.advance();
        Ok(())
    }
}
