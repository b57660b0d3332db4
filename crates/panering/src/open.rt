ghost use Rattle.std.specs.Prelude.{◌≡◌, [], length, IfSome, if◌then◌else◌, Some, None, Ok, Err, MatchResult, OnOk};
ghost use Rattle.keys.specs.declared.refusal.Refusal.TheVariants.{MisfitPlan};
ghost use Rattle.panering.specs.PaneRing.{Emptied, IsEmpty, SameArea, vouches};
ghost use Rattle.panering.specs.Panes.{at_start, has_room, plan_fits, restarted};
ghost use Rattle.panering.specs.Ringed.{Fresh};

use crate::ring::{PaneRing, SLOTS};
use crate::shape::Shape;
use cells::cell::Cell;
use cells::each::empty_cells;
use keys::key::Key;
use keys::refusal::Refusal;
use tally::run::Run;

// The shape of a ring that has noted nothing.
fn start(k: u8, panes: u8, length: u16) -> Shape
    ensures { result ≡ at_start k panes length }
{
    Shape {
        k,
        panes,
        length,
        slot: 0,
        filled: 0,
        complete: 0,
    }
}

// Whether an area has room for a plan.
fn is_roomy(shape: Shape, area: usize) -> bool
    ensures { result ≡ has_room shape area }
{
    (1..=64).contains(&shape.panes)
        && shape.length >= 1
        && (usize::from(shape.panes) + 1) * usize::from(shape.k) <= area
}

// The shape to begin with anew: a plan that there is no room for gives way to one of no cells.
fn restart(shape: Shape, area: usize) -> Shape
    ensures value { result ≡ restarted shape area }
    ensures fresh { Fresh result area }
{
    if is_roomy(shape, area) {
        start(shape.k, shape.panes, shape.length)
    } else {
        start(0, 1, 1)
    }
}

// The plan of numbers that are asked for, if they fit an area.
fn plan(b: u32, p: usize, k: usize, area: usize) -> Option<Shape>
    ensures value { result ≡ (if plan_fits b p k area then Some (at_start k p b) else None) }
    ensures fresh { IfSome result (λ s. Fresh s area) }
{
    if !(1..=65535).contains(&b) || !(1..=64).contains(&p) || !(1..=64).contains(&k) {
        return None;
    }
    if area != (p + 1) * k {
        return None;
    }
    let (k, p, b) = (
        u8::try_from(k).ok()?,
        u8::try_from(p).ok()?,
        u16::try_from(b).ok()?,
    );
    Some(start(k, p, b))
}

impl<'a, K: Key> PaneRing<'a, K> {
    // Holds an area, as it is, for a ring that is still to be opened. Each table says this of its own area,
    // and the answers of `open` and of a count by equations: what each call answers, and no fact of a value.
    pub fn over(cells: &'a mut [Cell<K::Record, ()>]) -> Self
        ensures area { (result.cells.now ≡ cells.old) × (result.cells.ghost_name ≡ cells.entry.ghost_name) }
        ensures start { IsEmpty (at_start 0 1 1) result }
    {
        PaneRing {
            cells,
            levels: [0; SLOTS],
            shape: start(0, 1, 1),
            run: Run::new(),
        }
    }

    // Begins anew with a shape that the area has room for.
    fn begin(&mut self, shape: Shape)
        requires { Fresh shape (length self.old.cells.now) }
        ensures after { Emptied shape self.old self.new }
        ensures ringed { vouches K.Key self.new [] }
        ensures same { SameArea self.old self.new }
    {
        empty_cells::<K, ()>(self.cells);
        self.levels = [0; SLOTS];
        self.shape = shape;
        self.run = Run::new();
    }

    // Makes the ring empty: all cells free, all levels 0, no arrivals.
    pub fn empty(&mut self)
        ensures after { Emptied (restarted self.old.shape (length self.old.cells.now)) self.old self.new }
        ensures ringed { vouches K.Key self.new [] }
        ensures same { SameArea self.old self.new }
    {
        self.begin(restart(self.shape, self.cells.len()));
    }

    // Opens an empty ring of panes of b arrivals, P complete ones, and k cells a pane. Refused as a
    // misfit plan, with everything as it was, where b is not 1 to 65,535, P or k is not 1 to 64, or
    // the area does not have (P + 1) × k cells.
    pub fn open(&mut self, b: u32, p: usize, k: usize) -> Result<(), Refusal>
        ensures answer { result ≡ (if plan_fits b p k (length self.old.cells.now) then Ok tt else Err MisfitPlan) }
        ensures after { MatchResult result (λ _. Emptied (at_start k p b) self.old self.new) (λ _. self.new ≡ self.old) }
        ensures ringed { OnOk result (vouches K.Key self.new []) }
        ensures same { SameArea self.old self.new }
    {
        let shape = plan(b, p, k, self.cells.len()).ok_or(Refusal::MisfitPlan)?;
        self.begin(shape);
        Ok(())
    }
}
