ghost use Rattle.std.specs.Prelude.{◌≡◌, ◌≤◌};
ghost use Rattle.panering.specs.Panes.{fills, inside, kept, next_slot, ring_spots, shape_after, slot_back, tail};

// The plan of a ring, and how far it has turned.
// No bound of its numbers stands in its type: the rules give the shape after an arrival for each
// shape, and would have to carry the bounds along.
#[derive(Clone, Copy, Debug, PartialEq, Eq)]
pub struct Shape {
    // How many cells a pane has.
    pub(crate) k: u8,
    // How many complete panes are kept, at most.
    pub(crate) panes: u8,
    // How many arrivals a complete pane has.
    pub(crate) length: u16,
    // Where the current pane stands.
    pub(crate) slot: u8,
    // How many arrivals the current pane has.
    pub(crate) filled: u16,
    // How many complete panes are kept now.
    pub(crate) complete: u8,
}

impl Shape {
    // The slot of the pane that came j panes before the current one.
    pub(crate) fn slot_back(self, j: usize) -> usize
        ensures { result ≡ slot_back self j }
    {
        let slot = usize::from(self.slot);
        let panes = usize::from(self.panes);
        if j <= slot {
            slot - j
        } else {
            (slot + (panes + 1)).saturating_sub(j)
        }
    }

    // The slot of the next pane.
    pub(crate) fn next_slot(self) -> u8
        ensures { result ≡ next_slot self }
    {
        if self.slot < self.panes {
            self.slot + 1
        } else {
            0
        }
    }

    // How many of the kept panes lie wholly within reach.
    pub(crate) fn inside(self) -> usize
        ensures { result ≡ inside self }
    {
        self.kept().min(usize::from(self.panes))
    }

    // How many panes are kept.
    pub(crate) fn kept(self) -> usize
        ensures { result ≡ kept self }
    {
        usize::from(self.complete) + 1
    }

    // How many cells all panes have: the places of the ring.
    pub(crate) fn spots(self) -> usize
        ensures value { result ≡ ring_spots self }
        ensures few { result ≤ 65536 }
    {
        (usize::from(self.panes) + 1) * usize::from(self.k)
    }

    // What a tail adds to the width: a pane length, where there is a tail.
    pub(crate) fn tail(self) -> u32
        ensures { result ≡ tail self }
    {
        if self.complete == self.panes {
            u32::from(self.length)
        } else {
            0
        }
    }

    // Whether one arrival more fills the current pane.
    pub(crate) fn fills(self) -> bool
        ensures { result ≡ fills self }
    {
        u32::from(self.length) <= u32::from(self.filled) + 1
    }

    // The shape after an arrival.
    pub(crate) fn after(self) -> Shape
        ensures { result ≡ shape_after self }
    {
        if self.fills() {
            Shape {
                slot: self.next_slot(),
                filled: 0,
                complete: self.complete.saturating_add(1).min(self.panes),
                ..self
            }
        } else {
            Shape {
                filled: self.filled + 1,
                ..self
            }
        }
    }
}
