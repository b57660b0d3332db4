ghost use Rattle.std.specs.Prelude.{◌≡◌};
ghost use Rattle.cells.specs.Cells.{level_after};

// Which rule an arrival met.
#[derive(Clone, Copy, Debug, PartialEq, Eq)]
pub enum Rule {
    // The key is held: its cell counts one more.
    Count(usize),
    // The key enters the first free cell.
    Enter(usize),
    // No cell is free: the level grows by one, and cells that it reaches are freed.
    Raise,
}

impl Rule {
    // The level after an arrival that met this rule.
    pub fn level_after(self, level: u32) -> u32
        ensures { result ≡ level_after level self }
    {
        match self {
            Rule::Count(_) | Rule::Enter(_) => level,
            Rule::Raise => level.saturating_add(1),
        }
    }
}
