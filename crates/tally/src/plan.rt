ghost use Rattle.std.specs.Prelude.{◌≡◌};
ghost use Rattle.tally.specs.Plans.{plan_fits};

// Whether a plan of so many places can be had, where there are 1 to `most`, and fits an area.
pub fn fits(most: usize, places: usize, area: usize) -> bool
    ensures { result ≡ plan_fits most places area }
{
    (1..=most).contains(&places) && area == places
}
