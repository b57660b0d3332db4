ghost use Rattle.std.specs.Prelude.{◌≡◌, ℕ, ◌<◌};
ghost use Rattle.cells.specs.Cells.{capped};
ghost use Rattle.panering.specs.Panes.{sum_below};

// The sum of what each of the first panes has, from the current one back.
pub(crate) fn sum<F: Fn(usize) -> u32>(panes: usize, part: F) -> u32
    requires { F.IsAlwaysCallable part }
    ensures { (f : ℕ → ℕ) → ((j r : ℕ) → j < panes → F.post part j r → r ≡ f j) → result ≡ capped (sum_below f panes) }
{
    // Kept as a loop: tried as a chain with `fold`, of which the proof did not close.
    let mut total: u32 = 0;
    for j in 0..panes {
        total = total.saturating_add(part(j));
    }
    total
}
