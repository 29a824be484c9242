//! Who is shown a walk along a bound.

ghost use Rattle.std.specs.Prelude.{◌≡◌, ℕ, ◌+◌, ◌<◌, ◌≤◌, true, false};
ghost use Rattle.dc_bound.specs.Window.{Shown};
ghost use Rattle.dc_bound.specs.declared.limits.TheConstants.{LONGEST_WALK};

/// Who is shown a walk along a bound, stretch by stretch.
pub trait Watcher {
    // what it knows of a cap when it was shown each number of ticks from the walk's first one on and below this one
    ghost knows: { Self → (ℕ → ℕ) → ℕ → Type 0 };

    // what it knows of a cap when it wants to see no more
    ghost ends: { Self → (ℕ → ℕ) → Type 0 };

    /// Sees that `most` may come in each number of ticks from `ticks` on and below `until`. Whether it wants to see
    /// more.
    fn see(&mut self, ticks: u32, until: u32, most: u64) -> bool
        requires first { 1 ≤ ticks }
        requires some { ticks < until }
        requires far { until ≤ LONGEST_WALK + 1 }
        ensures goes { result ≡ true → (cap : ℕ → ℕ) → knows self.old cap ticks → Shown cap ticks until most → knows self.new cap until }
        ensures ends { result ≡ false → (cap : ℕ → ℕ) → knows self.old cap ticks → Shown cap ticks until most → ends self.new cap };
}
