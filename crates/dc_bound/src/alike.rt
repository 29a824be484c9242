//! The bound of several sources of one minimum and one jitter.
ghost use Rattle.std.specs.Prelude.{◌≡◌, ℕ, ◌*◌, ◌≤◌, ◌↔◌, List, refl};
ghost use Rattle.dc_bound.specs.Window.{ticks_of};
ghost use Rattle.dc_bound.specs.Early.{jitter_cap, HoldsCap};
ghost use Rattle.dc_bound.specs.lemmas.Caps.{holds_cap-count, holds_cap-prefix, jitter_cap-mono};
ghost use Rattle.dc_bound.specs.lemmas.Multiples.{multiple_zero, multiple_mono, multiple_bounded};
ghost use Rattle.dc_bound.specs.declared.limits.TheConstants.{MOST_ALIKE};

use crate::arrival::ArrivalBound;
use crate::jitter::Jittered;

/// So many sources of one minimum and one jitter: any d consecutive ticks hold at most so many times the cap of one.
#[derive(Clone, Copy, Debug)]
pub struct Alike {
    /// How many sources, 1 to [`MOST_ALIKE`](crate::MOST_ALIKE).
    pub sources: u32,
    /// The bound of each.
    pub each: Jittered,
    ghost some: { 1 ≤ sources },
    ghost few: { sources ≤ MOST_ALIKE },
}

impl Alike {
    /// The bound of so many sources, 1 to [`MOST_ALIKE`](crate::MOST_ALIKE), that each keep `each`.
    pub fn new(sources: u32, each: Jittered) -> Alike
        requires some { 1 ≤ sources }
        requires few { sources ≤ MOST_ALIKE }
        ensures sources { result.sources ≡ sources }
        ensures each { result.each ≡ each }
        ensures cap { (d : ℕ) → ⟦<Alike as ArrivalBound>⟧.cap result d ≡ sources * jitter_cap each.minimum each.jitter d }
        ensures allows { (xs : List (ℕ × ℕ)) → ⟦<Alike as ArrivalBound>⟧.allows result xs
            ↔ HoldsCap (λ d. sources * jitter_cap each.minimum each.jitter d) (ticks_of xs) }
    {
        Alike { sources, each }
    }
}

impl ArrivalBound for Alike {
    ghost cap = { λ x d. x.sources * jitter_cap x.each.minimum x.each.jitter d };

    ghost allows = { λ x xs. HoldsCap (λ d. x.sources * jitter_cap x.each.minimum x.each.jitter d) (ticks_of xs) };

    fn at_most(&self, d: u32) -> u64 {
        self.sources as u64 * self.each.at_most(d)
    }

    fn at_most_and_jump(&self, d: u32) -> (u64, Option<u32>) {
        let (most, jump) = self.each.at_most_and_jump(d);
        (self.sources as u64 * most, jump)
    }

    ghost cap_zero = { λ x. multiple_zero x.sources 0 refl };

    ghost cap_monotone = { λ x d e h. multiple_mono x.sources (jitter_cap x.each.minimum x.each.jitter d) (jitter_cap x.each.minimum x.each.jitter e)
        (jitter_cap-mono x.each.minimum x.each.jitter d e x.each.positive h) };

    ghost cap_bounded = { λ x d h. multiple_bounded x.sources x.each.minimum x.each.jitter d x.few x.each.positive x.each.small h };

    ghost cap_holds = { λ x xs u d h. holds_cap-count (λ d. x.sources * jitter_cap x.each.minimum x.each.jitter d) (ticks_of xs) u d h };

    ghost allows_prefix = { λ x xs ys h. holds_cap-prefix (λ d. x.sources * jitter_cap x.each.minimum x.each.jitter d) xs ys h };
}
