//! Bounds of streams with jitter, and of a bus with a wire or without.
ghost use Rattle.std.specs.Prelude.{◌≡◌, ℕ, ◌≤◌, ◌↔◌, List, refl};
ghost use Rattle.dc_bound.specs.Window.{ticks_of, HoldAtMost};
ghost use Rattle.dc_bound.specs.Early.{jitter_cap, HoldsCap};
ghost use Rattle.dc_bound.specs.lemmas.Caps.{jitter_cap-mono, jitter_cap-bounded, holds_cap-count, holds_cap-prefix};
ghost use Rattle.dc_bound.specs.Capping.{capped, WireHolds};
ghost use Rattle.dc_bound.specs.lemmas.CappingLaws.{capped-zero, capped-mono, capped-bounded, capped-holds, capped-prefix};
ghost use Rattle.dc_bound.specs.declared.limits.TheConstants.{WIDEST_JITTER};

use crate::arrival::{ArrivalBound, Wire, jump_at, later};
use crate::walk::Watcher;

/// A source whose words come at least `minimum` ticks apart, but up to `jitter` ticks late: any d consecutive ticks
/// hold at most (d + jitter) / minimum, rounded up.
#[derive(Clone, Copy, Debug)]
pub struct Jittered {
    /// The least number of ticks from a word to the next without jitter, at least 1.
    pub minimum: u32,
    /// The jitter in ticks, at most [`WIDEST_JITTER`](crate::WIDEST_JITTER).
    pub jitter: u32,
    ghost positive: { 1 ≤ minimum },
    ghost small: { jitter ≤ WIDEST_JITTER },
}

impl Jittered {
    /// The bound of a source of `minimum`, 1 or more, with a jitter of at most
    /// [`WIDEST_JITTER`](crate::WIDEST_JITTER) ticks.
    pub fn new(minimum: u32, jitter: u32) -> Jittered
        requires positive { 1 ≤ minimum }
        requires small { jitter ≤ WIDEST_JITTER }
        ensures minimum { result.minimum ≡ minimum }
        ensures jitter { result.jitter ≡ jitter }
        ensures cap { (d : ℕ) → ⟦<Jittered as ArrivalBound>⟧.cap result d ≡ jitter_cap minimum jitter d }
        ensures allows { (xs : List (ℕ × ℕ)) → ⟦<Jittered as ArrivalBound>⟧.allows result xs ↔ HoldsCap (jitter_cap minimum jitter) (ticks_of xs) }
        // without jitter: any `minimum` ticks hold at most one
        ensures none { jitter ≡ 0 → (xs : List (ℕ × ℕ)) → ⟦<Jittered as ArrivalBound>⟧.allows result xs ↔ HoldAtMost 1 minimum (ticks_of xs) }
    {
        Jittered { minimum, jitter }
    }
}

impl ArrivalBound for Jittered {
    ghost cap = { λ x d. jitter_cap x.minimum x.jitter d };

    ghost allows = { λ x xs. HoldsCap (jitter_cap x.minimum x.jitter) (ticks_of xs) };

    fn at_most(&self, d: u32) -> u64 {
        if d == 0 {
            return 0;
        }
        u64::from((d + self.jitter).div_ceil(self.minimum))
    }

    fn at_most_and_jump(&self, d: u32) -> (u64, Option<u32>) {
        let count = self.at_most(d);
        if d == 0 {
            return (count, Some(1));
        }
        let filled = count * self.minimum as u64;
        (count, jump_at(filled + 1 - self.jitter as u64))
    }

    ghost cap_zero = { λ x. refl };

    ghost cap_monotone = { λ x d e h. jitter_cap-mono x.minimum x.jitter d e x.positive h };

    ghost cap_bounded = { λ x d h. jitter_cap-bounded x.minimum x.jitter d x.positive x.small h };

    ghost cap_holds = { λ x xs u d h. holds_cap-count (jitter_cap x.minimum x.jitter) (ticks_of xs) u d h };

    ghost allows_prefix = { λ x xs ys h. holds_cap-prefix (jitter_cap x.minimum x.jitter) xs ys h };
}

/// A bound and, where there is one, a wire's: the lesser of their caps.
#[derive(Clone, Copy, Debug)]
pub struct Capped<A> {
    sum: A,
    wire: Option<Wire>,
}

impl<A: ArrivalBound> Capped<A> {
    /// What keeps `sum` and, where there is one, `wire`.
    pub fn new(sum: A, wire: Option<Wire>) -> Capped<A>
        ensures cap { (d : ℕ) → ⟦<Capped<A> as ArrivalBound>⟧.cap result d ≡ capped wire d (A.cap sum d) }
        ensures allows { (xs : List (ℕ × ℕ)) → ⟦<Capped<A> as ArrivalBound>⟧.allows result xs ↔ (A.allows sum xs × WireHolds wire xs) }
    {
        Capped { sum, wire }
    }
}

impl<A: ArrivalBound> ArrivalBound for Capped<A> {
    ghost cap = { λ x d. capped x.wire d (A.cap x.sum d) };

    ghost allows = { λ x xs. A.allows x.sum xs × WireHolds x.wire xs };

    fn at_most(&self, d: u32) -> u64 {
        let most = self.sum.at_most(d);
        match &self.wire {
            None => most,
            Some(wire) => most.min(wire.at_most(d)),
        }
    }

    fn at_most_and_jump(&self, d: u32) -> (u64, Option<u32>) {
        let (first, first_jump) = self.sum.at_most_and_jump(d);
        let Some(wire) = &self.wire else {
            return (first, first_jump);
        };
        let (second, second_jump) = wire.at_most_and_jump(d);
        if first < second {
            return (first, first_jump);
        }
        if second < first {
            return (second, second_jump);
        }
        (first, later(first_jump, second_jump))
    }

    fn may_leap(&self) -> bool {
        self.sum.may_leap()
    }

    // one walk along what comes without the wire, which is asked where it does not carry all of that
    fn walk<W: Watcher>(&self, first: u32, last: u32, watcher: &mut W) -> bool {
        self.sum.walk_under(&self.wire, first, last, watcher)
    }

    ghost cap_zero = { λ x. capped-zero x.wire (A.cap x.sum 0) (A.cap_zero x.sum) };

    ghost cap_monotone = { λ x d e h. capped-mono x.wire d e (A.cap x.sum d) (A.cap x.sum e) h (A.cap_monotone x.sum d e h) };

    ghost cap_bounded = { λ x d h. capped-bounded x.wire d (A.cap x.sum d) (A.cap_bounded x.sum d h) };

    ghost cap_holds = { λ x xs u d h. capped-holds x.wire xs u d (A.cap x.sum d) (A.cap_holds x.sum xs u d h.0) h.1 };

    ghost allows_prefix = { λ x xs ys h. (A.allows_prefix x.sum xs ys h.0, capped-prefix x.wire xs ys h.1) };
}
