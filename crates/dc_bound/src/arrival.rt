//! Bounds on what may arrive in so many consecutive ticks.

ghost use Rattle.std.specs.Prelude.{◌≡◌, ℕ, ◌+◌, ◌-◌, ◌*◌, ◌/◌, ◌^◌, ◌<◌, ◌≤◌, ◌↔◌, ◌++◌, List, Option, length, min, refl, IfSome, true, false};
ghost use Rattle.std.specs.List.{sum_by};
ghost use Rattle.dc_bound.specs.Window.{count_in, ticks_of, IsNextJump, HoldAtMost, HoldsWire, Spaced, wire_cap};
ghost use Rattle.dc_bound.specs.Turns.{NeverFall};
ghost use Rattle.dc_bound.specs.Tags.{SumAllows};
ghost use Rattle.dc_bound.specs.lemmas.Sums.{SumAllows-count, SumAllows-prefix, sum_zero, sum_monotone, sum_bounded};
ghost use Rattle.dc_bound.specs.lemmas.Counts.{ceil_zero, ceil_mono, ceil_bounded, both_zero, both_mono, both_bounded, both_holds, wire_mono, wire_bounded, wire_holds, wire_prefix};
ghost use Rattle.dc_bound.specs.lemmas.Budget.{one_each_holds, one_each_prefix};
ghost use Rattle.dc_bound.specs.Window.{IsKept, Shown, earlier_jump, later_jump};
ghost use Rattle.dc_bound.specs.Under.{under};
ghost use Rattle.dc_bound.specs.Terms.{KeepsTerms};
ghost use Rattle.dc_bound.specs.declared.terms.TheConstants.{MOST_TERMS};
ghost use Rattle.dc_bound.specs.declared.limits.TheConstants.{GREATEST_CAP, LONGEST_SPAN, LONGEST_TICK, LONGEST_WALK};

use crate::limits::LONGEST_SPAN;
use crate::terms::{FEW_TERMS, MOST_TERMS, Terms};
use crate::under::lesser;
use crate::walk::Watcher;

/// A number of ticks that stands for no jump.
pub(crate) const NO_JUMP: u32 = LONGEST_SPAN + 1;

/// What may come at most in any so many consecutive ticks.
pub trait ArrivalBound {
    // the most entries in d consecutive ticks
    ghost cap: { Self → ℕ → ℕ };

    // the lists of (tick, tag) that keep the bound
    ghost allows: { Self → List (ℕ × ℕ) → Type 0 };

    /// The most entries in any `d` consecutive ticks; `d` is at most [`LONGEST_SPAN`].
    fn at_most(&self, d: u32) -> u64
        requires { d ≤ LONGEST_SPAN }
        ensures { result ≡ cap self.now d };

    /// Both at once: what `at_most` says of `d`, and what `next_jump` says of it.
    fn at_most_and_jump(&self, d: u32) -> (u64, Option<u32>)
        requires { d ≤ LONGEST_SPAN }
        ensures most { result.0 ≡ cap self.now d }
        ensures jump { IsNextJump (cap self.now) d result.1 };

    /// The least number of ticks above `d`, up to [`LONGEST_SPAN`], in which more may come than in `d`; `None` where
    /// there is none. `d` is at most [`LONGEST_SPAN`].
    fn next_jump(&self, d: u32) -> Option<u32>
        requires { d ≤ LONGEST_SPAN }
        ensures { IsNextJump (cap self.now) d result }
    {
        let (_, jump) = self.at_most_and_jump(d);
        jump
    }

    /// Whether a walk may leap: whether a look by `at_most` costs no more than some tens of the walk's own steps. Any
    /// answer is right.
    fn may_leap(&self) -> bool {
        true
    }

    /// Shows a watcher the numbers of ticks from `first`, at least 1, to `last`, at most
    /// [`LONGEST_WALK`](crate::LONGEST_WALK), stretch by stretch of one cap each, until it wants to see no more. Whether
    /// it wants to see more.
    fn walk<W: Watcher>(&self, first: u32, last: u32, watcher: &mut W) -> bool
    where
        Self: Sized,
        requires first { 1 ≤ first }
        requires order { first ≤ last + 1 }
        requires far { last ≤ LONGEST_WALK }
        requires knows { W.knows watcher.old (cap self.now) first }
        ensures all { result ≡ true → W.knows watcher.new (cap self.now) (last + 1) }
        ensures ended { result ≡ false → W.ends watcher.new (cap self.now) }
    {
        let mut ticks = first;
        while ticks <= last {
            let (most, jump) = self.at_most_and_jump(ticks);
            let until = jump.unwrap_or(last + 1).min(last + 1);
            if !watcher.see(ticks, until, most) {
                return false;
            }
            ticks = until;
        }
        true
    }

    /// What `walk` does, of the lesser of this bound and a wire's where there is one.
    fn walk_under<W: Watcher>(
        &self,
        wire: &Option<Wire>,
        first: u32,
        last: u32,
        watcher: &mut W,
    ) -> bool
    where
        Self: Sized,
        requires first { 1 ≤ first }
        requires order { first ≤ last + 1 }
        requires far { last ≤ LONGEST_WALK }
        requires knows { W.knows watcher.old (λ d. under (λ (w : Wire) e. wire_cap w.tick w.spacing e) wire.now d (cap self.now d)) first }
        ensures all { result ≡ true → W.knows watcher.new (λ d. under (λ (w : Wire) e. wire_cap w.tick w.spacing e) wire.now d (cap self.now d)) (last + 1) }
        ensures ended { result ≡ false → W.ends watcher.new (λ d. under (λ (w : Wire) e. wire_cap w.tick w.spacing e) wire.now d (cap self.now d)) }
    {
        let mut ticks = first;
        while ticks <= last {
            let (most, jump) = self.at_most_and_jump(ticks);
            let next = jump.unwrap_or(last + 1).min(last + 1);
            let (shown, end) = lesser(wire, ticks, next, last, most);
            if !watcher.see(ticks, end, shown) {
                return false;
            }
            ticks = end;
        }
        true
    }

    // nothing comes in no ticks
    ghost cap_zero: { (x : Self) → cap x 0 ≡ 0 };

    // no less comes in more ticks
    ghost cap_monotone: { (x : Self) (d e : ℕ) → d ≤ e → cap x d ≤ cap x e };

    ghost cap_bounded: { (x : Self) (d : ℕ) → d ≤ LONGEST_SPAN → cap x d ≤ GREATEST_CAP };

    // an allowed list has at most the cap in any d consecutive ticks
    ghost cap_holds: { (x : Self) (xs : List (ℕ × ℕ)) (u d : ℕ) → allows x xs → count_in u d (ticks_of xs) ≤ cap x d };

    // what stands at the front of an allowed list is allowed
    ghost allows_prefix: { (x : Self) (xs ys : List (ℕ × ℕ)) → allows x (xs ++ ys) → allows x xs };
}

/// At most one entry in any `minimum` consecutive ticks: neighbours lie at least so far apart.
#[derive(Clone, Copy, Debug)]
pub struct Sporadic {
    /// The least number of ticks from an entry to the next, at least 1.
    pub minimum: u32,
    ghost positive: { 1 ≤ minimum },
}

impl Sporadic {
    /// The bound of a source that lets at least `minimum` ticks, 1 or more, pass from an entry to the next.
    pub fn new(minimum: u32) -> Sporadic
        requires { 1 ≤ minimum }
        ensures minimum { result.minimum ≡ minimum }
        ensures cap { (d : ℕ) → ⟦<Sporadic as ArrivalBound>⟧.cap result d ≡ (d + (minimum - 1)) / minimum }
        ensures allows { (xs : List (ℕ × ℕ)) → ⟦<Sporadic as ArrivalBound>⟧.allows result xs ↔ HoldAtMost 1 minimum (ticks_of xs) }
        // of entries in order: each lies at least so many ticks after the one before it
        ensures spaced { (xs : List (ℕ × ℕ)) → NeverFall (ticks_of xs) → ⟦<Sporadic as ArrivalBound>⟧.allows result xs ↔ Spaced minimum xs }
    {
        Sporadic { minimum }
    }
}

impl ArrivalBound for Sporadic {
    ghost cap = { λ x d. (d + (x.minimum - 1)) / x.minimum };

    ghost allows = { λ x xs. HoldAtMost 1 x.minimum (ticks_of xs) };

    fn at_most(&self, d: u32) -> u64 {
        u64::from(d.div_ceil(self.minimum))
    }

    fn at_most_and_jump(&self, d: u32) -> (u64, Option<u32>) {
        let count = self.at_most(d);
        (count, jump_at(count * self.minimum as u64 + 1))
    }

    ghost cap_zero = { λ x. ceil_zero x.minimum x.positive };

    ghost cap_monotone = { λ x d e h. ceil_mono x.minimum d e x.positive h };

    ghost cap_bounded = { λ x d h. ceil_bounded x.minimum d x.positive h };

    ghost cap_holds = { λ x xs u d h. one_each_holds x.minimum x.positive xs u d h };

    ghost allows_prefix = { λ x xs ys h. one_each_prefix x.minimum xs ys h };
}

/// What a wire carries: any `d` ticks of `tick` microseconds hold at most `d x tick / spacing` entries, rounded down,
/// and one more.
#[derive(Clone, Copy, Debug)]
pub struct Wire {
    /// The length of a tick in microseconds, 1 to [`LONGEST_TICK`].
    pub tick: u32,
    /// The time from a word to the next in microseconds, at least 1.
    pub spacing: u32,
    ghost some_tick: { 1 ≤ tick },
    ghost short_tick: { tick ≤ LONGEST_TICK },
    ghost some_spacing: { 1 ≤ spacing },
}

impl Wire {
    /// The bound of a wire whose words lie `spacing` microseconds apart, 1 or more, in ticks of `tick` microseconds, 1
    /// to [`LONGEST_TICK`].
    pub fn new(tick: u32, spacing: u32) -> Wire
        requires some_tick { 1 ≤ tick }
        requires short_tick { tick ≤ LONGEST_TICK }
        requires some_spacing { 1 ≤ spacing }
        ensures cap { (d : ℕ) → ⟦<Wire as ArrivalBound>⟧.cap result d ≡ wire_cap tick spacing d }
        ensures allows { (xs : List (ℕ × ℕ)) → ⟦<Wire as ArrivalBound>⟧.allows result xs ↔ HoldsWire tick spacing (ticks_of xs) }
    {
        Wire { tick, spacing }
    }
}

impl ArrivalBound for Wire {
    ghost cap = { λ x d. wire_cap x.tick x.spacing d };

    ghost allows = { λ x xs. HoldsWire x.tick x.spacing (ticks_of xs) };

    fn at_most(&self, d: u32) -> u64 {
        if d == 0 {
            return 0;
        }
        d as u64 * self.tick as u64 / self.spacing as u64 + 1
    }

    fn at_most_and_jump(&self, d: u32) -> (u64, Option<u32>) {
        let count = self.at_most(d);
        if d == 0 {
            return (count, Some(1));
        }
        let time = count * self.spacing as u64;
        (
            count,
            jump_at((time + (self.tick as u64 - 1)) / self.tick as u64),
        )
    }

    ghost cap_zero = { λ x. refl };

    ghost cap_monotone = { λ x d e h. wire_mono x.tick x.spacing d e x.some_spacing h };

    ghost cap_bounded = { λ x d h. wire_bounded x.tick x.spacing d x.short_tick x.some_spacing h };

    ghost cap_holds = { λ x xs u d h. wire_holds x.tick x.spacing xs u d h };

    ghost allows_prefix = { λ x xs ys h. wire_prefix x.tick x.spacing xs ys h };
}

/// The sum of several bounds: an entry tells its member by its tag, and the members' tags follow one another.
#[derive(Drop)]
pub struct SumOf<'a, B: ArrivalBound> {
    first: usize,
    members: &'a [B],
    ghost small: { sum_by (λ (b : B). B.cap b LONGEST_SPAN) members.now ≤ GREATEST_CAP },
}

impl<'a, B: ArrivalBound> SumOf<'a, B> {
    /// The sum of `members`, the first of which has the tag `first`. Their caps at [`LONGEST_SPAN`] ticks sum up to at
    /// most [`GREATEST_CAP`].
    pub fn new(first: usize, members: &'a [B]) -> SumOf<'a, B>
        requires { sum_by (λ (b : B). B.cap b LONGEST_SPAN) members.now ≤ GREATEST_CAP }
        ensures cap { (d : ℕ) → ⟦<SumOf<'a, B> as ArrivalBound>⟧.cap result d ≡ sum_by (λ (b : B). B.cap b d) members.now }
        ensures allows { (xs : List (ℕ × ℕ)) → ⟦<SumOf<'a, B> as ArrivalBound>⟧.allows result xs
            ↔ SumAllows (λ (b : B) ys. B.allows b ys) first members.now xs }
    {
        SumOf { first, members }
    }

    // What a walk keeps of its members: nothing where they are few or too many.
    fn terms(&self) -> Option<Terms>
        ensures { (ticks : ℕ) → IfSome result (λ t. (length self.now.members.now ≤ MOST_TERMS) × KeepsTerms B.cap self.now.members.now ticks t) }
    {
        if self.members.len() <= FEW_TERMS || self.members.len() > MOST_TERMS {
            return None;
        }
        Some(Terms::new())
    }

    // What comes at most in so many ticks, and before which number of them, at most one past `last`, that stays so.
    fn stretch(&self, terms: &mut Option<Terms>, ticks: u32, last: u32) -> (u64, u32)
        requires some { ticks ≤ last }
        requires far { last ≤ LONGEST_WALK }
        requires kept { IfSome terms.old (λ t. (length self.now.members.now ≤ MOST_TERMS) × KeepsTerms B.cap self.now.members.now ticks t) }
        ensures kept { IfSome terms.new (λ t. (length self.now.members.now ≤ MOST_TERMS) × KeepsTerms B.cap self.now.members.now ticks t) }
        ensures shown { Shown (λ k. sum_by (λ (b : B). B.cap b k) self.now.members.now) ticks result.1 result.0 }
        ensures later { ticks < result.1 }
        ensures inside { result.1 ≤ last + 1 }
    {
        let Some(terms) = terms else {
            let (most, jump) = self.at_most_and_jump(ticks);
            return (most, jump.unwrap_or(last + 1).min(last + 1));
        };
        let until = terms.next(self.members, ticks, last + 1);
        (terms.total, until)
    }
}

impl<'a, B: ArrivalBound> ArrivalBound for SumOf<'a, B> {
    ghost cap = { λ x d. sum_by (λ (b : B). B.cap b d) x.members.now };

    ghost allows = { λ x xs. SumAllows (λ (b : B) ys. B.allows b ys) x.first x.members.now xs };

    fn at_most(&self, d: u32) -> u64 {
        let mut total: u64 = 0;
        for member in self.members {
            total += member.at_most(d);
        }
        total
    }

    fn at_most_and_jump(&self, d: u32) -> (u64, Option<u32>) {
        let mut total: u64 = 0;
        let mut jump = NO_JUMP;
        for member in self.members {
            let (most, next) = member.at_most_and_jump(d);
            total += most;
            jump = earlier(jump, next);
        }
        (total, jump_at(jump as u64))
    }

    fn may_leap(&self) -> bool {
        self.members.iter().all(|member| member.may_leap())
    }

    fn walk<W: Watcher>(&self, first: u32, last: u32, watcher: &mut W) -> bool {
        self.walk_under(&None, first, last, watcher)
    }

    fn walk_under<W: Watcher>(
        &self,
        wire: &Option<Wire>,
        first: u32,
        last: u32,
        watcher: &mut W,
    ) -> bool {
        let mut terms = self.terms();
        let mut ticks = first;
        while ticks <= last {
            let (most, until) = self.stretch(&mut terms, ticks, last);
            let (shown, end) = lesser(wire, ticks, until, last, most);
            if !watcher.see(ticks, end, shown) {
                return false;
            }
            ticks = end;
        }
        true
    }

    ghost cap_zero = { λ x. sum_zero (λ (b : B). B.cap b 0) (λ b. B.cap_zero b) x.members.now };

    ghost cap_monotone = { λ x d e h. sum_monotone (λ (b : B) (n : ℕ). B.cap b n) (λ b m n k. B.cap_monotone b m n k) x.members.now d e h };

    ghost cap_bounded = { λ x d h. sum_bounded (λ (b : B) (n : ℕ). B.cap b n) (λ b m n k. B.cap_monotone b m n k) x.members.now x.small d h };

    ghost cap_holds = { λ x xs u d h. SumAllows-count (λ (b : B) ys. B.allows b ys) u d (λ (b : B). B.cap b d) (λ b ys k. B.cap_holds b ys u d k)
        x.first x.members.now xs h };

    ghost allows_prefix = { λ x xs ys h. SumAllows-prefix (λ (b : B) zs. B.allows b zs) (λ b zs ws k. B.allows_prefix b zs ws k)
        x.first x.members.now xs ys h };
}

/// Both of two bounds: the lesser of their caps.
#[derive(Clone, Copy, Debug)]
pub struct Both<A, B> {
    first: A,
    second: B,
}

impl<A: ArrivalBound, B: ArrivalBound> Both<A, B> {
    /// What keeps `first` and `second`.
    pub fn new(first: A, second: B) -> Both<A, B>
        ensures cap { (d : ℕ) → ⟦<Both<A, B> as ArrivalBound>⟧.cap result d ≡ min (A.cap first d) (B.cap second d) }
        ensures allows { (xs : List (ℕ × ℕ)) → ⟦<Both<A, B> as ArrivalBound>⟧.allows result xs ↔ (A.allows first xs × B.allows second xs) }
    {
        Both { first, second }
    }
}

impl<A: ArrivalBound, B: ArrivalBound> ArrivalBound for Both<A, B> {
    ghost cap = { λ x d. min (A.cap x.first d) (B.cap x.second d) };

    ghost allows = { λ x xs. A.allows x.first xs × B.allows x.second xs };

    fn at_most(&self, d: u32) -> u64 {
        self.first.at_most(d).min(self.second.at_most(d))
    }

    fn at_most_and_jump(&self, d: u32) -> (u64, Option<u32>) {
        let (first, first_jump) = self.first.at_most_and_jump(d);
        let (second, second_jump) = self.second.at_most_and_jump(d);
        if first < second {
            return (first, first_jump);
        }
        if second < first {
            return (second, second_jump);
        }
        (first, later(first_jump, second_jump))
    }

    fn may_leap(&self) -> bool {
        self.first.may_leap() && self.second.may_leap()
    }

    ghost cap_zero = { λ x. both_zero (A.cap x.first 0) (B.cap x.second 0) (A.cap_zero x.first) };

    ghost cap_monotone = { λ x d e h. both_mono (A.cap x.first d) (B.cap x.second d) (A.cap x.first e) (B.cap x.second e) (A.cap_monotone x.first d e h)
        (B.cap_monotone x.second d e h) };

    ghost cap_bounded = { λ x d h. both_bounded (A.cap x.first d) (B.cap x.second d) (A.cap_bounded x.first d h) };

    ghost cap_holds = { λ x xs u d h. both_holds (A.cap x.first d) (B.cap x.second d) (count_in u d (ticks_of xs)) (A.cap_holds x.first xs u d h.0)
        (B.cap_holds x.second xs u d h.1) };

    ghost allows_prefix = { λ x xs ys h. (A.allows_prefix x.first xs ys h.0, B.allows_prefix x.second xs ys h.1) };
}

// A jump that is known by its tick count, if it is not past the longest window.
pub(crate) fn jump_at(ticks: u64) -> Option<u32>
    ensures { IsKept ticks result }
{
    if ticks <= LONGEST_SPAN as u64 {
        Some(ticks as u32)
    } else {
        None
    }
}

/// The earlier of a jump that is kept as a number and another.
fn earlier(kept: u32, other: Option<u32>) -> u32
    requires { IfSome other (λ j. j ≤ LONGEST_SPAN) }
    ensures { (jump : Option ℕ) → IsKept kept jump → IsKept result (earlier_jump jump other) }
{
    kept.min(other.unwrap_or(NO_JUMP))
}

// The later of two jumps, where there are two.
pub(crate) fn later(one: Option<u32>, other: Option<u32>) -> Option<u32>
    ensures { result ≡ later_jump one other }
{
    match (one, other) {
        (Some(i), Some(j)) => Some(i.max(j)),
        _ => None,
    }
}
