//! The arrival bound of entries that are due at offsets in a frame.

ghost use Rattle.std.specs.Prelude.{◌≡◌, ℕ, ◌+◌, ◌-◌, ◌*◌, ◌<◌, ◌≤◌, ◌↔◌, List, length};
ghost use Rattle.dc_bound.specs.Window.{IsNextJump};
ghost use Rattle.dc_bound.specs.Frame.{due, IsDue, Offsets};
ghost use Rattle.dc_bound.specs.Frame.{cyclic_cap};
ghost use Rattle.dc_bound.specs.lemmas.Spans.{cyclic_zero, cap_grows, cyclic_bounded, cyclic_holds, due_prefix};
ghost use Rattle.dc_bound.specs.Frame.{IsLeastSpan};
ghost use Rattle.dc_bound.specs.Splits.{IsSplit, ArePastSpans};
ghost use Rattle.dc_bound.specs.declared.limits.TheConstants.{LONGEST_FRAME, LONGEST_SPAN, MOST_ENTRIES};

use crate::arrival::ArrivalBound;
use crate::limits::{LONGEST_SPAN, MOST_ENTRIES};
use crate::walk::Watcher;

/// The most entries of a frame for which a walk leaps.
const FEW_ENTRIES: usize = 32;

/// Entries that are due at offsets in a frame that comes again and again.
#[derive(Drop)]
pub struct Cyclic<'a> {
    frame: u32,
    offsets: &'a [u32],
    ghost framed: { Offsets frame offsets.now },
    ghost short: { frame ≤ LONGEST_FRAME },
    ghost few: { length offsets.now ≤ MOST_ENTRIES },
}

impl<'a> Cyclic<'a> {
    /// The bound of entries that are due in each frame of `frame` ticks, at most
    /// [`LONGEST_FRAME`](crate::LONGEST_FRAME), at `offsets` from its start: 1 to [`MOST_ENTRIES`](crate::MOST_ENTRIES)
    /// of them, ascending and below the frame.
    pub fn new(frame: u32, offsets: &'a [u32]) -> Cyclic<'a>
        requires framed { Offsets frame offsets.now }
        requires short { frame ≤ LONGEST_FRAME }
        requires few { length offsets.now ≤ MOST_ENTRIES }
        ensures cap { (d : ℕ) → ⟦<Cyclic<'a> as ArrivalBound>⟧.cap result d ≡ cyclic_cap frame offsets.now d }
        ensures allows { (xs : List (ℕ × ℕ)) → ⟦<Cyclic<'a> as ArrivalBound>⟧.allows result xs ↔ IsDue frame offsets.now xs }
    {
        Cyclic { frame, offsets }
    }
}

impl<'a> ArrivalBound for Cyclic<'a> {
    ghost cap = { λ x d. cyclic_cap x.frame x.offsets.now d };

    ghost allows = { λ x xs. IsDue x.frame x.offsets.now xs };

    fn at_most(&self, d: u32) -> u64 {
        let rounds = d / self.frame;
        let rest = d % self.frame;
        rounds as u64 * self.offsets.len() as u64 + most_in_rest(self.frame, self.offsets, rest)
    }

    fn at_most_and_jump(&self, d: u32) -> (u64, Option<u32>) {
        let count = self.at_most(d);
        let span = least_span(self.frame, self.offsets, count as usize);
        if span < LONGEST_SPAN as u64 {
            (count, Some(span as u32 + 1))
        } else {
            (count, None)
        }
    }

    // A look passes over all entries twice, a step over none once its span is known.
    fn may_leap(&self) -> bool {
        self.offsets.len() <= FEW_ENTRIES
    }

    // Due ticks ascend strictly, so that at each jump one more may come; and each frame says the same again, so that a
    // span is worked out once.
    fn walk<W: Watcher>(&self, first: u32, last: u32, watcher: &mut W) -> bool {
        if last < first {
            return true;
        }
        let mut known = KnownSpans::none();
        let mut ticks = first;
        let mut count = self.at_most(first);
        let mut whole = count as u32 / self.offsets.len() as u32 * self.frame;
        let mut rest = count as usize % self.offsets.len();
        while ticks <= last {
            let jump = whole + known.past(self.frame, self.offsets, rest);
            if last < jump {
                return watcher.see(ticks, last + 1, count);
            }
            if !watcher.see(ticks, jump, count) {
                return false;
            }
            ticks = jump;
            count += 1;
            (whole, rest) = one_more(self.frame, self.offsets.len(), whole, rest);
        }
        true
    }

    ghost cap_zero = { λ x. cyclic_zero x.frame x.offsets.now x.framed };

    ghost cap_monotone = { λ x d e h. cap_grows x.frame x.offsets.now x.framed d e h };

    ghost cap_bounded = { λ x d h. cyclic_bounded x.frame x.offsets.now x.framed d h };

    ghost cap_holds = { λ x xs u d h. cyclic_holds x.frame x.offsets.now x.framed xs u d h };

    ghost allows_prefix = { λ x xs ys h. due_prefix x.frame x.offsets.now xs ys h };
}

/// The least spans of neighbouring entries that were worked out so far.
#[derive(Drop)]
struct KnownSpans {
    /// For each number of entries of a frame, one past the least span of these and one more; 0 where it is not known.
    past: [u32; MOST_ENTRIES],
}

impl KnownSpans {
    /// Where none is known.
    fn none() -> KnownSpans
        ensures { (frame : ℕ) (offsets : List ℕ) → length offsets ≤ MOST_ENTRIES → ArePastSpans frame offsets result.past }
    {
        KnownSpans {
            past: [0; MOST_ENTRIES],
        }
    }

    /// One past the least span of k + 1 neighbouring entries, worked out where it is not known yet.
    fn past(&mut self, frame: u32, offsets: &[u32], k: usize) -> u32
        requires framed { Offsets frame offsets.now }
        requires short { frame ≤ LONGEST_FRAME }
        requires few { length offsets.now ≤ MOST_ENTRIES }
        requires rest { k < length offsets.now }
        requires known { ArePastSpans frame offsets.now self.old.past }
        ensures known { ArePastSpans frame offsets.now self.new.past }
        ensures some { 1 ≤ result }
        ensures span { IsLeastSpan frame offsets.now k (length offsets.now) (result - 1) }
    {
        let known = self.past[k];
        if known > 0 {
            return known;
        }
        let past = least_span_in_rest(frame, offsets, k) as u32 + 1;
        self.past[k] = past;
        past
    }
}

/// The ticks of whole frames and the rest for a count that is one more.
fn one_more(frame: u32, len: usize, whole: u32, rest: usize) -> (u32, usize)
    requires part { rest < len }
    requires near { whole ≤ LONGEST_SPAN }
    requires short { frame ≤ LONGEST_FRAME }
    ensures { (count : ℕ) → IsSplit frame len count whole rest → IsSplit frame len (count + 1) result.0 result.1 }
{
    if rest + 1 < len {
        (whole, rest + 1)
    } else {
        (whole + frame, 0)
    }
}

/// The tick at which entry number n, of the first two frames, is due.
fn due_of(frame: u32, offsets: &[u32], n: usize) -> u64
    requires { n < 2 * length offsets.now }
    ensures { result ≡ due frame offsets.now n }
{
    let len = offsets.len();
    if n < len {
        offsets[n] as u64
    } else {
        frame as u64 + offsets[n - len] as u64
    }
}

/// The greatest number of entries that are due in so many ticks, at most a frame.
fn most_in_rest(frame: u32, offsets: &[u32], ticks: u32) -> u64
    requires framed { Offsets frame offsets.now }
    requires short { ticks ≤ frame }
    requires few { length offsets.now ≤ MOST_ENTRIES }
    ensures { result ≡ cyclic_cap frame offsets.now ticks }
{
    let mut best: usize = 0;
    for j in 0..2 * offsets.len() {
        if due_of(frame, offsets, j) < due_of(frame, offsets, j - best) + ticks as u64 {
            best += 1;
        }
    }
    best as u64
}

/// The least span of k + 1 neighbouring entries: whole frames, and the rest of the last.
fn least_span(frame: u32, offsets: &[u32], k: usize) -> u64
    requires framed { Offsets frame offsets.now }
    requires few { length offsets.now ≤ MOST_ENTRIES }
    requires near { k ≤ LONGEST_SPAN }
    ensures { IsLeastSpan frame offsets.now k (length offsets.now) result }
{
    let len = offsets.len();
    let rounds = k / len;
    let rest = k % len;
    rounds as u64 * frame as u64 + least_span_in_rest(frame, offsets, rest)
}

/// The least span of k + 1 neighbouring entries, at most a frame's.
fn least_span_in_rest(frame: u32, offsets: &[u32], k: usize) -> u64
    requires framed { Offsets frame offsets.now }
    requires few { length offsets.now ≤ MOST_ENTRIES }
    requires rest { k < length offsets.now }
    ensures span { IsLeastSpan frame offsets.now k (length offsets.now) result }
    ensures small { result ≤ 2 * frame }
{
    // First those that end in the frame in which they begin, then those that end in the next.
    let len = offsets.len();
    let mut least = offsets[k] - offsets[0];
    for i in 1..len - k {
        least = least.min(offsets[i + k] - offsets[i]);
    }
    for j in len - k..len {
        least = least.min(frame - (offsets[j] - offsets[j + k - len]));
    }
    least as u64
}
