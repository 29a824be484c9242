//! A walk along an arrival bound by leaps: since no less comes in more ticks, one look at a greater number of ticks in
//! which no more may come than passes tells of all numbers before it that nothing changes there.

ghost use Rattle.std.specs.Prelude.{◌≡◌, ℕ, ◌+◌, ◌<◌, ◌≤◌, IfSome, MatchBool, true, false};
ghost use Rattle.dc_busy.specs.declared.limits.TheConstants.{LONGEST_WINDOW};

use crate::LONGEST_WINDOW;
use dc_bound::{ArrivalBound, Watcher};
use std::marker::{Brand, PhantomData};

/// How many steps are asked one by one before the first walk, where a bound may leap.
const FIRST_STEPS: u32 = 4;

/// So many steps and one more are walked at first, and after each leap over more than [`FEW_WORDS`].
const FEW_STEPS: u32 = 32;

/// At most so many steps and one more are walked before the next leap is tried.
const MANY_STEPS: u32 = 4096;

/// A leap over no more words is a short one.
const FEW_WORDS: u64 = 32;

/// Where fewer words more pass than may come, no leap is tried, and where a look passes over fewer, none behind it: steps
/// cost less.
const SHORT_LEAP: u64 = 4;

/// How many numbers of ticks are looked at, each nearer, before a leap is given up.
const LOOKS: u32 = 3;

/// A watcher that tells how many may come without a change of what it knows.
pub trait Patient: Watcher {
    /// As many as may come, in this number of ticks and in each greater one, without a change of what is known.
    fn passes(&self, ticks: u32) -> u64
        requires first { 1 ≤ ticks }
        requires far { ticks ≤ LONGEST_WINDOW }
        ensures { (cap : ℕ → ℕ) (until : ℕ) → ((d e : ℕ) → d ≤ e → cap d ≤ cap e) → ticks ≤ until → cap until ≤ result
            → Self.knows self.now cap ticks → Self.knows self.now cap (until + 1) };
}

/// What [`ArrivalBound::walk`] does, by leaps over numbers of ticks in which no more may come than passes. Gives the
/// watcher back, and whether it wants to see more.
pub fn walk_by_leaps<A: ArrivalBound, W: Patient>(
    arrivals: &A,
    first: u32,
    last: u32,
    watcher: W,
) -> (W, bool)
    requires first { 1 ≤ first }
    requires order { first ≤ last + 1 }
    requires far { last ≤ LONGEST_WINDOW }
    requires knows { W.knows watcher (A.cap arrivals.now) first }
    ensures all { result.1 ≡ true → W.knows result.0 (A.cap arrivals.now) (last + 1) }
    ensures ended { result.1 ≡ false → W.ends result.0 (A.cap arrivals.now) }
{
    if !arrivals.may_leap() {
        let mut watcher = watcher;
        let more = arrivals.walk(first, last, &mut watcher);
        return (watcher, more);
    }
    let (mut watcher, mut ticks, more) = first_steps(arrivals, first, last, watcher);
    if !more {
        return (watcher, false);
    }
    let mut steps = FEW_STEPS;
    while ticks <= last {
        let (walked, end, more) = walk_steps::<A, W, Brand>(arrivals, ticks, last, watcher, steps);
        watcher = walked;
        if !more {
            return (watcher, false);
        }
        let (next, words) = leap(arrivals, &watcher, end, last);
        ticks = next;
        steps = next_steps(steps, words);
    }
    (watcher, true)
}

/// The first steps, each asked by itself: many a window ends here, before a walk has to make room for what it keeps.
/// Gives the watcher back, the number of ticks before which it has seen each, and whether it wants to see more.
fn first_steps<A: ArrivalBound, W: Watcher>(
    arrivals: &A,
    first: u32,
    last: u32,
    watcher: W,
) -> (W, u32, bool)
    requires first { 1 ≤ first }
    requires order { first ≤ last + 1 }
    requires far { last ≤ LONGEST_WINDOW }
    requires knows { W.knows watcher (A.cap arrivals.now) first }
    ensures more { result.2 ≡ true → (first ≤ result.1) × (result.1 ≤ last + 1) × W.knows result.0 (A.cap arrivals.now) result.1 }
    ensures ended { result.2 ≡ false → W.ends result.0 (A.cap arrivals.now) }
{
    let mut watcher = watcher;
    let mut ticks = first;
    for _ in 0..FIRST_STEPS {
        if ticks > last {
            break;
        }
        let (most, jump) = arrivals.at_most_and_jump(ticks);
        let until = jump.unwrap_or(last + 1).min(last + 1);
        if !watcher.see(ticks, until, most) {
            return (watcher, until, false);
        }
        ticks = until;
    }
    (watcher, ticks, true)
}

/// What says how many steps are walked after a leap over so many words: twice what it was where that was short.
fn next_steps(steps: u32, words: u64) -> u32 {
    if words > FEW_WORDS {
        return FEW_STEPS;
    }
    steps.saturating_mul(2).min(MANY_STEPS)
}

/// What a walk of so many steps is asked. It exists in proofs alone: who walks picks it.
trait Stretch {
    // the number of ticks at which it begins
    ghost first: { ℕ };

    // the number of ticks up to which it goes
    ghost last: { ℕ };
}

impl Stretch for Brand {
    ghost first = { 0 };

    ghost last = { 0 };
}

/// A watcher that wants a pause after so many steps.
struct Counted<W, K: Stretch> {
    inner: W,
    left: u32,
    last: u32,
    ticks: u32,
    pauses: bool,
    of: PhantomData<K>,
    ghost last_is: { last ≡ K.last },
}

impl<W: Watcher, K: Stretch> Watcher for Counted<W, K> {
    ghost knows = { λ w cap ticks. (K.first ≤ ticks) × W.knows w.inner cap ticks };

    ghost ends = { λ w cap. MatchBool w.pauses ((K.first < w.ticks) × (w.ticks ≤ K.last) × W.knows w.inner cap w.ticks) (W.ends w.inner cap) };

    #[inline(always)]
    fn see(&mut self, ticks: u32, until: u32, most: u64) -> bool {
        if !self.inner.see(ticks, until, most) {
            self.pauses = false;
            return false;
        }
        if self.left == 0 && until <= self.last {
            self.ticks = until;
            self.pauses = true;
            return false;
        }
        self.left = self.left.saturating_sub(1);
        true
    }
}

/// Walks so many steps and one more. Gives the watcher back, the number of ticks before which it has seen each, and whether it
/// wants to see more.
fn walk_steps<A: ArrivalBound, W: Watcher, K: Stretch>(
    arrivals: &A,
    first: u32,
    last: u32,
    watcher: W,
    steps: u32,
) -> (W, u32, bool)
    requires first { 1 ≤ first }
    requires some { first ≤ last }
    requires far { last ≤ LONGEST_WINDOW }
    requires knows { W.knows watcher (A.cap arrivals.now) first }
    requires first_is { first ≡ K.first }
    requires last_is { last ≡ K.last }
    ensures more { result.2 ≡ true → (K.first < result.1) × (result.1 ≤ K.last + 1) × W.knows result.0 (A.cap arrivals.now) result.1 }
    ensures ended { result.2 ≡ false → W.ends result.0 (A.cap arrivals.now) }
{
    let mut counted: Counted<W, K> = Counted {
        inner: watcher,
        left: steps,
        last,
        ticks: first,
        pauses: false,
        of: PhantomData,
    };
    let all = arrivals.walk(first, last, &mut counted);
    let Counted {
        inner,
        left: _,
        last: _,
        ticks,
        pauses,
        of: _,
    } = counted;
    if all {
        return (inner, last + 1, true);
    }
    (inner, ticks, pauses)
}

/// The number of ticks, at most one past the last, before which nothing of what is known changes, and about how many
/// more may come in it than in the first.
fn leap<A: ArrivalBound, W: Patient>(arrivals: &A, watcher: &W, first: u32, last: u32) -> (u32, u64)
    requires first { 1 ≤ first }
    requires order { first ≤ last + 1 }
    requires far { last ≤ LONGEST_WINDOW }
    requires knows { W.knows watcher.now (A.cap arrivals.now) first }
    ensures knows { W.knows watcher.now (A.cap arrivals.now) result.0 }
    ensures later { first ≤ result.0 }
    ensures inside { result.0 ≤ last + 1 }
{
    if last < first {
        return (first, 0);
    }
    let before = arrivals.at_most(first);
    let mut most = before;
    let mut ticks = first;
    while ticks <= last {
        let passes = watcher.passes(ticks);
        if passes.saturating_sub(most) < SHORT_LEAP {
            break;
        }
        let stride = about(ticks, most, passes);
        let Some(seen) = reach(arrivals, ticks, last, stride, passes) else {
            break;
        };
        let gained = seen.most.saturating_sub(most);
        most = seen.most;
        ticks = seen.ticks + 1;
        if gained < SHORT_LEAP {
            break;
        }
    }
    (ticks, most.saturating_sub(before))
}

/// A number of ticks, and what may come in it.
#[derive(Clone, Copy)]
struct Seen {
    ticks: u32,
    most: u64,
}

/// A number of ticks from `ticks` to `last` in which no more may come than passes, looked for `stride` ticks on, then a
/// quarter as far, and so on; `None` where each look finds more.
fn reach<A: ArrivalBound>(
    arrivals: &A,
    ticks: u32,
    last: u32,
    stride: u32,
    passes: u64,
) -> Option<Seen>
    requires inside { ticks ≤ last }
    requires far { last ≤ LONGEST_WINDOW }
    ensures { IfSome result (λ s. (ticks ≤ s.ticks) × (s.ticks ≤ last) × (A.cap arrivals.now s.ticks ≤ passes)) }
{
    let mut stride = stride;
    for _ in 0..LOOKS {
        if stride == 0 {
            break;
        }
        let to = ticks.saturating_add(stride).min(last);
        let most = arrivals.at_most(to);
        if most <= passes {
            return Some(Seen { ticks: to, most });
        }
        stride /= 4;
    }
    None
}

/// How many ticks on about `wanted` words are reached, an eighth less, where there are so many in so many ticks. Any
/// answer is right, since it is looked at.
pub(crate) fn about(ticks: u32, words: u64, wanted: u64) -> u32 {
    let more = wanted.saturating_sub(words);
    let on = more.saturating_mul(u64::from(ticks)) / words.max(1);
    (on - on / 8).min(u64::from(LONGEST_WINDOW)) as u32
}
