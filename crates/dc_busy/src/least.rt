//! The least numbers of a queue. Backlog and delay are found by a walk along the arrival bound by leaps, the window
//! from one that is too short to the next that may close.

ghost use Rattle.std.specs.Prelude.{◌≡◌, ℕ, ◌+◌, ◌-◌, ◌<◌, ◌≤◌, Some, MatchOption};
ghost use Rattle.dc_busy.specs.BusyWindow.{Closes, BacklogAt, BacklogBounded, DelayAt, DelayBounded};
ghost use Rattle.dc_busy.specs.Least.{IsLeast, IsLeastUpToLongest, ClosesWithin};
ghost use Rattle.dc_busy.specs.Watched.{EachBelow, DelayedBelow};
ghost use Rattle.dc_bound.specs.declared.limits.TheConstants.{LONGEST_SPAN};
ghost use Rattle.dc_busy.specs.declared.limits.TheConstants.{LONGEST_WINDOW};

use crate::LONGEST_WINDOW;
use crate::asked::Served;
use crate::leaps::{Patient, about, walk_by_leaps};
use dc_bound::{ArrivalBound, ServiceBound, Watcher};
use std::marker::{Brand, PhantomData};

/// How many stretches a look at a window far on is to pass over.
const FAR: u32 = 4;

/// The step that is next when the last number is asked once, out of turn: behind three looks in vain.
const ONCE_FAR: u32 = 8;

/// The greatest number of rounds that go without a look far on, since those before found nothing.
const MOST_ROUNDS: u32 = 4096;

/// The greatest number by which what may come in some number of ticks up to `window`, 1 to [`LONGEST_WINDOW`], is above
/// the visits in the whole ticks inside them, two less; 0 where it is never above. It is the least backlog of which
/// [`crate::backlog_fails`] finds nothing.
pub fn most_backlog<A: ArrivalBound, S: ServiceBound>(arrivals: &A, service: &S, window: u32) -> u64
    requires least { 1 ≤ window }
    requires most { window ≤ LONGEST_WINDOW }
    ensures { IsLeast (BacklogBounded (A.cap arrivals.now) (S.floor service.now) window) result }
{
    greatest_backlog::<A, S, Brand>(arrivals, service, window)
}

/// The same, where the floor is known by a type.
fn greatest_backlog<A: ArrivalBound, S: ServiceBound, K: Served>(
    arrivals: &A,
    service: &S,
    window: u32,
) -> u64
    requires least { 1 ≤ window }
    requires most { window ≤ LONGEST_WINDOW }
    requires floor_is { S.floor service.now ≡ K.floor }
    ensures { IsLeast (BacklogBounded (A.cap arrivals.now) K.floor window) result }
{
    let watcher: Greatest<S, K> = Greatest {
        service,
        greatest: 0,
        held: 0,
        of: PhantomData,
    };
    let (backlogs, _) = walk_by_leaps(arrivals, 1, window, watcher);
    backlogs.greatest
}

/// The least delay up to [`LONGEST_WINDOW`] of which [`crate::delay_fails`] finds nothing in `window`, 1 to as many
/// ticks; `None` where there is none.
pub fn least_delay<A: ArrivalBound, S: ServiceBound>(
    arrivals: &A,
    service: &S,
    window: u32,
) -> Option<u32>
    requires least { 1 ≤ window }
    requires most { window ≤ LONGEST_WINDOW }
    ensures exact { IsLeastUpToLongest (DelayBounded (A.cap arrivals.now) (S.floor service.now) window) result }
{
    smallest_delay::<A, S, Brand>(arrivals, service, window)
}

/// The same, where the floor is known by a type.
fn smallest_delay<A: ArrivalBound, S: ServiceBound, K: Served>(
    arrivals: &A,
    service: &S,
    window: u32,
) -> Option<u32>
    requires least { 1 ≤ window }
    requires most { window ≤ LONGEST_WINDOW }
    requires floor_is { S.floor service.now ≡ K.floor }
    requires window_is { window ≡ K.window }
    ensures { IsLeastUpToLongest (DelayBounded (A.cap arrivals.now) K.floor K.window) result }
{
    let watcher: Delays<S, K> = Delays {
        service,
        window,
        delay: 0,
        taken: 0,
        of: PhantomData,
    };
    let (delays, all) = walk_by_leaps(arrivals, 1, window, watcher);
    if all {
        return Some(delays.delay);
    }
    None
}

/// The least window of 1 to [`LONGEST_WINDOW`] ticks that closes; `None` where there is none.
pub fn least_window<A: ArrivalBound, S: ServiceBound>(arrivals: &A, service: &S) -> Option<u32>
    ensures { IsLeastUpToLongest (ClosesWithin (A.cap arrivals.now) (S.floor service.now)) result }
{
    if !arrivals.may_leap() {
        return first_closing::<A, S, Brand>(arrivals, service);
    }
    let mut window = 1;
    let mut looks = Looks::new();
    while window <= LONGEST_WINDOW {
        let (most, jump) = arrivals.at_most_and_jump(window);
        let until = jump.unwrap_or(LONGEST_WINDOW + 1).min(LONGEST_WINDOW + 1);
        let served = service.at_least(until - 2);
        if most <= served {
            return Some(least_between(service, most, window - 1, until - 2) + 1);
        }
        window = next_window(service, &mut looks, window, until, served, most);
    }
    None
}

/// The same by a walk along the jumps, where the floor is known by a type.
fn first_closing<A: ArrivalBound, S: ServiceBound, K: Served>(
    arrivals: &A,
    service: &S,
) -> Option<u32>
    requires floor_is { S.floor service.now ≡ K.floor }
    ensures { IsLeastUpToLongest (ClosesWithin (A.cap arrivals.now) K.floor) result }
{
    let mut closing: Closing<S, K> = Closing {
        service,
        found: 0,
        of: PhantomData,
    };
    if arrivals.walk(1, LONGEST_WINDOW, &mut closing) {
        return None;
    }
    Some(closing.found)
}

/// When a window far on is looked for: behind a round that found none, or saw none worth a look, one goes without, behind
/// the next such 2, then 4 and so on; behind one that gained, none.
#[derive(Clone, Copy)]
struct Looks {
    left: u32,
    next: u32,
}

impl Looks {
    /// The first round may look.
    fn new() -> Looks {
        Looks { left: 0, next: 1 }
    }

    /// Whether this round may look.
    fn may(&mut self) -> bool {
        let may = self.left == 0;
        self.left = self.left.saturating_sub(1);
        may
    }

    /// Lets rounds go without a look, behind one that found nothing.
    fn wait(&mut self) {
        self.left = self.next;
        self.next = self.next.saturating_mul(2).min(MOST_ROUNDS);
    }
}

/// The next window to look at, `until` or a longer one, at most one past [`LONGEST_WINDOW`], before which none has as many
/// visits in its ticks but the first as may come in this one. A window far on is looked at where `looks` lets it and that
/// passes over at least [`FAR`] stretches as long as this one.
fn next_window<S: ServiceBound>(
    service: &S,
    looks: &mut Looks,
    window: u32,
    until: u32,
    served: u64,
    most: u64,
) -> u32
    requires some { 1 ≤ window }
    requires later { window < until }
    requires far { until ≤ LONGEST_WINDOW + 1 }
    requires served { served ≡ S.floor service.now (until - 2) }
    requires fewer { served < most }
    ensures later { window < result }
    ensures inside { result ≤ LONGEST_WINDOW + 1 }
    ensures none { (v : ℕ) → v < result → S.floor service.now (v - 1) < most }
{
    if !looks.may() {
        return until;
    }
    let stride = about(until - 1, served, most);
    let ahead = (until - 2).saturating_add(stride).min(LONGEST_WINDOW - 1);
    if stride / FAR >= until - window && service.at_least(ahead) < most {
        *looks = Looks::new();
        return ahead + 2;
    }
    looks.wait();
    until
}

/// The greatest backlog so far. As many as `held` are known to leave it so from here on.
#[derive(Drop)]
pub(crate) struct Greatest<'a, S: ServiceBound, K: Served> {
    pub(crate) service: &'a S,
    pub(crate) greatest: u64,
    pub(crate) held: u64,
    pub(crate) of: PhantomData<K>,
    ghost floor_is: { S.floor service.now ≡ K.floor },
}

impl<'a, S: ServiceBound, K: Served> Watcher for Greatest<'a, S, K> {
    ghost knows = { λ w cap ticks. (w.held ≤ w.greatest + S.floor w.service.now (ticks - 2))
        × IsLeast (λ b. EachBelow (BacklogAt cap (S.floor w.service.now) b) 1 ticks) w.greatest };

    ghost ends = { λ w cap. ⊥ };

    #[inline(always)]
    fn see(&mut self, ticks: u32, until: u32, most: u64) -> bool {
        if most <= self.held {
            return true;
        }
        let served = self.service.at_least(ticks.saturating_sub(2));
        let waiting = most.saturating_sub(served);
        self.greatest = self.greatest.max(waiting);
        self.held = self.greatest.saturating_add(served);
        true
    }
}

impl<'a, S: ServiceBound, K: Served> Patient for Greatest<'a, S, K> {
    fn passes(&self, ticks: u32) -> u64 {
        let visits = self.service.at_least(ticks.saturating_sub(2));
        self.greatest.saturating_add(visits)
    }
}

/// The least delay of what was seen up to the window. As many as `taken` are known to be taken in time from here on.
#[derive(Drop)]
pub(crate) struct Delays<'a, S: ServiceBound, K: Served> {
    pub(crate) service: &'a S,
    pub(crate) window: u32,
    pub(crate) delay: u32,
    pub(crate) taken: u64,
    pub(crate) of: PhantomData<K>,
    ghost short: { delay ≤ LONGEST_WINDOW },
    ghost floor_is: { S.floor service.now ≡ K.floor },
    ghost window_is: { window ≡ K.window },
}

impl<'a, S: ServiceBound, K: Served> Watcher for Delays<'a, S, K> {
    ghost knows = { λ w cap ticks. (w.taken ≤ S.floor w.service.now (ticks - 1 + w.delay))
        × IsLeast (λ d. DelayedBelow cap (S.floor w.service.now) w.window d ticks) w.delay };

    ghost ends = { λ w cap. (d : ℕ) → d ≤ LONGEST_WINDOW → ¬ DelayBounded cap (S.floor w.service.now) w.window d };

    /// What is behind the window asks for no delay.
    #[inline(always)]
    fn see(&mut self, ticks: u32, until: u32, most: u64) -> bool {
        if most <= self.taken {
            return true;
        }
        let before = ticks - 1;
        let from = before + self.delay;
        self.taken = self.service.at_least(from);
        if most <= self.taken {
            return true;
        }
        if ticks > self.window {
            return true;
        }
        match least_ticks(self.service, most, from, before + LONGEST_WINDOW) {
            None => return false,
            Some(served) => self.delay = served - before,
        }
        true
    }
}

impl<'a, S: ServiceBound, K: Served> Patient for Delays<'a, S, K> {
    fn passes(&self, ticks: u32) -> u64 {
        self.service.at_least(ticks - 1 + self.delay)
    }
}

/// The least window that closes, once it is found.
#[derive(Drop)]
struct Closing<'a, S: ServiceBound, K: Served> {
    service: &'a S,
    found: u32,
    of: PhantomData<K>,
    ghost floor_is: { S.floor service.now ≡ K.floor },
}

impl<'a, S: ServiceBound, K: Served> Watcher for Closing<'a, S, K> {
    ghost knows = { λ w cap ticks. (v : ℕ) → 1 ≤ v → v < ticks → ¬ Closes cap (S.floor w.service.now) v };

    ghost ends = { λ w cap. (w.found ≤ LONGEST_WINDOW) × IsLeast (ClosesWithin cap (S.floor w.service.now)) w.found };

    #[inline(always)]
    fn see(&mut self, ticks: u32, until: u32, most: u64) -> bool {
        if self.service.at_least(until - 2) < most {
            return true;
        }
        self.found = least_between(self.service, most, ticks - 1, until - 2) + 1;
        false
    }
}

/// The least number of ticks above `from`, which hold fewer, and up to `to`, at most the longest span, that hold at
/// least `count` visits; `None` where there is none. Mostly it is near: each step is twice the one before, until a look
/// finds as many; behind the third look in vain the last, `to`, is asked once.
fn least_ticks<S: ServiceBound>(service: &S, count: u64, from: u32, to: u32) -> Option<u32>
    requires order { from ≤ to }
    requires far { to ≤ LONGEST_SPAN }
    requires fewer { S.floor service.now from < count }
    ensures { MatchOption result (S.floor service.now to < count) (λ d. (from ≤ d) × (d ≤ to) × (count ≤ S.floor service.now d)
        × ((e : ℕ) → from ≤ e → e < d → S.floor service.now e < count)) }
{
    if from == to {
        return None;
    }
    let mut low = from + 1;
    let mut ahead = low;
    let mut step: u32 = 2;
    while service.at_least(ahead) < count {
        if ahead == to || step == ONCE_FAR && service.at_least(to) < count {
            return None;
        }
        low = ahead + 1;
        ahead = ahead.saturating_add(step).min(to);
        step = step.saturating_mul(2);
    }
    Some(least_between(service, count, low, ahead))
}

/// The same, where `to` ticks are known to hold as many, by halves.
fn least_between<S: ServiceBound>(service: &S, count: u64, from: u32, to: u32) -> u32
    requires order { from ≤ to }
    requires far { to ≤ LONGEST_SPAN }
    requires enough { count ≤ S.floor service.now to }
    ensures above { from ≤ result }
    ensures below { result ≤ to }
    ensures enough { count ≤ S.floor service.now result }
    ensures least { (e : ℕ) → from ≤ e → e < result → S.floor service.now e < count }
{
    let mut low = from;
    let mut high = to;
    while low < high {
        let middle = low + (high - low) / 2;
        if service.at_least(middle) < count {
            low = middle + 1;
        } else {
            high = middle;
        }
    }
    high
}
