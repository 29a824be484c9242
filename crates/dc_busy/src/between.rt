//! The first failing windows of a stretch, by one walk along the arrival bound by leaps: between two jumps no later
//! window fails where the first does not, and what was taken in a shorter window is taken in a longer one.

ghost use Rattle.std.specs.Prelude.{◌≡◌, ℕ, ◌+◌, ◌-◌, ◌<◌, ◌≤◌, Some, None, MatchOption};
ghost use Rattle.dc_busy.specs.BusyWindow.{BacklogAt, DelayAt, IsFirstBetween};
ghost use Rattle.dc_busy.specs.Watched.{IsFirstSoFar, IsFound};
ghost use Rattle.dc_busy.specs.declared.limits.TheConstants.{LONGEST_WINDOW};

use crate::asked::Asked;
use crate::leaps::{Patient, walk_by_leaps};
use dc_bound::{ArrivalBound, ServiceBound, Watcher};
use std::marker::{Brand, PhantomData};

/// The first of the numbers of ticks from `first`, at least 1, to `last`, at most
/// [`LONGEST_WINDOW`](crate::LONGEST_WINDOW), in which more than `backlog` may come above the visits in the whole ticks
/// inside them, and the first in which more may come than is visited in as many ticks less one and `delay` more, at
/// most as many as the longest window. `None` where there is none.
pub fn failures_between<A: ArrivalBound, S: ServiceBound>(
    arrivals: &A,
    service: &S,
    first: u32,
    last: u32,
    backlog: u64,
    delay: u32,
) -> (Option<u32>, Option<u32>)
    requires least { 1 ≤ first }
    requires most { last ≤ LONGEST_WINDOW }
    requires short { delay ≤ LONGEST_WINDOW }
    ensures backlog { IsFirstBetween (BacklogAt (A.cap arrivals.now) (S.floor service.now) backlog) first last result.0 }
    ensures delay { IsFirstBetween (DelayAt (A.cap arrivals.now) (S.floor service.now) delay) first last result.1 }
{
    failures_asked::<A, S, Brand>(arrivals, service, first, last, backlog, delay)
}

/// The same, where what is asked is known by a type.
fn failures_asked<A: ArrivalBound, S: ServiceBound, K: Asked>(
    arrivals: &A,
    service: &S,
    first: u32,
    last: u32,
    backlog: u64,
    delay: u32,
) -> (Option<u32>, Option<u32>)
    requires least { 1 ≤ first }
    requires most { last ≤ LONGEST_WINDOW }
    requires short { delay ≤ LONGEST_WINDOW }
    requires floor_is { S.floor service.now ≡ K.floor }
    requires first_is { first ≡ K.first }
    requires backlog_is { backlog ≡ K.backlog }
    requires delay_is { delay ≡ K.delay }
    ensures backlog { IsFirstBetween (BacklogAt (A.cap arrivals.now) K.floor K.backlog) first last result.0 }
    ensures delay { IsFirstBetween (DelayAt (A.cap arrivals.now) K.floor K.delay) first last result.1 }
{
    if first > last {
        return (None, None);
    }
    let watcher: Failures<S, K> = Failures {
        service,
        backlog,
        delay,
        held: backlog,
        overfull: None,
        taken: 0,
        overdue: None,
        of: PhantomData,
    };
    let (failures, _) = walk_by_leaps(arrivals, first, last, watcher);
    (
        up_to(last, failures.overfull),
        up_to(last, failures.overdue),
    )
}

/// The first failing windows that a walk has found, and the greatest counts that are known to pass from here on: the
/// service is asked only where more may come.
#[derive(Drop)]
struct Failures<'a, S: ServiceBound, K: Asked> {
    service: &'a S,
    backlog: u64,
    delay: u32,
    held: u64,
    overfull: Option<u32>,
    taken: u64,
    overdue: Option<u32>,
    of: PhantomData<K>,
    ghost short: { delay ≤ LONGEST_WINDOW },
    ghost floor_is: { S.floor service.now ≡ K.floor },
    ghost backlog_is: { backlog ≡ K.backlog },
    ghost delay_is: { delay ≡ K.delay },
}

impl<'a, S: ServiceBound, K: Asked> Watcher for Failures<'a, S, K> {
    ghost knows = { λ w cap ticks. (K.first ≤ ticks)
        × (w.held ≤ w.backlog + S.floor w.service.now (ticks - 2))
        × (w.taken ≤ S.floor w.service.now (ticks - 1 + w.delay))
        × IsFirstSoFar (BacklogAt cap (S.floor w.service.now) w.backlog) K.first ticks w.overfull
        × IsFirstSoFar (DelayAt cap (S.floor w.service.now) w.delay) K.first ticks w.overdue };

    ghost ends = { λ w cap. IsFound (BacklogAt cap (S.floor w.service.now) w.backlog) K.first w.overfull
        × IsFound (DelayAt cap (S.floor w.service.now) w.delay) K.first w.overdue };

    #[inline(always)]
    fn see(&mut self, ticks: u32, until: u32, most: u64) -> bool {
        let (held, overfull) = self.overfull_by(ticks, most);
        self.held = held;
        self.overfull = overfull;
        let (taken, overdue) = self.overdue_by(ticks, most);
        self.taken = taken;
        self.overdue = overdue;
        if overfull.is_some() && overdue.is_some() {
            return false;
        }
        true
    }
}

impl<'a, S: ServiceBound, K: Asked> Patient for Failures<'a, S, K> {
    fn passes(&self, ticks: u32) -> u64 {
        self.held_from(ticks).min(self.taken_from(ticks))
    }
}

impl<'a, S: ServiceBound, K: Asked> Failures<'a, S, K> {
    /// As many as may come, in so many ticks and in more, with no more than the backlog waiting; any number of them
    /// once a window was found in which more wait.
    fn held_from(&self, ticks: u32) -> u64
        requires { ticks ≤ LONGEST_WINDOW }
        ensures { MatchOption self.now.overfull (result ≤ self.now.backlog + S.floor self.now.service.now (ticks - 2)) (λ _. Unit {0}) }
    {
        if self.overfull.is_some() {
            return u64::MAX;
        }
        let visits = self.service.at_least(ticks.saturating_sub(2));
        self.backlog.saturating_add(visits)
    }

    /// As many as may come, in so many ticks and in more, and are taken in time; any number of them once a window was
    /// found in which more come.
    fn taken_from(&self, ticks: u32) -> u64
        requires least { 1 ≤ ticks }
        requires most { ticks ≤ LONGEST_WINDOW }
        ensures { MatchOption self.now.overdue (result ≤ S.floor self.now.service.now (ticks - 1 + self.now.delay)) (λ _. Unit {0}) }
    {
        if self.overdue.is_some() {
            return u64::MAX;
        }
        self.service.at_least(ticks - 1 + self.delay)
    }

    /// The count that is known to pass, and what was found before, else this number of ticks where more than the
    /// backlog may wait.
    #[inline(always)]
    fn overfull_by(&self, ticks: u32, most: u64) -> (u64, Option<u32>)
        requires { ticks ≤ LONGEST_WINDOW }
        ensures held { self.now.held ≤ self.now.backlog + S.floor self.now.service.now (ticks - 2)
            → result.0 ≤ self.now.backlog + S.floor self.now.service.now (ticks - 2) }
        ensures found { MatchOption self.now.overfull
            (MatchOption result.1 (most ≤ result.0)
            (λ w. (w ≡ ticks) × (self.now.backlog < most - S.floor self.now.service.now (ticks - 2))))
            (λ w. result.1 ≡ Some w) }
    {
        if self.overfull.is_some() || most <= self.held {
            return (self.held, self.overfull);
        }
        let served = self.service.at_least(ticks.saturating_sub(2));
        let held = self.backlog.saturating_add(served);
        (held, above(ticks, most, held))
    }

    /// The count that is known to pass, and what was found before, else this number of ticks where more may come than
    /// is taken in time.
    #[inline(always)]
    fn overdue_by(&self, ticks: u32, most: u64) -> (u64, Option<u32>)
        requires least { 1 ≤ ticks }
        requires most { ticks ≤ LONGEST_WINDOW }
        ensures taken { self.now.taken ≤ S.floor self.now.service.now (ticks - 1 + self.now.delay)
            → result.0 ≤ S.floor self.now.service.now (ticks - 1 + self.now.delay) }
        ensures found { MatchOption self.now.overdue
            (MatchOption result.1 (most ≤ result.0)
            (λ w. (w ≡ ticks) × (S.floor self.now.service.now (ticks - 1 + self.now.delay) < most)))
            (λ w. result.1 ≡ Some w) }
    {
        if self.overdue.is_some() || most <= self.taken {
            return (self.taken, self.overdue);
        }
        let taken = self.service.at_least(ticks - 1 + self.delay);
        (taken, above(ticks, most, taken))
    }
}

/// This number of ticks where the count is above the limit.
#[inline(always)]
fn above(ticks: u32, count: u64, limit: u64) -> Option<u32>
    ensures { MatchOption result (count ≤ limit) (λ w. (w ≡ ticks) × (limit < count)) }
{
    if count > limit {
        return Some(ticks);
    }
    None
}

/// What a walk has found, if it is not behind the last number of ticks: a watcher is not told where its walk ends.
pub(crate) fn up_to(last: u32, found: Option<u32>) -> Option<u32>
    ensures { MatchOption found (result ≡ None) (λ w. MatchOption result (last < w) (λ v. (v ≡ w) × (v ≤ last))) }
{
    match found {
        Some(ticks) if ticks <= last => Some(ticks),
        _ => None,
    }
}
