//! The first window that fails one of the two tests, by a walk along the arrival bound by leaps.

ghost use Rattle.std.specs.Prelude.{◌≡◌, ℕ, ◌+◌, ◌-◌, ◌≤◌, MatchOption};
ghost use Rattle.dc_busy.specs.BusyWindow.{BacklogAt, BacklogBounded, DelayAt, DelayBounded, IsLeastFailing};
ghost use Rattle.dc_busy.specs.Watched.{EachBelow, IsFound};
ghost use Rattle.dc_busy.specs.declared.limits.TheConstants.{LONGEST_WINDOW};

use crate::asked::Asked;
use crate::between::up_to;
use crate::leaps::{Patient, walk_by_leaps};
use dc_bound::{ArrivalBound, ServiceBound, Watcher};
use std::marker::PhantomData;

/// What [`crate::backlog_fails`] finds, where what is asked is known by a type.
pub(crate) fn first_overfull<A: ArrivalBound, S: ServiceBound, K: Asked>(
    arrivals: &A,
    service: &S,
    window: u32,
    backlog: u64,
) -> Option<u32>
    requires least { 1 ≤ window }
    requires most { window ≤ LONGEST_WINDOW }
    requires floor_is { S.floor service.now ≡ K.floor }
    requires backlog_is { backlog ≡ K.backlog }
    ensures { MatchOption result (BacklogBounded (A.cap arrivals.now) K.floor window K.backlog)
        (λ w. IsLeastFailing (BacklogAt (A.cap arrivals.now) K.floor K.backlog) window w) }
{
    let watcher: Overfull<S, K> = Overfull {
        service,
        backlog,
        held: backlog,
        found: None,
        of: PhantomData,
    };
    let (watched, more) = walk_by_leaps(arrivals, 1, window, watcher);
    if more {
        return None;
    }
    up_to(window, watched.found)
}

/// What [`crate::delay_fails`] finds, where what is asked is known by a type.
pub(crate) fn first_overdue<A: ArrivalBound, S: ServiceBound, K: Asked>(
    arrivals: &A,
    service: &S,
    window: u32,
    delay: u32,
) -> Option<u32>
    requires least { 1 ≤ window }
    requires most { window ≤ LONGEST_WINDOW }
    requires short { delay ≤ LONGEST_WINDOW }
    requires floor_is { S.floor service.now ≡ K.floor }
    requires delay_is { delay ≡ K.delay }
    ensures { MatchOption result (DelayBounded (A.cap arrivals.now) K.floor window K.delay)
        (λ w. IsLeastFailing (DelayAt (A.cap arrivals.now) K.floor K.delay) window w) }
{
    let watcher: Overdue<S, K> = Overdue {
        service,
        delay,
        taken: 0,
        found: None,
        of: PhantomData,
    };
    let (watched, more) = walk_by_leaps(arrivals, 1, window, watcher);
    if more {
        return None;
    }
    up_to(window, watched.found)
}

/// Looks for the first window in which more than the backlog may wait. As many as `held` are known to pass from here on.
#[derive(Drop)]
struct Overfull<'a, S: ServiceBound, K: Asked> {
    service: &'a S,
    backlog: u64,
    held: u64,
    found: Option<u32>,
    of: PhantomData<K>,
    ghost floor_is: { S.floor service.now ≡ K.floor },
    ghost backlog_is: { backlog ≡ K.backlog },
}

impl<'a, S: ServiceBound, K: Asked> Watcher for Overfull<'a, S, K> {
    ghost knows = { λ w cap ticks. (w.held ≤ w.backlog + S.floor w.service.now (ticks - 2))
        × EachBelow (BacklogAt cap (S.floor w.service.now) w.backlog) 1 ticks };

    ghost ends = { λ w cap. IsFound (BacklogAt cap (S.floor w.service.now) w.backlog) 1 w.found };

    #[inline(always)]
    fn see(&mut self, ticks: u32, until: u32, most: u64) -> bool {
        if most <= self.held {
            return true;
        }
        let served = self.service.at_least(ticks.saturating_sub(2));
        self.held = self.backlog.saturating_add(served);
        if most > self.held {
            self.found = Some(ticks);
            return false;
        }
        true
    }
}

impl<'a, S: ServiceBound, K: Asked> Patient for Overfull<'a, S, K> {
    fn passes(&self, ticks: u32) -> u64 {
        let visits = self.service.at_least(ticks.saturating_sub(2));
        self.backlog.saturating_add(visits)
    }
}

/// Looks for the first window in which more may come than is taken in time. As many as `taken` are known to be, from
/// here on.
#[derive(Drop)]
struct Overdue<'a, S: ServiceBound, K: Asked> {
    service: &'a S,
    delay: u32,
    taken: u64,
    found: Option<u32>,
    of: PhantomData<K>,
    ghost short: { delay ≤ LONGEST_WINDOW },
    ghost floor_is: { S.floor service.now ≡ K.floor },
    ghost delay_is: { delay ≡ K.delay },
}

impl<'a, S: ServiceBound, K: Asked> Watcher for Overdue<'a, S, K> {
    ghost knows = { λ w cap ticks. (w.taken ≤ S.floor w.service.now (ticks - 1 + w.delay))
        × EachBelow (DelayAt cap (S.floor w.service.now) w.delay) 1 ticks };

    ghost ends = { λ w cap. IsFound (DelayAt cap (S.floor w.service.now) w.delay) 1 w.found };

    #[inline(always)]
    fn see(&mut self, ticks: u32, until: u32, most: u64) -> bool {
        if most <= self.taken {
            return true;
        }
        self.taken = self.service.at_least(ticks - 1 + self.delay);
        if most > self.taken {
            self.found = Some(ticks);
            return false;
        }
        true
    }
}

impl<'a, S: ServiceBound, K: Asked> Patient for Overdue<'a, S, K> {
    fn passes(&self, ticks: u32) -> u64 {
        self.service.at_least(ticks - 1 + self.delay)
    }
}
