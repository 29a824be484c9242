//! Worked windows, the most calls that a long search makes, and walks by leaps beside walks by steps.

ghost use Rattle.std.specs.Prelude.{◌≡◌, ℕ, ◌+◌, ◌^◌, ◌≤◌, ◌++◌, List, [], ◌∷◌};
ghost use Rattle.dc_bound.specs.Window.{count_in, ticks_of, IsNextJump};
ghost use Rattle.dc_bound.specs.Moves.{routed_tick, passed};
ghost use Rattle.dc_bound.specs.Moves.Move.{Tick, In, Visit};

use dc_bound::{ArrivalBound, Both, Capped, Jittered, Paced, Sporadic, SumOf, Watcher, Wire};
use dc_busy::{
    Patient, backlog_fails, closes, delay_fails, failures_between, first_failures, least_delay,
    least_numbers, least_window, most_backlog, queue_law, walk_by_leaps,
};
use std::cell::Cell;

/// A bound that counts the calls of its cap.
#[derive(Drop)]
struct Counted<'a, A: ArrivalBound> {
    inner: &'a A,
    calls: Cell<u64>,
}

impl<'a, A: ArrivalBound> ArrivalBound for Counted<'a, A> {
    ghost cap = { λ x d. A.cap x.inner.now d };

    ghost allows = { λ x xs. A.allows x.inner.now xs };

    fn at_most(&self, d: u32) -> u64 {
        self.calls.set(self.calls.get().wrapping_add(1));
        self.inner.at_most(d)
    }

    fn at_most_and_jump(&self, d: u32) -> (u64, Option<u32>) {
        self.calls.set(self.calls.get().wrapping_add(1));
        self.inner.at_most_and_jump(d)
    }

    ghost cap_zero = { λ x. A.cap_zero x.inner.now };

    ghost cap_monotone = { λ x d e h. A.cap_monotone x.inner.now d e h };

    ghost cap_bounded = { λ x d h. A.cap_bounded x.inner.now d h };

    ghost cap_holds = { λ x xs u d h. A.cap_holds x.inner.now xs u d h };

    ghost allows_prefix = { λ x xs ys h. A.allows_prefix x.inner.now xs ys h };
}

#[test]
fn small_bus_closes_at_three_ticks(rt: HostRuntime) {
    let streams = [Sporadic::new(10), Sporadic::new(10)];
    let bus = Both::new(SumOf::new(0, &streams), Wire::new(1000, 350));
    let router = Paced::new(1, 1);
    assert!(rt; !closes(&bus, &router, 2));
    assert!(rt; closes(&bus, &router, 3));
    assert!(rt; backlog_fails(&bus, &router, 3, 1) == Some(1));
    assert!(rt; backlog_fails(&bus, &router, 3, 2).is_none());
    assert!(rt; delay_fails(&bus, &router, 3, 1) == Some(1));
    assert!(rt; delay_fails(&bus, &router, 3, 2).is_none());
    assert!(rt; first_failures(&bus, &router, 3, 1, 2) == (Some(1), None));
    assert!(rt; first_failures(&bus, &router, 3, 2, 1) == (None, Some(1)));
    queue_law(&bus, &router, 3, 2, 2);
    assert!(rt; least_window(&bus, &router) == Some(3));
    assert!(rt; most_backlog(&bus, &router, 3) == 2);
    assert!(rt; least_delay(&bus, &router, 3) == Some(2));
    assert!(rt;
        least_numbers(&bus, &router).is_some_and(|n| n.window == 3
            && n.backlog == 2
            && n.delay == 2)
    );
}

#[test]
fn jitter_asks_for_more_and_a_wire_for_less(rt: HostRuntime) {
    let streams = [Jittered::new(10, 10), Jittered::new(10, 10)];
    let free = Capped::new(SumOf::new(0, &streams), Some(Wire::new(1000, 350)));
    let policed = Capped::new(SumOf::new(0, &streams), None);
    let router = Paced::new(1, 1);
    assert!(rt; least_window(&free, &router) == Some(5));
    assert!(rt; most_backlog(&free, &router, 5) == 4);
    assert!(rt; least_delay(&free, &router, 5) == Some(3));
    assert!(rt; least_window(&policed, &router) == Some(5));
    assert!(rt; most_backlog(&policed, &router, 5) == 4);
    assert!(rt; least_delay(&policed, &router, 5) == Some(4));
}

#[test]
fn no_window_closes_where_none_is_served(rt: HostRuntime) {
    let idle = Paced::new(0, 1);
    assert!(rt; least_window(&Sporadic::new(5), &idle).is_none());
    assert!(rt; least_delay(&Sporadic::new(5), &idle, 1).is_none());
    assert!(rt; most_backlog(&Sporadic::new(5), &idle, 11) == 3);
}

#[test]
fn the_longest_window_is_found(rt: HostRuntime) {
    let slow = Paced::new(1, 99_999);
    assert!(rt; least_window(&Sporadic::new(200_000), &slow) == Some(100_000));
    assert!(rt; least_window(&Sporadic::new(200_000), &Paced::new(1, 100_000)).is_none());
}

#[test]
fn long_search_goes_by_jumps_alone(rt: HostRuntime) {
    let streams = [Sporadic::new(10); 16];
    let bus = Both::new(SumOf::new(0, &streams), Wire::new(1000, 350));
    let counted = Counted {
        inner: &bus,
        calls: Cell::new(0),
    };
    assert!(rt; backlog_fails(&counted, &Paced::new(2, 1), 100_000, 14).is_none());
    assert!(rt; counted.calls.get() <= 10_005);
    assert!(rt; delay_fails(&counted, &Paced::new(2, 1), 100_000, 6).is_none());
    assert!(rt; first_failures(&counted, &Paced::new(2, 1), 100_000, 14, 6) == (None, None));
    assert!(rt; counted.calls.get() <= 30_015);
}

#[test]
fn least_numbers_are_found_by_jumps_alone(rt: HostRuntime) {
    let streams = [Sporadic::new(10); 16];
    let bus = Both::new(SumOf::new(0, &streams), Wire::new(1000, 350));
    let counted = Counted {
        inner: &bus,
        calls: Cell::new(0),
    };
    let never = Paced::new(16, 11);
    assert!(rt; least_window(&counted, &never).is_none());
    assert!(rt; most_backlog(&counted, &never, 100_000) == 14_576);
    assert!(rt; least_delay(&counted, &never, 100_000) == Some(10_010));
    assert!(rt; counted.calls.get() <= 30_015);
}

/// In Visit, In, In, Tick, Visit, Tick, Visit the first visit finds nothing, and each later one takes one word.
fn second_in_waits()
    ensures first { routed_tick 4 0 (Visit ∷ In (0, 0) ∷ In (1, 0) ∷ Tick ∷ Visit ∷ Tick ∷ Visit ∷ []) ≡ 1 }
    ensures second { routed_tick 4 1 (Visit ∷ In (0, 0) ∷ In (1, 0) ∷ Tick ∷ Visit ∷ Tick ∷ Visit ∷ []) ≡ 2 }
    ensures all { passed (Visit ∷ In (0, 0) ∷ In (1, 0) ∷ Tick ∷ Visit ∷ Tick ∷ Visit ∷ []) ≡ 2 }
{}

#[test]
fn second_in_is_taken_in_tick_two() {
    second_in_waits();
}

#[test]
fn a_stretch_tells_its_own_first_failing_windows(rt: HostRuntime) {
    let streams = [Sporadic::new(10), Sporadic::new(10)];
    let bus = Both::new(SumOf::new(0, &streams), Wire::new(1000, 350));
    let router = Paced::new(1, 1);
    assert!(rt; failures_between(&bus, &router, 1, 3, 1, 1) == (Some(1), Some(1)));
    assert!(rt; failures_between(&bus, &router, 2, 3, 1, 1) == (Some(2), None));
    assert!(rt; failures_between(&bus, &router, 2, 3, 2, 0) == (None, Some(2)));
    assert!(rt; failures_between(&bus, &router, 3, 3, 1, 0) == (None, None));
    assert!(rt; failures_between(&bus, &router, 3, 2, 0, 0) == (None, None));
}

/// Looks for the first number of ticks in which more may come than `some` and one in each `per` ticks, and counts the
/// stretches that it sees.
#[derive(Drop)]
struct Above {
    some: u64,
    per: u32,
    found: u32,
    seen: u64,
}

impl Above {
    fn limit(&self, ticks: u32) -> u64 {
        self.some.saturating_add(u64::from(ticks / self.per.max(1)))
    }
}

impl Watcher for Above {
    ghost knows = { λ w cap ticks. Unit {0} };

    ghost ends = { λ w cap. Unit {0} };

    fn see(&mut self, ticks: u32, until: u32, most: u64) -> bool {
        self.seen = self.seen.saturating_add(1);
        if most > self.limit(ticks) {
            self.found = ticks;
            return false;
        }
        true
    }
}

impl Patient for Above {
    fn passes(&self, ticks: u32) -> u64 {
        self.limit(ticks)
    }
}

/// Walks up to the longest window both ways; what was found, where both found the same and the leaps saw few stretches.
fn found_both_ways<A: ArrivalBound>(arrivals: &A, some: u64, per: u32) -> Option<(bool, u32)> {
    let mut stepped = Above {
        some,
        per,
        found: 0,
        seen: 0,
    };
    let all = arrivals.walk(1, 100_000, &mut stepped);
    let leaps = Above {
        some,
        per,
        found: 0,
        seen: 0,
    };
    let (leapt, to_the_end) = walk_by_leaps(arrivals, 1, 100_000, leaps);
    if all == to_the_end && stepped.found == leapt.found && leapt.seen < 250 {
        return Some((all, stepped.found));
    }
    None
}

#[test]
fn a_long_walk_by_leaps_finds_what_the_walk_by_steps_finds(rt: HostRuntime) {
    let streams = [
        Jittered::new(20, 10),
        Jittered::new(27, 13),
        Jittered::new(33, 16),
        Jittered::new(41, 20),
        Jittered::new(53, 26),
        Jittered::new(67, 33),
        Jittered::new(81, 40),
    ];
    let bus = SumOf::new(0, &streams);
    assert!(rt; found_both_ways(&bus, 100, 5) == Some((true, 0)));
    assert!(rt; found_both_ways(&bus, 100, 6) == Some((false, 4335)));
    assert!(rt; found_both_ways(&bus, 0, 5) == Some((false, 1)));
}
