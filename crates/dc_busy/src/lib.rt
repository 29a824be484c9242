//! The busy-window law: exact tests of a window, and what they say of every run of a queue that keeps its bounds.
//!
//! An arrival bound caps what comes to a queue in so many ticks, a service floor says how many visits so many whole
//! ticks hold. A window of ticks *closes* where its ticks but the first are visited at least as often as words come in
//! all of them: whatever came in a window that began with an empty queue has then left by its end, so that no busy
//! stretch needs to be looked at past its first window.
#![tactic(auto)]

ghost use Rattle.std.specs.Prelude.{◌≤◌, ◌↔◌, MatchOption, IsTrue};
ghost use Rattle.dc_busy.specs.BusyWindow.{Closes, BacklogAt, BacklogBounded, DelayAt, DelayBounded, IsLeastFailing, QueueBacklog, QueueDelay, QueueEmpties, QueueInTime};
ghost use Rattle.dc_busy.specs.declared.limits.TheConstants.{LONGEST_WINDOW};

mod asked;
mod between;
mod first;
mod leaps;
mod least;
mod limits;
mod numbers;

pub use between::failures_between;
use dc_bound::{ArrivalBound, ServiceBound};
use first::{first_overdue, first_overfull};
pub use leaps::{Patient, walk_by_leaps};
pub use least::{least_delay, least_window, most_backlog};
pub use limits::LONGEST_WINDOW;
pub use numbers::{LeastNumbers, least_numbers};
use std::marker::Brand;

/// Whether a window closes: at least as many visits in its ticks but the first as may come in all of them. `window` is
/// 1 to [`LONGEST_WINDOW`].
pub fn closes<A: ArrivalBound, S: ServiceBound>(arrivals: &A, service: &S, window: u32) -> bool
    requires least { 1 ≤ window }
    requires most { window ≤ LONGEST_WINDOW }
    ensures { IsTrue result ↔ Closes (A.cap arrivals.now) (S.floor service.now) window }
{
    arrivals.at_most(window) <= service.at_least(window - 1)
}

/// The first number of ticks up to `window`, 1 to [`LONGEST_WINDOW`], in which more than `backlog` may come above the
/// visits in the whole ticks inside them, two less; `None` where there is none.
pub fn backlog_fails<A: ArrivalBound, S: ServiceBound>(
    arrivals: &A,
    service: &S,
    window: u32,
    backlog: u64,
) -> Option<u32>
    requires least { 1 ≤ window }
    requires most { window ≤ LONGEST_WINDOW }
    ensures { MatchOption result (BacklogBounded (A.cap arrivals.now) (S.floor service.now) window backlog)
        (λ w. IsLeastFailing (BacklogAt (A.cap arrivals.now) (S.floor service.now) backlog) window w) }
{
    first_overfull::<A, S, Brand>(arrivals, service, window, backlog)
}

/// The first number of ticks up to `window`, 1 to [`LONGEST_WINDOW`], in which more may come than is visited in as many
/// ticks less one and `delay` more, at most [`LONGEST_WINDOW`]; `None` where there is none.
pub fn delay_fails<A: ArrivalBound, S: ServiceBound>(
    arrivals: &A,
    service: &S,
    window: u32,
    delay: u32,
) -> Option<u32>
    requires least { 1 ≤ window }
    requires most { window ≤ LONGEST_WINDOW }
    requires short { delay ≤ LONGEST_WINDOW }
    ensures { MatchOption result (DelayBounded (A.cap arrivals.now) (S.floor service.now) window delay)
        (λ w. IsLeastFailing (DelayAt (A.cap arrivals.now) (S.floor service.now) delay) window w) }
{
    first_overdue::<A, S, Brand>(arrivals, service, window, delay)
}

/// What `backlog_fails` and `delay_fails` find, by one walk. `window` is 1 to [`LONGEST_WINDOW`],
/// `delay` at most as many.
pub fn first_failures<A: ArrivalBound, S: ServiceBound>(
    arrivals: &A,
    service: &S,
    window: u32,
    backlog: u64,
    delay: u32,
) -> (Option<u32>, Option<u32>)
    requires least { 1 ≤ window }
    requires most { window ≤ LONGEST_WINDOW }
    requires short { delay ≤ LONGEST_WINDOW }
    ensures backlog { MatchOption result.0 (BacklogBounded (A.cap arrivals.now) (S.floor service.now) window backlog)
        (λ w. IsLeastFailing (BacklogAt (A.cap arrivals.now) (S.floor service.now) backlog) window w) }
    ensures delay { MatchOption result.1 (DelayBounded (A.cap arrivals.now) (S.floor service.now) window delay)
        (λ w. IsLeastFailing (DelayAt (A.cap arrivals.now) (S.floor service.now) delay) window w) }
{
    failures_between(arrivals, service, 1, window, backlog, delay)
}

/// The busy-window law. Take any queue whose arrivals the bound allows and in which any `d` whole ticks hold at least
/// as many visits as the floor at `d` says. Where the window closes:
///
/// - if `backlog_fails` finds nothing, then at each place of the run what has come less what has been taken is at most
///   `backlog`;
/// - if `delay_fails` finds nothing, then what came in tick t or before has been taken by the end of tick t + `delay`,
///   where that tick is whole, and so has each item by its number;
/// - from each place of the run on, before `window` ticks more have ended, there is a place at which nothing waits.
///
/// `window` is 1 to [`LONGEST_WINDOW`], `delay` at most as many. The call does nothing: its contract is the law.
pub fn queue_law<A: ArrivalBound, S: ServiceBound>(
    arrivals: &A,
    service: &S,
    window: u32,
    backlog: u64,
    delay: u32,
)
    requires least { 1 ≤ window }
    requires most { window ≤ LONGEST_WINDOW }
    requires short { delay ≤ LONGEST_WINDOW }
    ensures backlog { QueueBacklog (A.cap arrivals.now) (A.allows arrivals.now) (S.floor service.now) window backlog }
    ensures delay { QueueDelay (A.cap arrivals.now) (A.allows arrivals.now) (S.floor service.now) window delay }
    ensures empties { QueueEmpties (A.cap arrivals.now) (A.allows arrivals.now) (S.floor service.now) window }
    ensures in_time { QueueInTime (A.cap arrivals.now) (A.allows arrivals.now) (S.floor service.now) window delay }
{}
