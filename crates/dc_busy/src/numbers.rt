//! The least window, backlog and delay of one queue: the backlog and the delay are found by one walk.

ghost use Rattle.std.specs.Prelude.{◌≡◌, ℕ, ◌+◌, ◌-◌, ◌<◌, ◌≤◌, IfSome, MatchOption, Some};
ghost use Rattle.dc_busy.specs.BusyWindow.{Closes, BacklogBounded, DelayBounded};
ghost use Rattle.dc_busy.specs.Least.{IsLeast, IsLeastUpToLongest, ClosesWithin};
ghost use Rattle.dc_busy.specs.declared.limits.TheConstants.{LONGEST_WINDOW};

use crate::asked::Served;
use crate::leaps::{Patient, walk_by_leaps};
use crate::least::{Delays, Greatest, least_window};
use dc_bound::{ArrivalBound, ServiceBound, Watcher};
use std::marker::{Brand, PhantomData};

/// The least numbers of one queue.
#[derive(Clone, Copy)]
pub struct LeastNumbers {
    /// The least window that closes, as [`least_window`] tells it.
    pub window: u32,
    /// The least backlog of the window, as [`crate::most_backlog`] tells it.
    pub backlog: u64,
    /// The least delay of the window, as [`crate::least_delay`] tells it.
    pub delay: u32,
}

/// The least numbers of one queue; `None` where no window up to [`LONGEST_WINDOW`](crate::LONGEST_WINDOW) closes.
pub fn least_numbers<A: ArrivalBound, S: ServiceBound>(
    arrivals: &A,
    service: &S,
) -> Option<LeastNumbers>
    ensures window { MatchOption result ((n : ℕ) → n ≤ LONGEST_WINDOW → ¬ ClosesWithin (A.cap arrivals.now) (S.floor service.now) n)
        (λ n. (n.window ≤ LONGEST_WINDOW) × IsLeast (ClosesWithin (A.cap arrivals.now) (S.floor service.now)) n.window) }
    ensures backlog { IfSome result (λ n. IsLeast (BacklogBounded (A.cap arrivals.now) (S.floor service.now) n.window) n.backlog) }
    ensures delay { IfSome result (λ n. IsLeastUpToLongest (DelayBounded (A.cap arrivals.now) (S.floor service.now) n.window) (Some n.delay)) }
{
    let Some(window) = least_window(arrivals, service) else {
        return None;
    };
    let (backlog, delay) = numbers_of::<A, S, Brand>(arrivals, service, window);
    Some(LeastNumbers {
        window,
        backlog,
        delay,
    })
}

/// The least backlog and the least delay of a window that closes, where the floor is known by a type.
fn numbers_of<A: ArrivalBound, S: ServiceBound, K: Served>(
    arrivals: &A,
    service: &S,
    window: u32,
) -> (u64, u32)
    requires least { 1 ≤ window }
    requires most { window ≤ LONGEST_WINDOW }
    requires closes { Closes (A.cap arrivals.now) (S.floor service.now) window }
    requires floor_is { S.floor service.now ≡ K.floor }
    requires window_is { window ≡ K.window }
    ensures backlog { IsLeast (BacklogBounded (A.cap arrivals.now) K.floor K.window) result.0 }
    ensures delay { IsLeastUpToLongest (DelayBounded (A.cap arrivals.now) K.floor K.window) (Some result.1) }
{
    let watcher: Numbers<S, K> = Numbers {
        backlogs: Greatest {
            service,
            greatest: 0,
            held: 0,
            of: PhantomData,
        },
        delays: Delays {
            service,
            window,
            delay: 0,
            taken: 0,
            of: PhantomData,
        },
    };
    let (numbers, _) = walk_by_leaps(arrivals, 1, window, watcher);
    (numbers.backlogs.greatest, numbers.delays.delay)
}

/// The greatest backlog and the least delay so far.
#[derive(Drop)]
struct Numbers<'a, S: ServiceBound, K: Served> {
    backlogs: Greatest<'a, S, K>,
    delays: Delays<'a, S, K>,
}

impl<'a, S: ServiceBound, K: Served> Watcher for Numbers<'a, S, K> {
    ghost knows = { λ w cap ticks. ⟦<Greatest<'a, S, K> as Watcher>⟧.knows w.backlogs cap ticks
        × ⟦<Delays<'a, S, K> as Watcher>⟧.knows w.delays cap ticks };

    ghost ends = { λ w cap. ⟦<Delays<'a, S, K> as Watcher>⟧.ends w.delays cap };

    #[inline(always)]
    fn see(&mut self, ticks: u32, until: u32, most: u64) -> bool {
        self.backlogs.see(ticks, until, most);
        self.delays.see(ticks, until, most)
    }
}

impl<'a, S: ServiceBound, K: Served> Patient for Numbers<'a, S, K> {
    fn passes(&self, ticks: u32) -> u64 {
        self.backlogs.passes(ticks).min(self.delays.passes(ticks))
    }
}
