//! The search of a long window, in pieces.

ghost use Rattle.std.specs.Prelude.{◌≡◌, ◌<◌, ◌≤◌, None, MatchOption};
ghost use Rattle.std.specs.Option.{option_or};
ghost use Rattle.dc_busy.specs.BusyWindow.{BacklogAt, BacklogBounded, DelayAt, DelayBounded, IsLeastFailing};
ghost use Rattle.dc_busy.specs.declared.limits.TheConstants.{LONGEST_WINDOW};
ghost use Rattle.dc_checkpar.specs.Pieces.{IsFirstInPiece};

use crate::limits::{LEAST, PIECE};
use dc_bound::{ArrivalBound, ServiceBound};
use dc_busy::failures_between;
use rayon::prelude::*;
use std::thread::Threads;

/// What `dc_busy::first_failures` finds, by a search in pieces, in several threads where there are processors for them.
/// `window` is 1 to `dc_busy::LONGEST_WINDOW`, `delay` at most as many.
pub(crate) fn first_failures<A: ArrivalBound + Sync, S: ServiceBound + Sync>(
    rt: &(impl Threads + Sync),
    arrivals: &A,
    service: &S,
    window: u32,
    backlog: u64,
    delay: u32,
) -> (Option<u32>, Option<u32>)
    requires least { 1 ≤ window }
    requires most { window ≤ LONGEST_WINDOW }
    requires short { delay ≤ LONGEST_WINDOW }
    ensures backlog { MatchOption result.0 (BacklogBounded (A.cap arrivals.now) (S.floor service.now) window backlog)
        (λ w. IsLeastFailing (BacklogAt (A.cap arrivals.now) (S.floor service.now) backlog) window w) }
    ensures delay { MatchOption result.1 (DelayBounded (A.cap arrivals.now) (S.floor service.now) window delay)
        (λ w. IsLeastFailing (DelayAt (A.cap arrivals.now) (S.floor service.now) delay) window w) }
{
    let pieces = window.div_ceil(PIECE);
    (0..pieces)
        .into_par_iter()
        .with_min_len(LEAST)
        .map(
            |piece: u32| -> (Option<u32>, Option<u32>)
                requires { (piece < LONGEST_WINDOW) × (window ≤ LONGEST_WINDOW) × (delay ≤ LONGEST_WINDOW) }
                ensures backlog { IsFirstInPiece (BacklogAt (A.cap arrivals.entry.now) (S.floor service.entry.now) backlog) piece window result.0 }
                ensures delay { IsFirstInPiece (DelayAt (A.cap arrivals.entry.now) (S.floor service.entry.now) delay) piece window result.1 }
            { piece_failures(arrivals, service, piece, window, backlog, delay) },
        )
        .reduce(
            rt,
            || -> (Option<u32>, Option<u32>)
                ensures { (result.0 ≡ None) × (result.1 ≡ None) }
            { (None, None) },
            |one: (Option<u32>, Option<u32>), other: (Option<u32>, Option<u32>)| -> (
                Option<u32>,
                Option<u32>,
            )
                ensures { (result.0 ≡ option_or one.0 other.0) × (result.1 ≡ option_or one.1 other.1) }
            { (one.0.or(other.0), one.1.or(other.1)) },
        )
}

/// What is found in a piece of the window.
fn piece_failures<A: ArrivalBound, S: ServiceBound>(
    arrivals: &A,
    service: &S,
    piece: u32,
    window: u32,
    backlog: u64,
    delay: u32,
) -> (Option<u32>, Option<u32>)
    requires piece { piece < LONGEST_WINDOW }
    requires most { window ≤ LONGEST_WINDOW }
    requires short { delay ≤ LONGEST_WINDOW }
    ensures backlog { IsFirstInPiece (BacklogAt (A.cap arrivals.now) (S.floor service.now) backlog) piece window result.0 }
    ensures delay { IsFirstInPiece (DelayAt (A.cap arrivals.now) (S.floor service.now) delay) piece window result.1 }
{
    let before = piece * PIECE;
    let last = (before + PIECE).min(window);
    failures_between(arrivals, service, before + 1, last, backlog, delay)
}
