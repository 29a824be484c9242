//! The numbers of a queue by its bounds.
use dc_bound::{ArrivalBound, LONGEST_SPAN, ServiceBound};
use dc_busy::{LONGEST_WINDOW, closes, least_window};
use dc_find::Queue;
use dc_margin::{Peaks, peaks_of};
use dc_tables::Tables;

/// What may have come by some tick, and what has surely been served by then.
#[derive(Clone, Copy)]
pub(crate) struct Counts {
    /// The most that may have come.
    pub(crate) come: u64,
    /// The least that has been served.
    pub(crate) served: u64,
}

/// A window that closes, and the most that may wait in it and how long.
#[derive(Clone, Copy)]
pub(crate) struct Closing {
    /// Its ticks, 1 to [`LONGEST_WINDOW`].
    pub(crate) window: u32,
    /// Its peaks.
    pub(crate) peaks: Peaks,
}

/// The most that may come in so many ticks, and the least that is served in so many.
fn counted<A: ArrivalBound, S: ServiceBound>(
    arrivals: &A,
    service: &S,
    ticks: u32,
    served: u32,
) -> Counts {
    Counts {
        come: arrivals.at_most(ticks.min(LONGEST_SPAN)),
        served: service.at_least(served.min(LONGEST_SPAN)),
    }
}

/// The same of a queue of the tables.
pub(crate) fn counts_of(tables: &Tables, queue: Queue, ticks: u32, served: u32) -> Counts {
    match queue {
        Queue::Input(bus) if bus < tables.bus_count() => {
            let (bound, service) = (tables.bus_bound(bus), tables.bus_service(bus));
            counted(&bound, &service, ticks, served)
        }
        Queue::Output(output) if output < tables.output_count() => {
            let (bound, service) = (tables.output_bound(output), tables.output_service(output));
            counted(&bound, &service, ticks, served)
        }
        _ => Counts { come: 0, served: 0 },
    }
}

/// This window, with its peaks, where it is one that closes.
fn closed_at<A: ArrivalBound, S: ServiceBound>(
    arrivals: &A,
    service: &S,
    window: u32,
) -> Option<Closing> {
    if window < 1 {
        return None;
    }
    if window > LONGEST_WINDOW {
        return None;
    }
    if !closes(arrivals, service, window) {
        return None;
    }
    Some(Closing {
        window,
        peaks: peaks_of(arrivals, service, window),
    })
}

/// Whether it is seen at once that no window closes, where that is asked: the longest one does not.
fn is_hopeless<A: ArrivalBound, S: ServiceBound>(arrivals: &A, service: &S, quick: bool) -> bool {
    if !quick {
        return false;
    }
    !closes(arrivals, service, LONGEST_WINDOW)
}

/// This window where it closes, or the least that does where none is named. Where none closes that costs a walk through all
/// of them; `quick` asks that the longest one closes too, and says no of most such queues at once.
pub(crate) fn closed_by<A: ArrivalBound, S: ServiceBound>(
    arrivals: &A,
    service: &S,
    claimed: Option<u32>,
    quick: bool,
) -> Option<Closing> {
    if is_hopeless(arrivals, service, quick) {
        return None;
    }
    if let Some(window) = claimed {
        return closed_at(arrivals, service, window);
    }
    match least_window(arrivals, service) {
        Some(window) => closed_at(arrivals, service, window),
        None => None,
    }
}
