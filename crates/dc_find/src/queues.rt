//! The least numbers of an input and of an output, by the bounds of their queues.

ghost use Rattle.std.specs.Prelude.{◌≡◌, ◌≢◌, ℕ, ◌+◌, ◌<◌, length, IfOk, IfErr, IfSome, MatchOption};
ghost use Rattle.dc_busy.specs.BusyWindow.{BacklogBounded};
ghost use Rattle.dc_busy.specs.Least.{IsLeast};
ghost use Rattle.dc_find.specs.Rows.{AreLeastTimes, AreLeastNumbers, IsLeastInput, IsLeastOutput};
ghost use Rattle.dc_find.specs.Ways.{NeverCloses, IsFirstOfJob};
ghost use Rattle.dc_tables.specs.TableRows.{bus_cap, bus_floor, output_cap, output_floor};

use crate::fault::{FindFault, Queue};
use dc_bound::{ArrivalBound, ServiceBound};
use dc_busy::{LeastNumbers, least_delay, least_numbers, least_window};
use dc_tables::Tables;

/// A window of a queue that closes, and a delay, in ticks.
#[derive(Clone, Copy)]
pub(crate) struct Times {
    pub(crate) window: u32,
    pub(crate) delay: u32,
}

/// The numbers of an input.
#[derive(Clone, Copy)]
pub(crate) struct InputNumbers {
    pub(crate) times: Times,
    pub(crate) backlog: u32,
}

/// The least window that closes, and the least delay; `None` where no window closes.
fn least_times<A: ArrivalBound, S: ServiceBound>(arrivals: &A, service: &S) -> Option<Times>
    ensures { MatchOption result (NeverCloses (A.cap arrivals.now) (S.floor service.now))
        (λ t. AreLeastTimes (A.cap arrivals.now) (S.floor service.now) t.window t.delay) }
{
    let Some(window) = least_window(arrivals, service) else {
        return None;
    };
    let delay = least_delay(arrivals, service, window).unwrap();
    Some(Times { window, delay })
}

/// The same with the least backlog of that window, which one walk finds with the delay.
fn least_of<A: ArrivalBound, S: ServiceBound>(arrivals: &A, service: &S) -> Option<LeastNumbers>
    ensures times { MatchOption result (NeverCloses (A.cap arrivals.now) (S.floor service.now))
        (λ n. AreLeastTimes (A.cap arrivals.now) (S.floor service.now) n.window n.delay) }
    ensures backlog { IfSome result (λ n. IsLeast (BacklogBounded (A.cap arrivals.now) (S.floor service.now) n.window) n.backlog) }
{
    least_numbers(arrivals, service)
}

/// The least numbers of an input, given the bounds of its bus, whether or not its queue has room; `None` where no
/// window closes.
pub(crate) fn least_input<A: ArrivalBound, S: ServiceBound>(
    tables: &Tables,
    bus: usize,
    arrivals: &A,
    service: &S,
) -> Option<InputNumbers>
    requires there { bus < length tables.now.buses }
    requires arrivals { (d : ℕ) → A.cap arrivals.now d ≡ bus_cap tables.now bus d }
    requires service { (d : ℕ) → S.floor service.now d ≡ bus_floor tables.now bus d }
    ensures { MatchOption result (NeverCloses (bus_cap tables.now bus) (bus_floor tables.now bus))
        (λ n. AreLeastNumbers tables.now bus (record { window = n.times.window; backlog = n.backlog; delay = n.times.delay })) }
{
    tables.valid();
    let Some(least) = least_of(arrivals, service) else {
        return None;
    };
    let times = Times {
        window: least.window,
        delay: least.delay,
    };
    let backlog = least.backlog as u32;
    Some(InputNumbers { times, backlog })
}

/// The least numbers of an input, given the bounds of its bus, or its first fault.
pub(crate) fn input_numbers<A: ArrivalBound, S: ServiceBound>(
    tables: &Tables,
    bus: usize,
    arrivals: &A,
    service: &S,
) -> Result<InputNumbers, FindFault>
    requires there { bus < length tables.now.buses }
    requires arrivals { (d : ℕ) → A.cap arrivals.now d ≡ bus_cap tables.now bus d }
    requires service { (d : ℕ) → S.floor service.now d ≡ bus_floor tables.now bus d }
    ensures least { IfOk result (λ n. IsLeastInput tables.now bus (record { window = n.times.window; backlog = n.backlog; delay = n.times.delay })) }
    ensures fault { IfErr result (λ fault. IsFirstOfJob tables.now bus fault) }
{
    let Some(numbers) = least_input(tables, bus, arrivals, service) else {
        return Err(FindFault::WindowNeverCloses(Queue::Input(bus)));
    };
    if numbers.backlog > tables.queue(bus) {
        return Err(FindFault::QueueTooShort(bus));
    }
    Ok(numbers)
}

/// The least numbers of an output, given its bounds; `None` where no window closes.
pub(crate) fn least_output<A: ArrivalBound, S: ServiceBound>(
    tables: &Tables,
    output: usize,
    arrivals: &A,
    service: &S,
) -> Option<Times>
    requires arrivals { (d : ℕ) → A.cap arrivals.now d ≡ output_cap tables.now output d }
    requires service { (d : ℕ) → S.floor service.now d ≡ output_floor tables.now output d }
    ensures { MatchOption result (NeverCloses (output_cap tables.now output) (output_floor tables.now output))
        (λ n. IsLeastOutput tables.now output (record { window = n.window; delay = n.delay })) }
{
    let Some(times) = least_times(arrivals, service) else {
        return None;
    };
    Some(times)
}

/// The least numbers of an output, given its bounds, or its fault.
pub(crate) fn output_numbers<A: ArrivalBound, S: ServiceBound>(
    tables: &Tables,
    output: usize,
    arrivals: &A,
    service: &S,
) -> Result<Times, FindFault>
    requires there { output < length tables.now.outputs }
    requires arrivals { (d : ℕ) → A.cap arrivals.now d ≡ output_cap tables.now output d }
    requires service { (d : ℕ) → S.floor service.now d ≡ output_floor tables.now output d }
    ensures least { IfOk result (λ n. IsLeastOutput tables.now output (record { window = n.window; delay = n.delay })) }
    ensures fault { IfErr result (λ fault. IsFirstOfJob tables.now (length tables.now.buses + output) fault) }
{
    tables.valid();
    match least_output(tables, output, arrivals, service) {
        None => Err(FindFault::WindowNeverCloses(Queue::Output(output))),
        Some(times) => Ok(times),
    }
}
