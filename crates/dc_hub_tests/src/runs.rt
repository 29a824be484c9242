//! A hub over the small tables, whose calls are compared one by one.

ghost use Rattle.std.specs.Prelude.{◌≡◌, ◌≤◌, IfOk};
ghost use Rattle.dc_board.specs.Marks.{IsSeatOf};
ghost use Rattle.dc_hub.specs.Opening.{IsCharterOf};
ghost use Rattle.dc_hub.specs.declared.limits.TheConstants.{LONGEST_TRACE};
ghost use Rattle.dc_hub_tests.specs.OfBoard.{AreOfBoard};

use crate::fixture::small_certified;
use dc_check::Certified;
use dc_event::{Event, Reply};
use dc_hub::laws::forge;
use dc_hub::{
    Charter, ClockSeat, CloseFault, Hub, HubFault, MOST_ACTORS, OutputSeat, Receipt, RouterSeat,
    Seats, WireSeat,
};
use dc_word::Word;
use std::alloc::Global;
use std::marker::Brand;
use std::process::Abort;
use std::sync::Wait;
use std::sync::ledger::Blank;
use std::test::Fail;

/// What is done to the seats before the book closes.
#[derive(Clone, Copy)]
pub enum End {
    /// Nothing.
    Whole,
    /// The clock's last receipt is written over by one that it was not given.
    Forged,
    /// The clock's seat is taken away.
    NoClock,
}

/// What a closed book holds: how many entries, how many overruns, and the marks of the first two buses.
#[derive(Clone, Copy, Debug, PartialEq)]
pub struct Summary {
    pub entries: usize,
    pub overruns: u64,
    pub first: u64,
    pub second: u64,
}

/// A hub and its seats.
pub fn opened<L: Charter>(
    alloc: Global,
    blank: Blank,
    certified: Certified,
    limit: usize,
) -> Result<(Hub<L>, Seats<L>), Fail>
    requires blank { (blank.name ≡ L.name) × (blank.parts ≡ L.parts) }
    requires charter { IsCharterOf L.certified L.limit L.whole L.parts certified limit }
    ensures wires { IfOk result (λ r. AreOfBoard r.0 r.1.wires.items) }
    ensures watch { IfOk result (λ r. IsSeatOf r.0 r.1.watch) }
{
    match Hub::<L>::open(alloc, blank, certified, limit) {
        Ok(opened) => Ok(opened),
        Err(_) => Err("no hub".into()),
    }
}

/// A word arrives on a bus.
pub fn arrive<L: Charter, R: Wait>(
    rt: &R,
    hub: &Hub<L>,
    wires: &mut Vec<WireSeat<L>>,
    bus: usize,
    word: Word,
) -> Result<Receipt, HubFault>
    requires { AreOfBoard hub.now wires.old.items }
    ensures { AreOfBoard hub.now wires.new.items }
{
    if bus >= wires.len() {
        return Err(HubFault::Memory);
    }
    hub.arrive(rt, &mut wires[bus], word)
}

/// A router makes a step.
pub fn route<L: Charter, R: Wait>(
    rt: &R,
    hub: &Hub<L>,
    routers: &mut Vec<RouterSeat<L>>,
    router: usize,
) -> Result<Receipt, HubFault> {
    if router >= routers.len() {
        return Err(HubFault::Memory);
    }
    hub.route(rt, &mut routers[router])
}

/// An output makes a send step.
pub fn send<L: Charter, R: Wait>(
    rt: &R,
    hub: &Hub<L>,
    outputs: &mut Vec<OutputSeat<L>>,
    output: usize,
) -> Result<Receipt, HubFault> {
    if output >= outputs.len() {
        return Err(HubFault::Memory);
    }
    hub.send(rt, &mut outputs[output])
}

/// The tick ends.
pub fn tick<L: Charter, R: Wait>(
    rt: &R,
    hub: &Hub<L>,
    clock: &mut Option<ClockSeat<L>>,
) -> Result<Receipt, HubFault> {
    match clock {
        Some(clock) => hub.tick(rt, clock),
        None => Err(HubFault::Memory),
    }
}

/// A call by the seat whose event it is. Where there is no such seat it is answered as want of memory, which no trial
/// wants.
fn call<L: Charter, R: Wait>(
    rt: &R,
    hub: &Hub<L>,
    seats: &mut Seats<L>,
    event: &Event,
) -> Result<Receipt, HubFault>
    requires { AreOfBoard hub.now seats.old.wires.items }
    ensures { AreOfBoard hub.now seats.new.wires.items }
{
    match *event {
        Event::Arrive(word, bus) => arrive(rt, hub, &mut seats.wires, bus, word),
        Event::Route(router) => route(rt, hub, &mut seats.routers, router),
        Event::Send(output) => send(rt, hub, &mut seats.outputs, output),
        Event::Tick => tick(rt, hub, &mut seats.clock),
    }
}

/// The receipt of a call with this reply, one place after the last.
fn expected(calls: &mut u64, step: &(Event, Result<Reply, HubFault>)) -> Result<Receipt, HubFault> {
    match step.1 {
        Ok(reply) => {
            *calls = calls.wrapping_add(1);
            Ok(Receipt {
                index: *calls,
                event: step.0,
                reply,
            })
        }
        Err(fault) => Err(fault),
    }
}

/// Each call is answered as the step says, and the receipts have the indexes 1, 2, 3 and on.
fn compare<L: Charter, R: Wait + Abort>(
    rt: &R,
    hub: &Hub<L>,
    seats: &mut Seats<L>,
    steps: &[(Event, Result<Reply, HubFault>)],
)
    requires { AreOfBoard hub.now seats.old.wires.items }
{
    let mut calls = 0;
    for step in steps {
        assert!(rt; call(rt, hub, seats, &step.0) == expected(&mut calls, step));
    }
}

/// The clock's last receipt, where it has one, is replaced by one that it was not given.
fn forge_last<L: Charter>(clock: &mut ClockSeat<L>) {
    if clock.seat().receipts().is_empty() {
        return;
    }
    forge(
        clock,
        Receipt {
            index: 3,
            event: Event::Tick,
            reply: Reply::Now(2),
        },
    );
}

/// Does to the seats what is done before the end.
fn spoil<L: Charter>(clock: &mut Option<ClockSeat<L>>, end: End) {
    match end {
        End::Whole => {}
        End::NoClock => *clock = None,
        End::Forged => {
            if let Some(clock) = clock {
                forge_last(clock);
            }
        }
    }
}

/// What the book holds once it is closed.
fn closed<L: Charter>(hub: Hub<L>, seats: Seats<L>) -> Result<Summary, CloseFault> {
    match hub.close(seats) {
        Ok(closed) => {
            let marks = closed.marks();
            Ok(Summary {
                entries: closed.entries().len(),
                overruns: closed.overruns(),
                first: marks[0],
                second: marks[1],
            })
        }
        Err(fault) => Err(fault),
    }
}

/// A hub over these tables is opened, its calls are answered as the steps say, and it closes as is wanted.
fn answers_by<L: Charter, R: Wait + Abort>(
    rt: &R,
    alloc: Global,
    blank: Blank,
    certified: Certified,
    limit: usize,
    steps: &[(Event, Result<Reply, HubFault>)],
    ending: (End, Result<Summary, CloseFault>),
) -> Result<(), Fail>
    requires blank { (blank.name ≡ L.name) × (blank.parts ≡ L.parts) }
    requires charter { IsCharterOf L.certified L.limit L.whole L.parts certified limit }
{
    let (hub, mut seats) = opened::<L>(alloc, blank, certified, limit)?;
    compare(rt, &hub, &mut seats, steps);
    spoil(&mut seats.clock, ending.0);
    assert!(rt; closed(hub, seats) == ending.1);
    Ok(())
}

/// The same over the small tables.
pub fn answers<R: Wait + Abort>(
    rt: &R,
    alloc: Global,
    limit: usize,
    steps: &[(Event, Result<Reply, HubFault>)],
    ending: (End, Result<Summary, CloseFault>),
) -> Result<(), Fail>
    requires { (1 ≤ limit) × (limit ≤ LONGEST_TRACE) }
{
    let certified = small_certified(alloc).ok_or("no tables")?;
    certified.tables().valid();
    let blank = Blank::new(MOST_ACTORS);
    answers_by::<Brand, R>(rt, alloc, blank, certified, limit, steps, ending)
}
