//! Wires, routers, outputs and a clock in threads of their own, and a monitor beside them.

ghost use Rattle.std.specs.Prelude.{◌≡◌};
ghost use Rattle.dc_board.specs.Marks.{IsSeatOf};
ghost use Rattle.dc_hub.specs.Opening.{IsCharterOf};
ghost use Rattle.dc_hub_tests.specs.OfBoard.{AreOfBoard};

use crate::fixture::wide_certified;
use crate::runs::{opened, tick};
use dc_check::Certified;
use dc_event::{Event, Reply};
use dc_hub::{
    Charter, ClockSeat, CloseFault, Closed, Entry, Hub, MOST_ACTORS, OutputSeat, RouterSeat, Seats,
    Watch, WireSeat,
};
use dc_oracle::{keeps_budgets, outputs};
use dc_word::Word;
use std::alloc::{AllocError, Global};
use std::marker::Brand;
use std::process::Abort;
use std::rt::HostRuntime;
use std::sync::Wait;
use std::sync::ledger::Blank;
use std::test::Fail;
use std::thread;
use std::thread::Threads;

/// How many calls each wire and each router makes. The book has an entry for each word, 10,240 in all.
const ROUNDS: u32 = 160;

/// The word of a round, by turns of label 203 and 204.
fn word_of(round: u32) -> Word {
    if round % 2 == 0 {
        Word(0x600000C1)
    } else {
        Word(0xE0000021)
    }
}

/// A word on the wire's bus, round after round.
fn run_wire<L: Charter, R: Wait>(rt: &R, hub: &Hub<L>, mut wire: WireSeat<L>) -> WireSeat<L>
    requires { IsSeatOf hub.now wire.marks }
{
    for round in 0..ROUNDS {
        let _ = hub.arrive(rt, &mut wire, word_of(round));
        thread::yield_now();
    }
    wire
}

/// A router's steps.
fn run_router<L: Charter, R: Wait>(
    rt: &R,
    hub: &Hub<L>,
    mut router: RouterSeat<L>,
) -> RouterSeat<L> {
    for _ in 0..ROUNDS {
        let _ = hub.route(rt, &mut router);
        thread::yield_now();
    }
    router
}

/// An output's send steps.
fn run_output<L: Charter, R: Wait>(
    rt: &R,
    hub: &Hub<L>,
    mut output: OutputSeat<L>,
) -> OutputSeat<L> {
    for _ in 0..10 * ROUNDS {
        let _ = hub.send(rt, &mut output);
        thread::yield_now();
    }
    output
}

/// Ticks, which are refused while a router owes a step.
fn run_clock<L: Charter, R: Wait>(
    rt: &R,
    hub: &Hub<L>,
    mut clock: Option<ClockSeat<L>>,
) -> Option<ClockSeat<L>> {
    for _ in 0..10 * ROUNDS {
        let _ = tick(rt, hub, &mut clock);
        thread::yield_now();
    }
    clock
}

/// Reads of all buses: whether an answer fell.
fn monitor<L: Charter>(hub: &Hub<L>, mut watch: Watch) -> bool
    requires { IsSeatOf hub.now watch }
{
    let mut seen = [0u64; 64];
    let mut fell = false;
    for _ in 0..ROUNDS {
        for bus in 0..64 {
            let mark = hub.read(&mut watch, bus);
            fell = fell || mark < seen[bus];
            seen[bus] = mark;
        }
        thread::yield_now();
    }
    fell
}

/// Each wire in a thread of its own.
fn run_wires<L: Charter + Send + Sync, R: Threads + Wait + Sync>(
    rt: &R,
    hub: &Hub<L>,
    wires: Vec<WireSeat<L>>,
) -> Result<Vec<WireSeat<L>>, AllocError>
    requires { AreOfBoard hub.now wires.items }
{
    thread::map_vec(
        rt,
        wires,
        &|wire: WireSeat<L>| -> WireSeat<L>
            requires { IsSeatOf hub.now wire.marks }
        { run_wire(rt, hub, wire) },
    )
}

/// Each router in a thread of its own.
fn run_routers<L: Charter + Send + Sync, R: Threads + Wait + Sync>(
    rt: &R,
    hub: &Hub<L>,
    routers: Vec<RouterSeat<L>>,
) -> Result<Vec<RouterSeat<L>>, AllocError> {
    thread::map_vec(
        rt,
        routers,
        &|router: RouterSeat<L>| -> RouterSeat<L> { run_router(rt, hub, router) },
    )
}

/// Each output in a thread of its own.
fn run_outputs<L: Charter + Send + Sync, R: Threads + Wait + Sync>(
    rt: &R,
    hub: &Hub<L>,
    outputs: Vec<OutputSeat<L>>,
) -> Result<Vec<OutputSeat<L>>, AllocError> {
    thread::map_vec(
        rt,
        outputs,
        &|output: OutputSeat<L>| -> OutputSeat<L> { run_output(rt, hub, output) },
    )
}

/// Wires and routers at once.
fn run_inputs<L: Charter + Send + Sync, R: Threads + Wait + Sync>(
    rt: &R,
    hub: &Hub<L>,
    wires: Vec<WireSeat<L>>,
    routers: Vec<RouterSeat<L>>,
) -> Result<(Vec<WireSeat<L>>, Vec<RouterSeat<L>>), AllocError>
    requires { AreOfBoard hub.now wires.items }
{
    let (wires, routers) = thread::join(
        rt,
        move || -> Result<Vec<WireSeat<L>>, AllocError>
            requires { AreOfBoard hub.now wires.items }
        { run_wires(rt, hub, wires) },
        move || run_routers(rt, hub, routers),
    );
    Ok((wires?, routers?))
}

/// Outputs and the clock at once.
fn run_sends<L: Charter + Send + Sync, R: Threads + Wait + Sync>(
    rt: &R,
    hub: &Hub<L>,
    outputs: Vec<OutputSeat<L>>,
    clock: Option<ClockSeat<L>>,
) -> Result<(Vec<OutputSeat<L>>, Option<ClockSeat<L>>), AllocError> {
    let (outputs, clock) = thread::join(
        rt,
        move || run_outputs(rt, hub, outputs),
        move || run_clock(rt, hub, clock),
    );
    Ok((outputs?, clock))
}

/// All actors at once. The watch is not used.
fn run_actors<L: Charter + Send + Sync, R: Threads + Wait + Sync>(
    rt: &R,
    hub: &Hub<L>,
    seats: Seats<L>,
) -> Result<Seats<L>, AllocError>
    requires { AreOfBoard hub.now seats.wires.items }
{
    let Seats {
        wires,
        routers,
        outputs,
        clock,
        watch,
    } = seats;
    let (inputs, sends) = thread::join(
        rt,
        move || -> Result<(Vec<WireSeat<L>>, Vec<RouterSeat<L>>), AllocError>
            requires { AreOfBoard hub.now wires.items }
        { run_inputs(rt, hub, wires, routers) },
        move || run_sends(rt, hub, outputs, clock),
    );
    let (wires, routers) = inputs?;
    let (outputs, clock) = sends?;
    Ok(Seats {
        wires,
        routers,
        outputs,
        clock,
        watch,
    })
}

/// All actors and a monitor beside them: the seats, and whether an answer of the monitor fell.
fn run_seats<L: Charter + Send + Sync, R: Threads + Wait + Sync>(
    rt: &R,
    hub: &Hub<L>,
    mut seats: Seats<L>,
) -> (Result<Seats<L>, AllocError>, bool)
    requires wires { AreOfBoard hub.now seats.wires.items }
    requires watch { IsSeatOf hub.now seats.watch }
{
    let watch = hub.split(&mut seats.watch);
    thread::join(
        rt,
        move || -> Result<Seats<L>, AllocError>
            requires { AreOfBoard hub.now seats.wires.items }
        { run_actors(rt, hub, seats) },
        move || monitor(hub, watch),
    )
}

/// Raises the mark of the bus to the backlog that its wire was answered.
fn raise(marks: &mut [u64; 64], entry: &Entry) {
    let Event::Arrive(_, bus) = entry.event else {
        return;
    };
    let Reply::Queued(backlog) = entry.reply else {
        return;
    };
    if bus < marks.len() {
        marks[bus] = marks[bus].max(backlog as u64);
    }
}

/// The events of a book.
fn events(alloc: Global, closed: &Closed) -> Result<Vec<Event>, Fail> {
    let mut events = Vec::new(alloc);
    for entry in closed.entries() {
        events.push(entry.event)?;
    }
    Ok(events)
}

/// The replies are those of the second opinion, and the marks are the greatest backlogs.
fn compare<R: Abort>(rt: &R, closed: &Closed, replies: &[Reply]) {
    let mut marks = [0u64; 64];
    assert!(rt; replies.len() == closed.entries().len());
    for (entry, reply) in closed.entries().iter().zip(replies) {
        assert!(rt; *reply == entry.reply);
        raise(&mut marks, entry);
    }
    assert!(rt; closed.marks() == marks);
}

/// The book's entries are judged by the second opinion: no budget is broken, and the replies are the same.
fn judge<R: Abort>(rt: &R, alloc: Global, closed: &Closed) -> Result<(), Fail> {
    let tables = closed.certified().tables();
    let events = events(alloc, closed)?;
    assert!(rt; keeps_budgets(alloc, tables, &events)?.is_none());
    let replies = outputs(alloc, tables, &events)?;
    compare(rt, closed, &replies);
    Ok(())
}

/// What the book of a hub that is closed holds is judged.
fn judge_closed<R: Abort>(
    rt: &R,
    alloc: Global,
    closed: Result<Closed, CloseFault>,
) -> Result<(), Fail> {
    let closed = closed?;
    assert!(rt; closed.entries().len() > 10_000);
    judge(rt, alloc, &closed)
}

/// All threads run, the book closes, and its entries are judged.
fn run_all<L: Charter + Send + Sync, R: Threads + Wait + Abort + Sync>(
    rt: &R,
    alloc: Global,
    blank: Blank,
    certified: Certified,
) -> Result<(), Fail>
    requires blank { (blank.name ≡ L.name) × (blank.parts ≡ L.parts) }
    requires charter { IsCharterOf L.certified L.limit L.whole L.parts certified 1000000 }
{
    let (hub, seats) = opened::<L>(alloc, blank, certified, 1_000_000)?;
    let (seats, fell) = run_seats(rt, &hub, seats);
    assert!(rt; !fell);
    judge_closed(rt, alloc, hub.close(seats?))
}

#[test]
fn actors_run_in_threads(rt: HostRuntime) -> Result<(), Fail> {
    let certified = wide_certified(rt.alloc()).ok_or("no tables")?;
    certified.tables().valid();
    run_all::<Brand, HostRuntime>(&rt, rt.alloc(), Blank::new(MOST_ACTORS), certified)
}
