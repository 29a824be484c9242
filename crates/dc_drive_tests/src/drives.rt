//! Hubs that are driven by the script of a bench, and what their books hold.

ghost use Rattle.std.specs.Prelude.{◌≡◌, ◌≤◌, IfOk, IsSome};
ghost use Rattle.dc_board.specs.Marks.{IsSeatOf};
ghost use Rattle.dc_check.specs.Lent.{tables_of};
ghost use Rattle.dc_drive.specs.Played.{AreOfHub};
ghost use Rattle.dc_hub.specs.Opening.{IsCharterOf};

use crate::fixture::{Plan, equal_plan};
use dc_check::Certified;
use dc_checkpar::{Gate, Open};
use dc_core::StepFault;
use dc_drive::{DriveFault, drive};
use dc_event::Event;
use dc_hub::{Charter, CloseFault, Closed, Hub, HubFault, MOST_ACTORS, OutputSeat, Seats};
use dc_oracle::{claims, keeps_budgets, keeps_sources};
use dc_script::{Script, Timed};
use dc_tables::Tables;
use dc_test_gates::{Against, Counting, Holding, Meeting, Recording};
use std::alloc::Global;
use std::marker::Brand;
use std::process::Abort;
use std::rt::HostRuntime;
use std::sync::Wait;
use std::sync::ledger::Blank;
use std::test::Fail;
use std::thread::Threads;

/// Each arrival of the book stands in the tick that the script gives its word.
fn are_in_their_ticks<R: Abort>(rt: &R, closed: &Closed, script: &Script) {
    let mut tick = 0;
    let mut next = [0usize; 64];
    for entry in closed.entries() {
        match entry.event {
            Event::Tick => tick = u64::wrapping_add(tick, 1),
            Event::Arrive(word, bus) => {
                if bus >= 64 || bus >= script.bus_count() {
                    continue;
                }
                let words = script.words(bus);
                assert!(rt; next[bus] < words.len());
                if next[bus] < words.len() {
                    assert!(rt; words[next[bus]] == Timed { tick, word });
                    next[bus] += 1;
                }
            }
            _ => {}
        }
    }
}

/// The events of a book.
fn events(alloc: Global, closed: &Closed) -> Result<Vec<Event>, Fail> {
    let mut events = Vec::new(alloc);
    for entry in closed.entries() {
        events.push(entry.event)?;
    }
    Ok(events)
}

/// The events of a book keep the budgets, what is asked of their sources, and the claims.
fn keeps_all<R: Abort>(
    rt: &R,
    alloc: Global,
    certified: &Certified,
    run: &[Event],
) -> Result<(), Fail> {
    let tables = certified.tables();
    assert!(rt; keeps_budgets(alloc, tables, run)?.is_none());
    assert!(rt; keeps_sources(alloc, tables, run)?.is_none());
    assert!(rt; claims(alloc, tables, certified.certificate(), run)?.is_none());
    Ok(())
}

/// What a book holds: no overrun, each word in its tick, and what the certificate claims.
fn judge<R: Abort>(rt: &R, alloc: Global, closed: &Closed, script: &Script) -> Result<(), Fail> {
    assert!(rt; closed.overruns() == 0);
    are_in_their_ticks(rt, closed, script);
    let events = events(alloc, closed)?;
    keeps_all(rt, alloc, closed.certified(), &events)
}

/// The book of a hub that has been driven is judged, and holds so many entries where that is said. The mark of the first
/// bus is 1 or 2 then.
pub fn judge_closed<R: Abort>(
    rt: &R,
    alloc: Global,
    closed: Result<Closed, CloseFault>,
    script: &Script,
    entries: Option<usize>,
) -> Result<(), Fail> {
    let closed = closed?;
    if let Some(entries) = entries {
        assert!(rt; closed.entries().len() == entries);
        let mark = closed.marks()[0];
        assert!(rt; mark == 1 || mark == 2);
    }
    judge(rt, alloc, &closed, script)
}

/// A hub and its seats.
pub fn opened<L: Charter>(
    alloc: Global,
    blank: Blank,
    certified: Certified,
    limit: usize,
) -> Result<(Hub<L>, Seats<L>), Fail>
    requires blank { (blank.name ≡ L.name) × (blank.parts ≡ L.parts) }
    requires charter { IsCharterOf L.certified L.limit L.whole L.parts certified limit }
    ensures wires { IfOk result (λ r. AreOfHub r.0 r.1.wires.items) }
    ensures clock { IfOk result (λ r. IsSome r.1.clock) }
    ensures watch { IfOk result (λ r. IsSeatOf r.0 r.1.watch) }
{
    match Hub::<L>::open(alloc, blank, certified, limit) {
        Ok(opened) => Ok(opened),
        Err(_) => Err("no hub".into()),
    }
}

/// A drive by the script of a bench.
#[derive(Clone, Copy)]
pub struct Trial {
    /// For how many ticks.
    pub ticks: u64,
    /// How many entries the book may have.
    pub limit: usize,
    /// Whether the first output has made a send step before.
    pub has_sent: bool,
    /// What is answered, and how many entries the book has then, where that is said.
    pub wanted: Result<Option<usize>, DriveFault>,
}

/// A trial of so many ticks, with room for all entries.
fn of_ticks(ticks: u64, wanted: Result<Option<usize>, DriveFault>) -> Trial
    requires { (1 ≤ ticks) × (ticks ≤ 1000) }
    ensures { (result.ticks ≡ ticks) × (result.limit ≡ 1000000) }
{
    Trial {
        ticks,
        limit: 1_000_000,
        has_sent: false,
        wanted,
    }
}

/// The first output makes a send step.
fn send<L: Charter, R: Wait>(rt: &R, hub: &Hub<L>, outputs: &mut Vec<OutputSeat<L>>) {
    if !outputs.is_empty() {
        let _ = hub.send(rt, &mut outputs[0]);
    }
}

/// Drives a hub over these tables as the trial says, with this gate. Where it is to answer Ok its book is judged. It closes
/// in any case.
fn drives<L: Charter + Send + Sync, R: Threads + Wait + Abort + Sync, G: Gate>(
    rt: &R,
    alloc: Global,
    blank: Blank,
    tables: &Tables,
    certified: Certified,
    gate: &G,
    trial: Trial,
) -> Result<(), Fail>
    requires blank { (blank.name ≡ L.name) × (blank.parts ≡ L.parts) }
    requires charter { IsCharterOf L.certified L.limit L.whole L.parts certified trial.limit }
    requires tables { tables_of certified ≡ tables.now }
    requires ticks { (1 ≤ trial.ticks) × (trial.ticks ≤ 1000) }
{
    let script = Script::bench(alloc, tables, trial.ticks)?;
    let (hub, mut seats) = opened::<L>(alloc, blank, certified, trial.limit)?;
    if trial.has_sent {
        send(rt, &hub, &mut seats.outputs);
    }
    let answer = drive(rt, alloc, tables, &hub, &mut seats, &script, gate);
    match trial.wanted {
        Ok(entries) => {
            assert!(rt; answer == Ok(()));
            judge_closed(rt, alloc, hub.close(seats), &script, entries)
        }
        Err(fault) => {
            assert!(rt; answer == Err(fault));
            assert!(rt; hub.close(seats).is_ok());
            Ok(())
        }
    }
}

/// The same over the tables of so many equal buses, with a blank of its own.
fn runs<R: Threads + Wait + Abort + Sync, G: Gate>(
    rt: &R,
    alloc: Global,
    buses: u32,
    policed: bool,
    gate: &G,
    trial: Trial,
) -> Result<(), Fail>
    requires ticks { (1 ≤ trial.ticks) × (trial.ticks ≤ 1000) }
    requires limit { (1 ≤ trial.limit) × (trial.limit ≤ 1000000) }
{
    let plan = equal_plan(alloc, buses, policed).ok_or("no tables")?;
    plan.certified.tables().valid();
    let Plan { tables, certified } = plan;
    let blank = Blank::new(MOST_ACTORS);
    drives::<Brand, R, G>(rt, alloc, blank, &tables, certified, gate, trial)
}

#[test]
fn the_small_tables_run(rt: HostRuntime) -> Result<(), Fail> {
    runs(&rt, rt.alloc(), 1, false, &Open, of_ticks(1, Ok(Some(6))))?;
    runs(
        &rt,
        rt.alloc(),
        1,
        false,
        &Open,
        of_ticks(30, Ok(Some(126))),
    )?;
    runs(
        &rt,
        rt.alloc(),
        1,
        false,
        &Open,
        of_ticks(200, Ok(Some(840))),
    )
}

#[test]
fn a_policed_bus_runs(rt: HostRuntime) -> Result<(), Fail> {
    runs(
        &rt,
        rt.alloc(),
        1,
        true,
        &Open,
        of_ticks(200, Ok(Some(840))),
    )
}

#[test]
fn two_seats_meet_within_a_tick(rt: HostRuntime) -> Result<(), Fail> {
    let gate = Meeting::new();
    runs(
        &rt,
        rt.alloc(),
        64,
        false,
        &gate,
        of_ticks(1, Ok(Some(258))),
    )
}

#[test]
fn a_gate_is_stuck_at_the_first_enter(rt: HostRuntime) -> Result<(), Fail> {
    let stuck = of_ticks(30, Err(DriveFault::GateStuck));
    runs(&rt, rt.alloc(), 1, false, &Counting::new(0), stuck)?;
    runs(&rt, rt.alloc(), 64, false, &Counting::new(0), stuck)
}

/// Of a wire, of a router, of an output and of the clock.
#[test]
fn a_gate_is_stuck_for_one_seat(rt: HostRuntime) -> Result<(), Fail> {
    let stuck = of_ticks(30, Err(DriveFault::GateStuck));
    for number in 0..4 {
        runs(&rt, rt.alloc(), 1, false, &Against::new(number), stuck)?;
    }
    runs(&rt, rt.alloc(), 64, false, &Against::new(3), stuck)
}

/// The wire has the number 0, the router 1, the output 2, the clock 3.
#[test]
fn each_step_enters_and_leaves_by_its_actors_number(rt: HostRuntime) -> Result<(), Fail> {
    let gate = Recording::new(rt.alloc(), 4)?;
    runs(
        &rt,
        rt.alloc(),
        1,
        false,
        &gate,
        of_ticks(30, Ok(Some(126))),
    )?;
    assert!(&rt; gate.rounds(0) == Some(6));
    assert!(&rt; gate.rounds(1) == Some(60));
    assert!(&rt; gate.rounds(2) == Some(30));
    assert!(&rt; gate.rounds(3) == Some(30));
    Ok(())
}

/// While an actor is held at its first step, the others make theirs, and the clock does not tick.
#[test]
fn the_clock_waits_for_each_actor(rt: HostRuntime) -> Result<(), Fail> {
    for number in 0..3 {
        let gate = Holding::new(number, 3);
        runs(&rt, rt.alloc(), 1, false, &gate, of_ticks(2, Ok(Some(10))))?;
        assert!(&rt; gate.met() == Some(false));
    }
    Ok(())
}

#[test]
fn a_refused_step_is_told_as_itself(rt: HostRuntime) -> Result<(), Fail> {
    let refused = Trial {
        ticks: 30,
        limit: 1_000_000,
        has_sent: true,
        wanted: Err(DriveFault::Hub(HubFault::Step(StepFault::TooSoon))),
    };
    runs(&rt, rt.alloc(), 1, false, &Open, refused)
}

#[test]
fn a_full_book_is_told_as_itself(rt: HostRuntime) -> Result<(), Fail> {
    let full = Trial {
        ticks: 30,
        limit: 125,
        has_sent: false,
        wanted: Err(DriveFault::Hub(HubFault::TraceFull)),
    };
    runs(&rt, rt.alloc(), 1, false, &Open, full)?;
    let held = Trial {
        limit: 126,
        wanted: Ok(Some(126)),
        ..full
    };
    runs(&rt, rt.alloc(), 1, false, &Open, held)
}
