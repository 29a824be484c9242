//! A monitor beside a hub that is driven.

ghost use Rattle.std.specs.Prelude.{◌≡◌, IsSome};
ghost use Rattle.dc_board.specs.Marks.{IsSeatOf};
ghost use Rattle.dc_check.specs.Lent.{tables_of};
ghost use Rattle.dc_drive.specs.Played.{AreOfHub};
ghost use Rattle.dc_hub.specs.Opening.{IsCharterOf};
ghost use Rattle.dc_hub.specs.Views.{AreTablesOf};

use crate::drives::{judge_closed, opened};
use crate::fixture::{Plan, equal_plan};
use dc_check::Certified;
use dc_checkpar::Open;
use dc_drive::{DriveFault, drive};
use dc_hub::{Charter, Hub, MOST_ACTORS, Seats, Watch};
use dc_script::Script;
use dc_tables::Tables;
use std::alloc::Global;
use std::marker::Brand;
use std::process::Abort;
use std::rt::HostRuntime;
use std::sync::Wait;
use std::sync::ledger::Blank;
use std::test::Fail;
use std::thread;
use std::thread::Threads;

/// How often the monitor reads all buses.
const ROUNDS: u32 = 400;

/// For how many ticks the hub is driven.
const TICKS: u64 = 60;

/// Reads of all buses: whether an answer fell.
fn monitor<L: Charter>(hub: &Hub<L>, mut watch: Watch) -> bool
    requires { IsSeatOf hub.now watch }
{
    let mut seen = [0u64; 64];
    let mut fell = false;
    for _ in 0..ROUNDS {
        for bus in 0..64 {
            let mark = hub.read(&mut watch, bus);
            fell = fell || mark < seen[bus];
            seen[bus] = mark;
        }
        thread::yield_now();
    }
    fell
}

/// Drives the hub, and hands the seats back.
fn drive_seats<L: Charter + Send + Sync, R: Threads + Wait + Sync>(
    rt: &R,
    alloc: Global,
    tables: &Tables,
    hub: &Hub<L>,
    mut seats: Seats<L>,
    script: &Script,
) -> (Seats<L>, Result<(), DriveFault>)
    requires tables { AreTablesOf L.certified tables.now }
    requires of_hub { AreOfHub hub.now seats.wires.items }
    requires clock { IsSome seats.clock }
{
    let answer = drive(rt, alloc, tables, hub, &mut seats, script, &Open);
    (seats, answer)
}

/// A monitor reads while the hub is driven: the seats, what the drive answers, and whether what was read fell.
fn watched<L: Charter + Send + Sync, R: Threads + Wait + Sync>(
    rt: &R,
    alloc: Global,
    tables: &Tables,
    hub: &Hub<L>,
    mut seats: Seats<L>,
    script: &Script,
) -> (Seats<L>, Result<(), DriveFault>, bool)
    requires tables { AreTablesOf L.certified tables.now }
    requires of_hub { AreOfHub hub.now seats.wires.items }
    requires clock { IsSome seats.clock }
    requires watch { IsSeatOf hub.now seats.watch }
{
    let watch = hub.split(&mut seats.watch);
    let (driven, fell) = thread::join(
        rt,
        move || -> (Seats<L>, Result<(), DriveFault>)
            requires tables { AreTablesOf L.certified tables.now }
            requires of_hub { AreOfHub hub.now seats.wires.items }
            requires clock { IsSome seats.clock }
        { drive_seats(rt, alloc, tables, hub, seats, script) },
        move || monitor(hub, watch),
    );
    let (seats, answer) = driven;
    (seats, answer, fell)
}

/// A hub over these tables is driven beside a monitor. What it reads never falls, and the hub closes.
fn watches<L: Charter + Send + Sync, R: Threads + Wait + Abort + Sync>(
    rt: &R,
    alloc: Global,
    blank: Blank,
    tables: &Tables,
    certified: Certified,
) -> Result<(), Fail>
    requires blank { (blank.name ≡ L.name) × (blank.parts ≡ L.parts) }
    requires charter { IsCharterOf L.certified L.limit L.whole L.parts certified 1000000 }
    requires tables { tables_of certified ≡ tables.now }
{
    let script = Script::bench(alloc, tables, TICKS)?;
    let (hub, seats) = opened::<L>(alloc, blank, certified, 1_000_000)?;
    let (seats, answer, fell) = watched(rt, alloc, tables, &hub, seats, &script);
    assert!(rt; answer == Ok(()));
    assert!(rt; !fell);
    judge_closed(rt, alloc, hub.close(seats), &script, None)
}

#[test]
fn a_monitor_reads_beside(rt: HostRuntime) -> Result<(), Fail> {
    let plan = equal_plan(rt.alloc(), 64, false).ok_or("no tables")?;
    plan.certified.tables().valid();
    let Plan { tables, certified } = plan;
    let blank = Blank::new(MOST_ACTORS);
    watches::<Brand, HostRuntime>(&rt, rt.alloc(), blank, &tables, certified)
}
