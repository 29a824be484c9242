//! A hub that is driven, and another one where memory or a thread was refused to the first. What each says is a line of
//! the output.

ghost use Rattle.std.specs.Prelude.{◌≡◌, IsSome};
ghost use Rattle.dc_check.specs.Lent.{tables_of};
ghost use Rattle.dc_drive.specs.Played.{AreOfHub};
ghost use Rattle.dc_hub.specs.Opening.{IsCharterOf};
ghost use Rattle.dc_hub.specs.Views.{AreTablesOf};

use crate::fixture::{Plan, equal_plan};
use dc_check::Certified;
use dc_checkpar::Open;
use dc_drive::{DriveFault, drive};
use dc_hub::{Charter, Hub, HubFault, MOST_ACTORS, OpenFault, Seats};
use dc_script::Script;
use dc_tables::Tables;
use std::alloc::Global;
use std::io;
use std::marker::Brand;
use std::sync::Wait;
use std::sync::ledger::Blank;
use std::thread::Threads;

/// How many ticks the script has.
const TICKS: u64 = 30;

/// What a drive answers.
fn name_of(answer: Result<(), DriveFault>) -> &'static str {
    match answer {
        Ok(()) => "ok",
        Err(DriveFault::Memory) => "memory",
        Err(DriveFault::Spawn) => "spawn",
        Err(DriveFault::GateStuck) => "stuck",
        Err(DriveFault::Hub(HubFault::Memory)) => "memory of the hub",
        Err(DriveFault::Hub(HubFault::Astray)) => "astray",
        Err(DriveFault::Hub(_)) => "refused",
    }
}

/// Drives a hub and closes it: whether the drive was answered Ok.
fn drive_once<L: Charter + Send + Sync, R: Threads + Wait + Sync + Print>(
    rt: &R,
    alloc: Global,
    tables: &Tables,
    hub: Hub<L>,
    mut seats: Seats<L>,
    script: &Script,
) -> io::Result<bool>
    requires tables { AreTablesOf L.certified tables.now }
    requires of_hub { AreOfHub hub seats.wires.items }
    requires clock { IsSome seats.clock }
{
    let answer = drive(rt, alloc, tables, &hub, &mut seats, script, &Open);
    let closed = hub.close(seats).is_ok();
    println!(rt; "drive: {}", name_of(answer))?;
    println!(rt; "close: {}", if closed { "ok" } else { "refused" })?;
    Ok(answer.is_ok())
}

/// Opens a hub and drives it: whether all was answered Ok.
fn open_once<L: Charter + Send + Sync, R: Threads + Wait + Sync + Print>(
    rt: &R,
    alloc: Global,
    blank: Blank,
    tables: &Tables,
    certified: Certified,
    script: &Script,
) -> io::Result<bool>
    requires blank { (blank.name ≡ L.name) × (blank.parts ≡ L.parts) }
    requires charter { IsCharterOf L.certified L.limit L.whole L.parts certified 1000 }
    requires tables { tables_of certified ≡ tables.now }
{
    match Hub::<L>::open(alloc, blank, certified, 1000) {
        Ok((hub, seats)) => drive_once(rt, alloc, tables, hub, seats, script),
        Err(OpenFault::Memory) => {
            println!(rt; "open: memory")?;
            Ok(false)
        }
    }
}

/// Writes a script for the small tables, opens a hub over them and drives it: whether all was answered Ok.
fn run_once<R: Threads + Wait + Sync + Print>(rt: &R, alloc: Global) -> io::Result<bool> {
    let Some(plan) = equal_plan(alloc, 1, false) else {
        println!(rt; "tables: memory")?;
        return Ok(false);
    };
    let Ok(script) = Script::bench(alloc, &plan.tables, TICKS) else {
        println!(rt; "script: memory")?;
        return Ok(false);
    };
    plan.certified.tables().valid();
    let Plan { tables, certified } = plan;
    let blank = Blank::new(MOST_ACTORS);
    open_once::<Brand, R>(rt, alloc, blank, &tables, certified, &script)
}

/// Drives a hub, and another one where something was refused to the first.
pub fn run_again<R: Threads + Wait + Sync + Print>(rt: &R, alloc: Global) -> io::Result<()> {
    if !run_once(rt, alloc)? {
        run_once(rt, alloc)?;
    }
    Ok(())
}
