//! A hub that is driven by a script.

ghost use Rattle.std.specs.Prelude.{◌≡◌, ◌≢◌, ◌≤◌, true, false, Err, IfErr, IfOk, IsSome, OnOk, vec_len, vec_capacity};
ghost use Rattle.dc_event.specs.Steady.{steady as steady_of};
ghost use Rattle.dc_drive.specs.Played.{AreOfHub, AreSame, HavePlayed, HaveRoles, IsSameClock, PlayedBetween, PlayedSince};
ghost use Rattle.dc_drive.specs.Played.{count_of, counts, itself, seat_of_wire};
ghost use Rattle.dc_drive.specs.Refusals.{EndsAs, HaltsAs, MayStickAt};
ghost use Rattle.dc_drive.specs.declared.fault.DriveFault.TheVariants.{Hub as Refused};
ghost use Rattle.dc_hub.specs.Closing.{seats_in};
ghost use Rattle.dc_hub.specs.Views.{AreTablesOf, receipts_in};
ghost use Rattle.dc_hub.specs.declared.fault.HubFault.TheVariants.{Astray};

use crate::compare::has_played;
use crate::fault::DriveFault;
use crate::pace::Meter;
use crate::player::{Player, Stage};
use crate::threads::{Cast, Child, Rooms, in_threads};
use dc_checkpar::Gate;
use dc_event::Event;
use dc_hub::{Charter, ClockSeat, Hub, HubFault, OutputSeat, RouterSeat, Seats, WireSeat};
use dc_oracle::steady;
use dc_script::Script;
use dc_tables::Tables;
use std::alloc::{AllocError, Global};
use std::mem;
use std::sync::Wait;
use std::thread::Threads;

/// How many receipts each seat has.
#[derive(Drop)]
struct Counts {
    wires: Vec<usize>,
    routers: Vec<usize>,
    outputs: Vec<usize>,
    clock: usize,
}

/// How many receipts each of the seats has.
fn counts_of<L: Charter, S: Player<L>>(
    alloc: Global,
    seats: &Vec<S>,
) -> Result<Vec<usize>, AllocError>
    ensures { IfOk result (λ v. v.items ≡ counts S.seat seats.now.items) }
{
    let mut counts = Vec::new(alloc);
    for k in 0..seats.len() {
        counts.push(seats[k].plain().receipts().len())?;
    }
    Ok(counts)
}

/// Room for as many handles as there are seats.
fn rooms_for<L: Charter, G: Gate>(
    alloc: Global,
    seats: &Seats<L>,
) -> Result<Rooms<L, G>, AllocError>
    ensures wires { IfOk result (λ r. (vec_len r.wires ≡ 0) × (vec_len seats.now.wires ≤ vec_capacity r.wires)) }
    ensures routers { IfOk result (λ r. (vec_len r.routers ≡ 0) × (vec_len seats.now.routers ≤ vec_capacity r.routers)) }
    ensures outputs { IfOk result (λ r. (vec_len r.outputs ≡ 0) × (vec_len seats.now.outputs ≤ vec_capacity r.outputs)) }
{
    Ok(Rooms {
        wires: Vec::with_capacity(alloc, seats.wires.len())?,
        routers: Vec::with_capacity(alloc, seats.routers.len())?,
        outputs: Vec::with_capacity(alloc, seats.outputs.len())?,
    })
}

/// How many receipts the clock has.
fn clock_count<L: Charter>(clock: &Option<ClockSeat<L>>) -> usize
    ensures { result ≡ count_of clock.now }
{
    match clock {
        Some(clock) => clock.seat().receipts().len(),
        None => 0,
    }
}

/// How many receipts all seats have.
fn before<L: Charter>(alloc: Global, seats: &Seats<L>) -> Result<Counts, AllocError>
    ensures wires { IfOk result (λ b. b.wires.items ≡ counts seat_of_wire seats.now.wires.items) }
    ensures routers { IfOk result (λ b. b.routers.items ≡ counts itself seats.now.routers.items) }
    ensures outputs { IfOk result (λ b. b.outputs.items ≡ counts itself seats.now.outputs.items) }
    ensures clock { IfOk result (λ b. b.clock ≡ count_of seats.now.clock) }
{
    Ok(Counts {
        wires: counts_of(alloc, &seats.wires)?,
        routers: counts_of(alloc, &seats.routers)?,
        outputs: counts_of(alloc, &seats.outputs)?,
        clock: clock_count(&seats.clock),
    })
}

/// Whether each of the seats was answered its actor's role since it had so many receipts.
fn have_played<L: Charter, S: Player<L>>(
    tables: &Tables,
    script: &Script,
    run: &[Event],
    before: &Vec<usize>,
    seats: &Vec<S>,
) -> bool
    requires run { run.now ≡ steady_of tables.now script.now.ticks }
    requires each { vec_len before.now ≡ vec_len seats.now }
    ensures yes { result ≡ true → HavePlayed S.seat tables.now script.now before.now.items seats.now.items }
    ensures no { result ≡ false → ¬ HavePlayed S.seat tables.now script.now before.now.items seats.now.items }
{
    for k in 0..seats.len() {
        if !has_played(tables, script, run, before[k], seats[k].plain()) {
            return false;
        }
    }
    true
}

/// Runs the script with the seats, which get receipts behind those that they had. Where it answers Ok, the events of
/// each seat's new receipts are its actor's own steps of the steady run over the script's ticks, and a wire's are its
/// script's words. The tables are those of the hub's charter.
///
/// # Errors
/// `HubFault::Astray` only where some seat's new receipts are not its own steps; another fault of the hub only where a
/// call was refused with it; `GateStuck` only where the gate may be stuck. Of `Spawn` and `Memory` no clause says when:
/// that each is told as itself is tested.
#[tactic(auto, using(crate::proofs::Same::all_self))]
pub fn drive<L: Charter + Send + Sync, R: Threads + Wait + Sync, G: Gate>(
    rt: &R,
    alloc: Global,
    tables: &Tables,
    hub: &Hub<L>,
    seats: &mut Seats<L>,
    script: &Script,
    gate: &G,
) -> Result<(), DriveFault>
    requires tables { AreTablesOf L.certified tables.now }
    requires of_hub { AreOfHub hub.now seats.old.wires.items }
    requires clock { IsSome seats.old.clock }
    ensures wires { AreSame seat_of_wire seats.old.wires.items seats.new.wires.items }
    ensures routers { AreSame itself seats.old.routers.items seats.new.routers.items }
    ensures outputs { AreSame itself seats.old.outputs.items seats.new.outputs.items }
    ensures clock { IsSameClock seats.old.clock seats.new.clock }
    ensures of_hub { AreOfHub hub.now seats.new.wires.items }
    ensures watch { seats.new.watch ≡ seats.old.watch }
    ensures played { OnOk result (PlayedBetween tables.now script.now seats.old seats.new) }
    ensures astray { result ≡ Err (Refused Astray) → ¬ PlayedBetween tables.now script.now seats.old seats.new }
    ensures fresh { receipts_in (seats_in seats.old) ≡ 0 → OnOk result (HaveRoles tables.now script.now (seats_in seats.new)) }
    ensures halts { IfErr result (λ fault. fault ≢ Refused Astray → HaltsAs L.certified L.limit (MayStickAt (G.may_stick gate.now)) fault) }
{
    let Ok(before) = before(alloc, seats) else {
        return Err(DriveFault::Memory);
    };
    if let Err(fault) = play(rt, alloc, tables, hub, seats, script, gate) {
        return Err(fault);
    }
    let Ok(run) = steady(alloc, tables, script.ticks()) else {
        return Err(DriveFault::Memory);
    };
    if all_have_played(tables, script, &run, &before, seats) {
        Ok(())
    } else {
        Err(DriveFault::Hub(HubFault::Astray))
    }
}

/// Plays the script in threads. The seats are put back.
#[tactic(auto, using(crate::proofs::Same::all_self))]
fn play<L: Charter + Send + Sync, R: Threads + Wait + Sync, G: Gate>(
    rt: &R,
    alloc: Global,
    tables: &Tables,
    hub: &Hub<L>,
    seats: &mut Seats<L>,
    script: &Script,
    gate: &G,
) -> Result<(), DriveFault>
    requires of_hub { AreOfHub hub.now seats.old.wires.items }
    requires clock { IsSome seats.old.clock }
    ensures wires { AreSame seat_of_wire seats.old.wires.items seats.new.wires.items }
    ensures routers { AreSame itself seats.old.routers.items seats.new.routers.items }
    ensures outputs { AreSame itself seats.old.outputs.items seats.new.outputs.items }
    ensures clock { IsSameClock seats.old.clock seats.new.clock }
    ensures of_hub { AreOfHub hub.now seats.new.wires.items }
    ensures watch { seats.new.watch ≡ seats.old.watch }
    ensures halts { EndsAs L.certified L.limit (G.may_stick gate.now) result }
{
    let Ok(rooms) = rooms_for(alloc, seats) else {
        return Err(DriveFault::Memory);
    };
    let Some(clock) = seats.clock.take() else {
        unreachable!()
    };
    let cast = Cast {
        wires: mem::replace(&mut seats.wires, Vec::new(alloc)),
        routers: mem::replace(&mut seats.routers, Vec::new(alloc)),
        outputs: mem::replace(&mut seats.outputs, Vec::new(alloc)),
        clock,
        end: Ok(()),
    };
    let actors = cast.wires.len() + cast.routers.len() + cast.outputs.len();
    let meter = Meter::new(actors as u64);
    let stage = Stage {
        hub,
        tables,
        script,
        gate,
        meter: &meter,
    };
    let Cast {
        wires,
        routers,
        outputs,
        clock,
        end,
    } = in_threads(rt, &stage, cast, rooms);
    seats.wires = wires;
    seats.routers = routers;
    seats.outputs = outputs;
    seats.clock = Some(clock);
    end
}

/// Whether all seats were answered their actors' roles.
fn all_have_played<L: Charter>(
    tables: &Tables,
    script: &Script,
    run: &[Event],
    before: &Counts,
    seats: &Seats<L>,
) -> bool
    requires run { run.now ≡ steady_of tables.now script.now.ticks }
    requires wires { vec_len before.now.wires ≡ vec_len seats.now.wires }
    requires routers { vec_len before.now.routers ≡ vec_len seats.now.routers }
    requires outputs { vec_len before.now.outputs ≡ vec_len seats.now.outputs }
    ensures yes { result ≡ true → PlayedSince tables.now script.now before.now seats.now }
    ensures no { result ≡ false → ¬ PlayedSince tables.now script.now before.now seats.now }
{
    if !have_played(tables, script, run, &before.wires, &seats.wires) {
        return false;
    }
    if !have_played(tables, script, run, &before.routers, &seats.routers) {
        return false;
    }
    if !have_played(tables, script, run, &before.outputs, &seats.outputs) {
        return false;
    }
    match &seats.clock {
        Some(clock) => has_played(tables, script, run, before.clock, clock.seat()),
        None => false,
    }
}
