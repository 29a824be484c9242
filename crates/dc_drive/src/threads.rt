//! A thread for each seat, and the clock in the calling one.

ghost use Rattle.std.specs.Prelude.{◌≡◌, ◌⊎◌, ◌+◌, ◌≤◌, ◌++◌, All, IfOk, IfErr, map, vec_len, vec_capacity};
ghost use Rattle.dc_drive.specs.Played.{AreOfHub, AreSame, IsSameSeat, itself, out_with, seat_of_wire};
ghost use Rattle.dc_drive.specs.Refusals.{EndsAs, HaltsAs};

use crate::fault::DriveFault;
use crate::player::{Player, Stage, play, tick};
use dc_checkpar::Gate;
use dc_hub::{Charter, ClockSeat, Hub, OutputSeat, RouterSeat, WireSeat};
use std::snapshot::Snapshot;
use std::sync::Wait;
use std::thread;
use std::thread::{Promise, PromisedHandle, Scope, Threads};

/// A seat that comes back from its thread, and how its thread ended.
#[derive(Drop)]
pub(crate) struct Done<S> {
    pub seat: S,
    pub end: Result<(), DriveFault>,
}

/// That the seat which comes back is the one that was handed in, with more receipts behind its own, and still of the
/// hub; and why its thread gave up, where it did.
#[derive(Drop)]
pub(crate) struct Returns<L: Charter, S, G> {
    pub seat: Snapshot<S>,
    pub hub: Snapshot<Hub<L>>,
    pub gate: Snapshot<G>,
}

impl<L: Charter, S: Player<L>, G: Gate> Promise<Done<S>> for Returns<L, S, G> {
    ghost kept_by = { λ p r. IsSameSeat (S.seat p.seat.value) (S.seat r.seat) × S.is_of_hub p.hub.value r.seat
        × EndsAs L.certified L.limit (G.may_stick p.gate.value) r.end };
}

pub(crate) type Child<L, S, G> = PromisedHandle<Done<S>, Returns<L, S, G>>;

/// Plays a seat's actor tick by tick. Where it gives up, all threads stop.
fn run<L: Charter, S: Player<L> + Drop, R: Wait, G: Gate>(
    rt: &R,
    stage: &Stage<'_, L, G>,
    number: u64,
    mut seat: S,
) -> Done<S>
    requires { S.is_of_hub stage.now.hub.now seat }
    ensures same { IsSameSeat (S.seat seat) (S.seat result.seat) }
    ensures of_hub { S.is_of_hub stage.now.hub.now result.seat }
    ensures halts { IfErr result.end (HaltsAs L.certified L.limit (G.may_stick stage.now.gate.now number)) }
{
    let start = seat.plain().receipts().len();
    if stage.meter.stops(rt) {
        return Done { seat, end: Ok(()) };
    }
    for tick in 0..stage.script.ticks() {
        let played = play(rt, stage, number, start, tick, &mut seat);
        if played.is_err() {
            stage.meter.stop(rt);
            return Done { seat, end: played };
        }
        if !stage.meter.end_tick(rt, tick) {
            break;
        }
    }
    Done { seat, end: Ok(()) }
}

/// Where all threads have started, ticks once all actors have made their steps of the tick. Where the clock gives up,
/// all threads stop.
fn run_clock<L: Charter, R: Wait, G: Gate>(
    rt: &R,
    stage: &Stage<'_, L, G>,
    started: Result<(), DriveFault>,
    mut clock: ClockSeat<L>,
) -> Done<ClockSeat<L>>
    requires { EndsAs L.certified L.limit (G.may_stick stage.now.gate.now) started }
    ensures same { IsSameSeat clock result.seat }
    ensures halts { EndsAs L.certified L.limit (G.may_stick stage.now.gate.now) result.end }
{
    if started.is_err() {
        return Done {
            seat: clock,
            end: started,
        };
    }
    for _ in 0..stage.script.ticks() {
        let Some(done) = stage.meter.wait_for_all(rt) else {
            break;
        };
        let ticked = tick(rt, stage.hub, stage.gate, stage.meter.actors(), &mut clock);
        if ticked.is_err() {
            stage.meter.stop(rt);
            return Done {
                seat: clock,
                end: ticked,
            };
        }
        stage.meter.next_tick(rt, done);
    }
    Done {
        seat: clock,
        end: Ok(()),
    }
}

/// Starts a seat's thread. Where none can be made, the drive stops and the seat comes back.
fn start<
    's,
    E,
    L: Charter + Send + Sync + 's,
    S: Player<L> + Drop + Send + 's,
    R: Wait + Sync,
    G: Gate + 's,
>(
    scope: &Scope<'s, E>,
    rt: &'s R,
    stage: &'s Stage<'s, L, G>,
    number: u64,
    seat: S,
) -> Result<Child<L, S, G>, S>
    requires { S.is_of_hub stage.now.hub.now seat }
    ensures ok { IfOk result (λ h. (h.promise.seat.value ≡ seat) × (h.promise.hub.value ≡ stage.now.hub.now) × (h.promise.gate.value ≡ stage.now.gate.now)) }
    ensures err { IfErr result (λ s. IsSameSeat (S.seat seat) (S.seat s) × S.is_of_hub stage.now.hub.now s) }
{
    let promise = Returns {
        seat: Snapshot::of(&seat),
        hub: Snapshot::of(stage.hub),
        gate: Snapshot::of(stage.gate),
    };
    let spawned = scope.spawn_with(
        promise,
        move || -> Done<S>
            requires { S.is_of_hub stage.now.hub.now seat }
            ensures { IsSameSeat (S.seat seat) (S.seat result.seat) × S.is_of_hub stage.entry.now.hub.now result.seat
                × EndsAs L.certified L.limit (G.may_stick stage.entry.now.gate.now) result.end }
        { run(rt, stage, number, seat) },
    );
    match spawned {
        Ok(child) => Ok(child),
        Err(refused) => {
            stage.meter.stop(rt);
            let Done { seat, end: _ } = (refused.value)();
            Err(seat)
        }
    }
}

/// Starts a thread for each seat, the last first, where all went well before. The first has the number `base` at the
/// gate.
fn start_all<
    's,
    E,
    L: Charter + Send + Sync + 's,
    S: Player<L> + Drop + Send + 's,
    R: Wait + Sync,
    G: Gate + 's,
>(
    scope: &Scope<'s, E>,
    rt: &'s R,
    stage: &'s Stage<'s, L, G>,
    started: Result<(), DriveFault>,
    base: usize,
    seats: &mut Vec<S>,
    children: &mut Vec<Child<L, S, G>>,
) -> Result<(), DriveFault>
    requires of_hub { All (S.is_of_hub stage.now.hub.now) seats.old.items }
    requires room { (vec_len children.old ≡ 0) × (vec_len seats.old ≤ vec_capacity children.old) }
    ensures same { AreSame S.seat seats.old.items (seats.new.items ++ out_with (λ h. h.promise.seat.value) children.new.items) }
    ensures of_hub { All (S.is_of_hub stage.now.hub.now) seats.new.items }
    ensures hubs { All (λ h. (h.promise.hub.value ≡ stage.now.hub.now) × (h.promise.gate.value ≡ stage.now.gate.now)) children.new.items }
    ensures halts { EndsAs L.certified L.limit (G.may_stick stage.now.gate.now) started → EndsAs L.certified L.limit (G.may_stick stage.now.gate.now) result }
    ensures room { (vec_capacity seats.new ≡ vec_capacity seats.old) × (vec_len seats.new + vec_len children.new ≡ vec_len seats.old) }
{
    started?;
    while let Some(seat) = seats.pop() {
        let number = base.saturating_add(seats.len()) as u64;
        match start(scope, rt, stage, number, seat) {
            Ok(child) => children.push_reserved(child),
            Err(seat) => {
                seats.push_reserved(seat);
                return Err(DriveFault::Spawn);
            }
        }
    }
    Ok(())
}

/// Joins the threads. Their seats go behind the others.
fn join_all<L: Charter, S: Player<L> + Drop, R: Threads, G: Gate>(
    rt: &R,
    hub: &Hub<L>,
    gate: &G,
    children: &mut Vec<Child<L, S, G>>,
    seats: &mut Vec<S>,
) -> Result<(), DriveFault>
    requires of_hub { All (S.is_of_hub hub.now) seats.old.items }
    requires hubs { All (λ h. (h.promise.hub.value ≡ hub.now) × (h.promise.gate.value ≡ gate.now)) children.old.items }
    requires room { vec_len seats.old + vec_len children.old ≤ vec_capacity seats.old }
    ensures same { AreSame S.seat (seats.old.items ++ out_with (λ h. h.promise.seat.value) children.old.items) seats.new.items }
    ensures of_hub { All (S.is_of_hub hub.now) seats.new.items }
    ensures halts { EndsAs L.certified L.limit (G.may_stick gate.now) result }
{
    let _hub = hub;
    let _gate = gate;
    let mut end = Ok(());
    while let Some(child) = children.pop() {
        let Done { seat, end: theirs } = child.join(rt);
        seats.push_reserved(seat);
        end = first(end, theirs);
    }
    end
}

/// The first of two ends that is a fault.
pub(crate) fn first(
    one: Result<(), DriveFault>,
    other: Result<(), DriveFault>,
) -> Result<(), DriveFault>
    ensures { (result ≡ one) ⊎ (result ≡ other) }
{
    if one.is_err() { one } else { other }
}

/// The seats of a drive, and how it ended.
#[derive(Drop)]
pub(crate) struct Cast<L: Charter> {
    pub wires: Vec<WireSeat<L>>,
    pub routers: Vec<RouterSeat<L>>,
    pub outputs: Vec<OutputSeat<L>>,
    pub clock: ClockSeat<L>,
    pub end: Result<(), DriveFault>,
}

/// Room for the handles of all threads.
#[derive(Drop)]
pub(crate) struct Rooms<L: Charter, G: Gate> {
    pub wires: Vec<Child<L, WireSeat<L>, G>>,
    pub routers: Vec<Child<L, RouterSeat<L>, G>>,
    pub outputs: Vec<Child<L, OutputSeat<L>, G>>,
}

/// Starts all threads, ticks, and joins them.
fn run_all<'s, E, L: Charter + Send + Sync + 's, R: Threads + Wait + Sync, G: Gate + 's>(
    scope: &Scope<'s, E>,
    rt: &'s R,
    stage: &'s Stage<'s, L, G>,
    cast: Cast<L>,
    rooms: Rooms<L, G>,
) -> Cast<L>
    requires of_hub { AreOfHub stage.now.hub.now cast.wires.items }
    requires room_wires { (vec_len rooms.wires ≡ 0) × (vec_len cast.wires ≤ vec_capacity rooms.wires) }
    requires room_routers { (vec_len rooms.routers ≡ 0) × (vec_len cast.routers ≤ vec_capacity rooms.routers) }
    requires room_outputs { (vec_len rooms.outputs ≡ 0) × (vec_len cast.outputs ≤ vec_capacity rooms.outputs) }
    requires actors { stage.now.meter.now.actors ≡ vec_len cast.wires + vec_len cast.routers + vec_len cast.outputs }
    ensures wires { AreSame seat_of_wire cast.wires.items result.wires.items }
    ensures routers { AreSame itself cast.routers.items result.routers.items }
    ensures outputs { AreSame itself cast.outputs.items result.outputs.items }
    ensures clock { IsSameSeat cast.clock result.clock }
    ensures of_hub { AreOfHub stage.now.hub.now result.wires.items }
    ensures halts { EndsAs L.certified L.limit (G.may_stick stage.now.gate.now) result.end }
{
    let Cast {
        mut wires,
        mut routers,
        mut outputs,
        clock,
        end: _,
    } = cast;
    let Rooms {
        wires: mut of_wires,
        routers: mut of_routers,
        outputs: mut of_outputs,
    } = rooms;
    let buses = wires.len();
    let visitors = buses.saturating_add(routers.len());
    let started = start_all(scope, rt, stage, Ok(()), 0, &mut wires, &mut of_wires);
    let started = start_all(
        scope,
        rt,
        stage,
        started,
        buses,
        &mut routers,
        &mut of_routers,
    );
    let started = start_all(
        scope,
        rt,
        stage,
        started,
        visitors,
        &mut outputs,
        &mut of_outputs,
    );
    let Done { seat: clock, end } = run_clock(rt, stage, started, clock);
    let end = first(
        join_all(rt, stage.hub, stage.gate, &mut of_wires, &mut wires),
        end,
    );
    let end = first(
        join_all(rt, stage.hub, stage.gate, &mut of_routers, &mut routers),
        end,
    );
    let end = first(
        join_all(rt, stage.hub, stage.gate, &mut of_outputs, &mut outputs),
        end,
    );
    Cast {
        wires,
        routers,
        outputs,
        clock,
        end,
    }
}

/// Plays the script in a scope of threads.
pub(crate) fn in_threads<L: Charter + Send + Sync, R: Threads + Wait + Sync, G: Gate>(
    rt: &R,
    stage: &Stage<'_, L, G>,
    cast: Cast<L>,
    rooms: Rooms<L, G>,
) -> Cast<L>
    requires of_hub { AreOfHub stage.now.hub.now cast.wires.items }
    requires room_wires { (vec_len rooms.wires ≡ 0) × (vec_len cast.wires ≤ vec_capacity rooms.wires) }
    requires room_routers { (vec_len rooms.routers ≡ 0) × (vec_len cast.routers ≤ vec_capacity rooms.routers) }
    requires room_outputs { (vec_len rooms.outputs ≡ 0) × (vec_len cast.outputs ≤ vec_capacity rooms.outputs) }
    requires actors { stage.now.meter.now.actors ≡ vec_len cast.wires + vec_len cast.routers + vec_len cast.outputs }
    ensures wires { AreSame seat_of_wire cast.wires.items result.wires.items }
    ensures routers { AreSame itself cast.routers.items result.routers.items }
    ensures outputs { AreSame itself cast.outputs.items result.outputs.items }
    ensures clock { IsSameSeat cast.clock result.clock }
    ensures of_hub { AreOfHub stage.now.hub.now result.wires.items }
    ensures halts { EndsAs L.certified L.limit (G.may_stick stage.now.gate.now) result.end }
{
    thread::scope(
        thread::scope_env(),
        rt,
        |scope| -> Cast<L>
            requires of_hub { AreOfHub stage.now.hub.now cast.wires.items }
            requires room_wires { (vec_len rooms.wires ≡ 0) × (vec_len cast.wires ≤ vec_capacity rooms.wires) }
            requires room_routers { (vec_len rooms.routers ≡ 0) × (vec_len cast.routers ≤ vec_capacity rooms.routers) }
            requires room_outputs { (vec_len rooms.outputs ≡ 0) × (vec_len cast.outputs ≤ vec_capacity rooms.outputs) }
            requires actors { stage.now.meter.now.actors ≡ vec_len cast.wires + vec_len cast.routers + vec_len cast.outputs }
            ensures wires { AreSame seat_of_wire cast.wires.items result.wires.items }
            ensures routers { AreSame itself cast.routers.items result.routers.items }
            ensures outputs { AreSame itself cast.outputs.items result.outputs.items }
            ensures clock { IsSameSeat cast.clock result.clock }
            ensures of_hub { AreOfHub stage.entry.now.hub.now result.wires.items }
            ensures halts { EndsAs L.certified L.limit (G.may_stick stage.entry.now.gate.now) result.end }
        { run_all(scope, rt, stage, cast, rooms) },
    )
}
