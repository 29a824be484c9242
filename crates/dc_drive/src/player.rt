//! What each actor does in a tick.

ghost use Rattle.std.specs.Prelude.{◌≡◌, ℕ, IfErr, List, Option, [], slice_index_or};
ghost use Rattle.atomic_table.specs.Seated.{TableId};
ghost use Rattle.dc_board.specs.Marks.{IsSeatOf};
ghost use Rattle.dc_check.specs.declared.certified.Certified.{Certified};
ghost use Rattle.dc_drive.specs.Played.{IsSameSeat};
ghost use Rattle.dc_drive.specs.Refusals.{HaltsAs, IsRefused};
ghost use Rattle.dc_hub.specs.Views.{SeatView};

use crate::fault::DriveFault;
use crate::pace::Meter;
use dc_checkpar::Gate;
use dc_event::Actor;
use dc_hub::{Charter, ClockSeat, Hub, HubFault, OutputSeat, Receipt, RouterSeat, Seat, WireSeat};
use dc_script::{Script, Timed};
use dc_tables::Tables;
use std::sync::Wait;

/// What all threads of a drive are lent: the hub, the tables, the script, the gate and the pace.
#[derive(Drop)]
pub(crate) struct Stage<'s, L: Charter, G> {
    pub hub: &'s Hub<L>,
    pub tables: &'s Tables,
    pub script: &'s Script,
    pub gate: &'s G,
    pub meter: &'s Meter,
}

/// What a call of the hub was answered, without its receipt, which its seat keeps.
fn answered(answer: Result<Receipt, HubFault>) -> Result<(), DriveFault>
    ensures { (certified : Option Certified) (limit : ℕ) → IfErr answer (IsRefused certified limit) → IfErr result (HaltsAs certified limit ⊥) }
{
    match answer {
        Ok(_) => Ok(()),
        Err(fault) => Err(DriveFault::Hub(fault)),
    }
}

/// A seat whose actor makes steps in each tick: a wire's, a router's or an output's.
pub(crate) trait Player<L: Charter>: Sized {
    // the seat
    ghost seat: { Self → SeatView };

    // that it is of this hub
    ghost is_of_hub: { TableId × List ℕ → Self → Type 0 };

    /// The seat, without its kind.
    fn plain(&self) -> &Seat<L>
        ensures { result.now ≡ seat self.now };

    /// How many steps the actor makes in this tick. The seat had so many receipts when the drive began.
    fn steps(&self, tables: &Tables, script: &Script, start: usize, tick: u64) -> usize;

    /// The actor's next step.
    fn step<R: Wait>(
        &mut self,
        rt: &R,
        hub: &Hub<L>,
        script: &Script,
        start: usize,
    ) -> Result<(), DriveFault>
        requires { is_of_hub hub.now self.old }
        ensures same { IsSameSeat (seat self.old) (seat self.new) }
        ensures of_hub { is_of_hub hub.now self.new }
        ensures halts { IfErr result (HaltsAs L.certified L.limit ⊥) };
}

/// Makes the actor's steps of a tick, and enters the gate round each by this number.
pub(crate) fn play<L: Charter, S: Player<L>, R: Wait, G: Gate>(
    rt: &R,
    stage: &Stage<'_, L, G>,
    number: u64,
    start: usize,
    tick: u64,
    seat: &mut S,
) -> Result<(), DriveFault>
    requires { S.is_of_hub stage.now.hub.now seat.old }
    ensures same { IsSameSeat (S.seat seat.old) (S.seat seat.new) }
    ensures of_hub { S.is_of_hub stage.now.hub.now seat.new }
    ensures halts { IfErr result (HaltsAs L.certified L.limit (G.may_stick stage.now.gate.now number)) }
{
    for _ in 0..seat.steps(stage.tables, stage.script, start, tick) {
        if stage.gate.enter(number).is_err() {
            return Err(DriveFault::GateStuck);
        }
        let made = seat.step(rt, stage.hub, stage.script, start);
        stage.gate.leave(number);
        made?;
    }
    Ok(())
}

/// The clock's step.
pub(crate) fn tick<L: Charter, R: Wait, G: Gate>(
    rt: &R,
    hub: &Hub<L>,
    gate: &G,
    number: u64,
    seat: &mut ClockSeat<L>,
) -> Result<(), DriveFault>
    ensures same { IsSameSeat seat.old seat.new }
    ensures halts { IfErr result (HaltsAs L.certified L.limit (G.may_stick gate.now number)) }
{
    if gate.enter(number).is_err() {
        return Err(DriveFault::GateStuck);
    }
    let answer = hub.tick(rt, seat);
    gate.leave(number);
    answered(answer)
}

/// The words of a bus, none where the script has no such bus.
pub(crate) fn words_of(script: &Script, bus: usize) -> &[Timed]
    ensures { result.now ≡ slice_index_or script.now.words bus [] }
{
    if bus < script.bus_count() {
        script.words(bus)
    } else {
        &[]
    }
}

/// How many steps a router makes in a tick, none where there is no such router.
fn steps_of(tables: &Tables, router: usize) -> u32 {
    if router < tables.router_count() {
        tables.router(router).most
    } else {
        0
    }
}

/// Whether an output makes its step in this tick.
fn is_sending(tables: &Tables, output: usize, tick: u64) -> bool {
    tables.valid();
    if output >= tables.output_count() {
        return false;
    }
    tick % u64::from(tables.output(output).gap) == 0
}

/// How many words of this tick come first.
fn words_in(words: &[Timed], tick: u64) -> usize {
    let mut count = 0;
    for k in 0..words.len() {
        if words[k].tick != tick {
            break;
        }
        count = k + 1;
    }
    count
}

impl<L: Charter> Player<L> for WireSeat<L> {
    ghost seat = { λ w. w.seat };

    ghost is_of_hub = { λ hub w. IsSeatOf hub w.marks };

    fn plain(&self) -> &Seat<L> {
        self.seat()
    }

    fn steps(&self, _tables: &Tables, script: &Script, start: usize, tick: u64) -> usize {
        let Actor::Wire(bus) = self.seat().actor() else {
            return 0;
        };
        let words = words_of(script, bus);
        let arrived = self.seat().receipts().len().saturating_sub(start);
        if arrived > words.len() {
            return 0;
        }
        words_in(&words[arrived..], tick)
    }

    fn step<R: Wait>(
        &mut self,
        rt: &R,
        hub: &Hub<L>,
        script: &Script,
        start: usize,
    ) -> Result<(), DriveFault> {
        let Actor::Wire(bus) = self.seat().actor() else {
            return Ok(());
        };
        let words = words_of(script, bus);
        let arrived = self.seat().receipts().len().saturating_sub(start);
        if arrived >= words.len() {
            return Ok(());
        }
        answered(hub.arrive(rt, self, words[arrived].word))
    }
}

impl<L: Charter> Player<L> for RouterSeat<L> {
    ghost seat = { λ s. s };

    ghost is_of_hub = { λ _ _. Unit {0} };

    fn plain(&self) -> &Seat<L> {
        self.seat()
    }

    fn steps(&self, tables: &Tables, _script: &Script, _start: usize, _tick: u64) -> usize {
        match self.seat().actor() {
            Actor::Router(router) => steps_of(tables, router) as usize,
            _ => 0,
        }
    }

    fn step<R: Wait>(
        &mut self,
        rt: &R,
        hub: &Hub<L>,
        _script: &Script,
        _start: usize,
    ) -> Result<(), DriveFault> {
        answered(hub.route(rt, self))
    }
}

impl<L: Charter> Player<L> for OutputSeat<L> {
    ghost seat = { λ s. s };

    ghost is_of_hub = { λ _ _. Unit {0} };

    fn plain(&self) -> &Seat<L> {
        self.seat()
    }

    fn steps(&self, tables: &Tables, _script: &Script, _start: usize, tick: u64) -> usize {
        match self.seat().actor() {
            Actor::Output(output) if is_sending(tables, output, tick) => 1,
            _ => 0,
        }
    }

    fn step<R: Wait>(
        &mut self,
        rt: &R,
        hub: &Hub<L>,
        _script: &Script,
        _start: usize,
    ) -> Result<(), DriveFault> {
        answered(hub.send(rt, self))
    }
}
