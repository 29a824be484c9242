//! The seats of a hub that opens.

ghost use Rattle.std.specs.Prelude.{◌≡◌, ◌+◌, ◌<◌, ◌≤◌, IfOk, OnOk};
ghost use Rattle.dc_board.specs.Marks.{IsSeatOf, fresh};
ghost use Rattle.dc_event.specs.declared.event.Actor.TheVariants.{Wire, Router, Output};
ghost use Rattle.dc_hub.specs.Views.{board_caps, AreNewWires, AreNewSeats, stepped};
ghost use Rattle.dc_board.specs.declared.limits.TheConstants.{MOST_WORDS};

use crate::charter::Charter;
use crate::limits::GREATEST_BACKLOG;
use crate::seat::{OutputSeat, RouterSeat, Seat, WireSeat};
use dc_board::{Board, BoardSeat, MOST_WORDS};
use dc_event::Actor;
use std::alloc::{AllocError, Global};
use std::sync::ledger::Share;

/// The board of a hub: [`MOST_WORDS`] words, each at most [`GREATEST_BACKLOG`].
pub fn board_of_marks(alloc: Global) -> Result<(Board, BoardSeat), AllocError>
    ensures { IfOk result (λ r. (r.0.1 ≡ board_caps) × IsSeatOf r.0 r.1 × (r.1.1 ≡ fresh board_caps)) }
{
    let caps = [GREATEST_BACKLOG; MOST_WORDS];
    Board::new(alloc, caps.to_vec(alloc)?)
}

/// A seat for each wire, each with one part of the count.
pub fn wire_seats<L: Charter>(
    alloc: Global,
    board: &Board,
    watch: &mut BoardSeat,
    rest: &mut Share<L>,
    count: usize,
) -> Result<Vec<WireSeat<L>>, AllocError>
    requires watch { IsSeatOf board.now watch.old }
    requires few { count ≤ MOST_WORDS }
    requires parts { count < rest.old.parts }
    requires amount { rest.old.amount ≡ 0 }
    ensures wires { IfOk result (λ v. AreNewWires board.now v.items count) }
    ensures watch { OnOk result (IsSeatOf board.now watch.new × (watch.new.1 ≡ stepped count watch.old.1)) }
    ensures rest { OnOk result ((rest.new.parts + count ≡ rest.old.parts) × (rest.new.amount ≡ 0)) }
{
    let mut wires = Vec::new(alloc);
    for bus in 0..count {
        let marks = board.split(watch);
        let seat = Seat::new(alloc, Actor::Wire(bus), rest.split_off(1, 0));
        wires.push(WireSeat { bus, seat, marks })?;
    }
    Ok(wires)
}

/// A seat for each router, each with one part of the count.
pub fn router_seats<L: Charter>(
    alloc: Global,
    rest: &mut Share<L>,
    count: usize,
) -> Result<Vec<RouterSeat<L>>, AllocError>
    requires parts { count < rest.old.parts }
    requires amount { rest.old.amount ≡ 0 }
    ensures seats { IfOk result (λ v. AreNewSeats Router v.items count) }
    ensures rest { OnOk result ((rest.new.parts + count ≡ rest.old.parts) × (rest.new.amount ≡ 0)) }
{
    let mut seats = Vec::new(alloc);
    for router in 0..count {
        let seat = Seat::new(alloc, Actor::Router(router), rest.split_off(1, 0));
        seats.push(RouterSeat { router, seat })?;
    }
    Ok(seats)
}

/// A seat for each output, each with one part of the count.
pub fn output_seats<L: Charter>(
    alloc: Global,
    rest: &mut Share<L>,
    count: usize,
) -> Result<Vec<OutputSeat<L>>, AllocError>
    requires parts { count < rest.old.parts }
    requires amount { rest.old.amount ≡ 0 }
    ensures seats { IfOk result (λ v. AreNewSeats Output v.items count) }
    ensures rest { OnOk result ((rest.new.parts + count ≡ rest.old.parts) × (rest.new.amount ≡ 0)) }
{
    let mut seats = Vec::new(alloc);
    for output in 0..count {
        let seat = Seat::new(alloc, Actor::Output(output), rest.split_off(1, 0));
        seats.push(OutputSeat { output, seat })?;
    }
    Ok(seats)
}
