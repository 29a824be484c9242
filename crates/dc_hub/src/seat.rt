//! The seats of actors, each with what it was answered.

ghost use Rattle.std.specs.Prelude.{◌≡◌, ℕ, ◌+◌, ◌<◌, [], length, slice_index};
ghost use Rattle.atomic_table.specs.Seated.{TableId};
ghost use Rattle.dc_board.specs.declared.view.View.{View};
ghost use Rattle.dc_event.specs.declared.event.Actor.TheVariants.{Wire, Router, Output, Clock};
ghost use Rattle.dc_hub.specs.Views.{SeatView, WireView, unused, HasNoted, IsNotedAt, greatest, parts_for};
ghost use Rattle.dc_board.specs.declared.limits.TheConstants.{MOST_WORDS};

use crate::charter::Charter;
use crate::entry::Receipt;
use dc_board::BoardSeat;
use dc_event::Actor;
use std::alloc::Global;
use std::marker::Model;
use std::sync::ledger::Share;

/// What one actor was answered, with its share of the hub's count, which is the number of its receipts.
#[derive(Drop)]
pub struct Seat<L: Charter> {
    pub(crate) actor: Actor,
    pub(crate) receipts: Vec<Receipt>,
    pub(crate) share: Share<L>,
}

impl<L: Charter> Model for Seat<L> {
    ghost Value = { SeatView };

    ghost view = { λ s. record { actor = s.actor; receipts = s.receipts.items; parts = s.share.parts } };

    ghost invariant = { λ s. (s.share.amount ≡ length s.receipts.items) × (s.share.parts ≡ parts_for L.certified L.whole s.actor) × (0 < s.share.parts) };
}

impl<L: Charter> Seat<L> {
    /// A seat that was answered nothing.
    pub(crate) fn new(alloc: Global, actor: Actor, share: Share<L>) -> Seat<L>
        requires amount { share.amount ≡ 0 }
        requires parts { (share.parts ≡ parts_for L.certified L.whole actor) × (0 < share.parts) }
        ensures { result ≡ unused actor share.parts }
    {
        Seat {
            actor,
            receipts: Vec::new(alloc),
            share,
        }
    }

    /// Whose seat it is.
    pub fn actor(&self) -> Actor
        ensures { result ≡ self.now.actor }
    {
        self.actor
    }

    /// What the actor was answered, in order.
    pub fn receipts(&self) -> &[Receipt]
        ensures { result.now ≡ self.now.receipts }
    {
        self.receipts.as_slice()
    }
}

/// The seat of a bus's wire, with its seat at the board.
#[derive(Drop)]
pub struct WireSeat<L: Charter> {
    pub(crate) bus: usize,
    pub(crate) seat: Seat<L>,
    pub(crate) marks: BoardSeat,
}

impl<L: Charter> Model for WireSeat<L> {
    ghost Value = { WireView };

    ghost view = { λ s. record { seat = s.seat; marks = s.marks } };

    ghost invariant = { λ s. (s.seat.actor ≡ Wire s.bus) × (s.bus < MOST_WORDS) × IsNotedAt s.bus (greatest s.seat.receipts) s.marks.1.noted };
}

impl<L: Charter> WireSeat<L> {
    /// What the wire was answered.
    pub fn seat(&self) -> &Seat<L>
        ensures { result.now ≡ self.now.seat }
    {
        &self.seat
    }
}

/// The seat of a router.
#[derive(Drop)]
pub struct RouterSeat<L: Charter> {
    pub(crate) router: usize,
    pub(crate) seat: Seat<L>,
}

impl<L: Charter> Model for RouterSeat<L> {
    ghost Value = { SeatView };

    ghost view = { λ s. s.seat };

    ghost invariant = { λ s. s.seat.actor ≡ Router s.router };
}

impl<L: Charter> RouterSeat<L> {
    /// What the router was answered.
    pub fn seat(&self) -> &Seat<L>
        ensures { result.now ≡ self.now }
    {
        &self.seat
    }
}

/// The seat of an output.
#[derive(Drop)]
pub struct OutputSeat<L: Charter> {
    pub(crate) output: usize,
    pub(crate) seat: Seat<L>,
}

impl<L: Charter> Model for OutputSeat<L> {
    ghost Value = { SeatView };

    ghost view = { λ s. s.seat };

    ghost invariant = { λ s. s.seat.actor ≡ Output s.output };
}

impl<L: Charter> OutputSeat<L> {
    /// What the output was answered.
    pub fn seat(&self) -> &Seat<L>
        ensures { result.now ≡ self.now }
    {
        &self.seat
    }
}

/// The seat of the clock.
#[derive(Drop)]
pub struct ClockSeat<L: Charter> {
    pub(crate) seat: Seat<L>,
}

impl<L: Charter> Model for ClockSeat<L> {
    ghost Value = { SeatView };

    ghost view = { λ s. s.seat };

    ghost invariant = { λ s. s.seat.actor ≡ Clock };
}

impl<L: Charter> ClockSeat<L> {
    /// What the clock was answered.
    pub fn seat(&self) -> &Seat<L>
        ensures { result.now ≡ self.now }
    {
        &self.seat
    }
}

/// A seat at the board that has noted nothing.
#[derive(Drop)]
pub struct Watch {
    pub(crate) marks: BoardSeat,
}

impl Model for Watch {
    ghost Value = { TableId × View };

    ghost view = { λ w. w.marks };

    ghost invariant = { λ w. (i : ℕ) → slice_index w.marks.1.noted i ≡ 0 };
}
