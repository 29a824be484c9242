//! Whether seats are one for each actor, and whether their receipts are the book's entries.

ghost use Rattle.std.specs.Prelude.{◌≡◌, ◌+◌, ◌<◌, ◌≤◌, true, false, None, Some, MatchOption, IfOk, IfErr, length, slice_get};
ghost use Rattle.std.specs.List.{sum_by};
ghost use Rattle.dc_check.specs.Lent.{tables_of};
ghost use Rattle.dc_hub.specs.Closing.{is_by, receipts_of, DifferAt, clock_seats, seats_in, actor_at, actor_count};
ghost use Rattle.dc_hub.specs.Closing.{AreOneEach, AllAgree, ClosesOver, FirstDiffers, IsCloseFault};
ghost use Rattle.dc_hub.specs.Views.{WireView, parts_for, parts_needed, receipts_in};
ghost use Rattle.dc_hub.specs.declared.limits.TheConstants.{MOST_ACTORS};

use crate::book::Book;
use crate::charter::Charter;
use crate::closed::Closed;
use crate::entry::{Entry, Receipt};
use crate::fault::CloseFault;
use crate::seat::{ClockSeat, OutputSeat, RouterSeat, Seat, WireSeat};
use crate::seats::Seats;
use dc_check::Certified;
use dc_event::{Actor, Event};
use dc_tables::Tables;
use std::sync::ledger::Share;

/// Whether the actor makes the step.
pub fn makes(actor: &Actor, event: &Event) -> bool
    ensures { result ≡ is_by actor.now event.now }
{
    match *actor {
        Actor::Wire(bus) => matches!(*event, Event::Arrive(_, on) if on == bus),
        Actor::Router(router) => matches!(*event, Event::Route(by) if by == router),
        Actor::Output(output) => matches!(*event, Event::Send(by) if by == output),
        Actor::Clock => matches!(*event, Event::Tick),
    }
}

/// The index of the first receipt that is not the actor's entry, or of the entry where the receipts have ended.
pub fn first_unlike(receipts: &[Receipt], actor: &Actor, entries: &[Entry]) -> Option<u64>
    ensures { MatchOption result (receipts.now ≡ receipts_of actor.now entries.now) (λ index. DifferAt receipts.now (receipts_of actor.now entries.now) index) }
{
    let mut next = 0;
    for i in 0..entries.len() {
        if !makes(actor, &entries[i].event) {
            continue;
        }
        let index = i as u64 + 1;
        if next == receipts.len() {
            return Some(index);
        }
        if !receipts[next].is_of(index, &entries[i]) {
            return Some(receipts[next].index);
        }
        next += 1;
    }
    if next < receipts.len() {
        return Some(receipts[next].index);
    }
    None
}

/// The actor whose seat stands at this place.
fn expected_actor(tables: &Tables, place: usize) -> Actor
    ensures { result ≡ actor_at tables.now place }
{
    let (buses, routers, outputs) = (
        tables.bus_count(),
        tables.router_count(),
        tables.output_count(),
    );
    if place < buses {
        return Actor::Wire(place);
    }
    let place = place - buses;
    if place < routers {
        return Actor::Router(place);
    }
    let place = place - routers;
    if place < outputs {
        return Actor::Output(place);
    }
    Actor::Clock
}

/// How many actors there are.
fn actors(tables: &Tables) -> usize
    ensures count { result ≡ actor_count tables.now }
    ensures few { result ≤ MOST_ACTORS }
{
    tables.valid();
    tables.bus_count() + tables.router_count() + tables.output_count() + 1
}

impl<L: Charter> Seats<L> {
    /// The seat at this place: wires, routers, outputs, clock.
    fn at(&self, place: usize) -> Option<&Seat<L>>
        ensures { MatchOption result (slice_get (seats_in self.now) place ≡ None) (λ s. slice_get (seats_in self.now) place ≡ Some s.now) }
    {
        if place < self.wires.len() {
            return Some(&self.wires[place].seat);
        }
        let place = place - self.wires.len();
        if place < self.routers.len() {
            return Some(&self.routers[place].seat);
        }
        let place = place - self.routers.len();
        if place < self.outputs.len() {
            return Some(&self.outputs[place].seat);
        }
        if place > self.outputs.len() {
            return None;
        }
        match &self.clock {
            Some(clock) => Some(&clock.seat),
            None => None,
        }
    }
}

/// Whether the seats are one for each actor, in order.
fn are_one_each<L: Charter>(seats: &Seats<L>, tables: &Tables) -> bool
    ensures yes { result ≡ true → AreOneEach tables.now (seats_in seats.now) }
    ensures no { result ≡ false → ¬ AreOneEach tables.now (seats_in seats.now) }
{
    let count = actors(tables);
    for place in 0..count {
        let Some(seat) = seats.at(place) else {
            return false;
        };
        if seat.actor != expected_actor(tables, place) {
            return false;
        }
    }
    seats.at(count).is_none()
}

/// The index at which the first seat differs whose receipts are not its actor's entries.
fn first_mismatch<L: Charter>(seats: &Seats<L>, count: usize, entries: &[Entry]) -> Option<u64>
    requires { length (seats_in seats.now) ≡ count }
    ensures { MatchOption result (AllAgree entries.now (seats_in seats.now)) (λ index. FirstDiffers entries.now (seats_in seats.now) index) }
{
    for place in 0..count {
        let Some(seat) = seats.at(place) else {
            continue;
        };
        if let Some(index) = first_unlike(&seat.receipts, &seat.actor, entries) {
            return Some(index);
        }
    }
    None
}

/// Why a book does not close over the seats, if it does not.
fn close_fault<L: Charter>(
    certified: &Certified,
    entries: &[Entry],
    seats: &Seats<L>,
) -> Option<CloseFault>
    ensures { MatchOption result (ClosesOver certified.now entries.now (seats_in seats.now))
        (IsCloseFault (tables_of certified.now) entries.now (seats_in seats.now)) }
{
    let tables = certified.tables();
    if !are_one_each(seats, tables) {
        return Some(CloseFault::SeatMissing);
    }
    match first_mismatch(seats, actors(tables), entries) {
        Some(index) => Some(CloseFault::Mismatch(index)),
        None => None,
    }
}

/// Merges a seat's share of the count.
fn merge_seat<L: Charter>(all: &mut Share<L>, seat: Seat<L>)
    ensures parts { all.new.parts ≡ all.old.parts + parts_for L.certified L.whole seat.actor }
    ensures amount { all.new.amount ≡ all.old.amount + length seat.receipts }
{
    let Seat {
        actor: _,
        receipts: _,
        share,
    } = seat;
    all.merge(share);
}

/// Merges the shares of wires.
fn merge_wires<L: Charter>(all: &mut Share<L>, mut wires: Vec<WireSeat<L>>)
    ensures parts { all.new.parts ≡ all.old.parts + sum_by (λ (w : WireView). parts_for L.certified L.whole w.seat.actor) wires.items }
    ensures amount { all.new.amount ≡ all.old.amount + sum_by (λ (w : WireView). length w.seat.receipts) wires.items }
{
    while let Some(wire) = wires.pop() {
        let WireSeat {
            bus: _,
            seat,
            marks: _,
        } = wire;
        merge_seat(all, seat);
    }
}

/// Merges the shares of routers.
fn merge_routers<L: Charter>(all: &mut Share<L>, mut routers: Vec<RouterSeat<L>>)
    ensures parts { all.new.parts ≡ all.old.parts + parts_needed L.certified L.whole routers.items }
    ensures amount { all.new.amount ≡ all.old.amount + receipts_in routers.items }
{
    while let Some(router) = routers.pop() {
        let RouterSeat { router: _, seat } = router;
        merge_seat(all, seat);
    }
}

/// Merges the shares of outputs.
fn merge_outputs<L: Charter>(all: &mut Share<L>, mut outputs: Vec<OutputSeat<L>>)
    ensures parts { all.new.parts ≡ all.old.parts + parts_needed L.certified L.whole outputs.items }
    ensures amount { all.new.amount ≡ all.old.amount + receipts_in outputs.items }
{
    while let Some(output) = outputs.pop() {
        let OutputSeat { output: _, seat } = output;
        merge_seat(all, seat);
    }
}

/// Merges the share of the clock, where it is there.
fn merge_clock<L: Charter>(all: &mut Share<L>, clock: Option<ClockSeat<L>>)
    ensures parts { all.new.parts ≡ all.old.parts + parts_needed L.certified L.whole (clock_seats clock) }
    ensures amount { all.new.amount ≡ all.old.amount + receipts_in (clock_seats clock) }
{
    if let Some(clock) = clock {
        let ClockSeat { seat } = clock;
        merge_seat(all, seat);
    }
}

impl<L: Charter> Book<L> {
    /// The closed book, where the seats are one for each actor and the receipts of each are its actor's entries.
    ///
    /// # Errors
    /// `SeatMissing` where the seats are not one for each actor; else `Mismatch` at the first seat whose receipts are
    /// not its actor's entries.
    pub fn close(self, seats: Seats<L>) -> Result<Closed, CloseFault>
        ensures same { IfOk result (λ c. (c.certified ≡ self.certified) × (c.entries ≡ self.entries)) }
        ensures ok { IfOk result (λ c. ClosesOver c.certified c.entries (seats_in seats)) }
        ensures err { IfErr result (λ fault. IsCloseFault (tables_of self.certified) self.entries (seats_in seats) fault) }
        ensures as_many { AreOneEach (tables_of self.certified) (seats_in seats) → length self.entries ≡ receipts_in (seats_in seats) }
    {
        let fault = close_fault(&self.certified, &self.entries, &seats);
        let book = self.counted(seats);
        match fault {
            Some(fault) => Err(fault),
            None => Ok(book.closed()),
        }
    }

    /// Where the seats are one for each actor, there are as many entries as receipts: their shares are the whole count.
    fn counted(self, seats: Seats<L>) -> Book<L>
        ensures same { result ≡ self }
        ensures as_many { AreOneEach (tables_of self.certified) (seats_in seats) → length self.entries ≡ receipts_in (seats_in seats) }
    {
        let mut book = self;
        let Seats {
            wires,
            routers,
            outputs,
            clock,
            watch: _,
        } = seats;
        let mut all = book.none.empty();
        merge_wires(&mut all, wires);
        merge_routers(&mut all, routers);
        merge_outputs(&mut all, outputs);
        merge_clock(&mut all, clock);
        book.whole.known();
        book.count.audit(&mut all);
        book
    }
}
