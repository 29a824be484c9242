//! The book under its lock, and the board beside it.

ghost use Rattle.std.specs.Prelude.{◌≡◌, ℕ, ◌+◌, ◌<◌, ◌≤◌, ◌++◌, ◌∷◌, [], List, IfOk, IfErr, OnErr, Err, Some, length, slice_index, slice_set};
ghost use Rattle.atomic_table.specs.Seated.{TableId};
ghost use Rattle.dc_board.specs.Marks.{IsSeatOf, raised, fresh, stepped_once};
ghost use Rattle.dc_check.specs.Lent.{tables_of};
ghost use Rattle.dc_event.specs.declared.event.Actor.TheVariants.{Wire, Router, Output, Clock};
ghost use Rattle.dc_event.specs.declared.event.Event.TheVariants.{Tick, Arrive, Route, Send};
ghost use Rattle.dc_hub.specs.Closing.{seats_in, AreUnanswered, ClosesOver, DoesNotClose};
ghost use Rattle.dc_hub.specs.Entries.{actor_of, backlog_of};
ghost use Rattle.dc_hub.specs.Opening.{IsCharterOf};
ghost use Rattle.dc_hub.specs.Views.{IsOfLast, IsRefusal, IsRefusedCall, IsRefusedWord, HasNoted, AreNewWires, AreNewSeats};
ghost use Rattle.dc_hub.specs.Views.{unused, board_caps, stepped, parts_for, receipts_in};
ghost use Rattle.dc_board.specs.declared.limits.TheConstants.{MOST_WORDS};
ghost use Rattle.dc_hub.specs.declared.limits.TheConstants.{GREATEST_BACKLOG};

use crate::book::Book;
use crate::charter::Charter;
use crate::closed::Closed;
use crate::entry::Receipt;
use crate::fault::{CloseFault, HubFault, OpenFault};
use crate::opening::{board_of_marks, output_seats, router_seats, wire_seats};
use crate::seat::{ClockSeat, OutputSeat, RouterSeat, Seat, Watch, WireSeat};
use crate::seats::Seats;
use dc_board::{Board, BoardSeat};
use dc_check::Certified;
use dc_event::{Actor, Event, Reply};
use dc_word::Word;
use std::alloc::{AllocError, Global};
use std::marker::Model;
use std::sync::ledger::Blank;
use std::sync::{Mutex, Wait};

/// The book under its lock, and the board of marks beside it. Contracts see the board.
#[derive(Drop)]
pub struct Hub<L: Charter> {
    pub(crate) book: Mutex<Book<L>>,
    board: Board,
}

impl<L: Charter> Model for Hub<L> {
    ghost Value = { TableId × List ℕ };

    ghost view = { λ h. h.board };

    ghost invariant = { λ h. h.board.1 ≡ board_caps };
}

impl<L: Charter> Hub<L> {
    /// A hub, and the seats of the actors of certified tables, which were answered nothing. The blank has at least one
    /// part for each actor; each wire, router and output has one of them, the clock all others. The tables, their
    /// certificate, the trace limit, 1 to [`LONGEST_TRACE`](crate::LONGEST_TRACE) entries, and the number of parts are
    /// those of the hub's charter, and so of its book.
    ///
    /// # Errors
    /// Out of memory.
    pub fn open(
        alloc: Global,
        blank: Blank,
        certified: Certified,
        trace_limit: usize,
    ) -> Result<(Hub<L>, Seats<L>), OpenFault>
        requires blank { (blank.name ≡ L.name) × (blank.parts ≡ L.parts) }
        requires charter { IsCharterOf L.certified L.limit L.whole L.parts certified trace_limit }
        ensures each { IfOk result (λ r. AreUnanswered (tables_of certified) L.parts (seats_in r.1)) }
        ensures wires { IfOk result (λ r. AreNewWires r.0 r.1.wires.items (length (tables_of certified).buses)) }
        ensures routers { IfOk result (λ r. AreNewSeats Router r.1.routers.items (length (tables_of certified).routers)) }
        ensures outputs { IfOk result (λ r. AreNewSeats Output r.1.outputs.items (length (tables_of certified).outputs)) }
        ensures clock { IfOk result (λ r. r.1.clock ≡ Some (unused Clock (parts_for L.certified L.whole Clock))) }
        ensures watch { IfOk result (λ r. IsSeatOf r.0 r.1.watch × (r.1.watch.1 ≡ stepped (length (tables_of certified).buses) (fresh board_caps))) }
    {
        match Hub::opened(alloc, blank, certified, trace_limit) {
            Ok(opened) => Ok(opened),
            Err(AllocError) => Err(OpenFault::Memory),
        }
    }

    /// The same, with the error of the allocator.
    fn opened(
        alloc: Global,
        blank: Blank,
        certified: Certified,
        limit: usize,
    ) -> Result<(Hub<L>, Seats<L>), AllocError>
        requires blank { (blank.name ≡ L.name) × (blank.parts ≡ L.parts) }
        requires charter { IsCharterOf L.certified L.limit L.whole L.parts certified limit }
        ensures each { IfOk result (λ r. AreUnanswered (tables_of certified) L.parts (seats_in r.1)) }
        ensures wires { IfOk result (λ r. AreNewWires r.0 r.1.wires.items (length (tables_of certified).buses)) }
        ensures routers { IfOk result (λ r. AreNewSeats Router r.1.routers.items (length (tables_of certified).routers)) }
        ensures outputs { IfOk result (λ r. AreNewSeats Output r.1.outputs.items (length (tables_of certified).outputs)) }
        ensures clock { IfOk result (λ r. r.1.clock ≡ Some (unused Clock (parts_for L.certified L.whole Clock))) }
        ensures watch { IfOk result (λ r. IsSeatOf r.0 r.1.watch × (r.1.watch.1 ≡ stepped (length (tables_of certified).buses) (fresh board_caps))) }
    {
        let (board, mut marks) = board_of_marks(alloc)?;
        let (count, mut rest) = blank.open::<L>();
        let tables = certified.tables();
        tables.valid();
        let wires = wire_seats(alloc, &board, &mut marks, &mut rest, tables.bus_count())?;
        let routers = router_seats(alloc, &mut rest, tables.router_count())?;
        let outputs = output_seats(alloc, &mut rest, tables.output_count())?;
        let none = rest.empty();
        let clock = ClockSeat {
            seat: Seat::new(alloc, Actor::Clock, rest),
        };
        let seats = Seats {
            wires,
            routers,
            outputs,
            clock: Some(clock),
            watch: Watch { marks },
        };
        let book = Book::new(alloc, certified, limit, count, none)?;
        let hub = Hub {
            book: Mutex::new(book),
            board,
        };
        Ok((hub, seats))
    }

    /// One step under the lock.
    fn act<R: Wait>(&self, rt: &R, seat: &mut Seat<L>, event: Event) -> Result<Receipt, HubFault>
        requires { actor_of event ≡ seat.old.actor }
        ensures receipt { IfOk result (λ r. (seat.new.receipts ≡ seat.old.receipts ++ r ∷ []) × (r.event ≡ event) × (backlog_of r.reply ≤ GREATEST_BACKLOG)) }
        ensures same { OnErr result (seat.new ≡ seat.old) }
        ensures kept { (seat.new.actor ≡ seat.old.actor) × (seat.new.parts ≡ seat.old.parts) }
        ensures entry { IfOk result (λ r. IsOfLast L.certified L.limit (length seat.new.receipts) r) }
        ensures err { IfErr result (λ fault. IsRefusal L.certified L.limit (length seat.old.receipts) event fault) }
    {
        self.book.lock(rt).act(seat, event)
    }

    /// A word arrives on the seat's bus. The greatest backlog that the seat was answered is noted on the board.
    ///
    /// # Errors
    /// `TraceFull` only where a book of the hub is full; `Step` only where the event may not follow a book of the hub that
    /// is not full; `Memory`. The seat is unchanged then. That it is the book as it stands behind the lock is tested.
    pub fn arrive<R: Wait>(
        &self,
        rt: &R,
        seat: &mut WireSeat<L>,
        word: Word,
    ) -> Result<Receipt, HubFault>
        requires { IsSeatOf self.now seat.old.marks }
        ensures receipt { IfOk result (λ r. (seat.new.seat.receipts ≡ seat.old.seat.receipts ++ r ∷ [])
            × ((bus : ℕ) → seat.old.seat.actor ≡ Wire bus → r.event ≡ Arrive word bus)) }
        ensures same { OnErr result (seat.new ≡ seat.old) }
        ensures kept { (seat.new.seat.actor ≡ seat.old.seat.actor) × (seat.new.seat.parts ≡ seat.old.seat.parts) }
        ensures board { IsSeatOf self.now seat.new.marks }
        ensures noted { HasNoted seat.new }
        ensures entry { IfOk result (λ r. IsOfLast L.certified L.limit (length seat.new.seat.receipts) r) }
        ensures err { IfErr result (IsRefusedWord L.certified L.limit word seat.old.seat) }
    {
        let event = Event::Arrive(word, seat.bus);
        let receipt = self.act(rt, &mut seat.seat, event)?;
        note(&self.board, &mut seat.marks, seat.bus, &receipt.reply);
        Ok(receipt)
    }

    /// The seat's router makes a step.
    ///
    /// # Errors
    /// As of `arrive`.
    pub fn route<R: Wait>(&self, rt: &R, seat: &mut RouterSeat<L>) -> Result<Receipt, HubFault>
        ensures receipt { IfOk result (λ r. (seat.new.receipts ≡ seat.old.receipts ++ r ∷ []) × (actor_of r.event ≡ seat.old.actor)) }
        ensures same { OnErr result (seat.new ≡ seat.old) }
        ensures kept { (seat.new.actor ≡ seat.old.actor) × (seat.new.parts ≡ seat.old.parts) }
        ensures entry { IfOk result (λ r. IsOfLast L.certified L.limit (length seat.new.receipts) r) }
        ensures err { IfErr result (IsRefusedCall L.certified L.limit seat.old) }
    {
        let event = Event::Route(seat.router);
        self.act(rt, &mut seat.seat, event)
    }

    /// The seat's output makes a send step.
    ///
    /// # Errors
    /// As of `arrive`.
    pub fn send<R: Wait>(&self, rt: &R, seat: &mut OutputSeat<L>) -> Result<Receipt, HubFault>
        ensures receipt { IfOk result (λ r. (seat.new.receipts ≡ seat.old.receipts ++ r ∷ []) × (actor_of r.event ≡ seat.old.actor)) }
        ensures same { OnErr result (seat.new ≡ seat.old) }
        ensures kept { (seat.new.actor ≡ seat.old.actor) × (seat.new.parts ≡ seat.old.parts) }
        ensures entry { IfOk result (λ r. IsOfLast L.certified L.limit (length seat.new.receipts) r) }
        ensures err { IfErr result (IsRefusedCall L.certified L.limit seat.old) }
    {
        let event = Event::Send(seat.output);
        self.act(rt, &mut seat.seat, event)
    }

    /// The clock ends the tick.
    ///
    /// # Errors
    /// As of `arrive`.
    pub fn tick<R: Wait>(&self, rt: &R, seat: &mut ClockSeat<L>) -> Result<Receipt, HubFault>
        ensures receipt { IfOk result (λ r. (seat.new.receipts ≡ seat.old.receipts ++ r ∷ []) × (r.event ≡ Tick)) }
        ensures same { OnErr result (seat.new ≡ seat.old) }
        ensures kept { (seat.new.actor ≡ seat.old.actor) × (seat.new.parts ≡ seat.old.parts) }
        ensures entry { IfOk result (λ r. IsOfLast L.certified L.limit (length seat.new.receipts) r) }
        ensures err { IfErr result (IsRefusedCall L.certified L.limit seat.old) }
    {
        self.act(rt, &mut seat.seat, Event::Tick)
    }

    /// The mark of a bus, in words: at least what the watch has seen there before, and at most
    /// [`GREATEST_BACKLOG`](crate::GREATEST_BACKLOG). The call does not wait.
    pub fn read(&self, watch: &mut Watch, bus: usize) -> u64
        requires watch { IsSeatOf self.now watch.old }
        requires bus { bus < MOST_WORDS }
        ensures watch { IsSeatOf self.now watch.new }
        ensures noted { watch.new.1.noted ≡ watch.old.1.noted }
        ensures seen { watch.new.1.seen ≡ slice_set watch.old.1.seen bus result }
        ensures shown { slice_index watch.new.1.seen bus ≡ result }
        ensures rises { slice_index watch.old.1.seen bus ≤ result }
        ensures most { result ≤ GREATEST_BACKLOG }
        ensures step { watch.new.1.steps ≡ watch.old.1.steps + 1 }
    {
        self.board.read(&mut watch.marks, bus)
    }

    /// Another watch, which has seen nothing.
    pub fn split(&self, watch: &mut Watch) -> Watch
        requires { IsSeatOf self.now watch.old }
        ensures same { watch.new.1 ≡ stepped_once watch.old.1 }
        ensures watch { IsSeatOf self.now watch.new }
        ensures new { IsSeatOf self.now result × (result.1 ≡ fresh board_caps) }
    {
        Watch {
            marks: self.board.split(&mut watch.marks),
        }
    }
}

impl<L: Charter> Hub<L> {
    /// Closes the book: the seats are one for each actor, and the receipts of each are its actor's entries.
    ///
    /// # Errors
    /// As of [`Book::close`](crate::Book::close), of a book of this hub: it has the tables, the certificate and the
    /// trace limit that the hub was opened with, and where the seats are one for each actor, as many entries as they
    /// have receipts.
    pub fn close(self, seats: Seats<L>) -> Result<Closed, CloseFault>
        ensures ok { IfOk result (λ c. ClosesOver c.certified c.entries (seats_in seats)) }
        ensures same { IfOk result (λ c. (L.certified ≡ Some c.certified) × (length c.entries ≤ L.limit)) }
        ensures as_many { IfOk result (λ c. length c.entries ≡ receipts_in (seats_in seats)) }
        ensures err { IfErr result (DoesNotClose L.certified L.limit (seats_in seats)) }
    {
        let Hub { book, board: _ } = self;
        let book = book.into_inner();
        book.of_hub();
        book.close(seats)
    }
}

/// Notes the backlog that a reply tells.
fn note(board: &Board, seat: &mut BoardSeat, bus: usize, reply: &Reply)
    requires seat { IsSeatOf board.now seat.old }
    requires bus { bus < MOST_WORDS }
    requires backlog { backlog_of reply.now ≤ GREATEST_BACKLOG }
    requires caps { board.now.1 ≡ board_caps }
    ensures seat { IsSeatOf board.now seat.new }
    ensures noted { seat.new.1.noted ≡ raised seat.old.1.noted bus (backlog_of reply.now) }
{
    let mark = backlog(reply);
    if mark == 0 {
        return;
    }
    board.note(seat, bus, mark);
}

/// The backlog that a reply tells, 0 where it tells none.
fn backlog(reply: &Reply) -> u64
    ensures { result ≡ backlog_of reply.now }
{
    match *reply {
        Reply::Queued(backlog) => backlog as u64,
        _ => 0,
    }
}
