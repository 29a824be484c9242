//! The book of entries, as one thread acts on it.

ghost use Rattle.std.specs.Prelude.{◌≡◌, ◌≢◌, ℕ, ◌+◌, ◌<◌, ◌≤◌, ◌++◌, ◌∷◌, [], List, IfOk, OnErr, Err, MatchResult, Some, length};
ghost use Rattle.dc_check.specs.Lent.{tables_of};
ghost use Rattle.dc_core.specs.Steps.{IsSized, StandsFor, StepsTo};
ghost use Rattle.dc_event.specs.declared.event.Event.{Event};
ghost use Rattle.dc_core.specs.declared.fault.StepFault.{StepFault};
ghost use Rattle.dc_hub.specs.Entries.{actor_of, backlog_of, entry, events, IsLegal};
ghost use Rattle.dc_hub.specs.Views.{BookView, DoesNotTake, IsBookOf, others};
ghost use Rattle.dc_hub.specs.declared.fault.HubFault.TheVariants.{Step, TraceFull, Astray};
ghost use Rattle.dc_hub.specs.declared.limits.TheConstants.{GREATEST_BACKLOG};

use crate::charter::{Charter, Whole};
use crate::closed::Closed;
use crate::entry::{Entry, Receipt};
use crate::fault::HubFault;
use crate::seat::Seat;
use dc_check::Certified;
use dc_core::{State, StepFault};
use dc_event::laws::backlog_fits;
use dc_event::{Event, Reply};
use std::alloc::{AllocError, Global};
use std::marker::Model;
use std::sync::ledger;
use std::sync::ledger::Share;

/// The entries so far, which are a run of the tables that keeps the budgets, each with the reply that the run calls
/// for; and the state of the concentrator after that run. Contracts see the certified tables, the trace limit and the
/// entries.
#[derive(Drop)]
pub struct Book<L: Charter> {
    pub(crate) certified: Certified,
    state: State,
    limit: usize,
    pub(crate) entries: Vec<Entry>,
    pub(crate) count: ledger::Book<L>,
    pub(crate) none: Share<L>,
    pub(crate) whole: Whole<L>,
}

impl<L: Charter> Model for Book<L> {
    ghost Value = { BookView };

    ghost view = { λ b. record { certified = b.certified; limit = b.limit; entries = b.entries.items } };

    ghost invariant = { λ b. IsLegal (tables_of b.certified) b.entries.items
        × IsSized (tables_of b.certified) b.state × StandsFor (tables_of b.certified) b.state (events b.entries.items)
        × (b.count.total ≡ length b.entries.items) × (length b.entries.items ≤ b.limit)
        × (L.certified ≡ Some b.certified) × (L.limit ≡ b.limit) × (others L.certified < L.whole)
        × (b.none.parts ≡ 0) × (b.none.amount ≡ 0) };
}

impl<L: Charter> Book<L> {
    /// A book without entries. `count` is the hub's count.
    pub(crate) fn new(
        alloc: Global,
        certified: Certified,
        limit: usize,
        count: ledger::Book<L>,
        none: Share<L>,
    ) -> Result<Book<L>, AllocError>
        requires count { count.total ≡ 0 }
        requires none { (none.parts ≡ 0) × (none.amount ≡ 0) }
        requires charter { (L.certified ≡ Some certified) × (L.limit ≡ limit) × (L.whole ≡ L.parts) × (others L.certified < L.whole) }
        ensures { IfOk result (λ b. b ≡ record { certified = certified; limit = limit; entries = [] }) }
    {
        let state = State::new(alloc, certified.tables())?;
        Ok(Book {
            certified,
            state,
            limit,
            entries: Vec::new(alloc),
            count,
            none,
            whole: Whole::new(),
        })
    }

    /// The events keep the budgets of the tables, and the replies are their outputs. The call does nothing.
    pub fn legal(&self)
        ensures { IsLegal (tables_of self.now.certified) self.now.entries }
    {
        let _ = &self.entries;
    }

    /// The entries, with the tables and their certificate.
    pub(crate) fn closed(self) -> Closed
        ensures { result ≡ record { certified = self.certified; entries = self.entries } }
    {
        let Book {
            certified,
            state: _,
            limit: _,
            entries,
            count: _,
            none: _,
            whole: _,
        } = self;
        Closed { certified, entries }
    }

    /// A book of the hub: its tables, their certificate and the limit are those that the hub was opened with. The call
    /// does nothing.
    pub fn of_hub(&self)
        ensures { IsBookOf L.certified L.limit self.now }
    {
        let _ = &self.entries;
    }

    /// One step of the seat's actor: an entry at the end of the book, and its receipt at the end of the seat's. The
    /// index is the number of entries then; a backlog that the reply tells is at most
    /// [`GREATEST_BACKLOG`](crate::GREATEST_BACKLOG) words.
    ///
    /// # Errors
    /// `TraceFull` only where the book is full; `Step` only where it is not, and the event may not follow its run;
    /// `Memory`. Book and seat are unchanged then.
    pub fn act(&mut self, seat: &mut Seat<L>, event: Event) -> Result<Receipt, HubFault>
        requires { actor_of event ≡ seat.old.actor }
        ensures entry { IfOk result (λ r. (self.new.entries ≡ self.old.entries ++ entry event r.reply ∷ [])
            × (r.index ≡ length self.new.entries) × (r.event ≡ event)) }
        ensures receipt { IfOk result (λ r. seat.new.receipts ≡ seat.old.receipts ++ r ∷ []) }
        ensures book { OnErr result (self.new ≡ self.old) }
        ensures seat { OnErr result (seat.new ≡ seat.old) }
        ensures kept { (self.new.certified ≡ self.old.certified) × (self.new.limit ≡ self.old.limit)
            × (seat.new.actor ≡ seat.old.actor) × (seat.new.parts ≡ seat.old.parts) }
        ensures full { result ≡ Err TraceFull → self.old.limit ≤ length self.old.entries }
        ensures step { (f : StepFault) → result ≡ Err (Step f) → DoesNotTake self.old event f }
        ensures legal { IsLegal (tables_of self.new.certified) self.new.entries }
        ensures backlog { IfOk result (λ r. backlog_of r.reply ≤ GREATEST_BACKLOG) }
        ensures astray { result ≢ Err Astray }
        ensures of_hub { IsBookOf L.certified L.limit self.old × IsBookOf L.certified L.limit self.new }
        ensures some { (length seat.old.receipts ≤ length self.old.entries) × (length seat.new.receipts ≤ length self.new.entries) }
    {
        self.count.audit(&mut seat.share);
        if self.entries.len() >= self.limit {
            return Err(HubFault::TraceFull);
        }
        if self.entries.reserve(1).is_err() || seat.receipts.reserve(1).is_err() {
            return Err(HubFault::Memory);
        }
        let reply = match step(&self.certified, &mut self.state, &event) {
            Ok(reply) => reply,
            Err(fault) => return Err(HubFault::Step(fault)),
        };
        let receipt = Receipt {
            index: self.entries.len() as u64 + 1,
            event,
            reply,
        };
        self.entries.push_reserved(receipt.entry());
        seat.receipts.push_reserved(receipt);
        self.count.add(&mut seat.share, 1);
        Ok(receipt)
    }
}

/// One step of the concentrator. The backlog that it tells is within the greatest capacity of a queue.
fn step(certified: &Certified, state: &mut State, event: &Event) -> Result<Reply, StepFault>
    requires { IsSized (tables_of certified.now) state.old }
    ensures sized { IsSized (tables_of certified.now) state.new }
    ensures err { OnErr result (state.new ≡ state.old) }
    ensures step { (run : List Event) → StandsFor (tables_of certified.now) state.old run → StepsTo (tables_of certified.now) state.new run event.now result }
    ensures backlog { (run : List Event) → StandsFor (tables_of certified.now) state.old run → IfOk result (λ r. backlog_of r ≤ GREATEST_BACKLOG) }
{
    let tables = certified.tables();
    tables.valid();
    backlog_fits(tables);
    state.apply(tables, *event)
}
