//! A book that has closed.

ghost use Rattle.std.specs.Prelude.{◌≡◌, ℕ, ◌<◌, ◌≤◌, cond, if◌then◌else◌, max, slice_index};
ghost use Rattle.dc_check.specs.Lent.{tables_of};
ghost use Rattle.dc_event.specs.declared.event.Actor.TheVariants.{Wire};
ghost use Rattle.dc_hub.specs.Closing.{is_by, receipts_of};
ghost use Rattle.dc_hub.specs.Entries.{IsLegal, backlog_of, is_overrun, overruns_in};
ghost use Rattle.dc_hub.specs.Views.{ClosedView, greatest};
ghost use Rattle.dc_board.specs.declared.limits.TheConstants.{MOST_WORDS};

use crate::entry::Entry;
use dc_board::MOST_WORDS;
use dc_check::Certified;
use dc_event::{Event, Reply};
use std::marker::Model;

/// The entries of a hub that has closed, with its tables and their certificate. The events keep the budgets of the
/// tables, and the replies are their outputs.
#[derive(Drop)]
pub struct Closed {
    pub(crate) certified: Certified,
    pub(crate) entries: Vec<Entry>,
}

impl Model for Closed {
    ghost Value = { ClosedView };

    ghost view = { λ c. record { certified = c.certified; entries = c.entries.items } };

    ghost invariant = { λ c. IsLegal (tables_of c.certified) c.entries.items };
}

impl Closed {
    /// The entries, in the order of the run.
    pub fn entries(&self) -> &[Entry]
        ensures { result.now ≡ self.now.entries }
    {
        self.entries.as_slice()
    }

    /// The tables and the certificate that is accepted for them.
    pub fn certified(&self) -> &Certified
        ensures { result.now ≡ self.now.certified }
    {
        &self.certified
    }

    /// The events keep the budgets of the tables, and the replies are their outputs. The call does nothing.
    pub fn legal(&self)
        ensures { IsLegal (tables_of self.now.certified) self.now.entries }
    {
        let _ = &self.entries;
    }

    /// How many of the replies are overruns.
    pub fn overruns(&self) -> u64
        ensures { result ≡ overruns_in self.now.entries }
    {
        let mut count = 0;
        for i in 0..self.entries.len() {
            count += overruns_of(&self.entries[i]);
        }
        count
    }

    /// For each bus, of numbers below [`MOST_WORDS`], the greatest backlog that its wire was answered, in words; 0
    /// where none.
    pub fn marks(&self) -> [u64; MOST_WORDS]
        ensures { (bus : ℕ) → bus < MOST_WORDS → slice_index result bus ≡ greatest (receipts_of (Wire bus) self.now.entries) }
    {
        let mut marks = [0; MOST_WORDS];
        for i in 0..self.entries.len() {
            raise(&mut marks, &self.entries[i]);
        }
        marks
    }
}

/// 1 where the reply is an overrun, else 0.
fn overruns_of(entry: &Entry) -> u64
    ensures count { result ≡ cond (is_overrun entry.now.reply) 1 0 }
    ensures one { result ≤ 1 }
{
    match entry.reply {
        Reply::Overrun => 1,
        _ => 0,
    }
}

/// Raises the mark of the bus to the backlog that its wire was answered.
fn raise(marks: &mut [u64; MOST_WORDS], entry: &Entry)
    ensures { (bus : ℕ) → bus < MOST_WORDS → slice_index marks.new bus
        ≡ (if is_by (Wire bus) entry.now.event then max (slice_index marks.old bus) (backlog_of entry.now.reply) else slice_index marks.old bus) }
{
    let Event::Arrive(_, bus) = entry.event else {
        return;
    };
    let Reply::Queued(backlog) = entry.reply else {
        return;
    };
    if bus < marks.len() {
        marks[bus] = marks[bus].max(backlog as u64);
    }
}
