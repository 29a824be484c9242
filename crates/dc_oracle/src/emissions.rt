//! When labels were emitted.

ghost use Rattle.std.specs.Prelude.{◌≡◌, ◌+◌, ◌-◌, ◌<◌, ◌≤◌, ◌^◌, ℕ, min, List, [], ◌∷◌, ◌++◌, length, slice_set, Some, None, IfOk, IfSome, slice_index_or};
ghost use Rattle.dc_tables.specs.TableRows.{label_row};
ghost use Rattle.dc_event.specs.Claims.{IsInTime, IsSpaced};
ghost use Rattle.dc_event.specs.Emissions.{emission};
ghost use Rattle.dc_event.specs.Time.{tick_after};
ghost use Rattle.dc_event.specs.declared.event.Event.{Event};
ghost use Rattle.dc_oracle.specs.Claims.{IsWhether};

use crate::replies::all_of;
use dc_tables::Tables;
use std::alloc::{AllocError, Global};

/// The tick in which each label was last emitted, and a tick up to which none of them is overdue.
#[derive(Drop)]
pub struct EmissionWatch {
    last: Vec<Option<u64>>,
    limit: u64,
}

impl EmissionWatch {
    ghost use Rattle.dc_oracle.specs.Emissions.{IsSized, Emits, tick_of, IsLimit};
    ghost use Rattle.dc_event.specs.declared.event.Event.{Event};

    /// Before any event.
    pub fn new(alloc: Global, tables: &Tables) -> Result<EmissionWatch, AllocError>
        ensures sized { IfOk result (λ w. IsSized tables.now w) }
        ensures emits { IfOk result (λ w. Emits tables.now w []) }
    {
        Ok(EmissionWatch {
            last: all_of(alloc, tables.label_count(), None)?,
            limit: 0,
        })
    }

    /// The tick up to which the label is not overdue, at most 2^64 - 1.
    fn label_limit(&self, tables: &Tables, label: usize) -> u64
        requires sized { IsSized tables.now self.now }
        requires label { label < length tables.now.labels }
        ensures { result ≡ min (tick_of (slice_index_or self.now.last.items label None) + (label_row tables.now label).maximum) (2 ^ 64 - 1) }
    {
        let last = self.last[label].unwrap_or(0);
        last.saturating_add(tables.label(label).maximum as u64)
    }

    /// The least of them.
    fn earliest(&self, tables: &Tables) -> u64
        requires sized { IsSized tables.now self.now }
        ensures { IsLimit tables.now self.now.last.items (length tables.now.labels) result }
    {
        let mut first = u64::MAX;
        for label in 0..tables.label_count() {
            first = first.min(self.label_limit(tables, label));
        }
        first
    }

    /// Whether no label is overdue in this tick.
    pub fn is_in_time(&mut self, tables: &Tables, tick: u64) -> bool
        requires sized { IsSized tables.now self.old }
        ensures sized { IsSized tables.now self.new }
        ensures emits { (run : List Event) → Emits tables.now self.old run → Emits tables.now self.new run }
        ensures in_time { (run : List Event) (e : Event) → Emits tables.now self.old run → tick ≡ tick_after run
            → IsWhether (IsInTime tables.now run e) result }
    {
        if tick <= self.limit {
            return true;
        }
        self.limit = self.earliest(tables);
        tick <= self.limit
    }

    /// Whether the label, if one is emitted in this tick, is emitted not too soon.
    pub fn is_spaced(&self, tables: &Tables, emitted: Option<usize>, tick: u64) -> bool
        requires sized { IsSized tables.now self.now }
        requires early { tick < 2 ^ 64 - 1 }
        requires there { IfSome emitted (λ x. x < length tables.now.labels) }
        ensures { (run : List Event) (e : Event) → Emits tables.now self.now run → tick ≡ tick_after run → emitted ≡ emission tables.now run e
            → IsWhether (IsSpaced tables.now run e) result }
    {
        let Some(label) = emitted else {
            return true;
        };
        let minimum = tables.label(label).minimum;
        match self.last[label] {
            Some(last) => last.saturating_add(minimum as u64) <= tick,
            None => true,
        }
    }

    /// The label, if there is one, is emitted in this tick.
    pub fn emit(&mut self, tables: &Tables, emitted: Option<usize>, tick: u64)
        requires sized { IsSized tables.now self.old }
        requires there { IfSome emitted (λ x. x < length tables.now.labels) }
        ensures sized { IsSized tables.now self.new }
        ensures emits { (run : List Event) (e : Event) → Emits tables.now self.old run → tick ≡ tick_after run → emitted ≡ emission tables.now run e
            → Emits tables.now self.new (run ++ e ∷ []) }
    {
        let _ = tables;
        if let Some(label) = emitted {
            self.last[label] = Some(tick);
        }
    }
}
