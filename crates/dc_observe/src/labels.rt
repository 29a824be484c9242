//! How old the copied words of labels were, and how often labels were sent.
ghost use Rattle.std.specs.Prelude.{◌≡◌, ◌+◌, ◌-◌, ◌^◌, ◌<◌, List, [], ◌∷◌, ◌++◌, length, slice_index_or, IfOk, IfSome};
ghost use Rattle.dc_event.specs.Emissions.{emission};
ghost use Rattle.dc_event.specs.Time.{tick_after};
ghost use Rattle.dc_observe.specs.Carried.{elder, least_with, lesser, one_more, or_zero};
ghost use Rattle.dc_observe.specs.Labels.{fallback_with, gauged, label_numbers, no_emissions};
ghost use Rattle.dc_observe.specs.Observed.{age_of_sent};
ghost use Rattle.dc_oracle.specs.Arrivals.{IsSized as AreArrivals, Follows};
ghost use Rattle.dc_oracle.specs.Replies.{Holds, IsSized as AreReplies};
ghost use Rattle.dc_event.specs.declared.event.Event.{Event};

use crate::parts::all_of;
use dc_oracle::{ArrivalWatch, ReplyWatch};
use dc_tables::Tables;
use std::alloc::{AllocError, Global};

/// The numbers of a label's emissions so far.
#[derive(Clone, Copy, Debug, PartialEq)]
pub struct LabelGauge {
    /// How often it was sent.
    pub sent: u64,
    /// How often as its fallback.
    pub fallback: u64,
    /// The greatest age of a word that it copied.
    pub age: Option<u64>,
    /// The tick in which it was sent last.
    pub last: Option<u64>,
    /// The least interval between two emissions.
    pub least: Option<u64>,
    /// The greatest interval, with that to the first emission.
    pub greatest: u64,
}

/// What is observed of a label.
#[derive(Clone, Copy, Debug, PartialEq, Eq)]
pub struct LabelNumbers {
    /// How often it was sent.
    pub sent: u64,
    /// How often as its fallback.
    pub fallback: u64,
    /// The greatest age of a word that it copied, in ticks; none where it copied none.
    pub age: Option<u64>,
    /// The least interval between two emissions, in ticks; none where there were fewer than two.
    pub least: Option<u64>,
    /// The greatest interval, with that to the first emission and that from the last to the end.
    pub greatest: u64,
}

/// One more, up to the greatest number.
fn one_more(count: u64) -> u64
    ensures { result ≡ one_more count }
{
    count.saturating_add(1)
}

/// The greater of two ages.
fn elder(before: Option<u64>, age: Option<u64>) -> Option<u64>
    ensures { result ≡ elder before age }
{
    match (before, age) {
        (None, age) => age,
        (Some(before), None) => Some(before),
        (Some(before), Some(age)) => Some(before.max(age)),
    }
}

/// The lesser of what there was and one more.
fn lesser(before: Option<u64>, interval: u64) -> u64
    ensures { result ≡ lesser before interval }
{
    match before {
        Some(least) => least.min(interval),
        None => interval,
    }
}

/// The least interval, with an emission in this tick behind the last.
fn least_with(least: Option<u64>, last: Option<u64>, tick: u64) -> Option<u64>
    ensures { result ≡ least_with least last tick }
{
    match last {
        Some(last) => Some(lesser(least, tick.saturating_sub(last))),
        None => least,
    }
}

/// The count of fallbacks, with a word of this age more.
fn fallback_with(count: u64, age: Option<u64>) -> u64
    ensures { result ≡ fallback_with count age }
{
    match age {
        Some(_) => count,
        None => one_more(count),
    }
}

/// A tick, or 0 where there is none.
fn or_zero(tick: Option<u64>) -> u64
    ensures { result ≡ or_zero tick }
{
    match tick {
        Some(tick) => tick,
        None => 0,
    }
}

impl LabelGauge {
    /// With an emission in this tick, of a word of this age.
    fn gauged(&self, age: Option<u64>, tick: u64) -> LabelGauge
        ensures { result ≡ gauged age tick self.now }
    {
        LabelGauge {
            sent: one_more(self.sent),
            fallback: fallback_with(self.fallback, age),
            age: elder(self.age, age),
            last: Some(tick),
            least: least_with(self.least, self.last, tick),
            greatest: self.greatest.max(tick.saturating_sub(or_zero(self.last))),
        }
    }
}

/// The age of the word that the label copies as it leaves in this tick, by the states after the event; none where it
/// copies none.
fn age_of(
    replies: &ReplyWatch,
    arrivals: &ArrivalWatch,
    tables: &Tables,
    label: usize,
    tick: u64,
) -> Option<u64>
    requires replies { AreReplies tables.now replies.now }
    requires arrivals { AreArrivals tables.now arrivals.now }
    requires label { label < length tables.now.labels }
    ensures { (run : List Event) (e : Event) → tick ≡ tick_after run → Holds tables.now replies.now (run ++ e ∷ []) → Follows tables.now arrivals.now (run ++ e ∷ [])
        → result ≡ age_of_sent tables.now label run e }
{
    tables.valid();
    let Some((stream, _)) = replies.choice(tables, label) else {
        return None;
    };
    match arrivals.latest_came(stream) {
        Some(came) => Some(tick.saturating_sub(came)),
        None => None,
    }
}

/// The numbers of each label's emissions so far.
#[derive(Drop)]
pub struct LabelGauges {
    gauges: Vec<LabelGauge>,
}

impl LabelGauges {
    ghost use Rattle.dc_observe.specs.Labels.{IsSized, AreGauged};
    ghost use Rattle.dc_event.specs.declared.event.Event.{Event};

    /// Before any event.
    ///
    /// # Errors
    /// Out of memory.
    pub fn new(alloc: Global, tables: &Tables) -> Result<LabelGauges, AllocError>
        ensures sized { IfOk result (λ w. IsSized tables.now w) }
        ensures gauged { IfOk result (λ w. AreGauged tables.now w []) }
    {
        let none = LabelGauge {
            sent: 0,
            fallback: 0,
            age: None,
            last: None,
            least: None,
            greatest: 0,
        };
        Ok(LabelGauges {
            gauges: all_of(alloc, tables.label_count(), none)?,
        })
    }

    /// Takes an event of this tick, by the label that it emits, if it emits one, and by the states after it.
    pub fn see(
        &mut self,
        tables: &Tables,
        replies: &ReplyWatch,
        arrivals: &ArrivalWatch,
        emitted: Option<usize>,
        tick: u64,
    )
        requires sized { IsSized tables.now self.old }
        requires replies { AreReplies tables.now replies.now }
        requires arrivals { AreArrivals tables.now arrivals.now }
        requires there { IfSome emitted (λ x. x < length tables.now.labels) }
        ensures sized { IsSized tables.now self.new }
        ensures gauged { (run : List Event) (e : Event) → AreGauged tables.now self.old run → length run < 2 ^ 64 - 1 → emitted ≡ emission tables.now run e → tick ≡ tick_after run
            → Holds tables.now replies.now (run ++ e ∷ []) → Follows tables.now arrivals.now (run ++ e ∷ [])
            → AreGauged tables.now self.new (run ++ e ∷ []) }
    {
        let Some(label) = emitted else {
            return;
        };
        let age = age_of(replies, arrivals, tables, label, tick);
        self.gauges[label] = self.gauges[label].gauged(age, tick);
    }

    /// What is observed of a label, by the state of the replies.
    pub fn numbers(&self, tables: &Tables, replies: &ReplyWatch, label: usize) -> LabelNumbers
        requires sized { IsSized tables.now self.now }
        requires there { label < length tables.now.labels }
        ensures { (run : List Event) → AreGauged tables.now self.now run → Holds tables.now replies.now run → result ≡ label_numbers tables.now label run }
    {
        let gauge = self.gauges[label];
        let since = replies.tick().saturating_sub(or_zero(gauge.last));
        LabelNumbers {
            sent: gauge.sent,
            fallback: gauge.fallback,
            age: gauge.age,
            least: gauge.least,
            greatest: gauge.greatest.max(since),
        }
    }
}
