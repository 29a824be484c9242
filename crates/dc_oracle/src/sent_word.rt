//! What the claims say of a word that leaves: how old it is, and which sources it uses.

ghost use Rattle.std.specs.Prelude.{◌≡◌, ℕ, ◌+◌, ◌<◌, ◌≤◌, Some, None, List, length, IfSome, slice_index, slice_index_or};
ghost use Rattle.dc_cert.specs.Bounds.{certificate_rows};
ghost use Rattle.dc_tables.specs.TableRows.{label_row};
ghost use Rattle.dc_event.specs.Choice.{choice};
ghost use Rattle.dc_event.specs.Claims.{IsYoung, UsesFirst, UsesAny};
ghost use Rattle.dc_event.specs.Time.{tick_after};
ghost use Rattle.dc_event.specs.declared.event.Event.{Event};
ghost use Rattle.dc_oracle.specs.Arrivals.{IsSized as AreArrivals, Follows};
ghost use Rattle.dc_oracle.specs.Replies.{IsSized as AreReplies, fresh_sources};
ghost use Rattle.dc_oracle.specs.Claims.{AnswersChoice, AnswersWhether, IsAnyGood, IsGood, IsWhether};

use crate::arrivals::ArrivalWatch;
use crate::replies::{ReplyWatch, word_for};
use dc_cert::Certificate;
use dc_tables::Tables;
use dc_word::Word;

/// The age that the certificate claims of the label of this number; 0 where it lists none.
fn age_of(certificate: &Certificate, label: usize) -> u32
    ensures { result ≡ slice_index (certificate_rows certificate.now).ages label }
{
    if label >= certificate.labels.len() {
        return 0;
    }
    certificate.labels[label].age
}

/// What the label that is emitted copies, if one is emitted and it copies a word.
pub fn choice_sent(
    replies: &ReplyWatch,
    tables: &Tables,
    emitted: Option<usize>,
) -> Option<(usize, Word)>
    requires replies { AreReplies tables.now replies.now }
    requires there { IfSome emitted (λ x. x < length tables.now.labels) }
    ensures { IfSome emitted (λ x. result ≡ choice tables.now x (fresh_sources tables.now replies.now x)) }
{
    match emitted {
        Some(label) => replies.choice(tables, label),
        None => None,
    }
}

/// Whether the latest word of the stream came at most `age` ticks ago.
fn came_within(replies: &ReplyWatch, arrivals: &ArrivalWatch, stream: usize, age: u32) -> bool
    ensures { IsWhether ((came : ℕ) × (slice_index_or arrivals.now.latest.items stream None ≡ Some came) × (replies.now.tick ≤ came + age)) result }
{
    let Some(came) = arrivals.latest_came(stream) else {
        return false;
    };
    replies.tick() <= came.saturating_add(age as u64)
}

/// Whether the label's word is its fallback, or copies one that is no older than the certificate lets it.
fn is_young(
    replies: &ReplyWatch,
    arrivals: &ArrivalWatch,
    tables: &Tables,
    certificate: &Certificate,
    label: usize,
    chosen: &Option<(usize, Word)>,
) -> bool
    requires replies { AreReplies tables.now replies.now }
    requires arrivals { AreArrivals tables.now arrivals.now }
    requires label { label < length tables.now.labels }
    requires chosen { chosen.now ≡ choice tables.now label (fresh_sources tables.now replies.now label) }
    ensures { AnswersWhether tables.now replies.now arrivals.now (IsYoung tables.now label (slice_index (certificate_rows certificate.now).ages label)) result }
{
    tables.valid();
    let Some((stream, word)) = *chosen else {
        return true;
    };
    if came_within(replies, arrivals, stream, age_of(certificate, label)) {
        return true;
    }
    let sent = word_for(tables, label, Some((stream, word)));
    let fallback = word_for(tables, label, None);
    sent == fallback
}

/// Whether the source is alive for the label, and its words are usable.
fn is_good(arrivals: &ArrivalWatch, tables: &Tables, label: usize, source: usize, tick: u64) -> bool
    requires arrivals { AreArrivals tables.now arrivals.now }
    requires label { label < length tables.now.labels }
    requires source { source < length tables.now.streams }
    ensures { (now : List Event) → Follows tables.now arrivals.now now → tick ≡ tick_after now → IsGood tables.now label source now result }
{
    tables.valid();
    let row = tables.label(label);
    let life = arrivals.life(source);
    let maximum = tables.stream(source).maximum;
    life.is_good(tick, row.stale, maximum, row.format)
}

/// Whether the label copies its first source, where that is alive and its words are usable.
fn uses_first(
    arrivals: &ArrivalWatch,
    tables: &Tables,
    label: usize,
    choice: &Option<(usize, Word)>,
    tick: u64,
) -> bool
    requires arrivals { AreArrivals tables.now arrivals.now }
    requires label { label < length tables.now.labels }
    ensures { AnswersChoice tables.now arrivals.now label tick choice.now (UsesFirst tables.now label) result }
{
    tables.valid();
    let row = tables.label(label);
    let sources = row.sources.as_slice();
    let first = sources[0];
    if !is_good(arrivals, tables, label, first, tick) {
        return true;
    }
    match *choice {
        Some((stream, _)) => stream == first,
        None => false,
    }
}

/// Whether some source of the label is alive, and its words are usable.
fn any_good(arrivals: &ArrivalWatch, tables: &Tables, label: usize, tick: u64) -> bool
    requires arrivals { AreArrivals tables.now arrivals.now }
    requires label { label < length tables.now.labels }
    ensures { (now : List Event) → Follows tables.now arrivals.now now → tick ≡ tick_after now → IsAnyGood tables.now label now result }
{
    tables.valid();
    let row = tables.label(label);
    for source in row.sources.as_slice() {
        if is_good(arrivals, tables, label, *source, tick) {
            return true;
        }
    }
    false
}

/// Whether the label's word is usable, where some source is alive and its words are usable.
fn uses_any(
    arrivals: &ArrivalWatch,
    tables: &Tables,
    label: usize,
    choice: &Option<(usize, Word)>,
    tick: u64,
) -> bool
    requires arrivals { AreArrivals tables.now arrivals.now }
    requires label { label < length tables.now.labels }
    ensures { AnswersChoice tables.now arrivals.now label tick choice.now (UsesAny tables.now label) result }
{
    let format = tables.label(label).format;
    if word_for(tables, label, *choice).usable(format) {
        return true;
    }
    !any_good(arrivals, tables, label, tick)
}

/// Whether the word of the label that is emitted, if one is, is no older than the certificate lets it.
pub fn is_sent_young(
    replies: &ReplyWatch,
    arrivals: &ArrivalWatch,
    tables: &Tables,
    certificate: &Certificate,
    emitted: Option<usize>,
    chosen: &Option<(usize, Word)>,
) -> bool
    requires replies { AreReplies tables.now replies.now }
    requires arrivals { AreArrivals tables.now arrivals.now }
    requires there { IfSome emitted (λ x. x < length tables.now.labels) }
    requires chosen { IfSome emitted (λ x. chosen.now ≡ choice tables.now x (fresh_sources tables.now replies.now x)) }
    ensures { AnswersWhether tables.now replies.now arrivals.now
        (λ now. IfSome emitted (λ x. IsYoung tables.now x (slice_index (certificate_rows certificate.now).ages x) now)) result }
{
    match emitted {
        Some(label) => is_young(replies, arrivals, tables, certificate, label, chosen),
        None => true,
    }
}

/// Whether the label that is emitted, if one is, uses its live sources.
pub fn is_sent_live(
    replies: &ReplyWatch,
    arrivals: &ArrivalWatch,
    tables: &Tables,
    emitted: Option<usize>,
    chosen: &Option<(usize, Word)>,
) -> bool
    requires replies { AreReplies tables.now replies.now }
    requires arrivals { AreArrivals tables.now arrivals.now }
    requires there { IfSome emitted (λ x. x < length tables.now.labels) }
    requires chosen { IfSome emitted (λ x. chosen.now ≡ choice tables.now x (fresh_sources tables.now replies.now x)) }
    ensures { AnswersWhether tables.now replies.now arrivals.now
        (λ now. IfSome emitted (λ x. UsesFirst tables.now x now × UsesAny tables.now x now)) result }
{
    tables.valid();
    let Some(label) = emitted else {
        return true;
    };
    let tick = replies.tick();
    if !uses_first(arrivals, tables, label, chosen, tick) {
        return false;
    }
    uses_any(arrivals, tables, label, chosen, tick)
}
