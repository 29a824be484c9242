//! Which source a label copies, and the word that it sends.

ghost use Rattle.std.specs.Prelude.{◌≡◌, ℕ, ◌<◌, length};
ghost use Rattle.dc_route.specs.Choosing.{fresh_now, first_word, chosen_now};

use crate::latest::Latest;
use dc_tables::Tables;
use dc_word::Word;

/// A source's latest word, where it is fresh: its bus has not latched, and the word was routed at most `stale` ticks
/// ago.
fn fresh_word(
    tables: &Tables,
    latest: &Latest,
    latched: &[bool],
    stale: u32,
    stream: usize,
    tick: u64,
) -> Option<Word>
    requires there { stream < length tables.now.streams }
    requires latest { length latest.now ≡ length tables.now.streams }
    requires latched { length latched.now ≡ length tables.now.buses }
    ensures { result ≡ first_word (fresh_now tables.now latched.now latest.now tick stale stream) }
{
    if latched[tables.bus_of(stream)] {
        return None;
    }
    match latest.get(stream) {
        Some((word, routed)) if tick.saturating_sub(routed) <= u64::from(stale) => Some(word),
        _ => None,
    }
}

/// The word that the label sends in this tick: a copy of the first fresh source by priority whose word is usable, else
/// of the first fresh one, else the label's fallback. `latched` says of each bus whether it has latched.
pub fn choose(tables: &Tables, latest: &Latest, latched: &[bool], label: usize, tick: u64) -> Word
    requires there { label < length tables.now.labels }
    requires latest { length latest.now ≡ length tables.now.streams }
    requires latched { length latched.now ≡ length tables.now.buses }
    ensures { result ≡ chosen_now tables.now latched.now latest.now tick label }
{
    tables.valid();
    let row = tables.label(label);
    let mut first = None;
    for source in row.sources.as_slice() {
        if let Some(word) = fresh_word(tables, latest, latched, row.stale, *source, tick) {
            if word.usable(row.format) {
                return Word::copy_as(word, row.label, row.sdi);
            }
            if first.is_none() {
                first = Some(word);
            }
        }
    }
    match first {
        Some(word) => Word::copy_as(word, row.label, row.sdi),
        None => Word::fallback(row.label, row.sdi),
    }
}
