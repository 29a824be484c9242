//! The event of a line that stands whole among the bytes ahead.
ghost use Rattle.std.specs.Prelude.{◌≡◌, ◌<◌, ◌≤◌, ◌+◌, length, take, drop, slice_index, IfSome, Some};
ghost use Rattle.dc_event.specs.Ahead.{StartsWithLine};
ghost use Rattle.dc_event.specs.WordText.{word_of};

use crate::event::Event;
use crate::line::read_word;
use crate::names::KnownNames;
use dc_word::Word;

/// The word that stands between a space and a line feed, where bytes begin so.
#[inline(always)]
fn word_ahead(text: &[u8]) -> Option<Word>
    ensures { IfSome result (λ word. (10 ≤ length text.now) × (slice_index text.now 0 ≡ 32) × (word_of (take 8 (drop 1 text.now)) ≡ Some word)
        × (slice_index text.now 9 ≡ 10)) }
{
    if text.len() < 10 || text[0] != b' ' || text[9] != b'\n' {
        return None;
    }
    read_word(&text[1..9])
}

/// A tick ends, where the bytes begin with T and a line feed, and how many bytes that takes.
#[inline(always)]
fn tick_ahead(names: &KnownNames, held: &[u8]) -> Option<(Event, usize)>
    requires long { 2 ≤ length held.now }
    requires kind { slice_index held.now 0 ≡ 84 }
    ensures { IfSome result (λ ahead. StartsWithLine names.now held.now ahead.0 ahead.1) }
{
    if held[1] != b'\n' {
        return None;
    }
    Some((Event::Tick, 2))
}

/// The step of a router, where the bytes begin with R and its name alone in a line, and how many bytes that takes.
#[inline(always)]
fn route_ahead(names: &KnownNames, held: &[u8]) -> Option<(Event, usize)>
    requires long { 2 ≤ length held.now }
    requires kind { slice_index held.now 0 ≡ 82 }
    ensures { IfSome result (λ ahead. StartsWithLine names.now held.now ahead.0 ahead.1) }
{
    if held[1] != b' ' {
        return None;
    }
    let text = &held[2..];
    let (router, letters) = names.any_router_ahead(text)?;
    if text[letters] != b'\n' {
        return None;
    }
    Some((Event::Route(router), letters + 3))
}

/// The step of an output, where the bytes begin with S and its name alone in a line, and how many bytes that takes.
#[inline(always)]
fn send_ahead(names: &KnownNames, held: &[u8]) -> Option<(Event, usize)>
    requires long { 2 ≤ length held.now }
    requires kind { slice_index held.now 0 ≡ 83 }
    ensures { IfSome result (λ ahead. StartsWithLine names.now held.now ahead.0 ahead.1) }
{
    if held[1] != b' ' {
        return None;
    }
    let text = &held[2..];
    let (output, letters) = names.any_output_ahead(text)?;
    if text[letters] != b'\n' {
        return None;
    }
    Some((Event::Send(output), letters + 3))
}

/// An arrival, where the bytes begin with A, a bus and a word alone in a line, and how many bytes that takes.
#[inline(always)]
fn arrival_ahead(names: &KnownNames, held: &[u8]) -> Option<(Event, usize)>
    requires long { 2 ≤ length held.now }
    requires kind { slice_index held.now 0 ≡ 65 }
    ensures { IfSome result (λ ahead. StartsWithLine names.now held.now ahead.0 ahead.1) }
{
    if held[1] != b' ' {
        return None;
    }
    let text = &held[2..];
    let (bus, letters) = names.any_bus_ahead(text)?;
    let word = word_ahead(&text[letters..])?;
    Some((Event::Arrive(word, bus), letters + 12))
}

/// The event of the line that the bytes begin with, where it is well formed, and how many bytes it takes with its
/// line feed. `None` of some well-formed lines too: of one that does not stand whole among the bytes, of a name that has
/// lost its place, and of a name of 9 to 15 letters at the end of the bytes.
#[inline(always)]
pub fn event_ahead(names: &KnownNames, held: &[u8]) -> Option<(Event, usize)>
    ensures { IfSome result (λ ahead. StartsWithLine names.now held.now ahead.0 ahead.1) }
{
    if held.len() < 2 {
        return None;
    }
    let kind = held[0];
    if kind == b'R' {
        return route_ahead(names, held);
    }
    if kind == b'S' {
        return send_ahead(names, held);
    }
    if kind == b'T' {
        return tick_ahead(names, held);
    }
    if kind == b'A' {
        return arrival_ahead(names, held);
    }
    None
}
