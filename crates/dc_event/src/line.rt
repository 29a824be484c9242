//! The event of a line.
ghost use Rattle.std.specs.Prelude.{◌≡◌, ◌∷◌, [], ◌<◌, IfSome};
ghost use Rattle.std.specs.Str.{bytes_eq};
ghost use Rattle.dc_event.specs.TraceText.{arrive_fields, line_event, number_named, route_fields, send_fields, tick_fields};
ghost use Rattle.dc_word.specs.Digits.{digit_in};
ghost use Rattle.dc_event.specs.WordText.{value_or_much, word_of};

use crate::event::Event;
use crate::fields::Fields;
use crate::trace::LineRule;
use dc_document::Name;
use dc_tables::Tables;
use dc_word::Word;

/// The value of each hexadecimal digit, and 2^32 for each other byte.
static HEX_VALUES: [u64; 256] = [
    4294967296, 4294967296, 4294967296, 4294967296, 4294967296, 4294967296, 4294967296, 4294967296,
    4294967296, 4294967296, 4294967296, 4294967296, 4294967296, 4294967296, 4294967296, 4294967296,
    4294967296, 4294967296, 4294967296, 4294967296, 4294967296, 4294967296, 4294967296, 4294967296,
    4294967296, 4294967296, 4294967296, 4294967296, 4294967296, 4294967296, 4294967296, 4294967296,
    4294967296, 4294967296, 4294967296, 4294967296, 4294967296, 4294967296, 4294967296, 4294967296,
    4294967296, 4294967296, 4294967296, 4294967296, 4294967296, 4294967296, 4294967296, 4294967296,
    0, 1, 2, 3, 4, 5, 6, 7, 8, 9, 4294967296, 4294967296, 4294967296, 4294967296, 4294967296,
    4294967296, 4294967296, 10, 11, 12, 13, 14, 15, 4294967296, 4294967296, 4294967296, 4294967296,
    4294967296, 4294967296, 4294967296, 4294967296, 4294967296, 4294967296, 4294967296, 4294967296,
    4294967296, 4294967296, 4294967296, 4294967296, 4294967296, 4294967296, 4294967296, 4294967296,
    4294967296, 4294967296, 4294967296, 4294967296, 4294967296, 4294967296, 10, 11, 12, 13, 14, 15,
    4294967296, 4294967296, 4294967296, 4294967296, 4294967296, 4294967296, 4294967296, 4294967296,
    4294967296, 4294967296, 4294967296, 4294967296, 4294967296, 4294967296, 4294967296, 4294967296,
    4294967296, 4294967296, 4294967296, 4294967296, 4294967296, 4294967296, 4294967296, 4294967296,
    4294967296, 4294967296, 4294967296, 4294967296, 4294967296, 4294967296, 4294967296, 4294967296,
    4294967296, 4294967296, 4294967296, 4294967296, 4294967296, 4294967296, 4294967296, 4294967296,
    4294967296, 4294967296, 4294967296, 4294967296, 4294967296, 4294967296, 4294967296, 4294967296,
    4294967296, 4294967296, 4294967296, 4294967296, 4294967296, 4294967296, 4294967296, 4294967296,
    4294967296, 4294967296, 4294967296, 4294967296, 4294967296, 4294967296, 4294967296, 4294967296,
    4294967296, 4294967296, 4294967296, 4294967296, 4294967296, 4294967296, 4294967296, 4294967296,
    4294967296, 4294967296, 4294967296, 4294967296, 4294967296, 4294967296, 4294967296, 4294967296,
    4294967296, 4294967296, 4294967296, 4294967296, 4294967296, 4294967296, 4294967296, 4294967296,
    4294967296, 4294967296, 4294967296, 4294967296, 4294967296, 4294967296, 4294967296, 4294967296,
    4294967296, 4294967296, 4294967296, 4294967296, 4294967296, 4294967296, 4294967296, 4294967296,
    4294967296, 4294967296, 4294967296, 4294967296, 4294967296, 4294967296, 4294967296, 4294967296,
    4294967296, 4294967296, 4294967296, 4294967296, 4294967296, 4294967296, 4294967296, 4294967296,
    4294967296, 4294967296, 4294967296, 4294967296, 4294967296, 4294967296, 4294967296, 4294967296,
    4294967296, 4294967296, 4294967296, 4294967296, 4294967296, 4294967296, 4294967296, 4294967296,
    4294967296, 4294967296, 4294967296, 4294967296, 4294967296, 4294967296, 4294967296, 4294967296,
    4294967296, 4294967296, 4294967296, 4294967296, 4294967296, 4294967296, 4294967296, 4294967296,
    4294967296,
];

/// The value of a hexadecimal digit, or 2^32.
#[inline(always)]
fn value_of(byte: u8) -> u64
    ensures value { result ≡ value_or_much (digit_in 16 byte) }
    ensures small { IfSome (digit_in 16 byte) (λ d. d < 16) }
{
    HEX_VALUES[byte as usize]
}

/// The word that a text writes: eight hexadecimal digits in either case, and nothing else.
#[tactic(auto, unfolding(crate::specs::WordText::word_of))]
#[inline(always)]
pub fn read_word(text: &[u8]) -> Option<Word>
    ensures { result ≡ word_of text.now }
{
    if text.len() != 8 {
        return None;
    }
    let mut n: u64 = 0;
    for c in text {
        n = n * 16 + value_of(*c);
    }
    if n < 4_294_967_296 {
        Some(Word(n as u32))
    } else {
        None
    }
}

/// Whether a field is this letter.
fn is_letter(field: &[u8], letter: u8) -> bool
    ensures { result ≡ bytes_eq field.now (letter ∷ []) }
{
    field == [letter].as_slice()
}

/// The number of the bus that a text names.
pub fn bus_named(tables: &Tables, text: &[u8]) -> Option<usize>
    ensures { result ≡ number_named tables.now.names.buses text.now }
{
    let name = Name::new(text)?;
    tables.bus_named(&name)
}

/// The number of the router that a text names.
pub fn router_named(tables: &Tables, text: &[u8]) -> Option<usize>
    ensures { result ≡ number_named tables.now.names.routers text.now }
{
    let name = Name::new(text)?;
    tables.router_named(&name)
}

/// The number of the output that a text names.
pub fn output_named(tables: &Tables, text: &[u8]) -> Option<usize>
    ensures { result ≡ number_named tables.now.names.outputs text.now }
{
    let name = Name::new(text)?;
    tables.output_named(&name)
}

/// After A: a bus and a word.
fn read_arrive(tables: &Tables, fields: &mut Fields) -> Result<Event, LineRule>
    ensures { result ≡ arrive_fields tables.now fields.old }
{
    let Some(bus) = fields.next() else {
        return Err(LineRule::FieldCountWrong);
    };
    let Some(word) = fields.next() else {
        return Err(LineRule::FieldCountWrong);
    };
    let None = fields.next() else {
        return Err(LineRule::FieldCountWrong);
    };
    let Some(bus) = bus_named(tables, bus) else {
        return Err(LineRule::NameUnknown);
    };
    let Some(word) = read_word(word) else {
        return Err(LineRule::NotAWord);
    };
    Ok(Event::Arrive(word, bus))
}

/// After R: a router.
fn read_route(tables: &Tables, fields: &mut Fields) -> Result<Event, LineRule>
    ensures { result ≡ route_fields tables.now fields.old }
{
    let Some(router) = fields.next() else {
        return Err(LineRule::FieldCountWrong);
    };
    let None = fields.next() else {
        return Err(LineRule::FieldCountWrong);
    };
    let Some(router) = router_named(tables, router) else {
        return Err(LineRule::NameUnknown);
    };
    Ok(Event::Route(router))
}

/// After S: an output.
fn read_send(tables: &Tables, fields: &mut Fields) -> Result<Event, LineRule>
    ensures { result ≡ send_fields tables.now fields.old }
{
    let Some(output) = fields.next() else {
        return Err(LineRule::FieldCountWrong);
    };
    let None = fields.next() else {
        return Err(LineRule::FieldCountWrong);
    };
    let Some(output) = output_named(tables, output) else {
        return Err(LineRule::NameUnknown);
    };
    Ok(Event::Send(output))
}

/// After T: nothing.
fn read_tick(fields: &mut Fields) -> Result<Event, LineRule>
    ensures { result ≡ tick_fields fields.old }
{
    let None = fields.next() else {
        return Err(LineRule::FieldCountWrong);
    };
    Ok(Event::Tick)
}

/// The event of a line of at most [`LINE_LIMIT`](dc_device::LINE_LIMIT) bytes, or the code of its fault.
#[tactic(auto, unfolding(crate::specs::TraceText::line_event))]
pub fn read_line(tables: &Tables, line: &[u8]) -> Result<Event, LineRule>
    ensures { result ≡ line_event tables.now line.now }
{
    let mut fields = Fields::of(line);
    let Some(kind) = fields.next() else {
        return Err(LineRule::KindUnknown);
    };
    if is_letter(kind, b'A') {
        return read_arrive(tables, &mut fields);
    }
    if is_letter(kind, b'R') {
        return read_route(tables, &mut fields);
    }
    if is_letter(kind, b'S') {
        return read_send(tables, &mut fields);
    }
    if is_letter(kind, b'T') {
        return read_tick(&mut fields);
    }
    Err(LineRule::KindUnknown)
}
