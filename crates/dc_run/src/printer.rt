//! The lines of steps, put piece by piece.
ghost use Rattle.std.specs.Prelude.{◌≡◌, ◌++◌, ◌+◌, ◌≤◌, length, take};
ghost use Rattle.std.specs.Fmt.{decimal};
ghost use Rattle.dc_document.specs.Names.{text_of};
ghost use Rattle.dc_document.specs.declared.limits.TheConstants.{NAME_LIMIT};
ghost use Rattle.dc_event.specs.ReplyText.{arrival_text, name_at, reply_line, routing_text, sending_text};
ghost use Rattle.dc_event.specs.WordText.{eight_hex};
ghost use Rattle.dc_run.specs.Printing.{Keeps, KeepsFirst};

use crate::steps::Step;
use dc_device::Pen;
use dc_document::{MOST_BUSES, MOST_OUTPUTS, MOST_ROUTERS, NAME_LIMIT, Name};
use dc_event::{Event, Reply};
use dc_print::{put_hex_8, put_number};
use dc_tables::Tables;
use dc_word::Word;
use std::marker::Model;

/// The room of a step's line, in bytes: this project's own number.
const LINE_ROOM: usize = 96;

/// The room of a tick's text, in bytes: the digits of the greatest number.
const TICK_ROOM: usize = 20;

/// The text of a name, at the front of its bytes.
#[derive(Clone, Copy, Debug, PartialEq, Eq)]
struct NameText {
    bytes: [u8; NAME_LIMIT],
    len: usize,
}

/// No text.
const NO_TEXT: NameText = NameText {
    bytes: [0; NAME_LIMIT],
    len: 0,
};

/// The text of a name, kept.
fn kept(name: &Name) -> NameText
    ensures { Keeps result (text_of name.now) }
{
    let text = name.text();
    let mut bytes = [0; NAME_LIMIT];
    bytes[..text.len()].copy_from_slice(text);
    NameText {
        bytes,
        len: text.len(),
    }
}

/// The texts of the buses' names.
fn bus_texts(tables: &Tables) -> [NameText; MOST_BUSES]
    ensures { KeepsFirst result tables.now.names.buses (length tables.now.buses) }
{
    tables.named();
    tables.valid();
    let mut texts = [NO_TEXT; MOST_BUSES];
    for bus in 0..tables.bus_count() {
        texts[bus] = kept(tables.bus_name(bus));
    }
    texts
}

/// The texts of the routers' names.
fn router_texts(tables: &Tables) -> [NameText; MOST_ROUTERS]
    ensures { KeepsFirst result tables.now.names.routers (length tables.now.routers) }
{
    tables.named();
    tables.valid();
    let mut texts = [NO_TEXT; MOST_ROUTERS];
    for router in 0..tables.router_count() {
        texts[router] = kept(tables.router_name(router));
    }
    texts
}

/// The texts of the outputs' names.
fn output_texts(tables: &Tables) -> [NameText; MOST_OUTPUTS]
    ensures { KeepsFirst result tables.now.names.outputs (length tables.now.outputs) }
{
    tables.named();
    tables.valid();
    let mut texts = [NO_TEXT; MOST_OUTPUTS];
    for output in 0..tables.output_count() {
        texts[output] = kept(tables.output_name(output));
    }
    texts
}

/// Tables, and the texts of the names of those that make steps. A clause sees the tables.
#[derive(Drop)]
pub struct NameTexts<'t> {
    tables: &'t Tables,
    buses: [NameText; MOST_BUSES],
    routers: [NameText; MOST_ROUTERS],
    outputs: [NameText; MOST_OUTPUTS],
}

impl<'t> Model for NameTexts<'t> {
    ghost use Rattle.std.specs.Prelude.{length};
    ghost use Rattle.dc_tables.specs.TableRows.{TableRows};
    ghost use Rattle.dc_run.specs.Printing.{KeepsFirst};

    ghost Value = { TableRows };

    ghost view = { λ t. t.tables.now };

    ghost invariant = { λ t. KeepsFirst t.buses t.tables.now.names.buses (length t.tables.now.buses)
        × KeepsFirst t.routers t.tables.now.names.routers (length t.tables.now.routers)
        × KeepsFirst t.outputs t.tables.now.names.outputs (length t.tables.now.outputs) };
}

/// Puts a name's text at the end.
#[inline(always)]
fn put_text(line: &mut Pen<LINE_ROOM>, name: &NameText)
    requires kept { name.now.len ≤ NAME_LIMIT }
    requires room { length line.old + NAME_LIMIT ≤ LINE_ROOM }
    ensures items { line.new ≡ line.old ++ take name.now.len name.now.bytes }
    ensures len { length line.new ≤ length line.old + NAME_LIMIT }
{
    line.put_front(&name.bytes, name.len);
}

impl<'t> NameTexts<'t> {
    /// The texts of the names of these tables.
    pub fn of(tables: &'t Tables) -> Self
        ensures { result ≡ tables.now }
    {
        NameTexts {
            tables,
            buses: bus_texts(tables),
            routers: router_texts(tables),
            outputs: output_texts(tables),
        }
    }

    /// Puts the name of a bus at the end.
    #[inline(always)]
    fn put_bus(&self, line: &mut Pen<LINE_ROOM>, bus: usize)
        requires { length line.old + NAME_LIMIT ≤ LINE_ROOM }
        ensures items { line.new ≡ line.old ++ name_at self.now.names.buses bus }
        ensures len { length line.new ≤ length line.old + NAME_LIMIT }
    {
        self.tables.named();
        self.tables.valid();
        if bus >= self.tables.bus_count() {
            return;
        }
        let name = self.buses[bus];
        put_text(line, &name);
    }

    /// Puts the name of a router at the end.
    #[inline(always)]
    fn put_router(&self, line: &mut Pen<LINE_ROOM>, router: usize)
        requires { length line.old + NAME_LIMIT ≤ LINE_ROOM }
        ensures items { line.new ≡ line.old ++ name_at self.now.names.routers router }
        ensures len { length line.new ≤ length line.old + NAME_LIMIT }
    {
        self.tables.named();
        self.tables.valid();
        if router >= self.tables.router_count() {
            return;
        }
        let name = self.routers[router];
        put_text(line, &name);
    }

    /// Puts the name of an output at the end.
    #[inline(always)]
    fn put_output(&self, line: &mut Pen<LINE_ROOM>, output: usize)
        requires { length line.old + NAME_LIMIT ≤ LINE_ROOM }
        ensures items { line.new ≡ line.old ++ name_at self.now.names.outputs output }
        ensures len { length line.new ≤ length line.old + NAME_LIMIT }
    {
        self.tables.named();
        self.tables.valid();
        if output >= self.tables.output_count() {
            return;
        }
        let name = self.outputs[output];
        put_text(line, &name);
    }
}

/// Puts words and an ARINC word at the end.
#[inline(always)]
fn put_with_word<const N: usize>(line: &mut Pen<LINE_ROOM>, words: &[u8; N], word: Word)
    requires { length line.old + N + 8 ≤ LINE_ROOM }
    ensures { line.new ≡ line.old ++ words.now ++ eight_hex word }
{
    line.put(words);
    put_hex_8(line, word.bits());
}

/// Puts an arrival's reply at the end.
#[inline(always)]
fn put_arrival(line: &mut Pen<LINE_ROOM>, word: Word, reply: Reply)
    requires { length line.old + 30 ≤ LINE_ROOM }
    ensures { line.new ≡ line.old ++ arrival_text word reply }
{
    match reply {
        Reply::Queued(backlog) => {
            line.put(b" queued ");
            put_number(line, u64::from(backlog));
        }
        Reply::BadParity => put_with_word(line, b" parity ", word),
        Reply::Undeclared => put_with_word(line, b" undeclared ", word),
        Reply::TooEarly => put_with_word(line, b" early ", word),
        Reply::Overrun => put_with_word(line, b" overrun ", word),
        Reply::Latched => put_with_word(line, b" latched ", word),
        _ => {}
    }
}

/// Puts a routing step's reply at the end.
#[inline(always)]
fn put_routing(line: &mut Pen<LINE_ROOM>, names: &NameTexts, reply: Reply)
    requires { length line.old + 40 ≤ LINE_ROOM }
    ensures { line.new ≡ line.old ++ routing_text names.now reply }
{
    match reply {
        Reply::Took(word, bus) => {
            line.put(b" took ");
            names.put_bus(line, bus);
            put_with_word(line, b" ", word);
        }
        Reply::Empty(bus) => {
            line.put(b" empty ");
            names.put_bus(line, bus);
        }
        _ => {}
    }
}

/// Puts a send's reply at the end.
#[inline(always)]
fn put_sending(line: &mut Pen<LINE_ROOM>, reply: Reply)
    requires { length line.old + 30 ≤ LINE_ROOM }
    ensures { line.new ≡ line.old ++ sending_text reply }
{
    match reply {
        Reply::Sent(_, word) => put_with_word(line, b" ", word),
        Reply::Idle => line.put(b" idle"),
        _ => {}
    }
}

/// A tick and its text, at the front of its digits. A clause sees it as the tick.
#[derive(Drop)]
struct TickText {
    tick: u64,
    digits: [u8; TICK_ROOM],
    len: usize,
}

impl Model for TickText {
    ghost use Rattle.std.specs.Prelude.{◌≡◌, ℕ, ◌≤◌, take};
    ghost use Rattle.std.specs.Fmt.{decimal};

    ghost Value = { ℕ };

    ghost view = { λ t. t.tick };

    ghost invariant = { λ t. (t.len ≤ 20) × (take t.len t.digits ≡ decimal t.tick) };
}

impl TickText {
    /// A tick with its text.
    fn of(tick: u64) -> Self
        ensures { result ≡ tick }
    {
        let mut pen = Pen::<TICK_ROOM>::new();
        put_number(&mut pen, tick);
        let text = pen.text();
        let mut digits = [0; TICK_ROOM];
        digits[..text.len()].copy_from_slice(text);
        TickText {
            tick,
            digits,
            len: text.len(),
        }
    }

    /// Keeps the text of another tick, which is made anew, or of the same.
    #[inline(always)]
    fn keep(&mut self, tick: u64)
        ensures { self.new ≡ tick }
    {
        if self.tick != tick {
            *self = TickText::of(tick);
        }
    }

    /// Puts the text at the end.
    #[inline(always)]
    fn put(&self, line: &mut Pen<LINE_ROOM>)
        requires { length line.old + TICK_ROOM ≤ LINE_ROOM }
        ensures items { line.new ≡ line.old ++ decimal self.now }
        ensures len { length line.new ≤ length line.old + TICK_ROOM }
    {
        line.put_front(&self.digits, self.len);
    }
}

/// A line, and the text of the tick of the last one.
#[derive(Drop)]
pub struct Printer {
    /// The line, without its line feed.
    pub line: Pen<LINE_ROOM>,
    tick: TickText,
}

impl Printer {
    /// No line.
    pub fn new() -> Self {
        Printer {
            line: Pen::new(),
            tick: TickText::of(0),
        }
    }

    /// The line of a step.
    #[tactic(auto, unfolding(dc_event::specs::ReplyText::reply_line))]
    #[inline(always)]
    pub fn print(&mut self, names: &NameTexts, step: Step)
        ensures { self.new.line ≡ reply_line names.now step.tick step.event step.reply }
    {
        let Step { tick, event, reply } = step;
        self.tick.keep(tick);
        self.line.clear();
        self.tick.put(&mut self.line);
        match event {
            Event::Tick => self.line.put(b" tick"),
            Event::Arrive(word, bus) => {
                self.line.put(b" ");
                names.put_bus(&mut self.line, bus);
                put_arrival(&mut self.line, word, reply);
            }
            Event::Route(router) => {
                self.line.put(b" ");
                names.put_router(&mut self.line, router);
                put_routing(&mut self.line, names, reply);
            }
            Event::Send(output) => {
                self.line.put(b" ");
                names.put_output(&mut self.line, output);
                put_sending(&mut self.line, reply);
            }
        }
    }
}
