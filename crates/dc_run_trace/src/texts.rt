//! The lines of a trace.
ghost use Rattle.std.specs.Prelude.{◌≡◌, ◌++◌, ◌∷◌, [], ◌+◌, ◌*◌, ◌%◌, ◌<◌, ◌≤◌, ◌==◌, IfErr, IfOk, length, replicate, take, codes, true};
ghost use Rattle.dc_device.specs.Bytes.{Gathers};
ghost use Rattle.dc_device.specs.Device.{failures_of};
ghost use Rattle.dc_device.specs.Lines.{spelled};
ghost use Rattle.dc_device.specs.States.{CanFail};
ghost use Rattle.dc_document.specs.Names.{text_of};
ghost use Rattle.dc_event.specs.Steady.{each_below, output_steps, router_steps, steady_tick};
ghost use Rattle.dc_event.specs.declared.event.Event.TheVariants.{Arrive, Send};
ghost use Rattle.dc_run_trace.specs.Lines.{event_text, run_text};
ghost use Rattle.dc_run_trace.specs.Names.{Keeps, KeepsFirst};
ghost use Rattle.dc_tables.specs.TableRows.{output_row};

use dc_answer::Failure;
use dc_device::{LineWriter, Pen, Sink};
use dc_document::{MOST_BUSES, MOST_OUTPUTS, NAME_LIMIT, Name};
use dc_print::put_hex_8;
use dc_tables::Tables;
use dc_word::Word;
use std::alloc::{AllocError, Global};
use std::marker::Model;

/// The room of a word's line, in bytes: this project's own number.
const WORD_LINE: usize = 32;

/// The room of the sends of a tick and of its end, in bytes: this project's own number.
const SENDS_ROOM: usize = 640;

/// The text of a name, at the front of its bytes.
#[derive(Clone, Copy, Debug, PartialEq, Eq)]
pub struct NameText {
    bytes: [u8; NAME_LIMIT],
    len: usize,
}

/// No text.
const NO_TEXT: NameText = NameText {
    bytes: [0; NAME_LIMIT],
    len: 0,
};

/// The text of a name, kept.
fn kept(name: &Name) -> NameText
    ensures { Keeps result (text_of name.now) }
{
    let text = name.text();
    let mut bytes = [0; NAME_LIMIT];
    bytes[..text.len()].copy_from_slice(text);
    NameText {
        bytes,
        len: text.len(),
    }
}

/// The texts of the buses' names.
fn bus_texts(tables: &Tables) -> [NameText; MOST_BUSES]
    ensures { KeepsFirst result tables.now.names.buses (length tables.now.buses) }
{
    tables.named();
    tables.valid();
    let mut texts = [NO_TEXT; MOST_BUSES];
    for bus in 0..tables.bus_count() {
        texts[bus] = kept(tables.bus_name(bus));
    }
    texts
}

/// The texts of the outputs' names.
fn output_texts(tables: &Tables) -> [NameText; MOST_OUTPUTS]
    ensures { KeepsFirst result tables.now.names.outputs (length tables.now.outputs) }
{
    tables.named();
    tables.valid();
    let mut texts = [NO_TEXT; MOST_OUTPUTS];
    for output in 0..tables.output_count() {
        texts[output] = kept(tables.output_name(output));
    }
    texts
}

/// Puts the line of a router's step at the end.
fn add_step(lines: &mut Vec<u8>, name: &Name) -> Result<(), AllocError>
    ensures { IfOk result (λ _. lines.new.items ≡ lines.old.items ++ ((codes "R " ++ text_of name.now) ++ 10 ∷ [])) }
{
    lines.extend_from_slice(b"R ")?;
    lines.extend_from_slice(name.text())?;
    lines.extend_from_slice(b"\n")
}

/// Puts the lines of so many steps of a router at the end.
fn add_steps(lines: &mut Vec<u8>, name: &Name, most: u32) -> Result<(), AllocError>
    ensures { IfOk result (λ _. lines.new.items ≡ lines.old.items ++ spelled (replicate most (codes "R " ++ text_of name.now))) }
{
    for _step in 0..most {
        match add_step(lines, name) {
            Err(refused) => return Err(refused),
            Ok(()) => {}
        }
    }
    Ok(())
}

/// The lines of all routers' steps in a tick.
#[tactic(auto, using(crate::proofs::Spelling::router_more))]
fn router_lines(alloc: Global, tables: &Tables) -> Result<Vec<u8>, AllocError>
    ensures { IfOk result (λ lines. lines.items ≡ spelled (run_text tables.now (each_below (router_steps tables.now) (length tables.now.routers)))) }
{
    tables.named();
    let mut lines = Vec::new(alloc);
    for router in 0..tables.router_count() {
        add_steps(
            &mut lines,
            tables.router_name(router),
            tables.router(router).most,
        )?;
    }
    Ok(lines)
}

/// Whether an output sends in a tick.
#[inline(always)]
fn sends_in(tables: &Tables, output: usize, tick: u64) -> bool
    requires { output < length tables.now.outputs }
    ensures { result ≡ (tick % (output_row tables.now output).gap == 0) }
{
    tables.valid();
    tick % u64::from(tables.output(output).gap) == 0
}

/// Puts the line of a send at the end.
#[inline(always)]
fn put_send(
    tables: &Tables,
    outputs: &[NameText; MOST_OUTPUTS],
    output: usize,
    sends: &mut Pen<SENDS_ROOM>,
)
    requires kept { KeepsFirst outputs.now tables.now.names.outputs (length tables.now.outputs) }
    requires there { output < length tables.now.outputs }
    requires room { length sends.old + (NAME_LIMIT + 3) ≤ SENDS_ROOM }
    ensures items { sends.new ≡ sends.old ++ (event_text tables.now (Send output) ++ 10 ∷ []) }
    ensures len { length sends.new ≤ length sends.old + (NAME_LIMIT + 3) }
{
    tables.valid();
    let name = outputs[output];
    sends.put(b"S ");
    sends.put_front(&name.bytes, name.len);
    sends.put(b"\n");
}

/// Puts the lines of the sends of a tick into an empty pen.
fn put_sends(
    tables: &Tables,
    outputs: &[NameText; MOST_OUTPUTS],
    tick: u64,
    sends: &mut Pen<SENDS_ROOM>,
)
    requires kept { KeepsFirst outputs.now tables.now.names.outputs (length tables.now.outputs) }
    requires empty { sends.old ≡ [] }
    ensures items { sends.new ≡ spelled (run_text tables.now (each_below (output_steps tables.now tick) (length tables.now.outputs))) }
    ensures len { length sends.new ≤ MOST_OUTPUTS * (NAME_LIMIT + 3) }
{
    tables.valid();
    for output in 0..tables.output_count() {
        if !sends_in(tables, output, tick) {
            continue;
        }
        put_send(tables, outputs, output, sends);
    }
}

/// Tables, and the texts of which the lines of a trace are made. A clause sees the tables.
#[derive(Drop)]
pub struct TraceTexts<'t> {
    tables: &'t Tables,
    routers: Vec<u8>,
    buses: [NameText; MOST_BUSES],
    outputs: [NameText; MOST_OUTPUTS],
}

impl<'t> Model for TraceTexts<'t> {
    ghost use Rattle.std.specs.Prelude.{◌≡◌, length};
    ghost use Rattle.dc_device.specs.Lines.{spelled};
    ghost use Rattle.dc_event.specs.Steady.{each_below, router_steps};
    ghost use Rattle.dc_run_trace.specs.Lines.{run_text};
    ghost use Rattle.dc_run_trace.specs.Names.{KeepsFirst};
    ghost use Rattle.dc_tables.specs.TableRows.{TableRows};

    ghost Value = { TableRows };

    ghost view = { λ x. x.tables.now };

    ghost invariant = { λ x. (x.routers.items ≡ spelled (run_text x.tables.now (each_below (router_steps x.tables.now) (length x.tables.now.routers))))
        × KeepsFirst x.buses x.tables.now.names.buses (length x.tables.now.buses)
        × KeepsFirst x.outputs x.tables.now.names.outputs (length x.tables.now.outputs) };
}

impl<'t> TraceTexts<'t> {
    /// The texts of these tables.
    ///
    /// # Errors
    /// `AllocError` where memory was refused.
    pub fn of(alloc: Global, tables: &'t Tables) -> Result<Self, AllocError>
        ensures { IfOk result (λ texts. texts ≡ tables.now) }
    {
        let routers = router_lines(alloc, tables)?;
        Ok(TraceTexts {
            tables,
            routers,
            buses: bus_texts(tables),
            outputs: output_texts(tables),
        })
    }

    /// The length of a tick, in microseconds.
    #[inline(always)]
    pub fn tick_us(&self) -> u32
        ensures tick { result ≡ self.now.tick_us }
        ensures some { 1 ≤ result }
    {
        self.tables.valid();
        self.tables.tick_us()
    }

    /// The lines of the sends of a tick, and the one that ends it.
    #[inline(always)]
    fn sends_and_end(&self, tick: u64) -> Pen<SENDS_ROOM>
        ensures { result ≡ spelled (run_text self.now (each_below (output_steps self.now tick) (length self.now.outputs))) ++ codes "T" }
    {
        let mut sends = Pen::<SENDS_ROOM>::new();
        put_sends(self.tables, &self.outputs, tick, &mut sends);
        sends.put(b"T");
        sends
    }

    /// Writes the lines of the steps of a tick.
    ///
    /// # Errors
    /// `Sink` where the sink failed.
    pub fn write_steps<K: Sink>(
        &self,
        tick: u64,
        writer: &mut LineWriter,
        sink: &mut K,
    ) -> Result<(), Failure>
        requires { CanFail (K.state sink.old) }
        ensures bytes { Gathers (K.state sink.old).contents writer.old (K.state sink.new).contents writer.new
            (spelled (run_text self.now (steady_tick self.now tick))) result }
        ensures count { (K.state sink.new).failed ≡ (K.state sink.old).failed + failures_of result }
        ensures sink { IfErr result (λ e. e ≡ Failure.Sink) }
        ensures last { IfErr result (λ e. (K.state sink.new).last_failed ≡ true) }
    {
        let sends = self.sends_and_end(tick);
        match writer.line_of(sink, self.routers.as_slice(), sends.text()) {
            Ok(()) => Ok(()),
            Err(_) => Err(Failure::Sink),
        }
    }

    /// The line of a word.
    #[inline(always)]
    fn word_line(&self, bus: usize, word: Word) -> Pen<WORD_LINE>
        requires { bus < length self.now.buses }
        ensures { result ≡ event_text self.now (Arrive word bus) }
    {
        self.tables.valid();
        let name = self.buses[bus];
        let mut line = Pen::<WORD_LINE>::new();
        line.put(b"A ");
        line.put_front(&name.bytes, name.len);
        line.put(b" ");
        put_hex_8(&mut line, word.bits());
        line
    }

    /// Writes the line of a word.
    ///
    /// # Errors
    /// `Sink` where the sink failed.
    #[inline(always)]
    pub fn write_word<K: Sink>(
        &self,
        bus: usize,
        word: Word,
        writer: &mut LineWriter,
        sink: &mut K,
    ) -> Result<(), Failure>
        requires there { bus < length self.now.buses }
        requires countable { CanFail (K.state sink.old) }
        ensures bytes { Gathers (K.state sink.old).contents writer.old (K.state sink.new).contents writer.new
            (event_text self.now (Arrive word bus) ++ 10 ∷ []) result }
        ensures count { (K.state sink.new).failed ≡ (K.state sink.old).failed + failures_of result }
        ensures sink { IfErr result (λ e. e ≡ Failure.Sink) }
        ensures last { IfErr result (λ e. (K.state sink.new).last_failed ≡ true) }
    {
        let line = self.word_line(bus, word);
        match writer.line_by(sink, &line) {
            Ok(()) => Ok(()),
            Err(_) => Err(Failure::Sink),
        }
    }
}
