//! `trace`: the arrivals of a capture among the steps of the steady run.
ghost use Rattle.std.specs.Prelude.{◌≡◌, ◌≢◌, [], ◌+◌, ◌-◌, ◌<◌, ◌≤◌, Err, IfErr, IfOk, IfSome, length, true};
ghost use Rattle.dc_answer.specs.Answer.{Any, Ends, EndsSome, LeavesSink, Raises, Reported, SettlesBy, after_all, sink_failures_of};
ghost use Rattle.dc_answer.specs.Inputs.{OnlyBehind, tables_end};
ghost use Rattle.dc_capture.specs.CaptureFaults.{capture_rule_code};
ghost use Rattle.dc_capture.specs.declared.capture_lines.TheConstants.{CAPTURE_LIMIT};
ghost use Rattle.dc_device.specs.Bytes.{Gathers};
ghost use Rattle.dc_device.specs.Device.{failures_of};
ghost use Rattle.dc_device.specs.Lines.{spelled};
ghost use Rattle.dc_device.specs.States.{AsksUpTo, CanFail, IsCountable};
ghost use Rattle.dc_document.specs.declared.limits.TheConstants.{TEXT_LIMIT};
ghost use Rattle.dc_run_trace.specs.Answer.{ReportsTrace, WritesCapture, WritesTrace};
ghost use Rattle.dc_run_trace.specs.Lines.{run_text};
ghost use Rattle.dc_run_trace.specs.Steps.{StopsBy, last_tick, steady_from, stop_answer, stop_end, up_to_word};
ghost use Rattle.dc_toml.specs.Reading.{tables_of};
ghost use Rattle.dc_trace.specs.Traces.{tick_at};

use crate::clock::{Clock, clock_or, least_time, tick_at};
use crate::texts::TraceTexts;
use dc_answer::{Exit, Failure, Outcome, Unloaded, end_at, end_with, load, report};
use dc_capture::{CAPTURE_LIMIT, CaptureLines, CaptureRule, CaptureStop, CapturedWord};
use dc_device::{LineWriter, Sink, Source};
use dc_document::TableFault;
use dc_print::{Text, print_table_fault};
use dc_tables::Tables;
use std::alloc::Global;

/// Ends with the first fault of the tables' text.
#[inline(never)]
fn end_unloaded<K: Sink>(
    fault: TableFault,
    writer: &mut LineWriter,
    sink: &mut K,
) -> Result<Outcome, Failure>
    requires { CanFail (K.state sink.old) }
    ensures bytes { Ends (K.state sink.old).contents writer.old (K.state sink.new).contents (tables_end fault) result }
    ensures empty { writer.new ≡ [] }
    ensures count { (K.state sink.new).failed ≡ (K.state sink.old).failed + failures_of result }
    ensures sink { IfErr result (λ e. e ≡ Failure.Sink) }
    ensures settled { SettlesBy result (K.state sink.new).last_failed (K.state sink.new).hidden }
{
    let mut text = Text::new();
    print_table_fault(&mut text, fault);
    match end_with(writer, sink, text.as_slice()) {
        Ok(()) => Ok(Outcome::Unreadable),
        Err(_) => Err(Failure::Sink),
    }
}

/// Writes the steps of the ticks from one on, up to another.
#[inline(always)]
fn write_ticks<K: Sink>(
    texts: &TraceTexts,
    tick: u64,
    next: u64,
    writer: &mut LineWriter,
    sink: &mut K,
) -> Result<(), Failure>
    requires { CanFail (K.state sink.old) }
    ensures bytes { Gathers (K.state sink.old).contents writer.old (K.state sink.new).contents writer.new
        (spelled (run_text texts.now (steady_from texts.now tick (next - tick)))) result }
    ensures count { (K.state sink.new).failed ≡ (K.state sink.old).failed + failures_of result }
    ensures sink { IfErr result (λ e. e ≡ Failure.Sink) }
    ensures last { IfErr result (λ e. (K.state sink.new).last_failed ≡ true) }
{
    for k in tick..next {
        match texts.write_steps(k, writer, sink) {
            Err(failure) => return Err(failure),
            Ok(()) => {}
        }
    }
    Ok(())
}

/// Writes the steps up to the tick of a word, and the word; where the trace stands then.
#[inline(always)]
fn say<K: Sink>(
    texts: &TraceTexts,
    clock: Clock,
    word: CapturedWord,
    writer: &mut LineWriter,
    sink: &mut K,
) -> Result<Clock, Failure>
    requires there { word.bus < length texts.now.buses }
    requires countable { CanFail (K.state sink.old) }
    ensures bytes { Gathers (K.state sink.old).contents writer.old (K.state sink.new).contents writer.new
        (spelled (run_text texts.now (up_to_word texts.now clock (word.time, (word.bus, word.word))))) result }
    ensures clock { IfOk result (λ next. next ≡ record { from = clock.from; tick = tick_at clock.from texts.now.tick_us word.time }) }
    ensures count { (K.state sink.new).failed ≡ (K.state sink.old).failed + failures_of result }
    ensures sink { IfErr result (λ e. e ≡ Failure.Sink) }
    ensures last { IfErr result (λ e. (K.state sink.new).last_failed ≡ true) }
{
    let tick = tick_at(clock.from, texts.tick_us(), word.time);
    match write_ticks(texts, clock.tick, tick, writer, sink) {
        Err(failure) => return Err(failure),
        Ok(()) => {}
    }
    match texts.write_word(word.bus, word.word, writer, sink) {
        Err(failure) => Err(failure),
        Ok(()) => Ok(Clock {
            from: clock.from,
            tick,
        }),
    }
}

/// The code of a rule that a line of a capture breaks.
fn code_of(rule: CaptureRule) -> &'static [u8]
    ensures text { result.now ≡ capture_rule_code rule }
    ensures short { length result.now ≤ 2 }
{
    rule.code().as_bytes()
}

/// Writes the steps of the last tick, where there is one.
fn write_last<K: Sink>(
    texts: &TraceTexts,
    clock: Option<Clock>,
    writer: &mut LineWriter,
    sink: &mut K,
) -> Result<(), Failure>
    requires { CanFail (K.state sink.old) }
    ensures bytes { Gathers (K.state sink.old).contents writer.old (K.state sink.new).contents writer.new
        (spelled (run_text texts.now (last_tick texts.now clock))) result }
    ensures count { (K.state sink.new).failed ≡ (K.state sink.old).failed + failures_of result }
    ensures sink { IfErr result (λ e. e ≡ Failure.Sink) }
    ensures last { IfErr result (λ e. (K.state sink.new).last_failed ≡ true) }
{
    match clock {
        None => Ok(()),
        Some(clock) => texts.write_steps(clock.tick, writer, sink),
    }
}

/// Pushes what waits and ends so, where the reader stopped.
fn end_by<K: Sink>(
    stop: CaptureStop,
    writer: &mut LineWriter,
    sink: &mut K,
) -> Result<Outcome, Failure>
    requires { CanFail (K.state sink.old) }
    ensures bytes { Ends (K.state sink.old).contents writer.old (K.state sink.new).contents (stop_end stop) result }
    ensures empty { writer.new ≡ [] }
    ensures count { (K.state sink.new).failed ≡ (K.state sink.old).failed + sink_failures_of result }
    ensures stops { StopsBy stop result }
    ensures settled { SettlesBy result (K.state sink.new).last_failed (K.state sink.new).hidden }
{
    if let CaptureStop::Fault(fault) = stop {
        return end_at(writer, sink, code_of(fault.rule), fault.line);
    }
    match writer.flush(sink) {
        Err(_) => Err(Failure::Sink),
        Ok(()) => match stop {
            CaptureStop::Broken => Err(Failure::Source),
            _ => Ok(Outcome::Done),
        },
    }
}

/// Ends the last tick, and ends.
fn end_last<K: Sink>(
    texts: &TraceTexts,
    clock: Option<Clock>,
    stop: CaptureStop,
    writer: &mut LineWriter,
    sink: &mut K,
) -> Result<Outcome, Failure>
    requires { CanFail (K.state sink.old) }
    ensures bytes { Ends (K.state sink.old).contents writer.old (K.state sink.new).contents
        (after_all (run_text texts.now (last_tick texts.now clock)) (stop_end stop)) result }
    ensures empty { writer.new ≡ [] }
    ensures count { (K.state sink.new).failed ≡ (K.state sink.old).failed + sink_failures_of result }
    ensures stops { StopsBy stop result }
    ensures settled { SettlesBy result (K.state sink.new).last_failed (K.state sink.new).hidden }
{
    match write_last(texts, clock, writer, sink) {
        Err(_) => Err(Failure::Sink),
        Ok(()) => end_by(stop, writer, sink),
    }
}

/// Ends the last tick, where the source did not fail, and ends.
#[inline(never)]
fn end_trace<K: Sink>(
    texts: &TraceTexts,
    clock: Option<Clock>,
    stop: CaptureStop,
    writer: &mut LineWriter,
    sink: &mut K,
) -> Result<Outcome, Failure>
    requires { CanFail (K.state sink.old) }
    ensures bytes { Ends (K.state sink.old).contents writer.old (K.state sink.new).contents (stop_answer texts.now clock stop) result }
    ensures empty { writer.new ≡ [] }
    ensures count { (K.state sink.new).failed ≡ (K.state sink.old).failed + sink_failures_of result }
    ensures stops { StopsBy stop result }
    ensures settled { SettlesBy result (K.state sink.new).last_failed (K.state sink.new).hidden }
{
    match stop {
        CaptureStop::Broken => end_by(stop, writer, sink),
        CaptureStop::End => end_last(texts, clock, stop, writer, sink),
        CaptureStop::Fault(_) => end_last(texts, clock, stop, writer, sink),
    }
}

/// Answers a capture, until its source or the sink fails.
fn answer<C: Source, K: Sink>(
    tables: &Tables,
    texts: &TraceTexts,
    from: Option<u64>,
    capture: &mut C,
    writer: &mut LineWriter,
    sink: &mut K,
) -> Result<Outcome, Failure>
    requires same { texts.now ≡ tables.now }
    requires new { writer.old ≡ [] }
    requires source { IsCountable (C.state capture.old) }
    requires sink { CanFail (K.state sink.old) }
    ensures answer { IfSome (C.state capture.old).remaining (λ text.
        WritesCapture tables.now from text (K.state sink.old).contents (K.state sink.new).contents result) }
    ensures some { EndsSome (K.state sink.old).contents (K.state sink.new).contents result }
    ensures settled { SettlesBy result (K.state sink.new).last_failed (K.state sink.new).hidden }
    ensures asks { AsksUpTo CAPTURE_LIMIT (C.state capture.old) (C.state capture.new) }
    ensures device { IfErr result (λ e. e ≢ Failure.Memory) }
    ensures empty { writer.new ≡ [] }
    ensures source { Raises (C.state capture.old).failed (C.state capture.new).failed result }
    ensures sink { (K.state sink.new).failed ≡ (K.state sink.old).failed + sink_failures_of result }
{
    tables.valid();
    let mut lines = CaptureLines::since(tables, CAPTURE_LIMIT, least_time(from));
    let mut clock = None;
    loop {
        match lines.advance() {
            None => match writer.flush(sink) {
                Err(_) => return Err(Failure::Sink),
                Ok(()) => lines.pull(capture, writer, sink),
            },
            Some(Err(stop)) => return end_trace(texts, clock, stop, writer, sink),
            Some(Ok(word)) => match say(
                texts,
                clock_or(clock, from, word.time),
                word,
                writer,
                sink,
            ) {
                Err(failure) => return Err(failure),
                Ok(next) => clock = Some(next),
            },
        }
    }
}

/// Answers a capture for these tables.
fn answer_for<C: Source, K: Sink>(
    alloc: Global,
    tables: Tables,
    from: Option<u64>,
    capture: &mut C,
    writer: &mut LineWriter,
    sink: &mut K,
) -> Result<Outcome, Failure>
    requires new { writer.old ≡ [] }
    requires source { IsCountable (C.state capture.old) }
    requires sink { CanFail (K.state sink.old) }
    ensures answer { IfSome (C.state capture.old).remaining (λ text.
        WritesCapture tables from text (K.state sink.old).contents (K.state sink.new).contents result) }
    ensures some { EndsSome (K.state sink.old).contents (K.state sink.new).contents result }
    ensures settled { SettlesBy result (K.state sink.new).last_failed (K.state sink.new).hidden }
    ensures asks { AsksUpTo CAPTURE_LIMIT (C.state capture.old) (C.state capture.new) }
    ensures memory { result ≡ Err Failure.Memory → sink.new ≡ sink.old }
    ensures empty { writer.new ≡ [] }
    ensures source { Raises (C.state capture.old).failed (C.state capture.new).failed result }
    ensures sink { (K.state sink.new).failed ≡ (K.state sink.old).failed + sink_failures_of result }
{
    match TraceTexts::of(alloc, &tables) {
        Err(_) => Err(Failure::Memory),
        Ok(texts) => answer(&tables, &texts, from, capture, writer, sink),
    }
}

/// Answers the texts of tables and of a capture, until something fails.
fn trace<T: Source, C: Source, K: Sink>(
    alloc: Global,
    from: Option<u64>,
    tables: &mut T,
    capture: &mut C,
    writer: &mut LineWriter,
    sink: &mut K,
) -> Result<Outcome, Failure>
    requires new { writer.old ≡ [] }
    requires tables { IsCountable (T.state tables.old) }
    requires source { IsCountable (C.state capture.old) }
    requires sink { CanFail (K.state sink.old) }
    ensures answer { IfSome (T.state tables.old).remaining (λ rows. IfSome (C.state capture.old).remaining (λ text.
        WritesTrace from rows text (K.state sink.old).contents (K.state sink.new).contents result)) }
    ensures some { EndsSome (K.state sink.old).contents (K.state sink.new).contents result }
    ensures settled { SettlesBy result (K.state sink.new).last_failed (K.state sink.new).hidden }
    ensures asks_tables { AsksUpTo TEXT_LIMIT (T.state tables.old) (T.state tables.new) }
    ensures asks_capture { AsksUpTo CAPTURE_LIMIT (C.state capture.old) (C.state capture.new) }
    ensures order { IfSome (T.state tables.old).remaining (λ rows. OnlyBehind (tables_of rows) (capture.new ≡ capture.old)) }
    ensures memory { result ≡ Err Failure.Memory → sink.new ≡ sink.old }
    ensures empty { writer.new ≡ [] }
    ensures source { Raises ((T.state tables.old).failed + (C.state capture.old).failed) ((T.state tables.new).failed + (C.state capture.new).failed) result }
    ensures sink { (K.state sink.new).failed ≡ (K.state sink.old).failed + sink_failures_of result }
{
    let tables = match load(alloc, tables) {
        Ok(tables) => tables,
        Err(Unloaded::Refused(fault)) => return end_unloaded(fault, writer, sink),
        Err(Unloaded::Failed(failure)) => return Err(failure),
    };
    answer_for(alloc, tables, from, capture, writer, sink)
}

/// Writes the trace of a capture for tables, of which the tables are read whole and first, the capture as it comes, up
/// to its first fault: its words in their ticks, from tick 0, which begins at `from` or with the first word, up to the
/// tick of the last one; in each tick the words that came in it, in order, and then the steps of the steady run. A
/// capture without a word is an empty trace; where the capture has a fault, its line stands behind the tick of the word
/// before it. Memory is by the tables.
///
/// It ends `Done` at the end of the capture, `Unreadable` where a text can't be read; `Failed` where a device failed or
/// memory was refused: `failed memory` alone was written, or `failed device` behind whole lines of a front of the
/// answer; where a push or flush failed, a front of one of these or of the answer. That call is the last of the sink,
/// and at most one pull of each source gives no byte. The capture is asked for only where the tables are in order.
pub fn run_trace<T: Source, C: Source, K: Sink>(
    alloc: Global,
    from: Option<u64>,
    tables: &mut T,
    capture: &mut C,
    sink: &mut K,
) -> Exit
    requires tables { IsCountable (T.state tables.old) }
    requires capture { IsCountable (C.state capture.old) }
    requires sink { CanFail (K.state sink.old) }
    ensures reports { IfSome (T.state tables.old).remaining (λ rows. IfSome (C.state capture.old).remaining (λ words.
        ReportsTrace from rows words (K.state sink.old).contents (K.state sink.new).contents
        ((T.state tables.old).failed + (C.state capture.old).failed) ((T.state tables.new).failed + (C.state capture.new).failed)
        (K.state sink.old).failed (K.state sink.new).failed result)) }
    ensures reported { Reported Any (K.state sink.old).contents (K.state sink.new).contents
        ((T.state tables.old).failed + (C.state capture.old).failed) ((T.state tables.new).failed + (C.state capture.new).failed)
        (K.state sink.old).failed (K.state sink.new).failed result }
    ensures asks_tables { AsksUpTo TEXT_LIMIT (T.state tables.old) (T.state tables.new) }
    ensures asks_capture { AsksUpTo CAPTURE_LIMIT (C.state capture.old) (C.state capture.new) }
    ensures order { IfSome (T.state tables.old).remaining (λ rows. OnlyBehind (tables_of rows) (capture.new ≡ capture.old)) }
    ensures left { LeavesSink (K.state sink.old).failed (K.state sink.new).failed (K.state sink.new).last_failed (K.state sink.new).hidden }
    ensures quiet { result ≢ Exit.Failed → (T.state tables.new).failed + (C.state capture.new).failed + (K.state sink.new).failed
        ≡ (T.state tables.old).failed + (C.state capture.old).failed + (K.state sink.old).failed }
{
    let mut writer = LineWriter::new();
    let ended = trace(alloc, from, tables, capture, &mut writer, sink);
    report(ended, &mut writer, sink)
}
