//! `replay`: a recorded trace through the concentrator.
ghost use Rattle.std.specs.Prelude.{◌≡◌, ◌≢◌, [], ◌∷◌, ◌++◌, ◌+◌, ◌-◌, ◌<◌, ◌≤◌, ◌^◌, ◌||◌, cond, length, IfErr, IfOk, IfSome, Err, true};
ghost use Rattle.dc_toml.specs.Reading.{tables_of};
ghost use Rattle.dc_device.specs.Bytes.{Gathers};
ghost use Rattle.dc_device.specs.Device.{failures_of};
ghost use Rattle.dc_device.specs.Lines.{spelled};
ghost use Rattle.dc_device.specs.States.{AsksUpTo, CanFail, IsCountable};
ghost use Rattle.dc_core.specs.CoreSteps.{rows_of};
ghost use Rattle.dc_event.specs.ReplyText.{is_reported, reply_line};
ghost use Rattle.dc_event.specs.TraceFaults.{line_rule_code};
ghost use Rattle.dc_document.specs.declared.limits.TheConstants.{TEXT_LIMIT};
ghost use Rattle.dc_answer.specs.Answer.{Any, Ends, EndsSome, LeavesSink, Raises, SettlesBy, Reported, sink_failures_of};
ghost use Rattle.dc_answer.specs.Inputs.{OnlyBehind, tables_end};
ghost use Rattle.dc_run.specs.Limits.{trace_limit};
ghost use Rattle.dc_run.specs.Refusals.{StopsBy, refused, stop_end};
ghost use Rattle.dc_run.specs.Replay.{IsPrompt, ReportsReplay, ShowsTrace, WritesReplay, WritesTrace};
ghost use Rattle.dc_run.specs.Steps.{StandsAt};

use crate::limits::limit_of;
use crate::printer::{NameTexts, Printer};
use crate::replies::{is_printed, print_refused};
use crate::steps::{Progress, Refusal, Step};
use dc_answer::{Exit, Failure, Outcome, Unloaded, end_at, end_with, load, report};
use dc_core::Core;
use dc_device::{LineWriter, Sink, Source};
use dc_document::TableFault;
use dc_event::{LineRule, TraceLines, TraceStop};
use dc_print::{Text, print_table_fault};
use dc_tables::Tables;
use std::alloc::Global;
use std::sync::Arc;

/// The code of a rule that a line breaks.
pub fn code_of(rule: LineRule) -> &'static [u8]
    ensures text { result.now ≡ line_rule_code rule }
    ensures short { length result.now ≤ 2 }
{
    rule.code().as_bytes()
}

/// Pushes what waits, where the trace tells no more events.
#[inline(never)]
fn end_by<K: Sink>(
    stop: TraceStop,
    writer: &mut LineWriter,
    sink: &mut K,
) -> Result<Outcome, Failure>
    requires { CanFail (K.state sink.old) }
    ensures bytes { Ends (K.state sink.old).contents writer.old (K.state sink.new).contents (stop_end stop) result }
    ensures empty { writer.new ≡ [] }
    ensures count { (K.state sink.new).failed ≡ (K.state sink.old).failed + sink_failures_of result }
    ensures stops { StopsBy stop result }
    ensures settled { SettlesBy result (K.state sink.new).last_failed (K.state sink.new).hidden }
    ensures answered { (K.state sink.new).answered ≡ (K.state sink.old).answered }
{
    if let TraceStop::Fault(fault) = stop {
        return end_at(writer, sink, code_of(fault.rule), fault.line);
    }
    match writer.flush(sink) {
        Err(_) => Err(Failure::Sink),
        Ok(()) => match stop {
            TraceStop::Broken => Err(Failure::Source),
            _ => Ok(Outcome::Done),
        },
    }
}

/// Ends with the refusal of an event.
#[inline(never)]
fn end_refused<K: Sink>(
    tables: &Tables,
    refusal: Refusal,
    writer: &mut LineWriter,
    sink: &mut K,
) -> Result<Outcome, Failure>
    requires { CanFail (K.state sink.old) }
    ensures bytes { Ends (K.state sink.old).contents writer.old (K.state sink.new).contents
        (refused tables.now refusal.event refusal.fault refusal.number) result }
    ensures empty { writer.new ≡ [] }
    ensures count { (K.state sink.new).failed ≡ (K.state sink.old).failed + failures_of result }
    ensures sink { IfErr result (λ e. e ≡ Failure.Sink) }
    ensures settled { SettlesBy result (K.state sink.new).last_failed (K.state sink.new).hidden }
    ensures answered { (K.state sink.new).answered ≡ (K.state sink.old).answered }
{
    let mut text = Text::new();
    print_refused(&mut text, tables, refusal);
    match end_with(writer, sink, text.as_slice()) {
        Ok(()) => Ok(Outcome::Refused),
        Err(_) => Err(Failure::Sink),
    }
}

/// Ends with the first fault of the tables' text.
#[inline(never)]
fn end_unloaded<K: Sink>(
    fault: TableFault,
    writer: &mut LineWriter,
    sink: &mut K,
) -> Result<Outcome, Failure>
    requires { CanFail (K.state sink.old) }
    ensures bytes { Ends (K.state sink.old).contents writer.old (K.state sink.new).contents (tables_end fault) result }
    ensures empty { writer.new ≡ [] }
    ensures count { (K.state sink.new).failed ≡ (K.state sink.old).failed + failures_of result }
    ensures sink { IfErr result (λ e. e ≡ Failure.Sink) }
    ensures settled { SettlesBy result (K.state sink.new).last_failed (K.state sink.new).hidden }
{
    let mut text = Text::new();
    print_table_fault(&mut text, fault);
    match end_with(writer, sink, text.as_slice()) {
        Ok(()) => Ok(Outcome::Unreadable),
        Err(_) => Err(Failure::Sink),
    }
}

/// Writes the line of a step, if it is printed.
#[inline(always)]
fn say<K: Sink>(
    writer: &mut LineWriter,
    sink: &mut K,
    names: &NameTexts,
    printer: &mut Printer,
    all: bool,
    step: Step,
) -> Result<(), Failure>
    requires { CanFail (K.state sink.old) }
    ensures bytes { Gathers (K.state sink.old).contents writer.old (K.state sink.new).contents writer.new
        (spelled (cond (all || is_reported step.reply) (reply_line names.now step.tick step.event step.reply ∷ []) [])) result }
    ensures count { (K.state sink.new).failed ≡ (K.state sink.old).failed + failures_of result }
    ensures sink { IfErr result (λ e. e ≡ Failure.Sink) }
    ensures last { IfErr result (λ e. (K.state sink.new).last_failed ≡ true) }
    ensures answered { (K.state sink.new).answered ≡ (K.state sink.old).answered }
{
    if !is_printed(all, step.reply) {
        return Ok(());
    }
    printer.print(names, step);
    match writer.line_by(sink, &printer.line) {
        Ok(()) => Ok(()),
        Err(_) => Err(Failure::Sink),
    }
}

/// Answers a trace, until its source or the sink fails.
fn answer<S: Source, K: Sink>(
    tables: &Tables,
    progress: &mut Progress,
    limit: u64,
    all: bool,
    trace: &mut S,
    writer: &mut LineWriter,
    sink: &mut K,
) -> Result<Outcome, Failure>
    requires limit { limit ≤ 2 ^ 40 }
    requires new { writer.old ≡ [] }
    requires rows { rows_of progress.old.core ≡ tables.now }
    requires stands { StandsAt progress.old [] }
    requires source { IsCountable (S.state trace.old) }
    requires sink { CanFail (K.state sink.old) }
    ensures answer { IfSome (S.state trace.old).remaining (λ text.
        WritesTrace tables.now limit all text (K.state sink.old).contents (K.state sink.new).contents result) }
    ensures some { EndsSome (K.state sink.old).contents (K.state sink.new).contents result }
    ensures settled { SettlesBy result (K.state sink.new).last_failed (K.state sink.new).hidden }
    ensures prompt { (S.state trace.old).dry < (S.state trace.new).dry → (S.state trace.new).failed ≡ (S.state trace.old).failed
        → IfSome (S.state trace.old).remaining (λ text. ShowsTrace tables.now limit all text (K.state sink.old).contents (K.state sink.new).answered) }
    ensures asks { AsksUpTo limit (S.state trace.old) (S.state trace.new) }
    ensures device { IfErr result (λ e. e ≢ Failure.Memory) }
    ensures empty { writer.new ≡ [] }
    ensures source { Raises (S.state trace.old).failed (S.state trace.new).failed result }
    ensures sink { (K.state sink.new).failed ≡ (K.state sink.old).failed + sink_failures_of result }
{
    let mut lines = TraceLines::new(tables, limit);
    let names = NameTexts::of(tables);
    let mut printer = Printer::new();
    loop {
        match lines.advance() {
            None => match writer.flush(sink) {
                Err(_) => return Err(Failure::Sink),
                Ok(()) => lines.pull(trace, writer, sink),
            },
            Some(Err(stop)) => return end_by(stop, writer, sink),
            Some(Ok(event)) => match progress.step(event) {
                Err(refusal) => return end_refused(tables, refusal, writer, sink),
                Ok(step) => match say(writer, sink, &names, &mut printer, all, step) {
                    Err(failure) => return Err(failure),
                    Ok(()) => {}
                },
            },
        }
    }
}

/// Answers a trace with the concentrator of these tables.
fn answer_on<S: Source, K: Sink>(
    alloc: Global,
    tables: Tables,
    limit: u64,
    all: bool,
    trace: &mut S,
    writer: &mut LineWriter,
    sink: &mut K,
) -> Result<Outcome, Failure>
    requires limit { limit ≤ 2 ^ 40 }
    requires new { writer.old ≡ [] }
    requires source { IsCountable (S.state trace.old) }
    requires sink { CanFail (K.state sink.old) }
    ensures answer { IfSome (S.state trace.old).remaining (λ text.
        WritesTrace tables limit all text (K.state sink.old).contents (K.state sink.new).contents result) }
    ensures some { EndsSome (K.state sink.old).contents (K.state sink.new).contents result }
    ensures settled { SettlesBy result (K.state sink.new).last_failed (K.state sink.new).hidden }
    ensures prompt { (S.state trace.old).dry < (S.state trace.new).dry → (S.state trace.new).failed ≡ (S.state trace.old).failed
        → IfSome (S.state trace.old).remaining (λ text. ShowsTrace tables limit all text (K.state sink.old).contents (K.state sink.new).answered) }
    ensures asks { AsksUpTo limit (S.state trace.old) (S.state trace.new) }
    ensures memory { result ≡ Err Failure.Memory → sink.new ≡ sink.old }
    ensures empty { writer.new ≡ [] }
    ensures source { Raises (S.state trace.old).failed (S.state trace.new).failed result }
    ensures sink { (K.state sink.new).failed ≡ (K.state sink.old).failed + sink_failures_of result }
{
    let Ok(tables) = Arc::new(alloc, tables) else {
        return Err(Failure::Memory);
    };
    let Ok(shared) = Arc::try_clone(&tables) else {
        return Err(Failure::Memory);
    };
    let Ok(core) = Core::new(alloc, shared) else {
        return Err(Failure::Memory);
    };
    let mut progress = Progress {
        core,
        tick: 0,
        number: 1,
    };
    answer(&tables, &mut progress, limit, all, trace, writer, sink)
}

/// Answers the texts of tables and a trace, until something fails.
fn replay<T: Source, S: Source, K: Sink>(
    alloc: Global,
    limit: u64,
    all: bool,
    tables: &mut T,
    trace: &mut S,
    writer: &mut LineWriter,
    sink: &mut K,
) -> Result<Outcome, Failure>
    requires limit { limit ≤ 2 ^ 40 }
    requires new { writer.old ≡ [] }
    requires tables { IsCountable (T.state tables.old) }
    requires source { IsCountable (S.state trace.old) }
    requires sink { CanFail (K.state sink.old) }
    ensures answer { IfSome (T.state tables.old).remaining (λ rows. IfSome (S.state trace.old).remaining (λ text.
        WritesReplay limit all rows text (K.state sink.old).contents (K.state sink.new).contents result)) }
    ensures some { EndsSome (K.state sink.old).contents (K.state sink.new).contents result }
    ensures settled { SettlesBy result (K.state sink.new).last_failed (K.state sink.new).hidden }
    ensures prompt { (S.state trace.old).dry < (S.state trace.new).dry → (S.state trace.new).failed ≡ (S.state trace.old).failed
        → IfSome (T.state tables.old).remaining (λ rows. IfSome (S.state trace.old).remaining (λ text.
        IsPrompt limit all rows text (K.state sink.old).contents (K.state sink.new).answered)) }
    ensures asks_tables { AsksUpTo TEXT_LIMIT (T.state tables.old) (T.state tables.new) }
    ensures asks_trace { AsksUpTo limit (S.state trace.old) (S.state trace.new) }
    ensures order { IfSome (T.state tables.old).remaining (λ rows. OnlyBehind (tables_of rows) (trace.new ≡ trace.old)) }
    ensures memory { result ≡ Err Failure.Memory → sink.new ≡ sink.old }
    ensures empty { writer.new ≡ [] }
    ensures source { Raises ((T.state tables.old).failed + (S.state trace.old).failed) ((T.state tables.new).failed + (S.state trace.new).failed) result }
    ensures sink { (K.state sink.new).failed ≡ (K.state sink.old).failed + sink_failures_of result }
{
    let tables = match load(alloc, tables) {
        Ok(tables) => tables,
        Err(Unloaded::Refused(fault)) => return end_unloaded(fault, writer, sink),
        Err(Unloaded::Failed(failure)) => return Err(failure),
    };
    answer_on(alloc, tables, limit, all, trace, writer, sink)
}

/// Replays a recorded trace through the concentrator of a tables' text, onto a sink: each reply as a line where `all`,
/// else only those that tell of a word that is sent, refused or lost. A trace may have more bytes where `long`.
///
/// It ends `Done` at the end of the trace; `Refused` at the first event that may not follow, `Unreadable` at the first
/// fault of the tables or of the trace, whose line was written after the lines before it; `Failed` where a device
/// failed or memory was refused. Where no push or flush failed, whole lines of a front of the answer and then
/// `failed device` were written, or, where memory was refused, `failed memory` alone. A push or flush that failed is
/// the last call of the sink, and at most one pull of each source gives no byte. Where a pull found the end of the
/// trace, the lines of all its events that are printed had been seen before it. The trace is asked for only where the
/// tables are in order.
pub fn run_replay<T: Source, S: Source, K: Sink>(
    alloc: Global,
    long: bool,
    all: bool,
    tables: &mut T,
    trace: &mut S,
    sink: &mut K,
) -> Exit
    requires tables { IsCountable (T.state tables.old) }
    requires source { IsCountable (S.state trace.old) }
    requires sink { CanFail (K.state sink.old) }
    ensures reports { IfSome (T.state tables.old).remaining (λ rows. IfSome (S.state trace.old).remaining (λ text.
        ReportsReplay (trace_limit long) all rows text (K.state sink.old).contents (K.state sink.new).contents
        ((T.state tables.old).failed + (S.state trace.old).failed) ((T.state tables.new).failed + (S.state trace.new).failed)
        (K.state sink.old).failed (K.state sink.new).failed result)) }
    ensures reported { Reported Any (K.state sink.old).contents (K.state sink.new).contents
        ((T.state tables.old).failed + (S.state trace.old).failed) ((T.state tables.new).failed + (S.state trace.new).failed)
        (K.state sink.old).failed (K.state sink.new).failed result }
    ensures prompt { (S.state trace.old).dry < (S.state trace.new).dry → (S.state trace.new).failed ≡ (S.state trace.old).failed
        → IfSome (T.state tables.old).remaining (λ rows. IfSome (S.state trace.old).remaining (λ text.
        IsPrompt (trace_limit long) all rows text (K.state sink.old).contents (K.state sink.new).answered)) }
    ensures asks_tables { AsksUpTo TEXT_LIMIT (T.state tables.old) (T.state tables.new) }
    ensures asks_trace { AsksUpTo (trace_limit long) (S.state trace.old) (S.state trace.new) }
    ensures order { IfSome (T.state tables.old).remaining (λ rows. OnlyBehind (tables_of rows) (trace.new ≡ trace.old)) }
    ensures left { LeavesSink (K.state sink.old).failed (K.state sink.new).failed (K.state sink.new).last_failed (K.state sink.new).hidden }
    ensures quiet { result ≢ Exit.Failed → (T.state tables.new).failed + (S.state trace.new).failed + (K.state sink.new).failed
        ≡ (T.state tables.old).failed + (S.state trace.old).failed + (K.state sink.old).failed }
{
    let mut writer = LineWriter::new();
    let ended = replay(alloc, limit_of(long), all, tables, trace, &mut writer, sink);
    report(ended, &mut writer, sink)
}
