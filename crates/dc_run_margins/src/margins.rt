//! `margins`: the verdict on a certificate, and a line for each of its conditions.

ghost use Rattle.std.specs.Prelude.{◌≡◌, ◌≢◌, ℕ, List, ◌∷◌, ◌++◌, ◌+◌, ◌<◌, IfOk, IfSome, None, Some, map};
ghost use Rattle.std.specs.List.{All};
ghost use Rattle.dc_answer.specs.Answer.{Any, LeavesSink, Reported};
ghost use Rattle.dc_answer.specs.Inputs.{OnlyBehind};
ghost use Rattle.dc_cert.specs.Bounds.{certificate_rows};
ghost use Rattle.dc_cert.specs.NamedRows.{named_rows};
ghost use Rattle.dc_check.specs.Placed.{IsPlaced};
ghost use Rattle.dc_check.specs.Verdict.{IsSized, misnaming};
ghost use Rattle.dc_device.specs.States.{AsksUpTo, CanFail, IsCountable};
ghost use Rattle.dc_margin.specs.Lines.{IsLinePlaced, measure_of};
ghost use Rattle.dc_document.specs.declared.limits.TheConstants.{TEXT_LIMIT};
ghost use Rattle.dc_toml.specs.Reading.{tables_of};
ghost use Rattle.dc_run_margins.specs.Lines.{margin_line, slack_microseconds};
ghost use Rattle.dc_run_margins.specs.Objects.{margin_told};
ghost use Rattle.dc_run_margins.specs.Telling.{in_lines, told_as};
ghost use Rattle.dc_run_margins.specs.Drift.{lines_of_drift};
ghost use Rattle.dc_run_margins.specs.Margins.{Answers, ReportsMargins, ages_where, answer_margins, fed, verdict_line, verdict_outcome};

use crate::drift::add_drift;
use crate::lines::{microseconds_of, print_margin};
use crate::objects::add_object;
use crate::telling::{InTime, LineKey, Telling, closing, opening};
use crate::told::Told;
use dc_answer::{End, Exit, Outcome, Page, ReadCertificate, ReadWritten, Tell, Then, With, run};
use dc_build::WrittenTables;
use dc_cert::Certificate;
use dc_check::{CheckFault, misnamed, verdict};
use dc_device::{Sink, Source};
use dc_margin::{MarginLine, margin_lines, verdict_fault};
use dc_print::{Text, print_accepted, print_refused};
use dc_tables::Tables;
use itoa::Buffer;
use std::alloc::{AllocError, Global};

/// Puts the amount of a margin in microseconds at the end.
fn add_microseconds(tick_us: u32, line: &MarginLine, page: &mut Page) -> Result<(), AllocError>
    ensures { IfOk result (λ _. page.new ≡ page.old ++ slack_microseconds tick_us (measure_of line.now.condition) line.now.margin) }
{
    let Some(us) = microseconds_of(tick_us, line) else {
        return page.add(b"-");
    };
    let mut buffer = Buffer::new();
    page.add(buffer.format(us).as_bytes())?;
    page.add(b"us")
}

/// Puts the line of a margin at the end.
#[tactic(auto, unfolding(crate::specs::Lines::margin_line))]
fn add_fields(
    tables: &Tables,
    microseconds: bool,
    line: &MarginLine,
    page: &mut Page,
) -> Result<(), AllocError>
    requires { IsLinePlaced tables.now line.now }
    ensures { IfOk result (λ _. page.new ≡ page.old ++ margin_line microseconds tables.now line.now) }
{
    let mut printed = Text::new();
    print_margin(&mut printed, tables, line);
    page.add(printed.as_slice())?;
    if microseconds {
        page.add(b" ")?;
        add_microseconds(tables.tick_us(), line, page)?;
    }
    Ok(())
}

/// Puts a margin as it is told at the end, after a line feed.
pub(crate) fn append_line(
    tables: &Tables,
    told: Telling,
    line: &MarginLine,
    page: &mut Page,
) -> Result<(), AllocError>
    requires { IsLinePlaced tables.now line.now }
    ensures { IfOk result (λ _. page.new ≡ page.old ++ 10 ∷ margin_told told tables.now line.now) }
{
    page.add(b"\n")?;
    if told.json {
        add_object(tables, told.microseconds, line, page)
    } else {
        add_fields(tables, told.microseconds, line, page)
    }
}

/// Puts margins as they are told at the end, each after a line feed.
pub(crate) fn append_lines(
    tables: &Tables,
    told: Telling,
    lines: &[MarginLine],
    page: &mut Page,
) -> Result<(), AllocError>
    requires { All (IsLinePlaced tables.now) lines.now }
    ensures { IfOk result (λ _. page.new ≡ page.old ++ fed (map (margin_told told tables.now) lines.now)) }
{
    for own in lines {
        append_line(tables, told, own, page)?;
    }
    Ok(())
}

/// Prints a verdict: accepted, or this fault.
fn print_verdict(tables: &Tables, fault: Option<CheckFault>, line: &mut Text) -> Outcome
    requires { IfSome fault (λ f. IsPlaced tables.now f) }
    ensures line { line.new.items ≡ verdict_line tables.now fault }
    ensures outcome { result ≡ verdict_outcome fault }
{
    match fault {
        None => {
            print_accepted(line, tables);
            Outcome::Done
        }
        Some(fault) => {
            print_refused(line, tables, fault);
            Outcome::Refused
        }
    }
}

/// Keeps the line of a verdict as it is told.
fn keep_verdict(json: bool, line: &[u8], page: &mut Page) -> Result<(), AllocError>
    ensures { IfOk result (λ _. page.new ≡ told_as json LineKey.Verdict line.now) }
{
    page.keep(opening(json, LineKey::Verdict))?;
    page.add(line)?;
    page.add(closing(json))
}

/// Puts the lines of a drift at the end, each after a line feed, with the ages of the certificate where this is no fault
/// of its verdict.
fn append_drift(
    written: &WrittenTables,
    told: Telling,
    fault: Option<CheckFault>,
    certificate: &Certificate,
    page: &mut Page,
) -> Result<(), AllocError>
    requires sized { fault ≡ None → IsSized written.now.tables (certificate_rows certificate.now) }
    ensures { IfOk result (λ _. page.new ≡ page.old ++ fed (lines_of_drift told.json written.now told.drift (ages_where fault (named_rows certificate.now)))) }
{
    match fault {
        None => add_drift(written, told, Some(certificate), page),
        Some(_) => add_drift(written, told, None, page),
    }
}

/// Judges a certificate with other names than the tables', and keeps the verdict, and what is told of a drift.
fn judge_misnamed(
    written: &WrittenTables,
    certificate: &Certificate,
    told: Telling,
    page: &mut Page,
) -> Result<Outcome, AllocError>
    requires { misnaming written.now.tables (named_rows certificate.now) ≢ None }
    ensures { Answers (answer_margins told written.now (named_rows certificate.now)) page.new result }
{
    let tables = written.tables();
    let mut line = Text::new();
    let outcome = print_verdict(tables, verdict(tables, certificate).err(), &mut line);
    keep_verdict(told.json, line.as_slice(), page)?;
    match add_drift(written, told, None, page) {
        Ok(()) => Ok(outcome),
        Err(e) => Err(e),
    }
}

/// Judges a certificate with the tables' names, and keeps the verdict, the lines of its margins, and what is told of a
/// drift.
fn judge_named(
    alloc: Global,
    written: &WrittenTables,
    certificate: &Certificate,
    told: Telling,
    page: &mut Page,
) -> Result<Outcome, AllocError>
    requires named { misnaming written.now.tables (named_rows certificate.now) ≡ None }
    requires sized { IsSized written.now.tables (certificate_rows certificate.now) }
    ensures { Answers (answer_margins told written.now (named_rows certificate.now)) page.new result }
{
    let tables = written.tables();
    let lines = margin_lines(alloc, tables, certificate)?;
    let fault = verdict_fault(tables, certificate, lines.as_slice());
    let mut line = Text::new();
    let outcome = print_verdict(tables, fault, &mut line);
    keep_verdict(told.json, line.as_slice(), page)?;
    append_lines(tables, told, lines.as_slice(), page)?;
    match append_drift(written, told, fault, certificate, page) {
        Ok(()) => Ok(outcome),
        Err(e) => Err(e),
    }
}

/// Judges a certificate, and keeps the verdict, the lines of its margins, and what is told of a drift.
pub(crate) fn judge(
    alloc: Global,
    written: &WrittenTables,
    certificate: &Certificate,
    told: Telling,
    page: &mut Page,
) -> Result<Outcome, AllocError>
    ensures { Answers (answer_margins told written.now (named_rows certificate.now)) page.new result }
{
    match misnamed(written.tables(), certificate) {
        None => judge_named(alloc, written, certificate, told, page),
        Some(_) => judge_misnamed(written, certificate, told, page),
    }
}

/// The verdict on a certificate, and a line for each condition of each input, output and label: how far it is from
/// failing, and what decides that; where a drift is told, what such clocks ask and keep. A certificate with other names
/// than the tables' has no line of a condition.
#[derive(Clone, Copy, Debug)]
pub struct Margins {
    /// How they are told.
    pub told: Telling,
}

impl Tell<(WrittenTables, Certificate)> for Margins {
    ghost answers = { λ m known answer. answer ≡ answer_margins m.told known.0 (named_rows known.1) };

    fn tell(
        &self,
        alloc: Global,
        known: (WrittenTables, Certificate),
        page: &mut Page,
    ) -> Result<Outcome, AllocError> {
        let (written, certificate) = known;
        judge(alloc, &written, &certificate, self.told, page)
    }
}

/// Judges a certificate for tables, both read whole from their sources, the tables first, and writes the verdict onto a
/// sink, and then a line for each condition of each input, output and label: how far it is from failing, and what
/// decides that, with its microseconds where they are told. A certificate with other names than the tables' has none of
/// these lines. Where a drift is told, a line follows for each wire whose bus is not policed, each stream and each label:
/// what clocks that drift so far ask and keep, in whole microseconds, beside what is declared. Where JSON is told each of
/// these lines is an object, and so is that of a text that can't be read.
///
/// It ends `Done` where the certificate is accepted, `Refused` where it is refused, `Unreadable` where a text can't be
/// read; `Failed` where a device failed or memory was refused: `failed memory` alone was written, or `failed device`
/// behind whole lines of a front of the answer; where a push or flush failed, a front of one of these or of the answer.
/// That call is the last of the sink, and at most one pull of each source gives no byte.
pub fn run_margins_told<T: Source, C: Source, K: Sink>(
    alloc: Global,
    told: Telling,
    tables: &mut T,
    certificate: &mut C,
    sink: &mut K,
) -> Exit
    requires tables { IsCountable (T.state tables.old) }
    requires certificate { IsCountable (C.state certificate.old) }
    requires sink { CanFail (K.state sink.old) }
    ensures reports { (rows claims : List ℕ) → (T.state tables.old).remaining ≡ Some rows → (C.state certificate.old).remaining ≡ Some claims
        → ReportsMargins told rows claims (K.state sink.old).contents (K.state sink.new).contents
        ((T.state tables.old).failed + (C.state certificate.old).failed) ((T.state tables.new).failed + (C.state certificate.new).failed)
        (K.state sink.old).failed (K.state sink.new).failed result }
    ensures reported { Reported Any (K.state sink.old).contents (K.state sink.new).contents
        ((T.state tables.old).failed + (C.state certificate.old).failed) ((T.state tables.new).failed + (C.state certificate.new).failed)
        (K.state sink.old).failed (K.state sink.new).failed result }
    ensures asks_tables { AsksUpTo TEXT_LIMIT (T.state tables.old) (T.state tables.new) }
    ensures asks_certificate { AsksUpTo TEXT_LIMIT (C.state certificate.old) (C.state certificate.new) }
    ensures order { IfSome (T.state tables.old).remaining (λ rows. OnlyBehind (tables_of rows) (certificate.new ≡ certificate.old)) }
    ensures left { LeavesSink (K.state sink.old).failed (K.state sink.new).failed (K.state sink.new).last_failed (K.state sink.new).hidden }
    ensures quiet { result ≢ Exit.Failed → (T.state tables.new).failed + (C.state certificate.new).failed + (K.state sink.new).failed
        ≡ (T.state tables.old).failed + (C.state certificate.old).failed + (K.state sink.old).failed }
{
    let mut given = With {
        first: tables,
        rest: With {
            first: certificate,
            rest: End,
        },
    };
    let engine = Told {
        json: told.json,
        plain: ReadWritten(ReadCertificate(Then(Margins { told }))),
    };
    run(&(), alloc, &engine, &mut given, sink)
}

/// Writes what [`run_margins_told`] writes where no object is asked for: each margin and each line as it is.
pub fn run_margins<T: Source, C: Source, K: Sink>(
    alloc: Global,
    told: InTime,
    tables: &mut T,
    certificate: &mut C,
    sink: &mut K,
) -> Exit
    requires tables { IsCountable (T.state tables.old) }
    requires certificate { IsCountable (C.state certificate.old) }
    requires sink { CanFail (K.state sink.old) }
    ensures reports { (rows claims : List ℕ) → (T.state tables.old).remaining ≡ Some rows → (C.state certificate.old).remaining ≡ Some claims
        → ReportsMargins (in_lines told) rows claims (K.state sink.old).contents (K.state sink.new).contents
        ((T.state tables.old).failed + (C.state certificate.old).failed) ((T.state tables.new).failed + (C.state certificate.new).failed)
        (K.state sink.old).failed (K.state sink.new).failed result }
    ensures reported { Reported Any (K.state sink.old).contents (K.state sink.new).contents
        ((T.state tables.old).failed + (C.state certificate.old).failed) ((T.state tables.new).failed + (C.state certificate.new).failed)
        (K.state sink.old).failed (K.state sink.new).failed result }
    ensures asks_tables { AsksUpTo TEXT_LIMIT (T.state tables.old) (T.state tables.new) }
    ensures asks_certificate { AsksUpTo TEXT_LIMIT (C.state certificate.old) (C.state certificate.new) }
    ensures order { IfSome (T.state tables.old).remaining (λ rows. OnlyBehind (tables_of rows) (certificate.new ≡ certificate.old)) }
    ensures left { LeavesSink (K.state sink.old).failed (K.state sink.new).failed (K.state sink.new).last_failed (K.state sink.new).hidden }
    ensures quiet { result ≢ Exit.Failed → (T.state tables.new).failed + (C.state certificate.new).failed + (K.state sink.new).failed
        ≡ (T.state tables.old).failed + (C.state certificate.old).failed + (K.state sink.old).failed }
{
    run_margins_told(alloc, told.in_lines(), tables, certificate, sink)
}
