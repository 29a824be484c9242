//! `survey`: what a capture tells of the wires and the streams of tables.
ghost use Rattle.std.specs.Prelude.{◌≡◌, ◌≢◌, ◌+◌, ◌<◌, ◌||◌, ◌&&◌, ℕ, List, [], ◌∷◌, IfErr, IfSome, Option, Some, length, not};
ghost use Rattle.dc_answer.specs.Answer.{Any, LeavesSink, Reported};
ghost use Rattle.dc_answer.specs.Inputs.{OnlyBehind};
ghost use Rattle.dc_answer.specs.Judging.{Keeps, Raised};
ghost use Rattle.dc_capture.specs.CaptureText.{capture_of};
ghost use Rattle.dc_capture.specs.declared.capture_lines.TheConstants.{CAPTURE_LIMIT};
ghost use Rattle.dc_device.specs.States.{AsksUpTo, CanFail, IsCountable};
ghost use Rattle.dc_document.specs.declared.limits.TheConstants.{TEXT_LIMIT};
ghost use Rattle.dc_run_survey.specs.Answer.{AnswersCapture, AnswersText, IsSurveyed, ReportsSurvey, survey_outcome};
ghost use Rattle.dc_run_survey.specs.Lines.{breaks_paces, breaks_wires, is_broken, is_early};
ghost use Rattle.dc_survey.specs.States.{pace_state_of, wire_state_of};
ghost use Rattle.dc_survey.specs.Surveys.{IsSized};
ghost use Rattle.dc_tables.specs.TableRows.{is_policed, stream_row};
ghost use Rattle.dc_toml.specs.Reading.{tables_of};

use crate::lines::tell_survey;
use crate::recorded::{Surveyed, survey_capture};
use dc_answer::{End, Exit, Judge, Outcome, Page, ReadWritten, Unjudged, With, run};
use dc_build::WrittenTables;
use dc_device::{Sink, Source};
use dc_survey::{PaceState, Survey, WireState};
use dc_tables::Tables;
use std::alloc::{AllocError, Global};

/// Whether a wire is broken.
fn is_broken(tables: &Tables, survey: &Survey, bus: usize) -> bool
    requires sized { IsSized tables.now survey.now }
    requires there { bus < length tables.now.buses }
    ensures { result ≡ is_broken (wire_state_of tables.now survey.now bus) }
{
    match survey.wire(tables, bus) {
        WireState::BrokenAt(_) => true,
        WireState::Kept => false,
        WireState::Policed => false,
    }
}

/// Whether a stream is early whose bus is not policed.
fn is_early(tables: &Tables, survey: &Survey, stream: usize) -> bool
    requires sized { IsSized tables.now survey.now }
    requires there { stream < length tables.now.streams }
    ensures { result ≡ (not (is_policed tables.now (stream_row tables.now stream).bus) && is_early (pace_state_of survey.now stream)) }
{
    tables.valid();
    if tables.bus(tables.stream(stream).bus).police {
        return false;
    }
    match survey.pace(stream) {
        PaceState::EarlyAt(_) => true,
        PaceState::Kept => false,
        PaceState::Silent => false,
    }
}

/// Whether some wire is broken.
fn breaks_wires(tables: &Tables, survey: &Survey) -> bool
    requires { IsSized tables.now survey.now }
    ensures { result ≡ breaks_wires tables.now survey.now }
{
    let mut broken = false;
    for bus in 0..tables.bus_count() {
        broken |= is_broken(tables, survey, bus);
    }
    broken
}

/// Whether some stream is early whose bus is not policed.
fn breaks_paces(tables: &Tables, survey: &Survey) -> bool
    requires { IsSized tables.now survey.now }
    ensures { result ≡ breaks_paces tables.now survey.now }
{
    let mut early = false;
    for stream in 0..tables.stream_count() {
        early |= is_early(tables, survey, stream);
    }
    early
}

/// What a survey ends with.
fn outcome_of(written: &WrittenTables, surveyed: &Surveyed) -> Outcome
    requires { IsSized written.now.tables surveyed.now.survey }
    ensures { result ≡ survey_outcome written.now surveyed.now.survey surveyed.now.fault }
{
    let tables = written.tables();
    if surveyed.fault.is_some() {
        return Outcome::Unreadable;
    }
    if breaks_wires(tables, &surveyed.survey) || breaks_paces(tables, &surveyed.survey) {
        Outcome::Refused
    } else {
        Outcome::Done
    }
}

/// Makes a page what is told of a survey, and says what it ends with.
///
/// # Errors
/// `AllocError` where memory was refused.
fn tell_surveyed(
    written: &WrittenTables,
    surveyed: &Surveyed,
    page: &mut Page,
) -> Result<Outcome, AllocError>
    requires { IsSized written.now.tables surveyed.now.survey }
    ensures { (from : Option (List ℕ)) → IfSome from (λ text. IsSurveyed written.now (capture_of written.now.tables CAPTURE_LIMIT text) surveyed.now)
        → IfSome from (λ text. Keeps (AnswersText written.now text) page.new result) }
{
    match tell_survey(written.tables(), surveyed, page) {
        Ok(()) => Ok(outcome_of(written, surveyed)),
        Err(refused) => Err(refused),
    }
}

/// Surveys a source's capture, and keeps the answer.
fn survey_and_tell<S: Source>(
    alloc: Global,
    written: &WrittenTables,
    capture: &mut S,
    page: &mut Page,
) -> Result<Outcome, Unjudged>
    requires { IsCountable (S.state capture.old) }
    ensures answer { IfSome (S.state capture.old).remaining (λ text. Keeps (AnswersText written.now text) page.new result) }
    ensures raises { Raised (S.state capture.old).failed (S.state capture.new).failed result }
    ensures asks { AsksUpTo CAPTURE_LIMIT (S.state capture.old) (S.state capture.new) }
    ensures threads { IfErr result (λ e. e ≢ Unjudged.Threads) }
{
    match survey_capture(alloc, written, capture) {
        Ok(surveyed) => match tell_surveyed(written, &surveyed, page) {
            Ok(outcome) => Ok(outcome),
            Err(_) => Err(Unjudged::Memory),
        },
        Err(unjudged) => Err(unjudged),
    }
}

/// Surveys a capture behind tables: a line for each bus and each stream, and behind them the capture's fault, where it
/// has one.
#[derive(Clone, Copy, Debug)]
pub struct SurveyCapture;

impl<'a, H, S: Source> Judge<H, WrittenTables, With<'a, S, End>> for SurveyCapture {
    ghost may_judge = { λ j. Unit {0} };

    ghost starts_threads = { λ j. ⊥ };

    ghost limits = { λ j. CAPTURE_LIMIT ∷ [] };

    ghost goes_on = { λ j known texts. Unit {0} };

    ghost answers = { λ j known. AnswersCapture known };

    fn judge(
        &self,
        _rt: &H,
        alloc: Global,
        known: WrittenTables,
        given: &mut With<'a, S, End>,
        page: &mut Page,
    ) -> Result<Outcome, Unjudged> {
        survey_and_tell(alloc, &known, given.first, page)
    }
}

/// Surveys a capture for tables, of which the tables are read whole and first, the capture as it comes, up to its first
/// fault: a line for each bus in order and one for each stream, with the numbers of its words, exact against the whole
/// capture, and whether the wire's spacing and the stream's timing were kept; where the capture has a fault, its line
/// stands behind these, which are then of the words before it. Memory is by the tables.
///
/// It ends `Done` where all is kept, `Refused` where a wire is broken or a stream is early, whose bus is not policed,
/// `Unreadable` where a text can't be read; `Failed` where a device failed or memory was refused: `failed memory` alone
/// was written, or `failed device` behind whole lines of a front of the answer; where a push or flush failed, a front of
/// one of these or of the answer. That call is the last of the sink, and at most one pull of each source gives no byte.
/// The capture is asked for only where the tables are in order. For tables without a bus, a capture without a word is
/// answered by a blank line.
pub fn run_survey<T: Source, C: Source, K: Sink>(
    alloc: Global,
    tables: &mut T,
    capture: &mut C,
    sink: &mut K,
) -> Exit
    requires tables { IsCountable (T.state tables.old) }
    requires capture { IsCountable (C.state capture.old) }
    requires sink { CanFail (K.state sink.old) }
    ensures reports { (rows words : List ℕ) → (T.state tables.old).remaining ≡ Some rows → (C.state capture.old).remaining ≡ Some words
        → ReportsSurvey rows words (K.state sink.old).contents (K.state sink.new).contents
        ((T.state tables.old).failed + (C.state capture.old).failed) ((T.state tables.new).failed + (C.state capture.new).failed)
        (K.state sink.old).failed (K.state sink.new).failed result }
    ensures reported { Reported Any (K.state sink.old).contents (K.state sink.new).contents
        ((T.state tables.old).failed + (C.state capture.old).failed) ((T.state tables.new).failed + (C.state capture.new).failed)
        (K.state sink.old).failed (K.state sink.new).failed result }
    ensures asks_tables { AsksUpTo TEXT_LIMIT (T.state tables.old) (T.state tables.new) }
    ensures asks_capture { AsksUpTo CAPTURE_LIMIT (C.state capture.old) (C.state capture.new) }
    ensures order { IfSome (T.state tables.old).remaining (λ rows. OnlyBehind (tables_of rows) (capture.new ≡ capture.old)) }
    ensures left { LeavesSink (K.state sink.old).failed (K.state sink.new).failed (K.state sink.new).last_failed (K.state sink.new).hidden }
    ensures quiet { result ≢ Exit.Failed → (T.state tables.new).failed + (C.state capture.new).failed + (K.state sink.new).failed
        ≡ (T.state tables.old).failed + (C.state capture.old).failed + (K.state sink.old).failed }
{
    let mut given = With {
        first: tables,
        rest: With {
            first: capture,
            rest: End,
        },
    };
    run(&(), alloc, &ReadWritten(SurveyCapture), &mut given, sink)
}
