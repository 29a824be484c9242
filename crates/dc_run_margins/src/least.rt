//! `margins` without a certificate: the least one is taken.

ghost use Rattle.std.specs.Prelude.{◌≡◌, ◌≢◌, ℕ, List, ◌++◌, ◌+◌, ◌<◌, ◌≤◌, IfOk, Some, map};
ghost use Rattle.std.specs.List.{All};
ghost use Rattle.dc_answer.specs.Answer.{Any, LeavesSink, Reported};
ghost use Rattle.dc_answer.specs.Judging.{Keeps};
ghost use Rattle.dc_cert.specs.Bounds.{certificate_rows};
ghost use Rattle.dc_check.specs.Verdict.{IsSized, job_count};
ghost use Rattle.dc_device.specs.States.{AsksUpTo, CanFail, IsCountable};
ghost use Rattle.dc_find.specs.Least.{NoneAccepted};
ghost use Rattle.dc_find.specs.Ways.{IsFirstInTheWay};
ghost use Rattle.dc_document.specs.declared.limits.TheConstants.{TEXT_LIMIT};
ghost use Rattle.dc_margin.specs.Lines.{IsLinePlaced};
ghost use Rattle.dc_run_margins.specs.Telling.{in_lines};
ghost use Rattle.dc_run_margins.specs.Margins.{AnswersReached, AnswersRows, ReportsLeast, fed, found_text, lines_behind, lines_of_first, lines_reached};

use crate::drift::add_drift;
use crate::margins::{append_line, append_lines, judge};
use crate::telling::{InTime, LineKey, Telling};
use crate::told::{Told, enclose};
use dc_answer::{End, Exit, Outcome, Page, ReadWritten, Tell, Then, With, run};
use dc_build::WrittenTables;
use dc_check::Fitted;
use dc_device::{Sink, Source};
use dc_find::{FindFault, Reached, find, reach};
use dc_margin::{MarginLine, found_line, job_lines, line_jobs};
use dc_run::tell_obstacle;
use dc_tables::Tables;
use std::alloc::{AllocError, Global};

/// Puts the lines of the margins of the first jobs at the end, each after a line feed.
fn append_first(
    fitted: &Fitted<'_>,
    told: Telling,
    jobs: usize,
    page: &mut Page,
) -> Result<(), AllocError>
    requires sized { IsSized fitted.now.tables.now (certificate_rows fitted.now.certificate.now) }
    requires few { jobs ≤ job_count fitted.now.tables.now }
    ensures { IfOk result (λ _. page.new ≡ page.old
        ++ fed (lines_of_first told jobs fitted.now.tables.now (certificate_rows fitted.now.certificate.now))) }
{
    for job in 0..jobs {
        let own = job_lines(fitted.tables, fitted.certificate, job);
        append_lines(fitted.tables, told, own.as_slice(), page)?;
    }
    Ok(())
}

/// Puts the lines of what was found at the end, each after a line feed.
fn append_found(
    fitted: &Fitted<'_>,
    told: Telling,
    lines: &[MarginLine],
    page: &mut Page,
) -> Result<(), AllocError>
    requires { All (IsLinePlaced fitted.now.tables.now) lines.now }
    ensures { IfOk result (λ _. page.new ≡ page.old
        ++ fed (map (found_text told fitted.now.tables.now (certificate_rows fitted.now.certificate.now)) lines.now)) }
{
    for own in lines {
        append_line(fitted.tables, told, &found_line(fitted, own), page)?;
    }
    Ok(())
}

/// Puts the lines of what was found of the jobs behind the first ones at the end, each after a line feed.
fn append_behind(
    fitted: &Fitted<'_>,
    told: Telling,
    jobs: usize,
    page: &mut Page,
) -> Result<(), AllocError>
    requires sized { IsSized fitted.now.tables.now (certificate_rows fitted.now.certificate.now) }
    requires few { jobs ≤ job_count fitted.now.tables.now }
    ensures { IfOk result (λ _. page.new ≡ page.old
        ++ fed (lines_behind told jobs fitted.now.tables.now (certificate_rows fitted.now.certificate.now))) }
{
    for behind in 0..line_jobs(fitted.tables) - jobs {
        let own = job_lines(fitted.tables, fitted.certificate, jobs + behind);
        append_found(fitted, told, own.as_slice(), page)?;
    }
    Ok(())
}

/// Puts the lines of the margins of every job at the end: of the first ones, which were reached, and of those behind.
fn append_reached(
    tables: &Tables,
    told: Telling,
    reached: &Reached,
    page: &mut Page,
) -> Result<(), AllocError>
    requires sized { IsSized tables.now (certificate_rows reached.now.certificate) }
    requires few { reached.now.jobs ≤ job_count tables.now }
    ensures { IfOk result (λ _. page.new ≡ page.old
        ++ fed (lines_reached told reached.now.jobs tables.now (certificate_rows reached.now.certificate))) }
{
    let fitted = Fitted {
        tables,
        certificate: &reached.certificate,
    };
    append_first(&fitted, told, reached.jobs, page)?;
    append_behind(&fitted, told, reached.jobs, page)?;
    Ok(())
}

/// Keeps the line of what stands in the way, the lines of the margins of the jobs that the finder reached, those of the
/// jobs behind, and what is told of a drift.
fn judge_obstacle(
    alloc: Global,
    written: &WrittenTables,
    fault: FindFault,
    told: Telling,
    page: &mut Page,
) -> Result<Outcome, AllocError>
    requires none { fault ≢ FindFault.Memory → NoneAccepted written.now.tables }
    requires first { fault ≢ FindFault.Memory → IsFirstInTheWay written.now.tables fault }
    ensures { Keeps (AnswersReached told written.now) page.new result }
{
    let tables = written.tables();
    let outcome = tell_obstacle(tables, fault, page)?;
    enclose(alloc, told.json, LineKey::Verdict, page)?;
    let Ok(reached) = reach(alloc, tables, fault) else {
        return Err(AllocError);
    };
    append_reached(tables, told, &reached, page)?;
    match add_drift(written, told, None, page) {
        Ok(()) => Ok(outcome),
        Err(e) => Err(e),
    }
}

/// Finds the least certificate for tables, and keeps its verdict, the lines of its margins, and what is told of a drift;
/// where none is accepted, what stands in the way, the lines of what the finder reached and of what it found behind, and
/// what is told of a drift.
fn judge_least(
    alloc: Global,
    written: &WrittenTables,
    told: Telling,
    page: &mut Page,
) -> Result<Outcome, AllocError>
    ensures { Keeps (AnswersRows told written.now) page.new result }
{
    match find(alloc, written.tables()) {
        Ok(certificate) => judge(alloc, written, &certificate, told, page),
        Err(fault) => judge_obstacle(alloc, written, fault, told, page),
    }
}

/// The verdict on the least certificate for tables and the lines of its margins; where none is accepted, what stands
/// first in the way of every certificate, and the lines of what the finder reached and of what it found behind. Where a
/// drift is told, what such clocks ask and keep.
#[derive(Clone, Copy, Debug)]
pub struct MarginsLeast {
    /// How they are told.
    pub told: Telling,
}

impl Tell<WrittenTables> for MarginsLeast {
    ghost answers = { λ m. AnswersRows m.told };

    fn tell(
        &self,
        alloc: Global,
        written: WrittenTables,
        page: &mut Page,
    ) -> Result<Outcome, AllocError> {
        judge_least(alloc, &written, self.told, page)
    }
}

/// Writes what `run_margins_told` writes of the least certificate for tables, which are read whole from their source, onto a
/// sink; where none is accepted, a line that says what stands first in the way of every certificate, and then the lines
/// of the inputs, outputs and labels that the finder reached, with their least numbers: those before it; the input
/// itself too, where its queue is too short; all, where a rule on a label is broken. Behind these the lines of all others,
/// of what is found of them: where no window closes with the longest one, and no margin is told that rests on a number
/// that was not found. Where a drift is told, the lines of `run_margins_told` follow, with `-` for ages where none is accepted.
/// Where JSON is told each line is an object, as of `run_margins_told`.
///
/// It ends `Done` where a certificate was found, `Refused` where none is accepted, `Unreadable` where the tables can't
/// be read; `Failed` where a device failed or memory was refused: `failed memory` alone was written, or `failed device`
/// behind whole lines of a front of the answer; where a push or flush failed, a front of one of these or of the answer.
/// That call is the last of the sink, and at most one pull of the source gives no byte.
pub fn run_margins_least_told<T: Source, K: Sink>(
    alloc: Global,
    told: Telling,
    tables: &mut T,
    sink: &mut K,
) -> Exit
    requires tables { IsCountable (T.state tables.old) }
    requires sink { CanFail (K.state sink.old) }
    ensures reports { (rows : List ℕ) → (T.state tables.old).remaining ≡ Some rows
        → ReportsLeast told rows (K.state sink.old).contents (K.state sink.new).contents (T.state tables.old).failed (T.state tables.new).failed
        (K.state sink.old).failed (K.state sink.new).failed result }
    ensures reported { Reported Any (K.state sink.old).contents (K.state sink.new).contents (T.state tables.old).failed (T.state tables.new).failed
        (K.state sink.old).failed (K.state sink.new).failed result }
    ensures asks { AsksUpTo TEXT_LIMIT (T.state tables.old) (T.state tables.new) }
    ensures left { LeavesSink (K.state sink.old).failed (K.state sink.new).failed (K.state sink.new).last_failed (K.state sink.new).hidden }
    ensures quiet { result ≢ Exit.Failed → (T.state tables.new).failed + (K.state sink.new).failed ≡ (T.state tables.old).failed + (K.state sink.old).failed }
{
    let mut given = With {
        first: tables,
        rest: End,
    };
    let engine = Told {
        json: told.json,
        plain: ReadWritten(Then(MarginsLeast { told })),
    };
    run(&(), alloc, &engine, &mut given, sink)
}

/// Writes what [`run_margins_least_told`] writes where no object is asked for: each margin and each line as it is.
pub fn run_margins_least<T: Source, K: Sink>(
    alloc: Global,
    told: InTime,
    tables: &mut T,
    sink: &mut K,
) -> Exit
    requires tables { IsCountable (T.state tables.old) }
    requires sink { CanFail (K.state sink.old) }
    ensures reports { (rows : List ℕ) → (T.state tables.old).remaining ≡ Some rows
        → ReportsLeast (in_lines told) rows (K.state sink.old).contents (K.state sink.new).contents (T.state tables.old).failed (T.state tables.new).failed
        (K.state sink.old).failed (K.state sink.new).failed result }
    ensures reported { Reported Any (K.state sink.old).contents (K.state sink.new).contents (T.state tables.old).failed (T.state tables.new).failed
        (K.state sink.old).failed (K.state sink.new).failed result }
    ensures asks { AsksUpTo TEXT_LIMIT (T.state tables.old) (T.state tables.new) }
    ensures left { LeavesSink (K.state sink.old).failed (K.state sink.new).failed (K.state sink.new).last_failed (K.state sink.new).hidden }
    ensures quiet { result ≢ Exit.Failed → (T.state tables.new).failed + (K.state sink.new).failed ≡ (T.state tables.old).failed + (K.state sink.old).failed }
{
    run_margins_least_told(alloc, told.in_lines(), tables, sink)
}
