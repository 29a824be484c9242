//! A run that is audited while its trace is read.
ghost use Rattle.std.specs.Prelude.{◌≡◌, ◌≢◌, [], ◌+◌, ◌<◌, IfErr, IfSome};
ghost use Rattle.dc_answer.specs.Inputs.{failed_in};
ghost use Rattle.dc_cert.specs.Bounds.{certificate_rows};
ghost use Rattle.dc_device.specs.States.{AsksUpTo, IsCountable};
ghost use Rattle.dc_oracle.specs.Courses.{IsAuditCourse, TellsAudit};
ghost use Rattle.dc_run.specs.Limits.{trace_limit};
ghost use Rattle.dc_run_audit.specs.Audit.{Finds};
ghost use Rattle.dc_run_audit.specs.Recorded.{run_of};

use crate::findings::{Findings, findings_of};
use dc_answer::{Failure, Unloaded};
use dc_cert::Certificate;
use dc_device::{LineWriter, Nowhere, Source};
use dc_event::{LineRule, TraceFault, TraceLines, TraceStop};
use dc_oracle::AuditCourse;
use dc_run::limit_of;
use dc_tables::Tables;
use std::alloc::Global;

/// How many events are audited at most, where a long run is not asked for.
const MOST_EVENTS: usize = 100_000;

/// Follows the run that the trace of a source tells up to its first fault, event by event while it is read, and tells
/// what was found of it. Where a long run is not asked for, the fault of a trace of more than [`MOST_EVENTS`] events is
/// at the next.
///
/// # Errors
/// `Refused` with the trace's first fault; `Failed` where the source failed.
fn follow<S: Source>(
    long: bool,
    tables: &Tables,
    certificate: &Certificate,
    course: &mut AuditCourse,
    trace: &mut S,
) -> Result<Findings, Unloaded<TraceFault>>
    requires sized { IsAuditCourse tables.now course.old }
    requires none { course.old.events ≡ 0 }
    requires tells { TellsAudit tables.now (certificate_rows certificate.now).ages course.old [] }
    requires countable { IsCountable (S.state trace.old) }
    ensures found { IfSome (S.state trace.old).remaining (λ text.
        Finds tables.now (certificate_rows certificate.now).ages (run_of long tables.now text) result) }
    ensures count { (S.state trace.new).failed ≡ (S.state trace.old).failed + failed_in result }
    ensures asks { AsksUpTo (trace_limit long) (S.state trace.old) (S.state trace.new) }
    ensures device { IfErr result (λ e. e ≢ Unloaded.Failed Failure.Sink) }
{
    tables.named();
    let mut lines = TraceLines::new(tables, limit_of(long));
    let unwatched = LineWriter::new();
    loop {
        match lines.advance() {
            None => lines.pull(trace, &unwatched, &mut Nowhere),
            Some(Err(TraceStop::End)) => return Ok(findings_of(course)),
            Some(Err(TraceStop::Fault(fault))) => return Err(Unloaded::Refused(fault)),
            Some(Err(TraceStop::Broken)) => return Err(Unloaded::Failed(Failure::Source)),
            Some(Ok(event)) => {
                if !long && course.events() == MOST_EVENTS {
                    return Err(Unloaded::Refused(TraceFault {
                        rule: LineRule::LineTooLong,
                        line: MOST_EVENTS as u64 + 1,
                    }));
                }
                course.step(tables, certificate, &event);
            }
        }
    }
}

/// Finds where the run of a trace first fails.
///
/// # Errors
/// `Refused` with the trace's first fault; `Failed` where the source failed or memory was refused.
pub(crate) fn find_failures<S: Source>(
    alloc: Global,
    long: bool,
    tables: &Tables,
    certificate: &Certificate,
    trace: &mut S,
) -> Result<Findings, Unloaded<TraceFault>>
    requires { IsCountable (S.state trace.old) }
    ensures found { IfSome (S.state trace.old).remaining (λ text.
        Finds tables.now (certificate_rows certificate.now).ages (run_of long tables.now text) result) }
    ensures count { (S.state trace.new).failed ≡ (S.state trace.old).failed + failed_in result }
    ensures asks { AsksUpTo (trace_limit long) (S.state trace.old) (S.state trace.new) }
    ensures sink { IfErr result (λ e. e ≢ Unloaded.Failed Failure.Sink) }
{
    let Ok(mut course) = AuditCourse::new(alloc, tables) else {
        return Err(Unloaded::Failed(Failure::Memory));
    };
    follow(long, tables, certificate, &mut course, trace)
}
