//! How near the run of a trace came to its bounds, while it is read.
ghost use Rattle.std.specs.Prelude.{◌≡◌, ◌≢◌, ◌+◌, ◌<◌, [], IfErr, IfOk, IfSome};
ghost use Rattle.dc_device.specs.States.{AsksUpTo, IsCountable};
ghost use Rattle.dc_event.specs.TraceText.{trace_of};
ghost use Rattle.dc_observe.specs.Near.{IsNearness, IsSized};
ghost use Rattle.dc_run.specs.declared.limits.TheConstants.{LONG_TRACE_LIMIT};
ghost use Rattle.dc_run_observe.specs.Answer.{IsFollowed, failures_in};

use dc_answer::Unjudged;
use dc_device::{LineWriter, Nowhere, Source};
use dc_event::{TraceFault, TraceLines, TraceStop};
use dc_observe::Nearness;
use dc_run::LONG_TRACE_LIMIT;
use dc_tables::Tables;
use std::alloc::Global;

/// What was read of a trace.
#[derive(Drop)]
pub struct Followed {
    /// How near the run of its events came to its bounds.
    pub near: Nearness,
    /// Its first fault, where it has one.
    pub fault: Option<TraceFault>,
}

/// Takes each event of a trace, up to its first fault, which is the answer.
///
/// # Errors
/// `Device` where the source failed.
fn take_events<S: Source>(
    tables: &Tables,
    near: &mut Nearness,
    trace: &mut S,
) -> Result<Option<TraceFault>, Unjudged>
    requires countable { IsCountable (S.state trace.old) }
    requires sized { IsSized tables.now near.old }
    requires none { near.old.events ≡ 0 }
    requires start { IsNearness tables.now near.old [] }
    ensures sized { IsSized tables.now near.new }
    ensures near { IfSome (S.state trace.old).remaining (λ text. IfOk result (λ fault.
        IsNearness tables.now near.new (trace_of tables.now LONG_TRACE_LIMIT text).events × (fault ≡ (trace_of tables.now LONG_TRACE_LIMIT text).fault))) }
    ensures count { (S.state trace.new).failed ≡ (S.state trace.old).failed + failures_in result }
    ensures asks { AsksUpTo LONG_TRACE_LIMIT (S.state trace.old) (S.state trace.new) }
    ensures cause { IfErr result (λ e. e ≡ Unjudged.Device) }
{
    tables.named();
    let mut lines = TraceLines::new(tables, LONG_TRACE_LIMIT);
    let unwatched = LineWriter::new();
    loop {
        match lines.advance() {
            None => lines.pull(trace, &unwatched, &mut Nowhere),
            Some(Err(TraceStop::End)) => return Ok(None),
            Some(Err(TraceStop::Fault(fault))) => return Ok(Some(fault)),
            Some(Err(TraceStop::Broken)) => return Err(Unjudged::Device),
            Some(Ok(event)) => near.see(tables, &event),
        }
    }
}

/// How near the run of a source's trace came to its bounds, up to its first fault: memory by the tables.
///
/// # Errors
/// `Device` where the source failed, `Memory` where memory was refused.
pub fn follow_trace<S: Source>(
    alloc: Global,
    tables: &Tables,
    trace: &mut S,
) -> Result<Followed, Unjudged>
    requires { IsCountable (S.state trace.old) }
    ensures sized { IfOk result (λ r. IsSized tables.now r.near) }
    ensures followed { IfSome (S.state trace.old).remaining (λ text. IfOk result (IsFollowed tables.now (trace_of tables.now LONG_TRACE_LIMIT text))) }
    ensures count { (S.state trace.new).failed ≡ (S.state trace.old).failed + failures_in result }
    ensures asks { AsksUpTo LONG_TRACE_LIMIT (S.state trace.old) (S.state trace.new) }
    ensures threads { IfErr result (λ e. e ≢ Unjudged.Threads) }
{
    let Ok(mut near) = Nearness::new(alloc, tables) else {
        return Err(Unjudged::Memory);
    };
    let fault = take_events(tables, &mut near, trace)?;
    Ok(Followed { near, fault })
}
