//! The engines are run over the files of an order.
ghost use Rattle.std.specs.Prelude.{◌≡◌, ◌≤◌, None, Some, false};
ghost use Rattle.dc_answer.specs.Judging.{Leaves};
ghost use Rattle.dc_device.specs.States.{AsksUpTo, CanFail, IsCountable, SourceState};
ghost use Rattle.dc_capture.specs.declared.capture_lines.TheConstants.{CAPTURE_LIMIT};
ghost use Rattle.dc_command.specs.declared.asked.Order.TheVariants.{Audit, Bench, Check, Decode, Explain, Find, Network, Observe, Replay, ReportNetwork, Survey, Trace};
ghost use Rattle.dc_run.specs.Limits.{trace_limit};
ghost use Rattle.dc_program.specs.Carries.{Carries};
ghost use Rattle.dc_run.specs.declared.limits.TheConstants.{LONG_TRACE_LIMIT};
ghost use Rattle.dc_program.specs.Orders.{stream_limit};
ghost use Rattle.dc_program.specs.World.{IsNew};

use crate::crews::ByThreads;
use crate::opening::{end_unopened, open_both, open_for, open_one};
use crate::world::{Crew, World};
use dc_answer::Exit;
use dc_codes::Code;
use dc_device::{Sink, Source};
use dc_run::{run_check, run_decode, run_find, run_replay};
use dc_run_audit::run_audit;
use dc_run_explain::run_explain;
use dc_run_network::{run_network, run_network_page};
use dc_run_observe::run_observe;
use dc_run_survey::run_survey;
use dc_run_trace::run_trace;
use dc_word::Format;
use std::alloc::Global;

/// Decodes the words on standard input.
pub fn decode<'a, W: World<'a>, S: Source, K: Sink>(
    world: &mut W,
    input: &mut S,
    sink: &mut K,
    format: Format,
) -> Exit
    requires new { IsNew (W.state world.old) }
    requires input { IsCountable (S.state input.old) }
    requires sink { CanFail (K.state sink.old) }
    ensures carries { Carries (Decode format) (W.state world.old) (W.state world.new) (S.state input.old) (S.state input.new) (K.state sink.old)
        (K.state sink.new) result }
    ensures asks { AsksUpTo stream_limit (S.state input.old) (S.state input.new) }
    ensures left { Leaves (K.state sink.old) (K.state sink.new) }
{
    run_decode(format, input, sink)
}

/// Tells what a code means, or what all do.
pub fn explain<'a, W: World<'a>, K: Sink>(
    alloc: Global,
    world: &mut W,
    sink: &mut K,
    code: Option<Code<'a>>,
) -> Exit
    requires new { IsNew (W.state world.old) }
    requires sink { CanFail (K.state sink.old) }
    ensures carries { (input : SourceState) → Carries (Explain code.entry) (W.state world.old) (W.state world.new) input input
        (K.state sink.old) (K.state sink.new) result }
    ensures left { Leaves (K.state sink.old) (K.state sink.new) }
{
    let _ = &world;
    run_explain(alloc, code, sink)
}

/// Judges a certificate by one thread.
pub fn check<'a, W: World<'a>, K: Sink>(
    alloc: Global,
    world: &mut W,
    sink: &mut K,
    tables: &'a str,
    certificate: &'a str,
) -> Exit
    requires new { IsNew (W.state world.old) }
    requires sink { CanFail (K.state sink.old) }
    ensures carries { (input : SourceState) → Carries (Check tables.entry certificate.entry None false) (W.state world.old) (W.state world.new) input input
        (K.state sink.old) (K.state sink.new) result }
    ensures left { Leaves (K.state sink.old) (K.state sink.new) }
{
    match open_both(world, tables, certificate) {
        Ok((mut tables, mut certificate)) => run_check(alloc, &mut tables, &mut certificate, sink),
        Err(why) => end_unopened(why, sink),
    }
}

/// Finds the least certificate for tables.
pub fn find<'a, W: World<'a>, K: Sink>(
    alloc: Global,
    world: &mut W,
    sink: &mut K,
    tables: &'a str,
) -> Exit
    requires new { IsNew (W.state world.old) }
    requires sink { CanFail (K.state sink.old) }
    ensures carries { (input : SourceState) → Carries (Find tables.entry) (W.state world.old) (W.state world.new) input input (K.state sink.old)
        (K.state sink.new) result }
    ensures left { Leaves (K.state sink.old) (K.state sink.new) }
{
    match open_one(world, tables) {
        Ok(mut tables) => run_find(alloc, &mut tables, sink),
        Err(why) => end_unopened(why, sink),
    }
}

/// Surveys the capture on standard input.
pub fn survey<'a, W: World<'a>, S: Source, K: Sink>(
    alloc: Global,
    world: &mut W,
    input: &mut S,
    sink: &mut K,
    tables: &'a str,
) -> Exit
    requires new { IsNew (W.state world.old) }
    requires input { IsCountable (S.state input.old) }
    requires sink { CanFail (K.state sink.old) }
    ensures carries { Carries (Survey tables.entry) (W.state world.old) (W.state world.new) (S.state input.old) (S.state input.new) (K.state sink.old)
        (K.state sink.new) result }
    ensures asks { AsksUpTo CAPTURE_LIMIT (S.state input.old) (S.state input.new) }
    ensures left { Leaves (K.state sink.old) (K.state sink.new) }
{
    match open_one(world, tables) {
        Ok(mut tables) => run_survey(alloc, &mut tables, input, sink),
        Err(why) => end_unopened(why, sink),
    }
}

/// Writes the capture on standard input as a trace.
pub fn trace<'a, W: World<'a>, S: Source, K: Sink>(
    alloc: Global,
    world: &mut W,
    input: &mut S,
    sink: &mut K,
    tables: &'a str,
    from: Option<u64>,
) -> Exit
    requires new { IsNew (W.state world.old) }
    requires input { IsCountable (S.state input.old) }
    requires sink { CanFail (K.state sink.old) }
    ensures carries { Carries (Trace tables.entry from) (W.state world.old) (W.state world.new) (S.state input.old) (S.state input.new) (K.state sink.old)
        (K.state sink.new) result }
    ensures asks { AsksUpTo CAPTURE_LIMIT (S.state input.old) (S.state input.new) }
    ensures left { Leaves (K.state sink.old) (K.state sink.new) }
{
    match open_one(world, tables) {
        Ok(mut tables) => run_trace(alloc, from, &mut tables, input, sink),
        Err(why) => end_unopened(why, sink),
    }
}

/// Replays the trace on standard input.
pub fn replay<'a, W: World<'a>, S: Source, K: Sink>(
    alloc: Global,
    world: &mut W,
    input: &mut S,
    sink: &mut K,
    tables: &'a str,
    all: bool,
    long: bool,
) -> Exit
    requires new { IsNew (W.state world.old) }
    requires input { IsCountable (S.state input.old) }
    requires sink { CanFail (K.state sink.old) }
    ensures carries { Carries (Replay tables.entry all long) (W.state world.old) (W.state world.new) (S.state input.old) (S.state input.new) (K.state sink.old)
        (K.state sink.new) result }
    ensures asks { AsksUpTo (trace_limit long) (S.state input.old) (S.state input.new) }
    ensures left { Leaves (K.state sink.old) (K.state sink.new) }
{
    match open_one(world, tables) {
        Ok(mut tables) => run_replay(alloc, long, all, &mut tables, input, sink),
        Err(why) => end_unopened(why, sink),
    }
}

/// Audits the trace on standard input.
pub fn audit<'a, W: World<'a>, S: Source, K: Sink>(
    alloc: Global,
    world: &mut W,
    input: &mut S,
    sink: &mut K,
    tables: &'a str,
    certificate: &'a str,
    long: bool,
) -> Exit
    requires new { IsNew (W.state world.old) }
    requires input { IsCountable (S.state input.old) }
    requires sink { CanFail (K.state sink.old) }
    ensures carries { Carries (Audit tables.entry certificate.entry long) (W.state world.old) (W.state world.new) (S.state input.old) (S.state input.new)
        (K.state sink.old) (K.state sink.new) result }
    ensures asks { AsksUpTo (trace_limit long) (S.state input.old) (S.state input.new) }
    ensures left { Leaves (K.state sink.old) (K.state sink.new) }
{
    match open_both(world, tables, certificate) {
        Ok((mut tables, mut certificate)) => {
            run_audit(alloc, long, &mut tables, &mut certificate, input, sink)
        }
        Err(why) => end_unopened(why, sink),
    }
}

/// Observes the run of the trace on standard input.
pub fn observe<'a, W: World<'a>, S: Source, K: Sink>(
    alloc: Global,
    world: &mut W,
    input: &mut S,
    sink: &mut K,
    tables: &'a str,
    certificate: &'a str,
) -> Exit
    requires new { IsNew (W.state world.old) }
    requires input { IsCountable (S.state input.old) }
    requires sink { CanFail (K.state sink.old) }
    ensures carries { Carries (Observe tables.entry certificate.entry) (W.state world.old) (W.state world.new) (S.state input.old) (S.state input.new)
        (K.state sink.old) (K.state sink.new) result }
    ensures asks { AsksUpTo LONG_TRACE_LIMIT (S.state input.old) (S.state input.new) }
    ensures left { Leaves (K.state sink.old) (K.state sink.new) }
{
    match open_both(world, tables, certificate) {
        Ok((mut tables, mut certificate)) => {
            run_observe(alloc, &mut tables, &mut certificate, input, sink)
        }
        Err(why) => end_unopened(why, sink),
    }
}

/// Judges a certificate by so many workers.
pub fn check_by<'a, W: World<'a>, K: Sink, H: ByThreads>(
    threads: &H,
    world: &mut W,
    sink: &mut K,
    tables: &'a str,
    certificate: &'a str,
    workers: u8,
) -> Exit
    requires may { H.may_start threads.now }
    requires range { (1 ≤ workers) × (workers ≤ 64) }
    requires new { IsNew (W.state world.old) }
    requires sink { CanFail (K.state sink.old) }
    ensures carries { (input : SourceState) → Carries (Check tables.entry certificate.entry (Some workers) false) (W.state world.old) (W.state world.new)
        input input (K.state sink.old) (K.state sink.new) result }
    ensures left { Leaves (K.state sink.old) (K.state sink.new) }
{
    match open_for(world, Crew::Workers(workers), tables, certificate) {
        Ok((mut tables, mut certificate)) => {
            threads.check(workers, &mut tables, &mut certificate, sink)
        }
        Err(why) => end_unopened(why, sink),
    }
}

/// Runs a hub for so many ticks, and tells its marks or does not.
pub fn bench<'a, W: World<'a>, K: Sink, H: ByThreads>(
    threads: &H,
    world: &mut W,
    sink: &mut K,
    tables: &'a str,
    certificate: &'a str,
    ticks: u16,
    marks: bool,
) -> Exit
    requires may { H.may_start threads.now }
    requires range { (1 ≤ ticks) × (ticks ≤ 1000) }
    requires new { IsNew (W.state world.old) }
    requires sink { CanFail (K.state sink.old) }
    ensures carries { (input : SourceState) → Carries (Bench tables.entry certificate.entry ticks marks) (W.state world.old) (W.state world.new)
        input input (K.state sink.old) (K.state sink.new) result }
    ensures left { Leaves (K.state sink.old) (K.state sink.new) }
{
    match open_for(world, Crew::Actors, tables, certificate) {
        Ok((mut tables, mut certificate)) => {
            threads.bench(ticks, marks, &mut tables, &mut certificate, sink)
        }
        Err(why) => end_unopened(why, sink),
    }
}

/// Judges the network that a system's text says.
pub fn network<'a, W: World<'a>, K: Sink>(
    alloc: Global,
    world: &mut W,
    sink: &mut K,
    system: &'a str,
) -> Exit
    requires new { IsNew (W.state world.old) }
    requires sink { CanFail (K.state sink.old) }
    ensures carries { (input : SourceState) → Carries (Network system.entry None) (W.state world.old) (W.state world.new) input input
        (K.state sink.old) (K.state sink.new) result }
    ensures left { Leaves (K.state sink.old) (K.state sink.new) }
{
    match open_one(world, system) {
        Ok(mut text) => {
            world.is_shelf();
            run_network(alloc, system, &mut text, world, sink)
        }
        Err(why) => end_unopened(why, sink),
    }
}

/// Judges the network that a system's text says, each certificate by so many workers.
pub fn network_by<'a, W: World<'a>, K: Sink, H: ByThreads>(
    threads: &H,
    world: &mut W,
    sink: &mut K,
    system: &'a str,
    workers: u8,
) -> Exit
    requires may { H.may_start threads.now }
    requires range { (1 ≤ workers) × (workers ≤ 64) }
    requires new { IsNew (W.state world.old) }
    requires sink { CanFail (K.state sink.old) }
    ensures carries { (input : SourceState) → Carries (Network system.entry (Some workers)) (W.state world.old) (W.state world.new) input input
        (K.state sink.old) (K.state sink.new) result }
    ensures left { Leaves (K.state sink.old) (K.state sink.new) }
{
    match open_one(world, system) {
        Ok(mut text) => {
            world.ask_threads(Crew::Workers(workers));
            world.is_shelf();
            threads.network(workers, system, &mut text, world, sink)
        }
        Err(why) => end_unopened(why, sink),
    }
}

/// Makes the page on the network that a system's text says.
pub fn network_page<'a, W: World<'a>, K: Sink>(
    alloc: Global,
    world: &mut W,
    sink: &mut K,
    system: &'a str,
) -> Exit
    requires new { IsNew (W.state world.old) }
    requires sink { CanFail (K.state sink.old) }
    ensures carries { (input : SourceState) → Carries (ReportNetwork system.entry) (W.state world.old) (W.state world.new) input input
        (K.state sink.old) (K.state sink.new) result }
    ensures left { Leaves (K.state sink.old) (K.state sink.new) }
{
    match open_one(world, system) {
        Ok(mut text) => {
            world.is_shelf();
            run_network_page(alloc, system, &mut text, world, sink)
        }
        Err(why) => end_unopened(why, sink),
    }
}
