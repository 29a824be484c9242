//! Workers in threads of their own, and the first fault of all jobs.

ghost use Rattle.std.specs.Prelude.{◌≡◌, ℕ, ◌+◌, ◌^◌, ◌<◌, ◌≤◌, ◌≢◌, ◌⊎◌, Option, true, Err, IfOk, IfErr, vec_len, vec_capacity};
ghost use Rattle.dc_check.specs.Verdict.{first_job_fault};
ghost use Rattle.dc_check.specs.declared.fault.CheckFault.{CheckFault};
ghost use Rattle.dc_checkpar.specs.Drawing.{IsFresh, IsLeader};
ghost use Rattle.dc_checkpar.specs.Reports.{AreJudged, AreKnown, ArePromised, IsReport, MayStick};
ghost use Rattle.dc_checkpar.specs.declared.worker.Halt.TheVariants.{GateStuck};
ghost use Rattle.dc_checkpar.specs.declared.limits.TheConstants.{MOST_WORKERS};

use crate::gate::{Gate, Stuck};
use crate::jobs::Jobs;
use crate::laws::{Counter, Drawer};
use crate::worker::{Halt, IsRight, Judged, Report, Shared, judge, work};
use dc_check::CheckFault;
use std::alloc::{AllocError, Global};
use std::snapshot::Snapshot;
use std::sync::Wait;
use std::sync::atomic::{AtomicBool, Ordering};
use std::thread;
use std::thread::{PromisedHandle, Scope, Threads};

type Child<J, G> = PromisedHandle<Report, IsRight<J, G>>;

/// Starts a worker. Where no thread can be made, all workers stop.
fn start<'s, E, J: Jobs + 's, G: Gate + 's>(
    scope: &Scope<'s, E>,
    alloc: Global,
    shared: &Shared<'s, J, G>,
    drawer: Drawer,
) -> Result<Child<J, G>, Halt>
    requires drawer { IsFresh shared.now.source.now drawer }
    requires jobs { J.may_ask shared.now.jobs.now × (shared.now.source.now.1 ≡ J.jobs shared.now.jobs.now) }
    ensures ok { IfOk result (λ h. (h.promise.jobs.value ≡ shared.now.jobs.now) × (h.promise.gate.value ≡ shared.now.gate.now)) }
    ensures err { IfErr result (λ halt. halt ≢ GateStuck) }
{
    let promise = IsRight {
        jobs: Snapshot::of(shared.jobs),
        gate: Snapshot::of(shared.gate),
    };
    let jobs = shared.jobs;
    let gate = shared.gate;
    let source = shared.source;
    let stop = shared.stop;
    let spawned = scope.spawn_with(
        promise,
        move || -> Report
            requires drawer { IsFresh source.now drawer }
            requires jobs { J.may_ask jobs.now × (source.now.1 ≡ J.jobs jobs.now) }
            ensures { IsReport (J.jobs jobs.entry.now) (J.verdict jobs.entry.now) (G.may_stick gate.entry.now) result }
        {
            let shared = Shared {
                jobs,
                gate,
                source,
                stop,
            };
            work(alloc, &shared, drawer)
        },
    );
    let Ok(child) = spawned else {
        stop.store(true, Ordering::SeqCst);
        return Err(Halt::Spawn);
    };
    Ok(child)
}

/// Starts so many workers, each with a drawer of its own.
fn start_all<'s, E, J: Jobs + 's, G: Gate + 's>(
    scope: &Scope<'s, E>,
    alloc: Global,
    shared: &Shared<'s, J, G>,
    leader: &mut Drawer,
    others: usize,
    children: &mut Vec<Child<J, G>>,
) -> Result<(), Halt>
    requires leader { IsLeader shared.now.source.now leader.old }
    requires others { others < MOST_WORKERS }
    requires jobs { J.may_ask shared.now.jobs.now × (shared.now.source.now.1 ≡ J.jobs shared.now.jobs.now) }
    requires room { (vec_len children.old ≡ 0) × (others ≤ vec_capacity children.old) }
    ensures leader { IsFresh shared.now.source.now leader.new }
    ensures children { ArePromised shared.now.jobs.now shared.now.gate.now (λ h. h.promise.jobs.value) (λ h. h.promise.gate.value) children.new.items }
    ensures err { IfErr result (λ halt. halt ≢ GateStuck) }
{
    for _ in 0..others {
        let drawer = shared.source.split(leader);
        match start(scope, alloc, shared, drawer) {
            Ok(child) => children.push_reserved(child),
            Err(halt) => return Err(halt),
        }
    }
    Ok(())
}

/// Puts what was judged beside its jobs.
fn note(known: &mut Vec<Option<Option<CheckFault>>>, judged: &Vec<Judged>)
    ensures known { (verdict : ℕ → Option CheckFault) → AreJudged verdict judged.now.items
        → AreKnown verdict known.old.items → AreKnown verdict known.new.items }
{
    for one in judged {
        if one.job >= known.len() {
            continue;
        }
        known[one.job] = Some(one.fault);
    }
}

/// Joins the workers, and puts what they judged beside its jobs.
fn join_all<J: Jobs, G: Gate, R: Threads>(
    rt: &R,
    shared: &Shared<'_, J, G>,
    children: &mut Vec<Child<J, G>>,
    known: &mut Vec<Option<Option<CheckFault>>>,
) -> Result<(), Halt>
    requires { ArePromised shared.now.jobs.now shared.now.gate.now (λ h. h.promise.jobs.value) (λ h. h.promise.gate.value) children.old.items }
    ensures known { AreKnown (J.verdict shared.now.jobs.now) known.old.items → AreKnown (J.verdict shared.now.jobs.now) known.new.items }
    ensures stuck { result ≡ Err GateStuck → MayStick (J.jobs shared.now.jobs.now) (G.may_stick shared.now.gate.now) }
{
    let _shared = shared;
    let mut end = Ok(());
    while let Some(child) = children.pop() {
        let Report {
            judged,
            end: theirs,
        } = child.join(rt);
        note(known, &judged);
        end = first_halt(end, theirs);
    }
    end
}

/// Why the one or the other worker gave up, the first where both did.
fn first_halt(one: Result<(), Halt>, other: Result<(), Halt>) -> Result<(), Halt>
    ensures { (result ≡ one) ⊎ (result ≡ other) }
{
    if one.is_err() { one } else { other }
}

/// What is known of each job, and whether a worker gave up.
#[derive(Drop)]
struct Found {
    known: Vec<Option<Option<CheckFault>>>,
    end: Result<(), Halt>,
}

/// Starts the other workers, works with them, and joins them.
fn work_together<'s, E, J: Jobs + 's, G: Gate + 's, R: Threads>(
    scope: &Scope<'s, E>,
    rt: &R,
    alloc: Global,
    shared: &Shared<'s, J, G>,
    mut leader: Drawer,
    others: usize,
    mut known: Vec<Option<Option<CheckFault>>>,
) -> Found
    requires leader { IsLeader shared.now.source.now leader }
    requires others { others < MOST_WORKERS }
    requires jobs { J.may_ask shared.now.jobs.now × (shared.now.source.now.1 ≡ J.jobs shared.now.jobs.now) }
    requires known { AreKnown (J.verdict shared.now.jobs.now) known.items }
    ensures known { AreKnown (J.verdict shared.now.jobs.now) result.known.items }
    ensures stuck { result.end ≡ Err GateStuck → MayStick (J.jobs shared.now.jobs.now) (G.may_stick shared.now.gate.now) }
{
    let Ok(mut children) = Vec::with_capacity(alloc, others) else {
        return Found {
            known,
            end: Err(Halt::Memory),
        };
    };
    let started = start_all(scope, alloc, shared, &mut leader, others, &mut children);
    let Report { judged, end } = work(alloc, shared, leader);
    note(&mut known, &judged);
    let joined = join_all(rt, shared, &mut children, &mut known);
    Found {
        known,
        end: first_halt(started, first_halt(end, joined)),
    }
}

/// The same in a scope of threads.
fn in_threads<J: Jobs, G: Gate, R: Threads + Wait + Sync>(
    rt: &R,
    alloc: Global,
    shared: &Shared<'_, J, G>,
    leader: Drawer,
    others: usize,
    known: Vec<Option<Option<CheckFault>>>,
) -> Found
    requires leader { IsLeader shared.now.source.now leader }
    requires others { others < MOST_WORKERS }
    requires jobs { J.may_ask shared.now.jobs.now × (shared.now.source.now.1 ≡ J.jobs shared.now.jobs.now) }
    requires known { AreKnown (J.verdict shared.now.jobs.now) known.items }
    ensures known { AreKnown (J.verdict shared.now.jobs.now) result.known.items }
    ensures stuck { result.end ≡ Err GateStuck → MayStick (J.jobs shared.now.jobs.now) (G.may_stick shared.now.gate.now) }
{
    let jobs = shared.jobs;
    let gate = shared.gate;
    let source = shared.source;
    let stop = shared.stop;
    thread::scope(
        thread::scope_env(),
        rt,
        |scope| -> Found
            requires leader { IsLeader source.now leader }
            requires others { others < MOST_WORKERS }
            requires jobs { J.may_ask jobs.now × (source.now.1 ≡ J.jobs jobs.now) }
            requires known { AreKnown (J.verdict jobs.now) known.items }
            ensures known { AreKnown (J.verdict jobs.entry.now) result.known.items }
            ensures stuck { result.end ≡ Err GateStuck → MayStick (J.jobs jobs.entry.now) (G.may_stick gate.entry.now) }
        {
            let shared = Shared {
                jobs,
                gate,
                source,
                stop,
            };
            work_together(scope, rt, alloc, &shared, leader, others, known)
        },
    )
}

/// A list of jobs of which nothing is known.
fn unknown(alloc: Global, count: usize) -> Result<Vec<Option<Option<CheckFault>>>, AllocError>
    ensures { (verdict : ℕ → Option CheckFault) → IfOk result (λ v. AreKnown verdict v.items) }
{
    let mut known = Vec::with_capacity(alloc, count)?;
    for _ in 0..count {
        known.push(None)?;
    }
    Ok(known)
}

/// The fault of a job, judged now if no result names it.
fn fault_at<J: Jobs, G: Gate>(
    jobs: &J,
    gate: &G,
    known: &Vec<Option<Option<CheckFault>>>,
    job: usize,
) -> Result<Option<CheckFault>, Stuck>
    requires known { AreKnown (J.verdict jobs.now) known.now.items }
    requires ask { J.may_ask jobs.now }
    requires there { job < J.jobs jobs.now }
    ensures ok { IfOk result (λ fault. fault ≡ J.verdict jobs.now job) }
    ensures err { IfErr result (λ _. MayStick (J.jobs jobs.now) (G.may_stick gate.now)) }
{
    if let Some(Some(fault)) = known.get(job) {
        return Ok(*fault);
    }
    judge(jobs, gate, job)
}

/// The first fault, from what is known.
fn decide<J: Jobs, G: Gate>(
    jobs: &J,
    gate: &G,
    known: &Vec<Option<Option<CheckFault>>>,
) -> Result<Option<CheckFault>, Halt>
    requires ask { J.may_ask jobs.now }
    requires known { AreKnown (J.verdict jobs.now) known.now.items }
    ensures ok { IfOk result (λ fault. fault ≡ first_job_fault (J.verdict jobs.now) (J.jobs jobs.now)) }
    ensures stuck { result ≡ Err GateStuck → MayStick (J.jobs jobs.now) (G.may_stick gate.now) }
{
    for job in 0..jobs.len() {
        let Ok(fault) = fault_at(jobs, gate, known, job) else {
            return Err(Halt::GateStuck);
        };
        if fault.is_some() {
            return Ok(fault);
        }
    }
    Ok(None)
}

/// The first fault of all jobs, by so many workers, 1 to `MOST_WORKERS`.
pub(crate) fn first_fault<J: Jobs, G: Gate, R: Threads + Wait + Sync>(
    rt: &R,
    alloc: Global,
    jobs: &J,
    gate: &G,
    workers: usize,
) -> Result<Option<CheckFault>, Halt>
    requires workers { (1 ≤ workers) × (workers ≤ MOST_WORKERS) }
    requires jobs { J.may_ask jobs.now × (J.jobs jobs.now < 2 ^ 63) }
    ensures ok { IfOk result (λ fault. fault ≡ first_job_fault (J.verdict jobs.now) (J.jobs jobs.now)) }
    ensures stuck { result ≡ Err GateStuck → MayStick (J.jobs jobs.now) (G.may_stick gate.now) }
{
    let others = workers - 1;
    let Ok(known) = unknown(alloc, jobs.len()) else {
        return Err(Halt::Memory);
    };
    let Ok((source, leader)) = Counter::new(alloc, jobs.len() as u64) else {
        return Err(Halt::Memory);
    };
    let stop = AtomicBool::new(false);
    let shared = Shared {
        jobs,
        gate,
        source: &source,
        stop: &stop,
    };
    let Found { known, end } = in_threads(rt, alloc, &shared, leader, others, known);
    if let Err(halt) = end {
        return Err(halt);
    }
    decide(jobs, gate, &known)
}
