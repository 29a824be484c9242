//! A worker: it draws jobs and judges them.

ghost use Rattle.std.specs.Prelude.{◌≡◌, ℕ, ◌<◌, Err, IfOk, IfErr};
ghost use Rattle.dc_checkpar.specs.Drawing.{IsFresh};
ghost use Rattle.dc_checkpar.specs.Reports.{AreJudged, IsReport, MayStick};
ghost use Rattle.dc_checkpar.specs.declared.worker.Halt.TheVariants.{GateStuck};

use crate::gate::{Gate, Stuck};
use crate::jobs::Jobs;
use crate::laws::{Counter, Drawer};
use dc_check::CheckFault;
use std::alloc::Global;
use std::snapshot::Snapshot;
use std::sync::atomic::{AtomicBool, Ordering};
use std::thread::Promise;

/// The fault of a job, if it has one.
#[derive(Clone, Copy, Debug)]
pub(crate) struct Judged {
    pub job: usize,
    pub fault: Option<CheckFault>,
}

/// Why a worker gives up.
#[derive(Clone, Copy, Debug, PartialEq, Eq)]
pub(crate) enum Halt {
    Memory,
    Spawn,
    GateStuck,
}

/// What all workers share: the jobs, the gate before each, the counter that hands them out, and whether all have to
/// stop.
#[derive(Drop)]
pub(crate) struct Shared<'a, J, G> {
    pub jobs: &'a J,
    pub gate: &'a G,
    pub source: &'a Counter,
    pub stop: &'a AtomicBool,
}

/// What a worker has judged, and whether it gave up.
#[derive(Drop)]
pub(crate) struct Report {
    pub judged: Vec<Judged>,
    pub end: Result<(), Halt>,
}

/// That a report is right: each fault in it is that of its job, and it tells of a stuck gate only where the gate may
/// be.
#[derive(Drop)]
pub(crate) struct IsRight<J, G> {
    pub jobs: Snapshot<J>,
    pub gate: Snapshot<G>,
}

impl<J: Jobs, G: Gate> Promise<Report> for IsRight<J, G> {
    ghost kept_by = { λ p r. IsReport (J.jobs p.jobs.value) (J.verdict p.jobs.value) (G.may_stick p.gate.value) r };
}

/// The fault of a job, which enters the gate and leaves it.
pub(crate) fn judge<J: Jobs, G: Gate>(
    jobs: &J,
    gate: &G,
    job: usize,
) -> Result<Option<CheckFault>, Stuck>
    requires ask { J.may_ask jobs.now }
    requires there { job < J.jobs jobs.now }
    ensures ok { IfOk result (λ fault. fault ≡ J.verdict jobs.now job) }
    ensures err { IfErr result (λ _. G.may_stick gate.now job) }
{
    gate.enter(job as u64)?;
    let fault = jobs.fault(job);
    gate.leave(job as u64);
    Ok(fault)
}

/// Draws jobs until none is left, and judges them.
pub(crate) fn work<J: Jobs, G: Gate>(
    alloc: Global,
    shared: &Shared<'_, J, G>,
    drawer: Drawer,
) -> Report
    requires drawer { IsFresh shared.now.source.now drawer }
    requires jobs { J.may_ask shared.now.jobs.now × (shared.now.source.now.1 ≡ J.jobs shared.now.jobs.now) }
    ensures { IsReport (J.jobs shared.now.jobs.now) (J.verdict shared.now.jobs.now) (G.may_stick shared.now.gate.now) result }
{
    let mut judged = Vec::new(alloc);
    let end = judge_all(shared, drawer, &mut judged);
    if end.is_err() {
        shared.stop.store(true, Ordering::SeqCst);
    }
    Report { judged, end }
}

/// Judges what it draws, until none is left or it has to stop.
fn judge_all<J: Jobs, G: Gate>(
    shared: &Shared<'_, J, G>,
    mut drawer: Drawer,
    judged: &mut Vec<Judged>,
) -> Result<(), Halt>
    requires drawer { IsFresh shared.now.source.now drawer }
    requires jobs { J.may_ask shared.now.jobs.now × (shared.now.source.now.1 ≡ J.jobs shared.now.jobs.now) }
    ensures judged { AreJudged (J.verdict shared.now.jobs.now) judged.old.items → AreJudged (J.verdict shared.now.jobs.now) judged.new.items }
    ensures stuck { result ≡ Err GateStuck → MayStick (J.jobs shared.now.jobs.now) (G.may_stick shared.now.gate.now) }
{
    for _ in 0..shared.jobs.len() {
        if shared.stop.load(Ordering::SeqCst) {
            break;
        }
        if judged.reserve(1).is_err() {
            return Err(Halt::Memory);
        }
        let job = shared.source.draw(&mut drawer) as usize;
        if job >= shared.jobs.len() {
            break;
        }
        let Ok(fault) = judge(shared.jobs, shared.gate, job) else {
            return Err(Halt::GateStuck);
        };
        judged.push_reserved(Judged { job, fault });
    }
    Ok(())
}
