//! Gates before the jobs of 64 buses that are alike, each with a router of its own, one output and one label.

ghost use Rattle.std.specs.Prelude.{◌≤◌};

use dc_cert::Certificate;
use dc_checkpar::{Gate, ParFault, check_par};
use dc_tables::Tables;
use dc_test_gates::{Against, Counting, Meeting, Recording};
use dc_test_tables::{certificate_of, push_equal_certificate, push_equal_tables, tables_of};
use std::alloc::Global;
use std::process::Abort;
use std::rt::HostRuntime;
use std::sync::{Arc, Wait};
use std::test::Fail;
use std::thread::Threads;

/// How many jobs there are.
const JOBS: u64 = 66;

/// What a check says: the number of inputs of what is certified, or the fault.
type Answer = Result<usize, ParFault>;

/// Tables of 64 equal buses, and with what they need 66 jobs.
fn tables(alloc: Global) -> Result<Tables, Fail> {
    let mut text = String::new(alloc);
    push_equal_tables(&mut text, 64, false)?;
    Ok(tables_of(alloc, text.as_str())?)
}

/// The least certificate, which is accepted.
fn certificate(alloc: Global) -> Result<Certificate, Fail> {
    let mut text = String::new(alloc);
    push_equal_certificate(&mut text, 64)?;
    Ok(certificate_of(alloc, text.as_str())?)
}

/// What a check by so many workers says.
fn answer<G: Gate, R: Threads + Wait + Sync>(
    rt: &R,
    alloc: Global,
    tables: &Arc<Tables>,
    workers: usize,
    gate: &G,
) -> Result<Answer, Fail>
    requires { (1 ≤ workers) × (workers ≤ 64) }
{
    let certificate = certificate(alloc)?;
    match check_par(rt, alloc, tables.clone()?, certificate, workers, gate) {
        Ok(certified) => Ok(Ok(certified.certificate().inputs.len())),
        Err(fault) => Ok(Err(fault)),
    }
}

/// A worker is let in while another is held: so many workers run at one time.
fn two_meet<R: Threads + Wait + Sync + Abort>(
    rt: &R,
    alloc: Global,
    tables: &Arc<Tables>,
) -> Result<(), Fail> {
    for workers in [2, 64] {
        let reported = answer(rt, alloc, tables, workers, &Meeting::new())?;
        assert!(rt; reported == Ok(64), "{workers} workers");
    }
    Ok(())
}

/// A gate that lets in so many: this is the answer, and who has entered has left.
fn lets_in<R: Threads + Wait + Sync + Abort>(
    rt: &R,
    alloc: Global,
    tables: &Arc<Tables>,
    most: u64,
    wanted: Answer,
) -> Result<(), Fail> {
    for workers in [1, 2, 64] {
        let gate = Counting::new(most);
        let reported = answer(rt, alloc, tables, workers, &gate)?;
        assert!(rt; reported == wanted, "{workers} workers");
        let (entered, left) = gate.counts();
        assert!(rt; left == entered.min(most), "{workers} workers");
        if reported.is_ok() {
            assert!(rt; entered == JOBS, "{workers} workers");
        }
    }
    Ok(())
}

/// A gate that keeps one job out, and no other.
fn keeps_one_out<R: Threads + Wait + Sync + Abort>(
    rt: &R,
    alloc: Global,
    tables: &Arc<Tables>,
) -> Result<(), Fail> {
    for workers in [1, 2, 64] {
        let reported = answer(rt, alloc, tables, workers, &Against::new(3))?;
        assert!(rt; reported == Err(ParFault::GateStuck), "{workers} workers");
    }
    Ok(())
}

/// Each job enters by its own number, once, and leaves.
fn enter_once<R: Threads + Wait + Sync + Abort>(
    rt: &R,
    alloc: Global,
    tables: &Arc<Tables>,
) -> Result<(), Fail> {
    for workers in [1, 2, 64] {
        let gate = Recording::new(alloc, 66)?;
        let reported = answer(rt, alloc, tables, workers, &gate)?;
        assert!(rt; reported == Ok(64), "{workers} workers");
        for job in 0..66 {
            assert!(rt; gate.rounds(job) == Some(1), "{workers} workers, job {job}");
        }
    }
    Ok(())
}

#[test]
fn each_job_enters_by_its_number_and_leaves(rt: HostRuntime) -> Result<(), Fail> {
    let tables = Arc::new(rt.alloc(), tables(rt.alloc())?)?;
    enter_once(&rt, rt.alloc(), &tables)
}

#[test]
fn a_gate_that_is_stuck_at_one_job_is_reported(rt: HostRuntime) -> Result<(), Fail> {
    let tables = Arc::new(rt.alloc(), tables(rt.alloc())?)?;
    keeps_one_out(&rt, rt.alloc(), &tables)
}

#[test]
fn two_workers_run_at_one_time(rt: HostRuntime) -> Result<(), Fail> {
    let tables = Arc::new(rt.alloc(), tables(rt.alloc())?)?;
    two_meet(&rt, rt.alloc(), &tables)
}

#[test]
fn a_stuck_gate_is_reported_and_each_job_is_left(rt: HostRuntime) -> Result<(), Fail> {
    let tables = Arc::new(rt.alloc(), tables(rt.alloc())?)?;
    for most in 0..JOBS {
        lets_in(&rt, rt.alloc(), &tables, most, Err(ParFault::GateStuck))?;
    }
    lets_in(&rt, rt.alloc(), &tables, JOBS, Ok(64))
}
