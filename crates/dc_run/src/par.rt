//! `check --workers`: the verdict on a certificate by several workers, in one line.
ghost use Rattle.std.specs.Prelude.{◌≡◌, ◌≢◌, ◌⊎◌, ℕ, List, [], ◌+◌, ◌<◌, ◌≤◌, IfErr, IfOk, IfSome, MatchResult, None, Some};
ghost use Rattle.std.specs.Arc.{arc_value};
ghost use Rattle.dc_answer.specs.Answer.{Any, LeavesSink, Reported};
ghost use Rattle.dc_answer.specs.Inputs.{OnlyBehind};
ghost use Rattle.dc_answer.specs.Judging.{Keeps};
ghost use Rattle.dc_answer.specs.Threads.{ReportsThreads};
ghost use Rattle.dc_cert.specs.NamedRows.{named_rows};
ghost use Rattle.dc_check.specs.Certified.{KeepsItsClaims};
ghost use Rattle.dc_check.specs.Verdict.{verdict_of};
ghost use Rattle.dc_checkpar.specs.Faults.{IsOfVerdict};
ghost use Rattle.dc_checkpar.specs.declared.limits.TheConstants.{MOST_WORKERS};
ghost use Rattle.dc_device.specs.States.{AsksUpTo, CanFail, IsCountable};
ghost use Rattle.dc_document.specs.declared.limits.TheConstants.{TEXT_LIMIT};
ghost use Rattle.dc_toml.specs.Reading.{tables_of};
ghost use Rattle.dc_run.specs.Check.{AnswersVerdict, ReportsCheck};

use crate::sharing::{JudgeShared, Shared};
use dc_answer::{End, Exit, Outcome, ReadCertificate, ReadTables, Unjudged, With, run};
use dc_cert::Certificate;
use dc_check::laws::no_fault_is_acceptance;
use dc_checkpar::{Open, ParFault, check_par};
use dc_device::{Sink, Source};
use dc_print::{Text, print_accepted, print_refused};
use dc_tables::Tables;
use std::alloc::Global;
use std::marker::Sync;
use std::sync::{Arc, Wait};
use std::thread::Threads;

/// The verdict on a certificate by so many workers.
fn verdict_by<R: Threads + Wait + Sync>(
    rt: &R,
    alloc: Global,
    workers: u8,
    tables: Arc<Tables>,
    certificate: Certificate,
) -> Result<(), ParFault>
    requires { (1 ≤ workers) × (workers ≤ MOST_WORKERS) }
    ensures claims { IfOk result (λ _. KeepsItsClaims (arc_value tables) (named_rows certificate)) }
    ensures exact { MatchResult result (λ _. verdict_of (arc_value tables) (named_rows certificate) ≡ None)
        (λ fault. IsOfVerdict (arc_value tables) (named_rows certificate) fault) }
    ensures unstuck { IfErr result (λ fault. fault ≢ ParFault.GateStuck) }
{
    match check_par(rt, alloc, tables, certificate, usize::from(workers), &Open) {
        Ok(_) => Ok(()),
        Err(fault) => Err(fault),
    }
}

/// Judges a certificate by so many workers, and prints the verdict.
fn judge_by<R: Threads + Wait + Sync>(
    rt: &R,
    alloc: Global,
    workers: u8,
    tables: &Arc<Tables>,
    certificate: Certificate,
    line: &mut Text,
) -> Result<Outcome, Unjudged>
    requires { (1 ≤ workers) × (workers ≤ MOST_WORKERS) }
    ensures answer { Keeps (AnswersVerdict (arc_value tables.now) (named_rows certificate)) line.new.items result }
    ensures cause { IfErr result (λ e. e ≢ Unjudged.Device) }
{
    let Ok(shared) = Arc::try_clone(tables) else {
        return Err(Unjudged::Memory);
    };
    no_fault_is_acceptance(tables);
    match verdict_by(rt, alloc, workers, shared, certificate) {
        Ok(()) => {
            print_accepted(line, tables);
            Ok(Outcome::Done)
        }
        Err(ParFault::Refused(fault)) => {
            print_refused(line, tables, fault);
            Ok(Outcome::Refused)
        }
        Err(ParFault::Memory) => Err(Unjudged::Memory),
        Err(ParFault::Spawn) => Err(Unjudged::Threads),
        Err(ParFault::GateStuck) => unreachable!(),
    }
}

/// The workers that judge, 1 to the most workers.
#[derive(Clone, Copy, Debug, PartialEq, Eq)]
pub struct Workers {
    /// How many.
    pub count: u8,
}

impl JudgeShared for Workers {
    ghost may_judge = { λ w. (1 ≤ w.count) × (w.count ≤ MOST_WORKERS) };

    ghost answers = { λ w t claims. AnswersVerdict t claims };

    fn judge_shared<R: Threads + Wait + Sync>(
        &self,
        rt: &R,
        alloc: Global,
        tables: &Arc<Tables>,
        certificate: Certificate,
        text: &mut Text,
    ) -> Result<Outcome, Unjudged> {
        judge_by(rt, alloc, self.count, tables, certificate, text)
    }
}

/// The engine of `check --workers`.
pub fn workers_engine(count: u8) -> ReadTables<ReadCertificate<Shared<Workers>>>
    ensures { result.0.0.0.count ≡ count }
{
    ReadTables(ReadCertificate(Shared(Workers { count })))
}

/// Judges a certificate for tables by so many workers, 1 to [`MOST_WORKERS`](dc_checkpar::MOST_WORKERS), as
/// [`run_check`](crate::run_check) does by one thread: both texts are read whole from their sources, the tables first,
/// and the verdict is written as one line onto a sink.
///
/// It ends `Done` where the certificate is accepted, and then it keeps its claims in every admissible run of the
/// tables; `Refused` where it is refused; `Unreadable` where a text can't be read; `Failed` where a device failed or
/// memory was refused, `failed memory` alone being written, or `failed device` behind the line or nothing; and `Failed`
/// with `failed threads` alone, of which no clause says when: that it is where a thread could not be started is tested.
/// Where a push or flush failed, a front of one of these or of the line was written. That call is the last of the sink,
/// and at most one pull of each source gives no byte. The certificate is asked for only where the tables are in order.
pub fn run_check_par<T: Source, C: Source, K: Sink, R: Threads + Wait + Sync>(
    rt: &R,
    alloc: Global,
    workers: u8,
    tables: &mut T,
    certificate: &mut C,
    sink: &mut K,
) -> Exit
    requires workers { (1 ≤ workers) × (workers ≤ MOST_WORKERS) }
    requires tables { IsCountable (T.state tables.old) }
    requires certificate { IsCountable (C.state certificate.old) }
    requires sink { CanFail (K.state sink.old) }
    ensures reports { (rows text : List ℕ) → (T.state tables.old).remaining ≡ Some rows → (C.state certificate.old).remaining ≡ Some text
        → ReportsCheck rows text (K.state sink.old).contents (K.state sink.new).contents
        ((T.state tables.old).failed + (C.state certificate.old).failed) ((T.state tables.new).failed + (C.state certificate.new).failed)
        (K.state sink.old).failed (K.state sink.new).failed result
        ⊎ ReportsThreads (K.state sink.old).contents (K.state sink.new).contents
        ((T.state tables.old).failed + (C.state certificate.old).failed) ((T.state tables.new).failed + (C.state certificate.new).failed)
        (K.state sink.old).failed (K.state sink.new).failed result }
    ensures reported { Reported Any (K.state sink.old).contents (K.state sink.new).contents
        ((T.state tables.old).failed + (C.state certificate.old).failed) ((T.state tables.new).failed + (C.state certificate.new).failed)
        (K.state sink.old).failed (K.state sink.new).failed result
        ⊎ ReportsThreads (K.state sink.old).contents (K.state sink.new).contents
        ((T.state tables.old).failed + (C.state certificate.old).failed) ((T.state tables.new).failed + (C.state certificate.new).failed)
        (K.state sink.old).failed (K.state sink.new).failed result }
    ensures asks_tables { AsksUpTo TEXT_LIMIT (T.state tables.old) (T.state tables.new) }
    ensures asks_certificate { AsksUpTo TEXT_LIMIT (C.state certificate.old) (C.state certificate.new) }
    ensures order { IfSome (T.state tables.old).remaining (λ rows. OnlyBehind (tables_of rows) (certificate.new ≡ certificate.old)) }
    ensures left { LeavesSink (K.state sink.old).failed (K.state sink.new).failed (K.state sink.new).last_failed (K.state sink.new).hidden }
    ensures quiet { result ≢ Exit.Failed → (T.state tables.new).failed + (C.state certificate.new).failed + (K.state sink.new).failed
        ≡ (T.state tables.old).failed + (C.state certificate.old).failed + (K.state sink.old).failed }
{
    let mut given = With {
        first: tables,
        rest: With {
            first: certificate,
            rest: End,
        },
    };
    let engine = workers_engine(workers);
    run(rt, alloc, &engine, &mut given, sink)
}
