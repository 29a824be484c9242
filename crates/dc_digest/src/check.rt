//! `check --digest`: the verdict on a certificate in one line, and behind it the digests of both texts.
ghost use Rattle.std.specs.Prelude.{◌≡◌, ◌≢◌, ◌⊎◌, ℕ, List, ◌+◌, ◌≤◌, IfSome, Some};
ghost use Rattle.dc_answer.specs.Answer.{Any, LeavesSink, Reported};
ghost use Rattle.dc_answer.specs.Inputs.{OnlyBehind};
ghost use Rattle.dc_answer.specs.Threads.{ReportsThreads};
ghost use Rattle.dc_checkpar.specs.declared.limits.TheConstants.{MOST_WORKERS};
ghost use Rattle.dc_device.specs.States.{AsksUpTo, CanFail, IsCountable};
ghost use Rattle.dc_document.specs.declared.limits.TheConstants.{TEXT_LIMIT};
ghost use Rattle.dc_toml.specs.Reading.{tables_of};
ghost use Rattle.dc_digest.specs.Digests.{ReportsDigests};

use crate::stages::{DigestCertificate, DigestTables};
use dc_answer::{End, Exit, Then, With, run};
use dc_device::{Sink, Source};
use dc_run::{Check, Shared, Workers};
use std::alloc::Global;
use std::marker::Sync;
use std::sync::Wait;
use std::thread::Threads;

/// The engine of `check --digest`.
pub const CHECK_DIGEST: DigestTables<DigestCertificate<Then<Check>>> = DigestTables(
    DigestCertificate(Then(Check)),
);

/// The engine of `check --digest --workers`.
pub fn digest_workers_engine(count: u8) -> DigestTables<DigestCertificate<Shared<Workers>>>
    ensures { result.0.0.0.count ≡ count }
{
    DigestTables(DigestCertificate(Shared(Workers { count })))
}

/// Judges a certificate for tables as [`run_check`](dc_run::run_check) does, and where both texts were read whole, writes
/// the digests SHA-256 of both behind the verdict: `sha256 tables <digits>` and `sha256 certificate <digits>`, each 64
/// digits in lower case.
///
/// It ends as `run_check` does. The certificate is asked for only where the tables are in order, so no digest is written
/// where they are not.
pub fn run_check_digest<T: Source, C: Source, K: Sink>(
    alloc: Global,
    tables: &mut T,
    certificate: &mut C,
    sink: &mut K,
) -> Exit
    requires tables { IsCountable (T.state tables.old) }
    requires certificate { IsCountable (C.state certificate.old) }
    requires sink { CanFail (K.state sink.old) }
    ensures reports { (rows text : List ℕ) → (T.state tables.old).remaining ≡ Some rows → (C.state certificate.old).remaining ≡ Some text
        → ReportsDigests rows text (K.state sink.old).contents (K.state sink.new).contents
        ((T.state tables.old).failed + (C.state certificate.old).failed) ((T.state tables.new).failed + (C.state certificate.new).failed)
        (K.state sink.old).failed (K.state sink.new).failed result }
    ensures reported { Reported Any (K.state sink.old).contents (K.state sink.new).contents
        ((T.state tables.old).failed + (C.state certificate.old).failed) ((T.state tables.new).failed + (C.state certificate.new).failed)
        (K.state sink.old).failed (K.state sink.new).failed result }
    ensures asks_tables { AsksUpTo TEXT_LIMIT (T.state tables.old) (T.state tables.new) }
    ensures asks_certificate { AsksUpTo TEXT_LIMIT (C.state certificate.old) (C.state certificate.new) }
    ensures order { IfSome (T.state tables.old).remaining (λ rows. OnlyBehind (tables_of rows) (certificate.new ≡ certificate.old)) }
    ensures left { LeavesSink (K.state sink.old).failed (K.state sink.new).failed (K.state sink.new).last_failed (K.state sink.new).hidden }
    ensures quiet { result ≢ Exit.Failed → (T.state tables.new).failed + (C.state certificate.new).failed + (K.state sink.new).failed
        ≡ (T.state tables.old).failed + (C.state certificate.old).failed + (K.state sink.old).failed }
{
    let mut given = With {
        first: tables,
        rest: With {
            first: certificate,
            rest: End,
        },
    };
    run(&(), alloc, &CHECK_DIGEST, &mut given, sink)
}

/// The same by so many workers, 1 to [`MOST_WORKERS`](dc_checkpar::MOST_WORKERS), as
/// [`run_check_par`](dc_run::run_check_par) judges.
pub fn run_check_par_digest<T: Source, C: Source, K: Sink, R: Threads + Wait + Sync>(
    rt: &R,
    alloc: Global,
    workers: u8,
    tables: &mut T,
    certificate: &mut C,
    sink: &mut K,
) -> Exit
    requires workers { (1 ≤ workers) × (workers ≤ MOST_WORKERS) }
    requires tables { IsCountable (T.state tables.old) }
    requires certificate { IsCountable (C.state certificate.old) }
    requires sink { CanFail (K.state sink.old) }
    ensures reports { (rows text : List ℕ) → (T.state tables.old).remaining ≡ Some rows → (C.state certificate.old).remaining ≡ Some text
        → ReportsDigests rows text (K.state sink.old).contents (K.state sink.new).contents
        ((T.state tables.old).failed + (C.state certificate.old).failed) ((T.state tables.new).failed + (C.state certificate.new).failed)
        (K.state sink.old).failed (K.state sink.new).failed result
        ⊎ ReportsThreads (K.state sink.old).contents (K.state sink.new).contents
        ((T.state tables.old).failed + (C.state certificate.old).failed) ((T.state tables.new).failed + (C.state certificate.new).failed)
        (K.state sink.old).failed (K.state sink.new).failed result }
    ensures reported { Reported Any (K.state sink.old).contents (K.state sink.new).contents
        ((T.state tables.old).failed + (C.state certificate.old).failed) ((T.state tables.new).failed + (C.state certificate.new).failed)
        (K.state sink.old).failed (K.state sink.new).failed result
        ⊎ ReportsThreads (K.state sink.old).contents (K.state sink.new).contents
        ((T.state tables.old).failed + (C.state certificate.old).failed) ((T.state tables.new).failed + (C.state certificate.new).failed)
        (K.state sink.old).failed (K.state sink.new).failed result }
    ensures asks_tables { AsksUpTo TEXT_LIMIT (T.state tables.old) (T.state tables.new) }
    ensures asks_certificate { AsksUpTo TEXT_LIMIT (C.state certificate.old) (C.state certificate.new) }
    ensures order { IfSome (T.state tables.old).remaining (λ rows. OnlyBehind (tables_of rows) (certificate.new ≡ certificate.old)) }
    ensures left { LeavesSink (K.state sink.old).failed (K.state sink.new).failed (K.state sink.new).last_failed (K.state sink.new).hidden }
    ensures quiet { result ≢ Exit.Failed → (T.state tables.new).failed + (C.state certificate.new).failed + (K.state sink.new).failed
        ≡ (T.state tables.old).failed + (C.state certificate.old).failed + (K.state sink.old).failed }
{
    let mut given = With {
        first: tables,
        rest: With {
            first: certificate,
            rest: End,
        },
    };
    let engine = digest_workers_engine(workers);
    run(rt, alloc, &engine, &mut given, sink)
}
