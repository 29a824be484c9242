//! What runs the engines that start threads.
ghost use Rattle.std.specs.Prelude.{◌≡◌, ◌⊎◌, ◌+◌, ◌≤◌, ℕ, IfSome, List, Some};
ghost use Rattle.std.specs.Thread.{IsSync};
ghost use Rattle.dc_answer.specs.Answer.{Any, LeavesSink, Reported};
ghost use Rattle.dc_answer.specs.Judging.{Leaves};
ghost use Rattle.dc_answer.specs.Threads.{ReportsThreads};
ghost use Rattle.dc_device.specs.States.{CanFail, IsCountable};
ghost use Rattle.dc_run.specs.Check.{ReportsCheck};
ghost use Rattle.dc_run_bench.specs.Bench.{ReportsBench};
ghost use Rattle.dc_digest.specs.Digests.{ReportsDigests};
ghost use Rattle.dc_run_network.specs.Answer.{IsLines, ReportsNetwork};
ghost use Rattle.dc_run_network.specs.Paths.{folder_of};

use dc_answer::Exit;
use dc_device::{Sink, Source};
use dc_digest::run_check_par_digest;
use dc_run::run_check_par;
use dc_run_bench::run_bench;
use dc_run_network::{Shelf, run_network_par};
use std::marker::Sync;
use std::sync::Wait;
use std::thread::Threads;

/// What runs the engines that start threads.
pub trait ByThreads {
    // That it may start them.
    ghost may_start: { Self → Type 0 };

    /// Judges a certificate by so many workers, 1 to [`MOST_WORKERS`](dc_command::MOST_WORKERS), as
    /// [`run_check_par`](dc_run::run_check_par) does.
    fn check<T: Source, C: Source, K: Sink>(
        &self,
        workers: u8,
        tables: &mut T,
        certificate: &mut C,
        sink: &mut K,
    ) -> Exit
        requires may { may_start self.now }
        requires workers { (1 ≤ workers) × (workers ≤ 64) }
        requires tables { IsCountable (T.state tables.old) }
        requires certificate { IsCountable (C.state certificate.old) }
        requires sink { CanFail (K.state sink.old) }
        ensures reports { (rows claims : List ℕ) → (T.state tables.old).remaining ≡ Some rows → (C.state certificate.old).remaining ≡ Some claims
            → ReportsCheck rows claims (K.state sink.old).contents (K.state sink.new).contents
            ((T.state tables.old).failed + (C.state certificate.old).failed) ((T.state tables.new).failed + (C.state certificate.new).failed)
            (K.state sink.old).failed (K.state sink.new).failed result
            ⊎ ReportsThreads (K.state sink.old).contents (K.state sink.new).contents
            ((T.state tables.old).failed + (C.state certificate.old).failed) ((T.state tables.new).failed + (C.state certificate.new).failed)
            (K.state sink.old).failed (K.state sink.new).failed result }
        ensures reported { Reported Any (K.state sink.old).contents (K.state sink.new).contents
            ((T.state tables.old).failed + (C.state certificate.old).failed) ((T.state tables.new).failed + (C.state certificate.new).failed)
            (K.state sink.old).failed (K.state sink.new).failed result
            ⊎ ReportsThreads (K.state sink.old).contents (K.state sink.new).contents
            ((T.state tables.old).failed + (C.state certificate.old).failed) ((T.state tables.new).failed + (C.state certificate.new).failed)
            (K.state sink.old).failed (K.state sink.new).failed result }
        ensures left { LeavesSink (K.state sink.old).failed (K.state sink.new).failed (K.state sink.new).last_failed (K.state sink.new).hidden };

    /// The same with the digests of both texts behind the verdict, as
    /// [`run_check_par_digest`](dc_digest::run_check_par_digest) does.
    fn check_digest<T: Source, C: Source, K: Sink>(
        &self,
        workers: u8,
        tables: &mut T,
        certificate: &mut C,
        sink: &mut K,
    ) -> Exit
        requires may { may_start self.now }
        requires workers { (1 ≤ workers) × (workers ≤ 64) }
        requires tables { IsCountable (T.state tables.old) }
        requires certificate { IsCountable (C.state certificate.old) }
        requires sink { CanFail (K.state sink.old) }
        ensures reports { (rows claims : List ℕ) → (T.state tables.old).remaining ≡ Some rows → (C.state certificate.old).remaining ≡ Some claims
            → ReportsDigests rows claims (K.state sink.old).contents (K.state sink.new).contents
            ((T.state tables.old).failed + (C.state certificate.old).failed) ((T.state tables.new).failed + (C.state certificate.new).failed)
            (K.state sink.old).failed (K.state sink.new).failed result
            ⊎ ReportsThreads (K.state sink.old).contents (K.state sink.new).contents
            ((T.state tables.old).failed + (C.state certificate.old).failed) ((T.state tables.new).failed + (C.state certificate.new).failed)
            (K.state sink.old).failed (K.state sink.new).failed result }
        ensures reported { Reported Any (K.state sink.old).contents (K.state sink.new).contents
            ((T.state tables.old).failed + (C.state certificate.old).failed) ((T.state tables.new).failed + (C.state certificate.new).failed)
            (K.state sink.old).failed (K.state sink.new).failed result
            ⊎ ReportsThreads (K.state sink.old).contents (K.state sink.new).contents
            ((T.state tables.old).failed + (C.state certificate.old).failed) ((T.state tables.new).failed + (C.state certificate.new).failed)
            (K.state sink.old).failed (K.state sink.new).failed result }
        ensures left { LeavesSink (K.state sink.old).failed (K.state sink.new).failed (K.state sink.new).last_failed (K.state sink.new).hidden };

    /// Judges a network, each certificate by so many workers, 1 to [`MOST_WORKERS`](dc_command::MOST_WORKERS), as
    /// [`run_network_par`](dc_run_network::run_network_par) does.
    fn network<S: Source, F: Shelf, K: Sink>(
        &self,
        workers: u8,
        path: &str,
        system: &mut S,
        shelf: &mut F,
        sink: &mut K,
    ) -> Exit
        requires may { may_start self.now }
        requires workers { (1 ≤ workers) × (workers ≤ 64) }
        requires source { IsCountable (S.state system.old) }
        requires sink { CanFail (K.state sink.old) }
        ensures reports { IfSome (S.state system.old).remaining (λ text. ReportsNetwork IsLines (Unit {0}) (F.holds shelf.old) (folder_of path.now) text
            (K.state sink.old) (K.state sink.new) result) }
        ensures keeps { F.keeps shelf.old shelf.new }
        ensures left { Leaves (K.state sink.old) (K.state sink.new) };

    /// Runs a hub for so many ticks, 1 to [`MOST_TICKS`](dc_command::MOST_TICKS), and tells its marks or does not, as
    /// [`run_bench`](dc_run_bench::run_bench) does.
    fn bench<T: Source, C: Source, K: Sink>(
        &self,
        ticks: u16,
        marks: bool,
        tables: &mut T,
        certificate: &mut C,
        sink: &mut K,
    ) -> Exit
        requires may { may_start self.now }
        requires ticks { (1 ≤ ticks) × (ticks ≤ 1000) }
        requires tables { IsCountable (T.state tables.old) }
        requires certificate { IsCountable (C.state certificate.old) }
        requires sink { CanFail (K.state sink.old) }
        ensures reports { (rows claims : List ℕ) → (T.state tables.old).remaining ≡ Some rows → (C.state certificate.old).remaining ≡ Some claims
            → ReportsBench rows claims ticks marks (K.state sink.old).contents (K.state sink.new).contents
            ((T.state tables.old).failed + (C.state certificate.old).failed) ((T.state tables.new).failed + (C.state certificate.new).failed)
            (K.state sink.old).failed (K.state sink.new).failed result
            ⊎ ReportsThreads (K.state sink.old).contents (K.state sink.new).contents
            ((T.state tables.old).failed + (C.state certificate.old).failed) ((T.state tables.new).failed + (C.state certificate.new).failed)
            (K.state sink.old).failed (K.state sink.new).failed result }
        ensures reported { Reported Any (K.state sink.old).contents (K.state sink.new).contents
            ((T.state tables.old).failed + (C.state certificate.old).failed) ((T.state tables.new).failed + (C.state certificate.new).failed)
            (K.state sink.old).failed (K.state sink.new).failed result
            ⊎ ReportsThreads (K.state sink.old).contents (K.state sink.new).contents
            ((T.state tables.old).failed + (C.state certificate.old).failed) ((T.state tables.new).failed + (C.state certificate.new).failed)
            (K.state sink.old).failed (K.state sink.new).failed result }
        ensures left { LeavesSink (K.state sink.old).failed (K.state sink.new).failed (K.state sink.new).last_failed (K.state sink.new).hidden };
}

/// A runtime, which starts threads.
#[derive(Clone, Copy)]
pub struct Started<'r, R>(pub &'r R);

impl<'r, R: AllocGlobal + Threads + Wait + Sync> ByThreads for Started<'r, R> {
    ghost may_start = { λ x. IsSync R.row };

    fn check<T: Source, C: Source, K: Sink>(
        &self,
        workers: u8,
        tables: &mut T,
        certificate: &mut C,
        sink: &mut K,
    ) -> Exit {
        let runtime = self.0;
        run_check_par(runtime, runtime.alloc(), workers, tables, certificate, sink)
    }

    fn check_digest<T: Source, C: Source, K: Sink>(
        &self,
        workers: u8,
        tables: &mut T,
        certificate: &mut C,
        sink: &mut K,
    ) -> Exit {
        let runtime = self.0;
        let alloc = runtime.alloc();
        run_check_par_digest(runtime, alloc, workers, tables, certificate, sink)
    }

    fn network<S: Source, F: Shelf, K: Sink>(
        &self,
        workers: u8,
        path: &str,
        system: &mut S,
        shelf: &mut F,
        sink: &mut K,
    ) -> Exit {
        let runtime = self.0;
        let alloc = runtime.alloc();
        run_network_par(runtime, alloc, workers, path, system, shelf, sink)
    }

    fn bench<T: Source, C: Source, K: Sink>(
        &self,
        ticks: u16,
        marks: bool,
        tables: &mut T,
        certificate: &mut C,
        sink: &mut K,
    ) -> Exit {
        let runtime = self.0;
        run_bench(
            runtime,
            runtime.alloc(),
            ticks,
            marks,
            tables,
            certificate,
            sink,
        )
    }
}
