//! `bench`: a hub over certified tables is seen running.
ghost use Rattle.std.specs.Prelude.{◌≡◌, ◌≢◌, ◌⊎◌, ℕ, List, [], ◌+◌, ◌<◌, ◌≤◌, IfErr, IfOk, IfSome, Some};
ghost use Rattle.std.specs.Arc.{arc_value};
ghost use Rattle.std.specs.Thread.{IsSync};
ghost use Rattle.dc_answer.specs.Answer.{Any, LeavesSink, Reported};
ghost use Rattle.dc_answer.specs.Inputs.{OnlyBehind};
ghost use Rattle.dc_answer.specs.Judging.{Keeps};
ghost use Rattle.dc_answer.specs.Threads.{ReportsThreads};
ghost use Rattle.dc_run_bench.specs.Bench.{AnswersCertificate, ReportsBench};
ghost use Rattle.dc_cert.specs.NamedRows.{named_rows};
ghost use Rattle.dc_toml.specs.Reading.{tables_of};
ghost use Rattle.dc_script.specs.declared.limits.TheConstants.{LONGEST_SCRIPT};
ghost use Rattle.dc_document.specs.declared.limits.TheConstants.{TEXT_LIMIT};
ghost use Rattle.dc_device.specs.States.{AsksUpTo, CanFail, IsCountable};

use crate::driven::run_certified;
use dc_answer::{
    End, Exit, Judge, Outcome, Page, ReadCertificate, ReadTables, Unjudged, With, run,
};
use dc_cert::Certificate;
use dc_check::check;
use dc_device::{Sink, Source};
use dc_print::{Text, print_refused};
use dc_tables::Tables;
use std::alloc::Global;
use std::marker::Sync;
use std::sync::{Arc, Wait};
use std::thread::Threads;

/// Judges a certificate, and where it is accepted runs a hub for so many ticks, and keeps what is seen of its book, with
/// its marks or without.
fn bench_certificate<R: Threads + Wait + Sync>(
    rt: &R,
    alloc: Global,
    ticks: u16,
    marks: bool,
    tables: &Arc<Tables>,
    certificate: Certificate,
    page: &mut Page,
) -> Result<Outcome, Unjudged>
    requires { (1 ≤ ticks) × (ticks ≤ LONGEST_SCRIPT) }
    ensures answer { Keeps (AnswersCertificate ticks marks (arc_value tables.now) (named_rows certificate)) page.new result }
    ensures cause { IfErr result (λ e. e ≢ Unjudged.Device) }
{
    let Ok(shared) = Arc::try_clone(tables) else {
        return Err(Unjudged::Memory);
    };
    match check(shared, certificate) {
        Ok(certified) => {
            run_certified(rt, alloc, u64::from(ticks), marks, tables, certified, page)
        }
        Err(fault) => {
            let mut text = Text::new();
            print_refused(&mut text, tables, fault);
            page.tell(text);
            Ok(Outcome::Refused)
        }
    }
}

/// For how many ticks a hub is to run, and whether the marks of its book are told.
#[derive(Clone, Copy, Debug, PartialEq, Eq)]
pub struct Bench {
    /// How many, 1 to [`LONGEST_SCRIPT`](dc_script::LONGEST_SCRIPT).
    pub ticks: u16,
    /// Whether they are.
    pub marks: bool,
}

/// Judges a certificate for tables that threads are to share.
fn share_and_bench<R: Threads + Wait + Sync>(
    rt: &R,
    alloc: Global,
    bench: Bench,
    tables: Tables,
    certificate: Certificate,
    page: &mut Page,
) -> Result<Outcome, Unjudged>
    requires { (1 ≤ bench.ticks) × (bench.ticks ≤ LONGEST_SCRIPT) }
    ensures answer { Keeps (AnswersCertificate bench.ticks bench.marks tables (named_rows certificate)) page.new result }
    ensures cause { IfErr result (λ e. e ≢ Unjudged.Device) }
{
    match Arc::new(alloc, tables) {
        Ok(tables) => {
            bench_certificate(
                rt,
                alloc,
                bench.ticks,
                bench.marks,
                &tables,
                certificate,
                page,
            )
        }
        Err(_) => Err(Unjudged::Memory),
    }
}

impl<R: Threads + Wait + Sync> Judge<R, (Tables, Certificate), End> for Bench {
    ghost may_judge = { λ b. ((1 ≤ b.ticks) × (b.ticks ≤ LONGEST_SCRIPT)) × IsSync R.row };

    ghost starts_threads = { λ b. Unit {0} };

    ghost limits = { λ b. [] };

    ghost goes_on = { λ b known texts. Unit {0} };

    ghost answers = { λ b known texts answer. AnswersCertificate b.ticks b.marks known.0 (named_rows known.1) answer };

    fn judge(
        &self,
        rt: &R,
        alloc: Global,
        known: (Tables, Certificate),
        _given: &mut End,
        page: &mut Page,
    ) -> Result<Outcome, Unjudged> {
        let (tables, certificate) = known;
        share_and_bench(rt, alloc, *self, tables, certificate, page)
    }
}

/// The engine of `bench`.
pub fn bench_engine(ticks: u16, marks: bool) -> ReadTables<ReadCertificate<Bench>>
    ensures ticks { result.0.0.ticks ≡ ticks }
    ensures marks { result.0.0.marks ≡ marks }
{
    ReadTables(ReadCertificate(Bench { ticks, marks }))
}

/// Judges a certificate for tables, both read whole from their sources, the tables first, and where it is accepted
/// writes onto a sink what is seen of a closed book: a line each for the ticks, 1 to
/// [`LONGEST_SCRIPT`](dc_script::LONGEST_SCRIPT), the entries, the overruns, and the claims by the ages of the book's
/// certificate; or that the hub refused. Where its marks are asked for, a line follows for each bus in the order of the
/// tables: its name, the greatest backlog that its wire was answered by the book's entries, and the backlog that the
/// certificate has for it. That the book is of a hub over these tables that ran for so many ticks is tested.
///
/// It ends `Done` where the claims hold; `Refused` where one fails, the certificate is refused or the hub refused;
/// `Unreadable` where a text can't be read; `Failed` where a device failed or memory was refused, `failed memory` alone
/// being written, or `failed device` behind whole lines of a front of the answer; and `Failed` with `failed threads`
/// alone, of which no clause says when: that it is where a thread could not be started is tested. Where a push or flush
/// failed, a front of one of these or of the answer was written. That call is the last of the sink, and at most one
/// pull of each source gives no byte. The certificate is asked for only where the tables are in order.
pub fn run_bench<T: Source, C: Source, K: Sink, R: Threads + Wait + Sync>(
    rt: &R,
    alloc: Global,
    ticks: u16,
    marks: bool,
    tables: &mut T,
    certificate: &mut C,
    sink: &mut K,
) -> Exit
    requires ticks { (1 ≤ ticks) × (ticks ≤ LONGEST_SCRIPT) }
    requires tables { IsCountable (T.state tables.old) }
    requires certificate { IsCountable (C.state certificate.old) }
    requires sink { CanFail (K.state sink.old) }
    ensures reports { (rows claims : List ℕ) → (T.state tables.old).remaining ≡ Some rows → (C.state certificate.old).remaining ≡ Some claims
        → ReportsBench rows claims ticks marks (K.state sink.old).contents (K.state sink.new).contents
        ((T.state tables.old).failed + (C.state certificate.old).failed) ((T.state tables.new).failed + (C.state certificate.new).failed)
        (K.state sink.old).failed (K.state sink.new).failed result
        ⊎ ReportsThreads (K.state sink.old).contents (K.state sink.new).contents
        ((T.state tables.old).failed + (C.state certificate.old).failed) ((T.state tables.new).failed + (C.state certificate.new).failed)
        (K.state sink.old).failed (K.state sink.new).failed result }
    ensures reported { Reported Any (K.state sink.old).contents (K.state sink.new).contents
        ((T.state tables.old).failed + (C.state certificate.old).failed) ((T.state tables.new).failed + (C.state certificate.new).failed)
        (K.state sink.old).failed (K.state sink.new).failed result
        ⊎ ReportsThreads (K.state sink.old).contents (K.state sink.new).contents
        ((T.state tables.old).failed + (C.state certificate.old).failed) ((T.state tables.new).failed + (C.state certificate.new).failed)
        (K.state sink.old).failed (K.state sink.new).failed result }
    ensures asks_tables { AsksUpTo TEXT_LIMIT (T.state tables.old) (T.state tables.new) }
    ensures asks_certificate { AsksUpTo TEXT_LIMIT (C.state certificate.old) (C.state certificate.new) }
    ensures order { IfSome (T.state tables.old).remaining (λ rows. OnlyBehind (tables_of rows) (certificate.new ≡ certificate.old)) }
    ensures left { LeavesSink (K.state sink.old).failed (K.state sink.new).failed (K.state sink.new).last_failed (K.state sink.new).hidden }
    ensures quiet { result ≢ Exit.Failed → (T.state tables.new).failed + (C.state certificate.new).failed + (K.state sink.new).failed
        ≡ (T.state tables.old).failed + (C.state certificate.old).failed + (K.state sink.old).failed }
{
    let mut given = With {
        first: tables,
        rest: With {
            first: certificate,
            rest: End,
        },
    };
    let engine = bench_engine(ticks, marks);
    run(rt, alloc, &engine, &mut given, sink)
}
