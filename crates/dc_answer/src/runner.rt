//! An engine runs: it judges, writes its answer, and ends.
ghost use Rattle.std.specs.Prelude.{◌≡◌, ◌≢◌, ℕ, List, [], ◌+◌, ◌≤◌, Err, IfErr, IfOk, Ok};
ghost use Rattle.dc_device.specs.States.{CanFail};
ghost use Rattle.dc_answer.specs.Answer.{Any, Ends, SettlesBy, judged_answer, sink_failures_of};
ghost use Rattle.dc_answer.specs.Given.{AreCountable, AreTexts, AskUpTo, OnlyAfter, failures};
ghost use Rattle.dc_answer.specs.Judging.{Finishes, Leaves, ReportsJudged, ReportsSome, to_write};
ghost use Rattle.dc_answer.specs.Threads.{ReportsThreads};

use crate::answer::{Failure, end_with, report};
use crate::exit::{Exit, Outcome};
use crate::given::Given;
use crate::judge::{Judge, Unjudged};
use crate::page::Page;
use dc_device::{LineWriter, Sink};
use std::alloc::Global;

/// What is written of what was judged: nothing where no thread could be started.
fn written(judged: Result<Outcome, Unjudged>) -> Option<Result<Outcome, Failure>>
    ensures { result ≡ to_write judged }
{
    match judged {
        Ok(outcome) => Some(Ok(outcome)),
        Err(Unjudged::Device) => Some(Err(Failure::Source)),
        Err(Unjudged::Memory) => Some(Err(Failure::Memory)),
        Err(Unjudged::Threads) => None,
    }
}

/// Writes the page of what was judged, where there is one.
fn say_page<K: Sink>(
    judged: Result<Outcome, Failure>,
    page: &Page,
    writer: &mut LineWriter,
    sink: &mut K,
) -> Result<Outcome, Failure>
    requires new { writer.old ≡ [] }
    requires countable { CanFail (K.state sink.old) }
    requires sink { IfErr judged (λ e. e ≢ Failure.Sink) }
    ensures bytes { Ends (K.state sink.old).contents [] (K.state sink.new).contents (judged_answer page.now judged) result }
    ensures empty { writer.new ≡ [] }
    ensures count { (K.state sink.new).failed ≡ (K.state sink.old).failed + sink_failures_of result }
    ensures same { IfOk result (λ outcome. judged ≡ Ok outcome) }
    ensures failure { IfErr result (λ e. e ≢ Failure.Sink → judged ≡ Err e) }
    ensures settled { SettlesBy result (K.state sink.new).last_failed (K.state sink.new).hidden }
    ensures answered { (K.state sink.new).answered ≡ (K.state sink.old).answered }
{
    match judged {
        Ok(outcome) => match page.write(writer, sink) {
            Ok(()) => Ok(outcome),
            Err(_) => Err(Failure::Sink),
        },
        Err(failure) => Err(failure),
    }
}

/// Writes what was judged, and ends.
fn finish<K: Sink>(judged: Result<Outcome, Failure>, page: &Page, sink: &mut K) -> Exit
    requires countable { CanFail (K.state sink.old) }
    requires sink { IfErr judged (λ e. e ≢ Failure.Sink) }
    ensures finishes { Finishes judged page.now (K.state sink.old) (K.state sink.new) result }
    ensures left { Leaves (K.state sink.old) (K.state sink.new) }
    ensures quiet { result ≢ Exit.Failed → (K.state sink.new).failed ≡ (K.state sink.old).failed }
{
    let mut writer = LineWriter::new();
    let ended = say_page(judged, page, &mut writer, sink);
    report(ended, &mut writer, sink)
}

/// Writes that a thread could not be started, and ends.
fn end_without_thread<K: Sink>(sink: &mut K) -> Exit
    requires { CanFail (K.state sink.old) }
    ensures reports { (sources sources' : ℕ) → sources' ≡ sources
        → ReportsThreads (K.state sink.old).contents (K.state sink.new).contents sources sources' (K.state sink.old).failed (K.state sink.new).failed result }
    ensures left { Leaves (K.state sink.old) (K.state sink.new) }
    ensures exit { result ≡ Exit.Failed }
{
    let mut writer = LineWriter::new();
    let _ = end_with(&mut writer, sink, b"failed threads");
    Exit::Failed
}

/// Runs an engine: it judges the texts that its sources give, in their order, and writes the answer onto a sink.
///
/// It ends as was judged; `Failed` where a device failed or memory was refused: `failed memory` alone was written, or
/// `failed device` behind whole lines of a front of the answer; and, where the engine starts threads, `Failed` with
/// `failed threads` alone, of which no clause says when. Where a push or flush failed, a front of one of these or of the
/// answer was written. That call is the last of the sink, and at most one pull of each source gives no byte.
pub fn run<H, G: Given, J: Judge<H, (), G>, K: Sink>(
    rt: &H,
    alloc: Global,
    engine: &J,
    given: &mut G,
    sink: &mut K,
) -> Exit
    requires may { J.may_judge engine.now }
    requires sources { AreCountable (G.states given.old) }
    requires sink { CanFail (K.state sink.old) }
    ensures reports { (texts : List (List ℕ)) → AreTexts (G.states given.old) texts
        → ReportsJudged (J.answers engine.now tt texts) (J.starts_threads engine.now)
        (G.states given.old) (G.states given.new) (K.state sink.old) (K.state sink.new) result }
    ensures reported { ReportsSome Any (J.starts_threads engine.now) (G.states given.old) (G.states given.new) (K.state sink.old) (K.state sink.new) result }
    ensures asks { AskUpTo (J.limits engine.now) (G.states given.old) (G.states given.new) }
    ensures order { OnlyAfter (J.goes_on engine.now tt) (G.states given.old) (λ k. G.kept k given.old given.new) }
    ensures left { Leaves (K.state sink.old) (K.state sink.new) }
    ensures quiet { result ≢ Exit.Failed → failures (G.states given.new) + (K.state sink.new).failed
        ≡ failures (G.states given.old) + (K.state sink.old).failed }
    ensures lent { G.lent given.new ≡ G.lent given.old }
{
    let mut page = Page::new(alloc);
    let judged = engine.judge(rt, alloc, (), given, &mut page);
    match written(judged) {
        Some(judged) => finish(judged, &page, sink),
        None => end_without_thread(sink),
    }
}
