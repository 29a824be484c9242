//! `design`: tables for the two sheets of an interface document, certified as they are written.
ghost use Rattle.std.specs.Prelude.{◌≡◌, ◌≢◌, ℕ, List, [], ◌+◌, ◌<◌, IfErr, IfOk, Some};
ghost use Rattle.dc_answer.specs.Answer.{Any, Ends, LeavesSink, Raises, Reported, SettlesBy, judged_answer, sink_failures_of};
ghost use Rattle.dc_answer.specs.Judging.{Finishes, Keeps, Leaves};
ghost use Rattle.dc_device.specs.States.{AsksUpTo, CanFail, IsCountable};
ghost use Rattle.dc_document.specs.declared.limits.TheConstants.{TEXT_LIMIT};
ghost use Rattle.dc_run_design.specs.Design.{AnswersDesign, ReportsDesign};

use crate::search::Plan;
use crate::sheets::{design_texts, read_sheet};
use dc_answer::{Exit, Failure, Outcome, Page, report};
use dc_device::{LineWriter, Sink, Source};
use std::alloc::Global;

/// Judges both sheets, and keeps the answer and the text of the certificate.
fn judge<I: Source, O: Source>(
    alloc: Global,
    plan: Plan,
    inputs: &mut I,
    outputs: &mut O,
    page: &mut Page,
    certificate: &mut Vec<u8>,
) -> Result<Outcome, Failure>
    requires inputs { IsCountable (I.state inputs.old) }
    requires outputs { IsCountable (O.state outputs.old) }
    ensures answer { (ins outs : List ℕ) → (I.state inputs.old).remaining ≡ Some ins → (O.state outputs.old).remaining ≡ Some outs
        → Keeps (AnswersDesign ins outs certificate.new.items) page.new result }
    ensures raises { Raises ((I.state inputs.old).failed + (O.state outputs.old).failed) ((I.state inputs.new).failed + (O.state outputs.new).failed) result }
    ensures asks_inputs { AsksUpTo TEXT_LIMIT (I.state inputs.old) (I.state inputs.new) }
    ensures asks_outputs { AsksUpTo TEXT_LIMIT (O.state outputs.old) (O.state outputs.new) }
    ensures sink { IfErr result (λ e. e ≢ Failure.Sink) }
{
    match read_sheet(alloc, inputs) {
        Ok(first) => match read_sheet(alloc, outputs) {
            Ok(second) => match design_texts(alloc, plan, &first, &second, page, certificate) {
                Ok(outcome) => Ok(outcome),
                Err(_) => Err(Failure::Memory),
            },
            Err(failure) => Err(failure),
        },
        Err(failure) => Err(failure),
    }
}

/// Writes the page of what was judged, where there is one.
fn say_page<K: Sink>(
    judged: Result<Outcome, Failure>,
    page: &Page,
    writer: &mut LineWriter,
    sink: &mut K,
) -> Result<Outcome, Failure>
    requires new { writer.old ≡ [] }
    requires countable { CanFail (K.state sink.old) }
    requires sink { IfErr judged (λ e. e ≢ Failure.Sink) }
    ensures bytes { Ends (K.state sink.old).contents [] (K.state sink.new).contents (judged_answer page.now judged) result }
    ensures empty { writer.new ≡ [] }
    ensures count { (K.state sink.new).failed ≡ (K.state sink.old).failed + sink_failures_of result }
    ensures same { IfOk result (λ outcome. judged ≡ Ok outcome) }
    ensures failure { IfErr result (λ e. e ≢ Failure.Sink → judged ≡ Err e) }
    ensures settled { SettlesBy result (K.state sink.new).last_failed (K.state sink.new).hidden }
{
    match judged {
        Ok(outcome) => match page.write(writer, sink) {
            Ok(()) => Ok(outcome),
            Err(_) => Err(Failure::Sink),
        },
        Err(failure) => Err(failure),
    }
}

/// Writes what was judged, and ends.
pub(crate) fn finish<K: Sink>(judged: Result<Outcome, Failure>, page: &Page, sink: &mut K) -> Exit
    requires countable { CanFail (K.state sink.old) }
    requires sink { IfErr judged (λ e. e ≢ Failure.Sink) }
    ensures finishes { Finishes judged page.now (K.state sink.old) (K.state sink.new) result }
    ensures left { Leaves (K.state sink.old) (K.state sink.new) }
    ensures quiet { result ≢ Exit.Failed → (K.state sink.new).failed ≡ (K.state sink.old).failed }
{
    let mut writer = LineWriter::new();
    let ended = say_page(judged, page, &mut writer, sink);
    report(ended, &mut writer, sink)
}

/// Designs tables for the two sheets of an interface document, which are read whole from their sources, the inputs first, and writes
/// their text onto a sink; the text of their certificate is left beside it.
///
/// Where it ends `Done`, what was written reads as tables, they keep the rows that the two texts say, and the certificate that is left is
/// the least one that is accepted for them, so that it keeps its claims in every admissible run. `Refused` where no length of a tick gave
/// such tables: then what stands in the way was written, of which nothing is claimed. `Unreadable` where a cell or rows beside one
/// another can't be: the lines of these faults. `Failed` where a device failed or memory was refused: `failed memory` alone was written,
/// or `failed device` behind nothing or all that was to be written; where a push or flush failed, a front of one of these or of the
/// latter. That call is the last of the sink, and at most one pull of each source gives no byte.
pub fn run_design<I: Source, O: Source, K: Sink>(
    alloc: Global,
    plan: Plan,
    inputs: &mut I,
    outputs: &mut O,
    sink: &mut K,
    certificate: &mut Vec<u8>,
) -> Exit
    requires inputs { IsCountable (I.state inputs.old) }
    requires outputs { IsCountable (O.state outputs.old) }
    requires sink { CanFail (K.state sink.old) }
    ensures reports { (ins outs : List ℕ) → (I.state inputs.old).remaining ≡ Some ins → (O.state outputs.old).remaining ≡ Some outs
        → ReportsDesign ins outs certificate.new.items (K.state sink.old).contents (K.state sink.new).contents
        ((I.state inputs.old).failed + (O.state outputs.old).failed) ((I.state inputs.new).failed + (O.state outputs.new).failed)
        (K.state sink.old).failed (K.state sink.new).failed result }
    ensures reported { Reported Any (K.state sink.old).contents (K.state sink.new).contents
        ((I.state inputs.old).failed + (O.state outputs.old).failed) ((I.state inputs.new).failed + (O.state outputs.new).failed)
        (K.state sink.old).failed (K.state sink.new).failed result }
    ensures asks_inputs { AsksUpTo TEXT_LIMIT (I.state inputs.old) (I.state inputs.new) }
    ensures asks_outputs { AsksUpTo TEXT_LIMIT (O.state outputs.old) (O.state outputs.new) }
    ensures left { LeavesSink (K.state sink.old).failed (K.state sink.new).failed (K.state sink.new).last_failed (K.state sink.new).hidden }
    ensures quiet { result ≢ Exit.Failed → (I.state inputs.new).failed + (O.state outputs.new).failed + (K.state sink.new).failed
        ≡ (I.state inputs.old).failed + (O.state outputs.old).failed + (K.state sink.old).failed }
    ensures silent { result ≢ Exit.Failed → (K.state sink.new).failed ≡ (K.state sink.old).failed }
{
    let mut page = Page::new(alloc);
    let judged = judge(alloc, plan, inputs, outputs, &mut page, certificate);
    finish(judged, &page, sink)
}
