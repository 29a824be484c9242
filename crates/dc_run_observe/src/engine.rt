//! `observe`: how near a recorded run came to the bounds of a certificate.
ghost use Rattle.std.specs.Prelude.{◌≡◌, ◌≢◌, ◌+◌, ◌<◌, ℕ, List, ◌∷◌, [], IfErr, IfSome, Option, Some};
ghost use Rattle.dc_answer.specs.Answer.{Any, LeavesSink, Reported};
ghost use Rattle.dc_answer.specs.Inputs.{OnlyBehind};
ghost use Rattle.dc_answer.specs.Judging.{Keeps, Raised};
ghost use Rattle.dc_cert.specs.Bounds.{certificate_rows};
ghost use Rattle.dc_device.specs.States.{AsksUpTo, CanFail, IsCountable};
ghost use Rattle.dc_document.specs.declared.limits.TheConstants.{TEXT_LIMIT};
ghost use Rattle.dc_event.specs.TraceText.{trace_of};
ghost use Rattle.dc_observe.specs.Near.{IsSized};
ghost use Rattle.dc_run_observe.specs.Answer.{AnswersTrace, IsFollowed, OnlyCertified, ReportsObserve, answer_trace};
ghost use Rattle.dc_run.specs.declared.limits.TheConstants.{LONG_TRACE_LIMIT};
ghost use Rattle.dc_toml.specs.Reading.{tables_of};

use crate::followed::{Followed, follow_trace};
use crate::lines::tell_nearness;
use dc_answer::{
    End, Exit, Judge, Outcome, Page, ReadCertificate, ReadTables, Unjudged, With, run,
};
use dc_cert::Certificate;
use dc_device::{Sink, Source};
use dc_run::{OnlyAccepted, tell_fault};
use dc_tables::Tables;
use std::alloc::{AllocError, Global};

/// Makes a page what is told of a trace that was followed, and says what it ends with.
///
/// # Errors
/// `AllocError` where memory was refused.
fn tell_followed(
    tables: &Tables,
    certificate: &Certificate,
    followed: &Followed,
    page: &mut Page,
) -> Result<Outcome, AllocError>
    requires { IsSized tables.now followed.now.near }
    ensures { (from : Option (List ℕ)) → IfSome from (λ text. IsFollowed tables.now (trace_of tables.now LONG_TRACE_LIMIT text) followed.now)
        → IfSome from (λ text. Keeps (λ answer. answer ≡ answer_trace tables.now (certificate_rows certificate.now) text) page.new result) }
{
    if let Some(fault) = followed.fault {
        return Ok(tell_fault(page, fault));
    }
    match tell_nearness(tables, certificate, &followed.near, page) {
        Ok(()) => Ok(Outcome::Done),
        Err(refused) => Err(refused),
    }
}

/// Follows a source's trace, and keeps the answer.
fn follow_and_tell<S: Source>(
    alloc: Global,
    tables: &Tables,
    certificate: &Certificate,
    trace: &mut S,
    page: &mut Page,
) -> Result<Outcome, Unjudged>
    requires { IsCountable (S.state trace.old) }
    ensures answer { IfSome (S.state trace.old).remaining (λ text.
        Keeps (λ answer. answer ≡ answer_trace tables.now (certificate_rows certificate.now) text) page.new result) }
    ensures raises { Raised (S.state trace.old).failed (S.state trace.new).failed result }
    ensures asks { AsksUpTo LONG_TRACE_LIMIT (S.state trace.old) (S.state trace.new) }
    ensures threads { IfErr result (λ e. e ≢ Unjudged.Threads) }
{
    match follow_trace(alloc, tables, trace) {
        Ok(followed) => match tell_followed(tables, certificate, &followed, page) {
            Ok(outcome) => Ok(outcome),
            Err(_) => Err(Unjudged::Memory),
        },
        Err(unjudged) => Err(unjudged),
    }
}

/// Observes the run of a trace behind tables and a certificate: a line for each input, each output and each label; of a
/// trace with a fault its line alone.
#[derive(Clone, Copy, Debug)]
pub struct Observe;

impl<'a, H, S: Source> Judge<H, (Tables, Certificate), With<'a, S, End>> for Observe {
    ghost may_judge = { λ j. Unit {0} };

    ghost starts_threads = { λ j. ⊥ };

    ghost limits = { λ j. LONG_TRACE_LIMIT ∷ [] };

    ghost goes_on = { λ j known texts. Unit {0} };

    ghost answers = { λ j known. AnswersTrace known.0 (certificate_rows known.1) };

    fn judge(
        &self,
        _rt: &H,
        alloc: Global,
        known: (Tables, Certificate),
        given: &mut With<'a, S, End>,
        page: &mut Page,
    ) -> Result<Outcome, Unjudged> {
        follow_and_tell(alloc, &known.0, &known.1, given.first, page)
    }
}

/// Observes a recorded run: judges a certificate for tables, and then tells how near the run of a trace came to its
/// bounds, by the definitions over the whole history: of each input the most words that waited and the longest wait, of
/// each output how late its entries left, of each label how often it was sent and as its fallback, its oldest copy and
/// its least and greatest interval, each beside the number that bounds it. Memory is by the tables.
///
/// It ends `Done` where the trace is in order, also where a number is past the one beside it; `Refused` where the
/// certificate is refused, `Unreadable` where a text can't be read, of a trace with its fault alone; `Failed` where a
/// device failed or memory was refused: `failed memory` alone was written, or `failed device` behind whole lines of a
/// front of the answer; where a push or flush failed, a front of one of these or of the answer. That call is the last of
/// the sink, and at most one pull of each source gives no byte. The certificate is asked for only where the tables are in
/// order, and the trace only where the certificate is accepted for them.
pub fn run_observe<T: Source, C: Source, S: Source, K: Sink>(
    alloc: Global,
    tables: &mut T,
    certificate: &mut C,
    trace: &mut S,
    sink: &mut K,
) -> Exit
    requires tables { IsCountable (T.state tables.old) }
    requires certificate { IsCountable (C.state certificate.old) }
    requires trace { IsCountable (S.state trace.old) }
    requires sink { CanFail (K.state sink.old) }
    ensures reports { (rows claims events : List ℕ) → (T.state tables.old).remaining ≡ Some rows → (C.state certificate.old).remaining ≡ Some claims
        → (S.state trace.old).remaining ≡ Some events
        → ReportsObserve rows claims events (K.state sink.old).contents (K.state sink.new).contents
        ((T.state tables.old).failed + ((C.state certificate.old).failed + (S.state trace.old).failed))
        ((T.state tables.new).failed + ((C.state certificate.new).failed + (S.state trace.new).failed))
        (K.state sink.old).failed (K.state sink.new).failed result }
    ensures reported { Reported Any (K.state sink.old).contents (K.state sink.new).contents
        ((T.state tables.old).failed + ((C.state certificate.old).failed + (S.state trace.old).failed))
        ((T.state tables.new).failed + ((C.state certificate.new).failed + (S.state trace.new).failed))
        (K.state sink.old).failed (K.state sink.new).failed result }
    ensures asks_tables { AsksUpTo TEXT_LIMIT (T.state tables.old) (T.state tables.new) }
    ensures asks_certificate { AsksUpTo TEXT_LIMIT (C.state certificate.old) (C.state certificate.new) }
    ensures asks_trace { AsksUpTo LONG_TRACE_LIMIT (S.state trace.old) (S.state trace.new) }
    ensures order_certificate { IfSome (T.state tables.old).remaining (λ rows. OnlyBehind (tables_of rows) (certificate.new ≡ certificate.old)) }
    ensures order_trace { IfSome (T.state tables.old).remaining (λ rows. IfSome (C.state certificate.old).remaining
        (λ claims. OnlyCertified rows claims (trace.new ≡ trace.old))) }
    ensures left { LeavesSink (K.state sink.old).failed (K.state sink.new).failed (K.state sink.new).last_failed (K.state sink.new).hidden }
    ensures quiet { result ≢ Exit.Failed → ((T.state tables.new).failed + ((C.state certificate.new).failed + (S.state trace.new).failed))
        + (K.state sink.new).failed
        ≡ ((T.state tables.old).failed + ((C.state certificate.old).failed + (S.state trace.old).failed)) + (K.state sink.old).failed }
{
    let mut given = With {
        first: tables,
        rest: With {
            first: certificate,
            rest: With {
                first: trace,
                rest: End,
            },
        },
    };
    let engine = ReadTables(ReadCertificate(OnlyAccepted(Observe)));
    run(&(), alloc, &engine, &mut given, sink)
}
