//! `audit`: a recorded run judged by the definitions, against a certificate.
ghost use Rattle.std.specs.Prelude.{◌≡◌, ◌≢◌, ℕ, List, [], ◌∷◌, ◌+◌, IfSome, Some};
ghost use Rattle.dc_answer.specs.Answer.{Any, LeavesSink, Reported};
ghost use Rattle.dc_answer.specs.Inputs.{OnlyBehind};
ghost use Rattle.dc_cert.specs.Bounds.{certificate_rows};
ghost use Rattle.dc_device.specs.States.{AsksUpTo, CanFail, IsCountable};
ghost use Rattle.dc_document.specs.declared.limits.TheConstants.{TEXT_LIMIT};
ghost use Rattle.dc_toml.specs.Reading.{tables_of};
ghost use Rattle.dc_run.specs.Limits.{trace_limit};
ghost use Rattle.dc_run_audit.specs.Audit.{AnswersTrace, OnlyCertified, ReportsAudit};

use crate::findings::tell_findings;
use crate::follow::find_failures;
use dc_answer::{
    End, Exit, Judge, Outcome, Page, ReadCertificate, ReadTables, Unjudged, Unloaded, With, run,
    unread,
};
use dc_cert::Certificate;
use dc_device::{Sink, Source};
use dc_run::{OnlyAccepted, tell_fault};
use dc_tables::Tables;
use std::alloc::Global;

/// Judges a run by the definitions over the whole history, while its trace is read: whether it keeps the budgets, what
/// is asked of the sources, and the four claims by a certificate's ages, a line each, with the first place at which it
/// fails.
#[derive(Clone, Copy, Debug)]
pub struct Audit {
    /// Whether a run may be long.
    pub long: bool,
}

impl<'a, H, S: Source> Judge<H, (Tables, Certificate), With<'a, S, End>> for Audit {
    ghost may_judge = { λ j. Unit {0} };

    ghost starts_threads = { λ j. ⊥ };

    ghost limits = { λ j. trace_limit j.long ∷ [] };

    ghost goes_on = { λ j known texts. Unit {0} };

    ghost answers = { λ j known. AnswersTrace j.long known.0 (certificate_rows known.1).ages };

    fn judge(
        &self,
        _rt: &H,
        alloc: Global,
        known: (Tables, Certificate),
        given: &mut With<'a, S, End>,
        page: &mut Page,
    ) -> Result<Outcome, Unjudged> {
        match find_failures(alloc, self.long, &known.0, &known.1, given.first) {
            Ok(found) => Ok(tell_findings(page, found)),
            Err(Unloaded::Refused(fault)) => Ok(tell_fault(page, fault)),
            Err(Unloaded::Failed(failure)) => Err(unread(failure)),
        }
    }
}

/// Audits a recorded run: judges a certificate for tables, and then, by the definitions over the whole history, whether
/// the run of a trace keeps the budgets, what is asked of the sources, and the four claims by the certificate's ages.
/// Each of the three is reported in a line, with the first place at which it fails. A trace may have more events and more
/// bytes where `long`.
///
/// It ends `Done` where all three hold, `Refused` where one fails or the certificate is refused, `Unreadable` where a
/// text can't be read, `Failed` where a device failed or memory was refused: `failed memory` alone was written, or
/// `failed device` behind whole lines of a front of the answer; where a push or flush failed, a front of one of these
/// or of the answer. That call is the last of the sink, and at most one pull of each source gives no byte. The
/// certificate is asked for only where the tables are in order, and the trace only where the certificate is accepted
/// for them.
pub fn run_audit<T: Source, C: Source, S: Source, K: Sink>(
    alloc: Global,
    long: bool,
    tables: &mut T,
    certificate: &mut C,
    trace: &mut S,
    sink: &mut K,
) -> Exit
    requires tables { IsCountable (T.state tables.old) }
    requires certificate { IsCountable (C.state certificate.old) }
    requires trace { IsCountable (S.state trace.old) }
    requires sink { CanFail (K.state sink.old) }
    ensures reports { (rows claims events : List ℕ) → (T.state tables.old).remaining ≡ Some rows → (C.state certificate.old).remaining ≡ Some claims
        → (S.state trace.old).remaining ≡ Some events
        → ReportsAudit long rows claims events (K.state sink.old).contents (K.state sink.new).contents
        ((T.state tables.old).failed + ((C.state certificate.old).failed + (S.state trace.old).failed))
        ((T.state tables.new).failed + ((C.state certificate.new).failed + (S.state trace.new).failed))
        (K.state sink.old).failed (K.state sink.new).failed result }
    ensures reported { Reported Any (K.state sink.old).contents (K.state sink.new).contents
        ((T.state tables.old).failed + ((C.state certificate.old).failed + (S.state trace.old).failed))
        ((T.state tables.new).failed + ((C.state certificate.new).failed + (S.state trace.new).failed))
        (K.state sink.old).failed (K.state sink.new).failed result }
    ensures asks_tables { AsksUpTo TEXT_LIMIT (T.state tables.old) (T.state tables.new) }
    ensures asks_certificate { AsksUpTo TEXT_LIMIT (C.state certificate.old) (C.state certificate.new) }
    ensures asks_trace { AsksUpTo (trace_limit long) (S.state trace.old) (S.state trace.new) }
    ensures order_certificate { IfSome (T.state tables.old).remaining (λ rows. OnlyBehind (tables_of rows) (certificate.new ≡ certificate.old)) }
    ensures order_trace { IfSome (T.state tables.old).remaining (λ rows. IfSome (C.state certificate.old).remaining
        (λ claims. OnlyCertified rows claims (trace.new ≡ trace.old))) }
    ensures left { LeavesSink (K.state sink.old).failed (K.state sink.new).failed (K.state sink.new).last_failed (K.state sink.new).hidden }
    ensures quiet { result ≢ Exit.Failed → ((T.state tables.new).failed + ((C.state certificate.new).failed + (S.state trace.new).failed))
        + (K.state sink.new).failed
        ≡ ((T.state tables.old).failed + ((C.state certificate.old).failed + (S.state trace.old).failed)) + (K.state sink.old).failed }
{
    let mut given = With {
        first: tables,
        rest: With {
            first: certificate,
            rest: With {
                first: trace,
                rest: End,
            },
        },
    };
    let engine = ReadTables(ReadCertificate(OnlyAccepted(Audit { long })));
    run(&(), alloc, &engine, &mut given, sink)
}
