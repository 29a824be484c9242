//! `report` with a certificate and what was observed of a run.
ghost use Rattle.std.specs.Prelude.{◌≡◌, ◌≢◌, ℕ, List, [], ◌∷◌, ◌+◌, ◌<◌, IfErr, IfSome, Some};
ghost use Rattle.dc_answer.specs.Answer.{Any, LeavesSink, Reported};
ghost use Rattle.dc_answer.specs.Inputs.{OnlyBehind};
ghost use Rattle.dc_answer.specs.Judging.{Keeps, Raised, Says};
ghost use Rattle.dc_cert.specs.NamedRows.{named_rows};
ghost use Rattle.dc_check.specs.Verdict.{verdict_of};
ghost use Rattle.dc_device.specs.States.{AsksUpTo, CanFail, IsCountable};
ghost use Rattle.dc_document.specs.declared.limits.TheConstants.{TEXT_LIMIT};
ghost use Rattle.dc_toml.specs.Reading.{tables_of};
ghost use Rattle.dc_run_report.specs.Paper.{AnswersBeside, AnswersText, IsPage, OnlyBehindBoth, ReportsObserved, outcome_of, seen_end};
ghost use Rattle.dc_seen_page.specs.Rows.{AreSeenOf};

use crate::given::report_on;
use crate::identity::{PageOf, Shown};
use crate::observed::load_observed;
use dc_answer::{
    End, Exit, Judge, Outcome, Page, ReadCertificate, ReadWritten, Unjudged, Unloaded, With,
    print_fault, run, unread,
};
use dc_build::WrittenTables;
use dc_cert::Certificate;
use dc_device::{Sink, Source};
use dc_print::Text;
use dc_seen::{Seen, SeenFault};
use dc_seen_page::seen_section;
use std::alloc::{AllocError, Global};

/// Judges a certificate, and keeps the page on it and on what was seen.
fn report_beside(
    alloc: Global,
    written: &WrittenTables,
    certificate: &Certificate,
    seen: &Seen,
    shown: Shown<'_, '_>,
    page: &mut Page,
) -> Result<Outcome, AllocError>
    requires { AreSeenOf written.now.tables seen.now }
    ensures { Keeps (IsPage (outcome_of (verdict_of written.now.tables (named_rows certificate.now)))) page.new result }
{
    match seen_section(alloc, written.tables(), certificate, seen) {
        Ok(section) => report_on(alloc, written, certificate, shown, section.as_str(), page),
        Err(error) => Err(error),
    }
}

/// The same, as a stage has it.
fn tell_beside(
    alloc: Global,
    written: &WrittenTables,
    certificate: &Certificate,
    seen: &Seen,
    shown: Shown<'_, '_>,
    page: &mut Page,
) -> Result<Outcome, Unjudged>
    requires { AreSeenOf written.now.tables seen.now }
    ensures answer { Keeps (IsPage (outcome_of (verdict_of written.now.tables (named_rows certificate.now)))) page.new result }
    ensures raises { (n : ℕ) → Raised n n result }
    ensures threads { IfErr result (λ e. e ≢ Unjudged.Threads) }
{
    match report_beside(alloc, written, certificate, seen, shown, page) {
        Ok(outcome) => Ok(outcome),
        Err(_) => Err(Unjudged::Memory),
    }
}

/// Keeps the line of a fault of what was observed, and is unreadable.
fn tell_fault(page: &mut Page, fault: SeenFault) -> Outcome
    ensures { Says (λ answer. answer ≡ seen_end fault) page.new result }
{
    let mut line = Text::new();
    print_fault(&mut line, fault.rule.code().as_bytes(), fault.line);
    page.tell(line);
    Outcome::Unreadable
}

/// Reads what was observed of a run, and keeps the page on a certificate and on that, or the line of its first fault.
fn read_and_tell<S: Source>(
    alloc: Global,
    written: &WrittenTables,
    certificate: &Certificate,
    shown: Shown<'_, '_>,
    observed: &mut S,
    page: &mut Page,
) -> Result<Outcome, Unjudged>
    requires { IsCountable (S.state observed.old) }
    ensures answer { IfSome (S.state observed.old).remaining (λ text.
        Keeps (AnswersText written.now.tables (named_rows certificate.now) text) page.new result) }
    ensures raises { Raised (S.state observed.old).failed (S.state observed.new).failed result }
    ensures asks { AsksUpTo TEXT_LIMIT (S.state observed.old) (S.state observed.new) }
    ensures threads { IfErr result (λ e. e ≢ Unjudged.Threads) }
{
    match load_observed(alloc, written.tables(), certificate, observed) {
        Ok(seen) => tell_beside(alloc, written, certificate, &seen, shown, page),
        Err(Unloaded::Refused(fault)) => Ok(tell_fault(page, fault)),
        Err(Unloaded::Failed(failure)) => Err(unread(failure)),
    }
}

/// Reads what was observed of a run behind tables and a certificate, and makes the page on all three, with the outcome of
/// the certificate's verdict. No clause says what stands in the page: it is tested.
#[derive(Clone, Copy)]
pub struct ReportObserved<'n, 'h> {
    /// What the page shows beside them.
    pub shown: Shown<'n, 'h>,
}

impl<'a, 'n, 'h, H, S: Source> Judge<H, (WrittenTables, Certificate), With<'a, S, End>>
    for ReportObserved<'n, 'h> {
    ghost may_judge = { λ j. Unit {0} };

    ghost starts_threads = { λ j. ⊥ };

    ghost limits = { λ j. TEXT_LIMIT ∷ [] };

    ghost goes_on = { λ j known texts. Unit {0} };

    ghost answers = { λ j known. AnswersBeside known.0.tables (named_rows known.1) };

    fn judge(
        &self,
        _rt: &H,
        alloc: Global,
        known: (WrittenTables, Certificate),
        given: &mut With<'a, S, End>,
        page: &mut Page,
    ) -> Result<Outcome, Unjudged> {
        read_and_tell(alloc, &known.0, &known.1, self.shown, given.first, page)
    }
}

/// Writes the page on a certificate for tables and on what was observed of a run onto a sink, all three read whole from their
/// sources, the tables first; where one of them can't be read, its line. Where a drift is given, in millionths, the page has
/// a section on clocks that drift so far; at its head stands what it is of, where that is given. No clause says what stands
/// in the page: it is tested.
///
/// It ends `Done` where the certificate is accepted, `Refused` where it is refused, `Unreadable` where a text can't be
/// read, `Failed` where a device failed or memory was refused: `failed memory` alone was written, or `failed device`
/// behind nothing or all that was to be written; where a push or flush failed, a front of one of these or of the
/// latter. That call is the last of the sink, and at most one pull of each source gives no byte. The certificate is
/// asked for only where the tables are in order, and what was observed only where both are.
pub fn run_report_observed<T: Source, C: Source, S: Source, K: Sink>(
    alloc: Global,
    drift: Option<u16>,
    of: Option<PageOf<'_, '_>>,
    tables: &mut T,
    certificate: &mut C,
    observed: &mut S,
    sink: &mut K,
) -> Exit
    requires tables { IsCountable (T.state tables.old) }
    requires certificate { IsCountable (C.state certificate.old) }
    requires observed { IsCountable (S.state observed.old) }
    requires sink { CanFail (K.state sink.old) }
    ensures reports { (rows claims lines : List ℕ) → (T.state tables.old).remaining ≡ Some rows → (C.state certificate.old).remaining ≡ Some claims
        → (S.state observed.old).remaining ≡ Some lines
        → ReportsObserved rows claims lines (K.state sink.old).contents (K.state sink.new).contents
        ((T.state tables.old).failed + ((C.state certificate.old).failed + (S.state observed.old).failed))
        ((T.state tables.new).failed + ((C.state certificate.new).failed + (S.state observed.new).failed))
        (K.state sink.old).failed (K.state sink.new).failed result }
    ensures reported { Reported Any (K.state sink.old).contents (K.state sink.new).contents
        ((T.state tables.old).failed + ((C.state certificate.old).failed + (S.state observed.old).failed))
        ((T.state tables.new).failed + ((C.state certificate.new).failed + (S.state observed.new).failed))
        (K.state sink.old).failed (K.state sink.new).failed result }
    ensures asks_tables { AsksUpTo TEXT_LIMIT (T.state tables.old) (T.state tables.new) }
    ensures asks_certificate { AsksUpTo TEXT_LIMIT (C.state certificate.old) (C.state certificate.new) }
    ensures asks_observed { AsksUpTo TEXT_LIMIT (S.state observed.old) (S.state observed.new) }
    ensures order_certificate { IfSome (T.state tables.old).remaining (λ rows. OnlyBehind (tables_of rows) (certificate.new ≡ certificate.old)) }
    ensures order_observed { IfSome (T.state tables.old).remaining (λ rows. IfSome (C.state certificate.old).remaining
        (λ claims. OnlyBehindBoth rows claims (observed.new ≡ observed.old))) }
    ensures left { LeavesSink (K.state sink.old).failed (K.state sink.new).failed (K.state sink.new).last_failed (K.state sink.new).hidden }
    ensures quiet { result ≢ Exit.Failed → ((T.state tables.new).failed + ((C.state certificate.new).failed + (S.state observed.new).failed))
        + (K.state sink.new).failed
        ≡ ((T.state tables.old).failed + ((C.state certificate.old).failed + (S.state observed.old).failed)) + (K.state sink.old).failed }
{
    let mut given = With {
        first: tables,
        rest: With {
            first: certificate,
            rest: With {
                first: observed,
                rest: End,
            },
        },
    };
    let engine = ReadWritten(ReadCertificate(ReportObserved {
        shown: Shown { drift, of },
    }));
    run(&(), alloc, &engine, &mut given, sink)
}
