//! `report` with a certificate.
ghost use Rattle.std.specs.Prelude.{◌≡◌, ◌≢◌, ℕ, List, ◌+◌, ◌<◌, IfSome, Some};
ghost use Rattle.dc_answer.specs.Answer.{Any, LeavesSink, Reported};
ghost use Rattle.dc_answer.specs.Inputs.{OnlyBehind};
ghost use Rattle.dc_answer.specs.Judging.{Keeps};
ghost use Rattle.dc_cert.specs.NamedRows.{named_rows};
ghost use Rattle.dc_check.specs.Verdict.{verdict_of};
ghost use Rattle.dc_device.specs.States.{AsksUpTo, CanFail, IsCountable};
ghost use Rattle.dc_document.specs.declared.limits.TheConstants.{TEXT_LIMIT};
ghost use Rattle.dc_toml.specs.Reading.{tables_of};
ghost use Rattle.dc_run_report.specs.Paper.{IsPage, ReportsPage, outcome_of};

use crate::identity::{PageOf, Shown};
use crate::pages::keep_page;
use dc_answer::{End, Exit, Outcome, Page, ReadCertificate, ReadWritten, Tell, Then, With, run};
use dc_build::WrittenTables;
use dc_cert::Certificate;
use dc_check::verdict;
use dc_device::{Sink, Source};
use std::alloc::{AllocError, Global};

/// Judges a certificate, and keeps the page on it, with this section behind its parts.
pub(crate) fn report_on(
    alloc: Global,
    written: &WrittenTables,
    certificate: &Certificate,
    shown: Shown<'_, '_>,
    section: &str,
    page: &mut Page,
) -> Result<Outcome, AllocError>
    ensures { Keeps (IsPage (outcome_of (verdict_of written.now.tables (named_rows certificate.now)))) page.new result }
{
    let fault = verdict(written.tables(), certificate).err();
    keep_page(alloc, written, certificate, fault, shown, section, page)
}

/// Makes the page on a certificate for tables, with the outcome of its verdict. No clause says what stands in the page:
/// it is tested.
#[derive(Clone, Copy)]
pub struct Report<'n, 'h> {
    /// What the page shows beside them.
    pub shown: Shown<'n, 'h>,
}

impl<'n, 'h> Tell<(WrittenTables, Certificate)> for Report<'n, 'h> {
    ghost answers = { λ _ known. IsPage (outcome_of (verdict_of known.0.tables (named_rows known.1))) };

    fn tell(
        &self,
        alloc: Global,
        known: (WrittenTables, Certificate),
        page: &mut Page,
    ) -> Result<Outcome, AllocError> {
        let (written, certificate) = known;
        report_on(alloc, &written, &certificate, self.shown, "", page)
    }
}

/// Writes the page on a certificate for tables onto a sink, both read whole from their sources, the tables first; where
/// one of them can't be read, its line. Where a drift is given, in millionths, the page has a section on clocks that
/// drift so far. No clause says what stands in the page: it is tested.
///
/// It ends `Done` where the certificate is accepted, `Refused` where it is refused, `Unreadable` where a text can't be
/// read, `Failed` where a device failed or memory was refused: `failed memory` alone was written, or `failed device`
/// behind nothing or all that was to be written; where a push or flush failed, a front of one of these or of the
/// latter. That call is the last of the sink, and at most one pull of each source gives no byte. The certificate is
/// asked for only where the tables are in order.
pub fn run_report<T: Source, C: Source, K: Sink>(
    alloc: Global,
    drift: Option<u16>,
    tables: &mut T,
    certificate: &mut C,
    sink: &mut K,
) -> Exit
    requires tables { IsCountable (T.state tables.old) }
    requires certificate { IsCountable (C.state certificate.old) }
    requires sink { CanFail (K.state sink.old) }
    ensures reports { (rows given : List ℕ) → (T.state tables.old).remaining ≡ Some rows → (C.state certificate.old).remaining ≡ Some given
        → ReportsPage rows given (K.state sink.old).contents (K.state sink.new).contents
        ((T.state tables.old).failed + (C.state certificate.old).failed) ((T.state tables.new).failed + (C.state certificate.new).failed)
        (K.state sink.old).failed (K.state sink.new).failed result }
    ensures reported { Reported Any (K.state sink.old).contents (K.state sink.new).contents
        ((T.state tables.old).failed + (C.state certificate.old).failed) ((T.state tables.new).failed + (C.state certificate.new).failed)
        (K.state sink.old).failed (K.state sink.new).failed result }
    ensures asks_tables { AsksUpTo TEXT_LIMIT (T.state tables.old) (T.state tables.new) }
    ensures asks_certificate { AsksUpTo TEXT_LIMIT (C.state certificate.old) (C.state certificate.new) }
    ensures order { IfSome (T.state tables.old).remaining (λ rows. OnlyBehind (tables_of rows) (certificate.new ≡ certificate.old)) }
    ensures left { LeavesSink (K.state sink.old).failed (K.state sink.new).failed (K.state sink.new).last_failed (K.state sink.new).hidden }
    ensures quiet { result ≢ Exit.Failed → (T.state tables.new).failed + (C.state certificate.new).failed + (K.state sink.new).failed
        ≡ (T.state tables.old).failed + (C.state certificate.old).failed + (K.state sink.old).failed }
{
    run_report_of(alloc, drift, None, tables, certificate, sink)
}

/// Writes the page as [`run_report`] does, at whose head it stands what it is of, where that is given: the digests of the
/// texts are made by their sources while these are read.
pub fn run_report_of<T: Source, C: Source, K: Sink>(
    alloc: Global,
    drift: Option<u16>,
    of: Option<PageOf<'_, '_>>,
    tables: &mut T,
    certificate: &mut C,
    sink: &mut K,
) -> Exit
    requires tables { IsCountable (T.state tables.old) }
    requires certificate { IsCountable (C.state certificate.old) }
    requires sink { CanFail (K.state sink.old) }
    ensures reports { (rows given : List ℕ) → (T.state tables.old).remaining ≡ Some rows → (C.state certificate.old).remaining ≡ Some given
        → ReportsPage rows given (K.state sink.old).contents (K.state sink.new).contents
        ((T.state tables.old).failed + (C.state certificate.old).failed) ((T.state tables.new).failed + (C.state certificate.new).failed)
        (K.state sink.old).failed (K.state sink.new).failed result }
    ensures reported { Reported Any (K.state sink.old).contents (K.state sink.new).contents
        ((T.state tables.old).failed + (C.state certificate.old).failed) ((T.state tables.new).failed + (C.state certificate.new).failed)
        (K.state sink.old).failed (K.state sink.new).failed result }
    ensures asks_tables { AsksUpTo TEXT_LIMIT (T.state tables.old) (T.state tables.new) }
    ensures asks_certificate { AsksUpTo TEXT_LIMIT (C.state certificate.old) (C.state certificate.new) }
    ensures order { IfSome (T.state tables.old).remaining (λ rows. OnlyBehind (tables_of rows) (certificate.new ≡ certificate.old)) }
    ensures left { LeavesSink (K.state sink.old).failed (K.state sink.new).failed (K.state sink.new).last_failed (K.state sink.new).hidden }
    ensures quiet { result ≢ Exit.Failed → (T.state tables.new).failed + (C.state certificate.new).failed + (K.state sink.new).failed
        ≡ (T.state tables.old).failed + (C.state certificate.old).failed + (K.state sink.old).failed }
{
    let mut given = With {
        first: tables,
        rest: With {
            first: certificate,
            rest: End,
        },
    };
    let engine = ReadWritten(ReadCertificate(Then(Report {
        shown: Shown { drift, of },
    })));
    run(&(), alloc, &engine, &mut given, sink)
}
