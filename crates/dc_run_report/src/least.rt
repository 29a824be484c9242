//! `report` without a certificate: the least one is taken, or what was found where none is accepted.
ghost use Rattle.std.specs.Prelude.{◌≡◌, ◌≢◌, ℕ, List, ◌+◌, ◌<◌, Some};
ghost use Rattle.dc_answer.specs.Answer.{Any, LeavesSink, Reported};
ghost use Rattle.dc_answer.specs.Judging.{Keeps};
ghost use Rattle.dc_device.specs.States.{AsksUpTo, CanFail, IsCountable};
ghost use Rattle.dc_document.specs.declared.limits.TheConstants.{TEXT_LIMIT};
ghost use Rattle.dc_run_report.specs.Paper.{AnswersRows, ReportsLeast};

use crate::identity::{PageOf, Shown};
use crate::pages::keep_page;
use crate::sought::keep_sought;
use dc_answer::{End, Exit, Outcome, Page, ReadWritten, Tell, Then, With, run};
use dc_build::WrittenTables;
use dc_device::{Sink, Source};
use dc_find::find;
use std::alloc::{AllocError, Global};

/// Finds the least certificate for tables, and keeps the page on it, or on what was found where none is accepted.
fn report_least(
    alloc: Global,
    written: &WrittenTables,
    shown: Shown<'_, '_>,
    page: &mut Page,
) -> Result<Outcome, AllocError>
    ensures { Keeps (AnswersRows written.now.tables) page.new result }
{
    match find(alloc, written.tables()) {
        Ok(certificate) => keep_page(alloc, written, &certificate, None, shown, "", page),
        Err(fault) => keep_sought(alloc, written, fault, shown, page),
    }
}

/// Makes the page on the least certificate for tables; where none is accepted, that on what was found, in which the line
/// stands of what is first in the way of every certificate. No clause says what else stands in a page: it is tested.
#[derive(Clone, Copy)]
pub struct ReportLeast<'n, 'h> {
    /// What the page shows beside them.
    pub shown: Shown<'n, 'h>,
}

impl<'n, 'h> Tell<WrittenTables> for ReportLeast<'n, 'h> {
    ghost answers = { λ _ known. AnswersRows known.tables };

    fn tell(
        &self,
        alloc: Global,
        written: WrittenTables,
        page: &mut Page,
    ) -> Result<Outcome, AllocError> {
        report_least(alloc, &written, self.shown, page)
    }
}

/// Writes the page on the least certificate for tables, which are read whole from their source, onto a sink; where none
/// is accepted, that on what was found, in which the line stands of what is first in the way of every certificate. Where
/// a drift is given, in millionths, the page has a section on clocks that drift so far. No clause says what else stands in
/// a page: it is tested.
///
/// It ends `Done` where a certificate was found, `Refused` where none is accepted, `Unreadable` where the tables can't
/// be read, `Failed` where a device failed or memory was refused: `failed memory` alone was written, or `failed device`
/// behind nothing or all that was to be written; where a push or flush failed, a front of one of these or of the
/// latter. That call is the last of the sink, and at most one pull of the source gives no byte.
pub fn run_report_least<T: Source, K: Sink>(
    alloc: Global,
    drift: Option<u16>,
    tables: &mut T,
    sink: &mut K,
) -> Exit
    requires tables { IsCountable (T.state tables.old) }
    requires sink { CanFail (K.state sink.old) }
    ensures reports { (rows : List ℕ) → (T.state tables.old).remaining ≡ Some rows
        → ReportsLeast rows (K.state sink.old).contents (K.state sink.new).contents (T.state tables.old).failed (T.state tables.new).failed
        (K.state sink.old).failed (K.state sink.new).failed result }
    ensures reported { Reported Any (K.state sink.old).contents (K.state sink.new).contents (T.state tables.old).failed (T.state tables.new).failed
        (K.state sink.old).failed (K.state sink.new).failed result }
    ensures asks { AsksUpTo TEXT_LIMIT (T.state tables.old) (T.state tables.new) }
    ensures left { LeavesSink (K.state sink.old).failed (K.state sink.new).failed (K.state sink.new).last_failed (K.state sink.new).hidden }
    ensures quiet { result ≢ Exit.Failed → (T.state tables.new).failed + (K.state sink.new).failed ≡ (T.state tables.old).failed + (K.state sink.old).failed }
{
    run_report_least_of(alloc, drift, None, tables, sink)
}

/// Writes the page as [`run_report_least`] does, at whose head it stands what it is of, where that is given: the digest of
/// the text is made by its source while this is read.
pub fn run_report_least_of<T: Source, K: Sink>(
    alloc: Global,
    drift: Option<u16>,
    of: Option<PageOf<'_, '_>>,
    tables: &mut T,
    sink: &mut K,
) -> Exit
    requires tables { IsCountable (T.state tables.old) }
    requires sink { CanFail (K.state sink.old) }
    ensures reports { (rows : List ℕ) → (T.state tables.old).remaining ≡ Some rows
        → ReportsLeast rows (K.state sink.old).contents (K.state sink.new).contents (T.state tables.old).failed (T.state tables.new).failed
        (K.state sink.old).failed (K.state sink.new).failed result }
    ensures reported { Reported Any (K.state sink.old).contents (K.state sink.new).contents (T.state tables.old).failed (T.state tables.new).failed
        (K.state sink.old).failed (K.state sink.new).failed result }
    ensures asks { AsksUpTo TEXT_LIMIT (T.state tables.old) (T.state tables.new) }
    ensures left { LeavesSink (K.state sink.old).failed (K.state sink.new).failed (K.state sink.new).last_failed (K.state sink.new).hidden }
    ensures quiet { result ≢ Exit.Failed → (T.state tables.new).failed + (K.state sink.new).failed ≡ (T.state tables.old).failed + (K.state sink.old).failed }
{
    let mut given = With {
        first: tables,
        rest: End,
    };
    let engine = ReadWritten(Then(ReportLeast {
        shown: Shown { drift, of },
    }));
    run(&(), alloc, &engine, &mut given, sink)
}
