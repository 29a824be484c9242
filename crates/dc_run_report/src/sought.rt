//! Pages on tables for which no certificate is accepted.
ghost use Rattle.std.specs.Prelude.{◌≡◌, ◌≢◌, IfOk};
ghost use Rattle.dc_answer.specs.Judging.{Keeps};
ghost use Rattle.dc_cert.specs.Bounds.{certificate_rows};
ghost use Rattle.dc_check.specs.Verdict.{IsSized};
ghost use Rattle.dc_find.specs.Least.{NoneAccepted};
ghost use Rattle.dc_find.specs.Ways.{IsFirstInTheWay, StandsInTheWay};
ghost use Rattle.dc_run.specs.Find.{obstacle_text};
ghost use Rattle.dc_run_report.specs.Paper.{AnswersSought, Holds};

use crate::drift::rows_shown;
use crate::identity::{PageOf, Shown, identity_of};
use crate::line::line_of;
use dc_answer::{Outcome, Page};
use dc_build::WrittenTables;
use dc_cert::Certificate;
use dc_find::{FindFault, reach};
use dc_page::{sought_back, sought_front};
use dc_run::tell_obstacle;
use dc_tables::Tables;
use std::alloc::{AllocError, Global};

/// The page behind the line, with what is shown of clocks that drift where a drift is given.
fn back_text(
    alloc: Global,
    written: &WrittenTables,
    found: &Certificate,
    fault: FindFault,
    drift: Option<u16>,
) -> Result<String, AllocError>
    requires { IsSized written.now.tables (certificate_rows found.now) }
{
    let Some(ppm) = drift else {
        return sought_back(alloc, written.tables(), found, fault, None);
    };
    match rows_shown(alloc, written, None, ppm) {
        Ok(rows) => sought_back(
            alloc,
            written.tables(),
            found,
            fault,
            Some(&rows.drift(ppm)),
        ),
        Err(e) => Err(e),
    }
}

/// The page up to the line, that says what it is of.
fn identified_front(alloc: Global, of: PageOf<'_, '_>) -> Result<String, AllocError> {
    let digits = of.digits(alloc)?;
    let identity = identity_of(of, &digits);
    sought_front(alloc, Some(&identity))
}

/// The page up to the line, with what it is of where that is given.
fn front_text(alloc: Global, of: Option<PageOf<'_, '_>>) -> Result<String, AllocError> {
    match of {
        None => sought_front(alloc, None),
        Some(of) => identified_front(alloc, of),
    }
}

/// Keeps the page up to the line and with it.
fn keep_front(
    alloc: Global,
    tables: &Tables,
    fault: FindFault,
    of: Option<PageOf<'_, '_>>,
    page: &mut Page,
) -> Result<(), AllocError>
    requires { StandsInTheWay tables.now fault }
    ensures { IfOk result (λ _. Holds (obstacle_text tables.now fault) page.new) }
{
    let front = front_text(alloc, of)?;
    page.keep(front.as_bytes())?;
    let line = line_of(tables, fault);
    page.add(line.as_slice())?;
    Ok(())
}

/// Keeps the page on what was found.
fn keep_found(
    alloc: Global,
    written: &WrittenTables,
    found: &Certificate,
    fault: FindFault,
    shown: Shown<'_, '_>,
    page: &mut Page,
) -> Result<(), AllocError>
    requires stands { StandsInTheWay written.now.tables fault }
    requires sized { IsSized written.now.tables (certificate_rows found.now) }
    ensures { IfOk result (λ _. Holds (obstacle_text written.now.tables fault) page.new) }
{
    keep_front(alloc, written.tables(), fault, shown.of, page)?;
    let back = back_text(alloc, written, found, fault, shown.drift)?;
    page.add(back.as_bytes())?;
    Ok(())
}

/// Keeps the page on tables for which no certificate is accepted, given what stands first in the way, with the line of
/// that, and with what is shown beside it.
///
/// # Errors
/// `AllocError` where memory was refused, now or before.
pub(crate) fn keep_sought(
    alloc: Global,
    written: &WrittenTables,
    fault: FindFault,
    shown: Shown<'_, '_>,
    page: &mut Page,
) -> Result<Outcome, AllocError>
    requires none { fault ≢ FindFault.Memory → NoneAccepted written.now.tables }
    requires first { fault ≢ FindFault.Memory → IsFirstInTheWay written.now.tables fault }
    ensures { Keeps (AnswersSought written.now.tables) page.new result }
{
    let outcome = tell_obstacle(written.tables(), fault, page)?;
    let Ok(reached) = reach(alloc, written.tables(), fault) else {
        return Err(AllocError);
    };
    match keep_found(alloc, written, &reached.certificate, fault, shown, page) {
        Ok(()) => Ok(outcome),
        Err(e) => Err(e),
    }
}
