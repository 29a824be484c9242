//! Pages that are kept until they are written.
ghost use Rattle.std.specs.Prelude.{◌≡◌, IfOk};
ghost use Rattle.dc_cert.specs.NamedRows.{named_rows};
ghost use Rattle.dc_check.specs.Verdict.{verdict_of};
ghost use Rattle.dc_run_report.specs.Paper.{outcome_of};

use crate::drift::rows_shown;
use crate::identity::{PageOf, Shown, identity_of};
use dc_answer::{Outcome, Page};
use dc_build::WrittenTables;
use dc_cert::Certificate;
use dc_check::CheckFault;
use dc_page::{Identity, page_with_section};
use std::alloc::{AllocError, Global};

/// The outcome of a verdict: accepted, or a fault.
fn outcome(fault: Option<CheckFault>) -> Outcome
    ensures { result ≡ outcome_of fault }
{
    match fault {
        None => Outcome::Done,
        Some(_) => Outcome::Refused,
    }
}

/// The page on a certificate, with what is shown of clocks that drift so far.
fn drifting_page(
    alloc: Global,
    written: &WrittenTables,
    certificate: &Certificate,
    fault: Option<CheckFault>,
    drift: u16,
    identity: Option<&Identity<'_>>,
    section: &str,
) -> Result<String, AllocError>
    requires { fault ≡ verdict_of written.now.tables (named_rows certificate.now) }
{
    let accepted = match fault {
        None => Some(certificate),
        Some(_) => None,
    };
    let rows = rows_shown(alloc, written, accepted, drift)?;
    page_with_section(
        alloc,
        written.tables(),
        certificate,
        fault,
        Some(&rows.drift(drift)),
        identity,
        section,
    )
}

/// The page on a certificate, with a section on clocks that drift where a drift is given.
fn page_beside(
    alloc: Global,
    written: &WrittenTables,
    certificate: &Certificate,
    fault: Option<CheckFault>,
    drift: Option<u16>,
    identity: Option<&Identity<'_>>,
    section: &str,
) -> Result<String, AllocError>
    requires { fault ≡ verdict_of written.now.tables (named_rows certificate.now) }
{
    match drift {
        None => page_with_section(
            alloc,
            written.tables(),
            certificate,
            fault,
            None,
            identity,
            section,
        ),
        Some(drift) => drifting_page(alloc, written, certificate, fault, drift, identity, section),
    }
}

/// The page on a certificate, that says what it is of.
fn identified_page(
    alloc: Global,
    written: &WrittenTables,
    certificate: &Certificate,
    fault: Option<CheckFault>,
    drift: Option<u16>,
    of: PageOf<'_, '_>,
    section: &str,
) -> Result<String, AllocError>
    requires { fault ≡ verdict_of written.now.tables (named_rows certificate.now) }
{
    let digits = of.digits(alloc)?;
    let identity = identity_of(of, &digits);
    page_beside(
        alloc,
        written,
        certificate,
        fault,
        drift,
        Some(&identity),
        section,
    )
}

/// The page on a certificate, with what is shown beside it.
fn page_text(
    alloc: Global,
    written: &WrittenTables,
    certificate: &Certificate,
    fault: Option<CheckFault>,
    shown: Shown<'_, '_>,
    section: &str,
) -> Result<String, AllocError>
    requires { fault ≡ verdict_of written.now.tables (named_rows certificate.now) }
{
    match shown.of {
        None => page_beside(
            alloc,
            written,
            certificate,
            fault,
            shown.drift,
            None,
            section,
        ),
        Some(of) => identified_page(alloc, written, certificate, fault, shown.drift, of, section),
    }
}

/// Keeps the page on a certificate, given the fault of its verdict, with the outcome of that; with what is shown beside
/// it, and this section behind its parts.
///
/// # Errors
/// `AllocError` where memory was refused.
pub fn keep_page(
    alloc: Global,
    written: &WrittenTables,
    certificate: &Certificate,
    fault: Option<CheckFault>,
    shown: Shown<'_, '_>,
    section: &str,
    page: &mut Page,
) -> Result<Outcome, AllocError>
    requires { fault ≡ verdict_of written.now.tables (named_rows certificate.now) }
    ensures outcome { IfOk result (λ o. o ≡ outcome_of fault) }
{
    let text = page_text(alloc, written, certificate, fault, shown, section)?;
    page.keep(text.as_bytes())?;
    Ok(outcome(fault))
}
