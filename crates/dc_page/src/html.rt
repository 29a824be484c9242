//! The whole page.

ghost use Rattle.std.specs.Prelude.{◌≡◌, length};
ghost use Rattle.dc_cert.specs.Bounds.{certificate_rows};
ghost use Rattle.dc_cert.specs.NamedRows.{named_rows};
ghost use Rattle.dc_check.specs.Verdict.{IsSized, verdict_of};

use crate::claims::push_claims;
use crate::drift::{Drift, push_drift};
use crate::identity::{Identity, push_identity};
use crate::input::push_inputs;
use crate::known::{inputs_known, outputs_known};
use crate::labels::push_labels;
use crate::output::push_outputs;
use crate::standing::Standing;
use crate::style::{FOOT, HEAD};
use crate::summary::{push_failing, push_summary, push_tightest};
use crate::tight::tightest;
use crate::verdict::{SOUGHT, push_accepted, push_refused, push_sought};
use dc_cert::Certificate;
use dc_check::{CheckFault, Fitted, misnamed};
use dc_find::FindFault;
use dc_margin::{InputMargins, OutputMargins};
use dc_page_text::Html;
use dc_tables::Tables;
use std::alloc::{AllocError, Global};

/// Adds the summary, what is promised, where that is something, and the parts on all inputs, outputs and labels, given
/// the margins of the inputs and outputs.
fn push_sections(
    alloc: Global,
    html: &mut Html,
    fitted: &Fitted<'_>,
    inputs: &[InputMargins],
    outputs: &[OutputMargins],
    standing: Standing,
) -> Result<(), AllocError>
    requires inputs { length inputs.now ≡ length fitted.now.tables.now.buses }
    requires outputs { length outputs.now ≡ length fitted.now.tables.now.outputs }
{
    let all = tightest(alloc, fitted, inputs, outputs, standing)?;
    if standing.is_sought() {
        push_failing(html, fitted.tables, all.as_slice());
    } else {
        push_tightest(html, fitted.tables, all.as_slice());
    }
    html.add("</p></div>\n");
    push_summary(html, fitted.tables, all.as_slice(), standing);
    if standing.is_accepted() {
        push_claims(html, fitted);
    }
    push_inputs(alloc, html, fitted, inputs, standing)?;
    push_outputs(alloc, html, fitted, outputs, standing)?;
    push_labels(alloc, html, fitted, standing)
}

/// Adds what there is to show of a certificate whose names are the tables'.
fn push_named(
    alloc: Global,
    html: &mut Html,
    fitted: &Fitted<'_>,
    standing: Standing,
) -> Result<(), AllocError> {
    let inputs = inputs_known(alloc, fitted, standing)?;
    let outputs = outputs_known(alloc, fitted, standing)?;
    push_sections(
        alloc,
        html,
        fitted,
        inputs.as_slice(),
        outputs.as_slice(),
        standing,
    )
}

/// Adds the verdict and all that there is to show of it.
fn push_page(
    alloc: Global,
    html: &mut Html,
    tables: &Tables,
    certificate: &Certificate,
    fault: Option<CheckFault>,
) -> Result<(), AllocError> {
    let standing = match fault {
        None => {
            push_accepted(html, tables);
            Standing::Accepted
        }
        Some(fault) => {
            push_refused(html, tables, fault);
            Standing::Refused
        }
    };
    if misnamed(tables, certificate).is_some() {
        html.add("</p></div>\n");
        return Ok(());
    }
    let fitted = Fitted {
        tables,
        certificate,
    };
    push_named(alloc, html, &fitted, standing)
}

/// The head of a page, with what it is of where that is given.
fn headed(alloc: Global, identity: Option<&Identity<'_>>) -> Html {
    let mut html = Html::new(alloc);
    html.add(HEAD);
    if let Some(identity) = identity {
        push_identity(&mut html, identity);
    }
    html
}

/// The page as [`page_of`] makes it, with this section behind its parts. No clause says what stands in it: it is tested.
///
/// # Errors
/// `AllocError` where an allocation failed.
pub fn page_with_section(
    alloc: Global,
    tables: &Tables,
    certificate: &Certificate,
    fault: Option<CheckFault>,
    drift: Option<&Drift<'_>>,
    identity: Option<&Identity<'_>>,
    section: &str,
) -> Result<String, AllocError>
    requires { fault ≡ verdict_of tables.now (named_rows certificate.now) }
{
    let mut html = headed(alloc, identity);
    push_page(alloc, &mut html, tables, certificate, fault)?;
    html.add(section);
    if let Some(drift) = drift {
        push_drift(&mut html, tables, drift, fault.is_none());
    }
    html.add(FOOT);
    html.end()
}

/// The page on a certificate for tables, given the fault of its verdict, as HTML; with a section on clocks that drift
/// behind its parts where one is given, of which labels are left out where the certificate is refused, and with what it is
/// of at its head where that is given. No clause says what stands in it: it is tested.
///
/// # Errors
/// `AllocError` where an allocation failed.
pub fn page_of(
    alloc: Global,
    tables: &Tables,
    certificate: &Certificate,
    fault: Option<CheckFault>,
    drift: Option<&Drift<'_>>,
    identity: Option<&Identity<'_>>,
) -> Result<String, AllocError>
    requires { fault ≡ verdict_of tables.now (named_rows certificate.now) }
{
    page_with_section(alloc, tables, certificate, fault, drift, identity, "")
}

/// The page as [`page_of`] makes it, that does not say what it is of.
///
/// # Errors
/// `AllocError` where an allocation failed.
pub fn page(
    alloc: Global,
    tables: &Tables,
    certificate: &Certificate,
    fault: Option<CheckFault>,
) -> Result<String, AllocError>
    requires { fault ≡ verdict_of tables.now (named_rows certificate.now) }
{
    page_of(alloc, tables, certificate, fault, None, None)
}

/// The same with a section on clocks that drift.
///
/// # Errors
/// `AllocError` where an allocation failed.
pub fn page_with_drift(
    alloc: Global,
    tables: &Tables,
    certificate: &Certificate,
    fault: Option<CheckFault>,
    drift: &Drift<'_>,
) -> Result<String, AllocError>
    requires { fault ≡ verdict_of tables.now (named_rows certificate.now) }
{
    page_of(alloc, tables, certificate, fault, Some(drift), None)
}

/// The page on tables for which no certificate is accepted, up to the line of what stands first in the way of one, with what
/// it is of at its head where that is given.
///
/// # Errors
/// `AllocError` where an allocation failed.
pub fn sought_front(alloc: Global, identity: Option<&Identity<'_>>) -> Result<String, AllocError> {
    let mut html = headed(alloc, identity);
    html.add(SOUGHT);
    html.end()
}

/// The same page behind that line, given what stands first in the way, what was found, and where clocks drift what is shown
/// of that, of which labels are left out. No clause says what stands in it: it is tested.
///
/// # Errors
/// `AllocError` where an allocation failed.
pub fn sought_back(
    alloc: Global,
    tables: &Tables,
    found: &Certificate,
    fault: FindFault,
    drift: Option<&Drift<'_>>,
) -> Result<String, AllocError>
    requires { IsSized tables.now (certificate_rows found.now) }
{
    let mut html = Html::new(alloc);
    push_sought(&mut html, fault);
    let fitted = Fitted {
        tables,
        certificate: found,
    };
    push_named(alloc, &mut html, &fitted, Standing::Sought)?;
    if let Some(drift) = drift {
        push_drift(&mut html, tables, drift, false);
    }
    html.add(FOOT);
    html.end()
}
