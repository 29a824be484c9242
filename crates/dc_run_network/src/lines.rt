//! What is told of a network that is refused.
ghost use Rattle.std.specs.Prelude.{◌≡◌, ◌++◌, IfOk, decimal};
ghost use Rattle.dc_run_network.specs.Lines.{IsPlaced, at_text, link_text, place_text, ring_text, system_text};

use crate::codes::{stream_code, system_code};
use dc_answer::Page;
use dc_document::Name;
use dc_system_text::{SystemFault, SystemPart};
use dc_tables::Tables;
use dc_ways::LinkFault;
use itoa::Buffer;
use std::alloc::AllocError;

/// Puts a number at the end.
pub(crate) fn add_number(page: &mut Page, number: u64) -> Result<(), AllocError>
    ensures { IfOk result (λ _. page.new ≡ page.old ++ decimal number) }
{
    let mut buffer = Buffer::new();
    page.add(buffer.format(number).as_bytes())
}

/// Puts the place of a fault of a system's text at the end.
fn add_place(page: &mut Page, part: SystemPart, index: usize) -> Result<(), AllocError>
    ensures { IfOk result (λ _. page.new ≡ page.old ++ place_text part index) }
{
    match part {
        SystemPart::Top => page.add(b"top"),
        SystemPart::Concentrator => {
            page.add(b"concentrator ")?;
            add_number(page, index as u64)
        }
        SystemPart::Link => {
            page.add(b"link ")?;
            add_number(page, index as u64)
        }
    }
}

/// Makes the page the line of a fault of a system's text.
///
/// # Errors
/// `AllocError` where memory was refused.
pub(crate) fn tell_system_fault(page: &mut Page, fault: SystemFault) -> Result<(), AllocError>
    ensures { IfOk result (λ _. page.new ≡ system_text fault) }
{
    page.keep(b"unreadable ")?;
    page.add(system_code(fault.rule))?;
    page.add(b" at ")?;
    add_place(page, fault.part, fault.index)
}

/// Makes the page the line of the first concentrator that is on a ring.
///
/// # Errors
/// `AllocError` where memory was refused.
pub(crate) fn tell_ring(page: &mut Page, index: usize) -> Result<(), AllocError>
    ensures { IfOk result (λ _. page.new ≡ ring_text index) }
{
    page.keep(b"unreadable N13 at concentrator ")?;
    add_number(page, index as u64)
}

/// Makes the page a line behind the name of its concentrator.
///
/// # Errors
/// `AllocError` where memory was refused.
pub(crate) fn tell_at(page: &mut Page, name: Name, line: &[u8]) -> Result<(), AllocError>
    ensures { IfOk result (λ _. page.new ≡ at_text name line.now) }
{
    page.keep(b"at ")?;
    page.add(name.text())?;
    page.add(b" ")?;
    page.add(line)
}

/// Makes the page the line of a link's fault, where these are the tables to whose bus it leads.
///
/// # Errors
/// `AllocError` where memory was refused.
pub(crate) fn tell_link_fault(
    page: &mut Page,
    tables: &Tables,
    link: usize,
    fault: LinkFault,
) -> Result<(), AllocError>
    requires { IsPlaced tables.now fault }
    ensures { IfOk result (λ _. page.new ≡ link_text tables.now link fault) }
{
    match fault {
        LinkFault::NoEnd => {
            page.keep(b"refused N14 link ")?;
            add_number(page, link as u64)
        }
        LinkFault::Speeds => {
            page.keep(b"refused N15 link ")?;
            add_number(page, link as u64)
        }
        LinkFault::Stream(stream, rule) => {
            page.keep(b"refused ")?;
            page.add(stream_code(rule))?;
            page.add(b" link ")?;
            add_number(page, link as u64)?;
            page.add(b" stream ")?;
            page.add(tables.stream_name(stream).text())
        }
    }
}
