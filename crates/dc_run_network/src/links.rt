//! The links of a system by the numbers of their ends.
ghost use Rattle.std.specs.Prelude.{◌≡◌, IfOk, length, map, unwrap_or};
ghost use Rattle.std.specs.Str.{bytes_eq};
ghost use Rattle.dc_document.specs.Names.{number_of};
ghost use Rattle.dc_ways.specs.Members.{rows_of};
ghost use Rattle.dc_run_network.specs.Links.{connection_of, hop_of, is_named, number_in};

use dc_document::Name;
use dc_order::Hop;
use dc_system_text::{ConcentratorText, LinkText};
use dc_ways::{Connection, Member};
use std::alloc::{AllocError, Global};

/// Whether a concentrator has this name.
fn is_named(concentrator: &ConcentratorText, name: Name) -> bool
    ensures { result ≡ is_named name concentrator.now }
{
    name == concentrator.name()
}

/// The number of the concentrator of this name; one past the last where there is none.
fn number_in(concentrators: &[ConcentratorText], name: Name) -> usize
    ensures { result ≡ number_in concentrators.now name }
{
    for (number, concentrator) in concentrators.iter().enumerate() {
        if is_named(concentrator, name) {
            return number;
        }
    }
    concentrators.len()
}

/// From where to where a link leads.
fn hop_of(concentrators: &[ConcentratorText], link: &LinkText) -> Hop
    ensures { result ≡ hop_of concentrators.now link.now }
{
    Hop {
        from: number_in(concentrators, link.from.concentrator),
        to: number_in(concentrators, link.to.concentrator),
    }
}

/// From where to where each link leads.
///
/// # Errors
/// `AllocError` where memory was refused.
pub(crate) fn hops(
    alloc: Global,
    concentrators: &[ConcentratorText],
    links: &[LinkText],
) -> Result<Vec<Hop>, AllocError>
    ensures { IfOk result (λ v. v.items ≡ map (hop_of concentrators.now) links.now) }
{
    let mut all = Vec::new(alloc);
    for link in links {
        all.push(hop_of(concentrators, link))?;
    }
    Ok(all)
}

/// The number of an output of concentrator `i`; one past the last where it is not there.
fn output_in(members: &[Member], i: usize, name: Name) -> usize
    ensures { result ≡ unwrap_or (number_of (rows_of members.now i).names.outputs name) (length (rows_of members.now i).outputs) }
{
    match members.get(i) {
        Some(member) => match member.tables().output_named(&name) {
            Some(number) => number,
            None => member.tables().output_count(),
        },
        None => 0,
    }
}

/// The number of a bus of concentrator `i`; one past the last where it is not there.
fn bus_in(members: &[Member], i: usize, name: Name) -> usize
    ensures { result ≡ unwrap_or (number_of (rows_of members.now i).names.buses name) (length (rows_of members.now i).buses) }
{
    match members.get(i) {
        Some(member) => match member.tables().bus_named(&name) {
            Some(number) => number,
            None => member.tables().bus_count(),
        },
        None => 0,
    }
}

/// A link by its numbers.
fn connection_of(
    concentrators: &[ConcentratorText],
    members: &[Member],
    link: &LinkText,
) -> Connection
    ensures { result ≡ connection_of concentrators.now members.now link.now }
{
    let from = number_in(concentrators, link.from.concentrator);
    let to = number_in(concentrators, link.to.concentrator);
    Connection {
        from,
        to,
        output: output_in(members, from, link.from.port),
        bus: bus_in(members, to, link.to.port),
        least_us: link.least_us,
        most_us: link.most_us,
    }
}

/// The links by their numbers.
///
/// # Errors
/// `AllocError` where memory was refused.
pub(crate) fn connections(
    alloc: Global,
    concentrators: &[ConcentratorText],
    members: &[Member],
    links: &[LinkText],
) -> Result<Vec<Connection>, AllocError>
    ensures { IfOk result (λ v. v.items ≡ map (connection_of concentrators.now members.now) links.now) }
{
    let mut all = Vec::new(alloc);
    for link in links {
        all.push(connection_of(concentrators, members, link))?;
    }
    Ok(all)
}
