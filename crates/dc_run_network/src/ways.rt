//! What is told of a network that is accepted.
ghost use Rattle.std.specs.Prelude.{◌≡◌, ◌++◌, ◌∷◌, ◌<◌, IfOk, length};
ghost use Rattle.dc_run_network.specs.Lines.{accepted_text, fed, label_lines, way_lines, way_text};
ghost use Rattle.dc_ways.specs.Members.{rows_of, ways_in};

use crate::lines::add_number;
use dc_answer::Page;
use dc_document::Name;
use dc_system_text::ConcentratorText;
use dc_tables::Tables;
use dc_ways::{Member, Ways};
use std::alloc::AllocError;

/// Makes the page the first line of a network that is accepted.
fn tell_accepted(page: &mut Page, concentrators: usize, links: usize) -> Result<(), AllocError>
    ensures { IfOk result (λ _. page.new ≡ accepted_text concentrators links) }
{
    page.keep(b"accepted concentrators ")?;
    add_number(page, concentrators as u64)?;
    page.add(b" links ")?;
    add_number(page, links as u64)
}

/// Puts a line feed and the line of a way at the end.
fn add_way(page: &mut Page, concentrator: &[u8], label: &[u8], us: u64) -> Result<(), AllocError>
    ensures { IfOk result (λ _. page.new ≡ page.old ++ 10 ∷ way_text concentrator.now label.now us) }
{
    page.add(b"\nway ")?;
    page.add(concentrator)?;
    page.add(b".")?;
    page.add(label)?;
    page.add(b" ")?;
    add_number(page, us)
}

/// The way of a label of concentrator `i`; 0 where it is not there.
fn way_at(rows: &[Ways], i: usize, label: usize) -> u64
    ensures { result ≡ ways_in rows.now i label }
{
    match rows.get(i) {
        Some(ways) => ways.of(label),
        None => 0,
    }
}

/// Puts the lines of the labels of concentrator `i` at the end.
fn add_labels(
    page: &mut Page,
    name: Name,
    tables: &Tables,
    rows: &[Ways],
    i: usize,
) -> Result<(), AllocError>
    ensures { IfOk result (λ _. page.new ≡ page.old ++ fed (label_lines name tables.now (ways_in rows.now i) (length tables.now.labels))) }
{
    tables.named();
    for label in 0..tables.label_count() {
        let us = way_at(rows, i, label);
        add_way(page, name.text(), tables.label_name(label).text(), us)?;
    }
    Ok(())
}

/// The tables of concentrator `i`.
fn tables_at(members: &[Member], i: usize) -> &Tables
    requires { i < length members.now }
    ensures { result.now ≡ rows_of members.now i }
{
    members[i].tables()
}

/// Makes the page the lines of a network that is accepted.
///
/// # Errors
/// `AllocError` where memory was refused.
pub(crate) fn tell_ways(
    page: &mut Page,
    concentrators: &[ConcentratorText],
    links: usize,
    members: &[Member],
    rows: &[Ways],
) -> Result<(), AllocError>
    requires { length members.now ≡ length concentrators.now }
    ensures { IfOk result (λ _. page.new ≡ accepted_text (length concentrators.now) links
        ++ fed (way_lines concentrators.now members.now rows.now (length concentrators.now))) }
{
    tell_accepted(page, concentrators.len(), links)?;
    for i in 0..concentrators.len() {
        let name = concentrators[i].name();
        add_labels(page, name, tables_at(members, i), rows, i)?;
    }
    Ok(())
}
