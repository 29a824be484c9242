//! From a text to the system that it says, or its first fault.
ghost use Rattle.std.specs.Prelude.{◌≡◌, ◌≤◌, IfOk, OnOk, length};
ghost use Rattle.std.specs.String.{string_bytes};
ghost use Rattle.toml.specs.View.{view, items_view, table_view};
ghost use Rattle.dc_toml.specs.Faults.{seen};
ghost use Rattle.dc_order.specs.declared.limits.TheConstants.{LONGEST_LATENCY, MOST_CONCENTRATORS, MOST_LINKS};
ghost use Rattle.dc_system_text.specs.Faults.{Says, shape_rule};
ghost use Rattle.dc_system_text.specs.System.{AreShort, concentrator_at, each_at, end_at, link_at, lists_of, members_of, read_concentrator, read_link, ruled, system_in, system_of, version_of};

use crate::ends::end_of;
use crate::fault::{SystemFault, SystemPart, SystemRule, shape_rule};
use crate::parts::{ConcentratorText, End, LinkText, System};
use crate::rules::first_broken;
use dc_document::{BuildError, Name, Section, TableFault, TableRule};
use dc_order::{LONGEST_LATENCY, MOST_CONCENTRATORS, MOST_LINKS};
use dc_toml::document;
use dc_toml::keys::{keyed, known, name, number, present, table, text};
use dc_toml::lists::{optional_tables, tables};
use dc_toml::place::TablePlace;
use std::alloc::{AllocError, Global};
use toml::{Table, Value};

/// Why a text gives no system.
#[derive(Debug, Drop)]
pub enum SystemError {
    /// The text has this fault.
    Refused(SystemFault),
    /// Memory is out.
    Memory(AllocError),
}

/// A concentrator, with its texts lent.
#[derive(Clone, Copy)]
struct Lent<'a> {
    name: Name,
    tables: &'a str,
    certificate: &'a str,
}

/// The end at a key.
fn end(table: &Table, key: &str, place: TablePlace) -> Result<End, TableFault>
    ensures { result ≡ end_at place key.now (table_view table.now) }
{
    let text = text(table, key, place)?;
    match end_of(text.as_bytes()) {
        Some(end) => Ok(end),
        None => Err(place.fault(TableRule::WrongSpelling)),
    }
}

/// The concentrator that a value says.
#[tactic(auto, unfolding(crate::specs::System::read_concentrator))]
fn concentrator<'a>(value: &'a Value, place: TablePlace) -> Result<Lent<'a>, TableFault>
    ensures { seen (λ l. record { name = l.name; tables = l.tables.now; certificate = l.certificate.now }) result ≡ read_concentrator place (view value.now) }
{
    let table = table(value, place)?;
    keyed(table, &["name", "tables", "certificate"], place)?;
    let name = name(table, "name", place)?;
    let tables = text(table, "tables", place)?;
    let certificate = text(table, "certificate", place)?;
    Ok(Lent {
        name,
        tables,
        certificate,
    })
}

/// The link that a value says.
#[tactic(auto, unfolding(crate::specs::System::read_link))]
fn link(value: &Value, place: TablePlace) -> Result<LinkText, TableFault>
    ensures link { result ≡ read_link place (view value.now) }
    ensures short { IfOk result (λ l. l.most_us ≤ LONGEST_LATENCY) }
{
    let table = table(value, place)?;
    keyed(table, &["from", "to", "least_us", "most_us"], place)?;
    let from = end(table, "from", place)?;
    let to = end(table, "to", place)?;
    let least_us = number(table, "least_us", 0, LONGEST_LATENCY, place)?;
    let most_us = number(table, "most_us", 0, LONGEST_LATENCY, place)?;
    Ok(LinkText {
        from,
        to,
        least_us,
        most_us,
    })
}

/// The two lists at the top.
#[derive(Clone, Copy)]
struct TopLists<'a> {
    concentrators: &'a [Value],
    links: &'a [Value],
}

/// The two lists at the top, before their members are looked at.
#[tactic(auto, unfolding(crate::specs::System::lists_of))]
fn lists<'a>(document: &'a Table, top: TablePlace) -> Result<TopLists<'a>, TableFault>
    ensures lists { seen (λ l. (items_view l.concentrators.now, items_view l.links.now)) result ≡ lists_of top (table_view document.now) }
    ensures few { IfOk result (λ l. length l.concentrators.now ≤ MOST_CONCENTRATORS) }
    ensures few_links { IfOk result (λ l. length l.links.now ≤ MOST_LINKS) }
{
    known(document, &["version", "concentrator", "link"], top)?;
    present(document, &["version", "concentrator"], top)?;
    let concentrators = tables(document, "concentrator", 1, MOST_CONCENTRATORS, top)?;
    let links = optional_tables(document, "link", MOST_LINKS, top)?;
    Ok(TopLists {
        concentrators,
        links,
    })
}

/// The fault of a table of this kind.
fn told(part: SystemPart, fault: TableFault) -> SystemFault
    ensures { result ≡ record { rule = shape_rule fault.rule; part = part; index = fault.index } }
{
    SystemFault {
        rule: shape_rule(fault.rule),
        part,
        index: fault.index,
    }
}

/// Refuses a version that is not 1.
fn version(document: &Table) -> Result<(), SystemFault>
    ensures { result ≡ version_of (table_view document.now) }
{
    match number(document, "version", 1, 1, TablePlace::new(Section::Top, 0)) {
        Ok(_) => Ok(()),
        Err(_) => Err(SystemFault {
            rule: SystemRule::VersionUnknown,
            part: SystemPart::Top,
            index: 0,
        }),
    }
}

/// A concentrator with texts of its own.
fn kept(alloc: Global, lent: Lent<'_>) -> Result<ConcentratorText, AllocError>
    ensures { IfOk result (λ c. c ≡ record { name = lent.entry.name; tables = lent.entry.tables.now; certificate = lent.entry.certificate.now }) }
{
    let tables = String::from_str(alloc, lent.tables)?;
    let certificate = String::from_str(alloc, lent.certificate)?;
    Ok(ConcentratorText::new(lent.name, tables, certificate))
}

/// The concentrator of this number.
fn concentrator_of(
    alloc: Global,
    value: &Value,
    index: usize,
) -> Result<ConcentratorText, SystemError>
    ensures { Says (λ c. c) result (concentrator_at index (view value.now)) }
{
    match concentrator(value, TablePlace::new(Section::Top, index)) {
        Err(fault) => Err(SystemError::Refused(told(SystemPart::Concentrator, fault))),
        Ok(lent) => match kept(alloc, lent) {
            Ok(concentrator) => Ok(concentrator),
            Err(error) => Err(SystemError::Memory(error)),
        },
    }
}

/// The link of this number.
fn link_of(value: &Value, index: usize) -> Result<LinkText, SystemFault>
    ensures link { result ≡ link_at index (view value.now) }
    ensures short { IfOk result (λ l. l.most_us ≤ LONGEST_LATENCY) }
{
    match link(value, TablePlace::new(Section::Top, index)) {
        Ok(link) => Ok(link),
        Err(fault) => Err(told(SystemPart::Link, fault)),
    }
}

/// The concentrators, in order.
fn concentrators(alloc: Global, values: &[Value]) -> Result<Vec<ConcentratorText>, SystemError>
    ensures said { Says (λ v. v.items) result (each_at concentrator_at 0 (items_view values.now)) }
    ensures each { IfOk result (λ v. length v.items ≡ length values.now) }
{
    let mut all = Vec::new(alloc);
    for (index, value) in values.iter().enumerate() {
        match concentrator_of(alloc, value, index) {
            Err(error) => return Err(error),
            Ok(one) => match all.push(one) {
                Ok(()) => {}
                Err(_) => return Err(SystemError::Memory(AllocError)),
            },
        }
    }
    Ok(all)
}

/// The links, in order.
fn links(alloc: Global, values: &[Value]) -> Result<Vec<LinkText>, SystemError>
    ensures said { Says (λ v. v.items) result (each_at link_at 0 (items_view values.now)) }
    ensures each { IfOk result (λ v. length v.items ≡ length values.now) }
    ensures short { IfOk result (λ v. AreShort v.items) }
{
    let mut all = Vec::new(alloc);
    for (index, value) in values.iter().enumerate() {
        match link_of(value, index) {
            Err(fault) => return Err(SystemError::Refused(fault)),
            Ok(one) => match all.push(one) {
                Ok(()) => {}
                Err(_) => return Err(SystemError::Memory(AllocError)),
            },
        }
    }
    Ok(all)
}

/// The members of the two lists, where no rule on them is broken.
fn members(alloc: Global, lists: TopLists<'_>) -> Result<System, SystemError>
    requires few { length lists.concentrators.now ≤ MOST_CONCENTRATORS }
    requires few_links { length lists.links.now ≤ MOST_LINKS }
    ensures { Says (λ s. s) result (ruled (members_of (items_view lists.entry.concentrators.now, items_view lists.entry.links.now))) }
{
    let concentrators = concentrators(alloc, lists.concentrators)?;
    let links = links(alloc, lists.links)?;
    match first_broken(&concentrators, &links) {
        Some(fault) => Err(SystemError::Refused(fault)),
        None => Ok(System::new(concentrators, links)),
    }
}

/// The system that a document says.
fn system(alloc: Global, document: &Table) -> Result<System, SystemError>
    ensures { Says (λ s. s) result (system_in (table_view document.now)) }
{
    if let Err(fault) = version(document) {
        return Err(SystemError::Refused(fault));
    }
    match lists(document, TablePlace::new(Section::Top, 0)) {
        Ok(lists) => members(alloc, lists),
        Err(fault) => Err(SystemError::Refused(told(SystemPart::Top, fault))),
    }
}

/// The system that a text says: TOML of at most [`TEXT_LIMIT`](dc_document::TEXT_LIMIT) bytes.
///
/// # Errors
///
/// `Refused` with the first fault of the text, N01 to N12, by the definition that the contract names; `Memory` where an
/// allocation failed.
pub fn read_system(alloc: Global, text: &[u8]) -> Result<System, SystemError>
    ensures { Says (λ s. s) result (system_of text.now) }
{
    match document(alloc, text) {
        Ok(table) => system(alloc, &table),
        Err(BuildError::Refused(fault)) => Err(SystemError::Refused(told(SystemPart::Top, fault))),
        Err(BuildError::Memory(error)) => Err(SystemError::Memory(error)),
    }
}
