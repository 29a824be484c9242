//! From a text to the parts that it says, or its first fault.
ghost use Rattle.std.specs.Prelude.{◌≡◌};
ghost use Rattle.toml.specs.View.{table_view, items_view};
ghost use Rattle.dc_toml.specs.Faults.{seen, Gives, Leaves};
ghost use Rattle.dc_toml.specs.Written.{written};
ghost use Rattle.dc_toml.specs.Reading.{document_of, tick_of, lists_of, members_of, tables_in, tables_of, unlaid_tables_of};

use crate::keys::{known, number, present, version};
use crate::layout::Layout;
use crate::lists::optional_tables;
use crate::place::TablePlace;
use crate::sections::{read_outputs, read_routers, read_tables_of};
use dc_bound::LONGEST_TICK;
use dc_dict::Parameter;
use dc_document::{
    BuildError, BusPart, MOST_BUSES, MOST_OUTPUTS, MOST_PARAMETERS, MOST_ROUTERS, Parts,
    SHORTEST_TICK, Section, TEXT_LIMIT, TableFault, TableRule,
};
use std::alloc::{AllocError, Global};
use toml::{Table, Value};

/// The length of a tick, where the top's keys are right.
#[tactic(auto, unfolding(crate::specs::Reading::tick_of))]
fn tick(document: &Table, top: TablePlace) -> Result<u32, TableFault>
    ensures { result ≡ tick_of top (table_view document.now) }
{
    known(
        document,
        &["version", "tick_us", "parameter", "bus", "router", "output"],
        top,
    )?;
    present(document, &["version", "tick_us"], top)?;
    number(document, "tick_us", SHORTEST_TICK, LONGEST_TICK, top)
}

/// The four lists of tables at the top.
#[derive(Clone, Copy)]
struct TopLists<'a> {
    parameters: &'a [Value],
    buses: &'a [Value],
    routers: &'a [Value],
    outputs: &'a [Value],
}

/// The four lists of tables at the top, before their members are looked at.
#[tactic(auto, unfolding(crate::specs::Reading::lists_of))]
fn lists<'a>(document: &'a Table, top: TablePlace) -> Result<TopLists<'a>, TableFault>
    ensures { seen (λ l. record {
      parameters = items_view l.parameters.now;
      buses = items_view l.buses.now;
      routers = items_view l.routers.now;
      outputs = items_view l.outputs.now;
    }) result ≡ lists_of top (table_view document.now) }
{
    let parameters = optional_tables(document, "parameter", MOST_PARAMETERS, top)?;
    let buses = optional_tables(document, "bus", MOST_BUSES, top)?;
    let routers = optional_tables(document, "router", MOST_ROUTERS, top)?;
    let outputs = optional_tables(document, "output", MOST_OUTPUTS, top)?;
    Ok(TopLists {
        parameters,
        buses,
        routers,
        outputs,
    })
}

/// Puts the tables of the four lists after what was read before them.
#[tactic(auto, unfolding(crate::specs::Reading::members_of))]
fn members(
    alloc: Global,
    layout: Layout,
    parts: &mut Parts,
    parameters: &[Value],
    buses: &[Value],
    routers: &[Value],
    outputs: &[Value],
) -> Result<(), BuildError>
    ensures { Leaves (written parts.new) result (members_of layout (written parts.old)
        (record { parameters = items_view parameters.now; buses = items_view buses.now; routers = items_view routers.now; outputs = items_view outputs.now })) }
{
    read_tables_of::<Parameter>(alloc, parts, parameters)?;
    read_tables_of::<BusPart>(alloc, parts, buses)?;
    read_routers(alloc, layout, parts, routers)?;
    read_outputs(alloc, layout, parts, outputs)
}

/// The parts that a document says.
#[tactic(auto, unfolding(crate::specs::Reading::tables_in))]
fn parts(alloc: Global, layout: Layout, document: &Table) -> Result<Parts, BuildError>
    ensures { Gives written result (tables_in layout (table_view document.now)) }
{
    let top = TablePlace::new(Section::Top, 0);
    let version = version(document, top)?;
    let tick_us = tick(document, top)?;
    let lists = lists(document, top)?;
    let mut parts = Parts::new(alloc, version, tick_us);
    members(
        alloc,
        layout,
        &mut parts,
        lists.parameters,
        lists.buses,
        lists.routers,
        lists.outputs,
    )?;
    Ok(parts)
}

/// The TOML document that a text is.
#[tactic(auto, unfolding(crate::specs::Reading::document_of))]
pub fn document(alloc: Global, text: &[u8]) -> Result<Table, BuildError>
    ensures { Gives table_view result (document_of text.now) }
{
    let refused = TablePlace::new(Section::Top, 0).fault(TableRule::NotToml);
    if text.len() > TEXT_LIMIT {
        return Err(BuildError::Refused(refused));
    }
    match toml::table_from_slice(alloc, text) {
        Ok(table) => Ok(table),
        Err(error) => {
            if error.is_memory() {
                return Err(BuildError::Memory(AllocError));
            }
            Err(BuildError::Refused(refused))
        }
    }
}

/// The parts that a text says: tables in TOML, of at most [`TEXT_LIMIT`] bytes, whose rules are not tested yet.
///
/// # Errors
///
/// `Refused` with the first fault of the text (T01 to T08), by the definition that the contract names; `Memory` where
/// an allocation failed.
pub fn read_parts(alloc: Global, text: &[u8]) -> Result<Parts, BuildError>
    ensures { Gives written result (tables_of text.now) }
{
    let table = document(alloc, text)?;
    parts(alloc, Layout::Wanted, &table)
}

/// The parts that a text says in which no layout need stand: what there is of `frame`, `stale` and `offsets` is not looked at, each frame
/// and each stale time is 1, and no label has an offset. `most` of a router may be absent, its `visits` may stand for several looks in
/// a row, and the limit on a label's age may be in microseconds.
///
/// # Errors
///
/// `Refused` with the first fault of the text (T01 to T08), by the definition that the contract names; `Memory` where
/// an allocation failed.
pub fn read_unlaid(alloc: Global, text: &[u8]) -> Result<Parts, BuildError>
    ensures { Gives written result (unlaid_tables_of text.now) }
{
    let table = document(alloc, text)?;
    parts(alloc, Layout::Open, &table)
}
