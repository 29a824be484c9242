//! From a text to the tables that it says, or its first fault.
ghost use Rattle.dc_build.specs.Reported.{TellsTables, TellsWritten};
ghost use Rattle.dc_toml.specs.Reading.{tables_of};

use crate::tables::Build;
use crate::written::WrittenTables;
use dc_document::{BuildError, TEXT_LIMIT};
use dc_tables::Tables;
use dc_toml::read_parts;
use std::alloc::Global;

/// The tables that a TOML text of at most [`TEXT_LIMIT`] bytes says, valid by all rules.
///
/// # Errors
///
/// `Refused` with the first fault of the text: T01 to T08 of its shape first, then the totals and T09 to T24 as
/// `Tables::build` tells them; `Memory` where an allocation failed.
pub fn read_tables(alloc: Global, text: &[u8]) -> Result<Tables, BuildError>
    ensures { TellsTables (tables_of text.now) result }
{
    let parts = read_parts(alloc, text)?;
    Tables::build(alloc, parts)
}

/// The same beside the document that the text says.
///
/// # Errors
///
/// As of [`read_tables`].
pub fn read_written(alloc: Global, text: &[u8]) -> Result<WrittenTables, BuildError>
    ensures { TellsWritten (tables_of text.now) result }
{
    let parts = read_parts(alloc, text)?;
    WrittenTables::build(alloc, parts)
}
