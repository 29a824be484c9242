//! Cells that hold names.

ghost use Rattle.std.specs.Prelude.{◌≡◌, [], None, IfOk, Some};
ghost use Rattle.std.specs.Bool.{MatchBool};
ghost use Rattle.dc_cell.specs.Names.{name_cell_of, name_if_any_of, parts_names as parts_names_of, with_part, names_behind};

use crate::fault::CellFault;
use dc_document::Name;
use std::alloc::{AllocError, Global};

/// The name that a cell holds.
pub fn name_cell(text: &[u8]) -> Result<Name, CellFault>
    ensures { result ≡ name_cell_of text.now }
{
    match Name::new(text) {
        Some(name) => Ok(name),
        None => Err(CellFault::NotName),
    }
}

/// The name that a cell holds; `None` where it is empty.
pub fn name_if_any_cell(text: &[u8]) -> Result<Option<Name>, CellFault>
    ensures { result ≡ name_if_any_of text.now }
{
    if text.is_empty() {
        return Ok(None);
    }
    match Name::new(text) {
        Some(name) => Ok(Some(name)),
        None => Err(CellFault::NotName),
    }
}

/// Whether a byte parts two names: a space, a tab, a line's end, `;`, `,`, `|`, `/` or `+`.
pub fn parts_names(byte: u8) -> bool
    ensures { result ≡ parts_names_of byte }
{
    matches!(
        byte,
        b' ' | b'\t' | b'\n' | 12 | b'\r' | b';' | b',' | b'|' | b'/' | b'+'
    )
}

/// Adds the name that a part is, where it is not empty; false where it is no name.
fn push_part(names: &mut Vec<Name>, part: &[u8]) -> Result<bool, AllocError>
    ensures { IfOk result (λ well. MatchBool well (with_part names.old.items part.now ≡ Some names.new.items) (with_part names.old.items part.now ≡ None)) }
{
    if part.is_empty() {
        return Ok(true);
    }
    match Name::new(part) {
        Some(name) => {
            names.push(name)?;
            Ok(true)
        }
        None => Ok(false),
    }
}

/// Adds the names of a cell; false where one of its parts is no name.
#[tactic(auto, unfolding(crate::specs::Names::names_behind))]
pub fn push_names(alloc: Global, text: &[u8], names: &mut Vec<Name>) -> Result<bool, AllocError>
    ensures { IfOk result (λ well. MatchBool well (names_behind names.old.items [] text.now ≡ Some names.new.items) (names_behind names.old.items [] text.now ≡ None)) }
{
    let mut part: Vec<u8> = Vec::new(alloc);
    for byte in text {
        if parts_names(*byte) {
            if !push_part(names, &part)? {
                return Ok(false);
            }
            part.clear();
        } else {
            part.push(*byte)?;
        }
    }
    push_part(names, &part)
}
