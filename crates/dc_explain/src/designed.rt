//! What stands in the way of a design, and what is wrong with its sheets.
use crate::ran::Ran;
use dc_tell::Value::Text;
use dc_tell::{Explanation, Names};
use std::alloc::Global;
use std::str::from_utf8;

/// The stream that a line says is not in the inputs, where it names no other.
fn missing_in(line: &str) -> Option<&str> {
    let Some((_, behind)) = line.split_once("no stream ") else {
        return None;
    };
    match behind.split_once(" in inputs (T16)") {
        Some((name, rest)) if rest.is_empty() => Some(name),
        _ => None,
    }
}

/// Whether a cell may be the name of a stream that is not there: not its bus, which stands in front, nor a bus that is like
/// that.
fn may_name(cell: &str, name: &str) -> bool {
    !name.starts_with(cell) && (cell.contains('-') || !name.contains('-'))
}

/// The cells of a sheet, as far as they are parted by commas, that may be the name of a stream that is not there.
fn cells_like<'a>(alloc: Global, sheet: &'a [u8], name: &str) -> Names<'a> {
    let mut cells = Names::new(alloc);
    for line in from_utf8(sheet).unwrap_or("").lines() {
        for cell in line.split(',') {
            let cell = cell.trim();
            if may_name(cell, name) {
                cells.add(cell);
            }
        }
    }
    cells
}

/// Writes which cell of the inputs a stream may be meant by that is not there, where one is like it; else how streams are
/// called.
fn tell_like(alloc: Global, out: &mut Explanation, name: &str, sheet: &[u8]) {
    let cells = cells_like(alloc, sheet, name);
    if cells.is_lost() {
        return out.lose();
    }
    if let Some((like, _)) = out.nearest(name, cells.as_slice()) {
        let like = [Text(like)];
        return out.help(
            "there is `{}` in the inputs: write it so, if it is meant",
            &like,
        );
    }
    out.help(
        "a stream without a name is called by its bus and its label, as ADC1-203: the label in three digits",
        &[],
    );
}

/// Repeats the lines that were written, which say by rows and columns what to do and mostly go to a file, where they are
/// not seen already, and tells which stream may be meant by one that is not there.
pub(crate) fn repeat_lines(out: &mut Explanation, ran: &Ran<'_>) {
    for line in ran.said.lines() {
        if !ran.is_seen {
            out.end_line();
            out.add(line);
        }
        if let Some(name) = missing_in(line) {
            tell_like(ran.alloc, out, name, ran.first.text.as_slice());
        }
    }
}
