//! The lines that tell the faults of the sheets.

use crate::fault::{Fault, FaultKind, Faults, MOST_FAULTS, Sheet, SheetError};
use dc_cell::{CellFault, Column, Inputs, Outputs, Shown};
use dc_tell::{Explanation, Value};
use std::alloc::Global;

/// What is said of a cell that is not read.
fn cell_words(sheet: Sheet, column: Column, fault: CellFault) -> &'static str {
    match fault {
        CellFault::NotName => "a name has 1 to 16 of A-Z a-z 0-9 _ -",
        CellFault::NotSpeed => "a speed is high or low",
        CellFault::NotFormat => "a format is bnr, bcd or disc",
        CellFault::NotPolice => "police is yes or no",
        CellFault::NotLabel => "a label has three octal digits, 001 to 377",
        CellFault::NotEquipment => "an equipment code has three hexadecimal digits, 000 to FFF",
        CellFault::MadeNumber => {
            "a spreadsheet made a number of an equipment code (1E2, say): format the column as text and type the code again"
        }
        CellFault::NotSdi => match sheet {
            Sheet::Inputs => "an SDI is 0 to 3, or 00 to 11 for bits 10 and 9, or any",
            Sheet::Outputs => "an SDI is 0 to 3, or 00 to 11 for bits 10 and 9",
        },
        CellFault::NotQueue => "a whole number from 1 to 4096 is wanted",
        CellFault::NotSteps => "a whole number from 1 to 1000 is wanted",
        CellFault::NoWithin => "in which time the steps are made is wanted",
        CellFault::NotNumber => "a number is wanted, without unit or spaces",
        CellFault::MayBeThousands => {
            "this may be thousands or a fraction: write it without the mark, or with four decimals"
        }
        CellFault::PartOfMicrosecond => "no part of a microsecond can be kept",
        CellFault::OutOfRange => match column {
            Column::Jitter => "0 to 60000000 us is wanted",
            _ => "1 to 60000000 us is wanted",
        },
    }
}

/// What is said besides of an empty cell: where merged cells may be the reason, and where a document may say nothing.
fn fill_words(sheet: Sheet, column: Column) -> &'static str {
    match column {
        Column::Bus | Column::Output | Column::Speed => {
            "; merged cells export empty ones: fill them down"
        }
        Column::Min => match sheet {
            Sheet::Inputs => "; how near two of its words may come, as its sender states it",
            Sheet::Outputs => "; where no receiver states one, 1 us asks nothing (0.0010 ms)",
        },
        _ => "",
    }
}

/// Writes what stands in a cell or a title.
fn tell_shown(lines: &mut Explanation, shown: &Shown) {
    lines.add("\"");
    lines.put(Value::Text(shown.as_str()));
    lines.add("\": ");
}

/// Writes of a cell that is not read what stands there and why it is not.
fn tell_cell(
    lines: &mut Explanation,
    sheet: Sheet,
    column: Column,
    shown: &Shown,
    fault: CellFault,
) {
    let words = cell_words(sheet, column, fault);
    if shown.is_empty() {
        lines.add("empty: ");
        lines.add(words);
        lines.add(fill_words(sheet, column));
    } else {
        tell_shown(lines, shown);
        lines.add(words);
    }
}

/// Writes how the title of a column is wanted.
fn tell_wanted(lines: &mut Explanation, column: Column) {
    let title = Value::Text(column.name());
    let sentence = if column.is_time() {
        "wanted as {}_us or {}_ms"
    } else {
        "wanted as {}"
    };
    lines.say(sentence, &[title, title]);
}

/// Writes of which column the rest of the line is.
fn tell_title(lines: &mut Explanation, column: Column) {
    lines.say(" column {}: ", &[Value::Text(column.name())]);
}

/// Writes what is wrong in a row.
fn tell_kind(lines: &mut Explanation, sheet: Sheet, kind: &FaultKind) {
    match kind {
        FaultKind::NoHeader => lines.say(
            ": no header; columns wanted: {}",
            &[Value::Text(sheet.wanted())],
        ),
        FaultKind::Twice(column) => {
            tell_title(lines, *column);
            lines.add("stands twice");
        }
        FaultKind::Absent(column) => {
            tell_title(lines, *column);
            lines.add("absent, ");
            tell_wanted(lines, *column);
        }
        FaultKind::Meant { column, shown } => {
            tell_title(lines, *column);
            tell_shown(lines, shown);
            tell_wanted(lines, *column);
        }
        FaultKind::Past { cells, columns } => lines.say(
            ": {} cells, but {} columns; a cell that holds the separator stands in double quotes",
            &[Value::Number(*cells as u64), Value::Number(*columns as u64)],
        ),
        FaultKind::Cell {
            column,
            shown,
            fault,
        } => {
            tell_title(lines, *column);
            tell_cell(lines, sheet, *column, shown, *fault);
        }
        FaultKind::Reversed { min_us, max_us } => lines.say(
            " column min: {} us is over the greatest interval {} us",
            &[
                Value::Number(u64::from(*min_us)),
                Value::Number(u64::from(*max_us)),
            ],
        ),
    }
}

/// Writes the line of a fault.
fn tell_fault(lines: &mut Explanation, fault: &Fault) {
    lines.say(
        "unreadable {} row {}",
        &[
            Value::Text(fault.sheet.name()),
            Value::Number(u64::from(fault.row)),
        ],
    );
    tell_kind(lines, fault.sheet, &fault.kind);
    lines.end_line();
}

/// Writes the first so many of some faults; so many were not told.
fn tell_first(lines: &mut Explanation, faults: &Faults, free: usize) -> usize {
    let kept = faults.kept();
    for fault in kept.iter().take(free) {
        tell_fault(lines, fault);
    }
    kept.len()
        .saturating_sub(free)
        .saturating_add(faults.more())
}

/// Writes what is wrong with the text of a sheet.
fn tell_text(lines: &mut Explanation, sheet: Sheet, words: &'static str) {
    lines.say(
        "unreadable {}: {}",
        &[Value::Text(sheet.name()), Value::Text(words)],
    );
    lines.end_line();
}

/// Writes the lines of the faults of one sheet, while there are fewer than [`MOST_FAULTS`]; so many were not told.
fn tell_sheet(lines: &mut Explanation, error: &SheetError, told: usize) -> usize {
    match error {
        SheetError::Faults(faults) => {
            return tell_first(lines, faults, MOST_FAULTS.saturating_sub(told));
        }
        SheetError::TooLong(sheet) => tell_text(lines, *sheet, "over 1048576 bytes"),
        SheetError::Utf16(sheet) => tell_text(lines, *sheet, "UTF-16; export it as CSV UTF-8"),
        SheetError::Memory => lines.lose(),
    }
    0
}

/// How many lines were told of a sheet by itself.
fn told_of(inputs: &Result<Inputs, SheetError>) -> usize {
    match inputs {
        Ok(_) => 0,
        Err(SheetError::Faults(faults)) => faults.kept().len(),
        Err(_) => 1,
    }
}

/// The lines that tell the faults of both sheets, those of the inputs first: at most [`MOST_FAULTS`], and how many more
/// there are. `None` where memory is out.
pub fn fault_lines(
    alloc: Global,
    inputs: &Result<Inputs, SheetError>,
    outputs: &Result<Outputs, SheetError>,
) -> Option<String> {
    let mut lines = Explanation::new(alloc);
    let mut more = 0usize;
    if let Err(error) = inputs {
        more = tell_sheet(&mut lines, error, 0);
    }
    if let Err(error) = outputs {
        more = more.saturating_add(tell_sheet(&mut lines, error, told_of(inputs)));
    }
    if more > 0 {
        lines.say("and {} more", &[Value::Number(more as u64)]);
    }
    lines.finish()
}
