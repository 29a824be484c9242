//! What stands in the way of reading a sheet, and how it is told.

use dc_cell::{CellFault, Column, Shown};
use std::alloc::{AllocError, Global};

/// So many faults of both sheets are told; the others are counted.
pub const MOST_FAULTS: usize = 50;

/// One of the two sheets.
#[derive(Clone, Copy, Debug, PartialEq, Eq)]
pub enum Sheet {
    /// The sheet of the inputs.
    Inputs,
    /// The sheet of the outputs.
    Outputs,
}

/// What is wrong.
#[derive(Clone, Copy, Debug, PartialEq)]
pub enum FaultKind {
    /// The first record has no title.
    NoHeader,
    /// Two titles are of this column.
    Twice(Column),
    /// No title is of this column, which is wanted.
    Absent(Column),
    /// This column seems to be meant by a title that is none: the name of a time without a unit that is known, or a title with
    /// one letter wrong.
    Meant {
        /// The column.
        column: Column,
        /// What stands there.
        shown: Shown,
    },
    /// A record has more cells than there are titles, and not all of these are empty.
    Past {
        /// How many cells it has.
        cells: usize,
        /// How many titles there are.
        columns: usize,
    },
    /// A cell is not read.
    Cell {
        /// Its column.
        column: Column,
        /// What stands there.
        shown: Shown,
        /// Why it is not read.
        fault: CellFault,
    },
    /// A least interval is over the greatest.
    Reversed {
        /// The least, in microseconds.
        min_us: u32,
        /// The greatest, in microseconds.
        max_us: u32,
    },
}

/// What is wrong in a row of a sheet.
#[derive(Clone, Copy, Debug, PartialEq)]
pub struct Fault {
    /// The sheet.
    pub sheet: Sheet,
    /// The row's number at the margin of the spreadsheet; the header is row 1.
    pub row: u32,
    /// What is wrong there.
    pub kind: FaultKind,
}

/// The faults of a sheet.
#[derive(Debug, Drop)]
pub struct Faults {
    kept: Vec<Fault>,
    more: usize,
}

/// Why a sheet is not read.
#[derive(Debug, Drop)]
pub enum SheetError {
    /// The text is over its limit.
    TooLong(Sheet),
    /// The text is written in UTF-16.
    Utf16(Sheet),
    /// There are faults in its header or its rows.
    Faults(Faults),
    /// Out of memory.
    Memory,
}

impl Faults {
    /// No faults.
    pub fn new(alloc: Global) -> Faults {
        Faults {
            kept: Vec::new(alloc),
            more: 0,
        }
    }

    /// The first of them, at most [`MOST_FAULTS`].
    pub fn kept(&self) -> &[Fault] {
        &self.kept
    }

    /// How many more there are.
    pub fn more(&self) -> usize {
        self.more
    }

    /// Adds one behind the others; it is counted where there are [`MOST_FAULTS`] already.
    pub fn push(&mut self, fault: Fault) -> Result<(), AllocError> {
        if self.kept.len() < MOST_FAULTS {
            self.kept.push(fault)?;
        } else {
            self.more = self.more.saturating_add(1);
        }
        Ok(())
    }

    /// Whether there is none.
    pub fn is_empty(&self) -> bool {
        self.kept.is_empty()
    }
}

impl SheetError {
    /// That the text of the inputs is over its limit.
    pub fn too_long_inputs() -> SheetError {
        SheetError::TooLong(Sheet::Inputs)
    }

    /// That the text of the outputs is over its limit.
    pub fn too_long_outputs() -> SheetError {
        SheetError::TooLong(Sheet::Outputs)
    }
}

impl Sheet {
    /// What a message calls it.
    pub fn name(self) -> &'static str {
        match self {
            Sheet::Inputs => "inputs",
            Sheet::Outputs => "outputs",
        }
    }

    /// The titles that it must have.
    pub fn wanted(self) -> &'static str {
        match self {
            Sheet::Inputs => "bus, speed, label, equipment, format, min, max",
            Sheet::Outputs => "output, speed, label, equipment, sources, min, max",
        }
    }
}
