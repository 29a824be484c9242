//! Why a cell is not read.

/// Why a cell is not read.
#[derive(Clone, Copy, Debug, PartialEq, Eq)]
pub enum CellFault {
    /// It is no name, or one of its names is none.
    NotName,
    /// It names no speed.
    NotSpeed,
    /// It names no format.
    NotFormat,
    /// It says neither yes nor no.
    NotPolice,
    /// It is no octal number from 1 to 377 of at most three digits.
    NotLabel,
    /// It is no hexadecimal number of at most three digits.
    NotEquipment,
    /// It was an equipment code, of which a spreadsheet made a decimal number.
    MadeNumber,
    /// It is no SDI.
    NotSdi,
    /// It is no length of a queue.
    NotQueue,
    /// It is no number of steps.
    NotSteps,
    /// It is empty, and the row says how many steps are made in the time that it is to say.
    NoWithin,
    /// It is no number.
    NotNumber,
    /// What stands behind its mark may be thousands or a fraction.
    MayBeThousands,
    /// It has a part of a microsecond.
    PartOfMicrosecond,
    /// It is a time that is too short or too long.
    OutOfRange,
}
