//! The numbers of one line.
ghost use Rattle.std.specs.Prelude.{◌≡◌, ◌≤◌};
ghost use Rattle.dc_event.specs.TraceText.{fields_of};
ghost use Rattle.dc_seen.specs.Kinds.{kind_of};
ghost use Rattle.dc_seen.specs.Rows.{as_input, as_label, as_output, input_numbers, label_numbers, label_rest, maybe_beside, named, number_beside, output_numbers};

use crate::bounds::{InputBounds, LabelBounds};
use crate::fault::SeenRule;
use crate::fields::{field, is_word};
use crate::kind::{Kind, kind_of};
use crate::number::{is_decimal, read_maybe, read_number};
use dc_observe::LabelNumbers;

/// What was observed of an input.
#[derive(Clone, Copy, Debug, PartialEq, Eq)]
pub struct InputNumbers {
    /// The most words that waited in its queue at a time.
    pub backlog: u64,
    /// The longest time from a word's coming to its visit, in ticks.
    pub wait: u64,
}

/// What was observed of an output.
#[derive(Clone, Copy, Debug, PartialEq, Eq)]
pub struct OutputNumbers {
    /// The longest time from the tick in which an entry was due to its sending, in ticks.
    pub late: u64,
}

/// The number of a field, where the bound stands two fields behind it.
fn number_beside(line: &[u8], place: usize, bound: u32) -> Option<u64>
    requires { place ≤ 15 }
    ensures { result ≡ number_beside (fields_of line.now) place bound }
{
    if is_decimal(field(line, place + 2), u64::from(bound)) {
        return read_number(field(line, place));
    }
    None
}

/// The same, where a dash may stand for no number.
fn maybe_beside(line: &[u8], place: usize, bound: u32) -> Option<Option<u64>>
    requires { place ≤ 15 }
    ensures { result ≡ maybe_beside (fields_of line.now) place bound }
{
    if is_decimal(field(line, place + 2), u64::from(bound)) {
        return read_maybe(field(line, place));
    }
    None
}

/// The numbers of an input's fields.
fn input_numbers(line: &[u8], bounds: InputBounds) -> Option<InputNumbers>
    ensures { result ≡ input_numbers bounds.backlog bounds.delay (fields_of line.now) }
{
    let backlog = number_beside(line, 3, bounds.backlog)?;
    let wait = number_beside(line, 7, bounds.delay)?;
    Some(InputNumbers { backlog, wait })
}

/// The number of an output's fields.
fn output_numbers(line: &[u8], delay: u32) -> Option<OutputNumbers>
    ensures { result ≡ output_numbers delay (fields_of line.now) }
{
    let late = number_beside(line, 3, delay)?;
    Some(OutputNumbers { late })
}

/// The numbers of a label's fields behind these two.
fn label_rest(line: &[u8], bounds: LabelBounds, sent: u64, fallback: u64) -> Option<LabelNumbers>
    ensures { result ≡ label_rest sent fallback bounds.age bounds.minimum bounds.maximum (fields_of line.now) }
{
    let age = maybe_beside(line, 7, bounds.age)?;
    let least = maybe_beside(line, 11, bounds.minimum)?;
    let greatest = number_beside(line, 15, bounds.maximum)?;
    Some(LabelNumbers {
        sent,
        fallback,
        age,
        least,
        greatest,
    })
}

/// The numbers of a label's fields.
fn label_numbers(line: &[u8], bounds: LabelBounds) -> Option<LabelNumbers>
    ensures { result ≡ label_numbers bounds.age bounds.minimum bounds.maximum (fields_of line.now) }
{
    let sent = read_number(field(line, 3))?;
    let fallback = read_number(field(line, 5))?;
    label_rest(line, bounds, sent, fallback)
}

/// Numbers of a line, where its name is this one.
fn named<X: Copy>(line: &[u8], name: &[u8], numbers: Option<X>) -> Result<X, SeenRule>
    ensures { result ≡ named name.now (fields_of line.now) numbers }
{
    if !is_word(line, 1, name) {
        return Err(SeenRule::NotNext);
    }
    match numbers {
        Some(numbers) => Ok(numbers),
        None => Err(SeenRule::NumberWrong),
    }
}

/// What a line says of the input of this name.
///
/// # Errors
/// The first rule that it breaks, of E2 to E5.
pub(crate) fn read_input(
    line: &[u8],
    name: &[u8],
    bounds: InputBounds,
) -> Result<InputNumbers, SeenRule>
    ensures { result ≡ as_input (kind_of (fields_of line.now)) (named name.now (fields_of line.now) (input_numbers bounds.backlog bounds.delay (fields_of line.now))) }
{
    match kind_of(line) {
        Ok(Kind::Input) => named(line, name, input_numbers(line, bounds)),
        Ok(Kind::Output) => Err(SeenRule::NotNext),
        Ok(Kind::Label) => Err(SeenRule::NotNext),
        Err(rule) => Err(rule),
    }
}

/// What a line says of the output of this name.
///
/// # Errors
/// The first rule that it breaks, of E2 to E5.
pub(crate) fn read_output(line: &[u8], name: &[u8], delay: u32) -> Result<OutputNumbers, SeenRule>
    ensures { result ≡ as_output (kind_of (fields_of line.now)) (named name.now (fields_of line.now) (output_numbers delay (fields_of line.now))) }
{
    match kind_of(line) {
        Ok(Kind::Input) => Err(SeenRule::NotNext),
        Ok(Kind::Output) => named(line, name, output_numbers(line, delay)),
        Ok(Kind::Label) => Err(SeenRule::NotNext),
        Err(rule) => Err(rule),
    }
}

/// What a line says of the label of this name.
///
/// # Errors
/// The first rule that it breaks, of E2 to E5.
pub(crate) fn read_label(
    line: &[u8],
    name: &[u8],
    bounds: LabelBounds,
) -> Result<LabelNumbers, SeenRule>
    ensures { result ≡ as_label (kind_of (fields_of line.now)) (named name.now (fields_of line.now) (label_numbers bounds.age bounds.minimum bounds.maximum (fields_of line.now))) }
{
    match kind_of(line) {
        Ok(Kind::Input) => Err(SeenRule::NotNext),
        Ok(Kind::Output) => Err(SeenRule::NotNext),
        Ok(Kind::Label) => named(line, name, label_numbers(line, bounds)),
        Err(rule) => Err(rule),
    }
}
