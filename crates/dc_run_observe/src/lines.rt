//! The lines of how near a run came to its bounds.
ghost use Rattle.std.specs.Prelude.{◌≡◌, ◌+◌, ◌<◌, ◌++◌, ◌∷◌, [], List, IfOk, Some, length, slice_index};
ghost use Rattle.dc_cert.specs.Bounds.{certificate_rows};
ghost use Rattle.dc_event.specs.declared.event.Event.{Event};
ghost use Rattle.dc_observe.specs.Near.{IsNearness, IsSized};
ghost use Rattle.dc_run_observe.specs.Lines.{beside_text, bounds_text, count_text, input_line, input_lines, input_text, label_line, label_text, maybe_text, observed_lines, output_line, output_lines, output_text, sent_text};
ghost use Rattle.dc_run_survey.specs.Lines.{feed_behind, parted};
ghost use Rattle.dc_tables.specs.TableRows.{label_row};

use crate::bounds::{age_of, backlog_of, late_of, wait_of};
use dc_answer::Page;
use dc_cert::Certificate;
use dc_observe::{LabelNumbers, Nearness};
use dc_tables::Tables;
use itoa::Buffer;
use std::alloc::AllocError;

/// Puts a number at the end, behind a word.
fn add_count(page: &mut Page, word: &[u8], number: u64) -> Result<(), AllocError>
    ensures { IfOk result (λ _. page.new ≡ page.old ++ count_text word.now number) }
{
    let mut buffer = Buffer::new();
    page.add(word)?;
    page.add(buffer.format(number).as_bytes())
}

/// Puts a number at the end, or a dash.
fn add_maybe(page: &mut Page, number: Option<u64>) -> Result<(), AllocError>
    ensures { IfOk result (λ _. page.new ≡ page.old ++ maybe_text number) }
{
    match number {
        Some(number) => add_count(page, b"", number),
        None => page.add(b"-"),
    }
}

/// Puts what was observed at the end, behind a word and beside its bound.
fn add_beside(
    page: &mut Page,
    word: &[u8],
    number: Option<u64>,
    bound: u32,
) -> Result<(), AllocError>
    ensures { IfOk result (λ _. page.new ≡ page.old ++ beside_text word.now number bound) }
{
    page.add(word)?;
    add_maybe(page, number)?;
    add_count(page, b" of ", u64::from(bound))
}

/// What is observed of an input, beside its bounds.
#[derive(Clone, Copy, Debug)]
struct InputNumbers {
    backlog: u64,
    most: u32,
    wait: u64,
    delay: u32,
}

/// Puts the line of an input of this name at the end.
fn add_input_text(page: &mut Page, name: &[u8], numbers: InputNumbers) -> Result<(), AllocError>
    ensures { IfOk result (λ _. page.new ≡ page.old ++ input_text name.now numbers.backlog numbers.most numbers.wait numbers.delay) }
{
    page.add(b"input ")?;
    page.add(name)?;
    add_beside(page, b" backlog ", Some(numbers.backlog), numbers.most)?;
    add_beside(page, b" wait ", Some(numbers.wait), numbers.delay)
}

/// Puts the line of an output of this name at the end.
fn add_output_text(page: &mut Page, name: &[u8], late: u64, delay: u32) -> Result<(), AllocError>
    ensures { IfOk result (λ _. page.new ≡ page.old ++ output_text name.now late delay) }
{
    page.add(b"output ")?;
    page.add(name)?;
    add_beside(page, b" late ", Some(late), delay)
}

/// Puts how often a label was sent at the end.
fn add_sent(page: &mut Page, numbers: LabelNumbers) -> Result<(), AllocError>
    ensures { IfOk result (λ _. page.new ≡ page.old ++ sent_text numbers) }
{
    add_count(page, b" sent ", numbers.sent)?;
    add_count(page, b" fallback ", numbers.fallback)
}

/// What bounds a label.
#[derive(Clone, Copy, Debug)]
struct LabelBounds {
    age: u32,
    minimum: u32,
    maximum: u32,
}

/// Puts what is observed of a label at the end, beside its bounds.
fn add_bounds(page: &mut Page, numbers: LabelNumbers, bounds: LabelBounds) -> Result<(), AllocError>
    ensures { IfOk result (λ _. page.new ≡ page.old ++ bounds_text numbers bounds.age bounds.minimum bounds.maximum) }
{
    add_beside(page, b" age ", numbers.age, bounds.age)?;
    add_beside(page, b" least ", numbers.least, bounds.minimum)?;
    add_beside(page, b" greatest ", Some(numbers.greatest), bounds.maximum)
}

/// Puts the line of a label of this name at the end.
fn add_label_text(
    page: &mut Page,
    name: &[u8],
    numbers: LabelNumbers,
    bounds: LabelBounds,
) -> Result<(), AllocError>
    ensures { IfOk result (λ _. page.new ≡ page.old ++ label_text name.now numbers bounds.age bounds.minimum bounds.maximum) }
{
    page.add(b"label ")?;
    page.add(name)?;
    add_sent(page, numbers)?;
    add_bounds(page, numbers, bounds)
}

/// Puts the line of an input at the end.
fn add_input(
    tables: &Tables,
    certificate: &Certificate,
    near: &Nearness,
    bus: usize,
    page: &mut Page,
) -> Result<(), AllocError>
    requires sized { IsSized tables.now near.now }
    requires there { bus < length tables.now.buses }
    ensures { (run : List Event) → IsNearness tables.now near.now run
        → IfOk result (λ _. page.new ≡ page.old ++ input_line tables.now (certificate_rows certificate.now) run bus) }
{
    let numbers = InputNumbers {
        backlog: near.backlog(tables, bus),
        most: backlog_of(certificate, bus),
        wait: near.wait(tables, bus),
        delay: wait_of(certificate, bus),
    };
    add_input_text(page, tables.bus_name(bus).text(), numbers)
}

/// Puts the line of an output at the end.
fn add_output(
    tables: &Tables,
    certificate: &Certificate,
    near: &Nearness,
    output: usize,
    page: &mut Page,
) -> Result<(), AllocError>
    requires sized { IsSized tables.now near.now }
    requires there { output < length tables.now.outputs }
    ensures { (run : List Event) → IsNearness tables.now near.now run
        → IfOk result (λ _. page.new ≡ page.old ++ output_line tables.now (certificate_rows certificate.now) run output) }
{
    let late = near.late(tables, output);
    let delay = late_of(certificate, output);
    add_output_text(page, tables.output_name(output).text(), late, delay)
}

/// Puts the line of a label at the end.
fn add_label(
    tables: &Tables,
    certificate: &Certificate,
    near: &Nearness,
    label: usize,
    page: &mut Page,
) -> Result<(), AllocError>
    requires sized { IsSized tables.now near.now }
    requires there { label < length tables.now.labels }
    ensures { (run : List Event) → IsNearness tables.now near.now run
        → IfOk result (λ _. page.new ≡ page.old ++ label_line tables.now (certificate_rows certificate.now) run label) }
{
    let numbers = near.label(tables, label);
    let row = tables.label(label);
    let bounds = LabelBounds {
        age: age_of(certificate, label),
        minimum: row.minimum,
        maximum: row.maximum,
    };
    add_label_text(page, tables.label_name(label).text(), numbers, bounds)
}

/// Puts a line feed at the end, where this many lines stand before it and that is not none.
fn add_feed(page: &mut Page, lines: usize) -> Result<(), AllocError>
    ensures { IfOk result (λ _. page.new ≡ page.old ++ feed_behind lines) }
{
    match lines {
        0 => Ok(()),
        _ => page.add(b"\n"),
    }
}

/// Puts the lines of the inputs onto an empty page.
fn add_inputs(
    tables: &Tables,
    certificate: &Certificate,
    near: &Nearness,
    page: &mut Page,
) -> Result<(), AllocError>
    requires sized { IsSized tables.now near.now }
    requires empty { page.old ≡ [] }
    ensures { (run : List Event) → IsNearness tables.now near.now run
        → IfOk result (λ _. page.new ≡ parted (input_lines tables.now (certificate_rows certificate.now) run)) }
{
    for bus in 0..tables.bus_count() {
        add_feed(page, bus)?;
        add_input(tables, certificate, near, bus, page)?;
    }
    Ok(())
}

/// Puts the lines of the outputs behind those of the inputs.
fn add_outputs(
    tables: &Tables,
    certificate: &Certificate,
    near: &Nearness,
    page: &mut Page,
) -> Result<(), AllocError>
    requires sized { IsSized tables.now near.now }
    requires inputs { (run : List Event) → IsNearness tables.now near.now run
        → page.old ≡ parted (input_lines tables.now (certificate_rows certificate.now) run) }
    ensures { (run : List Event) → IsNearness tables.now near.now run
        → IfOk result (λ _. page.new ≡ parted (input_lines tables.now (certificate_rows certificate.now) run
        ++ output_lines tables.now (certificate_rows certificate.now) run)) }
{
    tables.valid();
    let before = tables.bus_count();
    for output in 0..tables.output_count() {
        add_feed(page, before + output)?;
        add_output(tables, certificate, near, output, page)?;
    }
    Ok(())
}

/// How many lines stand before those of the labels.
fn before_labels(tables: &Tables) -> usize
    ensures { result ≡ length tables.now.buses + length tables.now.outputs }
{
    tables.valid();
    tables.bus_count() + tables.output_count()
}

/// Puts the lines of the labels behind those of the inputs and of the outputs.
fn add_labels(
    tables: &Tables,
    certificate: &Certificate,
    near: &Nearness,
    page: &mut Page,
) -> Result<(), AllocError>
    requires sized { IsSized tables.now near.now }
    requires others { (run : List Event) → IsNearness tables.now near.now run
        → page.old ≡ parted (input_lines tables.now (certificate_rows certificate.now) run ++ output_lines tables.now (certificate_rows certificate.now) run) }
    ensures { (run : List Event) → IsNearness tables.now near.now run
        → IfOk result (λ _. page.new ≡ parted (observed_lines tables.now (certificate_rows certificate.now) run)) }
{
    tables.valid();
    let before = before_labels(tables);
    for label in 0..tables.label_count() {
        add_feed(page, before + label)?;
        add_label(tables, certificate, near, label, page)?;
    }
    Ok(())
}

/// Puts all lines onto an empty page.
///
/// # Errors
/// `AllocError` where memory was refused.
pub fn tell_nearness(
    tables: &Tables,
    certificate: &Certificate,
    near: &Nearness,
    page: &mut Page,
) -> Result<(), AllocError>
    requires sized { IsSized tables.now near.now }
    ensures { (run : List Event) → IsNearness tables.now near.now run
        → IfOk result (λ _. page.new ≡ parted (observed_lines tables.now (certificate_rows certificate.now) run)) }
{
    page.keep(b"")?;
    add_inputs(tables, certificate, near, page)?;
    add_outputs(tables, certificate, near, page)?;
    add_labels(tables, certificate, near, page)
}
