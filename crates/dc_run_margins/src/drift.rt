//! What clocks that drift ask of sources, and what labels keep by them.

ghost use Rattle.std.specs.Prelude.{◌≡◌, ◌<◌, ◌++◌, ◌∷◌, [], None, IfOk, IfSome, decimal, option_map, slice_index};
ghost use Rattle.dc_cert.specs.Bounds.{certificate_rows};
ghost use Rattle.dc_check.specs.Verdict.{IsSized};
ghost use Rattle.dc_run_margins.specs.Drift.{drift_line, drift_lines, drift_text, figure_text, lines_of_drift, oldest_text, part_count, part_lines, wire_text};
ghost use Rattle.dc_run_margins.specs.Margins.{fed};
ghost use Rattle.dc_run_margins.specs.Telling.{told_as};
ghost use Rattle.dc_run_margins.specs.declared.telling.LineKey.TheVariants.{Line};

use crate::telling::{Telling, closing, fed_opening};
use dc_answer::Page;
use dc_build::WrittenTables;
use dc_cert::Certificate;
use dc_drift::{
    declared_sent, declared_source, oldest, sent_intervals, source_intervals, wire_spacing,
};
use dc_tables::Tables;
use itoa::Buffer;
use std::alloc::AllocError;

/// Of what clocks that drift ask or keep something.
#[derive(Clone, Copy, Debug, PartialEq, Eq)]
pub enum DriftPart {
    /// The wires of the buses that are not policed.
    Wires,
    /// The streams of the sources.
    Sources,
    /// The labels that are sent.
    Sent,
}

/// What the lines of a drift are told of, and how: tables beside their document, the drift in millionths, and the
/// certificate where it is accepted.
#[derive(Clone, Copy)]
pub(crate) struct Drifting<'a> {
    /// Whether each line is told as an object.
    pub json: bool,
    /// The tables.
    pub written: &'a WrittenTables,
    /// The drift.
    pub drift: u16,
    /// The certificate, where it is accepted.
    pub accepted: Option<&'a Certificate>,
}

/// Puts a number at the end.
fn add_number(page: &mut Page, number: u64) -> Result<(), AllocError>
    ensures { IfOk result (λ _. page.new ≡ page.old ++ decimal number) }
{
    let mut buffer = Buffer::new();
    page.add(buffer.format(number).as_bytes())
}

/// Puts a number of microseconds and what is declared at the end, behind a word.
fn add_figure(page: &mut Page, word: &[u8], figure: u64, declared: u64) -> Result<(), AllocError>
    ensures { IfOk result (λ _. page.new ≡ page.old ++ figure_text word.now figure declared) }
{
    page.add(word)?;
    add_number(page, figure)?;
    page.add(b" of ")?;
    add_number(page, declared)
}

/// Puts what is said of the wire of this bus at the end.
fn add_wire(shown: &Drifting<'_>, bus: usize, page: &mut Page) -> Result<(), AllocError>
    requires { bus < part_count shown.now.written.now.tables DriftPart.Wires }
    ensures { IfOk result (λ _. page.new ≡ page.old ++ wire_text shown.now.written.now.tables shown.now.drift bus) }
{
    let tables = shown.written.tables();
    page.add(b"wire ")?;
    page.add(tables.bus_name(bus).text())?;
    let least = wire_spacing(tables, bus, shown.drift);
    add_figure(page, b" least ", least, u64::from(tables.bus(bus).spacing))
}

/// Puts what is said of the stream of this number at the end.
fn add_source(shown: &Drifting<'_>, stream: usize, page: &mut Page) -> Result<(), AllocError>
    requires { stream < part_count shown.now.written.now.tables DriftPart.Sources }
    ensures { IfOk result (λ _. page.new ≡ page.old ++ drift_text shown.now.written.now shown.now.drift None DriftPart.Sources stream) }
{
    let tables = shown.written.tables();
    let kept = source_intervals(tables, stream, shown.drift);
    let declared = declared_source(shown.written, stream);
    page.add(b"source ")?;
    page.add(tables.stream_name(stream).text())?;
    add_figure(page, b" least ", kept.least, declared.least)?;
    add_figure(page, b" most ", kept.most, declared.most)?;
    add_figure(page, b" jitter ", kept.jitter, declared.jitter)
}

/// The age of a label, in ticks.
fn age_of(tables: &Tables, certificate: &Certificate, label: usize) -> u32
    requires there { label < part_count tables.now DriftPart.Sent }
    requires sized { IsSized tables.now (certificate_rows certificate.now) }
    ensures { result ≡ slice_index (certificate_rows certificate.now).ages label }
{
    let _ = tables;
    certificate.labels[label].age
}

/// Puts how old a word of this label may be at the end.
fn add_oldest(shown: &Drifting<'_>, label: usize, page: &mut Page) -> Result<(), AllocError>
    requires there { label < part_count shown.now.written.now.tables DriftPart.Sent }
    requires sized { IfSome shown.now.accepted (λ c. IsSized shown.now.written.now.tables (certificate_rows c.now)) }
    ensures { IfOk result (λ _. page.new ≡ page.old
        ++ oldest_text shown.now.written.now.tables shown.now.drift (option_map (λ c. (certificate_rows c.now).ages) shown.now.accepted) label) }
{
    match shown.accepted {
        None => page.add(b"-"),
        Some(certificate) => {
            let tables = shown.written.tables();
            let age = age_of(tables, certificate, label);
            add_number(page, oldest(tables, age, shown.drift))
        }
    }
}

/// Puts what is said of the label of this number at the end.
fn add_sent(shown: &Drifting<'_>, label: usize, page: &mut Page) -> Result<(), AllocError>
    requires there { label < part_count shown.now.written.now.tables DriftPart.Sent }
    requires sized { IfSome shown.now.accepted (λ c. IsSized shown.now.written.now.tables (certificate_rows c.now)) }
    ensures { IfOk result (λ _. page.new ≡ page.old ++ drift_text shown.now.written.now shown.now.drift
        (option_map (λ c. (certificate_rows c.now).ages) shown.now.accepted) DriftPart.Sent label) }
{
    let tables = shown.written.tables();
    let kept = sent_intervals(tables, label, shown.drift);
    let declared = declared_sent(shown.written, label);
    page.add(b"sent ")?;
    page.add(tables.label_name(label).text())?;
    add_figure(page, b" least ", kept.least, declared.least)?;
    add_figure(page, b" most ", kept.most, declared.most)?;
    page.add(b" age ")?;
    add_oldest(shown, label, page)
}

/// Puts what is said of the bus, stream or label of this number at the end.
fn add_text(
    shown: &Drifting<'_>,
    part: DriftPart,
    place: usize,
    page: &mut Page,
) -> Result<(), AllocError>
    requires there { place < part_count shown.now.written.now.tables part }
    requires sized { IfSome shown.now.accepted (λ c. IsSized shown.now.written.now.tables (certificate_rows c.now)) }
    ensures { IfOk result (λ _. page.new ≡ page.old ++ drift_text shown.now.written.now shown.now.drift
        (option_map (λ c. (certificate_rows c.now).ages) shown.now.accepted) part place) }
{
    match part {
        DriftPart::Wires => add_wire(shown, place, page),
        DriftPart::Sources => add_source(shown, place, page),
        DriftPart::Sent => add_sent(shown, place, page),
    }
}

/// Puts this as it is told at the end, after a line feed.
fn add_told(
    shown: &Drifting<'_>,
    part: DriftPart,
    place: usize,
    page: &mut Page,
) -> Result<(), AllocError>
    requires there { place < part_count shown.now.written.now.tables part }
    requires sized { IfSome shown.now.accepted (λ c. IsSized shown.now.written.now.tables (certificate_rows c.now)) }
    ensures { IfOk result (λ _. page.new ≡ page.old ++ 10 ∷ told_as shown.now.json Line (drift_text shown.now.written.now shown.now.drift
        (option_map (λ c. (certificate_rows c.now).ages) shown.now.accepted) part place)) }
{
    page.add(fed_opening(shown.json))?;
    add_text(shown, part, place, page)?;
    page.add(closing(shown.json))
}

/// Puts the line of the bus, stream or label of this number at the end, after a line feed; none of a bus that is
/// policed.
fn add_line(
    shown: &Drifting<'_>,
    part: DriftPart,
    place: usize,
    page: &mut Page,
) -> Result<(), AllocError>
    requires there { place < part_count shown.now.written.now.tables part }
    requires sized { IfSome shown.now.accepted (λ c. IsSized shown.now.written.now.tables (certificate_rows c.now)) }
    ensures { IfOk result (λ _. page.new ≡ page.old ++ fed (drift_line shown.now.json shown.now.written.now shown.now.drift
        (option_map (λ c. (certificate_rows c.now).ages) shown.now.accepted) part place)) }
{
    match part {
        DriftPart::Wires => {
            if shown.written.tables().bus(place).police {
                return Ok(());
            }
            add_told(shown, DriftPart::Wires, place, page)
        }
        DriftPart::Sources => add_told(shown, DriftPart::Sources, place, page),
        DriftPart::Sent => add_told(shown, DriftPart::Sent, place, page),
    }
}

/// How many buses, streams or labels there are.
fn count(shown: &Drifting<'_>, part: DriftPart) -> usize
    ensures { result ≡ part_count shown.now.written.now.tables part }
{
    let tables = shown.written.tables();
    match part {
        DriftPart::Wires => tables.bus_count(),
        DriftPart::Sources => tables.stream_count(),
        DriftPart::Sent => tables.label_count(),
    }
}

/// Puts the lines of a part at the end, each after a line feed.
fn add_part(shown: &Drifting<'_>, part: DriftPart, page: &mut Page) -> Result<(), AllocError>
    requires { IfSome shown.now.accepted (λ c. IsSized shown.now.written.now.tables (certificate_rows c.now)) }
    ensures { IfOk result (λ _. page.new ≡ page.old ++ fed (part_lines shown.now.json shown.now.written.now shown.now.drift
        (option_map (λ c. (certificate_rows c.now).ages) shown.now.accepted) part)) }
{
    for place in 0..count(shown, part) {
        add_line(shown, part, place, page)?;
    }
    Ok(())
}

/// Puts the lines of a drift at the end, each after a line feed: those of the wires, of the sources and of the labels.
fn add_parts(shown: &Drifting<'_>, page: &mut Page) -> Result<(), AllocError>
    requires { IfSome shown.now.accepted (λ c. IsSized shown.now.written.now.tables (certificate_rows c.now)) }
    ensures { IfOk result (λ _. page.new ≡ page.old ++ fed (drift_lines shown.now.json shown.now.written.now shown.now.drift
        (option_map (λ c. (certificate_rows c.now).ages) shown.now.accepted))) }
{
    add_part(shown, DriftPart::Wires, page)?;
    add_part(shown, DriftPart::Sources, page)?;
    add_part(shown, DriftPart::Sent, page)?;
    Ok(())
}

/// Puts the lines of a drift at the end, each after a line feed, where one is asked for.
pub(crate) fn add_drift(
    written: &WrittenTables,
    told: Telling,
    accepted: Option<&Certificate>,
    page: &mut Page,
) -> Result<(), AllocError>
    requires { IfSome accepted (λ c. IsSized written.now.tables (certificate_rows c.now)) }
    ensures { IfOk result (λ _. page.new ≡ page.old ++ fed (lines_of_drift told.json written.now told.drift
        (option_map (λ c. (certificate_rows c.now).ages) accepted.entry))) }
{
    let Some(drift) = told.drift else {
        return Ok(());
    };
    let shown = Drifting {
        json: told.json,
        written,
        drift,
        accepted,
    };
    add_parts(&shown, page)
}
