//! The lines of a survey.
ghost use Rattle.std.specs.Prelude.{◌≡◌, ◌<◌, ◌++◌, ◌∷◌, [], IfOk, decimal, length};
ghost use Rattle.dc_run_survey.specs.Lines.{bus_counts, bus_line, bus_lines, bus_numbers, fault_behind, feed_behind, figure_text, interval_text, pace_text, parted, stream_intervals, stream_lateness, stream_line, stream_lines, survey_lines, wire_text};
ghost use Rattle.dc_survey.specs.Surveys.{IsSized};

use crate::recorded::Surveyed;
use dc_answer::{Page, print_fault};
use dc_capture::CaptureFault;
use dc_gauge::StreamGauge;
use dc_print::Text;
use dc_survey::{BusGauge, PaceState, Survey, WireState};
use dc_tables::Tables;
use itoa::Buffer;
use std::alloc::AllocError;

/// Puts a number at the end, behind a word.
fn add_figure(page: &mut Page, word: &[u8], number: u128) -> Result<(), AllocError>
    ensures { IfOk result (λ _. page.new ≡ page.old ++ figure_text word.now number) }
{
    let mut buffer = Buffer::new();
    page.add(word)?;
    page.add(buffer.format(number).as_bytes())
}

/// Puts a count at the end, behind a word.
fn add_count(page: &mut Page, word: &[u8], count: u64) -> Result<(), AllocError>
    ensures { IfOk result (λ _. page.new ≡ page.old ++ figure_text word.now count) }
{
    add_figure(page, word, u128::from(count))
}

/// Puts an interval at the end, behind a word.
fn add_interval(page: &mut Page, word: &[u8], interval: Option<u64>) -> Result<(), AllocError>
    ensures { IfOk result (λ _. page.new ≡ page.old ++ (word.now ++ interval_text interval)) }
{
    match interval {
        Some(us) => add_count(page, word, us),
        None => {
            page.add(word)?;
            page.add(b"-")
        }
    }
}

/// Puts how a wire was kept at the end.
fn add_wire(page: &mut Page, state: WireState) -> Result<(), AllocError>
    ensures { IfOk result (λ _. page.new ≡ page.old ++ wire_text state) }
{
    match state {
        WireState::Kept => page.add(b"kept"),
        WireState::BrokenAt(line) => add_count(page, b"broken at ", line),
        WireState::Policed => page.add(b"policed"),
    }
}

/// Puts how a stream's timing was kept at the end.
fn add_pace(page: &mut Page, state: PaceState) -> Result<(), AllocError>
    ensures { IfOk result (λ _. page.new ≡ page.old ++ pace_text state) }
{
    match state {
        PaceState::Kept => page.add(b"kept"),
        PaceState::EarlyAt(line) => add_count(page, b"early at ", line),
        PaceState::Silent => page.add(b"silent"),
    }
}

/// Puts the counts of a bus's words at the end.
fn add_counts(page: &mut Page, gauge: BusGauge) -> Result<(), AllocError>
    ensures { IfOk result (λ _. page.new ≡ page.old ++ bus_counts gauge) }
{
    add_count(page, b" words ", gauge.wire.words)?;
    add_count(page, b" parity ", gauge.parity)?;
    add_count(page, b" undeclared ", gauge.undeclared)
}

/// Puts them, the least interval and the state of the wire at the end.
fn add_bus_numbers(page: &mut Page, gauge: BusGauge, state: WireState) -> Result<(), AllocError>
    ensures { IfOk result (λ _. page.new ≡ page.old ++ bus_numbers gauge state) }
{
    add_counts(page, gauge)?;
    add_interval(page, b" spacing ", gauge.wire.least)?;
    page.add(b" ")?;
    add_wire(page, state)
}

/// Puts the line of a bus at the end.
fn add_bus(tables: &Tables, survey: &Survey, bus: usize, page: &mut Page) -> Result<(), AllocError>
    requires sized { IsSized tables.now survey.now }
    requires there { bus < length tables.now.buses }
    ensures { IfOk result (λ _. page.new ≡ page.old ++ bus_line tables.now survey.now bus) }
{
    let gauge = survey.bus(bus);
    let state = survey.wire(tables, bus);
    page.add(b"bus ")?;
    page.add(tables.bus_name(bus).text())?;
    add_bus_numbers(page, gauge, state)
}

/// Puts how many words of a stream came, and their least and greatest interval, at the end.
fn add_intervals(page: &mut Page, gauge: StreamGauge) -> Result<(), AllocError>
    ensures { IfOk result (λ _. page.new ≡ page.old ++ stream_intervals gauge) }
{
    add_count(page, b" words ", gauge.words)?;
    add_interval(page, b" least ", gauge.least)?;
    add_interval(page, b" greatest ", gauge.greatest)
}

/// Puts their least jitter, how many intervals are over the declared one, and the state of the stream at the end.
fn add_lateness(page: &mut Page, gauge: StreamGauge, state: PaceState) -> Result<(), AllocError>
    ensures { IfOk result (λ _. page.new ≡ page.old ++ stream_lateness gauge state) }
{
    add_figure(page, b" jitter ", gauge.jitter)?;
    add_count(page, b" over ", gauge.over)?;
    page.add(b" ")?;
    add_pace(page, state)
}

/// Puts the line of a stream at the end.
fn add_stream(
    tables: &Tables,
    survey: &Survey,
    stream: usize,
    page: &mut Page,
) -> Result<(), AllocError>
    requires sized { IsSized tables.now survey.now }
    requires there { stream < length tables.now.streams }
    ensures { IfOk result (λ _. page.new ≡ page.old ++ stream_line tables.now survey.now stream) }
{
    let gauge = survey.stream(stream);
    let state = survey.pace(stream);
    page.add(b"stream ")?;
    page.add(tables.stream_name(stream).text())?;
    add_intervals(page, gauge)?;
    add_lateness(page, gauge, state)
}

/// Puts a line feed at the end, where this many lines stand before it and that is not none.
fn add_feed(page: &mut Page, lines: usize) -> Result<(), AllocError>
    ensures { IfOk result (λ _. page.new ≡ page.old ++ feed_behind lines) }
{
    match lines {
        0 => Ok(()),
        _ => page.add(b"\n"),
    }
}

/// Puts the lines of the buses onto an empty page.
fn add_buses(tables: &Tables, survey: &Survey, page: &mut Page) -> Result<(), AllocError>
    requires sized { IsSized tables.now survey.now }
    requires empty { page.old ≡ [] }
    ensures { IfOk result (λ _. page.new ≡ parted (bus_lines tables.now survey.now)) }
{
    for bus in 0..tables.bus_count() {
        add_feed(page, bus)?;
        add_bus(tables, survey, bus, page)?;
    }
    Ok(())
}

/// Puts the lines of the streams behind those of the buses.
fn add_streams(tables: &Tables, survey: &Survey, page: &mut Page) -> Result<(), AllocError>
    requires sized { IsSized tables.now survey.now }
    requires buses { page.old ≡ parted (bus_lines tables.now survey.now) }
    ensures { IfOk result (λ _. page.new ≡ parted (bus_lines tables.now survey.now ++ stream_lines tables.now survey.now)) }
{
    tables.valid();
    for stream in 0..tables.stream_count() {
        page.add(b"\n")?;
        add_stream(tables, survey, stream, page)?;
    }
    Ok(())
}

/// Puts the line of a fault behind the lines of the tables, where there is one.
fn add_fault(
    tables: &Tables,
    fault: Option<CaptureFault>,
    page: &mut Page,
) -> Result<(), AllocError>
    ensures { IfOk result (λ _. page.new ≡ page.old ++ fault_behind (length tables.now.buses) fault) }
{
    let Some(fault) = fault else {
        return Ok(());
    };
    let mut text = Text::new();
    print_fault(&mut text, fault.rule.code().as_bytes(), fault.line);
    add_feed(page, tables.bus_count())?;
    page.add(text.as_slice())
}

/// Makes a page the lines of a survey alone.
///
/// # Errors
/// `AllocError` where memory was refused.
pub(crate) fn tell_survey(
    tables: &Tables,
    surveyed: &Surveyed,
    page: &mut Page,
) -> Result<(), AllocError>
    requires { IsSized tables.now surveyed.now.survey }
    ensures { IfOk result (λ _. page.new ≡ parted (survey_lines tables.now surveyed.now.survey surveyed.now.fault)) }
{
    tables.valid();
    page.tell(Text::new());
    add_buses(tables, &surveyed.survey, page)?;
    add_streams(tables, &surveyed.survey, page)?;
    add_fault(tables, surveyed.fault, page)
}
