//! How full each receive queue was, by a closed book.
ghost use Rattle.std.specs.Prelude.{◌≡◌, [], ◌∷◌, ◌++◌, ◌+◌, ◌<◌, ◌≤◌, IfOk, length, slice_index};
ghost use Rattle.dc_cert.specs.Bounds.{certificate_rows, input_bound};
ghost use Rattle.dc_device.specs.Lines.{spelled};
ghost use Rattle.dc_document.specs.declared.limits.TheConstants.{NAME_LIMIT};
ghost use Rattle.dc_event.specs.ReplyText.{name_at};
ghost use Rattle.dc_run_bench.specs.Marks.{mark_lines, mark_text};
ghost use Rattle.dc_script.specs.Script.{listed};

use dc_answer::Page;
use dc_cert::Certificate;
use dc_hub::Closed;
use dc_print::{Text, append, append_number};
use dc_tables::Tables;
use std::alloc::AllocError;

/// The name of a bus.
fn bus_name(tables: &Tables, bus: usize) -> &[u8]
    requires { bus < length tables.now.buses }
    ensures text { result.now ≡ name_at tables.now.names.buses bus }
    ensures short { length result.now ≤ NAME_LIMIT }
{
    tables.bus_name(bus).text()
}

/// The backlog that a certificate has for a bus.
fn backlog_of(certificate: &Certificate, bus: usize) -> u32
    requires { bus < length certificate.now.inputs.items }
    ensures { result ≡ (input_bound (certificate_rows certificate.now) bus).backlog }
{
    certificate.inputs[bus].backlog
}

/// The line of a bus's mark.
fn print_mark(line: &mut Text, tables: &Tables, certificate: &Certificate, bus: usize, mark: u64)
    requires there { bus < length tables.now.buses }
    requires sized { length certificate.now.inputs.items ≡ length tables.now.buses }
    ensures { line.new.items ≡ mark_text tables.now (certificate_rows certificate.now) bus mark }
{
    line.clear();
    append(line, b"mark ");
    append(line, bus_name(tables, bus));
    append(line, b" ");
    append_number(line, mark);
    append(line, b" of ");
    append_number(line, u64::from(backlog_of(certificate, bus)));
}

/// Puts the line of a bus's mark at the end, after a line feed.
fn append_mark(
    tables: &Tables,
    certificate: &Certificate,
    bus: usize,
    mark: u64,
    page: &mut Page,
) -> Result<(), AllocError>
    requires there { bus < length tables.now.buses }
    requires sized { length certificate.now.inputs.items ≡ length tables.now.buses }
    ensures { IfOk result (λ _. page.new ≡ page.old ++ 10 ∷ mark_text tables.now (certificate_rows certificate.now) bus mark) }
{
    let mut line = Text::new();
    print_mark(&mut line, tables, certificate, bus, mark);
    page.add(b"\n")?;
    page.add(line.as_slice())
}

/// Puts the lines of these marks at the end, one for each bus, each after a line feed.
fn append_lines(
    tables: &Tables,
    certificate: &Certificate,
    marks: &[u64],
    page: &mut Page,
) -> Result<(), AllocError>
    requires sized { length certificate.now.inputs.items ≡ length tables.now.buses }
    requires enough { length tables.now.buses ≤ length marks.now }
    ensures { IfOk result (λ _. page.new ++ 10 ∷ [] ≡ (page.old ++ 10 ∷ [])
        ++ spelled (listed (λ bus. mark_text tables.now (certificate_rows certificate.now) bus (slice_index marks.now bus)) (length tables.now.buses))) }
{
    for bus in 0..tables.bus_count() {
        append_mark(tables, certificate, bus, marks[bus], page)?;
    }
    Ok(())
}

/// Puts the lines of a closed book's marks at the end, one for each bus, each after a line feed.
pub(crate) fn append_marks(closed: &Closed, page: &mut Page) -> Result<(), AllocError>
    ensures { IfOk result (λ _. page.new ++ 10 ∷ [] ≡ (page.old ++ 10 ∷ []) ++ spelled (mark_lines closed.now)) }
{
    let certified = closed.certified();
    certified.keeps_its_claims();
    let tables = certified.tables();
    tables.valid();
    let marks = closed.marks();
    append_lines(tables, certified.certificate(), marks.as_slice(), page)
}
