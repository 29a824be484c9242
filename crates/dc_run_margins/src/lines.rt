//! The printed line of a margin.

ghost use Rattle.std.specs.Prelude.{◌≡◌, ◌++◌, ◌+◌, ◌<◌, ◌≤◌, IfSome, codes, drop, length};
ghost use Rattle.arrayvec.specs.ArrayVec.{array_vec_len};
ghost use Rattle.dc_run_margins.specs.Lines.{by_text, decider_text, margin_text, measure_text, microseconds_of, name_field, number_field, member_field, slack_text};
ghost use Rattle.dc_check.specs.Placed.{member_count};
ghost use Rattle.dc_margin.specs.Lines.{IsDeciderThere, IsLinePlaced, measure_of};
ghost use Rattle.dc_print.specs.Verdicts.{member_name};
ghost use Rattle.dc_document.specs.declared.limits.TheConstants.{NAME_LIMIT};
ghost use Rattle.dc_print.specs.declared.text.TheConstants.{TEXT_CAPACITY};

use dc_check::CertificateList;
use dc_margin::{Decider, Margin, MarginLine, Measure};
use dc_print::{Text, append, append_number};
use dc_tables::Tables;
use itoa::Buffer;

/// What is left of some blanks after so many.
fn rest(blanks: &'static [u8], used: usize) -> &'static [u8]
    ensures blanks { result.now ≡ drop used blanks.now }
    ensures short { length result.now ≤ length blanks.now }
{
    if used < blanks.len() {
        &blanks[used..]
    } else {
        b""
    }
}

/// What a member of a list is called, with its blanks.
fn member(list: CertificateList) -> &'static [u8]
    ensures text { result.now ≡ member_field list }
    ensures short { length result.now ≤ 7 }
{
    match list {
        CertificateList::Inputs => b"input  ",
        CertificateList::Outputs => b"output ",
        CertificateList::Labels => b"label  ",
    }
}

/// The name of a bus, an output or a label.
pub(crate) fn name(tables: &Tables, list: CertificateList, index: usize) -> &[u8]
    requires { index < member_count tables.now list }
    ensures text { result.now ≡ member_name tables.now list index }
    ensures short { length result.now ≤ NAME_LIMIT }
{
    match list {
        CertificateList::Inputs => tables.bus_name(index).text(),
        CertificateList::Outputs => tables.output_name(index).text(),
        CertificateList::Labels => tables.label_name(index).text(),
    }
}

/// Puts a name and its blanks at the end.
fn append_name(text: &mut Text, name: &[u8])
    requires room { array_vec_len text.old ≤ 60 }
    requires short { length name.now ≤ NAME_LIMIT }
    ensures items { text.new.items ≡ text.old.items ++ name_field name.now }
    ensures len { array_vec_len text.new ≤ array_vec_len text.old + 32 }
{
    append(text, name);
    append(text, rest(b"                ", name.len()));
}

/// Puts a number, or what stands for it, at the end, with its blanks before it.
fn append_field(text: &mut Text, number: &[u8])
    requires room { array_vec_len text.old ≤ 60 }
    requires short { length number.now ≤ 20 }
    ensures items { text.new.items ≡ text.old.items ++ number_field number.now }
    ensures len { array_vec_len text.new ≤ array_vec_len text.old + 27 }
{
    append(text, rest(b"       ", number.len()));
    append(text, number);
}

/// Puts the number of a margin at the end.
fn append_slack(text: &mut Text, margin: Option<Margin>)
    requires { array_vec_len text.old ≤ 60 }
    ensures items { text.new.items ≡ text.old.items ++ number_field (slack_text margin) }
    ensures len { array_vec_len text.new ≤ array_vec_len text.old + 27 }
{
    let Some(margin) = margin else {
        append_field(text, b"-");
        return;
    };
    match margin.slack {
        None => append_field(text, b"none"),
        Some(slack) => {
            let mut buffer = Buffer::new();
            append_field(text, buffer.format(slack).as_bytes());
        }
    }
}

/// What a margin counts.
pub(crate) fn measure(measure: Measure) -> &'static [u8]
    ensures text { result.now ≡ measure_text measure }
    ensures short { length result.now ≤ 5 }
{
    match measure {
        Measure::Words => b"words",
        Measure::Ticks => b"ticks",
    }
}

/// Puts what decides a margin at the end.
fn append_decider(text: &mut Text, tables: &Tables, decider: Decider)
    requires room { array_vec_len text.old + 34 ≤ TEXT_CAPACITY }
    requires there { IsDeciderThere tables.now decider }
    ensures { text.new.items ≡ text.old.items ++ decider_text tables.now decider }
{
    match decider {
        Decider::Numbers => append(text, b"-"),
        Decider::Window(ticks) => {
            append(text, b"window=");
            append_number(text, u64::from(ticks));
        }
        Decider::Gap(ticks) => {
            append(text, b"gap=");
            append_number(text, ticks);
        }
        Decider::Source(stream) => {
            append(text, b"source=");
            append(text, tables.stream_name(stream).text());
        }
    }
}

/// Puts what decides a margin at the end, where it is told.
fn append_by(text: &mut Text, tables: &Tables, margin: Option<Margin>)
    requires room { array_vec_len text.old + 34 ≤ TEXT_CAPACITY }
    requires there { IfSome margin (λ m. IsDeciderThere tables.now m.decider) }
    ensures { text.new.items ≡ text.old.items ++ by_text tables.now margin }
{
    match margin {
        None => append(text, b"-"),
        Some(margin) => append_decider(text, tables, margin.decider),
    }
}

/// The line of a margin: list, name, code, number, what it counts and what decides it, parted by spaces.
#[tactic(auto, unfolding(crate::specs::Lines::margin_text))]
pub(crate) fn print_margin(text: &mut Text, tables: &Tables, line: &MarginLine)
    requires { IsLinePlaced tables.now line.now }
    ensures { text.new.items ≡ margin_text tables.now line.now }
{
    text.clear();
    append(text, member(line.list));
    append_name(text, name(tables, line.list, line.index));
    append(text, b" ");
    append(text, line.condition.code().as_bytes());
    append(text, b" ");
    append_slack(text, line.margin);
    append(text, b" ");
    append(text, measure(line.measure()));
    append(text, b" ");
    append_by(text, tables, line.margin);
}

/// The amount of a margin in microseconds; `None` where it counts words, or is not told, or is no number.
pub(crate) fn microseconds_of(tick_us: u32, line: &MarginLine) -> Option<i128>
    ensures { result ≡ microseconds_of tick_us (measure_of line.now.condition) line.now.margin }
{
    if line.measure() == Measure::Words {
        return None;
    }
    let margin = line.margin?;
    let slack = margin.slack?;
    Some(i128::from(slack) * i128::from(tick_us))
}
