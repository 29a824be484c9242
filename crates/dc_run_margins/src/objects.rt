//! The JSON object of a margin.

ghost use Rattle.std.specs.Prelude.{◌≡◌, ◌++◌, ◌+◌, ◌≤◌, IfOk, IfSome, codes, decimal, length};
ghost use Rattle.arrayvec.specs.ArrayVec.{array_vec_len};
ghost use Rattle.dc_margin.specs.Lines.{IsDeciderThere, IsLinePlaced};
ghost use Rattle.dc_run_margins.specs.Objects.{by_value, decider_value, margin_object, object_front, object_us, object_where, part_text, slack_value};
ghost use Rattle.dc_print.specs.declared.text.TheConstants.{TEXT_CAPACITY};

use crate::lines::{measure, microseconds_of, name};
use dc_answer::Page;
use dc_check::CertificateList;
use dc_margin::{Decider, Margin, MarginLine};
use dc_print::{Text, append, append_number};
use dc_tables::Tables;
use itoa::Buffer;
use std::alloc::AllocError;

/// What a member of a list is called.
fn part(list: CertificateList) -> &'static [u8]
    ensures text { result.now ≡ part_text list }
    ensures short { length result.now ≤ 6 }
{
    match list {
        CertificateList::Inputs => b"input",
        CertificateList::Outputs => b"output",
        CertificateList::Labels => b"label",
    }
}

/// Puts the number of a margin at the end.
fn append_amount(text: &mut Text, margin: Option<Margin>)
    requires { array_vec_len text.old ≤ 60 }
    ensures items { text.new.items ≡ text.old.items ++ slack_value margin }
    ensures len { array_vec_len text.new ≤ array_vec_len text.old + 20 }
{
    let Some(margin) = margin else {
        append(text, b"null");
        return;
    };
    match margin.slack {
        None => append(text, b"\"none\""),
        Some(slack) => {
            let mut buffer = Buffer::new();
            append(text, buffer.format(slack).as_bytes());
        }
    }
}

/// Puts a number of ticks at the end, between a word with its quote and another quote.
fn append_ticks(text: &mut Text, word: &[u8], ticks: u64)
    requires { array_vec_len text.old + length word.now + 21 ≤ TEXT_CAPACITY }
    ensures { text.new.items ≡ text.old.items ++ word.now ++ decimal ticks ++ codes "\"" }
{
    append(text, word);
    append_number(text, ticks);
    append(text, b"\"");
}

/// Puts what decides a margin at the end.
fn append_decider(text: &mut Text, tables: &Tables, decider: Decider)
    requires room { array_vec_len text.old ≤ 60 }
    requires there { IsDeciderThere tables.now decider }
    ensures { text.new.items ≡ text.old.items ++ decider_value tables.now decider }
{
    match decider {
        Decider::Numbers => append(text, b"null"),
        Decider::Window(ticks) => append_ticks(text, b"\"window=", u64::from(ticks)),
        Decider::Gap(ticks) => append_ticks(text, b"\"gap=", ticks),
        Decider::Source(stream) => {
            append(text, b"\"source=");
            append(text, tables.stream_name(stream).text());
            append(text, b"\"");
        }
    }
}

/// Puts what decides a margin at the end, where it is told.
fn append_by(text: &mut Text, tables: &Tables, margin: Option<Margin>)
    requires room { array_vec_len text.old ≤ 60 }
    requires there { IfSome margin (λ m. IsDeciderThere tables.now m.decider) }
    ensures { text.new.items ≡ text.old.items ++ by_value tables.now margin }
{
    match margin {
        None => append(text, b"null"),
        Some(margin) => append_decider(text, tables, margin.decider),
    }
}

/// The object of a margin up to its unit.
#[tactic(auto, unfolding(crate::specs::Objects::object_front))]
fn print_front(text: &mut Text, tables: &Tables, line: &MarginLine)
    requires { IsLinePlaced tables.now line.now }
    ensures { text.new.items ≡ object_front tables.now line.now }
{
    text.clear();
    append(text, b"{\"amount\":");
    append_amount(text, line.margin);
    append(text, b",\"code\":\"");
    append(text, line.condition.code().as_bytes());
    append(text, b"\",\"name\":\"");
    append(text, name(tables, line.list, line.index));
    append(text, b"\",\"part\":\"");
    append(text, part(line.list));
    append(text, b"\",\"unit\":\"");
    append(text, measure(line.measure()));
    append(text, b"\"");
}

/// What decides a margin, under its key.
fn print_where(text: &mut Text, tables: &Tables, line: &MarginLine)
    requires { IsLinePlaced tables.now line.now }
    ensures { text.new.items ≡ object_where tables.now line.now }
{
    text.clear();
    append(text, b",\"where\":");
    append_by(text, tables, line.margin);
}

/// Puts the amount of a margin in microseconds at the end, where these are told.
fn add_us(
    tables: &Tables,
    microseconds: bool,
    line: &MarginLine,
    page: &mut Page,
) -> Result<(), AllocError>
    ensures { IfOk result (λ _. page.new ≡ page.old ++ object_us microseconds tables.now line.now) }
{
    if !microseconds {
        return Ok(());
    }
    page.add(b",\"us\":")?;
    match microseconds_of(tables.tick_us(), line) {
        None => page.add(b"null"),
        Some(us) => {
            let mut buffer = Buffer::new();
            page.add(buffer.format(us).as_bytes())
        }
    }
}

/// Puts the object of a margin at the end.
pub(crate) fn add_object(
    tables: &Tables,
    microseconds: bool,
    line: &MarginLine,
    page: &mut Page,
) -> Result<(), AllocError>
    requires { IsLinePlaced tables.now line.now }
    ensures { IfOk result (λ _. page.new ≡ page.old ++ margin_object microseconds tables.now line.now) }
{
    let mut printed = Text::new();
    print_front(&mut printed, tables, line);
    page.add(printed.as_slice())?;
    add_us(tables, microseconds, line, page)?;
    print_where(&mut printed, tables, line);
    page.add(printed.as_slice())?;
    page.add(b"}")
}
