//! Ticks are tried in turn, and the first with which all judges let the text of tables pass is taken.
ghost use Rattle.std.specs.Prelude.{◌≡◌, ◌++◌, ◌∷◌, [], true, IfOk, IfSome};
ghost use Rattle.std.specs.String.{string_bytes};
ghost use Rattle.dc_cert.specs.NamedRows.{named_rows};
ghost use Rattle.dc_cert.specs.Printing.{claims_text};
ghost use Rattle.dc_run_design.specs.Design.{AreDesigned, Designs, IsCertified};

use crate::judged::{Said, Unfit, Wanted, certify};
use dc_answer::{Outcome, Page};
use dc_cell::{Inputs, Outputs};
use dc_cert::{Certificate, cert_text};
use dc_design::{Furthest, Obstacles, Unread, Untabled, Wish, draft, ticks_of};
use dc_design_rows::{Document, Fact, Undocumented, Units};
use dc_print::{Text, print_table_fault};
use std::alloc::{AllocError, Global};
use std::str::from_utf8;

/// What is asked of a design beside its sheets.
#[derive(Clone, Copy, Debug, PartialEq, Eq)]
pub struct Plan {
    /// The length of a tick in microseconds, where it is said.
    pub tick: Option<u16>,
    /// How much is to be left free, in percent, where it is said.
    pub headroom: Option<u8>,
    /// Whether every bus is to refuse early words.
    pub police: bool,
}

impl Plan {
    /// The length of a tick and the headroom, as a draft of tables takes them.
    fn wish(&self) -> Wish {
        let tick_us = match self.tick {
            Some(tick) => Some(u32::from(tick)),
            None => None,
        };
        let headroom = match self.headroom {
            Some(percent) => Some(u32::from(percent)),
            None => None,
        };
        Wish {
            tick_us,
            headroom,
            is_prompt: false,
        }
    }
}

/// What tables are made of.
#[derive(Clone, Copy)]
struct Task<'a> {
    wish: Wish,
    wanted: Wanted<'a>,
    document: &'a Document,
}

/// A text without the line feed that it ends in, where it does.
fn line_of(text: &[u8]) -> Option<&[u8]>
    ensures { IfSome result (λ line. line.now ++ 10 ∷ [] ≡ text.now) }
{
    match text.split_last() {
        Some((last, line)) => { if *last == b'\n' { Some(line) } else { None } }
        None => None,
    }
}

/// Keeps lines, the last of which ends in a line feed.
pub(crate) fn keep_lines(lines: &str, page: &mut Page) -> Result<(), AllocError> {
    let bytes = lines.as_bytes();
    page.keep(line_of(bytes).unwrap_or(bytes))
}

/// Keeps the text of a certificate.
fn keep_certificate(
    alloc: Global,
    claims: &Certificate,
    certificate: &mut Vec<u8>,
) -> Result<(), AllocError>
    ensures { IfOk result (λ _. certificate.new.items ≡ claims_text (named_rows claims.now)) }
{
    let text = cert_text(alloc, claims)?;
    certificate.clear();
    certificate.extend_from_slice(text.as_bytes())
}

/// Keeps the text of tables without its last line feed, where there is one.
pub(crate) fn keep_line(text: &[u8], page: &mut Page) -> Result<(), Unfit>
    ensures { IfOk result (λ _. page.new ++ 10 ∷ [] ≡ text.now) }
{
    let Some(line) = line_of(text) else {
        return Err(Unfit::Told(Said::new("", Fact::Word(""), Fact::Word(""))));
    };
    if page.keep(line).is_err() {
        return Err(Unfit::NoMemory);
    }
    Ok(())
}

/// Keeps the text of tables without its last line feed, where there is one, and that of their certificate.
fn keep_both(
    alloc: Global,
    text: &[u8],
    claims: &Certificate,
    page: &mut Page,
    certificate: &mut Vec<u8>,
) -> Result<(), Unfit>
    ensures line { IfOk result (λ _. page.new ++ 10 ∷ [] ≡ text.now) }
    ensures certificate { IfOk result (λ _. certificate.new.items ≡ claims_text (named_rows claims.now)) }
{
    match keep_line(text, page) {
        Ok(()) => {}
        Err(unfit) => return Err(unfit),
    }
    match keep_certificate(alloc, claims, certificate) {
        Ok(()) => Ok(()),
        Err(_) => Err(Unfit::NoMemory),
    }
}

/// Judges a text of tables, and keeps it and its certificate where it passes.
fn try_text(
    alloc: Global,
    wanted: &Wanted<'_>,
    text: &[u8],
    page: &mut Page,
    certificate: &mut Vec<u8>,
) -> Result<(), Unfit>
    ensures { IfOk result (λ _. AreDesigned wanted.now.inputs.now.rows.items wanted.now.outputs.now.rows.items (page.new ++ 10 ∷ []) certificate.new.items) }
{
    match certify(alloc, wanted, text) {
        Ok(claims) => match keep_both(alloc, text, &claims, page, certificate) {
            Ok(()) => Ok(()),
            Err(unfit) => Err(unfit),
        },
        Err(unfit) => Err(unfit),
    }
}

/// What a judge says of a text with ticks of this length, as one more obstacle; nothing where memory was refused.
pub(crate) fn obstacles_of(alloc: Global, tick_us: u32, unfit: &Unfit) -> Option<Obstacles> {
    match unfit {
        Unfit::Unread(fault) => {
            let mut line = Text::new();
            print_table_fault(&mut line, *fault);
            let words = from_utf8(line.as_slice()).unwrap_or("");
            Some(Obstacles::judged(alloc, tick_us, words, &[]))
        }
        Unfit::Told(said) => {
            let facts = [said.first, said.second, said.third];
            Some(Obstacles::judged(alloc, tick_us, said.sentence, &facts))
        }
        Unfit::NoMemory => None,
    }
}

/// Tries ticks of this length: whether they gave tables that pass, which are kept with their certificate.
fn try_tick(
    alloc: Global,
    task: &Task<'_>,
    tick_us: u32,
    furthest: &mut Furthest,
    page: &mut Page,
    certificate: &mut Vec<u8>,
) -> Result<bool, AllocError>
    ensures { IfOk result (λ passed. passed ≡ true
        → AreDesigned task.now.wanted.inputs.now.rows.items task.now.wanted.outputs.now.rows.items (page.new ++ 10 ∷ []) certificate.new.items) }
{
    let unread = Unread {
        inputs: &task.wanted.inputs.unread,
        outputs: &task.wanted.outputs.unread,
    };
    match draft(alloc, task.document, task.wish, tick_us, &unread) {
        Ok(text) => match try_text(alloc, &task.wanted, text.as_bytes(), page, certificate) {
            Ok(()) => Ok(true),
            Err(unfit) => match obstacles_of(alloc, tick_us, &unfit) {
                Some(obstacles) => {
                    furthest.add(obstacles);
                    Ok(false)
                }
                None => Err(AllocError),
            },
        },
        Err(Untabled::Obstacles(obstacles)) => {
            furthest.add(obstacles);
            Ok(false)
        }
        Err(Untabled::NoMemory) => Err(AllocError),
    }
}

/// Tries ticks in their order: whether some gave tables that pass, which are kept with their certificate.
fn try_ticks(
    alloc: Global,
    task: &Task<'_>,
    furthest: &mut Furthest,
    page: &mut Page,
    certificate: &mut Vec<u8>,
) -> Result<bool, AllocError>
    ensures { IfOk result (λ passed. passed ≡ true
        → AreDesigned task.now.wanted.inputs.now.rows.items task.now.wanted.outputs.now.rows.items (page.new ++ 10 ∷ []) certificate.new.items) }
{
    for tick_us in ticks_of(&task.wish) {
        if try_tick(alloc, task, *tick_us, furthest, page, certificate)? {
            return Ok(true);
        }
    }
    Ok(false)
}

/// Tries ticks in their order, and all of them once more with buses that are visited by timeouts too, where some did not keep a
/// timeout: whether some gave tables that pass, which are kept with their certificate.
fn try_all(
    alloc: Global,
    task: &Task<'_>,
    furthest: &mut Furthest,
    page: &mut Page,
    certificate: &mut Vec<u8>,
) -> Result<bool, AllocError>
    ensures { IfOk result (λ passed. passed ≡ true
        → AreDesigned task.now.wanted.inputs.now.rows.items task.now.wanted.outputs.now.rows.items (page.new ++ 10 ∷ []) certificate.new.items) }
{
    if try_ticks(alloc, task, furthest, page, certificate)? {
        return Ok(true);
    }
    if !furthest.starts_anew() {
        return Ok(false);
    }
    let prompt = Task {
        wish: task.wish.promptly(),
        wanted: task.wanted,
        document: task.document,
    };
    try_ticks(alloc, &prompt, furthest, page, certificate)
}

/// Keeps the lines of what came furthest.
fn refuse(furthest: Furthest, wish: &Wish, page: &mut Page) -> Result<(), AllocError> {
    match furthest.refusal(wish) {
        Some(lines) => keep_lines(&lines, page),
        None => Err(AllocError),
    }
}

/// Designs tables, or says what stands in the way.
fn design_task(
    alloc: Global,
    task: &Task<'_>,
    page: &mut Page,
    certificate: &mut Vec<u8>,
) -> Result<Outcome, AllocError>
    ensures { Designs task.now.wanted.inputs.now.rows.items task.now.wanted.outputs.now.rows.items page.new certificate.new.items result }
{
    let mut furthest = Furthest::new(alloc);
    if try_all(alloc, task, &mut furthest, page, certificate)? {
        return Ok(Outcome::Done);
    }
    match refuse(furthest, &task.wish, page) {
        Ok(()) => Ok(Outcome::Refused),
        Err(e) => Err(e),
    }
}

/// The document of the rows of both sheets, whose times are told in the units of their titles; or what is wrong between rows.
fn document_of(
    alloc: Global,
    plan: Plan,
    inputs: &Inputs,
    outputs: &Outputs,
) -> Result<Document, Undocumented> {
    let units = Units {
        min: inputs.min_unit,
        max: outputs.max_unit,
        max_age: outputs.max_age_unit,
        timeout: outputs.timeout_unit,
    };
    match Document::of(alloc, &inputs.rows, &outputs.rows, plan.police) {
        Ok(document) => Ok(document.told_in(units)),
        Err(undocumented) => Err(undocumented),
    }
}

/// Designs tables for the rows of both sheets, and keeps their text without its last line feed, and the text of their certificate; or
/// keeps what stands in the way, or what is wrong between rows.
pub(crate) fn design_rows(
    alloc: Global,
    plan: Plan,
    wanted: Wanted<'_>,
    page: &mut Page,
    certificate: &mut Vec<u8>,
) -> Result<Outcome, AllocError>
    ensures { Designs wanted.entry.inputs.now.rows.items wanted.entry.outputs.now.rows.items page.new certificate.new.items result }
{
    match document_of(alloc, plan, wanted.inputs, wanted.outputs) {
        Ok(document) => {
            let task = Task {
                wish: plan.wish(),
                wanted,
                document: &document,
            };
            design_task(alloc, &task, page, certificate)
        }
        Err(Undocumented::Faults(lines)) => match keep_lines(&lines, page) {
            Ok(()) => Ok(Outcome::Unreadable),
            Err(e) => Err(e),
        },
        Err(Undocumented::NoMemory) => Err(AllocError),
    }
}
