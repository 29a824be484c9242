//! `layout`: tables are laid out anew, and certified as they are written.
ghost use Rattle.std.specs.Prelude.{◌≡◌, ◌≢◌, ℕ, List, ◌+◌, IfErr, IfOk, Some, Err};
ghost use Rattle.dc_answer.specs.Answer.{Any, LeavesSink, Raises, Reported};
ghost use Rattle.dc_answer.specs.Judging.{Keeps};
ghost use Rattle.dc_device.specs.States.{AsksUpTo, CanFail, IsCountable};
ghost use Rattle.dc_document.specs.declared.limits.TheConstants.{TEXT_LIMIT};
ghost use Rattle.dc_toml.specs.Reading.{unlaid_tables_of};
ghost use Rattle.dc_toml.specs.Written.{written};
ghost use Rattle.dc_run_design.specs.Design.{IsSheet};
ghost use Rattle.dc_run_design.specs.Layout.{AnswersLayout, Lays, ReportsLayout, TellsFault};

use crate::engine::finish;
use crate::judged::Unfit;
use crate::laid::certify_laid;
use crate::search::{keep_line, keep_lines, obstacles_of};
use crate::sheets::read_sheet;
use crate::waits::waiting_of;
use dc_answer::{Exit, Failure, Outcome, Page};
use dc_build::read_tables;
use dc_design::{Furthest, Obstacles, Untabled, Waiting, Wish, lay_out, set_apart};
use dc_device::{Sink, Source};
use dc_document::{BuildError, Parts, Section, TableFault, TableRule};
use dc_print::{Text, print_table_fault};
use dc_tables::Tables;
use dc_toml::read_unlaid;
use std::alloc::{AllocError, Global};

/// The fault of a text that is longer than one of tables may be.
const TOO_LONG: TableFault = TableFault {
    rule: TableRule::NotToml,
    section: Section::Top,
    index: 0,
};

/// Keeps the line of a fault of tables.
fn tell_fault(fault: TableFault, page: &mut Page) -> Outcome
    ensures outcome { result ≡ Outcome.Unreadable }
    ensures line { TellsFault page.new fault }
{
    let mut line = Text::new();
    print_table_fault(&mut line, fault);
    page.tell(line);
    Outcome::Unreadable
}

/// Keeps the lines of what stands in the way of a layout.
fn refuse(
    alloc: Global,
    tick_us: u32,
    obstacles: Obstacles,
    page: &mut Page,
) -> Result<Outcome, AllocError>
    ensures { IfOk result (λ o. o ≡ Outcome.Refused) }
{
    let wish = Wish {
        tick_us: Some(tick_us),
        headroom: None,
        is_prompt: false,
    };
    let mut furthest = Furthest::new(alloc);
    furthest.add(obstacles);
    let Some(lines) = furthest.refusal(&wish) else {
        return Err(AllocError);
    };
    match keep_lines(&lines, page) {
        Ok(()) => Ok(Outcome::Refused),
        Err(e) => Err(e),
    }
}

/// Keeps what a judge says of a layout.
fn tell_unfit(
    alloc: Global,
    tick_us: u32,
    unfit: &Unfit,
    page: &mut Page,
) -> Result<Outcome, AllocError>
    ensures { IfOk result (λ o. o ≡ Outcome.Refused) }
{
    match obstacles_of(alloc, tick_us, unfit) {
        Some(obstacles) => refuse(alloc, tick_us, obstacles, page),
        None => Err(AllocError),
    }
}

/// Judges a text of tables that are laid out, and keeps it without its last line feed where it passes; else what its judges say.
fn judge_text(
    alloc: Global,
    given: &Parts,
    text: &[u8],
    page: &mut Page,
) -> Result<Outcome, AllocError>
    ensures { Lays (written given.now) page.new result }
{
    match certify_laid(alloc, given, text) {
        Ok(()) => match keep_line(text, page) {
            Ok(()) => Ok(Outcome::Done),
            Err(_) => Err(AllocError),
        },
        Err(unfit) => tell_unfit(alloc, given.tick_us(), &unfit, page),
    }
}

/// Lays out tables that break no rule beside those of layouts, on whose buses so much waits, and keeps their text or what stands in the
/// way.
fn plan_parts(
    alloc: Global,
    given: &Parts,
    waiting: &[Option<Waiting>],
    page: &mut Page,
) -> Result<Outcome, AllocError>
    ensures { Lays (written given.now) page.new result }
{
    match lay_out(alloc, given, waiting) {
        Ok(text) => judge_text(alloc, given, text.as_bytes(), page),
        Err(Untabled::Obstacles(obstacles)) => refuse(alloc, given.tick_us(), obstacles, page),
        Err(Untabled::NoMemory) => Err(AllocError),
    }
}

/// Lays out the tables of which these are one layout.
fn plan_tables(
    alloc: Global,
    given: &Parts,
    apart: &Tables,
    page: &mut Page,
) -> Result<Outcome, AllocError>
    ensures { Lays (written given.now) page.new result }
{
    match waiting_of(alloc, apart) {
        Ok(waiting) => plan_parts(alloc, given, &waiting, page),
        Err(e) => Err(e),
    }
}

/// Judges a text of the tables in which each label is due in a tick of its own: what its readers refuse is wrong with all else.
fn judge_apart(
    alloc: Global,
    given: &Parts,
    text: &[u8],
    page: &mut Page,
) -> Result<Outcome, AllocError>
    ensures { Lays (written given.now) page.new result }
{
    match read_tables(alloc, text) {
        Ok(apart) => plan_tables(alloc, given, &apart, page),
        Err(BuildError::Refused(fault)) => Ok(tell_fault(fault, page)),
        Err(BuildError::Memory(_)) => Err(AllocError),
    }
}

/// Lays out tables, and keeps their text, what is wrong with them, or what stands in the way.
fn lay_parts(alloc: Global, given: &Parts, page: &mut Page) -> Result<Outcome, AllocError>
    ensures { Lays (written given.now) page.new result }
{
    match set_apart(alloc, given) {
        Ok(text) => judge_apart(alloc, given, text.as_bytes(), page),
        Err(Untabled::Obstacles(obstacles)) => refuse(alloc, given.tick_us(), obstacles, page),
        Err(Untabled::NoMemory) => Err(AllocError),
    }
}

/// Lays out the tables of a text.
fn lay_bytes(alloc: Global, text: &[u8], page: &mut Page) -> Result<Outcome, AllocError>
    ensures { Keeps (AnswersLayout text.now) page.new result }
{
    match read_unlaid(alloc, text) {
        Ok(given) => lay_parts(alloc, &given, page),
        Err(BuildError::Refused(fault)) => Ok(tell_fault(fault, page)),
        Err(BuildError::Memory(_)) => Err(AllocError),
    }
}

/// Lays out the tables of a text, where it is no longer than a text may be.
fn lay_text(alloc: Global, tables: &Option<Vec<u8>>, page: &mut Page) -> Result<Outcome, AllocError>
    ensures { (text : List ℕ) → IsSheet tables.now text → Keeps (AnswersLayout text) page.new result }
{
    match tables {
        Some(bytes) => lay_bytes(alloc, bytes, page),
        None => Ok(tell_fault(TOO_LONG, page)),
    }
}

/// Judges the text of a source, and keeps the answer.
fn judge<T: Source>(alloc: Global, tables: &mut T, page: &mut Page) -> Result<Outcome, Failure>
    requires { IsCountable (T.state tables.old) }
    ensures answer { (text : List ℕ) → (T.state tables.old).remaining ≡ Some text → Keeps (AnswersLayout text) page.new result }
    ensures raises { Raises (T.state tables.old).failed (T.state tables.new).failed result }
    ensures asks { AsksUpTo TEXT_LIMIT (T.state tables.old) (T.state tables.new) }
    ensures sink { IfErr result (λ e. e ≢ Failure.Sink) }
{
    match read_sheet(alloc, tables) {
        Ok(text) => match lay_text(alloc, &text, page) {
            Ok(outcome) => Ok(outcome),
            Err(_) => Err(Failure::Memory),
        },
        Err(failure) => Err(failure),
    }
}

/// Lays out tables, which are read whole from their source, and writes their text onto a sink: all as it was given but for the frames of
/// outputs and the stale times and offsets of labels, of which nothing need stand in the text that is read, and nothing is looked at.
///
/// Where it ends `Done`, what was written reads as tables, the least certificate that is accepted for them keeps its claims in every
/// admissible run, and read with its layout open it says the tables that were given. `Refused` where no layout was found: then what
/// stands in the way was written, of which nothing is claimed. `Unreadable` where the text is none of tables, or where these break a
/// rule beside those of layouts: the line of the first fault. `Failed` where a device failed or memory was refused: `failed memory`
/// alone was written, or `failed device` behind nothing or all that was to be written; where a push or flush failed, a front of one of
/// these or of the latter. That call is the last of the sink, and at most one pull of the source gives no byte.
pub fn run_layout<T: Source, K: Sink>(alloc: Global, tables: &mut T, sink: &mut K) -> Exit
    requires tables { IsCountable (T.state tables.old) }
    requires sink { CanFail (K.state sink.old) }
    ensures reports { (text : List ℕ) → (T.state tables.old).remaining ≡ Some text
        → ReportsLayout text (K.state sink.old).contents (K.state sink.new).contents (T.state tables.old).failed (T.state tables.new).failed
        (K.state sink.old).failed (K.state sink.new).failed result }
    ensures reported { Reported Any (K.state sink.old).contents (K.state sink.new).contents (T.state tables.old).failed (T.state tables.new).failed
        (K.state sink.old).failed (K.state sink.new).failed result }
    ensures asks { AsksUpTo TEXT_LIMIT (T.state tables.old) (T.state tables.new) }
    ensures left { LeavesSink (K.state sink.old).failed (K.state sink.new).failed (K.state sink.new).last_failed (K.state sink.new).hidden }
    ensures quiet { result ≢ Exit.Failed → (T.state tables.new).failed + (K.state sink.new).failed ≡ (T.state tables.old).failed + (K.state sink.old).failed }
{
    let mut page = Page::new(alloc);
    let judged = judge(alloc, tables, &mut page);
    finish(judged, &page, sink)
}
