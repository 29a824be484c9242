//! An engine whose line of a text that can't be read is told as an object, where that is asked.

ghost use Rattle.std.specs.Prelude.{◌≡◌, ◌-◌, IfOk, length, take, true};
ghost use Rattle.dc_run_margins.specs.Telling.{AnswersTold, TellsJudged, told_as};

use crate::telling::{LineKey, closing, opening};
use dc_answer::{Given, Judge, Outcome, Page, Unjudged};
use dc_device::{LineWriter, MemSink};
use dc_print::TEXT_CAPACITY;
use std::alloc::{AllocError, Global};

/// The room of the line of a text that can't be read or of what stands in the way, with its line feed.
const LINE_ROOM: usize = TEXT_CAPACITY + 1;

/// Keeps a line that ends in a line feed under a key.
fn keep_told(key: LineKey, text: &[u8], page: &mut Page) -> Result<(), AllocError>
    ensures { IfOk result (λ _. page.new ≡ told_as true key (take (length text.now - 1) text.now)) }
{
    let (line, _) = text.split_at(text.len().saturating_sub(1));
    page.keep(opening(true, key))?;
    page.add(line)?;
    page.add(closing(true))
}

/// Puts the one line that a page keeps under a key, where objects are told: it is read by writing it into memory.
///
/// # Errors
/// `AllocError` where memory was refused, or the line is longer than one of [`Text`](dc_print::Text).
pub(crate) fn enclose(
    alloc: Global,
    json: bool,
    key: LineKey,
    page: &mut Page,
) -> Result<(), AllocError>
    ensures { IfOk result (λ _. page.new ≡ told_as json key page.old) }
{
    if !json {
        return Ok(());
    }
    let mut kept = MemSink::new(alloc, LINE_ROOM, 0)?;
    let mut writer = LineWriter::new();
    match page.write(&mut writer, &mut kept) {
        Ok(()) => keep_told(key, kept.bytes(), page),
        Err(_) => Err(AllocError),
    }
}

/// Tells what was judged: the line of a text that can't be read under its key.
fn tell_judged(
    alloc: Global,
    json: bool,
    judged: Result<Outcome, Unjudged>,
    page: &mut Page,
) -> Result<Outcome, Unjudged>
    ensures { TellsJudged json page.old judged page.new result }
{
    match judged {
        Ok(Outcome::Done) => Ok(Outcome::Done),
        Ok(Outcome::Refused) => Ok(Outcome::Refused),
        Ok(Outcome::Unreadable) => match enclose(alloc, json, LineKey::Line, page) {
            Ok(()) => Ok(Outcome::Unreadable),
            Err(_) => Err(Unjudged::Memory),
        },
        Err(e) => Err(e),
    }
}

/// What judges as another engine, and tells the line of a text that can't be read under its key, where objects are told.
#[derive(Clone, Copy, Debug)]
pub(crate) struct Told<J> {
    /// Whether objects are told.
    pub(crate) json: bool,
    /// The engine.
    pub(crate) plain: J,
}

impl<H, C, G: Given, J: Judge<H, C, G>> Judge<H, C, G> for Told<J> {
    ghost may_judge = { λ j. J.may_judge j.plain };

    ghost starts_threads = { λ j. J.starts_threads j.plain };

    ghost limits = { λ j. J.limits j.plain };

    ghost goes_on = { λ j known. J.goes_on j.plain known };

    ghost answers = { λ j known texts. AnswersTold j.json (J.answers j.plain known texts) };

    fn judge(
        &self,
        rt: &H,
        alloc: Global,
        known: C,
        given: &mut G,
        page: &mut Page,
    ) -> Result<Outcome, Unjudged> {
        let judged = self.plain.judge(rt, alloc, known, given, page);
        tell_judged(alloc, self.json, judged, page)
    }
}
