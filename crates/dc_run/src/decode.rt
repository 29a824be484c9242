//! `decode`: words in, their lines out.
ghost use Rattle.std.specs.Prelude.{◌≡◌, ◌≢◌, [], ◌∷◌, ◌++◌, ◌+◌, ◌-◌, ◌<◌, ◌≤◌, IfErr, IfOk, IfSome, false, true};
ghost use Rattle.dc_device.specs.Bytes.{Gathers};
ghost use Rattle.dc_device.specs.Device.{failures_of};
ghost use Rattle.dc_device.specs.States.{AsksUpTo, CanFail, IsCountable};
ghost use Rattle.dc_run.specs.declared.decode.TheConstants.{STREAM_LIMIT};
ghost use Rattle.dc_answer.specs.Answer.{Causes, Ends, LeavesSink, Reports, SettlesBy};
ghost use Rattle.dc_run.specs.Decode.{IsAhead, IsPrompt, answer_end, decode_text};
ghost use Rattle.dc_print.specs.Words.{line_of};

use crate::replay::code_of;
use dc_answer::{Exit, Failure, Outcome, ask, end_at, report};
use dc_device::{Line, LineEnd, LineReader, LineWriter, Pen, Sink, Source};
use dc_event::{LineRule, read_word};
use dc_print::{WORD_ROOM, put_word};
use dc_word::{Format, Word};

/// How many bytes a text may have that is read without an end in sight: what a gigabyte a second makes in three
/// centuries.
const STREAM_LIMIT: u64 = 9_223_372_036_854_775_807;

/// Answers a text that ends after these bytes of a line.
fn end_inside<K: Sink>(
    line: &[u8],
    number: u64,
    writer: &mut LineWriter,
    sink: &mut K,
) -> Result<Outcome, Failure>
    requires seen { writer.old ≡ [] }
    requires shown { (K.state sink.old).hidden ≡ false }
    requires countable { CanFail (K.state sink.old) }
    ensures bytes { Ends (K.state sink.old).contents [] (K.state sink.new).contents (answer_end number line.now) result }
    ensures empty { writer.new ≡ [] }
    ensures count { (K.state sink.new).failed ≡ (K.state sink.old).failed + failures_of result }
    ensures sink { IfErr result (λ e. e ≡ Failure.Sink) }
    ensures settled { SettlesBy result (K.state sink.new).last_failed (K.state sink.new).hidden }
    ensures answered { (K.state sink.new).answered ≡ (K.state sink.old).answered }
{
    match line {
        [] => Ok(Outcome::Done),
        _ => end_at(writer, sink, code_of(LineRule::LineNotEnded), number),
    }
}

/// Writes the line of a word.
#[inline(always)]
fn write_word<K: Sink>(
    writer: &mut LineWriter,
    sink: &mut K,
    format: Format,
    word: Word,
) -> Result<(), Failure>
    requires { CanFail (K.state sink.old) }
    ensures bytes { Gathers (K.state sink.old).contents writer.old (K.state sink.new).contents writer.new
        (line_of format word ++ 10 ∷ []) result }
    ensures count { (K.state sink.new).failed ≡ (K.state sink.old).failed + failures_of result }
    ensures sink { IfErr result (λ e. e ≡ Failure.Sink) }
    ensures last { IfErr result (λ e. (K.state sink.new).last_failed ≡ true) }
{
    let mut pen = Pen::<WORD_ROOM>::new();
    put_word(&mut pen, format, word);
    match writer.line_by(sink, &pen) {
        Ok(()) => Ok(()),
        Err(_) => Err(Failure::Sink),
    }
}

/// The word of the next line, where nothing of it was gathered and it is held: eight digits and a line feed.
#[inline(always)]
fn word_ahead(reader: &LineReader, line: &Line) -> Option<Word>
    ensures { IfSome result (λ word. IsAhead reader.now line.now.items word) }
{
    if !line.is_empty() || reader.room() < 9 {
        return None;
    }
    let held = reader.held();
    if held.len() < 9 || held[8] != b'\n' {
        return None;
    }
    read_word(&held[..8])
}

/// Answers the text of a source, until one of the two fails.
fn answer<S: Source, K: Sink>(
    format: Format,
    source: &mut S,
    writer: &mut LineWriter,
    sink: &mut K,
) -> Result<Outcome, Failure>
    requires new { writer.old ≡ [] }
    requires source { IsCountable (S.state source.old) }
    requires sink { CanFail (K.state sink.old) }
    ensures answer { IfSome (S.state source.old).remaining (λ text.
        Ends (K.state sink.old).contents [] (K.state sink.new).contents (decode_text format text) result) }
    ensures empty { writer.new ≡ [] }
    ensures cause { Causes (S.state source.old).failed (S.state source.new).failed (K.state sink.old).failed
        (K.state sink.new).failed result }
    ensures device { IfErr result (λ e. e ≢ Failure.Memory) }
    ensures settled { SettlesBy result (K.state sink.new).last_failed (K.state sink.new).hidden }
    ensures prompt { (S.state source.old).dry < (S.state source.new).dry → (S.state source.new).failed ≡ (S.state source.old).failed
        → IfSome (S.state source.old).remaining (λ text. IsPrompt format text (K.state sink.old).contents (K.state sink.new).answered) }
    ensures asks { AsksUpTo STREAM_LIMIT (S.state source.old) (S.state source.new) }
{
    let mut reader = LineReader::new(STREAM_LIMIT);
    let mut line = Line::new();
    let mut number: u64 = 1;
    loop {
        if let Some(word) = word_ahead(&reader, &line) {
            reader.pass(9);
            match write_word(writer, sink, format, word) {
                Err(failure) => return Err(failure),
                Ok(()) => {}
            }
            number += 1;
            continue;
        }
        match reader.read_on(&mut line) {
            None => match ask(&mut reader, source, writer, sink) {
                Err(failure) => return Err(failure),
                Ok(false) => return end_inside(line.as_slice(), number, writer, sink),
                Ok(true) => {}
            },
            Some(LineEnd::Long) => return end_at(
                writer,
                sink,
                code_of(LineRule::LineTooLong),
                number,
            ),
            Some(LineEnd::Whole) => {
                let Some(word) = read_word(line.as_slice()) else {
                    return end_at(writer, sink, code_of(LineRule::NotAWord), number);
                };
                match write_word(writer, sink, format, word) {
                    Err(failure) => return Err(failure),
                    Ok(()) => {}
                }
                line.clear();
                number += 1;
            }
        }
    }
}

/// Decodes the words on a source, one a line, onto a sink. It is lent no allocator.
///
/// It ends `Done` at the end of the text; `Unreadable` at the first faulty line, whose fault was written after the
/// lines before it; `Failed` where a device failed. Where a pull alone failed, whole lines of a front of the answer and
/// then `failed device` were written; a push or flush that failed is the last call of the sink, and at most one pull of
/// the source gives no byte. Where a pull found the end of the text, the lines of all its whole lines had been seen
/// before it.
pub fn run_decode<S: Source, K: Sink>(format: Format, source: &mut S, sink: &mut K) -> Exit
    requires source { IsCountable (S.state source.old) }
    requires sink { CanFail (K.state sink.old) }
    ensures reports { IfSome (S.state source.old).remaining (λ text.
        Reports (K.state sink.old).contents (K.state sink.new).contents Failure.Source ((K.state sink.new).failed - (K.state sink.old).failed)
        (decode_text format text) result) }
    ensures cause { result ≡ Exit.Failed
        → (S.state source.old).failed + (K.state sink.old).failed < (S.state source.new).failed + (K.state sink.new).failed }
    ensures quiet { result ≢ Exit.Failed
        → ((S.state source.new).failed ≡ (S.state source.old).failed) × ((K.state sink.new).failed ≡ (K.state sink.old).failed) }
    ensures prompt { (S.state source.old).dry < (S.state source.new).dry → (S.state source.new).failed ≡ (S.state source.old).failed
        → IfSome (S.state source.old).remaining (λ text. IsPrompt format text (K.state sink.old).contents (K.state sink.new).answered) }
    ensures asks { AsksUpTo STREAM_LIMIT (S.state source.old) (S.state source.new) }
    ensures left { LeavesSink (K.state sink.old).failed (K.state sink.new).failed (K.state sink.new).last_failed (K.state sink.new).hidden }
{
    let mut writer = LineWriter::new();
    let ended = answer(format, source, &mut writer, sink);
    report(ended, &mut writer, sink)
}
