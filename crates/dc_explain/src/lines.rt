//! The lines of standard input, and of a file that has lines.
use dc_keep::Kept;
use dc_tell::{Explanation, Value, place_at};

/// What standard input is called.
pub(crate) const INPUT: &str = "<stdin>";

/// A line that ends a tick.
pub(crate) const TICK: &[u8] = b"T";

/// A line of standard input, or of a file.
#[derive(Clone, Copy)]
pub(crate) struct Line<'a> {
    /// What its text is called.
    pub(crate) file: &'a str,
    /// Its bytes, without its line feed.
    pub(crate) bytes: &'a [u8],
    /// Its number, from 1.
    pub(crate) number: u64,
    /// How many lines before it are a Tick.
    pub(crate) tick: u64,
}

/// No line: of what is of none.
pub(crate) const NO_LINE: Line<'static> = Line {
    file: "",
    bytes: b"",
    number: 0,
    tick: 0,
};

/// How many holes a sentence has.
fn holes_in(sentence: &str) -> usize {
    let mut holes = 0usize;
    for (piece, _) in sentence.split("{}").enumerate() {
        holes = piece;
    }
    holes
}

impl<'a> Line<'a> {
    /// Writes where the line has what was told, behind so many of its bytes.
    pub(crate) fn show(&self, out: &mut Explanation, offset: usize) {
        let before = self.bytes.get(..offset).unwrap_or(b"");
        let column = match str::from_utf8(before) {
            Ok(_) => place_at(before, offset).column,
            Err(_) => offset.saturating_add(1),
        };
        out.show("-->", self.file, self.number, self.bytes, column);
    }

    /// Tells of the line: the first line of a sentence; where the line has what was told, behind so many of its bytes;
    /// and the further lines of the sentence, each of what is to be done, or behind `note: ` of what is to be known. Each
    /// `{}` is a hole for the next of these values.
    pub(crate) fn tell(
        &self,
        out: &mut Explanation,
        offset: usize,
        sentence: &str,
        values: &[Value<'_>],
    ) {
        let mut next = 0usize;
        for (number, piece) in sentence.split('\n').enumerate() {
            let own = values.get(next..).unwrap_or(&[]);
            if number == 0 {
                out.say(piece, own);
                self.show(out, offset);
            } else if let Some((_, note)) = piece.split_once("note: ") {
                out.note(note, own);
            } else {
                out.help(piece, own);
            }
            next = next.saturating_add(holes_in(piece));
        }
    }
}

/// The line of this number, from 1, of the text that is called so, where it was kept.
pub(crate) fn line_of<'k>(file: &'k str, kept: &'k Kept, number: u64) -> Option<Line<'k>> {
    let text = kept.text.as_slice();
    let mut now = kept.before.lines.saturating_add(1);
    let mut tick = kept.before.ticks;
    let mut from = 0usize;
    for (at, byte) in text.iter().enumerate() {
        if *byte != b'\n' {
            continue;
        }
        let bytes = text.get(from..at).unwrap_or(b"");
        if now == number {
            return Some(Line {
                file,
                bytes,
                number,
                tick,
            });
        }
        tick = tick.saturating_add(u64::from(bytes == TICK));
        now = now.saturating_add(1);
        from = at.saturating_add(1);
    }
    if now != number {
        return None;
    }
    Some(Line {
        file,
        bytes: text.get(from..).unwrap_or(b""),
        number,
        tick,
    })
}

/// Whether a line is an event of this letter, with the blank behind it, and of this name.
fn is_event(line: &[u8], letter: &[u8], name: &[u8]) -> bool {
    line.starts_with(letter) && line.get(letter.len()..).unwrap_or(b"") == name
}

/// In which tick the last of some events stands, where one was kept, and how many stand from a tick on, where all of
/// these were.
type Events = (Option<u64>, Option<u64>);

/// The events of this letter and name before a line, and how many of them stand from a tick on.
pub(crate) fn events_before(
    kept: &Kept,
    line: &Line<'_>,
    tick: u64,
    letter: &[u8],
    name: &[u8],
) -> Events {
    let text = kept.text.as_slice();
    let mut number = kept.before.lines.saturating_add(1);
    let mut now = kept.before.ticks;
    let is_whole = number <= 1 || now < tick;
    let (mut last, mut count, mut from) = (None, 0u64, 0usize);
    for (at, byte) in text.iter().enumerate() {
        if *byte != b'\n' || number >= line.number {
            continue;
        }
        let bytes = text.get(from..at).unwrap_or(b"");
        if is_event(bytes, letter, name) {
            last = Some(now);
            count = count.saturating_add(u64::from(now >= tick));
        }
        now = now.saturating_add(u64::from(bytes == TICK));
        number = number.saturating_add(1);
        from = at.saturating_add(1);
    }
    let is_known = is_whole && now == line.tick;
    (last, if is_known { Some(count) } else { None })
}
