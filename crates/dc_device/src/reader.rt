//! The lines of a source, through one fixed buffer.
ghost use Rattle.std.specs.Prelude.{◌≡◌, ◌∷◌, [], ◌+◌, ◌<◌, ◌≤◌, MatchOption, drop, false, length, take};
ghost use Rattle.dc_device.specs.Device.{IsSnapshot, count_on, failures_of, stops_in};
ghost use Rattle.dc_device.specs.Lines.{Fills, HasNoLine, HoldsLine, NoFeed, ReadsOn};
ghost use Rattle.dc_device.specs.declared.reader.TheConstants.{LINE_LIMIT};
ghost use Rattle.dc_device.specs.States.{IsCountable};

use crate::device::{Broken, Sink, Source};
use crate::writer::LineWriter;
use arrayvec::ArrayVec;
use std::marker::Model;

/// The room of a reader's buffer and of a writer's, in bytes: this project's own number.
pub const BLOCK: usize = 32768;

/// The greatest length of a line, in bytes without its line feed: this project's own number.
pub const LINE_LIMIT: usize = 64;

/// A line, without its line feed.
pub type Line = ArrayVec<u8, LINE_LIMIT>;

/// How a line that was read stands.
#[derive(Clone, Copy, Debug, PartialEq, Eq)]
pub enum LineEnd {
    /// Its line feed was read.
    Whole,
    /// A byte was read that is past the limit of the text, or of a line.
    Long,
}

/// Reads the lines of a source, each of at most [`LINE_LIMIT`] bytes, within a limit on the bytes of the whole text.
///
/// It reads on in the bytes that it holds, and pulls where its owner says so: who knows when the source is asked, and
/// can first show what was answered so far.
#[derive(Drop)]
pub struct LineReader {
    block: [u8; BLOCK],
    at: usize,
    end: usize,
    room: u64,
}

/// Where the first line feed is among the first bytes, one more than the longest line has.
fn first_feed(bytes: &[u8]) -> Option<usize>
    ensures { MatchOption result (NoFeed (take (LINE_LIMIT + 1) bytes.now))
        (λ i. (i < length bytes.now) × (i ≤ LINE_LIMIT) × NoFeed (take i bytes.now) × (drop i bytes.now ≡ 10 ∷ drop (i + 1) bytes.now)) }
{
    let most = bytes.len().min(LINE_LIMIT + 1);
    for i in 0..most {
        if bytes[i] == b'\n' {
            return Some(i);
        }
    }
    None
}

impl Model for LineReader {
    ghost use Rattle.std.specs.Prelude.{◌-◌, ◌≤◌, drop, take};
    ghost use Rattle.dc_device.specs.Lines.{Held};
    ghost use Rattle.dc_device.specs.declared.reader.TheConstants.{BLOCK};

    ghost Value = { Held };

    ghost view = { λ r. record { bytes = take (r.end - r.at) (drop r.at r.block); room = r.room } };

    ghost invariant = { λ r. (r.at ≤ r.end) × (r.end ≤ BLOCK) };
}

impl LineReader {
    /// A reader that holds nothing yet and may read `limit` bytes.
    pub fn new(limit: u64) -> Self
        ensures bytes { result.bytes ≡ [] }
        ensures room { result.room ≡ limit }
    {
        LineReader {
            block: [0; BLOCK],
            at: 0,
            end: 0,
            room: limit,
        }
    }

    /// The bytes that are held.
    #[inline]
    pub fn held(&self) -> &[u8]
        ensures { result.now ≡ self.now.bytes }
    {
        &self.block[self.at..self.end]
    }

    /// How many more bytes of the text may be read.
    #[inline]
    pub fn room(&self) -> u64
        ensures { result ≡ self.now.room }
    {
        self.room
    }

    /// The next byte of those that are held.
    fn held_byte(&mut self) -> Option<u8>
        ensures bytes { MatchOption result ((self.old.bytes ≡ []) × (self.new.bytes ≡ []))
            (λ b. self.old.bytes ≡ b ∷ self.new.bytes) }
        ensures room { self.new.room ≡ self.old.room }
    {
        if self.at == self.end {
            return None;
        }
        let byte = self.block[self.at];
        self.at += 1;
        Some(byte)
    }

    /// The line that the held bytes begin with, where they hold all of it with its line feed, within the limits.
    pub fn held_line(&self) -> Option<&[u8]>
        ensures { MatchOption result (HasNoLine self.now) (λ line. HoldsLine self.now line.now) }
    {
        let held = &self.block[self.at..self.end];
        let Some(length) = first_feed(held) else {
            return None;
        };
        if length as u64 >= self.room {
            return None;
        }
        Some(&held[..length])
    }

    /// Passes over this many of the held bytes.
    #[inline]
    pub fn pass(&mut self, count: usize)
        requires held { count ≤ length self.old.bytes }
        requires room { count ≤ self.old.room }
        ensures bytes { self.new.bytes ≡ drop count self.old.bytes }
        ensures room { count + self.new.room ≡ self.old.room }
    {
        self.at += count;
        self.room -= count as u64;
    }

    /// Reads on in the line, as far as the held bytes go. None where they end before the line does: then pull more,
    /// and call again with the same line. After `Long` neither reader nor line is of use.
    pub fn read_on(&mut self, line: &mut Line) -> Option<LineEnd>
        ensures { ReadsOn self.old self.new line.old.items line.new.items result }
    {
        loop {
            let byte = self.held_byte()?;
            if self.room == 0 {
                return Some(LineEnd::Long);
            }
            self.room -= 1;
            if byte == b'\n' {
                return Some(LineEnd::Whole);
            }
            if line.is_full() {
                return Some(LineEnd::Long);
            }
            line.push(byte);
        }
    }

    /// Pulls the next bytes, where none is held, and says whether there were any. What was written must not wait any
    /// more, nor be hidden: who reads the answers sees each before the source is asked again.
    ///
    /// # Errors
    /// `Broken` where the source failed.
    pub fn fill<S: Source, K: Sink>(
        &mut self,
        source: &mut S,
        written: &LineWriter,
        sink: &mut K,
    ) -> Result<bool, Broken>
        requires empty { self.old.bytes ≡ [] }
        requires seen { written.now ≡ [] }
        requires shown { (K.state sink.old).hidden ≡ false }
        requires countable { IsCountable (S.state source.old) }
        ensures bytes { Fills (S.state source.old).remaining (S.state source.new).remaining self.new.bytes result }
        ensures room { self.new.room ≡ self.old.room }
        ensures count { (S.state source.new).failed ≡ (S.state source.old).failed + failures_of result }
        ensures pulls { (S.state source.new).asked ≡ count_on (S.state source.old).asked }
        ensures dry_pulls { (S.state source.new).dry ≤ (S.state source.old).dry + stops_in result }
        ensures answered { IsSnapshot (K.state sink.old).contents (K.state sink.new).answered }
        ensures kept { (K.state sink.new).contents ≡ (K.state sink.old).contents }
        ensures sink { (K.state sink.new).failed ≡ (K.state sink.old).failed }
        ensures last { (K.state sink.new).last_failed ≡ (K.state sink.old).last_failed }
        ensures seen { (K.state sink.new).hidden ≡ false }
    {
        sink.note_ask();
        self.at = 0;
        self.end = 0;
        let n = source.pull(&mut self.block)?;
        self.end = n;
        Ok(n > 0)
    }
}
