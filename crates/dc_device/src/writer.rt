//! Lines to a sink, through one fixed buffer.
ghost use Rattle.std.specs.Prelude.{◌≡◌, ◌∷◌, [], ◌++◌, ◌+◌, ◌<◌, ◌≤◌, MatchBool, IfErr, length, take, true};
ghost use Rattle.dc_device.specs.Bytes.{Gathers, Writes};
ghost use Rattle.dc_device.specs.Device.{Settles, failures_of};
ghost use Rattle.dc_device.specs.States.{CanFail};

use crate::device::{Broken, Sink};
use crate::pen::{Pen, copy_over};
use crate::reader::BLOCK;
use std::marker::Model;

/// Gathers lines for a sink: those that were not pushed yet wait, and go out where its owner says so. Contracts see
/// what waits.
#[derive(Drop)]
pub struct LineWriter {
    block: [u8; BLOCK],
    len: usize,
}

impl Model for LineWriter {
    ghost use Rattle.std.specs.Prelude.{List, ℕ, take, ◌≤◌};
    ghost use Rattle.dc_device.specs.declared.reader.TheConstants.{BLOCK};

    ghost Value = { List ℕ };

    ghost view = { λ w. take w.len w.block };

    ghost invariant = { λ w. w.len ≤ BLOCK };
}

/// Pushes all the bytes, by as many pushes as it takes. It is called once a block: kept apart, so that `put` stays
/// small.
#[inline(never)]
fn push_all<K: Sink>(sink: &mut K, bytes: &[u8]) -> Result<(), Broken>
    requires { CanFail (K.state sink.old) }
    ensures bytes { Writes (K.state sink.old).contents (K.state sink.new).contents bytes.now result }
    ensures count { (K.state sink.new).failed ≡ (K.state sink.old).failed + failures_of result }
    ensures last { IfErr result (λ _. (K.state sink.new).last_failed ≡ true) }
    ensures answered { (K.state sink.new).answered ≡ (K.state sink.old).answered }
{
    let mut rest = bytes;
    while !rest.is_empty() {
        let n = sink.push(rest)?;
        let (_, back) = rest.split_at(n);
        rest = back;
    }
    Ok(())
}

impl LineWriter {
    /// A writer for which nothing waits.
    pub fn new() -> Self
        ensures { result ≡ [] }
    {
        LineWriter {
            block: [0; BLOCK],
            len: 0,
        }
    }

    /// Pushes what waits, and lets everyone see it.
    ///
    /// # Errors
    /// `Broken` where the sink failed: what was left is given up, and the sink is called no more.
    #[inline(never)]
    pub fn flush<K: Sink>(&mut self, sink: &mut K) -> Result<(), Broken>
        requires { CanFail (K.state sink.old) }
        ensures bytes { Writes (K.state sink.old).contents (K.state sink.new).contents self.old result }
        ensures empty { self.new ≡ [] }
        ensures count { (K.state sink.new).failed ≡ (K.state sink.old).failed + failures_of result }
        ensures settled { Settles result (K.state sink.new).last_failed (K.state sink.new).hidden }
        ensures answered { (K.state sink.new).answered ≡ (K.state sink.old).answered }
    {
        if self.len == 0 && !sink.hides() {
            return Ok(());
        }
        let pushed = push_all(sink, &self.block[..self.len]);
        self.len = 0;
        pushed?;
        sink.flush()
    }

    /// Puts the bytes after those that wait, where there is room, and says whether there was.
    #[inline(always)]
    fn hold(&mut self, bytes: &[u8]) -> bool
        ensures { MatchBool result (self.new ≡ self.old ++ bytes.now) (self.new ≡ self.old) }
    {
        if bytes.len() > BLOCK - self.len {
            return false;
        }
        copy_over(&mut self.block, self.len, bytes);
        self.len += bytes.len();
        true
    }

    /// Puts the bytes after those that wait, which first go out where there is no room. It is called twice a line.
    #[inline]
    fn put<K: Sink>(&mut self, sink: &mut K, bytes: &[u8]) -> Result<(), Broken>
        requires { CanFail (K.state sink.old) }
        ensures bytes { Gathers (K.state sink.old).contents self.old (K.state sink.new).contents self.new
            bytes.now result }
        ensures count { (K.state sink.new).failed ≡ (K.state sink.old).failed + failures_of result }
        ensures last { IfErr result (λ _. (K.state sink.new).last_failed ≡ true) }
        ensures answered { (K.state sink.new).answered ≡ (K.state sink.old).answered }
    {
        if self.hold(bytes) {
            return Ok(());
        }
        self.flush(sink)?;
        if self.hold(bytes) {
            return Ok(());
        }
        push_all(sink, bytes)
    }

    /// Writes the line and a line feed, after what waits.
    ///
    /// # Errors
    /// `Broken` where the sink failed: it took a front of what waited and the line, and nothing waits.
    #[inline(always)]
    pub fn line<K: Sink>(&mut self, sink: &mut K, line: &[u8]) -> Result<(), Broken>
        requires { CanFail (K.state sink.old) }
        ensures bytes { Gathers (K.state sink.old).contents self.old (K.state sink.new).contents self.new
            (line.now ++ 10 ∷ []) result }
        ensures count { (K.state sink.new).failed ≡ (K.state sink.old).failed + failures_of result }
        ensures last { IfErr result (λ _. (K.state sink.new).last_failed ≡ true) }
        ensures answered { (K.state sink.new).answered ≡ (K.state sink.old).answered }
    {
        self.put(sink, line)?;
        self.put(sink, b"\n")
    }

    /// Puts the bytes of a pen and a line feed after those that wait, where there is room for all that the pen may
    /// hold, and says whether there was.
    #[inline(always)]
    fn hold_pen<const CAP: usize>(&mut self, pen: &Pen<CAP>) -> bool
        ensures { MatchBool result (self.new ≡ self.old ++ (pen.now ++ 10 ∷ [])) (self.new ≡ self.old) }
    {
        if CAP >= BLOCK - self.len {
            return false;
        }
        pen.copy_to(&mut self.block, self.len);
        let end = self.len + pen.len();
        copy_over(&mut self.block, end, b"\n");
        self.len = end + 1;
        true
    }

    /// Writes the line of a pen and a line feed, after what waits.
    ///
    /// # Errors
    /// `Broken` where the sink failed: it took a front of what waited and the line, and nothing waits.
    #[inline(always)]
    pub fn line_by<K: Sink, const CAP: usize>(
        &mut self,
        sink: &mut K,
        pen: &Pen<CAP>,
    ) -> Result<(), Broken>
        requires { CanFail (K.state sink.old) }
        ensures bytes { Gathers (K.state sink.old).contents self.old (K.state sink.new).contents self.new
            (pen.now ++ 10 ∷ []) result }
        ensures count { (K.state sink.new).failed ≡ (K.state sink.old).failed + failures_of result }
        ensures last { IfErr result (λ _. (K.state sink.new).last_failed ≡ true) }
        ensures answered { (K.state sink.new).answered ≡ (K.state sink.old).answered }
    {
        if self.hold_pen(pen) {
            return Ok(());
        }
        self.line(sink, pen.text())
    }

    /// Writes a line that is handed in as two parts, and a line feed, after what waits.
    ///
    /// # Errors
    /// `Broken` where the sink failed: it took a front of what waited and the line, and nothing waits.
    pub fn line_of<K: Sink>(
        &mut self,
        sink: &mut K,
        front: &[u8],
        back: &[u8],
    ) -> Result<(), Broken>
        requires { CanFail (K.state sink.old) }
        ensures bytes { Gathers (K.state sink.old).contents self.old (K.state sink.new).contents self.new
            (front.now ++ (back.now ++ 10 ∷ [])) result }
        ensures count { (K.state sink.new).failed ≡ (K.state sink.old).failed + failures_of result }
        ensures last { IfErr result (λ _. (K.state sink.new).last_failed ≡ true) }
        ensures answered { (K.state sink.new).answered ≡ (K.state sink.old).answered }
    {
        self.put(sink, front)?;
        self.line(sink, back)
    }
}
