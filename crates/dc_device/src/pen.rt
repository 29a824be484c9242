//! Text in a room of its own, put there by pieces whose length is known where the program is built.
ghost use Rattle.std.specs.Prelude.{◌≡◌, [], ◌++◌, ◌+◌, ◌≤◌, length, take, drop};

use std::marker::Model;

/// Copies bytes over those from a place on.
#[inline(always)]
pub(crate) fn copy_over(block: &mut [u8], at: usize, bytes: &[u8])
    requires { at + length bytes.now ≤ length block.old }
    ensures front { take (at + length bytes.now) block.new ≡ take at block.old ++ bytes.now }
    ensures len { length block.new ≡ length block.old }
{
    block[at..at + bytes.len()].copy_from_slice(bytes);
}

/// Copies so many bytes from a place on over those from another place on.
#[inline(always)]
fn copy_part<const N: usize>(bytes: &mut [u8], at: usize, part: &[u8], from: usize)
    requires to { at + N ≤ length bytes.old }
    requires from { from + N ≤ length part.now }
    ensures front { take (at + N) bytes.new ≡ take at bytes.old ++ take N (drop from part.now) }
    ensures len { length bytes.new ≡ length bytes.old }
{
    bytes[at..at + N].copy_from_slice(&part[from..from + N]);
}

/// Bytes at the front of an array, put there piece by piece. A contract sees it as these bytes.
#[derive(Drop)]
pub struct Pen<const CAP: usize> {
    bytes: [u8; CAP],
    len: usize,
}

impl<const CAP: usize> Model for Pen<CAP> {
    ghost use Rattle.std.specs.Prelude.{ℕ, List, ◌≤◌, take};

    ghost Value = { List ℕ };

    ghost view = { λ p. take p.len p.bytes };

    ghost invariant = { λ p. p.len ≤ CAP };
}

impl<const CAP: usize> Pen<CAP> {
    /// Nothing.
    pub fn new() -> Self
        ensures { result ≡ [] }
    {
        Pen {
            bytes: [0; CAP],
            len: 0,
        }
    }

    /// Forgets the bytes. It writes none.
    #[inline]
    pub fn clear(&mut self)
        ensures { self.new ≡ [] }
    {
        self.len = 0;
    }

    /// The bytes.
    #[inline]
    pub fn text(&self) -> &[u8]
        ensures text { result.now ≡ self.now }
        ensures fits { length result.now ≤ CAP }
    {
        &self.bytes[..self.len]
    }

    /// Puts a piece at the end.
    #[inline(always)]
    pub fn put<const N: usize>(&mut self, piece: &[u8; N])
        requires { length self.old + N ≤ CAP }
        ensures { self.new ≡ self.old ++ piece.now }
    {
        copy_over(&mut self.bytes, self.len, piece);
        self.len += N;
    }

    /// Puts the first bytes of a piece at the end. All of it is copied, for which there must be room.
    #[inline(always)]
    pub fn put_front<const N: usize>(&mut self, piece: &[u8; N], count: usize)
        requires count { count ≤ N }
        requires room { length self.old + N ≤ CAP }
        ensures { self.new ≡ self.old ++ take count piece.now }
    {
        copy_over(&mut self.bytes, self.len, piece);
        self.len += count;
    }

    /// Puts `count` of the bytes from a place on at the end. `N` of them are copied, for which there must be room.
    #[inline(always)]
    pub fn put_part<const N: usize>(&mut self, bytes: &[u8], from: usize, count: usize)
        requires count { count ≤ N }
        requires there { from + N ≤ length bytes.now }
        requires room { length self.old + N ≤ CAP }
        ensures items { self.new ≡ self.old ++ take count (drop from bytes.now) }
        ensures len { length self.new ≡ length self.old + count }
    {
        copy_part::<N>(&mut self.bytes, self.len, bytes, from);
        self.len += count;
    }

    /// How many bytes there are.
    #[inline(always)]
    pub fn len(&self) -> usize
        ensures len { result ≡ length self.now }
        ensures fits { result ≤ CAP }
    {
        self.len
    }

    /// Copies the bytes over those of a block from a place on. All of the room is copied, for which there must be room.
    #[inline(always)]
    pub(crate) fn copy_to(&self, block: &mut [u8], at: usize)
        requires { at + CAP ≤ length block.old }
        ensures front { take (at + length self.now) block.new ≡ take at block.old ++ self.now }
        ensures len { length block.new ≡ length block.old }
    {
        copy_over(block, at, &self.bytes);
    }
}
