//! Devices over memory, for tests.
ghost use Rattle.std.specs.Prelude.{◌≡◌, ◌≢◌, ◌+◌, ◌-◌, ◌^◌, ◌<◌, ◌≤◌, ◌⊎◌, Some, [], length, min, take, nat_lt, false, true, IfErr, IfOk, MatchResult};
ghost use Rattle.std.specs.Io.KnownBytes.{Keeps, ReadConsumes};
ghost use Rattle.dc_device.specs.Device.{PushAppends, PushHides, count_on, dry_after, failures_of, is_failure};

use crate::device::{Broken, Sink, Source};
use std::alloc::{AllocError, Global};

/// Bytes in memory, given in pieces. The call of a given number fails.
#[derive(Drop)]
pub struct MemSource<'a> {
    rest: &'a [u8],
    piece: usize,
    fails_in: u64,
    failures: u64,
    pulls: u64,
    dry_pulls: u64,
    ghost moves: { 0 < piece },
}

impl<'a> MemSource<'a> {
    /// These bytes, at most `piece` of them, 1 or more, at a pull. The pull of number `fails_at`, from 1 on, fails; for
    /// 0 none does.
    pub fn new(bytes: &'a [u8], piece: usize, fails_at: u64) -> Self
        requires { 0 < piece }
        ensures bytes { result.rest ≡ bytes.entry }
        ensures piece { result.piece ≡ piece }
        ensures fails { result.fails_in ≡ fails_at }
        ensures failures { result.failures ≡ 0 }
        ensures pulls { result.pulls ≡ 0 }
        ensures dry_pulls { result.dry_pulls ≡ 0 }
    {
        MemSource {
            rest: bytes,
            piece,
            fails_in: fails_at,
            failures: 0,
            pulls: 0,
            dry_pulls: 0,
        }
    }
}

impl<'a> Source for MemSource<'a> {
    ghost state = { λ s. record { remaining = Some s.rest.now; failed = s.failures; asked = s.pulls; dry = s.dry_pulls } };

    fn pull(&mut self, buf: &mut [u8]) -> Result<usize, Broken>
        requires { self.old.failures + 1 < 2 ^ 64 }
        ensures bound { IfOk result (λ n. n ≤ length buf.new) }
        ensures bytes { ReadConsumes (Some self.old.rest.now) (Some self.new.rest.now) result buf.new }
        ensures count { self.new.failures ≡ self.old.failures + failures_of result }
        ensures pulls { self.new.pulls ≡ count_on self.old.pulls }
        ensures dry_pulls { self.new.dry_pulls ≡ dry_after self.old.dry_pulls result }
        ensures fails { MatchResult result (λ n. self.old.fails_in ≢ 1) (λ _. self.old.fails_in ≡ 1) }
        ensures next { self.new.fails_in ≡ self.old.fails_in - 1 }
        ensures piece { (self.new.piece ≡ self.old.piece) × IfOk result (λ n. n ≤ self.old.piece) }
    {
        self.pulls = self.pulls.saturating_add(1);
        if self.fails_in == 1 {
            self.fails_in = 0;
            self.failures += 1;
            self.dry_pulls = self.dry_pulls.saturating_add(1);
            return Err(Broken);
        }
        self.fails_in = self.fails_in.saturating_sub(1);
        let n = self.rest.len().min(self.piece).min(buf.len());
        let (front, back) = self.rest.split_at(n);
        buf[..n].copy_from_slice(front);
        self.rest = back;
        if n == 0 {
            self.dry_pulls = self.dry_pulls.saturating_add(1);
        }
        Ok(n)
    }

    fn failures(&self) -> u64 {
        self.failures
    }

    fn pulls(&self) -> u64 {
        self.pulls
    }

    fn dry_pulls(&self) -> u64 {
        self.dry_pulls
    }
}

/// Bytes in memory, up to a room of so many. A push of some bytes where it is full fails, and so does the push and the
/// flush of a given number. It shows nothing that was not flushed.
#[derive(Drop)]
pub struct MemSink {
    bytes: Vec<u8>,
    shown: usize,
    answered: usize,
    room: usize,
    fails_in: u64,
    flush_fails_in: u64,
    failures: u64,
    has_failed: bool,
    ghost within: { length bytes.items ≤ room },
    ghost inside: { shown ≤ length bytes.items },
    ghost earlier: { answered ≤ length bytes.items },
}

impl MemSink {
    /// Room for `room` bytes. The push of number `fails_at`, from 1 on, fails; for 0 none does so.
    ///
    /// # Errors
    /// `AllocError` where an allocation failed.
    pub fn new(alloc: Global, room: usize, fails_at: u64) -> Result<Self, AllocError>
        ensures { IfOk result (λ s. (s.bytes.items ≡ []) × (s.failures ≡ 0) × (s.room ≡ room)
            × (s.fails_in ≡ fails_at) × (s.shown ≡ 0) × (s.answered ≡ 0) × (s.flush_fails_in ≡ 0)) }
    {
        Ok(MemSink {
            bytes: Vec::with_capacity(alloc, room)?,
            shown: 0,
            answered: 0,
            room,
            fails_in: fails_at,
            flush_fails_in: 0,
            failures: 0,
            has_failed: false,
        })
    }

    /// The flush of this number, counted from here, from 1 on, is to fail; for 0 none is.
    pub fn fail_flush(&mut self, number: u64)
        ensures flush { self.new.flush_fails_in ≡ number }
        ensures bytes { self.new.bytes.items ≡ self.old.bytes.items }
        ensures shown { self.new.shown ≡ self.old.shown }
        ensures answered { self.new.answered ≡ self.old.answered }
        ensures failures { self.new.failures ≡ self.old.failures }
        ensures room { self.new.room ≡ self.old.room }
        ensures fails { self.new.fails_in ≡ self.old.fails_in }
    {
        self.flush_fails_in = number;
    }

    /// What it holds.
    pub fn bytes(&self) -> &[u8]
        ensures { result.now ≡ self.now.bytes.items }
    {
        self.bytes.as_slice()
    }

    /// What of it everyone sees.
    pub fn shown(&self) -> &[u8]
        ensures { result.now ≡ take self.now.shown self.now.bytes.items }
    {
        &self.bytes.as_slice()[..self.shown]
    }

    /// What everyone saw of it when a source was last asked for more.
    pub fn answered(&self) -> &[u8]
        ensures { result.now ≡ take self.now.answered self.now.bytes.items }
    {
        &self.bytes.as_slice()[..self.answered]
    }
}

impl Sink for MemSink {
    ghost state = { λ s. record {
      contents = Some s.bytes.items;
      failed = s.failures;
      last_failed = s.has_failed;
      hidden = nat_lt s.shown (length s.bytes.items);
      answered = Some (take s.answered s.bytes.items);
    } };

    ghost has_readers = { true };

    fn push(&mut self, bytes: &[u8]) -> Result<usize, Broken>
        requires { self.old.failures + 1 < 2 ^ 64 }
        ensures bytes { PushAppends (Some self.old.bytes.items) (Some self.new.bytes.items) result bytes.now }
        ensures count { self.new.failures ≡ self.old.failures + failures_of result }
        ensures last { self.new.has_failed ≡ is_failure result }
        ensures fails { IfOk result (λ n. self.old.fails_in ≢ 1) }
        ensures next { self.new.fails_in ≡ self.old.fails_in - 1 }
        ensures shown { self.new.shown ≡ self.old.shown }
        ensures hides { PushHides true (Some self.new.bytes.items) (nat_lt self.old.shown (length self.old.bytes.items))
            (nat_lt self.new.shown (length self.new.bytes.items)) result }
        ensures answered { take self.new.answered self.new.bytes.items ≡ take self.old.answered self.old.bytes.items }
        ensures room { self.new.room ≡ self.old.room }
        ensures flush { self.new.flush_fails_in ≡ self.old.flush_fails_in }
    {
        self.has_failed = true;
        if self.fails_in == 1 {
            self.fails_in = 0;
            self.failures += 1;
            return Err(Broken);
        }
        self.fails_in = self.fails_in.saturating_sub(1);
        let n = bytes.len().min(self.room - self.bytes.len());
        if n == 0 && !bytes.is_empty() {
            self.failures += 1;
            return Err(Broken);
        }
        match self.bytes.extend_from_slice(&bytes[..n]) {
            Ok(()) => {
                self.has_failed = false;
                Ok(n)
            }
            Err(_) => {
                self.failures += 1;
                Err(Broken)
            }
        }
    }

    fn flush(&mut self) -> Result<(), Broken>
        requires { self.old.failures + 1 < 2 ^ 64 }
        ensures bytes { self.new.bytes.items ≡ self.old.bytes.items }
        ensures count { self.new.failures ≡ self.old.failures + failures_of result }
        ensures last { self.new.has_failed ≡ is_failure result }
        ensures seen { IfOk result (λ _. nat_lt self.new.shown (length self.new.bytes.items) ≡ false) }
        ensures unseen { IfErr result (λ _. nat_lt self.new.shown (length self.new.bytes.items)
            ≡ nat_lt self.old.shown (length self.old.bytes.items)) }
        ensures fails { MatchResult result (λ _. self.old.flush_fails_in ≢ 1) (λ _. self.old.flush_fails_in ≡ 1) }
        ensures next { self.new.flush_fails_in ≡ self.old.flush_fails_in - 1 }
        ensures shown { MatchResult result (λ _. self.new.shown ≡ length self.old.bytes.items) (λ _. self.new.shown ≡ self.old.shown) }
        ensures room { self.new.room ≡ self.old.room }
        ensures push { self.new.fails_in ≡ self.old.fails_in }
        ensures answered { self.new.answered ≡ self.old.answered }
    {
        if self.flush_fails_in == 1 {
            self.flush_fails_in = 0;
            self.failures += 1;
            self.has_failed = true;
            return Err(Broken);
        }
        self.flush_fails_in = self.flush_fails_in.saturating_sub(1);
        self.shown = self.bytes.len();
        self.has_failed = false;
        Ok(())
    }

    fn note_ask(&mut self)
        ensures answered { self.new.answered ≡ length self.old.bytes.items }
        ensures bytes { self.new.bytes.items ≡ self.old.bytes.items }
        ensures shown { self.new.shown ≡ self.old.shown }
        ensures count { self.new.failures ≡ self.old.failures }
        ensures last { self.new.has_failed ≡ self.old.has_failed }
        ensures room { self.new.room ≡ self.old.room }
        ensures push { self.new.fails_in ≡ self.old.fails_in }
        ensures flush { self.new.flush_fails_in ≡ self.old.flush_fails_in }
    {
        self.answered = self.bytes.len();
    }

    fn failures(&self) -> u64 {
        self.failures
    }

    fn hides(&self) -> bool {
        self.shown < self.bytes.len()
    }
}
