//! The two kinds of device.
ghost use Rattle.std.specs.Prelude.{◌≡◌, Bool, false, ◌+◌, ◌≤◌, length, IfErr, IfOk};
ghost use Rattle.std.specs.Io.KnownBytes.{Keeps, ReadConsumes};
ghost use Rattle.dc_device.specs.Device.{IsSnapshot, PushAppends, PushHides, count_on, dry_after, failures_of, is_failure};
ghost use Rattle.dc_device.specs.States.{CanFail, IsCountable, SinkState, SourceState};

/// A device's call failed.
#[derive(Clone, Copy, Debug, PartialEq, Eq)]
pub struct Broken;

/// Where bytes come from.
pub trait Source {
    // What is known of it.
    ghost state: { Self → SourceState };

    /// Fills the front of the buffer with the next bytes, and says how many: none only at the end, or where there
    /// is no room.
    ///
    /// # Errors
    /// `Broken` where the call failed; no byte is lost then.
    fn pull(&mut self, buf: &mut [u8]) -> Result<usize, Broken>
        requires { IsCountable (state self.old) }
        ensures bound { IfOk result (λ n. n ≤ length buf.new) }
        ensures bytes { ReadConsumes (state self.old).remaining (state self.new).remaining result buf.new }
        ensures count { (state self.new).failed ≡ (state self.old).failed + failures_of result }
        ensures pulls { (state self.new).asked ≡ count_on (state self.old).asked }
        ensures dry_pulls { (state self.new).dry ≡ dry_after (state self.old).dry result };

    /// How many calls have failed.
    fn failures(&self) -> u64
        ensures { result ≡ (state self.now).failed };

    /// How often it was pulled, counted up to 2^64 - 1.
    fn pulls(&self) -> u64
        ensures { result ≡ (state self.now).asked };

    /// How many of these pulls gave no byte, counted so too.
    fn dry_pulls(&self) -> u64
        ensures { result ≡ (state self.now).dry };
}

/// Where bytes go.
pub trait Sink {
    // What is known of it.
    ghost state: { Self → SinkState };

    // Whether anyone reads what it takes.
    ghost has_readers: { Bool };

    /// Takes the front of the bytes, and says how many: one or more where there is one. Where it took one and anyone
    /// reads it, it hides something until a flush goes well.
    ///
    /// # Errors
    /// `Broken` where the call failed; it takes no byte then.
    fn push(&mut self, bytes: &[u8]) -> Result<usize, Broken>
        requires { CanFail (state self.old) }
        ensures bytes { PushAppends (state self.old).contents (state self.new).contents result bytes.now }
        ensures count { (state self.new).failed ≡ (state self.old).failed + failures_of result }
        ensures last { (state self.new).last_failed ≡ is_failure result }
        ensures hides { PushHides has_readers (state self.new).contents (state self.old).hidden (state self.new).hidden result }
        ensures answered { (state self.new).answered ≡ (state self.old).answered };

    /// Lets everyone see what it has taken.
    ///
    /// # Errors
    /// `Broken` where the call failed; it keeps what it holds, and what was hidden is hidden still.
    fn flush(&mut self) -> Result<(), Broken>
        requires { CanFail (state self.old) }
        ensures bytes { Keeps (state self.old).contents (state self.new).contents }
        ensures count { (state self.new).failed ≡ (state self.old).failed + failures_of result }
        ensures last { (state self.new).last_failed ≡ is_failure result }
        ensures seen { IfOk result (λ _. (state self.new).hidden ≡ false) }
        ensures unseen { IfErr result (λ _. (state self.new).hidden ≡ (state self.old).hidden) }
        ensures answered { (state self.new).answered ≡ (state self.old).answered };

    /// Notes that a source is asked for more, when nothing that was taken is hidden.
    fn note_ask(&mut self)
        requires { (state self.old).hidden ≡ false }
        ensures answered { IsSnapshot (state self.old).contents (state self.new).answered }
        ensures bytes { (state self.new).contents ≡ (state self.old).contents }
        ensures count { (state self.new).failed ≡ (state self.old).failed }
        ensures last { (state self.new).last_failed ≡ (state self.old).last_failed }
        ensures seen { (state self.new).hidden ≡ false };

    /// How many calls have failed.
    fn failures(&self) -> u64
        ensures { result ≡ (state self.now).failed };

    /// Whether it took bytes that not everyone sees.
    fn hides(&self) -> bool
        ensures { result ≡ (state self.now).hidden };
}
