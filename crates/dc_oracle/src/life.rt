//! Whether a stream is live, and its words usable.

ghost use Rattle.std.specs.Prelude.{◌≡◌, ◌-◌, ◌<◌, ◌≤◌, ◌^◌};
ghost use Rattle.dc_oracle.specs.Life.{broken_at, alive_at, spoilt, spoilt_in, fine_at, good_at, lived};

use dc_word::{Format, Word};

/// How a stream has come so far: the tick from which on it brought nothing; one more than the last tick from which on a
/// whole maximum passed without a word, before its last word came (0 where there is none); and for each format one more
/// than the tick of its last word that could not be used (0 where there is none).
#[derive(Clone, Copy, Debug, PartialEq)]
pub struct Life {
    pub quiet: u64,
    pub broken: u64,
    pub bnr: u64,
    pub bcd: u64,
    pub disc: u64,
}

impl Life {
    /// One more than the last tick from which on `maximum` ticks, whole at this one, brought nothing.
    fn broken_at(&self, tick: u64, maximum: u32) -> u64
        requires { 1 ≤ maximum }
        ensures { result ≡ broken_at maximum tick self.now }
    {
        if tick.saturating_sub(self.quiet) >= maximum as u64 {
            return tick - maximum as u64 + 1;
        }
        self.broken
    }

    /// Whether `stale` ticks are over at this one, and each `maximum` of the last of them brought a word.
    fn is_alive(&self, tick: u64, stale: u32, maximum: u32) -> bool
        requires { 1 ≤ maximum }
        ensures { result ≡ alive_at maximum stale tick self.now }
    {
        stale as u64 <= tick && self.broken_at(tick, maximum) <= tick.saturating_sub(stale as u64)
    }

    /// One more than the tick of its last word that the format cannot use.
    fn spoilt_in(&self, format: Format) -> u64
        ensures { result ≡ spoilt_in format self.now }
    {
        match format {
            Format::Bnr => self.bnr,
            Format::Bcd => self.bcd,
            Format::Disc => self.disc,
        }
    }

    /// Whether the format can use its words of the last `stale` ticks and of the running one.
    fn is_fine(&self, tick: u64, stale: u32, format: Format) -> bool
        ensures { result ≡ fine_at format stale tick self.now }
    {
        self.spoilt_in(format) <= tick.saturating_sub(stale as u64)
    }

    /// Whether it is alive, and the format can use its words.
    pub fn is_good(&self, tick: u64, stale: u32, maximum: u32, format: Format) -> bool
        requires { 1 ≤ maximum }
        ensures { result ≡ good_at maximum format stale tick self.now }
    {
        self.is_alive(tick, stale, maximum) && self.is_fine(tick, stale, format)
    }

    /// Its life with a word more, in this tick.
    pub fn with(&self, word: Word, tick: u64, maximum: u32) -> Life
        requires early { tick < 2 ^ 64 - 1 }
        requires some { 1 ≤ maximum }
        ensures { result ≡ lived maximum tick word self.now }
    {
        Life {
            quiet: tick + 1,
            broken: self.broken_at(tick, maximum),
            bnr: spoilt(Format::Bnr, word, tick, self.bnr),
            bcd: spoilt(Format::Bcd, word, tick, self.bcd),
            disc: spoilt(Format::Disc, word, tick, self.disc),
        }
    }
}

/// One more than the tick of the last word that the format cannot use, with a word more.
fn spoilt(format: Format, word: Word, tick: u64, before: u64) -> u64
    requires { tick < 2 ^ 64 - 1 }
    ensures { result ≡ spoilt format tick word before }
{
    if word.usable(format) {
        return before;
    }
    tick + 1
}
