//! Whether the words of one stream are early.

ghost use Rattle.std.specs.Prelude.{◌≡◌, true, false};
ghost use Rattle.dc_oracle.specs.Pace.{is_early_at, moved};

/// How far the words of a stream are ahead of their pace: the tick of the last, and how many ticks from it on the words
/// up to then fill at the stream's minimum.
#[derive(Clone, Copy, Debug, PartialEq)]
pub struct Pace {
    pub tick: u64,
    pub ahead: u64,
}

impl Pace {
    /// Takes a word in this tick, unless it is early. Whether it is.
    pub fn refuses(&mut self, tick: u64, minimum: u32, jitter: u32) -> bool
        ensures result { result ≡ is_early_at jitter tick self.old }
        ensures early { result ≡ true → self.new ≡ self.old }
        ensures after { result ≡ false → self.new ≡ moved minimum tick self.old }
    {
        let left = self.ahead.saturating_sub(tick.saturating_sub(self.tick));
        if left > jitter as u64 {
            return true;
        }
        self.tick = tick;
        self.ahead = left + minimum as u64;
        false
    }
}
