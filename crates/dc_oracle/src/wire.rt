//! Whether one wire can carry the words that come on it.

ghost use Rattle.std.specs.Prelude.{◌≡◌, true};
ghost use Rattle.dc_oracle.specs.WireLoad.{can_carry, loaded};

/// How far a wire is loaded: the tick of its last word, and for how many microseconds from that tick's beginning on the
/// words up to then keep it.
#[derive(Clone, Copy, Debug, PartialEq)]
pub struct WireLoad {
    pub tick: u64,
    pub load_us: u64,
}

impl WireLoad {
    /// Takes a word in this tick. Whether the wire can carry it: the words before it keep it no longer than to the
    /// tick's end.
    pub fn carry(&mut self, tick: u64, tick_us: u32, spacing: u32) -> bool
        ensures result { result ≡ can_carry tick_us tick self.old }
        ensures after { result ≡ true → self.new ≡ loaded tick_us spacing tick self.old }
    {
        let passed = tick
            .saturating_sub(self.tick)
            .saturating_mul(tick_us as u64);
        let left = self.load_us.saturating_sub(passed);
        if left > tick_us as u64 {
            return false;
        }
        self.tick = tick;
        self.load_us = left + spacing as u64;
        true
    }
}
