//! The times of a wire's words.
ghost use Rattle.std.specs.Prelude.{◌≡◌, ◌<◌, ◌≤◌, ◌^◌, ◌-◌, ◌++◌, ◌∷◌, ℕ, List, [], length};
ghost use Rattle.dc_bound.specs.Window.{ticks_of};
ghost use Rattle.dc_gauge.specs.Gauges.{IsWireGauge};
ghost use Rattle.dc_gauge.specs.Steps.{no_wire_words, wire_gauged};
ghost use Rattle.dc_gauge.specs.Times.{last_time};

use crate::stream::{least_with, one_more};

/// The numbers of a wire's words so far. Times are in microseconds.
#[derive(Clone, Copy, Debug, PartialEq, Eq)]
pub struct WireGauge {
    /// How many words came.
    pub words: u64,
    /// When the last one came.
    pub last: u64,
    /// The least interval between neighbours, where two came.
    pub least: Option<u64>,
    /// The line of the first word that came less than the spacing after the one before it.
    pub broken: Option<u64>,
}

impl WireGauge {
    /// Of a wire on which no word came.
    pub fn new() -> WireGauge
        ensures start { result ≡ no_wire_words }
        ensures gauge { (spacing : ℕ) → IsWireGauge spacing [] result }
    {
        WireGauge {
            words: 0,
            last: 0,
            least: None,
            broken: None,
        }
    }

    /// With a word more.
    #[inline(always)]
    fn gauged(&self, spacing: u32, time: u64, line: u64) -> WireGauge
        ensures { result ≡ wire_gauged spacing time line self.now }
    {
        let interval = time.saturating_sub(self.last);
        let mut new = WireGauge {
            words: one_more(self.words),
            last: time,
            least: self.least,
            broken: self.broken,
        };
        if self.words > 0 {
            new.least = Some(least_with(self.least, interval));
            if interval < spacing as u64 && self.broken.is_none() {
                new.broken = Some(line);
            }
        }
        new
    }

    /// Takes a word of this time and line. It is no earlier than the last one, and the spacing is the same for all words.
    #[inline(always)]
    pub fn take(&mut self, spacing: u32, time: u64, line: u64)
        requires { 1 ≤ spacing }
        ensures { (came : List (ℕ × ℕ)) → IsWireGauge spacing came self.old → last_time (ticks_of came) ≤ time → length came < 2 ^ 64 - 1
            → IsWireGauge spacing (came ++ (time, line) ∷ []) self.new }
    {
        *self = self.gauged(spacing, time, line);
    }
}
