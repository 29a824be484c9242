//! The times of a stream's words.
ghost use Rattle.std.specs.Prelude.{◌≡◌, ◌<◌, ◌≤◌, ◌^◌, ◌-◌, ◌++◌, ◌∷◌, ℕ, List, [], length};
ghost use Rattle.dc_bound.specs.Window.{ticks_of};
ghost use Rattle.dc_gauge.specs.Gauges.{IsStreamGauge};
ghost use Rattle.dc_gauge.specs.Steps.{greatest_with, least_with, no_stream_words, one_more, stream_gauged};
ghost use Rattle.dc_gauge.specs.Times.{last_time};
ghost use Rattle.dc_gauge.specs.declared.timing.StreamTiming.{StreamTiming};

use crate::timing::StreamTiming;

/// The numbers of a stream's words so far. Times are in microseconds.
#[derive(Clone, Copy, Debug, PartialEq, Eq)]
pub struct StreamGauge {
    /// How many words came.
    pub words: u64,
    /// When the last one came.
    pub last: u64,
    /// The least interval between neighbours, where two came.
    pub least: Option<u64>,
    /// The greatest interval between neighbours, where two came.
    pub greatest: Option<u64>,
    /// How many intervals between neighbours are longer than the declared maximum.
    pub over: u64,
    /// Until when the words fill their rhythm at the declared minimum.
    pub pace: u128,
    /// The least jitter with which the words keep the declared minimum.
    pub jitter: u128,
    /// The line of the first word that the declared jitter does not let come.
    pub early: Option<u64>,
}

/// One more, up to the greatest number.
pub(crate) fn one_more(count: u64) -> u64
    ensures { result ≡ one_more count }
{
    count.saturating_add(1)
}

/// The lesser of what there was and one more.
pub(crate) fn least_with(before: Option<u64>, interval: u64) -> u64
    ensures { result ≡ least_with before interval }
{
    match before {
        Some(least) => least.min(interval),
        None => interval,
    }
}

/// The greater of what there was and one more.
fn greatest_with(before: Option<u64>, interval: u64) -> u64
    ensures { result ≡ greatest_with before interval }
{
    match before {
        Some(greatest) => greatest.max(interval),
        None => interval,
    }
}

impl StreamGauge {
    /// Of a stream of which no word came.
    pub fn new() -> StreamGauge
        ensures start { result ≡ no_stream_words }
        ensures gauge { (timing : StreamTiming) → IsStreamGauge timing [] result }
    {
        StreamGauge {
            words: 0,
            last: 0,
            least: None,
            greatest: None,
            over: 0,
            pace: 0,
            jitter: 0,
            early: None,
        }
    }

    /// With a word more.
    #[inline(always)]
    fn gauged(&self, timing: StreamTiming, time: u64, line: u64) -> StreamGauge
        ensures { result ≡ stream_gauged timing time line self.now }
    {
        let interval = time.saturating_sub(self.last);
        let ahead = self.pace.saturating_sub(time as u128);
        let mut new = StreamGauge {
            words: one_more(self.words),
            last: time,
            least: self.least,
            greatest: self.greatest,
            over: self.over,
            pace: self
                .pace
                .max(time as u128)
                .saturating_add(timing.min_us as u128),
            jitter: self.jitter.max(ahead),
            early: self.early,
        };
        if self.words > 0 {
            new.least = Some(least_with(self.least, interval));
            new.greatest = Some(greatest_with(self.greatest, interval));
            if interval > timing.max_us as u64 {
                new.over = one_more(self.over);
            }
        }
        if ahead > timing.jitter_us as u128 && self.early.is_none() {
            new.early = Some(line);
        }
        new
    }

    /// Takes a word of this time and line. It is no earlier than the last one, and the timing is the same for all words.
    #[inline(always)]
    pub fn take(&mut self, timing: StreamTiming, time: u64, line: u64)
        requires { 1 ≤ timing.min_us }
        ensures { (came : List (ℕ × ℕ)) → IsStreamGauge timing came self.old → last_time (ticks_of came) ≤ time → length came < 2 ^ 64 - 1
            → IsStreamGauge timing (came ++ (time, line) ∷ []) self.new }
    {
        *self = self.gauged(timing, time, line);
    }
}
