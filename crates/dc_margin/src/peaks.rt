//! Where in a window most may wait, and where the longest delay is needed.

ghost use Rattle.std.specs.Prelude.{◌≡◌, ℕ, ◌+◌, ◌-◌, ◌^◌, ◌<◌, ◌≤◌};
ghost use Rattle.dc_busy.specs.declared.limits.TheConstants.{LONGEST_WINDOW};
ghost use Rattle.dc_margin.specs.Peaks.{IsPeak, higher, needed, waiting};
ghost use Rattle.dc_margin.specs.Rising.{IsPeakSoFar};

use dc_bound::{ArrivalBound, ServiceBound, Watcher};
use dc_busy::{LONGEST_WINDOW, Patient, walk_by_leaps};
use std::marker::{Brand, PhantomData};

/// A greatest height, and the first number of ticks that has it.
#[derive(Clone, Copy, Debug, PartialEq, Eq)]
pub struct Peak {
    /// The first number of ticks that has it, from 1 to the window.
    pub ticks: u32,
    /// The greatest height.
    pub height: u64,
}

/// What decides a window.
#[derive(Clone, Copy, Debug, PartialEq, Eq)]
pub struct Peaks {
    /// The most that may wait, in words.
    pub backlog: Peak,
    /// The least delay that is needed, in ticks; [`LONGEST_WINDOW`] + 1 where no delay up to it is enough.
    pub delay: Peak,
}

/// The most that may wait in a window of 1 to [`LONGEST_WINDOW`] ticks, and the least delay that it needs, each with
/// the first number of its ticks that has it. Numbers of ticks in which neither grows may be leapt over.
pub fn peaks_of<A: ArrivalBound, S: ServiceBound>(arrivals: &A, service: &S, window: u32) -> Peaks
    requires least { 1 ≤ window }
    requires most { window ≤ LONGEST_WINDOW }
    ensures backlog { IsPeak (waiting (A.cap arrivals.now) (S.floor service.now)) window result.backlog.ticks result.backlog.height }
    ensures delay { IsPeak (needed (A.cap arrivals.now) (S.floor service.now)) window result.delay.ticks result.delay.height }
{
    peaks_asked::<A, S, Brand>(arrivals, service, window)
}

/// What a walk is asked. It exists in proofs alone: who walks picks it, and the watcher says it by its type.
trait Asked {
    // the service floor
    ghost floor: { ℕ → ℕ };

    // the number of ticks up to which the walk goes
    ghost window: { ℕ };
}

impl Asked for Brand {
    ghost floor = { λ d. 0 };

    ghost window = { 0 };
}

/// The same, where what is asked is known by a type.
fn peaks_asked<A: ArrivalBound, S: ServiceBound, K: Asked>(
    arrivals: &A,
    service: &S,
    window: u32,
) -> Peaks
    requires least { 1 ≤ window }
    requires most { window ≤ LONGEST_WINDOW }
    requires floor_is { S.floor service.now ≡ K.floor }
    requires window_is { window ≡ K.window }
    ensures backlog { IsPeak (waiting (A.cap arrivals.now) K.floor) K.window result.backlog.ticks result.backlog.height }
    ensures delay { IsPeak (needed (A.cap arrivals.now) K.floor) K.window result.delay.ticks result.delay.height }
{
    let none = Peak {
        ticks: 1,
        height: 0,
    };
    let heights: Heights<S, K> = Heights {
        service,
        window,
        backlog: none,
        held: 0,
        delay: none,
        taken: 0,
        of: PhantomData,
    };
    let (heights, _) = walk_by_leaps(arrivals, 1, window, heights);
    Peaks {
        backlog: heights.backlog,
        delay: heights.delay,
    }
}

/// The greatest heights so far along a walk. As many as `held` are known to leave the backlog so from here on, as many
/// as `taken` the delay: a step asks the service only where more may come.
#[derive(Drop)]
struct Heights<'a, S: ServiceBound, K: Asked> {
    service: &'a S,
    window: u32,
    backlog: Peak,
    held: u64,
    delay: Peak,
    taken: u64,
    of: PhantomData<K>,
    ghost low: { delay.height ≤ LONGEST_WINDOW + 1 },
    ghost floor_is: { S.floor service.now ≡ K.floor },
    ghost window_is: { window ≡ K.window },
}

impl<'a, S: ServiceBound, K: Asked> Watcher for Heights<'a, S, K> {
    ghost knows = { λ w cap ticks. (w.held ≤ w.backlog.height + S.floor w.service.now (ticks - 2))
        × (w.delay.height ≤ LONGEST_WINDOW → w.taken ≤ S.floor w.service.now (ticks - 1 + w.delay.height))
        × IsPeakSoFar (waiting cap (S.floor w.service.now)) w.window ticks w.backlog.ticks w.backlog.height
        × IsPeakSoFar (needed cap (S.floor w.service.now)) w.window ticks w.delay.ticks w.delay.height };

    ghost ends = { λ w cap. ⊥ };

    /// What is behind the window is not looked at.
    #[inline(always)]
    fn see(&mut self, ticks: u32, until: u32, most: u64) -> bool {
        if ticks > self.window {
            return true;
        }
        let (backlog, held) = fuller(self.service, self.backlog, self.held, ticks, most);
        self.backlog = backlog;
        self.held = held;
        let (delay, taken) = later(self.service, self.delay, self.taken, ticks, most);
        self.delay = delay;
        self.taken = taken;
        true
    }
}

impl<'a, S: ServiceBound, K: Asked> Patient for Heights<'a, S, K> {
    fn passes(&self, ticks: u32) -> u64 {
        let served = self.service.at_least(ticks.saturating_sub(2));
        let held = self.backlog.height.saturating_add(served);
        held.min(in_time(self.service, self.delay, ticks))
    }
}

/// As many as may come in so many ticks with no longer delay than the peak's; any number where that is above
/// `LONGEST_WINDOW`.
fn in_time<S: ServiceBound>(service: &S, peak: Peak, ticks: u32) -> u64
    requires some { 1 ≤ ticks }
    requires short { ticks ≤ LONGEST_WINDOW }
    ensures some { peak.height ≤ LONGEST_WINDOW → result ≡ S.floor service.now (ticks - 1 + peak.height) }
    ensures all { LONGEST_WINDOW < peak.height → (n : ℕ) → n < 2 ^ 64 → n ≤ result }
{
    if peak.height > u64::from(LONGEST_WINDOW) {
        return u64::MAX;
    }
    service.at_least(ticks - 1 + peak.height as u32)
}

/// Where `held` leave the peak so far as it is: the peak with what may wait of so many words in so many ticks, where it
/// is above that, and how many leave it so from here on.
#[inline(always)]
fn fuller<S: ServiceBound>(service: &S, peak: Peak, held: u64, ticks: u32, most: u64) -> (Peak, u64)
    requires short { ticks ≤ LONGEST_WINDOW }
    ensures peak { held ≤ peak.height + S.floor service.now (ticks - 2) → result.0 ≡ higher peak ticks (most - S.floor service.now (ticks - 2)) }
    ensures held { held ≤ peak.height + S.floor service.now (ticks - 2) → result.1 ≤ result.0.height + S.floor service.now (ticks - 2) }
{
    if most <= held {
        return (peak, held);
    }
    let served = service.at_least(ticks.saturating_sub(2));
    let peak = higher(peak, ticks, most.saturating_sub(served));
    (peak, peak.height.saturating_add(served))
}

/// The peak with this height at so many ticks, where it is above that so far.
fn higher(peak: Peak, ticks: u32, height: u64) -> Peak
    ensures { result ≡ higher peak ticks height }
{
    if peak.height < height {
        Peak { ticks, height }
    } else {
        peak
    }
}

/// Where `taken` leave the peak so far as it is: the peak with the delay that so many words need in so many ticks, where
/// it is above that, and how many leave it so from here on.
#[inline(always)]
fn later<S: ServiceBound>(service: &S, peak: Peak, taken: u64, ticks: u32, most: u64) -> (Peak, u64)
    requires some { 1 ≤ ticks }
    requires short { ticks ≤ LONGEST_WINDOW }
    requires low { peak.height ≤ LONGEST_WINDOW + 1 }
    ensures peak { (peak.height ≤ LONGEST_WINDOW → taken ≤ S.floor service.now (ticks - 1 + peak.height))
        → result.0 ≡ higher peak ticks (needed (λ _. most) (S.floor service.now) ticks) }
    ensures taken { (peak.height ≤ LONGEST_WINDOW → taken ≤ S.floor service.now (ticks - 1 + peak.height))
        → result.0.height ≤ LONGEST_WINDOW → result.1 ≤ S.floor service.now (ticks - 1 + result.0.height) }
    ensures low { result.0.height ≤ LONGEST_WINDOW + 1 }
{
    if most <= taken {
        return (peak, taken);
    }
    let served = in_time(service, peak, ticks);
    if most <= served {
        return (peak, served);
    }
    let height = u64::from(longer(service, ticks, peak.height as u32, most));
    (Peak { ticks, height }, most)
}

/// The least delay that so many words need in so many ticks, above one that is too short: found by halves of a bracket;
/// one above `LONGEST_WINDOW` where there is none up to it.
fn longer<S: ServiceBound>(service: &S, ticks: u32, delay: u32, most: u64) -> u32
    requires some { 1 ≤ ticks }
    requires short { ticks ≤ LONGEST_WINDOW }
    requires low { delay ≤ LONGEST_WINDOW }
    requires fails { S.floor service.now (ticks - 1 + delay) < most }
    ensures { result ≡ needed (λ _. most) (S.floor service.now) ticks }
{
    let (mut low, mut high) = bracket(service, ticks, delay, most);
    while low < high {
        let middle = low + (high - low) / 2;
        if service.at_least(ticks - 1 + middle) < most {
            low = middle + 1;
        } else {
            high = middle;
        }
    }
    high
}

/// Two delays, from the first to the second of which that least one lies: found by steps that double.
fn bracket<S: ServiceBound>(service: &S, ticks: u32, delay: u32, most: u64) -> (u32, u32)
    requires some { 1 ≤ ticks }
    requires short { ticks ≤ LONGEST_WINDOW }
    requires low { delay ≤ LONGEST_WINDOW }
    requires fails { S.floor service.now (ticks - 1 + delay) < most }
    ensures order { result.0 ≤ result.1 }
    ensures end { result.1 ≤ LONGEST_WINDOW + 1 }
    ensures too_few { (e : ℕ) → e < result.0 → S.floor service.now (ticks - 1 + e) < most }
    ensures enough { result.1 ≤ LONGEST_WINDOW → most ≤ S.floor service.now (ticks - 1 + result.1) }
{
    let mut short = delay;
    let mut step = 1;
    while short + step <= LONGEST_WINDOW {
        if service.at_least(ticks - 1 + short + step) >= most {
            return (short + 1, short + step);
        }
        short += step;
        step *= 2;
    }
    (short + 1, LONGEST_WINDOW + 1)
}
