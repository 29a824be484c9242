//! Intervals that do not go together with one another, or with the tick.
use crate::related::parameter_of;
use dc_explain_text::{Refused, number};
use dc_tell::Explanation;

/// The shortest tick, in microseconds.
const SHORTEST: u64 = 100;

/// The longest tick, in microseconds.
const LONGEST: u64 = 10_000;

/// The longest interval, in microseconds.
const LONGEST_US: u64 = 60_000_000;

/// Tells that the least interval is over the greatest.
pub(crate) fn tell_reversed(out: &mut Explanation, refused: &Refused<'_>) -> bool {
    refused.fill(
        out,
        "`min_us` of {row} is {count own min_us}, more than its `max_us` of {count own max_us}{place own min_us}\nhelp: mend the one that is mistyped, or exchange the two (line {line own max_us}): `min_us` is the least time between two words of the label, `max_us` the greatest, both in microseconds",
        &[],
    );
    true
}

/// Tells of a stream whose words may come within one tick, by its parameter and the least interval of that.
fn tell_quick(
    out: &mut Explanation,
    refused: &Refused<'_>,
    parameter: usize,
    least: u64,
    tick: u64,
) {
    let millis = least.saturating_mul(1_000);
    refused.fill_where(
        out,
        "{row} may bring a word every {number 0} microseconds, less than one tick: the `min_us` of {row 0} is {number 0}, and `tick_us` is {number 1}{place 0 min_us}\nnote: {row} is here{place own label}\n{if 0}help: `min_us` counts microseconds: write {number 2}, where {number 0} milliseconds are meant\n{if 1}help: write `tick_us = {number 0}` or less (line {line 1 tick_us}; {number 3} at least)\nhelp: write a `min_us` of {number 1} or more in this parameter, where its words do come no sooner (no tick is shorter than {number 3} microseconds)",
        &[parameter, 0],
        &[least, tick, millis, SHORTEST],
        &[least < SHORTEST && tick <= millis, least >= SHORTEST],
    );
}

/// The fewest ticks between two words that are sent, for a tick of this length.
fn fewest(least: u64, tick: u64) -> u64 {
    if tick == 0 {
        return u64::MAX;
    }
    least.div_ceil(tick).saturating_add(1)
}

/// The most ticks between two words that are sent, for a tick of this length.
fn most(greatest: u64, tick: u64) -> u64 {
    if tick == 0 {
        return 0;
    }
    (greatest / tick).saturating_sub(1)
}

/// The longest tick that leaves an interval; 0 where none does.
fn longest_tick(least: u64, greatest: u64) -> u64 {
    let mut longest = 0u64;
    for tick in SHORTEST..LONGEST.saturating_add(1) {
        if fewest(least, tick) <= most(greatest, tick) {
            longest = tick;
        }
    }
    longest
}

/// How many ticks after an entry of the label with the fault its next one comes.
fn gap_behind(refused: &Refused<'_>, offset: u64, frame: u64) -> u64 {
    let mut gap = frame;
    for member in refused.layout.members(refused.row, "offsets") {
        let other = number(refused.layout.piece(*member)).unwrap_or(0);
        let next = if other > offset {
            other
        } else {
            other.saturating_add(frame)
        };
        gap = gap.min(next.saturating_sub(offset));
    }
    gap
}

/// How many ticks after one another the words of the label with the fault may leave, at least and at most: its output
/// sends one entry as soon as it may and the other as late.
fn sent_apart(refused: &Refused<'_>) -> (u64, u64) {
    let output = refused.parent(refused.row);
    let frame = refused.count(output, "frame");
    let (mut least, mut greatest) = (frame, 0u64);
    for member in refused.layout.members(refused.row, "offsets") {
        let offset = number(refused.layout.piece(*member)).unwrap_or(0);
        let gap = gap_behind(refused, offset, frame);
        least = least.min(gap);
        greatest = greatest.max(gap);
    }
    let late = refused.count(output, "within");
    (least.saturating_sub(late), greatest.saturating_add(late))
}

/// Tells of a label that no whole number of ticks serves, by its parameter and the least interval of that, and which changes
/// leave an interval that the label's own offsets keep.
fn tell_narrow(
    out: &mut Explanation,
    refused: &Refused<'_>,
    parameter: usize,
    least: u64,
    tick: u64,
) {
    let greatest = refused.count(parameter, "max_us");
    let (low, high) = (fewest(least, tick), most(greatest, tick));
    let (soonest, latest) = sent_apart(refused);
    let minimum = soonest.saturating_sub(1).saturating_mul(tick);
    let maximum = latest.saturating_add(1).saturating_mul(tick);
    let longest = longest_tick(least, greatest);
    refused.fill_where(
        out,
        "{row} cannot be sent every {number 0} to {number 1} microseconds, as {row 0} wants, in ticks of {number 2}: it would have at least {number 3} and at most {number 4} ticks between two words{place 0 min_us}\nnote: the fewest are `min_us / tick_us` rounded up, and one more: {number 0} / {number 2} gives {number 3}\nnote: the most are `max_us / tick_us` rounded down, less one: {number 1} / {number 2} gives {number 4}\nnote: {row} is here{place own label}\nnote: by its `offsets`, and the `within` of its output, its words may leave {number 5} to {number 6} ticks apart\n{if 0}help: write a `tick_us` of {number 7} or less (line {line 1 tick_us}), if that is mistyped: all that the tables count in ticks, `within`, `frame`, `offsets`, `stale` and `age`, is then of these\n{if 1}help: write a `min_us` of {number 8} or less (line {line 0 min_us}) for that: words may then come and be sent sooner after one another\n{if 2}help: write a `max_us` of {number 9} or more (line {line 0 max_us}) for that; this weakens what is promised: words may be further apart\n{if 3}note: no tick serves this label with this `min_us` and `max_us`\nnote: these numbers satisfy this rule alone: `dc429 find TABLES` then tells whether they are enough",
        &[parameter, 0],
        &[
            least, greatest, tick, low, high, soonest, latest, longest, minimum, maximum,
        ],
        &[
            longest != 0,
            least > minimum && minimum >= 1,
            greatest < maximum && maximum <= LONGEST_US,
            longest == 0,
        ],
    );
}

/// Tells of a stream or a label by its parameter, where it has one.
pub(crate) fn tell_interval(out: &mut Explanation, refused: &Refused<'_>, is_stream: bool) -> bool {
    let Some(parameter) = parameter_of(refused, refused.row) else {
        return false;
    };
    let least = refused.count(parameter, "min_us");
    let tick = refused.count(0, "tick_us");
    if is_stream {
        tell_quick(out, refused, parameter, least, tick);
    } else {
        tell_narrow(out, refused, parameter, least, tick);
    }
    true
}
