//! Routers and outputs that could never make the steps that they are to make.
use dc_explain_text::Refused;
use dc_tell::Explanation;

/// The most steps, and the longest time in ticks.
const MOST: u64 = 1_000;

/// The longest tick, in microseconds.
const LONGEST: u64 = 10_000;

/// A number divided by another, rounded up; that number where the other is 0.
fn parts(number: u64, by: u64) -> u64 {
    if by == 0 { number } else { number.div_ceil(by) }
}

/// A number divided by another, rounded down; that number where the other is 0.
fn times(number: u64, by: u64) -> u64 {
    if by == 0 { number } else { number / by }
}

/// Tells of a router that makes more steps in its ticks than it may.
pub(crate) fn tell_router(out: &mut Explanation, refused: &Refused<'_>) -> bool {
    let row = refused.row;
    let steps = refused.count(row, "steps");
    let within = refused.count(row, "within");
    let most = refused.count(row, "most");
    let room = most.saturating_mul(within);
    let (more, longer) = (parts(steps, within), parts(steps, most));
    refused.fill_where(
        out,
        "{row} must make at least {steps 0} within {ticks 1}, and with its `most` of {number 2} a tick it can make {number 3} in that time{place own steps}\n{if 0}help: write a `most` of {number 4} or more (line {line own most})\nhelp: write `steps` of {number 3} or less; this weakens what is promised: the router makes fewer steps\n{if 1}help: write a `within` of {number 5} or more; this weakens what is promised: the router makes them in a longer time\nnote: these numbers satisfy this rule alone: `dc429 find TABLES` then tells whether they are enough",
        &[],
        &[steps, within, most, room, more, longer],
        &[more <= MOST, longer <= MOST],
    );
    true
}

/// The least time from one word of an output to the next, in microseconds.
fn spacing(is_low: bool) -> u64 {
    if is_low { 3_050 } else { 365 }
}

/// The shortest tick in which an output makes so many steps within so many ticks; over the longest where none does.
fn tick_for(steps: u64, within: u64, is_low: bool) -> u64 {
    let ticks = times(within, steps);
    if ticks == 0 {
        u64::MAX
    } else {
        parts(spacing(is_low), ticks)
    }
}

/// Writes which changes let an output make so many steps within so many ticks, where its words are so many ticks apart or
/// more: first a longer time for the same words, since a bus has the speed that it has.
fn tell_paces(
    out: &mut Explanation,
    refused: &Refused<'_>,
    steps: u64,
    within: u64,
    gap: u64,
    is_low: bool,
) {
    let quick = steps.saturating_mul(parts(spacing(false), refused.count(0, "tick_us")));
    let (longer, fewer) = (steps.saturating_mul(gap), times(within, gap));
    let tick = tick_for(steps, within, is_low);
    refused.fill_where(
        out,
        "\n{if 0}help: write a `within` of {number 2} or more; this weakens what is promised: the output sends them in a longer time\n{if 1}help: write `speed = \"high\"` (line {line own speed}), where the bus is of that speed\n{if 2}help: write a `tick_us` of {number 0} or more (line {line 0 tick_us}), where ticks are so long: all that the tables count in ticks is then longer\n{if 3}help: write `steps` of {number 1} or less (line {line own steps}); this weakens what is promised: the output sends fewer words\nnote: these numbers satisfy this rule alone: `dc429 find TABLES` then tells whether they are enough",
        &[0],
        &[tick, fewer, longer],
        &[
            longer <= MOST,
            is_low && quick <= within,
            tick <= LONGEST,
            fewer >= 1,
        ],
    );
}

/// Tells of an output that its wire lets send less than it is to.
pub(crate) fn tell_output(out: &mut Explanation, refused: &Refused<'_>) -> bool {
    let row = refused.row;
    let steps = refused.count(row, "steps");
    let within = refused.count(row, "within");
    let tick = refused.count(0, "tick_us");
    let is_low = refused.layout.value(row, "speed") == b"low".as_slice();
    let apart = spacing(is_low);
    let gap = parts(apart, tick);
    let taken = steps.saturating_mul(gap);
    refused.fill_where(
        out,
        "{row} must send at least {words 0} within {ticks 1}, and its wire takes {ticks 2} for them{place own within}\nnote: at {at own speed} speed words are sent {number 3} microseconds apart or more, with ticks of {number 4} at least {ticks 5}: {number 0} x {number 5} makes {number 2}",
        &[],
        &[steps, within, taken, apart, tick, gap],
        &[],
    );
    tell_paces(out, refused, steps, within, gap, is_low);
    true
}
