//! Labels that are sent too soon or too late: C08 and C09.
use crate::labels::Sending;
use crate::servers::{Server, server_of};
use crate::teller::About;
use crate::ways::{tell_claim, tell_mended, tell_quicker};
use dc_check::Condition;
use dc_document::LONGEST_INTERVAL_US;
use dc_find::Queue;
use dc_tables::Entry;
use dc_tell::Explanation;

/// What is told where words leave too soon: the sentence, what stands behind its place, and what helps besides.
const SOON: (&'static str, &'static str, &'static str) = (
    "its `offsets`, taken round the `frame`, lie as near as {ticks 0}, and output `{name}` may send the first {ticks 1} late: its words may leave {ticks 2} apart, and at least {number 3} are wanted",
    "\nnote: {number 0} is `min_us` of its parameter in ticks of {number 1} microseconds, rounded up, and one more: words may leave almost a tick less apart than their ticks are",
    "\n{if 0}weaker: give it a parameter with a `min_us` of at most {number 0} microseconds: add one with another `equipment`, and write that at the label; change the present one only if no stream and no other label has it, else their rules may fail next",
);

/// What is told where words leave too late, likewise.
const LATE: (&'static str, &'static str, &'static str) = (
    "its `offsets`, taken round the `frame`, lie as far apart as {ticks 0}, and output `{name}` may send the second {ticks 1} late: its words may leave {ticks 2} apart, and at most {number 3} are allowed",
    "\nnote: {number 0} is `max_us` of its parameter in whole ticks of {number 1} microseconds, less one: words may leave almost a tick more apart than their ticks are",
    "\n{if 0}weaker: give it a parameter with a `max_us` of at least {number 0} microseconds: add one with another `equipment`, and write that at the label; change the present one only if no stream and no other label has it, else their rules may fail next",
);

/// How far apart its entries would have to lie, and in what frames they do, for a label to be sent neither too soon nor too
/// late.
#[derive(Clone, Copy)]
struct Apart {
    /// The numbers, in the order of the holes of what is told.
    numbers: [u64; 9],
    /// Whether some distance is enough.
    is_enough: bool,
    /// Whether its frame has room for its entries so far apart.
    is_room: bool,
    /// Whether some other number of entries has room in it.
    is_other: bool,
}

/// How far apart the entries of a label would have to lie.
fn apart_of(own: &Sending) -> Apart {
    let least = own.minimum.saturating_add(own.delay);
    let most = own.maximum.saturating_sub(own.delay);
    let shortest = least.saturating_mul(own.entries);
    let longest = most.saturating_mul(own.entries);
    let fewest = own.frame.div_ceil(most.max(1));
    let many = own.frame / least.max(1);
    Apart {
        numbers: [
            least,
            most,
            shortest,
            longest,
            own.entries,
            fewest,
            many,
            own.frame,
            own.delay,
        ],
        is_enough: least <= most,
        is_room: shortest <= own.frame && own.frame <= longest,
        is_other: 1 <= fewest && fewest <= many,
    }
}

/// Tells how far its entries would have to lie apart in the frame that there is; that no distance is enough only where
/// nothing that helps was told.
fn tell_gaps(out: &mut Explanation, of: &About<'_>, server: &Server, apart: &Apart) {
    let is_helped = out.is_helped();
    of.say_where(
        out,
        server,
        "\n{if 0}help: place its `offsets` {span 0} apart, the last and the first round the `frame` too\n{if 1}help: write {range 5} `offsets` {span 0} apart into the frame of {ticks 7}, where it has {number 4}\n{if 2}note: no `offsets` are enough where output `{name}` may be {ticks 8} late: they would have to lie at least {number 0} apart, and at most {number 1}",
        &apart.numbers,
        &[
            apart.is_enough && apart.is_room,
            apart.is_enough && !apart.is_room && apart.is_other,
            !apart.is_enough && !is_helped,
        ],
    );
}

/// Tells of a frame in which its entries have room, and whether others move with it.
fn tell_frame(
    out: &mut Explanation,
    of: &About<'_>,
    server: &Server,
    apart: &Apart,
    is_alone: bool,
) {
    if apart.is_enough && !apart.is_room {
        of.say(
            out,
            server,
            "\nhelp: its `offsets` are to lie {span 0} apart, the last and the first round the `frame` too: with {number 4} of them choose a `frame` of {span 2}",
            &apart.numbers,
        );
        if !is_alone {
            out.add(", which moves all labels of the output");
        }
    }
}

/// How many ticks of a frame an entry lies before another one, which comes round the frame where it stands before.
fn ticks_to(one: &Entry, other: &Entry, frame: u64) -> u64 {
    let (first, last) = (one.offset as u64, other.offset as u64);
    if last > first {
        last.saturating_sub(first)
    } else {
        last.saturating_add(frame).saturating_sub(first)
    }
}

/// The two nearest of these entries with so many steps of the output from one to the other, and how far apart they lie.
fn nearest_of(entries: &[Entry], steps: usize, frame: u64) -> Option<(Entry, Entry, u64)> {
    let mut found: Option<(Entry, Entry, u64)> = None;
    for (number, one) in entries.iter().enumerate() {
        let next = number.saturating_add(steps);
        let place = next.checked_rem(entries.len()).unwrap_or(0);
        let Some(other) = entries.get(place) else {
            continue;
        };
        let apart = ticks_to(one, other, frame);
        let is_nearer = match found {
            Some((_, _, least)) => apart < least,
            None => true,
        };
        if is_nearer {
            found = Some((*one, *other, apart));
        }
    }
    found
}

/// Tells which entries lie so near that one of them waits for the others, where none would wait for more than so many ticks
/// if they did not.
fn tell_crowd(out: &mut Explanation, of: &About<'_>, server: &Server, frame: u64, most: u64) {
    if server.number >= of.tables.output_count() {
        return;
    }
    let output = of.tables.output(server.number);
    let entries = output.entries.as_slice();
    let (steps, within) = (server.steps as usize, server.within as u64);
    if steps >= entries.len() || within > most {
        return;
    }
    let Some((one, other, apart)) = nearest_of(entries, steps, frame) else {
        return;
    };
    of.say_where(
        out,
        server,
        "\n{if 0}help: let no {number 0} entries of output `{name}` lie within {ticks 1}, as those from `{label 2}` at {number 3} to `{label 4}` at {number 5} of its `frame` do: it surely sends {words 6} in that time, and the last one waits",
        &[
            (server.steps as u64).saturating_add(1),
            within,
            one.label as u64,
            one.offset as u64,
            other.label as u64,
            other.offset as u64,
            server.steps as u64,
        ],
        &[apart < within],
    );
}

/// The longest interval that tables may have, in microseconds.
const LONGEST_US: u64 = LONGEST_INTERVAL_US as u64;

/// How far the offsets of a label lie apart that is sent too soon, or too late, and its words; how far these are to; and the
/// longest delay of its output with which they do, 0 where there is none.
fn gap_of(own: &Sending, is_soon: bool) -> (u64, u64, u64, u64) {
    if is_soon {
        let words = own.least_gap.saturating_sub(own.delay);
        let most = own.least_gap.saturating_sub(own.minimum);
        return (own.least_gap, words, own.minimum, most);
    }
    let words = own.greatest_gap.saturating_add(own.delay);
    let most = own.maximum.saturating_sub(own.greatest_gap);
    (own.greatest_gap, words, own.maximum, most)
}

/// Tells of another interval, where tables may have it: so many microseconds.
fn tell_interval(
    out: &mut Explanation,
    of: &About<'_>,
    server: &Server,
    sentence: &str,
    micros: u64,
) {
    of.say_where(
        out,
        server,
        sentence,
        &[micros],
        &[micros > 0 && micros <= LONGEST_US],
    );
}

/// C08 and C09: two words of the label may follow one another too soon, or too late.
pub(crate) fn tell_gap(
    out: &mut Explanation,
    of: &About<'_>,
    code: &str,
    own: &Sending,
    condition: Condition,
) {
    let Some(server) = server_of(of.tables, of.certificate, Queue::Output(own.output)) else {
        return;
    };
    let is_soon = matches!(condition, Condition::SentTooSoon);
    let (offsets, words, wanted, most) = gap_of(own, is_soon);
    let tick = of.tables.tick_us() as u64;
    let (sentence, note, interval) = if is_soon { SOON } else { LATE };
    of.begin_label(out, code, condition, own.number);
    of.say(out, &server, sentence, &[offsets, own.delay, words, wanted]);
    let claimed = tell_mended(out, of, &server, most, own.number, "offsets");
    of.say(out, &server, note, &[wanted, tick]);
    if !tell_claim(out, of, &server, claimed, most) {
        tell_crowd(out, of, &server, own.frame, most);
        tell_quicker(out, of, &server, most);
    }
    let apart = apart_of(own);
    tell_gaps(out, of, &server, &apart);
    let ticks = if is_soon {
        words.saturating_sub(1)
    } else {
        words.saturating_add(1)
    };
    let is_alone = server.all == own.entries;
    if is_alone {
        tell_frame(out, of, &server, &apart, is_alone);
    }
    tell_interval(out, of, &server, interval, ticks.saturating_mul(tick));
    if !is_alone {
        tell_frame(out, of, &server, &apart, is_alone);
    }
}
