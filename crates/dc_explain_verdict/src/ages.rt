//! Labels whose words may be too old: C10, C11 and C12.
use crate::labels::Aging;
use crate::servers::{Server, server_of};
use crate::teller::About;
use crate::ways::{tell_claim, tell_mended, tell_quicker};
use dc_check::Condition;
use dc_document::{GREATEST_AGE, LONGEST_STALE, Section};
use dc_find::Queue;
use dc_tell::Explanation;

/// The greatest `age` that tables may have.
const OLDEST: u64 = GREATEST_AGE as u64;

/// The longest `stale` that tables may have.
const STALEST: u64 = LONGEST_STALE as u64;

/// C10, C11, and both together where there is no certificate (F3): a word may be older than the certificate says, or that
/// lets it be older than the tables do.
pub(crate) fn tell_oldest(
    out: &mut Explanation,
    of: &About<'_>,
    code: &str,
    own: &Aging,
    condition: Condition,
) {
    let Some(server) = server_of(of.tables, of.certificate, Queue::Input(own.slowest.bus)) else {
        return;
    };
    let source = own.slowest.number as u64;
    let delay = own.slowest.delay;
    let least = own.stale.saturating_add(delay);
    of.begin_label(out, code, condition, own.number);
    of.say(
        out,
        &server,
        "a word of source `{stream 0}` may be {ticks 1} old when it leaves, {number 2} in the queue of bus `{name}` and {number 3} (`stale`) after it; the tables allow {number 4} (`age`)",
        &[source, least, delay, own.stale, own.limit],
    );
    if code != "F3" {
        of.say(
            out,
            &server,
            ", and the certificate has an age of {number 0}",
            &[own.age],
        );
    }
    if least > own.limit {
        return tell_limit_ways(out, of, own, &server, least);
    }
    of.tell_place(out, true, Section::Label, own.number, "age");
    of.say(
        out,
        &server,
        "\nhelp: write an `age` of {span 0}",
        &[least, own.limit],
    );
}

/// Tells what helps where the oldest word is over the limit of the tables, by the bus that delays it longest: what changes
/// no other promise before more steps.
fn tell_limit_ways(
    out: &mut Explanation,
    of: &About<'_>,
    own: &Aging,
    server: &Server,
    least: u64,
) {
    let most = own.limit.saturating_sub(own.stale);
    let shortest = own.rarest.silence;
    let longest = own.limit.saturating_sub(own.slowest.delay);
    let claimed = tell_mended(out, of, server, most, own.number, "age");
    let is_claimed = tell_claim(out, of, server, claimed, most);
    of.say_where(
        out,
        server,
        "\n{if 0}help: write a `stale` of {span 0}",
        &[shortest, longest],
        &[shortest <= longest],
    );
    if !is_claimed {
        tell_quicker(out, of, server, most);
    }
    of.say_where(
        out,
        server,
        "\n{if 0}weaker: raise the `age` of the tables from {number 0} to {number 1}",
        &[own.limit, least],
        &[least <= OLDEST],
    );
}

/// Tells that a source that keeps sending may go stale, and where that is mended. The least delay that the certificate may
/// claim of its bus.
fn tell_silence(
    out: &mut Explanation,
    of: &About<'_>,
    code: &str,
    own: &Aging,
    server: &Server,
) -> u64 {
    let source = own.rarest.number as u64;
    let (silence, delay) = (own.rarest.silence, own.rarest.delay);
    let longest = own.rarest.maximum;
    let most = own.stale.saturating_sub(longest);
    of.begin_label(out, code, Condition::SourceGoesStale, own.number);
    of.say(
        out,
        server,
        "its source `{stream 0}` may bring no word to the router for {ticks 1}, {number 2} on bus `{name}` and {number 3} in the queue; a word is fresh for {number 4} (`stale`)",
        &[source, silence, longest, delay, own.stale],
    );
    tell_mended(out, of, server, most, own.number, "stale")
}

/// C12: a source that keeps sending may go stale.
pub(crate) fn tell_stale(out: &mut Explanation, of: &About<'_>, code: &str, own: &Aging) {
    let Some(server) = server_of(of.tables, of.certificate, Queue::Input(own.rarest.bus)) else {
        return;
    };
    let longest = own.rarest.maximum;
    let most = own.stale.saturating_sub(longest);
    let tick = of.tables.tick_us() as u64;
    let claimed = tell_silence(out, of, code, own, &server);
    of.say(
        out,
        &server,
        "\nnote: {number 0} is `max_us` of the source's parameter in ticks of {number 1} microseconds, rounded up",
        &[longest, tick],
    );
    let is_claimed = tell_claim(out, of, &server, claimed, most);
    tell_stale_ways(out, of, own, &server, if is_claimed { 0 } else { most });
}

/// The least `stale` with which a source of a label does not go stale, where one does and words keep the `age` of the tables
/// with it; 0 of another label.
pub(crate) fn wanted_stale(own: &Aging) -> u64 {
    let wanted = own.rarest.silence;
    let age = wanted.saturating_add(own.slowest.delay);
    if wanted > own.stale && wanted <= STALEST && age <= own.limit {
        wanted
    } else {
        0
    }
}

/// C12 of one label more whose source may go stale, behind the first that is mended by a longer `stale` too: that alone.
pub(crate) fn tell_stale_again(out: &mut Explanation, of: &About<'_>, own: &Aging) {
    let Some(server) = server_of(of.tables, of.certificate, Queue::Input(own.rarest.bus)) else {
        return;
    };
    let longest = own.limit.saturating_sub(own.slowest.delay).min(STALEST);
    tell_silence(out, of, "F3", own, &server);
    of.say(
        out,
        &server,
        "\nhelp: write a `stale` of {span 0}; what else would do is told of the first such label",
        &[own.rarest.silence, longest],
    );
}

/// The least ticks from `min_us` to `max_us` with which a label of the same parameter has an interval, whatever is rounded.
const SPREAD: u64 = 3;

/// Tells what else helps where a source may go stale: a longer stale, with what this asks of the age, words that come more
/// often, or more steps, where the queue is to have a delay of at most so many ticks. More steps are promised of code that
/// a reader may not be able to change, so they stand behind what he can.
fn tell_stale_ways(out: &mut Explanation, of: &About<'_>, own: &Aging, server: &Server, most: u64) {
    let source = own.rarest.number as u64;
    let left = own.stale.saturating_sub(own.rarest.delay);
    let interval = left.saturating_mul(of.tables.tick_us() as u64);
    let spread = own.rarest.minimum.saturating_add(SPREAD);
    let wanted = own.rarest.silence;
    let age = wanted.saturating_add(own.slowest.delay);
    let longest = own.limit.saturating_sub(own.slowest.delay).min(STALEST);
    let is_short = wanted <= STALEST;
    let is_kept = age <= own.limit;
    of.say_where(
        out,
        server,
        "\n{if 0}help: write a `stale` of {span 0}, with which words keep the `age` of the tables, {number 2}\n{if 1}asked: write a `max_us` of at most {number 3} microseconds in the parameter of `{stream 4}`; each label with the same `label` and `equipment` is then to be sent as often (C09)",
        &[wanted, longest, own.limit, interval, source],
        &[is_short && is_kept, left >= spread],
    );
    tell_quicker(out, of, server, most);
    of.say_where(
        out,
        server,
        "\n{if 0}weaker: write a `stale` of {ticks 0}, and raise the `age` of the tables from {number 1} to {number 2}: words may then be so old",
        &[wanted, own.limit, age],
        &[is_short && !is_kept],
    );
}
