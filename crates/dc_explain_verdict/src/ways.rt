//! What helps. What keeps the design is told first, then what is asked of sources, then what weakens a promise.
use crate::servers::{Server, sibling_of};
use crate::steps::{ANY_WINDOW, Other, Wish, least, least_delay_of, waiting_with};
use crate::teller::About;
use dc_document::Section;
use dc_tell::Explanation;

/// What is wished, as a sentence goes on with it, and its number.
fn wished(wish: &Wish) -> (&'static str, u64) {
    if wish.delay < ANY_WINDOW.delay {
        return (" for none to wait longer than {ticks 0}", wish.delay);
    }
    if wish.waiting < ANY_WINDOW.waiting {
        return (" for no more than {number 0} to wait", wish.waiting);
    }
    match wish.window {
        None => (" for a window to close", 0),
        Some(window) => (" for a window of {ticks 0} to close", window as u64),
    }
}

/// Tells how many steps would be enough for what is wished, with what they want beside them: a router that may not make
/// as many in a tick is to be let, and a queue that is too short then is to be longer. That none are enough is told where
/// nothing was that helps.
pub(crate) fn tell_steps(out: &mut Explanation, of: &About<'_>, server: &Server, wish: &Wish) {
    let (words, number) = wished(wish);
    let Some(steps) = least(of.tables, server, Other::Steps, wish) else {
        if !out.is_helped() {
            of.say(
                out,
                server,
                "\nnote: `steps` of {by} `{server}` alone do not mend it: even {number 0} in {ticks 1}, the most that it may have, are too few",
                &[server.limit as u64, server.within as u64],
            );
            of.say(out, server, words, &[number]);
        }
        return;
    };
    let waiting = waiting_with(of.tables, server, steps, wish.window);
    let most = steps.div_ceil(server.within.max(1));
    of.say(
        out,
        server,
        "\nhelp: give {by} `{server}` `steps` of at least {number 0} in place of {number 1}",
        &[steps as u64, server.steps as u64],
    );
    of.say(out, server, words, &[number]);
    of.say_where(
        out,
        server,
        "\n{if 0}note: with {number 0} steps router `{server}` wants a `most` of at least {number 1} too\n{if 1}note: with {number 0} steps {words 2} may still wait, and the `queue` of bus `{name}` holds {number 3}: make it so long too",
        &[steps as u64, most as u64, waiting, server.room],
        &[most > server.most, server.is_bus && waiting > server.room],
    );
}

/// Shows where a label is mended: in the certificate at a queue where that may claim a delay of at most so many ticks, else
/// in the tables at a key of the label. The least delay that it may claim.
pub(crate) fn tell_mended(
    out: &mut Explanation,
    of: &About<'_>,
    server: &Server,
    most: u64,
    label: usize,
    key: &str,
) -> u64 {
    let claimed = least_delay_of(of.tables, server);
    if claimed <= most {
        of.tell_own(out, server, true, "delay");
    } else {
        of.tell_place(out, false, Section::Label, label, key);
    }
    claimed
}

/// Tells that the certificate may claim a delay of a queue from so many ticks on, where it is to be at most so many. Whether
/// that helps.
pub(crate) fn tell_claim(
    out: &mut Explanation,
    of: &About<'_>,
    server: &Server,
    claimed: u64,
    most: u64,
) -> bool {
    of.say_where(
        out,
        server,
        "\n{if 0}help: write a `delay` of {span 0} for {queue} `{name}`",
        &[claimed, most],
        &[claimed <= most],
    );
    claimed <= most
}

/// Tells by which `within`, or by how many steps, a queue would have a delay of at most so many ticks; nothing where it would
/// have to be none, since whatever waits does so for a tick.
pub(crate) fn tell_quicker(out: &mut Explanation, of: &About<'_>, server: &Server, most: u64) {
    if most != 0 {
        let wish = Wish {
            delay: most,
            ..ANY_WINDOW
        };
        tell_within(out, of, server, &wish);
        tell_steps(out, of, server, &wish);
    }
}

/// Tells at what pace a queue is served, of which no window closes.
fn tell_pace(out: &mut Explanation, of: &About<'_>, server: &Server) {
    let steps = server.steps as u64;
    let sentence = if server.is_bus {
        "\nnote: router `{server}` makes at least {steps 0} in each {ticks 1}; of its `visits`, {number 2} in all, bus `{name}` has {number 3}: so {taken 4} surely taken in each {ticks 5}, and a window closes only where less comes in the long run: as much is too much"
    } else {
        "\nnote: output `{name}` sends at least {words 0} in each {ticks 1}, and its `frame` of {ticks 5} has {words 2}: a window closes only where less falls due in the long run: as much is too much"
    };
    of.say(
        out,
        server,
        sentence,
        &[
            steps,
            server.within as u64,
            server.all,
            server.own,
            steps.saturating_mul(server.own),
            server.round as u64,
        ],
    );
    if server.is_bus {
        of.tell_place(out, false, Section::Router, server.by, "steps");
    }
}

/// Tells which `within` would be enough for what is wished. Whether one would.
fn tell_within(out: &mut Explanation, of: &About<'_>, server: &Server, wish: &Wish) -> bool {
    let (words, number) = wished(wish);
    let Some(less) = least(of.tables, server, Other::Less, wish) else {
        return false;
    };
    let longest = server.within.saturating_sub(less);
    of.say(
        out,
        server,
        "\nhelp: give {by} `{server}` a `within` of {range 0} in place of {number 2} ticks",
        &[server.shortest as u64, longest as u64, server.within as u64],
    );
    of.say(out, server, words, &[number]);
    true
}

/// Tells which `within` would let a window close, and who else has a shorter one.
fn tell_closing(out: &mut Explanation, of: &About<'_>, server: &Server) {
    if !tell_within(out, of, server, &ANY_WINDOW) {
        return;
    }
    let (number, within) = sibling_of(of.tables, server).unwrap_or((server.by, server.within));
    of.say_where(
        out,
        server,
        ": the shorter it is, the shorter is every delay, and the more of the other rules hold too\n{if 0}note: {by} `{other 1}` has a `within` of {number 2}",
        &[0, number as u64, within as u64],
        &[number != server.by],
    );
}

/// Tells what helps a queue of which no window closes: of a bus, more visits only where its router has others, and fewer
/// streams only where it has some.
pub(crate) fn tell_never_ways(out: &mut Explanation, of: &About<'_>, server: &Server) {
    tell_pace(out, of, server);
    tell_closing(out, of, server);
    tell_steps(out, of, server, &ANY_WINDOW);
    let minimum = least(of.tables, server, Other::Minimum, &ANY_WINDOW).unwrap_or(0);
    let interval = (minimum as u64).saturating_mul(of.tables.tick_us() as u64);
    let is_bus = server.is_bus;
    of.say_where(
        out,
        server,
        "\n{if 0}help: let router `{server}` visit bus `{name}` more often, if its other buses can spare it: its `steps` are shared out by `visits`\n{if 1}asked: let words come less often on bus `{name}`, by a `min_us` of at least {number 0} microseconds (and a `max_us` that is not less) in the parameter of each of its streams\n{if 2}weaker: bring fewer streams on bus `{name}`\n{if 3}weaker: send its labels less often, by a longer `frame` or fewer `offsets`",
        &[interval],
        &[
            is_bus && server.own < server.all,
            is_bus && minimum > 0,
            is_bus && server.streams > 1,
            !is_bus,
        ],
    );
}
