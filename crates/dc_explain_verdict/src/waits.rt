//! What is wrong with the window, the backlog or the delay of a queue: C02 to C07.
use crate::servers::{Server, begin_counts, tell_terms};
use crate::steps::{ANY_WINDOW, Wish, closing_of};
use crate::teller::About;
use crate::ways::{tell_never_ways, tell_steps};
use dc_bound::GREATEST_QUEUE;
use dc_busy::LONGEST_WINDOW;
use dc_tell::Explanation;

/// The longest window, and the longest delay.
const LONGEST: u64 = LONGEST_WINDOW as u64;

/// How many words the longest queue holds.
const GREATEST: u64 = GREATEST_QUEUE as u64;

/// What it is that a window closes.
const CLOSES: &str =
    "\nnote: a window closes where all that may come in it is surely served by its end, so that the queue is empty again";

/// Ends a sentence by the least window that closes, or by that there is none, and tells what helps. Whether there is one.
fn tell_least_window(out: &mut Explanation, of: &About<'_>, server: &Server) -> bool {
    let Some(closing) = closing_of(of.tables, server, None) else {
        of.say(
            out,
            server,
            "; no window up to {ticks 0} closes",
            &[LONGEST],
        );
        of.tell_own(out, server, false, "");
        of.say(out, server, CLOSES, &[]);
        tell_never_ways(out, of, server);
        return false;
    };
    let window = closing.window as u64;
    of.say(
        out,
        server,
        "; the least that closes is {ticks 0}",
        &[window],
    );
    of.tell_own(out, server, true, "window");
    of.say(out, server, CLOSES, &[]);
    of.say(
        out,
        server,
        "\nhelp: write a `window` of {ticks 0}",
        &[window],
    );
    true
}

/// C02 and C07: the window, or the delay, is out of its range.
pub(crate) fn tell_range(out: &mut Explanation, of: &About<'_>, server: &Server, is_window: bool) {
    let (code, sentence, claimed) = if is_window {
        (
            "C02",
            "{queue} `{name}`: the certificate has a window of {ticks 0}, which is outside {range 1}",
            server.window as u64,
        )
    } else {
        (
            "C07",
            "{queue} `{name}`: the certificate has a delay of {ticks 0}, which is outside {range 1}",
            server.delay as u64,
        )
    };
    out.begin(code);
    of.say(out, server, sentence, &[claimed, 1, LONGEST]);
    let own = closing_of(of.tables, server, Some(server.window));
    match own.or(closing_of(of.tables, server, None)) {
        Some(closing) if !is_window => {
            of.tell_own(out, server, true, "delay");
            tell_delay_way(out, of, server, closing.peaks.delay.height)
        }
        _ => {
            tell_least_window(out, of, server);
        }
    }
}

/// Tells the least delay that would be accepted, where there is one.
fn tell_delay_way(out: &mut Explanation, of: &About<'_>, server: &Server, least: u64) {
    of.say_where(
        out,
        server,
        "\n{if 0}note: no `delay` up to {ticks 1} is enough\n{if 1}help: write a `delay` of {ticks 0}, the least that is enough: the shorter it is, the more of C08 to C12 hold",
        &[least, LONGEST],
        &[least > LONGEST, least <= LONGEST],
    );
}

/// C03: the window does not close.
pub(crate) fn tell_open_window(out: &mut Explanation, of: &About<'_>, server: &Server) {
    let window = server.window;
    let whole = window.saturating_sub(1);
    let left = begin_counts(out, of, "C03", server, (window, window), whole);
    of.say(
        out,
        server,
        ": a window of {ticks 0} does not close, {words 1} may be left",
        &[window as u64, left],
    );
    if tell_least_window(out, of, server) {
        let wish = Wish {
            window: Some(window),
            ..ANY_WINDOW
        };
        tell_steps(out, of, server, &wish);
    }
    tell_terms(out, of, server, true, (0, 0));
}

/// C04: more may wait than the backlog says; `first` is the first tick by which it is so.
pub(crate) fn tell_backlog(out: &mut Explanation, of: &About<'_>, server: &Server, first: u32) {
    let Some(closing) = closing_of(of.tables, server, Some(server.window)) else {
        return;
    };
    let (least, by) = (closing.peaks.backlog.height, closing.peaks.backlog.ticks);
    let is_claimed = least <= server.room;
    begin_counts(out, of, "C04", server, (by, by), by.saturating_sub(2));
    of.say(
        out,
        server,
        ": {number 0} may wait, and the certificate lets {number 1} wait",
        &[least, server.backlog],
    );
    of.tell_own(out, server, is_claimed, "backlog");
    tell_terms(out, of, server, true, (first, by));
    of.say_where(
        out,
        server,
        "\n{if 0}help: write a `backlog` of at least {number 0}",
        &[least],
        &[is_claimed],
    );
    let wish = Wish {
        window: Some(server.window),
        waiting: server.backlog,
        ..ANY_WINDOW
    };
    tell_steps(out, of, server, &wish);
    if !is_claimed {
        tell_longer_queue(out, of, server, least);
    }
}

/// Tells how long the queue of a bus would have to be, or that none is long enough.
fn tell_longer_queue(out: &mut Explanation, of: &About<'_>, server: &Server, least: u64) {
    of.say_where(
        out,
        server,
        "\n{if 0}note: no `queue` is long enough: the longest holds {number 0} words\n{if 1}help: make the `queue` of bus `{name}` at least {words 1} long, where it has {number 2}: that costs memory alone",
        &[GREATEST, least, server.room],
        &[least > GREATEST, least <= GREATEST],
    );
}

/// C05: the backlog is over the room of the queue.
pub(crate) fn tell_room(out: &mut Explanation, of: &About<'_>, server: &Server) {
    let Some(closing) = closing_of(of.tables, server, Some(server.window)) else {
        return;
    };
    let least = closing.peaks.backlog.height;
    let is_room = least <= server.room;
    out.begin("C05");
    of.say(
        out,
        server,
        "input `{name}`: the certificate lets {words 0} wait, and the queue of bus `{name}` holds {number 1}",
        &[server.backlog, server.room],
    );
    of.tell_own(out, server, is_room, "backlog");
    of.say_where(
        out,
        server,
        "\n{if 0}help: write a `backlog` of {range 0}: no more than {number 0} ever wait",
        &[least, server.room],
        &[is_room],
    );
    if !is_room {
        tell_room_ways(out, of, server, least);
    }
}

/// Tells what helps where more may wait than the queue of a bus holds.
pub(crate) fn tell_room_ways(out: &mut Explanation, of: &About<'_>, server: &Server, least: u64) {
    let wish = Wish {
        waiting: server.room,
        ..ANY_WINDOW
    };
    tell_steps(out, of, server, &wish);
    of.say_where(
        out,
        server,
        "\n{if 0}asked: write a smaller `jitter_us` for the streams of bus `{name}`",
        &[],
        &[server.jitter > 0],
    );
    tell_longer_queue(out, of, server, least);
}

/// C06: a word may wait longer than the delay says; `first` is the first tick by which it is so.
pub(crate) fn tell_delay(out: &mut Explanation, of: &About<'_>, server: &Server, first: u32) {
    let Some(closing) = closing_of(of.tables, server, Some(server.window)) else {
        return;
    };
    let (least, from) = (closing.peaks.delay.height, closing.peaks.delay.ticks);
    let by = from.saturating_add(server.delay);
    begin_counts(out, of, "C06", server, (from, by), by.saturating_sub(1));
    of.say(
        out,
        server,
        "; the certificate has a delay of {ticks 0}",
        &[server.delay as u64],
    );
    of.tell_own(out, server, true, "delay");
    tell_terms(out, of, server, true, (first, from));
    tell_delay_way(out, of, server, least);
    let wish = Wish {
        window: Some(server.window),
        delay: server.delay as u64,
        ..ANY_WINDOW
    };
    tell_steps(out, of, server, &wish);
}
