//! What would let a queue keep its rules, where no certificate does.

use crate::time::TickLength;
use dc_bound::GREATEST_QUEUE;
use dc_explain_verdict::Mends;
use dc_find::Queue;
use dc_page_text::Hole::{Number, Thousandths, Times};
use dc_page_text::{Html, Unit};

/// Who serves a queue. The name of the router stands behind that of its bus.
fn server(queue: Queue) -> &'static str {
    match queue {
        Queue::Input(_) => "its router",
        Queue::Output(_) => "the output",
    }
}

/// Adds how many steps would do, with what they want beside them of a queue with this room.
fn push_steps(html: &mut Html, queue: Queue, mends: &Mends, room: u32) {
    let Some(more) = mends.more else {
        return;
    };
    html.put(
        "<li><code>steps</code> of at least {} in place of {} for ",
        &[Number(u64::from(more)), Number(u64::from(mends.steps))],
    );
    html.add(server(queue));
    if mends.more_most > mends.most {
        let most = Number(u64::from(mends.more_most));
        html.put(", and a <code>most</code> of at least {}", &[most]);
    }
    if mends.more_waiting > u64::from(room) {
        let waiting = Number(mends.more_waiting);
        html.put(", and a <code>queue</code> of at least {}", &[waiting]);
    }
    html.add("</li>\n")
}

/// Adds which other numbers would let a window close.
fn push_others(html: &mut Html, queue: Queue, mends: &Mends) {
    if let Some(within) = mends.shorter {
        let within = Times(Unit::Ticks, within as usize);
        let now = Number(u64::from(mends.within));
        html.put(
            "<li>a <code>within</code> of at most {} in place of {} for ",
            &[within, now],
        );
        html.add(server(queue));
        html.add("</li>\n")
    }
    if let Some(interval) = mends.interval_us {
        html.put(
            "<li>a <code>min_us</code> of at least {} <small>({} ms)</small> for each of its streams</li>\n",
            &[Number(interval), Thousandths(interval)],
        );
    }
}

/// Adds what would let a window close of a queue with this room, of an output with none.
pub fn push_closing(html: &mut Html, queue: Queue, mends: &Mends, room: u32) {
    html.add("<div class='todo'>What would close it, each by itself:<ul>\n");
    push_steps(html, queue, mends, room);
    push_others(html, queue, mends);
    html.add(match queue {
        Queue::Input(_) => "<li>fewer streams, or more of the router's visits</li>\n",
        Queue::Output(_) => "<li>a longer frame, or fewer entries in it</li>\n",
    });
    html.add("</ul></div>\n")
}

/// Adds at what pace a queue is served of which no window closes.
pub fn push_pace(html: &mut Html, queue: Queue, mends: &Mends, tick: TickLength) {
    html.add(" Surely ");
    html.add(server(queue));
    let steps = Number(u64::from(mends.steps));
    html.put(" makes {} ", &[steps]);
    html.add(if mends.steps == 1 {
        "step in each "
    } else {
        "steps in each "
    });
    html.show(tick.span(mends.within));
    html.add(match queue {
        Queue::Input(_) => ", shared out by its visits, which it goes through in ",
        Queue::Output(_) => ", and its frame comes again in ",
    });
    html.show(tick.span(mends.round));
    html.add(".")
}

/// Adds what would do for the queue of a bus in which so many words may wait.
pub fn push_longer(html: &mut Html, bus: usize, mends: &Mends, waiting: u32) {
    html.add("<div class='todo'>What would do, each by itself:<ul>\n");
    if waiting <= GREATEST_QUEUE {
        let waiting = Number(u64::from(waiting));
        html.put("<li>a <code>queue</code> of at least {}</li>\n", &[waiting]);
    }
    push_steps(html, Queue::Input(bus), mends, GREATEST_QUEUE);
    html.add("<li>less jitter of its streams, where they have some</li>\n</ul></div>\n")
}
