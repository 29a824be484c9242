//! Why no certificate is found.
ghost use Rattle.dc_find.specs.Ways.{IsFirstInTheWay};

use crate::ages::{tell_stale_again, wanted_stale};
use crate::bounds::counts_of;
use crate::labels::{Aging, Sending, aging_of, sending_of};
use crate::names::{name_of, offset_in};
use crate::refused::tell_rule;
use crate::servers::{Server, begin_counts, server_of, tell_terms};
use crate::steps::closing_of;
use crate::teller::{About, tell_alone};
use crate::waits::tell_room_ways;
use crate::ways::tell_never_ways;
use dc_busy::LONGEST_WINDOW;
use dc_cert::Certificate;
use dc_check::Condition;
use dc_document::Section;
use dc_find::FindFault::{LabelRule, QueueTooShort, WindowNeverCloses};
use dc_find::{FindFault, Queue, find, reach};
use dc_tables::Tables;
use dc_tell::{Explanation, File, Kind, Layout, Value, layout_of, place_at};
use std::alloc::Global;

/// How many are told in full.
const TOLD: usize = 10;

/// The longest delay; one that was not found is greater.
const LONGEST: u64 = LONGEST_WINDOW as u64;

/// So many rounds of the router, or frames of the output, a queue is looked at that is never surely empty again.
const ROUNDS: u32 = 10;

/// F1: no window of a queue closes.
fn tell_never(out: &mut Explanation, of: &About<'_>, server: &Server, is_first: bool) {
    let early = server.round.saturating_mul(ROUNDS).min(LONGEST_WINDOW);
    let left = begin_counts(
        out,
        of,
        "F1",
        server,
        (early, early),
        early.saturating_sub(1),
    );
    let last = LONGEST_WINDOW.saturating_sub(1);
    let counts = counts_of(of.tables, server.queue, LONGEST_WINDOW, last);
    let late = counts.come.saturating_sub(counts.served);
    of.say(
        out,
        server,
        ": so {number 0} may wait then, and {number 1} by tick {number 2}, and there is no tick by which all have surely been {done} (no window closes)",
        &[left, late, LONGEST],
    );
    of.tell_own(out, server, false, "");
    tell_never_ways(out, of, server);
    tell_terms(out, of, server, is_first, (0, 0));
}

/// F2: more may wait in the queue of a bus than it holds.
fn tell_short(out: &mut Explanation, of: &About<'_>, server: &Server, is_first: bool) {
    let Some(closing) = closing_of(of.tables, server, None) else {
        return;
    };
    let (most, by) = (closing.peaks.backlog.height, closing.peaks.backlog.ticks);
    begin_counts(out, of, "F2", server, (by, by), by.saturating_sub(2));
    of.say(
        out,
        server,
        ": {number 0} may wait, and its queue holds {number 1}",
        &[most, server.room],
    );
    of.tell_own(out, server, false, "queue");
    tell_room_ways(out, of, server, most);
    tell_terms(out, of, server, is_first, (0, 0));
}

/// For how much what helps is enough.
const ALONE: &str =
    "what helps here is enough for this rule alone: `dc429 find` tells whether all hold then, and writes a certificate";

/// Begins to tell one thing more that stands in the way, behind so many. Whether it is to be told in full.
fn begin_next(out: &mut Explanation, count: usize) -> bool {
    if count >= TOLD {
        return false;
    }
    if count != 0 {
        out.add("\n");
    }
    true
}

/// Tells of a queue, where it stands in the way by what was found of it, behind so many things that do. How many do then.
fn tell_queue(out: &mut Explanation, of: &About<'_>, queue: Queue, count: usize) -> usize {
    let Some(server) = server_of(of.tables, of.certificate, queue) else {
        return count;
    };
    let is_open = server.delay > LONGEST_WINDOW;
    let is_short = server.is_bus && server.backlog > server.room;
    if !is_open && !is_short {
        return count;
    }
    if begin_next(out, count) {
        if is_open {
            tell_never(out, of, &server, count == 0);
        } else {
            tell_short(out, of, &server, count == 0);
        }
        if count == 0 {
            tell_alone(out, ALONE);
        }
    }
    count.saturating_add(1)
}

/// The least `stale` with which a source of the label of this number does not go stale, as [`wanted_stale`] has it.
fn stale_of(of: &About<'_>, label: usize) -> u64 {
    match aging_of(of.tables, of.certificate, label) {
        Some(aging) if aging.slowest.delay <= LONGEST => wanted_stale(&aging),
        _ => 0,
    }
}

/// How many labels before this one are mended by a longer `stale`.
fn stales_before(of: &About<'_>, label: usize) -> usize {
    let mut count = 0usize;
    for earlier in 0..label {
        if stale_of(of, earlier) != 0 {
            count = count.saturating_add(1);
        }
    }
    count
}

/// Tells of a rule on a label that is broken, behind so many things that stand in the way.
fn tell_broken(
    out: &mut Explanation,
    of: &About<'_>,
    sending: &Sending,
    aging: &Aging,
    rule: Condition,
    count: usize,
) {
    if !begin_next(out, count) {
        return;
    }
    let is_stale = matches!(rule, Condition::SourceGoesStale) && wanted_stale(aging) != 0;
    if is_stale && stales_before(of, aging.number) != 0 {
        tell_stale_again(out, of, aging);
    } else {
        tell_rule(out, of, "F3", sending, aging, rule);
    }
    if count == 0 {
        tell_alone(out, ALONE);
    }
}

/// Tells which rules a label breaks, by what was found of its output and of its sources' buses, behind so many things that
/// stand in the way. How many do then.
fn tell_label(out: &mut Explanation, of: &About<'_>, label: usize, before: usize) -> usize {
    let Some(sending) = sending_of(of.tables, of.certificate, label) else {
        return before;
    };
    let Some(aging) = aging_of(of.tables, of.certificate, label) else {
        return before;
    };
    let is_sent = sending.delay <= LONGEST;
    let is_soon = sending.least_gap < sending.minimum.saturating_add(sending.delay);
    let is_late = sending.greatest_gap.saturating_add(sending.delay) > sending.maximum;
    let is_read = aging.slowest.delay <= LONGEST;
    let is_old = aging.stale.saturating_add(aging.slowest.delay) > aging.limit;
    let is_stale = aging.rarest.silence > aging.stale;
    let broken = [
        (is_sent && is_soon, Condition::SentTooSoon),
        (is_sent && is_late, Condition::SentTooLate),
        (is_read && is_old, Condition::AgeOverLimit),
        (is_read && is_stale, Condition::SourceGoesStale),
    ];
    let mut count = before;
    for (is_broken, rule) in &broken {
        if *is_broken {
            tell_broken(out, of, &sending, &aging, *rule, count);
            count = count.saturating_add(1);
        }
    }
    count
}

/// Tells how many more stand in the way than were told.
fn tell_rest(out: &mut Explanation, of: &About<'_>, rest: usize) {
    let one = "more input, output or label keeps";
    let many = "more inputs, outputs and labels keep";
    out.add("\n");
    out.begin("");
    out.say(
        "{} these tables from having a certificate",
        &[Value::Several(rest as u64, one, many)],
    );
    out.name_file(of.file.name);
    out.help(
        "`dc429 margins` shows all of them: each line with a negative margin",
        &[],
    );
}

/// How many labels stand in a line of a list.
const LISTED: usize = 10;

/// Lists the `stale` of each label that is mended by a longer one, by where it stands in the text of the tables.
fn list_stales(out: &mut Explanation, of: &About<'_>, layout: &Layout<'_>) {
    let mut count = 0usize;
    for label in 0..of.tables.label_count() {
        let wanted = stale_of(of, label);
        if wanted == 0 {
            continue;
        }
        let offset = offset_in(layout, Kind::Label, label, "stale").unwrap_or(0);
        let line = place_at(of.file.text, offset).line as u64;
        let name = name_of(of.tables, Section::Label, label);
        if count == 0 {
            out.note(
                "write these, with which the words of these labels are fresh and keep their `age`: ",
                &[],
            );
        } else if count % LISTED == 0 {
            out.note("", &[]);
        } else {
            out.add("; ");
        }
        out.say(
            "line {} `{}` `stale = {}`",
            &[
                Value::Number(line),
                Value::Text(name),
                Value::Number(wanted),
            ],
        );
        count = count.saturating_add(1);
    }
}

/// The same, where several labels are.
fn tell_stales(out: &mut Explanation, of: &About<'_>) {
    if stales_before(of, of.tables.label_count()) < 2 {
        return;
    }
    match layout_of(of.alloc, of.file.text, false) {
        Some(layout) => list_stales(out, of, &layout),
        None => out.lose(),
    }
}

/// So many have to stand in the way for what all share to be looked at.
const FEW: usize = 5;

/// Tells what all share, where more than half of all inputs, outputs and labels stand in the way, and not by a `stale` alone
/// that is too short: those are listed.
fn tell_shared(out: &mut Explanation, of: &About<'_>, count: usize) {
    let tables = of.tables;
    let queues = tables.bus_count().saturating_add(tables.output_count());
    let all = queues.saturating_add(tables.label_count());
    let count = count.saturating_sub(stales_before(of, tables.label_count()));
    if count < FEW {
        return;
    }
    if count <= all / 2 {
        return;
    }
    out.note(
        "more than half of the {} inputs, outputs and labels do not hold: before each by itself look at what they share, a `tick_us` of {}, and then at `steps` and `within` of the routers, which count in such ticks",
        &[
            Value::Number(all as u64),
            Value::Number(tables.tick_us() as u64),
        ],
    );
}

/// Tells the first of what stands in the way, in the order in which the first is found, and how many more do.
fn tell_all(out: &mut Explanation, of: &About<'_>) {
    let mut count = 0usize;
    for bus in 0..of.tables.bus_count() {
        count = tell_queue(out, of, Queue::Input(bus), count);
    }
    for output in 0..of.tables.output_count() {
        count = tell_queue(out, of, Queue::Output(output), count);
    }
    for label in 0..of.tables.label_count() {
        count = tell_label(out, of, label, count);
    }
    if count > TOLD {
        tell_rest(out, of, count.saturating_sub(TOLD));
    }
    tell_stales(out, of);
    tell_shared(out, of, count);
}

/// Tells all that stands in the way, by what was found of a certificate.
fn explain_found(
    alloc: Global,
    tables: &Tables,
    certificate: &Certificate,
    file: File<'_>,
) -> Option<String> {
    let of = About {
        alloc,
        tables,
        certificate,
        file,
        claims: file,
    };
    let mut out = Explanation::new(alloc);
    tell_all(&mut out, &of);
    out.finish()
}

/// Tells all that stands in the way of a certificate behind the first.
fn explain_from(alloc: Global, tables: &Tables, fault: FindFault, file: File<'_>) -> Option<String>
    requires { IsFirstInTheWay tables.now fault }
{
    match reach(alloc, tables, fault) {
        Ok(reached) => explain_found(alloc, tables, &reached.certificate, file),
        Err(_) => None,
    }
}

/// Why no certificate is accepted for tables: all inputs, outputs and labels that stand in the way, ten in full and how
/// many more there are. `None` where one is accepted, and where memory is refused.
pub fn explain_find(alloc: Global, tables: &Tables, file: File<'_>) -> Option<String> {
    let Some(fault) = find(alloc, tables).err() else {
        return None;
    };
    match fault {
        FindFault::Memory => None,
        WindowNeverCloses(queue) => explain_from(alloc, tables, WindowNeverCloses(queue), file),
        QueueTooShort(bus) => explain_from(alloc, tables, QueueTooShort(bus), file),
        LabelRule(label, rule) => explain_from(alloc, tables, LabelRule(label, rule), file),
    }
}
