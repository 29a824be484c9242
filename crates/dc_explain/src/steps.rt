//! Events that may not follow those before them.
use crate::lines::{Line, events_before};
use crate::output::word;
use crate::ran::Ran;
use crate::trace::field;
use dc_document::Name;
use dc_keep::Kept;
use dc_tables::Tables;
use dc_tell::Value::{Number, Range, Several, Text, Ticks};
use dc_tell::{Explanation, Value};

/// A router or an output, and what it is to make.
#[derive(Clone, Copy)]
struct Actor {
    /// What it is called.
    kind: &'static str,
    /// Its name.
    name: Name,
    /// What begins a line of a trace that is a step of it.
    letter: &'static str,
    /// So many steps are made at least ..
    steps: u64,
    /// .. in each so many ticks.
    within: u64,
    /// Of a router how many it makes in a tick at most, of an output how many ticks its sends lie apart at least.
    limit: u64,
}

/// In the place of an actor's number, where there is none.
const NONE: usize = usize::MAX;

/// The actor of this number, of the routers and of the outputs behind them, where the tables have one.
fn actor_at(tables: &Tables, number: usize) -> Option<Actor> {
    let routers = tables.router_count();
    if number < routers {
        let row = tables.router(number);
        return Some(Actor {
            kind: "router",
            name: *tables.router_name(number),
            letter: "R ",
            steps: u64::from(row.steps),
            within: u64::from(row.within),
            limit: u64::from(row.most),
        });
    }
    let output = number.saturating_sub(routers);
    if output >= tables.output_count() {
        return None;
    }
    let row = tables.output(output);
    Some(Actor {
        kind: "output",
        name: *tables.output_name(output),
        letter: "S ",
        steps: u64::from(row.steps),
        within: u64::from(row.within),
        limit: u64::from(row.gap),
    })
}

/// The number of the actor of this name that a step is refused with such a word of: a router, an output, or whichever there
/// is.
fn number_of(tables: &Tables, code: &str, name: &[u8]) -> usize {
    let Some(name) = Name::new(name) else {
        return NONE;
    };
    let router = tables.router_named(&name).unwrap_or(NONE);
    if router != NONE && code != "early" {
        return router;
    }
    match tables.output_named(&name) {
        Some(output) if code != "spent" => output.saturating_add(tables.router_count()),
        _ => NONE,
    }
}

/// Tells of a router that made too many steps in a tick.
fn tell_spent(out: &mut Explanation, line: &Line<'_>, actor: &Actor) {
    let name = Text(actor.name.as_str());
    line.tell(
        out,
        0,
        "router `{}` has made {} in tick {} already, which is the `most` of one tick\nput the step behind the next `T`\nor weaken a promise: write a greater `most` of router `{}` in the tables",
        &[
            name,
            Several(actor.limit, "step", "steps"),
            Number(line.tick),
            name,
        ],
    );
}

/// Tells of an output that sent too soon.
fn tell_early(out: &mut Explanation, line: &Line<'_>, kept: &Kept, actor: &Actor, tick_us: u64) {
    let name = actor.name.as_str();
    line.tell(
        out,
        0,
        "output `{}` sends in tick {}, less than {} after its last send",
        &[Text(name), Number(line.tick), Ticks(actor.limit, tick_us)],
    );
    let (last, _) = events_before(kept, line, 0, b"S ", name.as_bytes());
    if let Some(last) = last {
        let next = last.saturating_add(actor.limit);
        out.note(
            "its last send is of tick {}: it may send again in tick {}",
            &[Number(last), Number(next)],
        );
    }
    out.help("its wire takes one word in ", &[]);
    out.put(Ticks(actor.limit, tick_us));
    out.add(": put the send behind more lines `T`");
}

/// In which tick those begin in which an actor owes its steps, where a line ends the last of them.
fn first_tick(line: &Line<'_>, actor: &Actor) -> u64 {
    line.tick.saturating_add(1).saturating_sub(actor.within)
}

/// How many steps an actor has made of those that it owes where a line ends a tick, where that is known.
fn made_by(line: &Line<'_>, kept: &Kept, actor: &Actor) -> Option<u64> {
    let (_, made) = events_before(
        kept,
        line,
        first_tick(line, actor),
        actor.letter.as_bytes(),
        actor.name.as_str().as_bytes(),
    );
    made
}

/// Whether an actor owes steps where a line ends a tick, as far as that is known.
fn is_owing(line: &Line<'_>, kept: &Kept, actor: &Actor) -> bool {
    let made = made_by(line, kept, actor).unwrap_or(actor.steps);
    line.tick >= actor.within.saturating_sub(1) && made < actor.steps
}

/// The number of the first actor that owes steps where a line ends a tick.
fn owing_at(line: &Line<'_>, kept: &Kept, tables: &Tables) -> usize {
    for number in 0..tables.router_count().saturating_add(tables.output_count()) {
        if let Some(actor) = actor_at(tables, number) {
            if is_owing(line, kept, &actor) {
                return number;
            }
        }
    }
    NONE
}

/// Tells at what pace an actor makes its steps, and which lines help it to, as these words say, and what else.
fn tell_pace(out: &mut Explanation, actor: &Actor, missing: Value<'_>, tick_us: u64) {
    let (kind, name) = (actor.kind, actor.name.as_str());
    out.note(
        "`steps` of {} `{}` is {}, in each `within` of {}",
        &[
            Text(kind),
            Text(name),
            Number(actor.steps),
            Ticks(actor.within, tick_us),
        ],
    );
    out.help(
        "put {} `{}{}` before this `T`, unless this is a recording: then the actor broke its pace",
        &[missing, Text(actor.letter), Text(name)],
    );
    out.help(
        "or weaken a promise: write smaller `steps` or a greater `within` of {} `{}` in the tables",
        &[Text(kind), Text(name)],
    );
}

/// Tells of a router or an output that made too few steps for the tick to end: how many, where that is known, in which
/// ticks it owes so many, which lines help, and what else.
fn tell_owed(out: &mut Explanation, line: &Line<'_>, kept: &Kept, actor: &Actor, tick_us: u64) {
    let first = first_tick(line, actor);
    let (made, missing) = match made_by(line, kept, actor) {
        Some(made) => (
            Several(made, "of", "of"),
            Several(actor.steps.saturating_sub(made), "line", "lines"),
        ),
        None => (Text("fewer than"), Text("lines")),
    };
    line.tell(
        out,
        0,
        "tick {} cannot end: {} `{}` has made {} the {} that it owes in {} {}",
        &[
            Number(line.tick),
            Text(actor.kind),
            Text(actor.name.as_str()),
            made,
            Several(actor.steps, "step", "steps"),
            Text(if first == line.tick { "tick" } else { "ticks" }),
            Range(first, line.tick),
        ],
    );
    tell_pace(out, actor, missing, tick_us);
}

/// Tells why a step of the actor of this number, or the end of a tick, may not follow the lines before it, by the word of its
/// refusal; false where there is no such actor.
fn tell_actor(
    out: &mut Explanation,
    code: &str,
    line: &Line<'_>,
    kept: &Kept,
    tables: &Tables,
    number: usize,
) -> bool {
    let Some(actor) = actor_at(tables, number) else {
        return false;
    };
    let tick_us = u64::from(tables.tick_us());
    match code {
        "spent" => tell_spent(out, line, &actor),
        "early" => tell_early(out, line, kept, &actor, tick_us),
        _ => tell_owed(out, line, kept, &actor, tick_us),
    }
    true
}

/// Tells which budget an event breaks; nothing where that is not known.
pub(crate) fn tell_budget(
    out: &mut Explanation,
    ran: &Ran<'_>,
    line: &Line<'_>,
    tables: &Tables,
) -> bool {
    let (kind, _) = field(line.bytes, 0);
    let (name, _) = field(line.bytes, 1);
    if kind == b"T".as_slice() {
        let number = owing_at(line, ran.input, tables);
        return tell_actor(out, "owed", line, ran.input, tables, number);
    }
    if kind == b"R".as_slice() {
        let number = number_of(tables, "spent", name);
        return tell_actor(out, "spent", line, ran.input, tables, number);
    }
    let number = number_of(tables, "early", name);
    tell_actor(out, "early", line, ran.input, tables, number)
}

/// Tells why an event may not follow those before it, by the word of its refusal and the name that it is about.
pub(crate) fn tell_step(out: &mut Explanation, ran: &Ran<'_>, line: &Line<'_>, tables: &Tables) {
    let (code, name) = (word(ran.line, 1), word(ran.line, 2));
    let number = number_of(tables, code, name.as_bytes());
    if !tell_actor(out, code, line, ran.input, tables, number) {
        out.say("{}", &[Text(code)]);
    }
}
