//! The queues of the tables: who serves each, and at what pace.
use crate::bounds::counts_of;
use crate::teller::About;
use dc_cert::Certificate;
use dc_document::{MOST_STEPS, Section};
use dc_find::Queue;
use dc_tables::{Stream, Tables};
use dc_tell::Explanation;

/// A queue, with who serves it: a bus with its router, or an output, which serves itself.
#[derive(Clone, Copy)]
pub(crate) struct Server {
    /// The queue.
    pub(crate) queue: Queue,
    /// Whether it is that of a bus.
    pub(crate) is_bus: bool,
    /// The number of the bus, or of the output.
    pub(crate) number: usize,
    /// The number of what serves it.
    pub(crate) by: usize,
    /// So many steps are made at least ..
    pub(crate) steps: u32,
    /// .. in each so many ticks.
    pub(crate) within: u32,
    /// The most steps of a router in one tick; of an output the most that there are.
    pub(crate) most: u32,
    /// The greatest `steps` that the tables may have with this `within`, and the least `within` with these `steps`.
    pub(crate) limit: u32,
    pub(crate) shortest: u32,
    /// How many places the visits of the router have, and how many of them are the bus; of an output how many entries its
    /// frame has, and 0.
    pub(crate) all: u64,
    pub(crate) own: u64,
    /// The ticks in which a router goes once through its visits, with the fewest steps; of an output those of its frame.
    pub(crate) round: u32,
    /// How many words a receive queue holds; of an output 0.
    pub(crate) room: u64,
    /// How many streams come on a bus, and the greatest jitter of one; of an output 1 and 0.
    pub(crate) streams: u32,
    pub(crate) jitter: u32,
    /// The window, the backlog and the delay that the certificate claims of it; of an output its backlog is 0.
    pub(crate) window: u32,
    pub(crate) backlog: u64,
    pub(crate) delay: u32,
}

impl Server {
    /// Of which kinds its table and that of what serves it are.
    pub(crate) fn sections(&self) -> (Section, Section) {
        if self.is_bus {
            (Section::Bus, Section::Router)
        } else {
            (Section::Output, Section::Output)
        }
    }
}

/// The greatest jitter of some streams.
fn jitter_of(streams: &[Stream]) -> u32 {
    let mut jitter = 0u32;
    for stream in streams {
        jitter = jitter.max(stream.jitter);
    }
    jitter
}

/// How many of some visits are those of a bus.
fn visits_of(visits: &[usize], bus: usize) -> u64 {
    let mut own = 0u64;
    for place in visits {
        if *place == bus {
            own = own.saturating_add(1);
        }
    }
    own
}

/// The bus of this number with its router, where the tables and the certificate have one.
fn bus_server(tables: &Tables, certificate: &Certificate, bus: usize) -> Option<Server> {
    if bus >= tables.bus_count() {
        return None;
    }
    tables.valid();
    let Some(claim) = certificate.inputs.get(bus) else {
        return None;
    };
    let own = tables.bus(bus);
    let router = tables.router(own.router);
    let streams = tables.bus_streams(bus);
    let (count, jitter) = (streams.len(), jitter_of(streams));
    let visits = router.visits.as_slice();
    let (all, own_visits) = (visits.len(), visits_of(visits, bus));
    let round = router.within.saturating_mul(all as u32);
    let shortest = router.steps.div_ceil(router.most.max(1)).max(1);
    Some(Server {
        queue: Queue::Input(bus),
        is_bus: true,
        number: bus,
        by: own.router,
        steps: router.steps,
        within: router.within,
        most: router.most,
        limit: MOST_STEPS,
        shortest,
        all: all as u64,
        own: own_visits,
        round,
        room: own.queue as u64,
        streams: count as u32,
        jitter,
        window: claim.window,
        backlog: claim.backlog as u64,
        delay: claim.delay,
    })
}

/// The output of this number, where the tables and the certificate have one.
fn output_server(tables: &Tables, certificate: &Certificate, output: usize) -> Option<Server> {
    if output >= tables.output_count() {
        return None;
    }
    let Some(claim) = certificate.outputs.get(output) else {
        return None;
    };
    let own = tables.output(output);
    let all = own.entries.as_slice().len();
    let limit = own.within.checked_div(own.gap).unwrap_or(0).min(MOST_STEPS);
    let shortest = own.steps.saturating_mul(own.gap).max(1);
    Some(Server {
        queue: Queue::Output(output),
        is_bus: false,
        number: output,
        by: output,
        steps: own.steps,
        within: own.within,
        most: MOST_STEPS,
        limit,
        shortest,
        all: all as u64,
        own: 0,
        round: own.frame,
        room: 0,
        streams: 1,
        jitter: 0,
        window: claim.window,
        backlog: 0,
        delay: claim.delay,
    })
}

/// The queue with who serves it, where it is there.
pub(crate) fn server_of(
    tables: &Tables,
    certificate: &Certificate,
    queue: Queue,
) -> Option<Server> {
    match queue {
        Queue::Input(bus) => bus_server(tables, certificate, bus),
        Queue::Output(output) => output_server(tables, certificate, output),
    }
}

/// The first other router, or other output, that has a shorter `within` than what serves a queue, and its `within`.
pub(crate) fn sibling_of(tables: &Tables, server: &Server) -> Option<(usize, u32)> {
    let count = if server.is_bus {
        tables.router_count()
    } else {
        tables.output_count()
    };
    for number in 0..count {
        let within = if server.is_bus {
            tables.router(number).within
        } else {
            tables.output(number).within
        };
        if number != server.by && within < server.within {
            return Some((number, within));
        }
    }
    None
}

/// Begins the explanation of a queue by what may have come to it by some tick, and what has surely been served by another
/// in so many whole ticks: how many are left of it.
pub(crate) fn begin_counts(
    out: &mut Explanation,
    of: &About<'_>,
    code: &str,
    server: &Server,
    ticks: (u32, u32),
    whole: u32,
) -> u64 {
    let (first, last) = ticks;
    let counts = counts_of(of.tables, server.queue, first, whole);
    let sentence = if first == last {
        "{queue} `{name}`: {words 0} {may} it by tick {number 2} and {only 1} surely been {done}"
    } else {
        "{queue} `{name}`: {words 0} {may} it by tick {number 2}, and by tick {number 3} {only 1} surely been {done}"
    };
    out.begin(code);
    of.say(
        out,
        server,
        sentence,
        &[counts.come, counts.served, first as u64, last as u64],
    );
    counts.come.saturating_sub(counts.served)
}

/// Tells from which tick the others are counted, and what is sure, where that was not told before; and where the verdict
/// names a tick, what that is, and which is the worst.
pub(crate) fn tell_terms(
    out: &mut Explanation,
    of: &About<'_>,
    server: &Server,
    is_first: bool,
    ticks: (u32, u32),
) {
    let (first, worst) = ticks;
    of.say_where(
        out,
        server,
        "\n{if 0}note: tick 1 is any tick that begins with {empty}; surely {done} is what `steps` and `within` of {by} `{server}` promise\n{if 1}note: `window {number 0}` in the verdict is the first tick by which the rule fails; the numbers above are those of tick {number 1}, where it fails by most",
        &[first as u64, worst as u64],
        &[is_first, first != 0],
    );
}
