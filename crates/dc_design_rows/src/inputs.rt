//! The rows of the inputs, bus by bus.
use crate::document::{Bus, Document, Span, Stream};
use crate::letters::Letters;
use crate::lines::{Fact, Lines};
use crate::tasks::settle_bus_task;
use crate::words::{sdi_word, speed_word};
use dc_cell::InputRow;
use std::alloc::AllocError;

/// The number of the bus of this name, where there is one.
fn bus_named(buses: &[Bus], name: &Letters) -> Option<usize> {
    for (number, bus) in buses.iter().enumerate() {
        if bus.name == *name {
            return Some(number);
        }
    }
    None
}

/// A bus, as the first of its rows says it.
fn bus_of(row: &InputRow, name: Letters, police_all: bool) -> Bus {
    Bus {
        name,
        speed: row.speed,
        speed_row: u64::from(row.row),
        queue: None,
        queue_row: 0,
        router: None,
        router_row: 0,
        task: None,
        police: police_all,
        streams: Span { first: 0, end: 0 },
    }
}

/// A stream, as its row says it.
fn stream_of(row: &InputRow, bus: usize) -> Stream {
    let sdi = match row.sdi {
        Some(sdi) => Some(u64::from(sdi.number())),
        None => None,
    };
    let name = Letters::perhaps(&row.name).unwrap_or(Letters::empty());
    Stream {
        row: u64::from(row.row),
        bus,
        name,
        label: u64::from(row.label.number()),
        equipment: u64::from(row.equipment.code()),
        sdi,
        format: row.format,
        min: u64::from(row.min_us),
        max: u64::from(row.max_us),
        jitter: u64::from(row.jitter_us),
        parameter: 0,
    }
}

/// Tells that a row says of its bus or output what another one does not.
pub(crate) fn tell_contradiction(
    faults: &mut Lines,
    place: &[Fact; 3],
    said: &[Fact; 2],
    group: &[Fact; 2],
    row: u64,
) {
    faults.begin("unreadable ");
    faults.say("{} row {} column {}: ", place);
    faults.say("{}, but ", &[said[0]]);
    faults.say("{} {} has ", group);
    faults.line("{} in row {}", &[said[1], Fact::Number(row)]);
}

/// Settles what a row says of the speed of its bus.
fn settle_speed(bus: &Bus, row: &InputRow, faults: &mut Lines) {
    if bus.speed != row.speed {
        let place = [
            Fact::Word("inputs"),
            Fact::Number(u64::from(row.row)),
            Fact::Word("speed"),
        ];
        let said = [speed_word(row.speed), speed_word(bus.speed)];
        let group = [Fact::Word("bus"), Fact::Name(bus.name)];
        tell_contradiction(faults, &place, &said, &group, bus.speed_row);
    }
}

/// Settles what a row says of the queue of its bus.
fn settle_queue(bus: &mut Bus, row: &InputRow, faults: &mut Lines) {
    let Some(here) = row.queue else {
        return;
    };
    let here = u64::from(here);
    match bus.queue {
        None => {
            bus.queue = Some(here);
            bus.queue_row = u64::from(row.row);
        }
        Some(there) => {
            if here != there {
                let place = [
                    Fact::Word("inputs"),
                    Fact::Number(u64::from(row.row)),
                    Fact::Word("queue"),
                ];
                let said = [Fact::Number(here), Fact::Number(there)];
                let group = [Fact::Word("bus"), Fact::Name(bus.name)];
                tell_contradiction(faults, &place, &said, &group, bus.queue_row);
            }
        }
    }
}

/// Settles what a row says of the router of its bus.
fn settle_router(bus: &mut Bus, row: &InputRow, faults: &mut Lines) {
    let Some(here) = Letters::perhaps(&row.router) else {
        return;
    };
    match bus.router {
        None => {
            bus.router = Some(here);
            bus.router_row = u64::from(row.row);
        }
        Some(there) => {
            if here != there {
                let place = [
                    Fact::Word("inputs"),
                    Fact::Number(u64::from(row.row)),
                    Fact::Word("router"),
                ];
                let said = [Fact::Name(here), Fact::Name(there)];
                let group = [Fact::Word("bus"), Fact::Name(bus.name)];
                tell_contradiction(faults, &place, &said, &group, bus.router_row);
            }
        }
    }
}

/// Whether two SDIs have a word in common; `None` is any.
fn overlap(one: Option<u64>, other: Option<u64>) -> bool {
    let Some(one) = one else {
        return true;
    };
    match other {
        Some(other) => one == other,
        None => true,
    }
}

/// The first row whose words another one's on its bus may be.
fn row_alike(streams: &[Stream], new: &Stream) -> Option<u64> {
    for stream in streams {
        if stream.bus == new.bus && stream.label == new.label && overlap(stream.sdi, new.sdi) {
            return Some(stream.row);
        }
    }
    None
}

/// Tells that a label with its SDI stands twice on a bus or an output.
pub(crate) fn tell_twice(
    faults: &mut Lines,
    place: &[Fact; 2],
    what: &[Fact; 4],
    row: u64,
    code: &'static str,
) {
    faults.begin("unreadable ");
    faults.say("{} row {} column label: ", place);
    faults.say("{} with SDI {} is on {} {} already, ", what);
    faults.line("row {} ({})", &[Fact::Number(row), Fact::Word(code)]);
}

/// Settles what a row says of its bus.
fn settle(document: &mut Document, number: usize, row: &InputRow, faults: &mut Lines) -> Letters {
    let Some(bus) = document.buses.get_mut(number) else {
        return Letters::empty();
    };
    settle_speed(bus, row, faults);
    settle_queue(bus, row, faults);
    settle_router(bus, row, faults);
    settle_bus_task(bus, row, faults);
    bus.police = bus.police || row.police;
    bus.name
}

/// Adds a row of the inputs.
pub(crate) fn add_input(
    document: &mut Document,
    row: &InputRow,
    police_all: bool,
    faults: &mut Lines,
) -> Result<(), AllocError> {
    let name = Letters::named(&row.bus);
    let number = match bus_named(&document.buses, &name) {
        Some(number) => number,
        None => {
            document.buses.push(bus_of(row, name, police_all))?;
            document.buses.len().saturating_sub(1)
        }
    };
    let bus = settle(document, number, row, faults);
    let stream = stream_of(row, number);
    if let Some(first) = row_alike(&document.streams, &stream) {
        let place = [Fact::Word("inputs"), Fact::Number(stream.row)];
        let what = [
            Fact::Octal(stream.label),
            sdi_word(stream.sdi),
            Fact::Word("bus"),
            Fact::Name(bus),
        ];
        tell_twice(faults, &place, &what, first, "T15");
    }
    document.streams.push(stream)?;
    Ok(())
}
