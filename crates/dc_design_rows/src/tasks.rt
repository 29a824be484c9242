//! What tasks surely do, as the rows say it together.
use crate::document::{Bus, Output, Task};
use crate::inputs::tell_contradiction;
use crate::letters::Letters;
use crate::lines::{Fact, Lines};
use dc_cell::{InputRow, OutputRow, TimeUnit};

/// What a row says of a task, where it does.
pub(crate) fn task_of(said: &Option<dc_cell::Task>, row: u32) -> Option<Task> {
    match said {
        Some(task) => Some(Task {
            steps: u64::from(task.steps),
            within: u64::from(task.within_us),
            row: u64::from(row),
        }),
        None => None,
    }
}

/// Tells that a row says of a task what another one does not, where that is so.
fn tell_other(
    sheet: &'static str,
    here: &Task,
    there: &Task,
    group: &[Fact; 2],
    faults: &mut Lines,
) {
    if here.steps != there.steps {
        let place = [
            Fact::Word(sheet),
            Fact::Number(here.row),
            Fact::Word("steps"),
        ];
        let said = [Fact::Number(here.steps), Fact::Number(there.steps)];
        tell_contradiction(faults, &place, &said, group, there.row);
    } else if here.within != there.within {
        let place = [
            Fact::Word(sheet),
            Fact::Number(here.row),
            Fact::Word("within"),
        ];
        let said = [time_fact(here.within), time_fact(there.within)];
        tell_contradiction(faults, &place, &said, group, there.row);
    }
}

/// So many microseconds.
fn time_fact(us: u64) -> Fact {
    Fact::Time(us, TimeUnit::Microseconds)
}

/// Settles what a row says of the task of its bus.
pub(crate) fn settle_bus_task(bus: &mut Bus, row: &InputRow, faults: &mut Lines) {
    let Some(here) = task_of(&row.task, row.row) else {
        return;
    };
    match bus.task {
        None => bus.task = Some(here),
        Some(there) => {
            let group = [Fact::Word("bus"), Fact::Name(bus.name)];
            tell_other("inputs", &here, &there, &group, faults);
        }
    }
}

/// Settles what a row says of the task of its output.
pub(crate) fn settle_output_task(output: &mut Output, row: &OutputRow, faults: &mut Lines) {
    let Some(here) = task_of(&row.task, row.row) else {
        return;
    };
    match output.task {
        None => output.task = Some(here),
        Some(there) => {
            let group = [Fact::Word("output"), Fact::Name(output.name)];
            tell_other("outputs", &here, &there, &group, faults);
        }
    }
}

/// What the first bus of a router says of its task, where one does.
fn task_of_router(buses: &[Bus], name: &Letters) -> Option<Task> {
    for bus in buses {
        if let Some(router) = bus.router {
            if router == *name && bus.task.is_some() {
                return bus.task;
            }
        }
    }
    None
}

/// Lets all buses of a router have its task, which one of them says, or tells that two say another.
pub(crate) fn share_tasks(buses: &mut [Bus], faults: &mut Lines) {
    for number in 0..buses.len() {
        let Some(bus) = buses.get(number).copied() else {
            return;
        };
        let Some(router) = bus.router else {
            continue;
        };
        let Some(there) = task_of_router(buses, &router) else {
            continue;
        };
        if let Some(here) = bus.task {
            let group = [Fact::Word("router"), Fact::Name(router)];
            tell_other("inputs", &here, &there, &group, faults);
        } else if let Some(own) = buses.get_mut(number) {
            own.task = Some(there);
        }
    }
}
