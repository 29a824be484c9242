//! The concentrator by itself: numbers that no trace can name, and the steady run with its replies.

use dc_core::{Core, StepFault};
use dc_event::{Event, Reply};
use dc_oracle::{outputs, steady};
use dc_tables::Tables;
use dc_test_tables::{push_equal_tables, tables_of};
use dc_word::{Label, Word};
use std::alloc::Global;
use std::process::Abort;
use std::rt::HostRuntime;
use std::sync::Arc;
use std::test::Fail;

/// Tables of one bus, one router and one output.
pub fn one_bus(alloc: Global) -> Result<Tables, Fail> {
    let mut text = String::new(alloc);
    push_equal_tables(&mut text, 1, false)?;
    Ok(tables_of(alloc, text.as_str())?)
}

/// A concentrator refuses each of these events as unknown.
fn knows_none<R: Abort>(rt: &R, core: &mut Core, events: &[Event]) {
    for event in events {
        assert!(rt; core.apply(*event) == Err(StepFault::Unknown));
    }
}

#[test]
fn numbers_that_are_not_in_the_tables_are_unknown(rt: HostRuntime) -> Result<(), Fail> {
    let tables = Arc::new(rt.alloc(), one_bus(rt.alloc())?)?;
    let mut core = Core::new(rt.alloc(), tables)?;
    let events = [
        Event::Route(1),
        Event::Send(1),
        Event::Arrive(Word(0x600000C1), 1),
    ];
    knows_none(&rt, &mut core, &events);
    Ok(())
}

/// The steady run of one tick has these events and replies.
fn steady_is<R: Abort>(
    rt: &R,
    alloc: Global,
    tables: &Tables,
    events: &[Event],
    replies: &[Reply],
) -> Result<(), Fail> {
    let run = steady(alloc, tables, 1)?;
    assert!(rt; run.as_slice() == events);
    let answered = outputs(alloc, tables, &run)?;
    assert!(rt; answered.as_slice() == replies);
    Ok(())
}

#[test]
fn a_steady_tick_has_each_actors_steps(rt: HostRuntime) -> Result<(), Fail> {
    let label = Label::new(0o203).ok_or("no label")?;
    let tables = one_bus(rt.alloc())?;
    let events = [
        Event::Route(0),
        Event::Route(0),
        Event::Send(0),
        Event::Tick,
    ];
    let replies = [
        Reply::Empty(0),
        Reply::Empty(0),
        Reply::Sent(label, Word(0xA00000C1)),
        Reply::Now(1),
    ];
    steady_is(&rt, rt.alloc(), &tables, &events, &replies)
}
