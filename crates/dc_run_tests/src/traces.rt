//! Traces that come in pieces of any size, pass their limit, or break off.

use dc_device::{MemSource, Source};
use dc_event::{Event, LineRule, TraceFault, TraceReader, TraceStop};
use dc_tables::Tables;
use dc_test_tables::small_tables;
use dc_word::Word;
use std::alloc::Global;
use std::process::Abort;
use std::rt::HostRuntime;
use std::test::Fail;

/// A line of each kind.
const TRACE: &[u8] = b"A A 600000C1\nR R1\nS O\nT\n";

/// The events of these lines.
fn events() -> [Event; 4] {
    [
        Event::Arrive(Word(0x6000_00C1), 0),
        Event::Route(0),
        Event::Send(0),
        Event::Tick,
    ]
}

/// What a reader tells next whose source has hardly failed.
fn next_of<S: Source + Drop>(
    rt: &impl Abort,
    reader: &mut TraceReader<S>,
) -> Result<Event, TraceStop> {
    assert!(rt; reader.failures() < 1000);
    reader.next()
}

/// Reads a text of at most `limit` bytes in pieces of several sizes: first these events are reported, then again and again
/// why there is no more.
fn reads(
    rt: &impl Abort,
    tables: &Tables,
    text: &[u8],
    limit: u32,
    events: &[Event],
    stop: TraceStop,
) {
    for piece in [1, 7, 64, 4096] {
        let source = MemSource::new(text, piece.max(1), 0);
        let mut reader = TraceReader::limited(tables, source, u64::from(limit));
        for event in events {
            assert!(rt;
                next_of(rt, &mut reader) == Ok(*event),
                "in pieces of {piece}"
            );
        }
        for _ in 0..3 {
            assert!(rt;
                next_of(rt, &mut reader) == Err(stop),
                "in pieces of {piece}"
            );
        }
        assert!(rt; reader.failures() == 0);
    }
}

/// The same on the small tables.
fn reads_text(
    rt: &impl Abort,
    alloc: Global,
    text: &[u8],
    limit: u32,
    events: &[Event],
    stop: TraceStop,
) -> Result<(), Fail> {
    let tables = small_tables(alloc, "")?;
    reads(rt, &tables, text, limit, events, stop);
    Ok(())
}

/// A line is refused by this rule.
fn refused(rule: LineRule, line: u64) -> TraceStop {
    TraceStop::Fault(TraceFault { rule, line })
}

/// A reader without a limit of its own reads the trace.
fn reads_unlimited(rt: &impl Abort, tables: &Tables) {
    let mut reader = TraceReader::new(tables, MemSource::new(TRACE, 7, 0));
    for event in events() {
        assert!(rt; next_of(rt, &mut reader) == Ok(event));
    }
    assert!(rt; next_of(rt, &mut reader) == Err(TraceStop::End));
}

#[test]
fn a_trace_is_read_in_pieces_of_any_size(rt: HostRuntime) -> Result<(), Fail> {
    reads_text(&rt, rt.alloc(), TRACE, 24, &events(), TraceStop::End)?;
    reads_text(&rt, rt.alloc(), b"", 0, &[], TraceStop::End)?;
    let tables = small_tables(rt.alloc(), "")?;
    reads_unlimited(&rt, &tables);
    Ok(())
}

#[test]
fn a_text_past_its_limit_is_refused_where_it_passes_it(rt: HostRuntime) -> Result<(), Fail> {
    let ticks = [Event::Tick; 3];
    for (limit, reported, stop) in [
        (6, 3, TraceStop::End),
        (5, 2, refused(LineRule::LineTooLong, 3)),
        (4, 2, refused(LineRule::LineTooLong, 3)),
        (3, 1, refused(LineRule::LineTooLong, 2)),
        (0, 0, refused(LineRule::LineTooLong, 1)),
    ] {
        let (events, _) = ticks.split_at(reported.min(3));
        reads_text(&rt, rt.alloc(), b"T\nT\nT\n", limit, events, stop)?;
    }
    Ok(())
}

/// Reads the trace in pieces of four bytes from a source whose pull of this number fails, after these events.
fn breaks(rt: &impl Abort, tables: &Tables, fails_at: u64, reported: &[Event]) {
    let mut reader = TraceReader::new(tables, MemSource::new(TRACE, 4, fails_at));
    for event in reported {
        assert!(rt; next_of(rt, &mut reader) == Ok(*event), "pull {fails_at}");
    }
    for _ in 0..2 {
        let again = next_of(rt, &mut reader);
        assert!(rt; again == Err(TraceStop::Broken), "pull {fails_at}");
    }
    assert!(rt; reader.failures() == 1);
}

/// Each pull fails in turn.
fn breaks_at_any_pull(rt: &impl Abort, tables: &Tables) {
    let all = events();
    for (fails_at, reported) in [(1, 0), (2, 0), (3, 0), (4, 0), (5, 1), (6, 2), (7, 4)] {
        let (reported, _) = all.split_at(reported.min(4));
        breaks(rt, tables, fails_at, reported);
    }
}

#[test]
fn a_source_may_fail_at_any_pull(rt: HostRuntime) -> Result<(), Fail> {
    let tables = small_tables(rt.alloc(), "")?;
    breaks_at_any_pull(&rt, &tables);
    Ok(())
}

#[test]
fn a_fault_says_what_is_wrong_and_where(rt: HostRuntime) -> Result<(), Fail> {
    let fault = TraceFault {
        rule: LineRule::LineNotEnded,
        line: 4,
    };
    let text = format!(in rt.alloc(); "{fault}")?;
    assert!(rt; text.as_str() == "the input ends inside a line (at line 4)");
    Ok(())
}
