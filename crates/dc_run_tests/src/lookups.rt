//! Look-ups in valid tables that no command makes, and parts that no text of tables can have.

use dc_build::{Build, WrittenTables};
use dc_document::{BuildError, Name, Parts, Section, Speed, TableFault, TableRule, Version};
use dc_tables::Tables;
use dc_test_tables::{push_small_tables, small_tables};
use dc_toml::read_parts;
use dc_word::{Word, digit_in};
use std::alloc::{AllocError, Global};
use std::process::Abort;
use std::rt::HostRuntime;
use std::test::Fail;

/// A word of label 204.
const OF_204: Word = Word(0xE000_0021);

/// The name that a text spells.
fn name(text: &str) -> Result<Name, Fail> {
    Ok(Name::new(text.as_bytes()).ok_or("no name")?)
}

/// Streams and labels by their names.
fn assert_named(rt: &impl Abort, tables: &Tables, stream: &Name, label: &Name) {
    assert!(rt; tables.stream_named(stream) == Some(1));
    assert!(rt; tables.stream_named(label).is_none());
    assert!(rt; tables.label_named(label) == Some(0));
    assert!(rt; tables.label_named(stream).is_none());
}

/// How many streams of the first bus declare a word.
fn declaring(tables: &Tables, word: Word) -> usize {
    if tables.bus_count() == 0 {
        return 0;
    }
    let streams = tables.bus_streams(0);
    streams
        .iter()
        .filter(|stream| stream.declares(0, word))
        .count()
}

#[test]
fn streams_and_labels_are_found(rt: HostRuntime) -> Result<(), Fail> {
    let stream = name("A-204")?;
    let label = name("x")?;
    let tables = small_tables(rt.alloc(), "")?;
    assert_named(&rt, &tables, &stream, &label);
    assert!(rt; declaring(&tables, OF_204) == 1);
    Ok(())
}

/// Keys that no row holds, and the rows beside them.
fn assert_beside(rt: &impl Abort, written: &WrittenTables) {
    let parts = written.parts();
    assert!(rt;
        parts
            .parameters()
            .iter()
            .all(|parameter| parameter.min_us == 10_000)
    );
    assert!(rt; parts.buses().iter().all(|bus| bus.speed == Speed::High));
    assert!(rt; parts.streams().iter().all(|stream| stream.jitter_us == 0));
    assert!(rt; parts.labels().iter().all(|label| label.offsets.len() == 1));
    assert!(rt; written.tables().stream_count() == parts.stream_count());
}

#[test]
fn tables_stand_beside_their_document(rt: HostRuntime) -> Result<(), Fail> {
    let mut text = String::new(rt.alloc());
    push_small_tables(&mut text, "")?;
    let parts = read_parts(rt.alloc(), text.as_bytes())?;
    let written = WrittenTables::build(rt.alloc(), parts)?;
    assert_beside(&rt, &written);
    assert!(rt; written.into_tables().stream_count() == 2);
    Ok(())
}

#[test]
fn digits_are_of_their_base(rt: HostRuntime) {
    for (text, value) in [("7", 7), ("f", 15), ("F", 15)] {
        for byte in text.as_bytes() {
            assert!(rt; digit_in(16, *byte) == Some(value), "{text}");
        }
    }
    assert!(rt; digit_in(16, b'g').is_none());
    assert!(rt; digit_in(8, b'8').is_none());
}

#[test]
fn names_have_1_to_16_characters(rt: HostRuntime) {
    for text in ["7", "Aa-0_9zZAa-0_9zZ"] {
        assert!(rt; Name::new(text.as_bytes()).is_some(), "{text}");
    }
    for text in ["", "Aa-0_9zZAa-0_9zZ1", "A 1", "A.", "\u{e9}"] {
        assert!(rt; Name::new(text.as_bytes()).is_none(), "{text}");
    }
}

#[test]
fn a_name_is_told_by_its_text(rt: HostRuntime) -> Result<(), Fail> {
    let short = name("7")?;
    assert!(rt; short.as_str() == "7");
    let long = name("Aa-0_9zZAa-0_9zZ")?;
    assert!(rt; long.as_str() == "Aa-0_9zZAa-0_9zZ");
    Ok(())
}

/// The fault of parts without a row, of this tick; want of memory is none.
fn fault_of(alloc: Global, tick_us: u32) -> Result<Option<TableFault>, AllocError> {
    let parts = Parts::new(alloc, Version::One, tick_us);
    match Tables::build(alloc, parts).err() {
        None => Ok(None),
        Some(BuildError::Memory(error)) => Err(error),
        Some(BuildError::Refused(fault)) => Ok(Some(fault)),
    }
}

/// A text is refused for its shape before its parts are handed in.
#[test]
fn a_tick_is_100_to_10000_microseconds(rt: HostRuntime) -> Result<(), Fail> {
    let refused = TableFault {
        rule: TableRule::NumberOutOfRange,
        section: Section::Top,
        index: 0,
    };
    assert!(rt; fault_of(rt.alloc(), 99)? == Some(refused));
    assert!(rt; fault_of(rt.alloc(), 100)?.is_none());
    assert!(rt; fault_of(rt.alloc(), 10_000)?.is_none());
    assert!(rt; fault_of(rt.alloc(), 10_001)? == Some(refused));
    Ok(())
}
