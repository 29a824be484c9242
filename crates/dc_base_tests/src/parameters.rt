//! Intervals in ticks, and a dictionary of one parameter.

use dc_dict::{
    DictFault, Dictionary, Equipment, Interval, Parameter, in_maximum, in_minimum, in_ticks,
    jitter_ticks, out_maximum, out_minimum, out_ticks,
};
use dc_word::{Format, Label};
use std::test::Fail;

#[test]
fn intervals_lean_to_the_safe_side(rt: HostRuntime) -> Result<(), Fail> {
    let row = Parameter {
        label: Label::new(0o203).ok_or("no label")?,
        equipment: Equipment::new(0x001).ok_or("no equipment")?,
        format: Format::Bnr,
        min_us: 10_000,
        max_us: 20_000,
    };
    assert!(rt; in_minimum(10_000, 3000) == 3);
    assert!(rt; in_maximum(20_000, 3000) == 7);
    assert!(rt; jitter_ticks(0, 1000) == 0);
    assert!(rt; jitter_ticks(1, 1000) == 1);
    assert!(rt; jitter_ticks(10_000, 1000) == 10);
    assert!(rt; out_minimum(10_000, 3000) == 5);
    assert!(rt; out_maximum(20_000, 3000) == 5);
    assert!(rt; in_ticks(&row, 1000) == Ok(Interval { min: 10, max: 20 }));
    assert!(rt; in_ticks(&row, 3000) == Ok(Interval { min: 3, max: 7 }));
    assert!(rt; in_ticks(&row, 10_001) == Err(DictFault::NoTicks));
    assert!(rt; out_ticks(&row, 1000) == Ok(Interval { min: 11, max: 19 }));
    assert!(rt; out_ticks(&row, 10_000) == Err(DictFault::NoTicks));
    assert!(rt; DictFault::NoTicks.code() == 4);
    assert!(rt; row.equipment.code() == 1);
    Ok(())
}

/// The parameter of label 203 with this interval, in microseconds.
fn parameter(min_us: u32, max_us: u32) -> Option<Parameter> {
    Some(Parameter {
        label: Label::new(0o203)?,
        equipment: Equipment::new(0x001)?,
        format: Format::Bnr,
        min_us,
        max_us,
    })
}

#[test]
fn a_parameter_goes_in_once(rt: HostRuntime) -> Result<(), Fail> {
    let mut dictionary = Dictionary::new(rt.alloc());
    assert!(rt; dictionary.is_empty());
    let row = parameter(10_000, 20_000).ok_or("no parameter")?;
    assert!(rt; dictionary.insert(row) == Ok(()));
    assert!(rt; dictionary.insert(row) == Err(DictFault::Doubled));
    let none = parameter(0, 2).ok_or("no parameter")?;
    assert!(rt; dictionary.insert(none) == Err(DictFault::Zero));
    let over = parameter(3, 2).ok_or("no parameter")?;
    assert!(rt; dictionary.insert(over) == Err(DictFault::MinOverMax));
    assert!(rt; dictionary.len() == 1);
    assert!(rt; *dictionary.row_at(0) == row);
    let found = dictionary.row(row.label, row.equipment).ok_or("no row")?;
    assert!(rt; *found == row);
    let other = Equipment::new(0x002).ok_or("no equipment")?;
    assert!(rt; dictionary.row(row.label, other).is_none());
    Ok(())
}
