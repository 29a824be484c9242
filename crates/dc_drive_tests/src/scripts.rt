//! The script of a bench.

use crate::fixture::equal_plan;
use dc_script::{Script, Timed};
use dc_word::Word;
use std::process::Abort;
use std::rt::HostRuntime;
use std::test::Fail;

/// The first four words of bus A, and how many there are in 200 ticks.
fn compare<R: Abort>(rt: &R, script: &Script) {
    assert!(rt; script.ticks() == 200);
    assert!(rt; script.bus_count() == 1);
    if script.bus_count() == 1 {
        let words = script.words(0);
        assert!(rt; words.len() == 40);
        let first = [
            Timed {
                tick: 0,
                word: Word(0x600000C1),
            },
            Timed {
                tick: 0,
                word: Word(0xE0000021),
            },
            Timed {
                tick: 10,
                word: Word(0x600028C1),
            },
            Timed {
                tick: 10,
                word: Word(0xE0002821),
            },
        ];
        for (wanted, word) in first.iter().zip(words) {
            assert!(rt; *word == *wanted);
        }
    }
}

#[test]
fn words_of_the_small_tables(rt: HostRuntime) -> Result<(), Fail> {
    let plan = equal_plan(rt.alloc(), 1, false).ok_or("no tables")?;
    let script = Script::bench(rt.alloc(), &plan.tables, 200)?;
    compare(&rt, &script);
    Ok(())
}
