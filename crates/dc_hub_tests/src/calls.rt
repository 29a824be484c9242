//! Calls of one thread.

ghost use Rattle.std.specs.Prelude.{◌≡◌};
ghost use Rattle.dc_hub.specs.Opening.{IsCharterOf};

use crate::fixture::small_certified;
use crate::runs::{End, Summary, answers, arrive, opened};
use dc_check::Certified;
use dc_core::StepFault;
use dc_event::{Event, Reply};
use dc_hub::{Charter, CloseFault, HubFault, MOST_ACTORS};
use dc_word::{Label, Word};
use std::alloc::Global;
use std::marker::Brand;
use std::process::Abort;
use std::rt::HostRuntime;
use std::sync::Wait;
use std::sync::ledger::Blank;
use std::test::Fail;

/// A word of label 203, and one of label 204.
const FIRST: Word = Word(0x600000C1);

const SECOND: Word = Word(0xE0000021);

/// What the output sends before a word has come.
const NONE: Word = Word(0xA00000C1);

/// A word is queued, a router takes it, and a tick ends: indexes 1, 2, 3.
#[test]
fn three_calls_have_indexes_1_2_3(rt: HostRuntime) -> Result<(), Fail> {
    answers(
        &rt,
        rt.alloc(),
        16,
        &[
            (Event::Arrive(FIRST, 0), Ok(Reply::Queued(1))),
            (Event::Route(0), Ok(Reply::Took(FIRST, 0))),
            (Event::Tick, Ok(Reply::Now(1))),
        ],
        (
            End::Whole,
            Ok(Summary {
                entries: 3,
                overruns: 0,
                first: 1,
                second: 0,
            }),
        ),
    )
}

/// With a receipt that the clock was not given the book does not close.
#[test]
fn a_forged_receipt_does_not_close(rt: HostRuntime) -> Result<(), Fail> {
    answers(
        &rt,
        rt.alloc(),
        16,
        &[
            (Event::Arrive(FIRST, 0), Ok(Reply::Queued(1))),
            (Event::Route(0), Ok(Reply::Took(FIRST, 0))),
            (Event::Tick, Ok(Reply::Now(1))),
        ],
        (End::Forged, Err(CloseFault::Mismatch(3))),
    )
}

/// A book of three entries is full after three calls, and closes.
#[test]
fn three_entries_fill_a_book_of_three(rt: HostRuntime) -> Result<(), Fail> {
    let label = Label::new(0o203).ok_or("no label")?;
    answers(
        &rt,
        rt.alloc(),
        3,
        &[
            (Event::Arrive(FIRST, 0), Ok(Reply::Queued(1))),
            (Event::Route(0), Ok(Reply::Took(FIRST, 0))),
            (Event::Send(0), Ok(Reply::Sent(label, FIRST))),
            (Event::Tick, Err(HubFault::TraceFull)),
        ],
        (
            End::Whole,
            Ok(Summary {
                entries: 3,
                overruns: 0,
                first: 1,
                second: 0,
            }),
        ),
    )
}

/// A full book is reported before what the step would break.
#[test]
fn a_full_book_is_reported_first(rt: HostRuntime) -> Result<(), Fail> {
    let label = Label::new(0o203).ok_or("no label")?;
    answers(
        &rt,
        rt.alloc(),
        1,
        &[
            (Event::Send(0), Ok(Reply::Sent(label, NONE))),
            (Event::Send(0), Err(HubFault::TraceFull)),
        ],
        (
            End::Whole,
            Ok(Summary {
                entries: 1,
                overruns: 0,
                first: 0,
                second: 0,
            }),
        ),
    )
}

/// A router's third step in a tick is refused, and so is a second send. Without the clock's seat the book does not close.
#[test]
fn a_seat_is_missing(rt: HostRuntime) -> Result<(), Fail> {
    let label = Label::new(0o203).ok_or("no label")?;
    answers(
        &rt,
        rt.alloc(),
        16,
        &[
            (Event::Route(0), Ok(Reply::Empty(0))),
            (Event::Route(0), Ok(Reply::Empty(0))),
            (Event::Route(0), Err(HubFault::Step(StepFault::Spent))),
            (Event::Send(0), Ok(Reply::Sent(label, NONE))),
            (Event::Send(0), Err(HubFault::Step(StepFault::TooSoon))),
        ],
        (End::NoClock, Err(CloseFault::SeatMissing)),
    )
}

/// Two words wait: a watch reads 2, and so does one that was split off before them.
fn two_words<L: Charter, R: Wait + Abort>(
    rt: &R,
    alloc: Global,
    blank: Blank,
    certified: Certified,
) -> Result<(), Fail>
    requires blank { (blank.name ≡ L.name) × (blank.parts ≡ L.parts) }
    requires charter { IsCharterOf L.certified L.limit L.whole L.parts certified 16 }
{
    let (hub, mut seats) = opened::<L>(alloc, blank, certified, 16)?;
    let mut early = hub.split(&mut seats.watch);
    assert!(rt; hub.read(&mut seats.watch, 0) == 0);
    assert!(rt; arrive(rt, &hub, &mut seats.wires, 0, FIRST).is_ok());
    assert!(rt; arrive(rt, &hub, &mut seats.wires, 0, SECOND).is_ok());
    assert!(rt; hub.read(&mut seats.watch, 0) == 2);
    assert!(rt; hub.read(&mut early, 0) == 2);
    assert!(rt; hub.read(&mut early, 1) == 0);
    Ok(())
}

#[test]
fn two_words_wait(rt: HostRuntime) -> Result<(), Fail> {
    let certified = small_certified(rt.alloc()).ok_or("no tables")?;
    certified.tables().valid();
    two_words::<Brand, HostRuntime>(&rt, rt.alloc(), Blank::new(MOST_ACTORS), certified)
}
