//! Calls that are made again where memory was refused. What each says is a line of the output.

ghost use Rattle.std.specs.Prelude.{◌≡◌};
ghost use Rattle.dc_board.specs.Marks.{IsSeatOf};
ghost use Rattle.dc_hub.specs.Opening.{IsCharterOf};
ghost use Rattle.dc_hub_tests.specs.OfBoard.{AreOfBoard};

use crate::fixture::small_certified;
use dc_board::Board;
use dc_check::Certified;
use dc_hub::{Charter, CloseFault, Hub, HubFault, MOST_ACTORS, OpenFault, Seats, Watch, WireSeat};
use dc_word::Word;
use std::alloc::Global;
use std::io;
use std::marker::Brand;
use std::sync::Wait;
use std::sync::ledger::Blank;

/// A word of label 203.
const WORD: Word = Word(0x600000C1);

/// Makes a board of two words: whether memory was there.
fn board_once<R: Print>(rt: &R, alloc: Global) -> io::Result<bool> {
    let Ok(caps) = [2u64; 2].to_vec(alloc) else {
        println!(rt; "caps: memory")?;
        return Ok(false);
    };
    let made = Board::new(alloc, caps).is_ok();
    println!(rt; "board: {}", if made { "ok" } else { "memory" })?;
    Ok(made)
}

/// Makes a board, and once more where memory was refused.
pub fn board_again<R: Print>(rt: &R, alloc: Global) -> io::Result<()> {
    if !board_once(rt, alloc)? {
        board_once(rt, alloc)?;
    }
    Ok(())
}

/// A word arrives, and once more where memory was refused; the bus's mark is read each time.
fn arrive_again<L: Charter, R: Wait + Print>(
    rt: &R,
    hub: &Hub<L>,
    wire: &mut WireSeat<L>,
    watch: &mut Watch,
) -> io::Result<()>
    requires wire { IsSeatOf hub.now wire.old.marks }
    requires watch { IsSeatOf hub.now watch.old }
{
    let mut receipt = hub.arrive(rt, wire, WORD);
    if receipt == Err(HubFault::Memory) {
        println!(rt; "arrive: memory, mark {}", hub.read(watch, 0))?;
        receipt = hub.arrive(rt, wire, WORD);
    }
    let index = match receipt {
        Ok(receipt) => receipt.index,
        Err(_) => 0,
    };
    println!(rt; "arrive: index {index}, mark {}", hub.read(watch, 0))
}

/// Closes the book.
fn close<L: Charter, R: Print>(rt: &R, hub: Hub<L>, seats: Seats<L>) -> io::Result<()> {
    match hub.close(seats) {
        Ok(closed) => println!(rt; "close: entries {}", closed.entries().len()),
        Err(CloseFault::SeatMissing) => println!(rt; "close: a seat is missing"),
        Err(CloseFault::Mismatch(index)) => println!(rt; "close: no match at {index}"),
    }
}

/// A word arrives, and the book closes.
fn arrive_and_close<L: Charter, R: Wait + Print>(
    rt: &R,
    hub: Hub<L>,
    mut seats: Seats<L>,
) -> io::Result<()>
    requires wires { AreOfBoard hub seats.wires.items }
    requires watch { IsSeatOf hub seats.watch }
{
    if !seats.wires.is_empty() {
        arrive_again(rt, &hub, &mut seats.wires[0], &mut seats.watch)?;
    }
    close(rt, hub, seats)
}

/// Opens a hub over certified tables, has a word arrive and closes the book: whether memory was there for the first.
fn hub_once<L: Charter, R: Wait + Print>(
    rt: &R,
    alloc: Global,
    blank: Blank,
    certified: Certified,
) -> io::Result<bool>
    requires blank { (blank.name ≡ L.name) × (blank.parts ≡ L.parts) }
    requires charter { IsCharterOf L.certified L.limit L.whole L.parts certified 16 }
{
    match Hub::<L>::open(alloc, blank, certified, 16) {
        Ok((hub, seats)) => {
            println!(rt; "open: ok")?;
            arrive_and_close(rt, hub, seats)?;
            Ok(true)
        }
        Err(OpenFault::Memory) => {
            println!(rt; "open: memory")?;
            Ok(false)
        }
    }
}

/// The same over the small tables, with a blank of its own.
fn hub_of_a_blank<R: Wait + Print>(rt: &R, alloc: Global) -> io::Result<bool> {
    let Some(certified) = small_certified(alloc) else {
        println!(rt; "tables: memory")?;
        return Ok(false);
    };
    certified.tables().valid();
    hub_once::<Brand, R>(rt, alloc, Blank::new(MOST_ACTORS), certified)
}

/// Opens a hub, and once more where memory was refused.
pub fn hub_again<R: Wait + Print>(rt: &R, alloc: Global) -> io::Result<()> {
    if !hub_of_a_blank(rt, alloc)? {
        hub_of_a_blank(rt, alloc)?;
    }
    Ok(())
}
