//! Whether the seats were answered their actors' steps.

ghost use Rattle.std.specs.Prelude.{◌≡◌, ◌≢◌, true, false, IfOk, drop, length, map};
ghost use Rattle.dc_drive.specs.Played.{HasPlayed, arrivals, events, own, role};
ghost use Rattle.dc_event.specs.Steady.{steady as steady_of};

use crate::player::words_of;
use dc_event::{Actor, Event};
use dc_hub::{Charter, Receipt, Seat, makes};
use dc_script::{Script, Timed};
use dc_tables::Tables;

/// Whether the receipts after the first `before` are of the actor's own events of the run.
fn are_own(receipts: &[Receipt], before: usize, actor: &Actor, run: &[Event]) -> bool
    ensures yes { result ≡ true → events (drop before receipts.now) ≡ own actor.now run.now }
    ensures no { result ≡ false → events (drop before receipts.now) ≢ own actor.now run.now }
{
    let mut next = before.min(receipts.len());
    for i in 0..run.len() {
        if !makes(actor, &run[i]) {
            continue;
        }
        if next >= receipts.len() {
            return false;
        }
        if receipts[next].event != run[i] {
            return false;
        }
        next += 1;
    }
    if next < receipts.len() {
        return false;
    }
    true
}

/// Whether the receipts after the first `before` are of the arrivals of a wire's words.
fn are_arrivals(receipts: &[Receipt], before: usize, bus: usize, words: &[Timed]) -> bool
    ensures yes { result ≡ true → events (drop before receipts.now) ≡ arrivals bus words.now }
    ensures no { result ≡ false → events (drop before receipts.now) ≢ arrivals bus words.now }
{
    let mut next = before.min(receipts.len());
    for i in 0..words.len() {
        if next >= receipts.len() {
            return false;
        }
        if receipts[next].event != Event::Arrive(words[i].word, bus) {
            return false;
        }
        next += 1;
    }
    if next < receipts.len() {
        return false;
    }
    true
}

/// Whether the seat's receipts after the first `before` are its actor's role, where `run` is the steady run.
pub(crate) fn has_played<L: Charter>(
    tables: &Tables,
    script: &Script,
    run: &[Event],
    before: usize,
    seat: &Seat<L>,
) -> bool
    requires { run.now ≡ steady_of tables.now script.now.ticks }
    ensures yes { result ≡ true → HasPlayed tables.now script.now before seat.now }
    ensures no { result ≡ false → ¬ HasPlayed tables.now script.now before seat.now }
{
    let _tables = tables;
    let actor = seat.actor();
    match actor {
        Actor::Wire(bus) => are_arrivals(seat.receipts(), before, bus, words_of(script, bus)),
        _ => are_own(seat.receipts(), before, &actor, run),
    }
}
