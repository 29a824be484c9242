//! The board, over a table of words that change in single steps.

ghost use Rattle.std.specs.Prelude.{◌≡◌, ℕ, List, ◌+◌, ◌<◌, ◌≤◌, IfOk, length, slice_index, slice_set, max, replicate};
ghost use Rattle.atomic_table.specs.Seated.{TableId};
ghost use Rattle.dc_board.specs.declared.view.View.{View};
ghost use Rattle.dc_board.specs.Marks.{IsBoard, fresh, Notes, Reads, raised, stepped_once, IsSeatOf};
ghost use Rattle.dc_board.specs.declared.limits.TheConstants.{MOST_WORDS};

use crate::limits::MOST_WORDS;
use crate::view::View;
use atomic_table::{Play, Seat, Split, Table, TableRule};
use std::alloc::{AllocError, Global};
use std::marker::Model;

/// The rule of a board. Its key are the caps.
struct Law;

impl TableRule<(), View, Vec<u64>> for Law {
    ghost holds = { λ caps. IsBoard caps.items };

    ghost first = { λ caps. fresh caps.items };
}

struct Note;

impl Play<(), View> for Note {
    ghost then = { Notes };
}

struct Read;

impl Play<(), View> for Read {
    ghost then = { Reads };
}

struct Apart;

impl Split<View> for Apart {
    ghost left = { stepped_once };

    ghost right = { λ v. fresh v.caps };
}

/// Marks that threads share. Contracts see which board it is, and its caps.
#[derive(Drop)]
pub struct Board {
    caps: Vec<u64>,
    table: Table<(), View, Vec<u64>, Law, Global>,
}

impl Model for Board {
    ghost Value = { TableId × List ℕ };

    ghost view = { λ b. (b.table.shared.table_id, b.caps.items) };

    ghost invariant = { λ b. (b.table.shared.key ≡ b.caps) × (b.table.shared.table_id.words ≡ length b.caps.items + 1) };
}

/// What a thread notes and reads with. Contracts see which board it is of, and what it knows.
#[derive(Drop)]
pub struct BoardSeat {
    seat: Seat<(), View>,
}

impl Model for BoardSeat {
    ghost Value = { TableId × View };

    ghost view = { λ s. (s.seat.table_id, s.seat.me.0) };
}

impl Board {
    /// A board with a word for each cap, at most [`MOST_WORDS`], and a seat that has noted and seen nothing.
    ///
    /// # Errors
    /// Out of memory.
    pub fn new(alloc: Global, caps: Vec<u64>) -> Result<(Board, BoardSeat), AllocError>
        requires { length caps.items ≤ MOST_WORDS }
        ensures board { IfOk result (λ r. r.0.1 ≡ caps.items) }
        ensures seat { IfOk result (λ r. IsSeatOf r.0 r.1 × (r.1.1 ≡ fresh caps.items)) }
    {
        let all = [0u64; MOST_WORDS + 1];
        let (table, seat) = Table::of_words(alloc, zeros(&all, caps.len() + 1), &caps)?;
        Ok((Board { caps, table }, BoardSeat { seat }))
    }

    /// The most that the word of this number, from 0, can hold.
    pub fn cap(&self, i: usize) -> u64
        requires { i < length self.now.1 }
        ensures { result ≡ slice_index self.now.1 i }
    {
        self.caps[i]
    }

    /// Notes a mark, at most the word's cap, in one step: the word is at least as great from then on.
    pub fn note(&self, seat: &mut BoardSeat, i: usize, mark: u64)
        requires seat { IsSeatOf self.now seat.old }
        requires index { i < length self.now.1 }
        requires mark { mark ≤ slice_index self.now.1 i }
        ensures seat { IsSeatOf self.now seat.new }
        ensures noted { seat.new.1.noted ≡ raised seat.old.1.noted i mark }
        ensures seen { (found : ℕ) × (slice_index seat.old.1.seen i ≤ found) × (seat.new.1.seen ≡ slice_set seat.old.1.seen i (max found mark)) }
        ensures step { seat.new.1.steps ≡ seat.old.1.steps + 1 }
    {
        self.table
            .shared
            .fetch_max::<Note>(&mut seat.seat, i + 1, mark);
    }

    /// The mark of a word, read in one step: at least what the seat saw there before, and it has seen it then.
    pub fn read(&self, seat: &mut BoardSeat, i: usize) -> u64
        requires seat { IsSeatOf self.now seat.old }
        requires index { i < length self.now.1 }
        ensures seat { IsSeatOf self.now seat.new }
        ensures noted { seat.new.1.noted ≡ seat.old.1.noted }
        ensures seen { seat.new.1.seen ≡ slice_set seat.old.1.seen i result }
        ensures shown { slice_index seat.new.1.seen i ≡ result }
        ensures rises { slice_index seat.old.1.seen i ≤ result }
        ensures cap { result ≤ slice_index self.now.1 i }
        ensures step { seat.new.1.steps ≡ seat.old.1.steps + 1 }
    {
        self.table.shared.load::<Read>(&mut seat.seat, i + 1)
    }

    /// A seat of the board that has noted and seen nothing, made in one step.
    pub fn split(&self, seat: &mut BoardSeat) -> BoardSeat
        requires { IsSeatOf self.now seat.old }
        ensures same { seat.new.1 ≡ stepped_once seat.old.1 }
        ensures seat { IsSeatOf self.now seat.new }
        ensures new { IsSeatOf self.now result × (result.1 ≡ fresh self.now.1) }
    {
        BoardSeat {
            seat: self.table.shared.split_seat::<Apart>(&mut seat.seat),
        }
    }
}

/// The marks of so many words, of which none is noted.
fn zeros(all: &[u64], count: usize) -> &[u64]
    requires all { all.now ≡ replicate 65 0 }
    requires count { count ≤ 65 }
    ensures { result.now ≡ replicate count 0 }
{
    &all[..count]
}
