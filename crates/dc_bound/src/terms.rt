//! What a walk along a sum keeps of its members, so that a step asks the one that was found to end first, and of the
//! others those alone that end there too.

ghost use Rattle.std.specs.Prelude.{◌/◌, ◌≡◌, IfSome, ◌≢◌, ℕ, ◌<◌, ◌≤◌, length, get_or, replicate};
ghost use Rattle.std.specs.Option.{unwrap_or};
ghost use Rattle.std.specs.List.{sum_by};
ghost use Rattle.dc_bound.specs.Terms.{KeepsTerms};
ghost use Rattle.dc_bound.specs.declared.limits.TheConstants.{GREATEST_CAP, LONGEST_SPAN};
ghost use Rattle.dc_bound.specs.declared.terms.TheConstants.{MOST_TERMS};

use crate::arrival::{ArrivalBound, NO_JUMP};

/// At most so many members are asked anew at each step, and a walk blanks nothing for them: that costs about as much as
/// to keep what they said.
pub(crate) const FEW_TERMS: usize = 4;

/// The most members of which a walk keeps what they said.
pub(crate) const MOST_TERMS: usize = 256;

/// The most members of which a step begins with the pass that asks, behind one at which others ended too: of more a
/// look at the marks alone costs much less.
const MOST_CROWDED: usize = 24;

/// What a number of ticks is multiplied by in a mark; a place is less.
const MARK: u32 = 256;

/// Of each member of a sum how many entries it lets come, and from how many ticks on that is no longer so.
#[derive(Drop)]
pub(crate) struct Terms {
    pub(crate) total: u64,
    // the member that was found to end first
    first: usize,
    // whether the pass that asks did ask others when it last ran, and they are few: the next step begins with it
    crowded: bool,
    counts: [u64; MOST_TERMS],
    // of each member the number of ticks at which it ends, times MARK, and its place: so the least tells both
    marks: [u32; MOST_TERMS],
}

impl Terms {
    /// What is kept of members that were not asked yet.
    pub(crate) fn new() -> Terms
        ensures total { result.total ≡ 0 }
        ensures counts { result.counts ≡ replicate 256 0 }
        ensures marks { result.marks ≡ replicate 256 0 }
    {
        Terms {
            total: 0,
            first: 0,
            crowded: false,
            counts: [0; MOST_TERMS],
            marks: [0; MOST_TERMS],
        }
    }

    /// Asks the member that was found to end first, and those that end at so many ticks or before. Tells a number of
    /// ticks above these before which none ends, at most `end`: where no other ends there, by one look at all marks, else
    /// by the pass that asks the others, with which, of few members, the next step begins.
    pub(crate) fn next<B: ArrivalBound>(&mut self, members: &[B], ticks: u32, end: u32) -> u32
        requires few { length members.now ≤ MOST_TERMS }
        requires small { sum_by (λ (b : B). B.cap b LONGEST_SPAN) members.now ≤ GREATEST_CAP }
        requires inside { ticks ≤ LONGEST_SPAN }
        requires short { ticks < end }
        requires far { end ≤ LONGEST_SPAN }
        requires kept { KeepsTerms B.cap members.now ticks self.old }
        ensures kept { KeepsTerms B.cap members.now ticks self.new }
        ensures end { result ≤ end }
        ensures first { (i : ℕ) → i < length members.now → result ≤ get_or self.new.marks i 0 / 256 }
        ensures later { ticks < result }
    {
        self.ask_first(members, ticks);
        let least = self.least_ahead(members, ticks, end);
        self.first = (least % MARK) as usize;
        least / MARK
    }

    /// The least mark, once no member ends at so many ticks or before; at most that of `end`.
    fn least_ahead<B: ArrivalBound>(&mut self, members: &[B], ticks: u32, end: u32) -> u32
        requires few { length members.now ≤ MOST_TERMS }
        requires small { sum_by (λ (b : B). B.cap b LONGEST_SPAN) members.now ≤ GREATEST_CAP }
        requires inside { ticks ≤ LONGEST_SPAN }
        requires short { ticks < end }
        requires far { end ≤ LONGEST_SPAN }
        requires kept { KeepsTerms B.cap members.now ticks self.old }
        ensures kept { KeepsTerms B.cap members.now ticks self.new }
        ensures end { result / 256 ≤ end }
        ensures first { (i : ℕ) → i < length members.now → result / 256 ≤ get_or self.new.marks i 0 / 256 }
        ensures later { ticks < result / 256 }
    {
        if !self.crowded {
            let found = self.least(members.len(), end * MARK);
            if ticks < found / MARK {
                return found;
            }
        }
        self.renew(members, ticks, end)
    }

    /// Asks the member that was found to end first.
    fn ask_first<B: ArrivalBound>(&mut self, members: &[B], ticks: u32)
        requires few { length members.now ≤ MOST_TERMS }
        requires small { sum_by (λ (b : B). B.cap b LONGEST_SPAN) members.now ≤ GREATEST_CAP }
        requires inside { ticks ≤ LONGEST_SPAN }
        requires kept { KeepsTerms B.cap members.now ticks self.old }
        ensures { KeepsTerms B.cap members.now ticks self.new }
    {
        let first = self.first;
        if first >= members.len() {
            return;
        }
        self.ask(members, first, ticks);
    }

    /// Asks the members of which nothing is known any more at so many ticks. The least mark then, at most that of `end`.
    fn renew<B: ArrivalBound>(&mut self, members: &[B], ticks: u32, end: u32) -> u32
        requires few { length members.now ≤ MOST_TERMS }
        requires small { sum_by (λ (b : B). B.cap b LONGEST_SPAN) members.now ≤ GREATEST_CAP }
        requires inside { ticks ≤ LONGEST_SPAN }
        requires short { ticks < end }
        requires far { end ≤ LONGEST_SPAN }
        requires kept { KeepsTerms B.cap members.now ticks self.old }
        ensures kept { KeepsTerms B.cap members.now ticks self.new }
        ensures end { result / 256 ≤ end }
        ensures first { (i : ℕ) → i < length members.now → result / 256 ≤ get_or self.new.marks i 0 / 256 }
        ensures later { ticks < result / 256 }
    {
        let mut found = end * MARK;
        let mut asked = false;
        for i in 0..members.len() {
            if self.marks[i] / MARK <= ticks {
                self.ask(members, i, ticks);
                asked = true;
            }
            found = found.min(self.marks[i]);
        }
        self.crowded = asked && members.len() <= MOST_CROWDED;
        found
    }

    /// Asks one member anew; the total changes by what it changes.
    fn ask<B: ArrivalBound>(&mut self, members: &[B], i: usize, ticks: u32)
        requires few { length members.now ≤ MOST_TERMS }
        requires small { sum_by (λ (b : B). B.cap b LONGEST_SPAN) members.now ≤ GREATEST_CAP }
        requires inside { ticks ≤ LONGEST_SPAN }
        requires index { i < length members.now }
        requires kept { KeepsTerms B.cap members.now ticks self.old }
        ensures kept { KeepsTerms B.cap members.now ticks self.new }
        ensures ahead { ticks < get_or self.new.marks i 0 / 256 }
        ensures others { (j : ℕ) → j ≢ i → get_or self.new.marks j 0 ≡ get_or self.old.marks j 0 }
    {
        let (most, jump) = members[i].at_most_and_jump(ticks);
        self.total = self.total - self.counts[i] + most;
        self.counts[i] = most;
        self.marks[i] = mark(jump, i);
    }

    /// The least mark of so many members, at most `end`.
    fn least(&self, members: usize, end: u32) -> u32
        requires few { members ≤ MOST_TERMS }
        ensures end { result ≤ end }
        ensures first { (i : ℕ) → i < members → result ≤ get_or self.now.marks i 0 }
    {
        let mut least = end;
        for i in 0..members {
            least = least.min(self.marks[i]);
        }
        least
    }
}

/// The mark of a member that ends at its jump, at a place.
fn mark(jump: Option<u32>, place: usize) -> u32
    requires near { IfSome jump (λ j. j ≤ LONGEST_SPAN) }
    requires inside { place < 256 }
    ensures { result / 256 ≡ unwrap_or jump 1000001 }
{
    jump.unwrap_or(NO_JUMP) * MARK + place as u32
}
