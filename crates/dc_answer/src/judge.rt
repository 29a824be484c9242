//! What an engine judges.
ghost use Rattle.std.specs.Prelude.{◌≡◌, ◌≢◌, ℕ, List, [], Err, IfErr, Some};
ghost use Rattle.dc_answer.specs.Answer.{Answer};
ghost use Rattle.dc_answer.specs.Given.{AreCountable, AreTexts, AskUpTo, OnlyAfter, failures};
ghost use Rattle.dc_answer.specs.Judging.{Keeps, Raised, to_write};

use crate::answer::Failure;
use crate::exit::Outcome;
use crate::given::{End, Given};
use crate::page::Page;
use std::alloc::{AllocError, Global};

/// Why nothing was judged.
#[derive(Clone, Copy, Debug, PartialEq, Eq)]
pub enum Unjudged {
    /// A source failed.
    Device,
    /// Memory was refused.
    Memory,
    /// What is told as `failed threads`.
    Threads,
}

/// Why nothing was judged, where this kept a text from being read.
pub fn unread(failure: Failure) -> Unjudged
    requires { failure ≢ Failure.Sink }
    ensures told { to_write (Err result) ≡ Some (Err failure) }
    ensures threads { result ≢ Unjudged.Threads }
{
    match failure {
        Failure::Source => Unjudged::Device,
        Failure::Memory => Unjudged::Memory,
        Failure::Sink => unreachable!(),
    }
}

/// What judges the texts that sources give, when so much is known already: with `()`, an engine. `H` is what it runs
/// by: anything where it starts no thread.
pub trait Judge<H, C, G: Given> {
    // That it may be asked to.
    ghost may_judge: { Self → Type 0 };

    // That it may answer that no thread could be started.
    ghost starts_threads: { Self → Type 0 };

    // How many bytes it reads of each text at most.
    ghost limits: { Self → List ℕ };

    // That it asks for the text behind these.
    ghost goes_on: { Self → C → List (List ℕ) → Type 0 };

    // What it answers to the texts.
    ghost answers: { Self → C → List (List ℕ) → Answer → Type 0 };

    /// Judges, and keeps the answer.
    ///
    /// # Errors
    /// `Device` where a source failed, `Memory` where memory was refused; `Threads`, of which no clause says when.
    fn judge(
        &self,
        rt: &H,
        alloc: Global,
        known: C,
        given: &mut G,
        page: &mut Page,
    ) -> Result<Outcome, Unjudged>
        requires may { may_judge self.now }
        requires countable { AreCountable (G.states given.old) }
        ensures answer { (texts : List (List ℕ)) → AreTexts (G.states given.old) texts → Keeps (answers self.now known texts) page.new result }
        ensures raises { Raised (failures (G.states given.old)) (failures (G.states given.new)) result }
        ensures asks { AskUpTo (limits self.now) (G.states given.old) (G.states given.new) }
        ensures order { OnlyAfter (goes_on self.now known) (G.states given.old) (λ k. G.kept k given.old given.new) }
        ensures threads { IfErr result (λ e. e ≡ Unjudged.Threads → starts_threads self.now) }
        ensures lent { G.lent given.new ≡ G.lent given.old };
}

/// What answers when all is read, and starts no thread.
pub trait Tell<C> {
    // What it answers.
    ghost answers: { Self → C → Answer → Type 0 };

    /// Judges what is known, and keeps the answer.
    ///
    /// # Errors
    /// `AllocError` where memory was refused.
    fn tell(&self, alloc: Global, known: C, page: &mut Page) -> Result<Outcome, AllocError>
        ensures { Keeps (answers self.now known) page.new result };
}

/// The end of an engine that starts no thread: it answers when all is read.
#[derive(Clone, Copy, Debug)]
pub struct Then<T>(pub T);

impl<H, C, T: Tell<C>> Judge<H, C, End> for Then<T> {
    ghost may_judge = { λ j. Unit {0} };

    ghost starts_threads = { λ j. ⊥ };

    ghost limits = { λ j. [] };

    ghost goes_on = { λ j known texts. Unit {0} };

    ghost answers = { λ j known texts answer. T.answers j.0 known answer };

    fn judge(
        &self,
        _rt: &H,
        alloc: Global,
        known: C,
        _given: &mut End,
        page: &mut Page,
    ) -> Result<Outcome, Unjudged> {
        match self.0.tell(alloc, known, page) {
            Ok(outcome) => Ok(outcome),
            Err(_) => Err(Unjudged::Memory),
        }
    }
}
