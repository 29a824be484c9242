//! What an engine answers, as plain numbers.
ghost use Rattle.std.specs.Prelude.{◌≡◌, Ok, Err};
ghost use Rattle.dc_engine.specs.Answers.{answer_of, bare, of_number};

use dc_core::StepFault;
use dc_event::{Actor, Reply};

/// The reply to an event, or why it was refused, as numbers. Those that the kind does not name are 0.
#[repr(C)]
#[derive(Clone, Copy, Debug, PartialEq, Eq)]
pub struct Answer {
    /// What is answered: 1 to 11 the replies, 32 to 39 the refusals; 0 tells nothing.
    pub kind: u32,
    /// The label under which a word was sent.
    pub label: u32,
    /// The word that was taken or sent.
    pub word: u32,
    /// How many words wait in the queue.
    pub backlog: u32,
    /// The bus that was visited, or the actor that owes steps.
    pub number: usize,
    /// The tick that begins.
    pub tick: u64,
}

impl Answer {
    /// An answer of this kind that tells nothing more.
    pub fn bare(kind: u32) -> Answer
        ensures { result ≡ bare kind }
    {
        Answer::of_number(kind, 0)
    }

    /// An answer of this kind that tells a number.
    fn of_number(kind: u32, number: usize) -> Answer
        ensures { result ≡ of_number kind number }
    {
        Answer {
            kind,
            label: 0,
            word: 0,
            backlog: 0,
            number,
            tick: 0,
        }
    }
}

/// The numbers of a reply.
fn replied(reply: Reply) -> Answer
    ensures { result ≡ answer_of (Ok reply) }
{
    match reply {
        Reply::Queued(backlog) => Answer {
            backlog,
            ..Answer::bare(1)
        },
        Reply::BadParity => Answer::bare(2),
        Reply::Undeclared => Answer::bare(3),
        Reply::TooEarly => Answer::bare(4),
        Reply::Overrun => Answer::bare(5),
        Reply::Latched => Answer::bare(6),
        Reply::Took(word, bus) => Answer {
            word: word.bits(),
            ..Answer::of_number(7, bus)
        },
        Reply::Empty(bus) => Answer::of_number(8, bus),
        Reply::Sent(label, word) => Answer {
            label: u32::from(label.number()),
            word: word.bits(),
            ..Answer::bare(9)
        },
        Reply::Idle => Answer::bare(10),
        Reply::Now(tick) => Answer {
            tick,
            ..Answer::bare(11)
        },
    }
}

/// The numbers of a refusal.
fn refused(fault: StepFault) -> Answer
    ensures { result ≡ answer_of (Err fault) }
{
    match fault {
        StepFault::Spent => Answer::bare(32),
        StepFault::TooSoon => Answer::bare(33),
        StepFault::Owed(Actor::Router(router)) => Answer::of_number(34, router),
        StepFault::Owed(Actor::Output(output)) => Answer::of_number(35, output),
        StepFault::TickLimit => Answer::bare(36),
        StepFault::Unknown => Answer::bare(37),
        StepFault::Owed(Actor::Wire(bus)) => Answer::of_number(38, bus),
        StepFault::Owed(Actor::Clock) => Answer::bare(39),
    }
}

/// The numbers of what a step answers.
pub fn answer_to(outcome: Result<Reply, StepFault>) -> Answer
    ensures { result ≡ answer_of outcome }
{
    match outcome {
        Ok(reply) => replied(reply),
        Err(fault) => refused(fault),
    }
}
