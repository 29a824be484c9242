//! Events, their actors, replies and claims.

ghost use Rattle.std.specs.Prelude.{◌≡◌};
ghost use Rattle.dc_event.specs.ClaimNumber.{claim_number};

use dc_word::{Label, Word};

/// One step of one actor. Buses, routers and outputs are given by their numbers in the tables, from 0.
#[derive(Clone, Copy, Debug, PartialEq, Eq)]
pub enum Event {
    /// The running tick ends, and the next one begins.
    Tick,
    /// The word arrives on the bus of this number.
    Arrive(Word, usize),
    /// The router of this number makes a step.
    Route(usize),
    /// The output of this number makes a send step.
    Send(usize),
}

/// What the concentrator answers to an event.
#[derive(Clone, Copy, Debug, PartialEq, Eq)]
pub enum Reply {
    /// The word waits in its bus's queue, whose backlog is now this, in words.
    Queued(u32),
    /// The word's parity is even (ARINC Specification 429 Part 1, 2.3.4).
    BadParity,
    /// No stream of the bus declares the word's label and SDI.
    Undeclared,
    /// The bus is policed, and the word comes sooner than its stream's interval and jitter let it.
    TooEarly,
    /// The queue was full: the word is lost, and the bus latches.
    Overrun,
    /// The bus has latched before: the word is lost.
    Latched,
    /// The router took this word from the bus of this number.
    Took(Word, usize),
    /// The router visited the bus of this number, whose queue was empty.
    Empty(usize),
    /// The output sent this word under this label.
    Sent(Label, Word),
    /// No entry of the output was due and unsent.
    Idle,
    /// The number of the tick that begins.
    Now(u64),
}

/// One who makes steps.
#[derive(Clone, Copy, Debug, PartialEq, Eq)]
pub enum Actor {
    /// The wire of the bus of this number.
    Wire(usize),
    /// The router of this number.
    Router(usize),
    /// The output of this number.
    Output(usize),
    /// The clock, which ends ticks.
    Clock,
}

/// One of the four claims that a certificate makes for each admissible run.
#[derive(Clone, Copy, Debug, PartialEq, Eq)]
pub enum Claim {
    /// No receive queue overruns.
    NoOverrun,
    /// A sent word is the fallback, or copies an arrival that is young enough.
    DataAge,
    /// A live first source is used, and any live source makes the sent word usable.
    LiveSource,
    /// Each output label leaves neither too soon nor too late after its last time.
    Interval,
}

impl Claim {
    /// The claim's number as it is printed, 1 to 4.
    pub fn number(self) -> u8
        ensures { result ≡ claim_number self }
    {
        match self {
            Claim::NoOverrun => 1,
            Claim::DataAge => 2,
            Claim::LiveSource => 3,
            Claim::Interval => 4,
        }
    }
}
