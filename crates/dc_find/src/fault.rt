//! Why no certificate is accepted.

ghost use Rattle.std.specs.Prelude.{◌≡◌, ◌≤◌, length};
ghost use Rattle.dc_find.specs.FaultText.{obstacle_code};
ghost use Rattle.dc_find.specs.Ways.{obstacle_of};
ghost use Rattle.dc_find.specs.declared.fault.FindFault.TheVariants.{Memory};

use dc_check::Condition;
use std::alloc::AllocError;
use thiserror::Error;

/// A queue of the concentrator, by its number in the tables, from 0.
#[derive(Clone, Copy, Debug, PartialEq, Eq, Error)]
pub enum Queue {
    /// The receive queue of the bus of this number.
    #[error("input {0}")]
    Input(usize),
    /// What is due at the output of this number.
    #[error("output {0}")]
    Output(usize),
}

/// What may stand in the way of every certificate, in the order of the codes.
#[derive(Clone, Copy, Debug, PartialEq, Eq, Error)]
pub enum Obstacle {
    /// F1: no window of an input or output closes.
    #[error("no window closes")]
    NoWindowCloses,
    /// F2: more may wait than the queue of an input holds.
    #[error("more may wait than the queue holds")]
    QueueTooSmall,
    /// F3: a rule on a label is broken.
    #[error("a rule on a label is broken")]
    LabelRuleBroken,
}

impl Obstacle {
    /// The code as it is printed, as `F1`.
    pub fn code(self) -> &'static str
        ensures text { result.now ≡ obstacle_code self }
        ensures short { length result.now ≤ 2 }
    {
        match self {
            Obstacle::NoWindowCloses => "F1",
            Obstacle::QueueTooSmall => "F2",
            Obstacle::LabelRuleBroken => "F3",
        }
    }
}

/// Why there is no certificate.
#[derive(Clone, Copy, Debug, PartialEq, Eq, Error)]
pub enum FindFault {
    /// No window of 1 to [`LONGEST_WINDOW`](dc_busy::LONGEST_WINDOW) ticks closes.
    #[error("no window of 1 to 100000 ticks closes: {0}")]
    WindowNeverCloses(Queue),
    /// More may wait in the queue of the bus of this number, from 0, than it holds.
    #[error("more may wait than the queue holds: input {0}")]
    QueueTooShort(usize),
    /// A rule on the label of this number is broken, whatever is accepted of the inputs and outputs: C08, C09 or C12,
    /// or C10 and C11 together, which is told as C11.
    #[error("label {0}: {1}")]
    LabelRule(usize, Condition),
    /// Memory was refused; of the tables it says nothing.
    #[error("out of memory")]
    Memory,
}

impl From<AllocError> for FindFault {
    ghost from_gives = { λ error fault. fault ≡ Memory };

    fn from(_: AllocError) -> FindFault {
        FindFault::Memory
    }
}

impl FindFault {
    /// What stands in the way; `None` where memory was refused.
    pub fn obstacle(self) -> Option<Obstacle>
        ensures { result ≡ obstacle_of self }
    {
        match self {
            FindFault::WindowNeverCloses(_) => Some(Obstacle::NoWindowCloses),
            FindFault::QueueTooShort(_) => Some(Obstacle::QueueTooSmall),
            FindFault::LabelRule(_, _) => Some(Obstacle::LabelRuleBroken),
            FindFault::Memory => None,
        }
    }
}
