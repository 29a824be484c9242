//! Why an event is refused.
ghost use Rattle.std.specs.Prelude.{◌≡◌, ◌≤◌, length};
ghost use Rattle.dc_core.specs.FaultText.{step_fault_code};

use dc_event::Actor;

/// Why an event is refused.
#[derive(Clone, Copy, Debug, PartialEq, Eq)]
pub enum StepFault {
    /// The router has made its most steps in this tick.
    Spent,
    /// The output's last send lies less than its gap back.
    TooSoon,
    /// The tick can not end: some `within` ticks up to its end hold too few steps of this actor, the first such one,
    /// routers before outputs.
    Owed(Actor),
    /// The tick would pass [`LAST_TICK`](dc_transmit::LAST_TICK).
    TickLimit,
    /// The number of the event's bus, router or output is not in the tables.
    Unknown,
}

impl StepFault {
    /// The fault in one word, as it is printed: `spent`, `early`, `owed`, `ticks` or `unknown`.
    pub fn code(self) -> &'static str
        ensures text { result.now ≡ step_fault_code self }
        ensures short { length result.now ≤ 7 }
    {
        match self {
            StepFault::Spent => "spent",
            StepFault::TooSoon => "early",
            StepFault::Owed(_) => "owed",
            StepFault::TickLimit => "ticks",
            StepFault::Unknown => "unknown",
        }
    }
}
