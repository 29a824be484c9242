//! What is asked of a plan beside the rows.

/// So many percent are left of queues and budgets where nothing else is asked, as far as that goes.
const SOFT: u64 = 25;

/// The length of a tick, and what is to be left free.
#[derive(Clone, Copy)]
pub struct Knobs {
    /// The length of a tick, in microseconds.
    pub tick: u64,
    /// So many percent of queues and budgets are left.
    pub leave: u64,
    /// Whether no less may be left, also of wires and ages.
    pub is_hard: bool,
    /// So many percent of queues, wires and ages may be used.
    pub share: u64,
    /// Whether no other tick is tried.
    pub is_only: bool,
    /// What helps beside, where only this tick is tried.
    pub shorter: &'static str,
    /// Whether buses are visited by timeouts too, and no source is kept for longer than its label's age lets it.
    pub is_prompt: bool,
}

impl Knobs {
    /// For ticks of this length, with so many percent to be left free where that is asked; `is_only` where no other
    /// tick is tried.
    pub fn new(tick: u64, headroom: Option<u64>, is_only: bool) -> Knobs {
        let (leave, is_hard) = match headroom {
            Some(percent) => (percent.min(90), true),
            None => (SOFT, false),
        };
        Knobs {
            tick,
            leave,
            is_hard,
            share: if is_hard {
                100u64.saturating_sub(leave)
            } else {
                100
            },
            is_only,
            shorter: if is_only && tick > 100 {
                ", or a shorter tick"
            } else {
                ""
            },
            is_prompt: false,
        }
    }

    /// The same with buses that are visited by timeouts too.
    pub fn promptly(self) -> Knobs {
        Knobs {
            is_prompt: true,
            ..self
        }
    }

    /// What is said where less may be used than there is.
    pub fn with_headroom(&self) -> &'static str {
        if self.share < 100 {
            " with the headroom"
        } else {
            ""
        }
    }

    /// What helps beside, where less may be used than there is.
    pub fn freer(&self) -> &'static str {
        if self.share < 100 {
            ", or less headroom"
        } else {
            ""
        }
    }

    /// What is used where so much is left, in percent.
    pub fn used(&self) -> u64 {
        100u64.saturating_sub(self.leave)
    }
}
