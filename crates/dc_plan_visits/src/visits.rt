//! Buses and routers, as they are planned.
use dc_design_rows::{Letters, Span};
use std::alloc::Global;

/// What the task of a router surely does, as the rows say it, in ticks.
#[derive(Clone, Copy)]
pub struct Budget {
    /// So many steps ..
    pub steps: u64,
    /// .. in any so many ticks.
    pub within: u64,
    /// At most so many in one tick, with room for two runs of the task where one makes all its steps.
    pub most: u64,
}

/// How a bus is visited.
#[derive(Clone, Copy)]
pub struct BusPlan {
    /// So many visits ..
    pub steps: u64,
    /// .. in each so many ticks.
    pub within: u64,
    /// So many words wait at most.
    pub backlog: u64,
    /// So many ticks they wait at most.
    pub delay: u64,
    /// So many words its queue takes.
    pub queue: u64,
    /// So many percent of the wire its streams may take.
    pub load: u64,
    /// How often it is visited in a round of its router, where the rows say what the task of that does.
    pub turns: u64,
    /// What that task does, where the rows say so.
    pub budget: Option<Budget>,
}

/// A router.
#[derive(Clone, Copy)]
pub struct RouterPlan {
    /// Its name.
    pub name: Letters,
    /// So many steps ..
    pub steps: u64,
    /// .. in each so many ticks.
    pub within: u64,
    /// The most steps in one tick.
    pub most: u64,
    /// The buses that it visits in turn, in [`Visits::turns`].
    pub turns: Span,
}

/// The visits of all buses.
#[derive(Drop)]
pub struct Visits {
    /// How each bus is visited, in the order of the document's buses.
    pub buses: Vec<BusPlan>,
    /// The routers, in the order of the first bus of each.
    pub routers: Vec<RouterPlan>,
    /// The numbers of the buses that the routers visit, router by router.
    pub turns: Vec<usize>,
}

impl Visits {
    /// No visits yet.
    pub fn new(alloc: Global) -> Visits {
        Visits {
            buses: Vec::new(alloc),
            routers: Vec::new(alloc),
            turns: Vec::new(alloc),
        }
    }
}
