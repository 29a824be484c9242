//! The laws above the definitions of a run. Each function does nothing: its contract is the law, and holds for all
//! tables and all runs.

ghost use Rattle.dc_event.specs.Laws.{BacklogFits, IsFirstInFirstOut, QueuesGrow, AllEnter, ComeBeforeRouted};
ghost use Rattle.dc_event.specs.Laws.{PolicesEach};
ghost use Rattle.dc_event.specs.Laws.{RepliesStand, EachReplied, SendInOrder, BeginningsAdmissible};
ghost use Rattle.dc_event.specs.Laws.{SteadyAdmissible, SteadyTicks, BreaksOnce};

use dc_tables::Tables;

/// A backlog never passes the queue's capacity.
pub fn backlog_fits(tables: &Tables)
    ensures { BacklogFits tables.now }
{}

/// First in, first out: what entered a bus's queue is what the routers took and then what waits, in order.
pub fn first_in_first_out(tables: &Tables)
    ensures { IsFirstInFirstOut tables.now }
{}

/// What entered and what was taken never fall, and no more is taken than entered.
pub fn queues_grow(tables: &Tables)
    ensures { QueuesGrow tables.now }
{}

/// On a bus that has not latched, the words that came are what entered.
pub fn all_enter(tables: &Tables)
    ensures { AllEnter tables.now }
{}

/// Each routed word came no later than it was routed.
pub fn come_before_routed(tables: &Tables)
    ensures { ComeBeforeRouted tables.now }
{}

/// A policed bus lets in just the words that are not early, and they keep their streams' caps in every run; another bus
/// lets in all.
pub fn polices_each(tables: &Tables)
    ensures { PolicesEach tables.now }
{
    tables.valid();
}

/// A reply never depends on what comes after it: the outputs of a beginning are the beginning of the outputs.
pub fn replies_stand(tables: &Tables)
    ensures { RepliesStand tables.now }
{}

/// Each event has one reply.
pub fn each_replied(tables: &Tables)
    ensures { EachReplied tables.now }
{}

/// Sent entries are due entries, and leave in the order of their numbers.
pub fn send_in_order(tables: &Tables)
    ensures { SendInOrder tables.now }
{
    tables.valid();
}

/// A beginning of an admissible run is admissible.
pub fn beginnings_admissible(tables: &Tables)
    ensures { BeginningsAdmissible tables.now }
{}

/// Steady runs of every length are admissible, so that no theorem over admissible runs is empty.
pub fn steady_admissible(tables: &Tables)
    ensures { SteadyAdmissible tables.now }
{
    tables.valid();
}

/// A steady run of n ticks has n whole ticks.
pub fn steady_ticks(tables: &Tables)
    ensures { SteadyTicks tables.now }
{}

/// A run first breaks its budgets, what is asked of its sources, or its claims at one place at most.
pub fn breaks_once(tables: &Tables)
    ensures { BreaksOnce tables.now }
{}
