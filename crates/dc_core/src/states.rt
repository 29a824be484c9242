//! The state of one bus, one router, one output.

ghost use Rattle.std.specs.Prelude.{◌≡◌, ℕ, ◌+◌, ◌<◌, ◌^◌, length, Bool, true, cond, nat_lt, Option, Some, None, slice_get, slice_set};
ghost use Rattle.dc_queue.specs.WindowData.{WindowData, added};
ghost use Rattle.dc_route.specs.Routing.{next_bus, queue_at, rest_of, routed};
ghost use Rattle.dc_core.specs.States.{Receives, visit_reply_of, router_stepped, router_turned, output_turned, output_sent};

use dc_event::Reply;
use dc_queue::queue::WordQueue;
use dc_queue::window::StepWindow;
use dc_route::{Latest, Router};
use dc_tables::Tables;
use dc_word::Word;

/// Takes a declared word into a bus's queue, unless the bus has latched. A full queue latches it.
pub fn receive(queue: &mut WordQueue, latched: &mut bool, word: Word) -> Reply
    ensures { Receives (record { queue = queue.old; latched = latched.old }) word result (record { queue = queue.new; latched = latched.new }) }
{
    if *latched {
        return Reply::Latched;
    }
    match queue.put(word) {
        Ok(backlog) => Reply::Queued(backlog),
        Err(_) => {
            *latched = true;
            Reply::Overrun
        }
    }
}

/// The reply to a visit of the bus.
pub fn visit_reply(bus: usize, taken: Option<Word>) -> Reply
    ensures { result ≡ visit_reply_of bus taken }
{
    match taken {
        Some(word) => Reply::Took(word, bus),
        None => Reply::Empty(bus),
    }
}

/// The state of a router.
#[derive(Drop)]
pub struct RouterState {
    /// The router at its place in its list of visits.
    pub router: Router,
    /// Its steps of the last ticks.
    pub window: StepWindow,
}

impl RouterState {
    /// Makes a step in this tick: visits the next bus. Answers the bus, and the word that was taken, if there was one.
    pub fn step(
        &mut self,
        tables: &Tables,
        queues: &mut [WordQueue],
        latest: &mut Latest,
        tick: u64,
    ) -> (usize, Option<Word>)
        requires open { self.old.window.count < self.old.window.room }
        requires router { self.old.router.number < length tables.now.routers }
        requires queues { length queues.old ≡ length tables.now.buses }
        requires latest { length latest.old ≡ length tables.now.streams }
        ensures bus { result.0 ≡ next_bus tables.now self.old.router }
        ensures there { result.0 < length tables.now.buses }
        ensures word { result.1 ≡ slice_get (queue_at queues.old result.0).words 0 }
        ensures after { self.new ≡ router_stepped tables.now self.old }
        ensures queues { queues.new ≡ slice_set queues.old result.0 (rest_of (queue_at queues.old result.0)) }
        ensures latest { latest.new ≡ routed tables.now result.0 tick result.1 latest.old }
    {
        self.window.add();
        self.router.visit(tables, queues, latest, tick)
    }

    /// Ends the tick.
    pub fn turn(&mut self)
        ensures { self.new ≡ router_turned self.old }
    {
        self.window.turn();
    }
}

/// The state of an output.
#[derive(Drop)]
pub struct OutputState {
    /// How many of its entries have left.
    pub sent: u64,
    /// The tick of its last send, where there was one.
    pub last: Option<u64>,
    /// Its sends of the last ticks.
    pub window: StepWindow,
}

impl OutputState {
    /// Makes a send in this tick, which emits an entry or is idle.
    pub fn send(&mut self, tick: u64, emits: bool)
        requires open { self.old.window.count < self.old.window.room }
        requires few { emits ≡ true → self.old.sent < 2 ^ 41 }
        ensures { self.new ≡ output_sent self.old tick (cond emits 1 0) }
    {
        if emits {
            self.sent += 1;
        }
        self.last = Some(tick);
        self.window.add();
    }

    /// Ends the tick.
    pub fn turn(&mut self)
        ensures { self.new ≡ output_turned self.old }
    {
        self.window.turn();
    }
}
