//! A step of a router.

ghost use Rattle.std.specs.Prelude.{◌≡◌, ℕ, ◌<◌, length, slice_get, slice_set, Option, Some};
ghost use Rattle.dc_queue.specs.QueueData.{QueueData};
ghost use Rattle.dc_route.specs.Routing.{RouterData, next_bus, moved_on, queue_at, rest_of, routed};

use crate::latest::Latest;
use dc_queue::queue::WordQueue;
use dc_tables::Tables;
use dc_word::Word;
use std::marker::Model;

/// A router at a place in its list of visits.
#[derive(Clone, Copy, Debug, PartialEq)]
pub struct Router {
    number: usize,
    cursor: usize,
}

impl Model for Router {
    ghost use Rattle.dc_route.specs.Routing.{RouterData};

    ghost Value = { RouterData };

    ghost view = { λ r. record { number = r.number; cursor = r.cursor } };

    ghost inverse = { λ d. record { number = d.number; cursor = d.cursor } };
}

impl Router {
    /// The router of this number, before its first visit.
    pub fn new(number: usize) -> Router
        ensures { result ≡ record { number = number; cursor = 0 } }
    {
        Router { number, cursor: 0 }
    }

    /// Visits the next bus of the list: takes the oldest word of its queue, if there is one, as the latest of its
    /// stream, routed in this tick. Answers the bus and that word. An empty queue spends the step.
    pub fn visit(
        &mut self,
        tables: &Tables,
        queues: &mut [WordQueue],
        latest: &mut Latest,
        tick: u64,
    ) -> (usize, Option<Word>)
        requires router { self.old.number < length tables.now.routers }
        requires queues { length queues.old ≡ length tables.now.buses }
        requires latest { length latest.old ≡ length tables.now.streams }
        ensures bus { result.0 ≡ next_bus tables.now self.old }
        ensures there { result.0 < length tables.now.buses }
        ensures word { result.1 ≡ slice_get (queue_at queues.old result.0).words 0 }
        ensures router { self.new ≡ moved_on tables.now self.old }
        ensures queues { queues.new ≡ slice_set queues.old result.0 (rest_of (queue_at queues.old result.0)) }
        ensures latest { latest.new ≡ routed tables.now result.0 tick result.1 latest.old }
    {
        let (bus, next) = tables.visit(self.number, self.cursor);
        self.cursor = next;
        let queue = &mut queues[bus];
        let taken = queue.take();
        if let Some(word) = taken {
            note(tables, latest, bus, word, tick);
        }
        (bus, taken)
    }
}

/// Keeps a word off a bus as the latest of the stream that declares it, if one does.
fn note(tables: &Tables, latest: &mut Latest, bus: usize, word: Word, tick: u64)
    requires { length latest.old ≡ length tables.now.streams }
    ensures { latest.new ≡ routed tables.now bus tick (Some word) latest.old }
{
    if let Some(stream) = tables.stream_of(bus, word) {
        latest.set(stream, word, tick);
    }
}
