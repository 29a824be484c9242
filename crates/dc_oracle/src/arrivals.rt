//! What came to the buses.

ghost use Rattle.std.specs.Prelude.{◌≡◌, ℕ, ◌-◌, ◌<◌, ◌^◌, List, [], ◌∷◌, ◌++◌, length, slice_set, slice_index_or, Some, None, IfOk, IfSome, OnOk};
ghost use Rattle.dc_event.specs.Admissible.{IsNumbered};
ghost use Rattle.dc_event.specs.Replies.{reply as reply_to};
ghost use Rattle.dc_event.specs.Time.{tick_after};
ghost use Rattle.dc_tables.specs.Declares.{stream_of};
ghost use Rattle.dc_oracle.specs.Fresh.{AllMade};
ghost use Rattle.dc_oracle.specs.Arrivals.{is_arrival, taken_bus};
ghost use Rattle.dc_oracle.specs.Life.{no_life};
ghost use Rattle.dc_event.specs.declared.event.Event.{Event};

use crate::bus_log::BusLog;
use crate::life::Life;
use crate::replies::{ReplyWatch, all_of};
use dc_event::laws::queues_grow;
use dc_event::{Event, Reply};
use dc_tables::Tables;
use dc_word::Word;
use std::alloc::{AllocError, Global};

/// What came to the buses so far: how each stream has come, and the tick in which the latest word of each stream came.
#[derive(Drop)]
pub struct ArrivalWatch {
    lives: Vec<Life>,
    latest: Vec<Option<u64>>,
}

/// Whether a word was an arrival, by the reply to it.
fn is_arrival(reply: &Reply) -> bool
    ensures { result ≡ is_arrival reply.now }
{
    matches!(*reply, Reply::Queued(_) | Reply::Overrun | Reply::Latched)
}

/// The bus from which the reply tells a word to be taken.
fn taken_bus(reply: &Reply) -> Option<usize>
    ensures { result ≡ taken_bus reply.now }
{
    match *reply {
        Reply::Took(_, bus) => Some(bus),
        _ => None,
    }
}

/// Keeps the tick in which the stream's latest word came.
fn note(latest: &mut Vec<Option<u64>>, stream: usize, came: u64)
    ensures { latest.new.items ≡ slice_set latest.old.items stream (Some came) }
{
    if stream < latest.len() {
        latest[stream] = Some(came);
    }
}

/// So many streams that brought nothing.
fn no_lives(alloc: Global, count: usize) -> Result<Vec<Life>, AllocError>
    ensures { IfOk result (λ v. AllMade (λ _. no_life) no_life count v.items) }
{
    let none = Life {
        quiet: 0,
        broken: 0,
        bnr: 0,
        bcd: 0,
        disc: 0,
    };
    all_of(alloc, count, none)
}

impl ArrivalWatch {
    ghost use Rattle.dc_oracle.specs.Arrivals.{IsSized, Follows};
    ghost use Rattle.dc_oracle.specs.Replies.{Holds, IsSized as AreReplies};
    ghost use Rattle.dc_event.specs.declared.event.Event.{Event};

    /// Before any event.
    pub fn new(alloc: Global, tables: &Tables) -> Result<ArrivalWatch, AllocError>
        ensures sized { IfOk result (λ w. IsSized tables.now w) }
        ensures follows { IfOk result (λ w. Follows tables.now w []) }
    {
        tables.valid();
        Ok(ArrivalWatch {
            lives: no_lives(alloc, tables.stream_count())?,
            latest: all_of(alloc, tables.stream_count(), None)?,
        })
    }

    /// How a stream has come.
    pub fn life(&self, stream: usize) -> Life
        requires { stream < length self.now.lives.items }
        ensures { result ≡ slice_index_or self.now.lives.items stream no_life }
    {
        self.lives[stream]
    }

    /// The tick in which the latest word of a stream came; none, where it has none.
    pub fn latest_came(&self, stream: usize) -> Option<u64>
        ensures { result ≡ slice_index_or self.now.latest.items stream None }
    {
        if stream >= self.latest.len() {
            return None;
        }
        self.latest[stream]
    }

    /// A word arrives on a bus, with the stream there that declares it, if one does, and the reply to it.
    pub(crate) fn arrive(
        &mut self,
        tables: &Tables,
        stream: Option<usize>,
        word: Word,
        reply: &Reply,
        tick: u64,
    )
        requires sized { IsSized tables.now self.old }
        requires early { tick < 2 ^ 64 - 1 }
        requires there { IfSome stream (λ s. s < length tables.now.streams) }
        ensures sized { IsSized tables.now self.new }
        ensures follows { (run : List Event) (bus : ℕ) → Follows tables.now self.old run → tick ≡ tick_after run → bus < length tables.now.buses
            → stream ≡ stream_of tables.now bus word → reply.now ≡ reply_to tables.now run (Event.Arrive word bus)
            → Follows tables.now self.new (run ++ Event.Arrive word bus ∷ []) }
    {
        tables.valid();
        queues_grow(tables);
        if !is_arrival(reply) {
            return;
        }
        let Some(stream) = stream else {
            return;
        };
        let maximum = tables.stream(stream).maximum;
        self.lives[stream] = self.lives[stream].with(word, tick, maximum);
    }

    /// A router makes a step.
    pub(crate) fn route(
        &mut self,
        tables: &Tables,
        replies: &ReplyWatch,
        router: usize,
        reply: &Reply,
    )
        requires sized { IsSized tables.now self.old }
        requires replies { AreReplies tables.now replies.now }
        ensures sized { IsSized tables.now self.new }
        ensures follows { (run : List Event) → Follows tables.now self.old run → Holds tables.now replies.now (run ++ Event.Route router ∷ [])
            → router < length tables.now.routers → reply.now ≡ reply_to tables.now run (Event.Route router)
            → Follows tables.now self.new (run ++ Event.Route router ∷ []) }
    {
        tables.valid();
        queues_grow(tables);
        let Some(bus) = taken_bus(reply) else {
            return;
        };
        if bus >= tables.bus_count() {
            return;
        }
        let Some((came, stream)) = replies.log(bus).last_taken() else {
            return;
        };
        note(&mut self.latest, stream, came);
    }

    /// Follows the event, with the reply to it and the state of the replies after it.
    pub fn follow(
        &mut self,
        tables: &Tables,
        replies: &ReplyWatch,
        event: &Event,
        reply: &Reply,
        tick: u64,
    )
        requires sized { IsSized tables.now self.old }
        requires replies { AreReplies tables.now replies.now }
        requires early { tick < 2 ^ 64 - 1 }
        ensures sized { IsSized tables.now self.new }
        ensures follows { (run : List Event) → Follows tables.now self.old run → tick ≡ tick_after run
            → Holds tables.now replies.now (run ++ event.now ∷ []) → IsNumbered tables.now event.now → reply.now ≡ reply_to tables.now run event.now
            → Follows tables.now self.new (run ++ event.now ∷ []) }
    {
        queues_grow(tables);
        match *event {
            Event::Arrive(word, bus) => {
                self.arrive(tables, tables.stream_of(bus, word), word, reply, tick)
            }
            Event::Route(router) => self.route(tables, replies, router, reply),
            Event::Tick | Event::Send(_) => {}
        }
    }
}
