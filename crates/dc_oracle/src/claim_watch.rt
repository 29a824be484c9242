//! Whether the claims hold at each event.

ghost use Rattle.std.specs.Prelude.{◌≡◌, ℕ, ◌+◌, ◌-◌, ◌<◌, ◌≤◌, ◌^◌, true, List, [], length, IfOk};
ghost use Rattle.dc_cert.specs.Bounds.{certificate_rows};
ghost use Rattle.dc_event.specs.Admissible.{IsRun, IsNumbered};
ghost use Rattle.dc_event.specs.Breaks.{BreaksClaimsAt};
ghost use Rattle.dc_event.specs.Claims.{IsInTime};
ghost use Rattle.dc_oracle.specs.Claims.{fits, first_of, IsWhether};

use crate::arrivals::ArrivalWatch;
use crate::emissions::EmissionWatch;
use crate::police::Police;
use crate::replies::ReplyWatch;
use crate::sent_word::{choice_sent, is_sent_live, is_sent_young};
use dc_cert::Certificate;
use dc_event::laws::queues_grow;
use dc_event::{Claim, Event, Reply};
use dc_tables::Tables;
use dc_word::Word;
use std::alloc::{AllocError, Global};

/// All that the claims ask of a run so far.
#[derive(Drop)]
pub struct ClaimWatch {
    replies: ReplyWatch,
    police: Police,
    arrivals: ArrivalWatch,
    emissions: EmissionWatch,
}

/// Whether the reply is no overrun.
fn fits(reply: &Reply) -> bool
    ensures { result ≡ fits reply.now }
{
    !matches!(*reply, Reply::Overrun)
}

/// The least claim that fails, by what is known of each.
fn first_of(fits: bool, young: bool, live: bool, in_time: bool, spaced: bool) -> Option<Claim>
    ensures { result ≡ first_of fits young live in_time spaced }
{
    if !fits {
        return Some(Claim::NoOverrun);
    }
    if !young {
        return Some(Claim::DataAge);
    }
    if !live {
        return Some(Claim::LiveSource);
    }
    if !in_time {
        return Some(Claim::Interval);
    }
    if !spaced {
        return Some(Claim::Interval);
    }
    None
}

/// The same where no label is emitted: an overrun, or a label that is overdue.
fn first_unsent(fits: bool, in_time: bool) -> Option<Claim>
    ensures { result ≡ first_of fits true true in_time true }
{
    first_of(fits, true, true, in_time, true)
}

impl ClaimWatch {
    ghost use Rattle.dc_oracle.specs.Claims.{IsSized, StandsFor, Seen};
    ghost use Rattle.dc_event.specs.declared.event.Event.{Event};

    /// Before any event.
    pub fn new(alloc: Global, tables: &Tables) -> Result<ClaimWatch, AllocError>
        ensures sized { IfOk result (λ w. IsSized tables.now w) }
        ensures stands { IfOk result (λ w. StandsFor tables.now w []) }
        ensures tick { IfOk result (λ w. w.replies.tick ≡ 0) }
        ensures police_tick { IfOk result (λ w. w.police.tick ≡ 0) }
    {
        Ok(ClaimWatch {
            replies: ReplyWatch::new(alloc, tables)?,
            police: Police::new(alloc, tables)?,
            arrivals: ArrivalWatch::new(alloc, tables)?,
            emissions: EmissionWatch::new(alloc, tables)?,
        })
    }

    /// A word arrives. The least claim that fails, if one does; `in_time` is whether no label is overdue.
    fn arrive(&mut self, tables: &Tables, bus: usize, word: Word, in_time: bool) -> Option<Claim>
        requires sized { IsSized tables.now self.old }
        requires early { self.old.replies.tick < 2 ^ 64 - 1 }
        ensures sized { IsSized tables.now self.new }
        ensures tick { self.new.replies.tick ≡ self.old.replies.tick }
        ensures police_tick { self.new.police.tick ≡ self.old.police.tick }
        ensures seen { (ages : List ℕ) (run : List Event) → StandsFor tables.now self.old run → bus < length tables.now.buses
            → IsWhether (IsInTime tables.now run (Event.Arrive word bus)) in_time → Seen tables.now ages self.new run (Event.Arrive word bus) result }
    {
        queues_grow(tables);
        if self.police.arrive(tables, bus, word) {
            return first_unsent(true, in_time);
        }
        let tick = self.replies.tick();
        let stream = tables.stream_of(bus, word);
        let reply = self.replies.arrive(tables, bus, word, stream);
        self.arrivals.arrive(tables, stream, word, &reply, tick);
        first_unsent(fits(&reply), in_time)
    }

    /// A router makes a step.
    fn route(&mut self, tables: &Tables, router: usize, in_time: bool) -> Option<Claim>
        requires sized { IsSized tables.now self.old }
        ensures sized { IsSized tables.now self.new }
        ensures tick { self.new.replies.tick ≡ self.old.replies.tick }
        ensures police_tick { self.new.police.tick ≡ self.old.police.tick }
        ensures seen { (ages : List ℕ) (run : List Event) → StandsFor tables.now self.old run → router < length tables.now.routers
            → IsWhether (IsInTime tables.now run (Event.Route router)) in_time → Seen tables.now ages self.new run (Event.Route router) result }
    {
        let reply = self.replies.route(tables, router);
        self.arrivals.route(tables, &self.replies, router, &reply);
        first_unsent(true, in_time)
    }

    /// An output makes a send step.
    fn send(
        &mut self,
        tables: &Tables,
        certificate: &Certificate,
        output: usize,
        in_time: bool,
    ) -> Option<Claim>
        requires sized { IsSized tables.now self.old }
        requires early { self.old.replies.tick < 2 ^ 64 - 1 }
        ensures sized { IsSized tables.now self.new }
        ensures tick { self.new.replies.tick ≡ self.old.replies.tick }
        ensures police_tick { self.new.police.tick ≡ self.old.police.tick }
        ensures seen { (run : List Event) → StandsFor tables.now self.old run → output < length tables.now.outputs
            → IsWhether (IsInTime tables.now run (Event.Send output)) in_time
            → Seen tables.now (certificate_rows certificate.now).ages self.new run (Event.Send output) result }
    {
        queues_grow(tables);
        let tick = self.replies.tick();
        let emitted = self.replies.sends(tables, output);
        let spaced = self.emissions.is_spaced(tables, emitted, tick);
        self.emissions.emit(tables, emitted, tick);
        let reply = self.replies.send(tables, output);
        let (replies, arrivals) = (&self.replies, &self.arrivals);
        let chosen = choice_sent(replies, tables, emitted);
        let young = is_sent_young(replies, arrivals, tables, certificate, emitted, &chosen);
        let live = is_sent_live(replies, arrivals, tables, emitted, &chosen);
        let fits = fits(&reply);
        first_of(fits, young, live, in_time, spaced)
    }

    /// The tick ends.
    fn turn(&mut self, tables: &Tables, in_time: bool) -> Option<Claim>
        requires sized { IsSized tables.now self.old }
        requires early { self.old.replies.tick < 2 ^ 64 - 1 }
        requires police_early { self.old.police.tick < 2 ^ 64 - 1 }
        ensures sized { IsSized tables.now self.new }
        ensures tick { self.new.replies.tick ≡ self.old.replies.tick + 1 }
        ensures police_tick { self.new.police.tick ≡ self.old.police.tick + 1 }
        ensures seen { (ages : List ℕ) (run : List Event) → StandsFor tables.now self.old run
            → IsWhether (IsInTime tables.now run Event.Tick) in_time → Seen tables.now ages self.new run Event.Tick result }
    {
        queues_grow(tables);
        self.police.turn();
        let _ = self.replies.turn(tables);
        first_unsent(true, in_time)
    }

    /// The least claim that fails at the event, if one does, by the certificate's ages.
    pub fn see(
        &mut self,
        tables: &Tables,
        certificate: &Certificate,
        event: &Event,
    ) -> Option<Claim>
        requires sized { IsSized tables.now self.old }
        requires early { self.old.replies.tick < 2 ^ 64 - 1 }
        requires police_early { self.old.police.tick < 2 ^ 64 - 1 }
        ensures sized { IsSized tables.now self.new }
        ensures tick { self.new.replies.tick ≤ self.old.replies.tick + 1 }
        ensures police_tick { self.new.police.tick ≤ self.old.police.tick + 1 }
        ensures seen { (run : List Event) → StandsFor tables.now self.old run → IsNumbered tables.now event.now
            → Seen tables.now (certificate_rows certificate.now).ages self.new run event.now result }
    {
        let in_time = self.emissions.is_in_time(tables, self.replies.tick());
        match *event {
            Event::Arrive(word, bus) => self.arrive(tables, bus, word, in_time),
            Event::Route(router) => self.route(tables, router, in_time),
            Event::Send(output) => self.send(tables, certificate, output, in_time),
            Event::Tick => self.turn(tables, in_time),
        }
    }
}

/// The least claim that fails at the first event, counted from 1, at which any fails, by the ages of the certificate,
/// whose labels are taken in their order; a label that it does not list has the age 0. Of a run that names a bus,
/// router or output that is not in the tables nothing is said. `None` where the claims hold.
///
/// # Errors
/// `AllocError` where an allocation failed.
pub fn claims(
    alloc: Global,
    tables: &Tables,
    certificate: &Certificate,
    run: &[Event],
) -> Result<Option<(Claim, usize)>, AllocError>
    ensures { IsRun tables.now run.now → IfOk result (BreaksClaimsAt tables.now (certificate_rows certificate.now).ages run.now) }
{
    let mut watch = ClaimWatch::new(alloc, tables)?;
    for (i, event) in run.iter().enumerate() {
        if let Some(claim) = watch.see(tables, certificate, event) {
            return Ok(Some((claim, i + 1)));
        }
    }
    Ok(None)
}
