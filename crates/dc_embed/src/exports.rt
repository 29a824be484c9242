//! Opening, stepping and closing an engine from C.
ghost use Rattle.std.specs.Prelude.{◌≡◌, ◌⊎◌, None, Ok, Err, MatchResult};
ghost use Rattle.dc_event.specs.declared.event.Event.{Event};
ghost use Rattle.dc_event.specs.declared.event.Event.TheVariants as event;
ghost use Rattle.dc_engine.specs.declared.fault.OpenFault.TheVariants.{Memory};
ghost use Rattle.dc_embed.specs.Slots.{Steps, OpensSlot, Checks, status_of};

use crate::slot::{Slot, close, put, taken};
use dc_core::StepFault;
use dc_engine::{Answer, Engine, OpenFault, Report, answer_to, judge, open};
use dc_event::{Event, Reply};
use dc_word::Word;
use std::alloc::Global;

/// The report where there is no fault.
pub(crate) const NO_FAULT: Report = Report {
    kind: 0,
    code: 0,
    place: 0,
    window: 0,
    index: 0,
};

/// Whether an event was carried out: 0, or refused: 1.
fn status(outcome: &Result<Reply, StepFault>) -> u32
    ensures { result ≡ status_of outcome.now }
{
    match outcome {
        Ok(_) => 0,
        Err(_) => 1,
    }
}

/// Applies an event to the engine of a slot.
fn step(alloc: Global, slot: &mut Slot, event: Event, answer: &mut Answer) -> u32
    ensures { Steps slot.old.handle.engine slot.new.handle.engine event answer.new result }
{
    match taken(alloc, slot) {
        None => {
            *answer = Answer::bare(0);
            2
        }
        Some(mut engine) => {
            let outcome = engine.step(event);
            let status = status(&outcome);
            *answer = answer_to(outcome);
            put(slot, engine);
            status
        }
    }
}

/// An engine in a box.
fn boxed(alloc: Global, opened: Result<Engine, OpenFault>) -> Result<Box<Engine>, OpenFault>
    ensures { MatchResult result (λ b. opened ≡ Ok b.value) (λ fault. (opened ≡ Err fault) ⊎ (fault ≡ Memory)) }
{
    match opened {
        Err(fault) => Err(fault),
        Ok(engine) => match Box::new(alloc, engine) {
            Ok(engine) => Ok(engine),
            Err(_) => Err(OpenFault::Memory),
        },
    }
}

/// Opens an engine of the texts of tables and of a certificate. What the slot held is closed before. Where the answer
/// is false, the slot is closed and the report says why.
#[unsafe(no_mangle)]
pub extern "C" fn dc429_open(
    alloc: Global,
    slot: &mut Slot,
    tables: &[u8],
    certificate: &[u8],
    report: &mut Report,
) -> bool
    ensures { OpensSlot tables.now certificate.now slot.new.handle.engine report.new result }
{
    close(alloc, slot);
    match boxed(alloc, open(alloc, tables, certificate)) {
        Ok(engine) => {
            put(slot, engine);
            *report = NO_FAULT;
            true
        }
        Err(fault) => {
            *report = fault.report();
            false
        }
    }
}

/// Judges the text of a certificate for the text of tables: true where it is accepted; else the report says why not.
#[unsafe(no_mangle)]
pub extern "C" fn dc429_check(
    alloc: Global,
    tables: &[u8],
    certificate: &[u8],
    report: &mut Report,
) -> bool
    ensures { Checks tables.now certificate.now report.new result }
{
    match judge(alloc, tables, certificate) {
        Ok(_) => {
            *report = NO_FAULT;
            true
        }
        Err(fault) => {
            *report = fault.report();
            false
        }
    }
}

/// A word arrives on the bus of this number.
#[unsafe(no_mangle)]
pub extern "C" fn dc429_arrive(
    alloc: Global,
    slot: &mut Slot,
    bus: usize,
    word: u32,
    answer: &mut Answer,
) -> u32
    ensures { Steps slot.old.handle.engine slot.new.handle.engine (event.Arrive word bus) answer.new result }
{
    step(alloc, slot, Event::Arrive(Word(word), bus), answer)
}

/// The router of this number makes a step.
#[unsafe(no_mangle)]
pub extern "C" fn dc429_route(
    alloc: Global,
    slot: &mut Slot,
    router: usize,
    answer: &mut Answer,
) -> u32
    ensures { Steps slot.old.handle.engine slot.new.handle.engine (event.Route router) answer.new result }
{
    step(alloc, slot, Event::Route(router), answer)
}

/// The output of this number makes a send step.
#[unsafe(no_mangle)]
pub extern "C" fn dc429_send(
    alloc: Global,
    slot: &mut Slot,
    output: usize,
    answer: &mut Answer,
) -> u32
    ensures { Steps slot.old.handle.engine slot.new.handle.engine (event.Send output) answer.new result }
{
    step(alloc, slot, Event::Send(output), answer)
}

/// The running tick ends.
#[unsafe(no_mangle)]
pub extern "C" fn dc429_tick(alloc: Global, slot: &mut Slot, answer: &mut Answer) -> u32
    ensures { Steps slot.old.handle.engine slot.new.handle.engine event.Tick answer.new result }
{
    step(alloc, slot, Event::Tick, answer)
}

/// Closes the engine of a slot, if it is open.
#[unsafe(no_mangle)]
pub extern "C" fn dc429_close(alloc: Global, slot: &mut Slot)
    ensures { slot.new.handle.engine ≡ None }
{
    close(alloc, slot);
}
