//! The checks that tell the digests of both texts.
ghost use Rattle.std.specs.Prelude.{◌≡◌, ◌≤◌, None, Some, true};
ghost use Rattle.dc_answer.specs.Judging.{Leaves};
ghost use Rattle.dc_device.specs.States.{CanFail, SourceState};
ghost use Rattle.dc_command.specs.declared.asked.Order.TheVariants.{Check};
ghost use Rattle.dc_program.specs.Carries.{Carries};
ghost use Rattle.dc_program.specs.World.{IsNew};

use crate::crews::ByThreads;
use crate::opening::{end_unopened, open_both, open_for};
use crate::world::{Crew, World};
use dc_answer::Exit;
use dc_device::Sink;
use dc_digest::run_check_digest;
use std::alloc::Global;

/// Judges a certificate by one thread, and tells the digests.
pub fn check_digest<'a, W: World<'a>, K: Sink>(
    alloc: Global,
    world: &mut W,
    sink: &mut K,
    tables: &'a str,
    certificate: &'a str,
) -> Exit
    requires new { IsNew (W.state world.old) }
    requires sink { CanFail (K.state sink.old) }
    ensures carries { (input : SourceState) → Carries (Check tables.entry certificate.entry None true) (W.state world.old) (W.state world.new) input input
        (K.state sink.old) (K.state sink.new) result }
    ensures left { Leaves (K.state sink.old) (K.state sink.new) }
{
    match open_both(world, tables, certificate) {
        Ok((mut tables, mut certificate)) => {
            run_check_digest(alloc, &mut tables, &mut certificate, sink)
        }
        Err(why) => end_unopened(why, sink),
    }
}

/// Judges a certificate by so many workers, and tells the digests.
pub fn check_digest_by<'a, W: World<'a>, K: Sink, H: ByThreads>(
    threads: &H,
    world: &mut W,
    sink: &mut K,
    tables: &'a str,
    certificate: &'a str,
    workers: u8,
) -> Exit
    requires may { H.may_start threads.now }
    requires range { (1 ≤ workers) × (workers ≤ 64) }
    requires new { IsNew (W.state world.old) }
    requires sink { CanFail (K.state sink.old) }
    ensures carries { (input : SourceState) → Carries (Check tables.entry certificate.entry (Some workers) true) (W.state world.old) (W.state world.new)
        input input (K.state sink.old) (K.state sink.new) result }
    ensures left { Leaves (K.state sink.old) (K.state sink.new) }
{
    match open_for(world, Crew::Workers(workers), tables, certificate) {
        Ok((mut tables, mut certificate)) => {
            threads.check_digest(workers, &mut tables, &mut certificate, sink)
        }
        Err(why) => end_unopened(why, sink),
    }
}
