//! The words of a command line are carried out.
ghost use Rattle.std.specs.Prelude.{◌≡◌, map, IfErr, IfOk};
ghost use Rattle.std.specs.String.{string_bytes};
ghost use Rattle.dc_answer.specs.Judging.{Leaves};
ghost use Rattle.dc_device.specs.States.{CanFail, IsCountable};
ghost use Rattle.dc_program.specs.Words.{CarriesOut};
ghost use Rattle.dc_program.specs.World.{IsNew};

use crate::carry::carry_out;
use crate::crews::ByThreads;
use crate::world::World;
use clap::Error;
use dc_answer::Exit;
use dc_command::command;
use dc_device::{Sink, Source};
use std::alloc::Global;

/// Carries out what the words of a command line ask, of which the first is the program's name, in a world that was asked
/// for nothing yet.
///
/// # Errors
/// With clap's text where they ask nothing: then no file was opened, and nothing read or written.
pub fn run_words<'a, W: World<'a>, S: Source, K: Sink, H: ByThreads>(
    alloc: Global,
    threads: &H,
    words: &'a [String],
    world: &mut W,
    input: &mut S,
    sink: &mut K,
) -> Result<Exit, Error>
    requires may { H.may_start threads.now }
    requires new { IsNew (W.state world.old) }
    requires input { IsCountable (S.state input.old) }
    requires sink { CanFail (K.state sink.old) }
    ensures carries { IfOk result (CarriesOut (map string_bytes words.entry.now) (W.state world.old) (W.state world.new) (S.state input.old)
        (S.state input.new) (K.state sink.old) (K.state sink.new)) }
    ensures untouched { IfErr result (λ _. (world.new ≡ world.old) × (input.new ≡ input.old) × (sink.new ≡ sink.old)) }
{
    match command(alloc, words) {
        Ok(asked) => {
            world.note(asked);
            Ok(carry_out(alloc, threads, world, input, sink, asked.order))
        }
        Err(error) => Err(error),
    }
}
