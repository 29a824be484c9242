//! `design`: both sheets are opened, and the certificate of what was designed is made a file; and `layout`, whose tables are opened.
ghost use Rattle.std.specs.Prelude.{◌≡◌, ◌⊎◌, None, option_map};
ghost use Rattle.dc_answer.specs.Judging.{Leaves};
ghost use Rattle.dc_device.specs.States.{CanFail, SourceState};
ghost use Rattle.dc_command.specs.declared.asked.Order.TheVariants.{Design, Layout};
ghost use Rattle.dc_program.specs.Carries.{Carries, Saves};
ghost use Rattle.dc_program.specs.World.{IsNew, WorldState};

use crate::opening::{end_unopened, open_both, open_one};
use crate::world::World;
use dc_answer::Exit;
use dc_device::Sink;
use dc_run_design::{Plan, run_design, run_layout};
use std::alloc::Global;

/// Makes the file of a certificate, where one is named and its tables were written whole.
fn save<'a, W: World<'a>, K: Sink>(
    world: &mut W,
    sink: &mut K,
    ended: Exit,
    certificate: Option<&'a str>,
    text: Vec<u8>,
) -> Exit
    requires refused { (W.state world.old).refused ≡ None }
    requires saved { (W.state world.old).saved ≡ None }
    requires sink { ended ≡ Exit.Done → CanFail (K.state sink.old) }
    ensures saves { Saves (option_map (λ s. s.now) certificate.entry) text.items (W.state world.new) (K.state sink.old) (K.state sink.new) ended result }
    ensures opened { (W.state world.new).opened ≡ (W.state world.old).opened }
    ensures crew { (W.state world.new).crew ≡ (W.state world.old).crew }
    ensures left { ((K.state sink.new ≡ K.state sink.old) × (result ≡ ended)) ⊎ ((ended ≡ Exit.Done) × Leaves (K.state sink.old) (K.state sink.new)) }
{
    match certificate {
        Some(name) => match ended {
            Exit::Done => match world.save(name, text) {
                Ok(()) => Exit::Done,
                Err(why) => end_unopened(why, sink),
            },
            Exit::Refused => Exit::Refused,
            Exit::Unreadable => Exit::Unreadable,
            Exit::Failed => Exit::Failed,
        },
        None => ended,
    }
}

/// Designs tables for two sheets, and makes the file of their certificate, where one is named.
pub fn design<'a, W: World<'a>, K: Sink>(
    alloc: Global,
    world: &mut W,
    sink: &mut K,
    inputs: &'a str,
    outputs: &'a str,
    plan: Plan,
    certificate: Option<&'a str>,
) -> Exit
    requires new { IsNew (W.state world.old) }
    requires sink { CanFail (K.state sink.old) }
    ensures carries { (input : SourceState) → Carries (Design inputs.entry outputs.entry plan.tick plan.headroom plan.police certificate.entry) (W.state world.old)
        (W.state world.new) input input (K.state sink.old) (K.state sink.new) result }
    ensures left { Leaves (K.state sink.old) (K.state sink.new) }
{
    match open_both(world, inputs, outputs) {
        Ok((mut inputs, mut outputs)) => {
            let mut text = Vec::new(alloc);
            let ended = run_design(alloc, plan, &mut inputs, &mut outputs, sink, &mut text);
            save(world, sink, ended, certificate, text)
        }
        Err(why) => end_unopened(why, sink),
    }
}

/// Lays tables out.
pub fn layout<'a, W: World<'a>, K: Sink>(
    alloc: Global,
    world: &mut W,
    sink: &mut K,
    tables: &'a str,
) -> Exit
    requires new { IsNew (W.state world.old) }
    requires sink { CanFail (K.state sink.old) }
    ensures carries { (input : SourceState) → Carries (Layout tables.entry) (W.state world.old) (W.state world.new) input input (K.state sink.old)
        (K.state sink.new) result }
    ensures left { Leaves (K.state sink.old) (K.state sink.new) }
{
    match open_one(world, tables) {
        Ok(mut tables) => run_layout(alloc, &mut tables, sink),
        Err(why) => end_unopened(why, sink),
    }
}
