//! The files of an order are opened, and what is told where one is not.
ghost use Rattle.std.specs.Prelude.{◌≡◌, [], ◌∷◌, IfErr, IfOk};
ghost use Rattle.dc_answer.specs.Answer.{failure_text};
ghost use Rattle.dc_answer.specs.Judging.{Leaves};
ghost use Rattle.dc_device.specs.States.{CanFail};
ghost use Rattle.dc_program.specs.Opening.{AreNotOpened, AreOpened, AreOpenedFor, TellsFailure, failure_of};
ghost use Rattle.dc_program.specs.World.{IsNew, new_source};

use crate::world::{Crew, NotOpened, World};
use dc_answer::{Exit, end_with};
use dc_device::{LineWriter, Sink};

/// The file of this name.
///
/// # Errors
/// Where it could not be opened.
pub fn open_one<'a, W: World<'a>>(world: &mut W, name: &'a str) -> Result<W::File, NotOpened>
    requires { IsNew (W.state world.old) }
    ensures opened { IfOk result (λ f. AreOpened (name.now ∷ []) (W.state world.new)) }
    ensures file { IfOk result (λ f. W.File.state f ≡ new_source ((W.state world.old).holds name.now)) }
    ensures refused { IfErr result (λ why. AreNotOpened (name.now ∷ []) why (W.state world.new)) }
    ensures holds { (W.state world.new).holds ≡ (W.state world.old).holds }
{
    world.open(name)
}

/// The files of these names, the first one opened first.
///
/// # Errors
/// Where one could not be opened: no file behind it was then asked for.
#[tactic(auto, using(crate::proofs::Opened::first_refused))]
pub fn open_both<'a, W: World<'a>>(
    world: &mut W,
    first: &'a str,
    second: &'a str,
) -> Result<(W::File, W::File), NotOpened>
    requires { IsNew (W.state world.old) }
    ensures opened { IfOk result (λ f. AreOpened (first.now ∷ second.now ∷ []) (W.state world.new)) }
    ensures first { IfOk result (λ f. W.File.state f.0 ≡ new_source ((W.state world.old).holds first.now)) }
    ensures second { IfOk result (λ f. W.File.state f.1 ≡ new_source ((W.state world.old).holds second.now)) }
    ensures refused { IfErr result (λ why. AreNotOpened (first.now ∷ second.now ∷ []) why (W.state world.new)) }
{
    let first = world.open(first)?;
    let second = world.open(second)?;
    Ok((first, second))
}

/// The files of these three names, the first one opened first.
///
/// # Errors
/// Where one could not be opened: no file behind it was then asked for.
pub fn open_three<'a, W: World<'a>>(
    world: &mut W,
    first: &'a str,
    second: &'a str,
    third: &'a str,
) -> Result<(W::File, W::File, W::File), NotOpened>
    requires { IsNew (W.state world.old) }
    ensures opened { IfOk result (λ f. AreOpened (first.now ∷ second.now ∷ third.now ∷ []) (W.state world.new)) }
    ensures first { IfOk result (λ f. W.File.state f.0 ≡ new_source ((W.state world.old).holds first.now)) }
    ensures second { IfOk result (λ f. W.File.state f.1 ≡ new_source ((W.state world.old).holds second.now)) }
    ensures third { IfOk result (λ f. W.File.state f.2 ≡ new_source ((W.state world.old).holds third.now)) }
    ensures refused { IfErr result (λ why. AreNotOpened (first.now ∷ second.now ∷ third.now ∷ []) why (W.state world.new)) }
{
    let one = world.open(first)?;
    let two = world.open(second)?;
    let three = world.open(third)?;
    Ok((one, two, three))
}

/// The files of these names, the first one opened first, and threads asked for these then.
///
/// # Errors
/// Where one could not be opened: no file behind it was then asked for, and no thread.
pub fn open_for<'a, W: World<'a>>(
    world: &mut W,
    crew: Crew,
    first: &'a str,
    second: &'a str,
) -> Result<(W::File, W::File), NotOpened>
    requires { IsNew (W.state world.old) }
    ensures opened { IfOk result (λ f. AreOpenedFor crew (first.now ∷ second.now ∷ []) (W.state world.new)) }
    ensures first { IfOk result (λ f. W.File.state f.0 ≡ new_source ((W.state world.old).holds first.now)) }
    ensures second { IfOk result (λ f. W.File.state f.1 ≡ new_source ((W.state world.old).holds second.now)) }
    ensures refused { IfErr result (λ why. AreNotOpened (first.now ∷ second.now ∷ []) why (W.state world.new)) }
{
    let files = open_both(world, first, second)?;
    world.ask_threads(crew);
    Ok(files)
}

/// The line of what failed, where a file was not opened.
fn line_of(why: NotOpened) -> &'static [u8]
    ensures { result.now ≡ failure_text (failure_of why) }
{
    match why {
        NotOpened::Device => b"failed device",
        NotOpened::Memory => b"failed memory",
    }
}

/// Writes that a file was not opened, and ends.
pub fn end_unopened<K: Sink>(why: NotOpened, sink: &mut K) -> Exit
    requires { CanFail (K.state sink.old) }
    ensures tells { TellsFailure (failure_of why) (K.state sink.old) (K.state sink.new) result }
    ensures left { Leaves (K.state sink.old) (K.state sink.new) }
{
    let mut writer = LineWriter::new();
    let _ = end_with(&mut writer, sink, line_of(why));
    Exit::Failed
}
