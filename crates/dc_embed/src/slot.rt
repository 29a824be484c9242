//! What C holds of an engine, opened or closed.
ghost use Rattle.std.specs.Prelude.{◌≡◌, Some, None, MatchOption};
ghost use Rattle.dc_embed.specs.Held.{has};

use crate::handle::Handle;
use dc_engine::Engine;
use dc_loose::Loose;
use std::alloc::Global;
use std::mem::replace;

/// What C holds of an engine. All bytes zero: closed.
#[repr(C)]
#[derive(Drop)]
pub struct Slot {
    pub handle: Handle,
    pub is_open: bool,
    pub ghost agrees: { is_open ≡ has handle.engine },
}

/// Takes the engine out, and leaves the slot closed.
pub(crate) fn taken(alloc: Global, slot: &mut Slot) -> Option<Box<Engine>>
    ensures left { slot.new.handle.engine ≡ None }
    ensures took { MatchOption result (slot.old.handle.engine ≡ None) (λ b. slot.old.handle.engine ≡ Some b.value) }
{
    let closed = Slot {
        handle: Handle::closed(),
        is_open: false,
    };
    let Slot { handle, is_open } = replace(slot, closed);
    if is_open {
        Some(handle.into_loose(alloc).into_box())
    } else {
        None
    }
}

/// Puts an engine into a slot.
pub(crate) fn put(slot: &mut Slot, engine: Box<Engine>)
    ensures { slot.new.handle.engine ≡ Some engine.value }
{
    *slot = Slot {
        handle: Handle::of(Loose::of(engine)),
        is_open: true,
    };
}

/// Closes the engine of a slot, if it is open, and frees it.
pub(crate) fn close(alloc: Global, slot: &mut Slot)
    ensures { slot.new.handle.engine ≡ None }
{
    drop(taken(alloc, slot));
}

/// A value that may cross threads.
fn sent<T: Send + Drop>(value: T) -> T {
    value
}

/// A slot may cross threads: C may hand one to another thread, in order, and use it there.
pub fn may_cross(slot: Slot) -> Slot {
    sent(slot)
}
