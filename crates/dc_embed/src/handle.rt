//! A pointer to an engine on the heap.
ghost use Rattle.std.specs.Prelude.{◌≡◌, ◌≢◌, Option, Some, None};
ghost use Rattle.std.specs.Coded.{coded_option};
ghost use Rattle.dc_engine.specs.declared.engine.Engine.{Engine};
ghost use Rattle.dc_engine.specs.contracts.engine.Engine.{the_row};

use dc_engine::Engine;
use dc_loose::Loose;
use std::alloc::Global;
use std::marker::Model;
use std::ptr::null_mut;

/// A pointer to an engine, or to none: of which, its ghost field tells.
#[repr(C)]
#[derive(Drop)]
pub struct Handle {
    at: *mut u8,
    pub ghost engine: { Option Engine } by { coded_option the_row.coded },
}

impl Model for Handle {
    ghost use Rattle.dc_engine.specs.contracts.engine.Engine.{the_row};
    ghost use Rattle.dc_embed.specs.Held.{held};

    ghost also_owns = { λ h. held the_row h.at h.engine };
}

impl Handle {
    /// A pointer to no engine.
    pub fn closed() -> Handle
        ensures { result.engine ≡ None }
    {
        Handle { at: null_mut() }
    }

    /// A pointer to the engine of a box that was taken apart.
    pub fn of(value: Loose<Engine, Global>) -> Handle
        ensures { result.engine ≡ Some value.value }
    {
        let Loose { at, alloc: _ } = value;
        Handle { at: at as *mut u8 }
    }

    /// The parts of the box of its engine.
    pub fn into_loose(self, alloc: Global) -> Loose<Engine, Global>
        requires { self.engine ≢ None }
        ensures { self.engine ≡ Some result.value }
    {
        let Handle { at } = self;
        Loose {
            at: at as *mut Engine,
            alloc,
        }
    }
}

unsafe impl Send for Handle {}
