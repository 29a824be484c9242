//! What tables keep beside their rows: the wires of buses, and the offsets of the outputs' entries.
ghost use Rattle.std.specs.Prelude.{◌≡◌, ◌+◌, ◌≤◌, ℕ, Some, None, true, false, map, take, drop, length, IfOk};
ghost use Rattle.dc_bound.specs.Window.{wire_cap};
ghost use Rattle.dc_bound.specs.declared.arrival.Wire.{Wire as SpecWire};
ghost use Rattle.dc_tables.specs.Bounds.{frame_offsets};
ghost use Rattle.dc_bound.specs.declared.limits.TheConstants.{LONGEST_TICK};
ghost use Rattle.dc_document.specs.declared.limits.TheConstants.{MOST_STREAMS};

use crate::rows::{Bus, Entry, Output};
use dc_bound::Wire;
use std::alloc::{AllocError, Global};
use std::marker::Model;

/// Offsets in a frame, in order.
#[derive(Debug, Drop)]
pub struct FrameOffsets {
    items: Vec<u32>,
}

impl Model for FrameOffsets {
    ghost use Rattle.std.specs.Prelude.{ℕ, List};

    ghost Value = { List ℕ };

    ghost view = { λ o. o.items.items };
}

impl FrameOffsets {
    /// The offsets of these entries.
    fn of(alloc: Global, entries: &[Entry]) -> Result<FrameOffsets, AllocError>
        ensures { IfOk result (λ o. o ≡ map (λ e. e.offset) entries.now) }
    {
        let items = entries.iter().map(|e| e.offset).collect(alloc)?;
        Ok(FrameOffsets { items })
    }

    /// These offsets.
    pub(crate) fn copied(alloc: Global, offsets: &[u32]) -> Result<FrameOffsets, AllocError>
        ensures { IfOk result (λ o. o ≡ offsets.now) }
    {
        let items = offsets.to_vec(alloc)?;
        Ok(FrameOffsets { items })
    }

    /// The offsets, in order.
    pub fn as_slice(&self) -> &[u32]
        ensures { result.now ≡ self.now }
    {
        self.items.as_slice()
    }
}

/// The wire of a bus that is not policed.
pub(crate) fn wire_of(tick_us: u32, bus: &Bus) -> Option<Wire>
    requires some_tick { 1 ≤ tick_us }
    requires short_tick { tick_us ≤ LONGEST_TICK }
    requires some_spacing { 1 ≤ bus.now.spacing }
    ensures policed { bus.now.police ≡ true → result ≡ None }
    ensures free { bus.now.police ≡ false → (w : SpecWire) × (result ≡ Some w) × ((d : ℕ) → wire_cap w.tick w.spacing d ≡ wire_cap tick_us bus.now.spacing d) }
{
    if bus.police {
        return None;
    }
    Some(Wire::new(tick_us, bus.spacing))
}

/// The offsets of each output's entries.
pub(crate) fn output_offsets(
    alloc: Global,
    outputs: &[Output],
) -> Result<Vec<FrameOffsets>, AllocError>
    ensures { IfOk result (λ v. v.items ≡ frame_offsets outputs.now) }
{
    let mut rows = Vec::new(alloc);
    for output in outputs {
        rows.push(FrameOffsets::of(alloc, output.entries.as_slice())?)?;
    }
    Ok(rows)
}

/// So many of the items, from this one on.
pub(crate) fn piece<T>(items: &[T], first: usize, count: usize) -> &[T]
    requires inside { first + count ≤ length items.now }
    requires small { length items.now ≤ MOST_STREAMS }
    ensures { result.now ≡ take count (drop first items.now) }
{
    let rest = &items[first..];
    &rest[..count]
}
