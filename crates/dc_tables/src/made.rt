//! The rows of tables, and what is kept beside them.
ghost use Rattle.std.specs.Prelude.{All, ◌≡◌, ◌+◌, ◌≤◌, length, IfOk};
ghost use Rattle.dc_tables.specs.Bounds.{frame_offsets};
ghost use Rattle.dc_tables.specs.KeptOfBuses.{AreBusesKept};
ghost use Rattle.dc_bound.specs.declared.limits.TheConstants.{WIDEST_JITTER};
ghost use Rattle.dc_document.specs.declared.limits.TheConstants.{MOST_MEMBERS, MOST_STREAMS};

use crate::alike::{BusKept, kept_of_buses};
use crate::bounds::{FrameOffsets, output_offsets};
use crate::rows::{Bus, Output, OutputLabel, Router, Stream};
use std::alloc::{AllocError, Global};

/// The rows of tables, those of each kind in their order.
pub struct Rows {
    /// Those of the buses.
    pub buses: Vec<Bus>,
    /// Those of the streams of all buses.
    pub streams: Vec<Stream>,
    /// Those of the routers.
    pub routers: Vec<Router>,
    /// Those of the outputs.
    pub outputs: Vec<Output>,
    /// Those of the labels of all outputs.
    pub labels: Vec<OutputLabel>,
}

// Dropped by one call, which is proved here and not in each crate that owns one.
impl Drop for Rows {
    fn drop(self) {
        let Rows {
            buses: _,
            streams: _,
            routers: _,
            outputs: _,
            labels: _,
        } = self;
    }
}

/// What tables keep beside their rows.
#[derive(Drop)]
pub(crate) struct Kept {
    pub buses: Vec<BusKept>,
    pub offsets: Vec<FrameOffsets>,
}

/// What is kept beside these rows.
pub(crate) fn make_kept(alloc: Global, rows: &Rows) -> Result<Kept, AllocError>
    requires few { length rows.now.streams.items ≤ MOST_STREAMS }
    requires bounded { All (λ s. (1 ≤ s.minimum) × (s.jitter ≤ WIDEST_JITTER)) rows.now.streams.items }
    requires there { All (λ b. b.first + b.streams ≤ length rows.now.streams.items) rows.now.buses.items }
    requires members { All (λ b. b.streams ≤ MOST_MEMBERS) rows.now.buses.items }
    ensures buses { IfOk result (λ k. AreBusesKept k.buses.items rows.now.buses.items rows.now.streams.items) }
    ensures offsets { IfOk result (λ k. k.offsets.items ≡ frame_offsets rows.now.outputs.items) }
{
    let buses = kept_of_buses(alloc, &rows.buses, &rows.streams)?;
    let offsets = output_offsets(alloc, &rows.outputs)?;
    Ok(Kept { buses, offsets })
}
