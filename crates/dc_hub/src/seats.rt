//! The seats of a hub, together.

use crate::charter::Charter;
use crate::seat::{ClockSeat, OutputSeat, RouterSeat, Watch, WireSeat};

/// The seats of a hub's actors, and a watch of its board, as [`Hub::open`](crate::Hub::open) hands them out.
#[derive(Drop)]
pub struct Seats<L: Charter> {
    /// One for each bus, in the order of the tables.
    pub wires: Vec<WireSeat<L>>,
    /// One for each router, in the order of the tables.
    pub routers: Vec<RouterSeat<L>>,
    /// One for each output, in the order of the tables.
    pub outputs: Vec<OutputSeat<L>>,
    /// The clock's; it is there.
    pub clock: Option<ClockSeat<L>>,
    /// What reads the marks of the board.
    pub watch: Watch,
}
