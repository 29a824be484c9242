//! The hub's faults.

use dc_core::StepFault;

/// Why a hub can not be opened.
#[derive(Clone, Copy, Debug, PartialEq, Eq)]
pub enum OpenFault {
    /// Out of memory.
    Memory,
}

/// Why a call is refused. That a full book is reported before a step's fault is a clause of
/// [`Book::act`](crate::Book::act); of the calls of a hub it is tested.
#[derive(Clone, Copy, Debug, PartialEq, Eq)]
pub enum HubFault {
    /// The event may not follow the book's run.
    Step(StepFault),
    /// The book holds as many entries as its trace limit.
    TraceFull,
    /// Out of memory.
    Memory,
    /// Some seat's new receipts are not its own steps. A drive alone answers it.
    Astray,
}

/// Why a book does not close.
#[derive(Clone, Copy, Debug, PartialEq, Eq)]
pub enum CloseFault {
    /// The seats are not one for each actor, in order.
    SeatMissing,
    /// An actor's receipts are not its entries: the index of its first receipt that differs, or of the entry there,
    /// where the receipts have ended. The first such actor is reported: wires, routers, outputs, clock.
    Mismatch(u64),
}
