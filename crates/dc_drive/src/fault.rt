//! A drive's faults.

use dc_hub::HubFault;

/// Why a drive was not answered Ok. Of several, which is answered is open. What a stuck gate, a refused call and
/// `HubFault::Astray` tell are clauses of [`drive`](crate::drive).
#[derive(Clone, Copy, Debug, PartialEq, Eq)]
pub enum DriveFault {
    /// A thread could not be started.
    Spawn,
    /// Out of memory.
    Memory,
    /// The gate was stuck.
    GateStuck,
    /// A call of the hub was refused, with its fault; or some seat's new receipts are not its own steps, which is
    /// `Astray`.
    Hub(HubFault),
}
