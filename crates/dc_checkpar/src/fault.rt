//! Why no certificate was certified.

use dc_check::CheckFault;
use thiserror::Error;

/// Why a parallel check answers no certified tables. What a refusal and a stuck gate tell are clauses of
/// [`check_par`](crate::check_par); that a thread could not be started, or memory was refused, is tested.
#[derive(Clone, Copy, Debug, PartialEq, Eq, Error)]
pub enum ParFault {
    /// The certificate is refused, with its first fault.
    #[error("{0}")]
    Refused(CheckFault),
    /// A thread could not be started.
    #[error("a thread could not be started")]
    Spawn,
    /// Out of memory.
    #[error("out of memory")]
    Memory,
    /// The gate was stuck.
    #[error("the gate is stuck")]
    GateStuck,
}
