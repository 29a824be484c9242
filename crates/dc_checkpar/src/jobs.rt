//! Jobs that several threads may judge.

ghost use Rattle.std.specs.Prelude.{◌≡◌, ℕ, ◌<◌, Option};
ghost use Rattle.dc_check.specs.declared.fault.CheckFault.{CheckFault};

use dc_check::CheckFault;
use std::marker::Sync;

/// Jobs from 0, of which each has a fault or none.
pub(crate) trait Jobs: Sync {
    // that the fault of a job may be asked for
    ghost may_ask: { Self → Type 0 };

    // how many there are
    ghost jobs: { Self → ℕ };

    // the fault of each
    ghost verdict: { Self → ℕ → Option CheckFault };

    /// How many jobs there are.
    fn len(&self) -> usize
        ensures { result ≡ jobs self.now };

    /// The fault of the job of this number, if it has one.
    fn fault(&self, job: usize) -> Option<CheckFault>
        requires ask { may_ask self.now }
        requires there { job < jobs self.now }
        ensures { result ≡ verdict self.now job };
}
