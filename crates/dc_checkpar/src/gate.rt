//! What a worker enters before a job and leaves after it.

ghost use Rattle.std.specs.Prelude.{ℕ, IfErr};

use std::marker::Sync;

/// A gate does not let the caller in.
#[derive(Clone, Copy, Debug, PartialEq, Eq)]
pub struct Stuck;

/// What each worker enters before a job, and leaves after it: that it does no clause says, it is tested.
pub trait Gate: Sync {
    // the jobs at which it may answer Stuck
    ghost may_stick: { Self → ℕ → Type 0 };

    /// Lets a worker in to judge the job.
    ///
    /// # Errors
    /// `Stuck` only at a job at which the gate may be stuck.
    fn enter(&self, job: u64) -> Result<(), Stuck>
        ensures { IfErr result (λ _. may_stick self.now job) };

    /// Lets a worker out that has judged the job.
    fn leave(&self, job: u64);
}

/// A gate that is never stuck.
#[derive(Clone, Copy, Debug, Drop)]
pub struct Open;

impl Gate for Open {
    ghost may_stick = { λ _ _. ⊥ };

    fn enter(&self, _job: u64) -> Result<(), Stuck> {
        Ok(())
    }

    fn leave(&self, _job: u64) {}
}
