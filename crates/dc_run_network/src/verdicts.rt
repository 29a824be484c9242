//! What gives the verdicts on the certificates of a network's concentrators.
ghost use Rattle.std.specs.Prelude.{◌≡◌, ◌≤◌, IfErr, IfOk};
ghost use Rattle.std.specs.Thread.{IsSync};
ghost use Rattle.dc_cert.specs.NamedRows.{named_rows};
ghost use Rattle.dc_check.specs.Verdict.{verdict_of};
ghost use Rattle.dc_checkpar.specs.declared.limits.TheConstants.{MOST_WORKERS};

use dc_cert::Certificate;
use dc_check::{CheckFault, verdict};
use dc_checkpar::{Open, ParFault, verdict_par};
use dc_tables::Tables;
use std::alloc::Global;
use std::marker::Sync;
use std::sync::Wait;
use std::thread::Threads;

/// Why there is no verdict.
#[derive(Clone, Copy)]
pub(crate) enum Undecided {
    /// Memory was refused.
    Memory,
    /// No thread could be started.
    Threads,
}

/// What gives verdicts.
pub(crate) trait Verdicts {
    // That it may be asked for them.
    ghost may_judge: { Self → Type 0 };

    // That it may answer that no thread could be started.
    ghost starts_threads: { Self → Type 0 };

    /// The verdict on a certificate for tables: its first fault, or none.
    fn verdict(
        &self,
        tables: &Tables,
        certificate: &Certificate,
    ) -> Result<Option<CheckFault>, Undecided>
        requires { may_judge self.now }
        ensures exact { IfOk result (λ fault. fault ≡ verdict_of tables.now (named_rows certificate.now)) }
        ensures threads { IfErr result (λ why. why ≡ Undecided.Threads → starts_threads self.now) };
}

/// One thread, which is running.
#[derive(Clone, Copy)]
pub(crate) struct Alone;

impl Verdicts for Alone {
    ghost may_judge = { λ v. Unit {0} };

    ghost starts_threads = { λ v. ⊥ };

    fn verdict(
        &self,
        tables: &Tables,
        certificate: &Certificate,
    ) -> Result<Option<CheckFault>, Undecided> {
        Ok(verdict(tables, certificate).err())
    }
}

/// So many workers, 1 to the most workers, that a runtime starts.
#[derive(Clone, Copy)]
pub(crate) struct Workers<'r, R> {
    /// The runtime.
    pub runtime: &'r R,
    /// What memory is taken from.
    pub alloc: Global,
    /// How many.
    pub count: u8,
}

impl<'r, R: Threads + Wait + Sync> Verdicts for Workers<'r, R> {
    ghost may_judge = { λ v. IsSync R.row × ((1 ≤ v.count) × (v.count ≤ MOST_WORKERS)) };

    ghost starts_threads = { λ v. Unit {0} };

    fn verdict(
        &self,
        tables: &Tables,
        certificate: &Certificate,
    ) -> Result<Option<CheckFault>, Undecided> {
        let count = usize::from(self.count);
        match verdict_par(self.runtime, self.alloc, tables, certificate, count, &Open) {
            Ok(()) => Ok(None),
            Err(ParFault::Refused(fault)) => Ok(Some(fault)),
            Err(ParFault::Memory) => Err(Undecided::Memory),
            Err(ParFault::Spawn) => Err(Undecided::Threads),
            Err(ParFault::GateStuck) => unreachable!(),
        }
    }
}
