//! The verdict by several workers.

ghost use Rattle.std.specs.Prelude.{◌≡◌, ℕ, ◌≤◌, None, Some, Err, IfOk, IfErr};
ghost use Rattle.std.specs.Arc.{arc_value};
ghost use Rattle.dc_cert.specs.NamedRows.{named_rows};
ghost use Rattle.dc_check.specs.Certified.{KeepsItsClaims};
ghost use Rattle.dc_check.specs.Lent.{tables_of, certificate_of};
ghost use Rattle.dc_check.specs.Numbers.{KeepsItsNumbers};
ghost use Rattle.dc_check.specs.Placed.{IsPlaced};
ghost use Rattle.dc_check.specs.Verdict.{job_count};
ghost use Rattle.dc_checkpar.specs.Faults.{IsParVerdict, halt_fault};
ghost use Rattle.dc_checkpar.specs.Reports.{MayStick};
ghost use Rattle.dc_checkpar.specs.declared.fault.ParFault.TheVariants.{GateStuck};
ghost use Rattle.dc_checkpar.specs.declared.limits.TheConstants.{MOST_WORKERS};

use crate::case::{Case, long_count};
use crate::fault::ParFault;
use crate::gate::Gate;
use crate::pool::first_fault;
use crate::worker::Halt;
use dc_cert::Certificate;
use dc_check::{Certified, Fitted, certify, misnamed};
use dc_tables::Tables;
use std::alloc::Global;
use std::marker::Sync;
use std::sync::{Arc, Wait};
use std::thread::Threads;

/// Judges a certificate for tables, as `dc_check::check` does, by 1 to [`MOST_WORKERS`](crate::MOST_WORKERS) workers.
/// That a worker enters the gate before each job and leaves it afterwards is tested.
///
/// # Errors
/// `Refused` with the first fault of the certificate, whichever worker finds it first; `GateStuck` only where the gate
/// may be stuck at a job; `Spawn` and `Memory`, of which no clause says when.
pub fn check_par<G: Gate, R: Threads + Wait + Sync>(
    rt: &R,
    alloc: Global,
    tables: Arc<Tables>,
    certificate: Certificate,
    workers: usize,
    gate: &G,
) -> Result<Certified, ParFault>
    requires { (1 ≤ workers) × (workers ≤ MOST_WORKERS) }
    ensures claims { IfOk result (λ _. KeepsItsClaims (arc_value tables) (named_rows certificate)) }
    ensures numbers { IfOk result (λ _. KeepsItsNumbers (arc_value tables) (named_rows certificate)) }
    ensures lends { IfOk result (λ c. (tables_of c ≡ arc_value tables) × (certificate_of c ≡ certificate)) }
    ensures exact { IsParVerdict (arc_value tables) (named_rows certificate) result }
    ensures stuck { IfErr result (λ fault. fault ≡ GateStuck → MayStick (job_count (arc_value tables)) (G.may_stick gate.now)) }
{
    match verdict_par(rt, alloc, &tables, &certificate, workers, gate) {
        Err(fault) => Err(fault),
        Ok(()) => {
            let certified = certify(tables, certificate);
            certified.keeps_its_claims();
            Ok(certified)
        }
    }
}

/// The verdict on a certificate for tables, as `dc_check::verdict` gives it, by 1 to [`MOST_WORKERS`](crate::MOST_WORKERS)
/// workers.
///
/// # Errors
/// As those of [`check_par`].
pub fn verdict_par<G: Gate, R: Threads + Wait + Sync>(
    rt: &R,
    alloc: Global,
    tables: &Tables,
    certificate: &Certificate,
    workers: usize,
    gate: &G,
) -> Result<(), ParFault>
    requires { (1 ≤ workers) × (workers ≤ MOST_WORKERS) }
    ensures exact { IsParVerdict tables.now (named_rows certificate.now) result }
    ensures stuck { IfErr result (λ fault. fault ≡ GateStuck → MayStick (job_count tables.now) (G.may_stick gate.now)) }
{
    tables.valid();
    if let Some(fault) = misnamed(tables, certificate) {
        return Err(ParFault::Refused(fault));
    }
    let in_pieces = long_count(certificate) < workers;
    let fitted = Fitted {
        tables,
        certificate,
    };
    let case = Case {
        rt,
        in_pieces,
        fitted: &fitted,
    };
    match first_fault(rt, alloc, &case, gate, workers) {
        Ok(None) => Ok(()),
        Ok(Some(fault)) => Err(ParFault::Refused(fault)),
        Err(halt) => Err(fault_of(halt)),
    }
}

/// What a halt is to the caller.
fn fault_of(halt: Halt) -> ParFault
    ensures { result ≡ halt_fault halt }
{
    match halt {
        Halt::Memory => ParFault::Memory,
        Halt::Spawn => ParFault::Spawn,
        Halt::GateStuck => ParFault::GateStuck,
    }
}
