//! The least certificate.

ghost use Rattle.std.specs.Prelude.{◌≢◌, ℕ, ◌<◌, length, IfOk, IfErr, MatchOption};
ghost use Rattle.dc_cert.specs.Bounds.{certificate_rows};
ghost use Rattle.dc_cert.specs.NamedRows.{named_rows};
ghost use Rattle.dc_check.specs.Accepts.{AcceptsLabel};
ghost use Rattle.dc_find.specs.Least.{IsLeastAccepted, NoneAccepted};
ghost use Rattle.dc_find.specs.Rows.{AreInputRows, AreOutputRows, AreLabelRows};
ghost use Rattle.dc_find.specs.Ways.{IsFirstInTheWay};
ghost use Rattle.dc_find.specs.declared.fault.FindFault.TheVariants.{Memory};

use crate::fault::FindFault;
use crate::rows::{input_rows, label_rows, output_rows};
use dc_cert::Certificate;
use dc_check::{Fitted, job_fault};
use dc_tables::Tables;
use std::alloc::Global;

/// The first rule on a label that the least numbers break: then no certificate keeps it.
fn broken_rule(tables: &Tables, certificate: &Certificate) -> Option<FindFault>
    requires inputs { AreInputRows tables.now (named_rows certificate.now).inputs }
    requires outputs { AreOutputRows tables.now (named_rows certificate.now).outputs }
    requires labels { AreLabelRows tables.now (named_rows certificate.now).inputs (named_rows certificate.now).labels }
    ensures { MatchOption result ((x : ℕ) → x < length tables.now.labels → AcceptsLabel tables.now x (certificate_rows certificate.now))
        (λ fault. IsFirstInTheWay tables.now fault) }
{
    tables.valid();
    let queues = tables.bus_count() + tables.output_count();
    for label in 0..tables.label_count() {
        let fitted = Fitted {
            tables,
            certificate,
        };
        if let Some(fault) = job_fault(&fitted, queues + label) {
            return Some(FindFault::LabelRule(label, fault.condition));
        }
    }
    None
}

/// The least certificate that is accepted for tables: no accepted one has a smaller window, backlog, delay or age
/// anywhere.
///
/// # Errors
/// `Memory` where memory was refused. Else none is accepted, and it is the first thing that stands in the way, in the
/// order of inputs, outputs and labels, and for one of these in the order of its rules.
pub fn find(alloc: Global, tables: &Tables) -> Result<Certificate, FindFault>
    ensures least { IfOk result (λ c. IsLeastAccepted tables.now (named_rows c)) }
    ensures none { IfErr result (λ fault. fault ≢ Memory → NoneAccepted tables.now) }
    ensures first { IfErr result (λ fault. fault ≢ Memory → IsFirstInTheWay tables.now fault) }
{
    tables.valid();
    tables.named();
    let inputs = input_rows(alloc, tables)?;
    let outputs = output_rows(alloc, tables)?;
    let labels = label_rows(alloc, tables, inputs.as_slice())?;
    let certificate = Certificate {
        inputs,
        outputs,
        labels,
    };
    match broken_rule(tables, &certificate) {
        None => Ok(certificate),
        Some(fault) => Err(fault),
    }
}
