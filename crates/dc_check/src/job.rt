//! The verdict on a certificate, job by job. Jobs are the inputs, the outputs and the labels in one row, from 0.

ghost use Rattle.std.specs.Prelude.{◌≡◌, ℕ, ◌+◌, ◌<◌, length, None, Some, IfErr};
ghost use Rattle.dc_cert.specs.Bounds.{certificate_rows};
ghost use Rattle.dc_cert.specs.NamedRows.{named_rows};
ghost use Rattle.dc_check.specs.Jobs.{IsJob};
ghost use Rattle.dc_check.specs.Placed.{IsPlaced};
ghost use Rattle.dc_check.specs.Verdict.{IsVerdict, job_count, job_ranges, job_verdict, job_backlog_failure, job_delay_failure, first_job_fault};

use crate::fault::CheckFault;
use crate::fitted::Fitted;
use crate::labels::label_fault;
use crate::names::misnamed;
use crate::queues::{input_fault, input_job, output_fault, output_job};
use dc_cert::Certificate;
use dc_tables::Tables;

/// What is judged in a job: an input, an output or a label, by its number in its list.
#[derive(Clone, Copy, Debug, PartialEq, Eq)]
pub enum Job {
    /// An input.
    Input(usize),
    /// An output.
    Output(usize),
    /// A label.
    Label(usize),
}

impl Job {
    /// The job that has this number.
    pub fn of(tables: &Tables, number: usize) -> Job
        requires { number < job_count tables.now }
        ensures { IsJob tables.now number result }
    {
        tables.valid();
        let buses = tables.bus_count();
        let outputs = tables.output_count();
        if number < buses {
            return Job::Input(number);
        }
        if number < buses + outputs {
            return Job::Output(number - buses);
        }
        Job::Label(number - (buses + outputs))
    }
}

/// The first condition that fails in a job, of C02 to C12; `None` where none does.
pub fn job_fault(fitted: &Fitted<'_>, job: usize) -> Option<CheckFault>
    requires there { job < job_count fitted.now.tables.now }
    ensures { result ≡ job_verdict fitted.now.tables.now (certificate_rows fitted.now.certificate.now) job }
{
    match Job::of(fitted.tables, job) {
        Job::Input(bus) => input_job(
            fitted,
            bus,
            &fitted.tables.bus_bound(bus),
            &fitted.tables.bus_service(bus),
        ),
        Job::Output(output) => output_job(
            fitted,
            output,
            &fitted.tables.output_bound(output),
            &fitted.tables.output_service(output),
        ),
        Job::Label(label) => label_fault(fitted, label),
    }
}

/// The same, given the job's first failing windows: that of its backlog, where it is an input, and that of its delay,
/// where it is no label. C02 and C07 do not apply to it.
pub fn job_fault_given(
    fitted: &Fitted<'_>,
    job: usize,
    overfull: Option<u32>,
    overdue: Option<u32>,
) -> Option<CheckFault>
    requires there { job < job_count fitted.now.tables.now }
    requires ranges { job_ranges fitted.now.tables.now (certificate_rows fitted.now.certificate.now) job ≡ None }
    requires overfull { overfull ≡ job_backlog_failure fitted.now.tables.now (certificate_rows fitted.now.certificate.now) job }
    requires overdue { overdue ≡ job_delay_failure fitted.now.tables.now (certificate_rows fitted.now.certificate.now) job }
    ensures { result ≡ job_verdict fitted.now.tables.now (certificate_rows fitted.now.certificate.now) job }
{
    match Job::of(fitted.tables, job) {
        Job::Input(bus) => input_fault(
            fitted,
            bus,
            &fitted.tables.bus_bound(bus),
            &fitted.tables.bus_service(bus),
            overfull,
            overdue,
        ),
        Job::Output(output) => output_fault(
            fitted,
            output,
            &fitted.tables.output_bound(output),
            &fitted.tables.output_service(output),
            overdue,
        ),
        Job::Label(label) => label_fault(fitted, label),
    }
}

/// The first fault of all jobs.
pub(crate) fn jobs_fault(fitted: &Fitted<'_>) -> Option<CheckFault>
    ensures { result ≡ first_job_fault (job_verdict fitted.now.tables.now (certificate_rows fitted.now.certificate.now)) (job_count fitted.now.tables.now) }
{
    fitted.tables.valid();
    let jobs = fitted.tables.bus_count()
        + fitted.tables.output_count()
        + fitted.tables.label_count();
    for job in 0..jobs {
        let fault = job_fault(fitted, job);
        if fault.is_some() {
            return fault;
        }
    }
    None
}

/// The verdict on a certificate: its first fault, if it has one.
pub fn verdict(tables: &Tables, certificate: &Certificate) -> Result<(), CheckFault>
    ensures place { IfErr result (λ fault. IsPlaced tables.now fault) }
    ensures exact { IsVerdict tables.now (named_rows certificate.now) result }
{
    if let Some(fault) = misnamed(tables, certificate) {
        return Err(fault);
    }
    let fitted = Fitted {
        tables,
        certificate,
    };
    match jobs_fault(&fitted) {
        None => Ok(()),
        Some(fault) => Err(fault),
    }
}
