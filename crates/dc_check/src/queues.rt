//! The rules on an input and on an output, by the bounds of their queues.

ghost use Rattle.std.specs.Prelude.{◌≡◌, ℕ, ◌+◌, ◌<◌, ◌≤◌, length, None};
ghost use Rattle.dc_cert.specs.Bounds.{certificate_rows, input_bound, output_bound};
ghost use Rattle.dc_check.specs.Verdict.{first_of, input_ranges, output_ranges, input_rules, output_rules, job_verdict};
ghost use Rattle.dc_check.specs.Verdict.{input_backlog_failure, input_delay_failure, output_delay_failure};
ghost use Rattle.dc_tables.specs.TableRows.{bus_cap, bus_floor, output_cap, output_floor};

use crate::fault::{CertificateList, CheckFault, Condition};
use crate::fitted::Fitted;
use crate::rules::{
    closing_fault, fault, fault_unless, first_failing, first_fault, first_overdue, range_fault,
    window_fault,
};
use dc_bound::{ArrivalBound, ServiceBound};

/// The first fault of an input but those of its ranges, given the bounds of its bus and its first failing windows.
pub(crate) fn input_fault<A: ArrivalBound, S: ServiceBound>(
    fitted: &Fitted<'_>,
    bus: usize,
    arrivals: &A,
    service: &S,
    overfull: Option<u32>,
    overdue: Option<u32>,
) -> Option<CheckFault>
    requires there { bus < length fitted.now.tables.now.buses }
    requires ranges { input_ranges (certificate_rows fitted.now.certificate.now) bus ≡ None }
    requires arrivals { (d : ℕ) → A.cap arrivals.now d ≡ bus_cap fitted.now.tables.now bus d }
    requires service { (d : ℕ) → S.floor service.now d ≡ bus_floor fitted.now.tables.now bus d }
    requires overfull { overfull ≡ input_backlog_failure fitted.now.tables.now bus (input_bound (certificate_rows fitted.now.certificate.now) bus) }
    requires overdue { overdue ≡ input_delay_failure fitted.now.tables.now bus (input_bound (certificate_rows fitted.now.certificate.now) bus) }
    ensures { result ≡ first_of (input_rules fitted.now.tables.now bus (input_bound (certificate_rows fitted.now.certificate.now) bus)) }
{
    let window = fitted.certificate.inputs[bus].window;
    let backlog = fitted.certificate.inputs[bus].backlog;
    first_fault(&[
        closing_fault(CertificateList::Inputs, bus, arrivals, service, window),
        window_fault(
            CertificateList::Inputs,
            bus,
            Condition::BacklogTooSmall,
            overfull,
        ),
        fault_unless(
            backlog <= fitted.tables.queue(bus),
            fault(CertificateList::Inputs, bus, Condition::QueueTooShort),
        ),
        window_fault(
            CertificateList::Inputs,
            bus,
            Condition::DelayTooSmall,
            overdue,
        ),
    ])
}

/// The first fault of an output but those of its ranges, given its bounds and its first failing window.
pub(crate) fn output_fault<A: ArrivalBound, S: ServiceBound>(
    fitted: &Fitted<'_>,
    output: usize,
    arrivals: &A,
    service: &S,
    overdue: Option<u32>,
) -> Option<CheckFault>
    requires there { output < length fitted.now.tables.now.outputs }
    requires ranges { output_ranges (certificate_rows fitted.now.certificate.now) output ≡ None }
    requires arrivals { (d : ℕ) → A.cap arrivals.now d ≡ output_cap fitted.now.tables.now output d }
    requires service { (d : ℕ) → S.floor service.now d ≡ output_floor fitted.now.tables.now output d }
    requires overdue { overdue ≡ output_delay_failure fitted.now.tables.now output (output_bound (certificate_rows fitted.now.certificate.now) output) }
    ensures { result ≡ first_of (output_rules fitted.now.tables.now output (output_bound (certificate_rows fitted.now.certificate.now) output)) }
{
    let window = fitted.certificate.outputs[output].window;
    first_fault(&[
        closing_fault(CertificateList::Outputs, output, arrivals, service, window),
        window_fault(
            CertificateList::Outputs,
            output,
            Condition::DelayTooSmall,
            overdue,
        ),
    ])
}

/// The first fault of an input, given the bounds of its bus.
pub(crate) fn input_job<A: ArrivalBound, S: ServiceBound>(
    fitted: &Fitted<'_>,
    bus: usize,
    arrivals: &A,
    service: &S,
) -> Option<CheckFault>
    requires there { bus < length fitted.now.tables.now.buses }
    requires arrivals { (d : ℕ) → A.cap arrivals.now d ≡ bus_cap fitted.now.tables.now bus d }
    requires service { (d : ℕ) → S.floor service.now d ≡ bus_floor fitted.now.tables.now bus d }
    ensures { result ≡ job_verdict fitted.now.tables.now (certificate_rows fitted.now.certificate.now) bus }
{
    let window = fitted.certificate.inputs[bus].window;
    let backlog = fitted.certificate.inputs[bus].backlog;
    let delay = fitted.certificate.inputs[bus].delay;
    let ranges = range_fault(CertificateList::Inputs, bus, window, delay);
    if ranges.is_some() {
        return ranges;
    }
    let (overfull, overdue) = first_failing(arrivals, service, window, backlog, delay);
    input_fault(fitted, bus, arrivals, service, overfull, overdue)
}

/// The first fault of an output, given its bounds.
pub(crate) fn output_job<A: ArrivalBound, S: ServiceBound>(
    fitted: &Fitted<'_>,
    output: usize,
    arrivals: &A,
    service: &S,
) -> Option<CheckFault>
    requires there { output < length fitted.now.tables.now.outputs }
    requires arrivals { (d : ℕ) → A.cap arrivals.now d ≡ output_cap fitted.now.tables.now output d }
    requires service { (d : ℕ) → S.floor service.now d ≡ output_floor fitted.now.tables.now output d }
    ensures { result ≡ job_verdict fitted.now.tables.now (certificate_rows fitted.now.certificate.now) (length fitted.now.tables.now.buses + output) }
{
    let window = fitted.certificate.outputs[output].window;
    let delay = fitted.certificate.outputs[output].delay;
    let ranges = range_fault(CertificateList::Outputs, output, window, delay);
    if ranges.is_some() {
        return ranges;
    }
    let overdue = first_overdue(arrivals, service, window, delay);
    output_fault(fitted, output, arrivals, service, overdue)
}
