//! The jobs of a certificate: its inputs, outputs and labels in one row, from 0.

ghost use Rattle.std.specs.Prelude.{◌≡◌, ℕ, ◌+◌, ◌<◌, ◌≤◌, true, length};
ghost use Rattle.dc_cert.specs.Bounds.{certificate_rows, input_bound, output_bound};
ghost use Rattle.dc_check.specs.Verdict.{job_count, job_verdict};
ghost use Rattle.std.specs.Thread.{IsSync};
ghost use Rattle.dc_tables.specs.TableRows.{bus_cap, bus_floor, output_cap, output_floor};
ghost use Rattle.dc_busy.specs.declared.limits.TheConstants.{LONGEST_WINDOW};

use crate::jobs::Jobs;
use crate::limits::LONG;
use crate::long::first_failures;
use dc_bound::{ArrivalBound, ServiceBound};
use dc_busy::LONGEST_WINDOW;
use dc_cert::Certificate;
use dc_check::{CheckFault, Fitted, Job, job_fault, job_fault_given};
use std::marker::Sync;
use std::thread::Threads;

/// The verdict on a certificate for tables, job by job. Its long windows may be searched in pieces.
#[derive(Drop)]
pub(crate) struct Case<'a, R> {
    pub rt: &'a R,
    pub in_pieces: bool,
    pub fitted: &'a Fitted<'a>,
}

impl<'a, R: Threads + Sync> Jobs for Case<'a, R> {
    ghost may_ask = { λ x. IsSync R.row };

    ghost jobs = { λ x. job_count x.fitted.now.tables.now };

    ghost verdict = { λ x. job_verdict x.fitted.now.tables.now (certificate_rows x.fitted.now.certificate.now) };

    fn len(&self) -> usize {
        let tables = self.fitted.tables;
        tables.valid();
        tables.bus_count() + tables.output_count() + tables.label_count()
    }

    fn fault(&self, job: usize) -> Option<CheckFault> {
        case_fault(self, job)
    }
}

/// Whether a window is long, and neither it nor the delay is out of range.
fn is_long(window: u32, delay: u32) -> bool
    ensures { result ≡ true → (1 ≤ window) × (window ≤ LONGEST_WINDOW) × (delay ≤ LONGEST_WINDOW) }
{
    LONG < window && window <= LONGEST_WINDOW && delay <= LONGEST_WINDOW
}

/// Whether a window is to be searched in pieces.
fn is_for_pieces(in_pieces: bool, window: u32, delay: u32) -> bool
    ensures { result ≡ true → (1 ≤ window) × (window ≤ LONGEST_WINDOW) × (delay ≤ LONGEST_WINDOW) }
{
    in_pieces && is_long(window, delay)
}

/// How many windows of a certificate are long.
pub(crate) fn long_count(certificate: &Certificate) -> usize {
    let mut count: usize = 0;
    for row in &certificate.inputs {
        if is_long(row.window, row.delay) {
            count = count.saturating_add(1);
        }
    }
    for row in &certificate.outputs {
        if is_long(row.window, row.delay) {
            count = count.saturating_add(1);
        }
    }
    count
}

/// The first fault of a job, whose long windows several threads may search.
fn case_fault<R: Threads + Sync>(case: &Case<'_, R>, job: usize) -> Option<CheckFault>
    requires there { job < job_count case.now.fitted.now.tables.now }
    ensures { result ≡ job_verdict case.now.fitted.now.tables.now (certificate_rows case.now.fitted.now.certificate.now) job }
{
    match Job::of(case.fitted.tables, job) {
        Job::Input(bus) => input_fault(
            case,
            bus,
            &case.fitted.tables.bus_bound(bus),
            &case.fitted.tables.bus_service(bus),
        ),
        Job::Output(output) => output_fault(
            case,
            output,
            &case.fitted.tables.output_bound(output),
            &case.fitted.tables.output_service(output),
        ),
        Job::Label(_) => job_fault(case.fitted, job),
    }
}

/// The first fault of an input, given the bounds of its bus.
fn input_fault<A: ArrivalBound + Sync, S: ServiceBound + Sync, R: Threads + Sync>(
    case: &Case<'_, R>,
    bus: usize,
    arrivals: &A,
    service: &S,
) -> Option<CheckFault>
    requires there { bus < length case.now.fitted.now.tables.now.buses }
    requires arrivals { (d : ℕ) → A.cap arrivals.now d ≡ bus_cap case.now.fitted.now.tables.now bus d }
    requires service { (d : ℕ) → S.floor service.now d ≡ bus_floor case.now.fitted.now.tables.now bus d }
    ensures { result ≡ job_verdict case.now.fitted.now.tables.now (certificate_rows case.now.fitted.now.certificate.now) bus }
{
    case.fitted.tables.valid();
    let row = &case.fitted.certificate.inputs[bus];
    if !is_for_pieces(case.in_pieces, row.window, row.delay) {
        return job_fault(case.fitted, bus);
    }
    let (overfull, overdue) = first_failures(
        case.rt,
        arrivals,
        service,
        row.window,
        u64::from(row.backlog),
        row.delay,
    );
    job_fault_given(case.fitted, bus, overfull, overdue)
}

/// The first fault of an output, given its bounds.
fn output_fault<A: ArrivalBound + Sync, S: ServiceBound + Sync, R: Threads + Sync>(
    case: &Case<'_, R>,
    output: usize,
    arrivals: &A,
    service: &S,
) -> Option<CheckFault>
    requires there { output < length case.now.fitted.now.tables.now.outputs }
    requires arrivals { (d : ℕ) → A.cap arrivals.now d ≡ output_cap case.now.fitted.now.tables.now output d }
    requires service { (d : ℕ) → S.floor service.now d ≡ output_floor case.now.fitted.now.tables.now output d }
    ensures { result ≡ job_verdict case.now.fitted.now.tables.now (certificate_rows case.now.fitted.now.certificate.now)
        (length case.now.fitted.now.tables.now.buses + output) }
{
    case.fitted.tables.valid();
    let job = case.fitted.tables.bus_count() + output;
    let row = &case.fitted.certificate.outputs[output];
    if !is_for_pieces(case.in_pieces, row.window, row.delay) {
        return job_fault(case.fitted, job);
    }
    let (_, overdue) = first_failures(case.rt, arrivals, service, row.window, u64::MAX, row.delay);
    job_fault_given(case.fitted, job, None, overdue)
}
