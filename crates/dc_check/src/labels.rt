//! The rules on a label: its gaps, the age of its data, and sources that stay fresh.

ghost use Rattle.std.specs.Prelude.{◌≡◌, ℕ, ◌+◌, ◌<◌, ◌≤◌, length, nat_le};
ghost use Rattle.std.specs.List.{list_all};
ghost use Rattle.dc_cert.specs.Bounds.{certificate_rows, input_bound, output_bound};
ghost use Rattle.dc_check.specs.Accepts.{gaps_of, source_delay};
ghost use Rattle.dc_check.specs.Verdict.{are_within, first_of, label_rules, stay_fresh};
ghost use Rattle.dc_tables.specs.TableRows.{label_row};

use crate::fault::{CertificateList, CheckFault, Condition};
use crate::fitted::Fitted;
use crate::rules::{fault, fault_unless, first_fault};
use dc_tables::Tables;
use dc_transmit::Schedule;

/// The first fault of a label.
pub(crate) fn label_fault(fitted: &Fitted<'_>, label: usize) -> Option<CheckFault>
    requires there { label < length fitted.now.tables.now.labels }
    ensures { result ≡ first_of (label_rules fitted.now.tables.now label (certificate_rows fitted.now.certificate.now)) }
{
    fitted.tables.valid();
    let delay = fitted.certificate.outputs[fitted.tables.label(label).output].delay;
    let age = fitted.certificate.labels[label].age;
    first_fault(&[
        fault_unless(
            are_not_soon(fitted.tables, label, delay),
            fault(CertificateList::Labels, label, Condition::SentTooSoon),
        ),
        fault_unless(
            are_not_late(fitted.tables, label, delay),
            fault(CertificateList::Labels, label, Condition::SentTooLate),
        ),
        fault_unless(
            are_within(fitted, label, age),
            fault(CertificateList::Labels, label, Condition::AgeTooSmall),
        ),
        fault_unless(
            age <= fitted.tables.label(label).age_limit,
            fault(CertificateList::Labels, label, Condition::AgeOverLimit),
        ),
        fault_unless(
            stay_fresh(fitted, label),
            fault(CertificateList::Labels, label, Condition::SourceGoesStale),
        ),
    ])
}

/// Whether neighbouring entries of a label lie at least its least interval and the delay apart, round the frame.
fn are_not_soon(tables: &Tables, label: usize, delay: u32) -> bool
    requires { label < length tables.now.labels }
    ensures { result ≡ list_all (λ g. nat_le ((label_row tables.now label).minimum + delay) g) (gaps_of tables.now label) }
{
    tables.valid();
    let row = tables.label(label);
    let schedule = Schedule::of(tables, row.output);
    u64::from(row.minimum) + u64::from(delay) <= schedule.min_gap(label)
}

/// Whether they lie, with the delay, at most its greatest interval apart.
fn are_not_late(tables: &Tables, label: usize, delay: u32) -> bool
    requires { label < length tables.now.labels }
    ensures { result ≡ list_all (λ g. nat_le (g + delay) (label_row tables.now label).maximum) (gaps_of tables.now label) }
{
    tables.valid();
    let row = tables.label(label);
    let schedule = Schedule::of(tables, row.output);
    let greatest = u64::from(row.maximum);
    let delay = u64::from(delay);
    delay <= greatest && schedule.max_gap(label) <= greatest - delay
}

/// Whether the age is long enough for the oldest word that the label still copies, from whichever source.
fn are_within(fitted: &Fitted<'_>, label: usize, age: u32) -> bool
    requires there { label < length fitted.now.tables.now.labels }
    ensures { result ≡ are_within fitted.now.tables.now label age (certificate_rows fitted.now.certificate.now) }
{
    fitted.tables.valid();
    let row = fitted.tables.label(label);
    let sources = row.sources.as_slice();
    for stream in sources {
        let delay = delay_of(fitted, *stream);
        if u64::from(row.stale) + u64::from(delay) > u64::from(age) {
            return false;
        }
    }
    true
}

/// Whether the label's stale limit is long enough for each of its sources that keeps sending.
fn stay_fresh(fitted: &Fitted<'_>, label: usize) -> bool
    requires there { label < length fitted.now.tables.now.labels }
    ensures { result ≡ stay_fresh fitted.now.tables.now label (certificate_rows fitted.now.certificate.now) }
{
    fitted.tables.valid();
    let row = fitted.tables.label(label);
    let sources = row.sources.as_slice();
    for stream in sources {
        let delay = delay_of(fitted, *stream);
        let maximum = fitted.tables.stream(*stream).maximum;
        if u64::from(delay) + u64::from(maximum) > u64::from(row.stale) {
            return false;
        }
    }
    true
}

/// The delay that the certificate claims of a stream's bus.
fn delay_of(fitted: &Fitted<'_>, stream: usize) -> u32
    requires there { stream < length fitted.now.tables.now.streams }
    ensures { result ≡ source_delay fitted.now.tables.now (certificate_rows fitted.now.certificate.now) stream }
{
    fitted.certificate.inputs[fitted.tables.bus_of(stream)].delay
}
