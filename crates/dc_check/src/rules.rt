//! Faults of single rules, and the first of several.

ghost use Rattle.std.specs.Prelude.{◌≡◌, ℕ, ◌≤◌};
ghost use Rattle.dc_check.specs.Verdict.{fault_at, unless, at_window, first_of, range_rules, is_closing, backlog_failure, delay_failure};
ghost use Rattle.dc_check.specs.declared.fault.Condition.TheVariants.{WindowDoesNotClose};
ghost use Rattle.dc_busy.specs.declared.limits.TheConstants.{LONGEST_WINDOW};

use crate::fault::{CertificateList, CheckFault, Condition};
use dc_bound::{ArrivalBound, ServiceBound};
use dc_busy::{LONGEST_WINDOW, closes, delay_fails, first_failures};

/// A fault that names no window.
pub(crate) fn fault(list: CertificateList, index: usize, condition: Condition) -> CheckFault
    ensures { result ≡ fault_at list index condition 0 }
{
    CheckFault {
        condition,
        list,
        index,
        window: 0,
    }
}

/// The fault, unless its rule holds.
#[tactic(auto, unfolding(crate::specs::Verdict::unless))]
pub(crate) fn fault_unless(holds: bool, fault: CheckFault) -> Option<CheckFault>
    ensures { result ≡ unless holds fault }
{
    if holds { None } else { Some(fault) }
}

/// The fault that names the first window that fails, if there is one.
#[tactic(auto, unfolding(crate::specs::Verdict::at_window))]
pub(crate) fn window_fault(
    list: CertificateList,
    index: usize,
    condition: Condition,
    first: Option<u32>,
) -> Option<CheckFault>
    ensures { result ≡ at_window list index condition first }
{
    match first {
        None => None,
        Some(window) => Some(CheckFault {
            condition,
            list,
            index,
            window,
        }),
    }
}

/// The first fault of some rules, in their order.
pub(crate) fn first_fault(rules: &[Option<CheckFault>]) -> Option<CheckFault>
    ensures { result ≡ first_of rules.now }
{
    for rule in rules {
        if rule.is_some() {
            return *rule;
        }
    }
    None
}

/// The fault of a window or a delay that is out of range.
pub(crate) fn range_fault(
    list: CertificateList,
    index: usize,
    window: u32,
    delay: u32,
) -> Option<CheckFault>
    ensures { result ≡ first_of (range_rules list index window delay) }
{
    first_fault(&[
        fault_unless(
            1 <= window && window <= LONGEST_WINDOW,
            fault(list, index, Condition::WindowOutOfRange),
        ),
        fault_unless(
            delay <= LONGEST_WINDOW,
            fault(list, index, Condition::DelayOutOfRange),
        ),
    ])
}

/// The fault of a window, 1 to [`LONGEST_WINDOW`], that does not close.
pub(crate) fn closing_fault<A: ArrivalBound, S: ServiceBound>(
    list: CertificateList,
    index: usize,
    arrivals: &A,
    service: &S,
    window: u32,
) -> Option<CheckFault>
    requires least { 1 ≤ window }
    requires most { window ≤ LONGEST_WINDOW }
    ensures { result ≡ unless (is_closing (A.cap arrivals.now) (S.floor service.now) window) (fault_at list index WindowDoesNotClose 0) }
{
    fault_unless(
        closes(arrivals, service, window),
        fault(list, index, Condition::WindowDoesNotClose),
    )
}

/// The first window up to this one, 1 to [`LONGEST_WINDOW`], in which more may wait than the backlog, and the first in
/// which a word may wait longer than the delay, at most as many.
pub(crate) fn first_failing<A: ArrivalBound, S: ServiceBound>(
    arrivals: &A,
    service: &S,
    window: u32,
    backlog: u32,
    delay: u32,
) -> (Option<u32>, Option<u32>)
    requires least { 1 ≤ window }
    requires most { window ≤ LONGEST_WINDOW }
    requires short { delay ≤ LONGEST_WINDOW }
    ensures backlog { result.0 ≡ backlog_failure (A.cap arrivals.now) (S.floor service.now) window backlog }
    ensures delay { result.1 ≡ delay_failure (A.cap arrivals.now) (S.floor service.now) window delay }
{
    first_failures(arrivals, service, window, u64::from(backlog), delay)
}

/// The first window up to this one, 1 to [`LONGEST_WINDOW`], in which a word may wait longer than the delay, at most as
/// many.
pub(crate) fn first_overdue<A: ArrivalBound, S: ServiceBound>(
    arrivals: &A,
    service: &S,
    window: u32,
    delay: u32,
) -> Option<u32>
    requires least { 1 ≤ window }
    requires most { window ≤ LONGEST_WINDOW }
    requires short { delay ≤ LONGEST_WINDOW }
    ensures { result ≡ delay_failure (A.cap arrivals.now) (S.floor service.now) window delay }
{
    delay_fails(arrivals, service, window, delay)
}
