//! Why a certificate is refused.
use crate::ages::{tell_oldest, tell_stale};
use crate::gaps::tell_gap;
use crate::labels::{Aging, Sending, aging_of, sending_of};
use crate::misnamed::tell_names;
use crate::servers::server_of;
use crate::teller::{About, tell_alone};
use crate::waits::{tell_backlog, tell_delay, tell_open_window, tell_range, tell_room};
use dc_cert::{Certificate, read_cert};
use dc_check::{CertificateList, CheckFault, Condition, verdict};
use dc_find::Queue;
use dc_tables::Tables;
use dc_tell::{Explanation, File};
use std::alloc::Global;

/// The texts that were read.
#[derive(Clone, Copy)]
pub struct Files<'a> {
    /// The tables.
    pub tables: File<'a>,
    /// The certificate.
    pub certificate: File<'a>,
}

/// Tells what is wrong with a queue.
fn tell_queue(out: &mut Explanation, of: &About<'_>, fault: &CheckFault, queue: Queue) {
    let Some(server) = server_of(of.tables, of.certificate, queue) else {
        return;
    };
    match fault.condition {
        Condition::WindowOutOfRange => tell_range(out, of, &server, true),
        Condition::DelayOutOfRange => tell_range(out, of, &server, false),
        Condition::WindowDoesNotClose => tell_open_window(out, of, &server),
        Condition::BacklogTooSmall => tell_backlog(out, of, &server, fault.window),
        Condition::QueueTooShort => tell_room(out, of, &server),
        Condition::DelayTooSmall => tell_delay(out, of, &server, fault.window),
        _ => {}
    }
}

/// Tells which rule a label breaks, as of this code, by how it is sent and how old its words may be.
pub(crate) fn tell_rule(
    out: &mut Explanation,
    of: &About<'_>,
    code: &str,
    sending: &Sending,
    aging: &Aging,
    condition: Condition,
) {
    match condition {
        Condition::SentTooSoon | Condition::SentTooLate => tell_gap(
            out, of, code, sending, condition,
        ),
        Condition::AgeTooSmall | Condition::AgeOverLimit => tell_oldest(
            out, of, code, aging, condition,
        ),
        Condition::SourceGoesStale => tell_stale(out, of, code, aging),
        _ => {}
    }
}

/// Tells what is wrong with a label.
fn tell_label(out: &mut Explanation, of: &About<'_>, label: usize, condition: Condition) {
    let Some(sending) = sending_of(of.tables, of.certificate, label) else {
        return;
    };
    if let Some(aging) = aging_of(of.tables, of.certificate, label) {
        tell_rule(out, of, condition.code(), &sending, &aging, condition);
    }
}

/// For how much what helps is enough.
const ALONE: &str =
    "what helps here is enough for this rule alone; who changes the tables lets `dc429 find TABLES > CERTIFICATE` write all numbers of the certificate anew: those of this one are of the old tables";

/// Tells a fault.
fn tell_fault(out: &mut Explanation, of: &About<'_>, fault: &CheckFault) {
    if matches!(fault.condition, Condition::NamesDiffer) {
        return tell_names(out, of, fault.list);
    }
    match fault.list {
        CertificateList::Inputs => tell_queue(out, of, fault, Queue::Input(fault.index)),
        CertificateList::Outputs => tell_queue(out, of, fault, Queue::Output(fault.index)),
        CertificateList::Labels => tell_label(out, of, fault.index, fault.condition),
    }
    tell_alone(out, ALONE);
}

/// Why a certificate is refused for tables: its first fault, with the numbers that decide it and what helps. `None`
/// where it is accepted, and where memory is refused.
pub fn explain_verdict(
    alloc: Global,
    tables: &Tables,
    certificate: &Certificate,
    files: Files<'_>,
) -> Option<String> {
    let Some(fault) = verdict(tables, certificate).err() else {
        return None;
    };
    let of = About {
        alloc,
        tables,
        certificate,
        file: files.tables,
        claims: files.certificate,
    };
    let mut out = Explanation::new(alloc);
    tell_fault(&mut out, &of, &fault);
    out.finish()
}

/// Why the text of a certificate is refused for tables, as [`explain_verdict`] tells it. `None` where it is none, too.
pub fn explain_text(alloc: Global, tables: &Tables, files: Files<'_>) -> Option<String> {
    match read_cert(alloc, files.certificate.text) {
        Ok(certificate) => explain_verdict(alloc, tables, &certificate, files),
        Err(_) => None,
    }
}
