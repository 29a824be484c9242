//! What was observed of a run, from a source.
ghost use Rattle.std.specs.Prelude.{◌≡◌, ◌≢◌, ◌+◌, IfErr, IfOk, IfSome};
ghost use Rattle.dc_answer.specs.Inputs.{failed_in};
ghost use Rattle.dc_cert.specs.Bounds.{certificate_rows};
ghost use Rattle.dc_device.specs.States.{AsksUpTo, IsCountable};
ghost use Rattle.dc_document.specs.declared.limits.TheConstants.{TEXT_LIMIT};
ghost use Rattle.dc_run_report.specs.Paper.{LoadsSeen, observed_of};
ghost use Rattle.dc_seen.specs.Said.{seen_of};
ghost use Rattle.dc_seen_page.specs.Rows.{AreSeenOf};

use dc_answer::{Failure, Unloaded};
use dc_cert::Certificate;
use dc_device::Source;
use dc_digest::read_text;
use dc_seen::{Seen, SeenFault, SeenRule, Unread, read_seen};
use dc_tables::Tables;
use std::alloc::Global;

/// The fault of a text that is longer than a text may be.
const TOO_LONG: SeenFault = SeenFault {
    rule: SeenRule::LineTooLong,
    line: 1,
};

/// The numbers of a text.
fn seen_in(
    alloc: Global,
    tables: &Tables,
    certificate: &Certificate,
    text: &[u8],
) -> Result<Seen, Unloaded<SeenFault>>
    ensures seen { LoadsSeen (seen_of tables.now (certificate_rows certificate.now) text.now) result }
    ensures sized { IfOk result (AreSeenOf tables.now) }
    ensures count { failed_in result ≡ 0 }
    ensures sink { IfErr result (λ e. e ≢ Unloaded.Failed Failure.Sink) }
{
    match read_seen(alloc, tables, certificate, text) {
        Ok(seen) => Ok(seen),
        Err(Unread::Refused(fault)) => Err(Unloaded::Refused(fault)),
        Err(Unread::Memory) => Err(Unloaded::Failed(Failure::Memory)),
    }
}

/// The numbers that the text of a source says for tables and a certificate, read whole.
///
/// # Errors
/// `Refused` with the text's first fault, at its first line where it is longer than a text may be; `Failed` where the source
/// failed or memory was refused.
pub(crate) fn load_observed<S: Source>(
    alloc: Global,
    tables: &Tables,
    certificate: &Certificate,
    source: &mut S,
) -> Result<Seen, Unloaded<SeenFault>>
    requires { IsCountable (S.state source.old) }
    ensures seen { IfSome (S.state source.old).remaining (λ text. LoadsSeen (observed_of tables.now (certificate_rows certificate.now) text) result) }
    ensures sized { IfOk result (AreSeenOf tables.now) }
    ensures count { (S.state source.new).failed ≡ (S.state source.old).failed + failed_in result }
    ensures asks { AsksUpTo TEXT_LIMIT (S.state source.old) (S.state source.new) }
    ensures sink { IfErr result (λ e. e ≢ Unloaded.Failed Failure.Sink) }
{
    match read_text(alloc, source, TOO_LONG) {
        Ok(text) => seen_in(alloc, tables, certificate, text.as_slice()),
        Err(unloaded) => Err(unloaded),
    }
}
