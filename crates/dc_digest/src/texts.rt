//! Texts that are read whole, with their digests.
ghost use Rattle.std.specs.Prelude.{◌≡◌, ◌≢◌, ◌+◌, ◌≤◌, length, IfErr, IfOk, IfSome};
ghost use Rattle.dc_answer.specs.Inputs.{ReadsText, failed_in};
ghost use Rattle.dc_device.specs.States.{AsksUpTo, IsCountable};
ghost use Rattle.dc_document.specs.declared.limits.TheConstants.{TEXT_LIMIT};
ghost use Rattle.dc_digest.specs.Behind.{LoadsDigested};

use crate::digests::digest_of;
use dc_answer::{Failure, Unloaded};
use dc_build::read_tables;
use dc_device::{Source, Unread, read_at_most};
use dc_document::{BuildError, Section, TEXT_LIMIT, TableFault, TableRule};
use dc_tables::Tables;
use std::alloc::Global;

/// The fault of a text of tables that is longer than a text may be.
const TOO_LONG: TableFault = TableFault {
    rule: TableRule::NotToml,
    section: Section::Top,
    index: 0,
};

/// The text of a source, read whole within the limit of all texts.
///
/// # Errors
/// `Refused` with this fault where it is longer; `Failed` where the source failed or memory was refused.
pub fn read_text<S: Source, F: Copy>(
    alloc: Global,
    source: &mut S,
    too_long: F,
) -> Result<Vec<u8>, Unloaded<F>>
    requires { IsCountable (S.state source.old) }
    ensures text { IfSome (S.state source.old).remaining (λ text. ReadsText too_long text result) }
    ensures count { (S.state source.new).failed ≡ (S.state source.old).failed + failed_in result }
    ensures asks { AsksUpTo TEXT_LIMIT (S.state source.old) (S.state source.new) }
    ensures sink { IfErr result (λ e. e ≢ Unloaded.Failed Failure.Sink) }
    ensures within { IfOk result (λ bytes. length bytes.items ≤ TEXT_LIMIT) }
{
    match read_at_most(alloc, source, TEXT_LIMIT) {
        Ok(text) => Ok(text),
        Err(Unread::Device) => Err(Unloaded::Failed(Failure::Source)),
        Err(Unread::Memory) => Err(Unloaded::Failed(Failure::Memory)),
        Err(Unread::TooLong) => Err(Unloaded::Refused(too_long)),
    }
}

/// The tables of a text, with its digest.
fn build_digested(alloc: Global, text: &[u8]) -> Result<(Tables, [u8; 32]), Unloaded<TableFault>>
    ensures tables { LoadsDigested text.now result }
    ensures count { failed_in result ≡ 0 }
    ensures sink { IfErr result (λ e. e ≢ Unloaded.Failed Failure.Sink) }
{
    match read_tables(alloc, text) {
        Ok(tables) => Ok((tables, digest_of(text))),
        Err(BuildError::Refused(fault)) => Err(Unloaded::Refused(fault)),
        Err(BuildError::Memory(_)) => Err(Unloaded::Failed(Failure::Memory)),
    }
}

/// The tables that the text of a source says, read whole, with the text's digest.
///
/// # Errors
/// `Refused` with the text's first fault; `Failed` where the source failed or memory was refused.
pub fn load_digested<S: Source>(
    alloc: Global,
    source: &mut S,
) -> Result<(Tables, [u8; 32]), Unloaded<TableFault>>
    requires { IsCountable (S.state source.old) }
    ensures tables { IfSome (S.state source.old).remaining (λ text. LoadsDigested text result) }
    ensures count { (S.state source.new).failed ≡ (S.state source.old).failed + failed_in result }
    ensures asks { AsksUpTo TEXT_LIMIT (S.state source.old) (S.state source.new) }
    ensures sink { IfErr result (λ e. e ≢ Unloaded.Failed Failure.Sink) }
{
    match read_text(alloc, source, TOO_LONG) {
        Ok(text) => build_digested(alloc, text.as_slice()),
        Err(unloaded) => Err(unloaded),
    }
}
