//! Tables and certificates from a source.
ghost use Rattle.std.specs.Prelude.{◌≡◌, ◌≢◌, ◌+◌, ◌<◌, IfErr, IfSome};
ghost use Rattle.dc_cert.specs.Reading.{certificate_of};
ghost use Rattle.dc_toml.specs.Reading.{tables_of};
ghost use Rattle.dc_document.specs.declared.limits.TheConstants.{TEXT_LIMIT};
ghost use Rattle.dc_answer.specs.Inputs.{Loads, LoadsCertificate, LoadsWritten, ReadsText, failed_in};
ghost use Rattle.dc_device.specs.States.{AsksUpTo, IsCountable};

use crate::answer::Failure;
use dc_build::{WrittenTables, read_tables, read_written};
use dc_cert::{CertFault, CertRule, Certificate, Fault, TextPlace, read_cert};
use dc_device::{Source, Unread, read_at_most};
use dc_document::{BuildError, Section, TEXT_LIMIT, TableFault, TableRule};
use dc_tables::Tables;
use std::alloc::Global;

/// Why a text gives nothing.
#[derive(Clone, Copy, Debug, PartialEq, Eq)]
pub enum Unloaded<F> {
    /// The text's first fault.
    Refused(F),
    /// The text was not read.
    Failed(Failure),
}

/// The text of a source within the limit of tables and certificates, or the fault of a longer one.
fn read_text<S: Source, F: Copy>(
    alloc: Global,
    source: &mut S,
    too_long: F,
) -> Result<Vec<u8>, Unloaded<F>>
    requires { IsCountable (S.state source.old) }
    ensures text { IfSome (S.state source.old).remaining (λ text. ReadsText too_long text result) }
    ensures count { (S.state source.new).failed ≡ (S.state source.old).failed + failed_in result }
    ensures asks { AsksUpTo TEXT_LIMIT (S.state source.old) (S.state source.new) }
    ensures sink { IfErr result (λ e. e ≢ Unloaded.Failed Failure.Sink) }
{
    match read_at_most(alloc, source, TEXT_LIMIT) {
        Ok(text) => Ok(text),
        Err(Unread::Device) => Err(Unloaded::Failed(Failure::Source)),
        Err(Unread::Memory) => Err(Unloaded::Failed(Failure::Memory)),
        Err(Unread::TooLong) => Err(Unloaded::Refused(too_long)),
    }
}

/// The tables of a text.
fn build(alloc: Global, text: &[u8]) -> Result<Tables, Unloaded<TableFault>>
    ensures tables { Loads (tables_of text.now) result }
    ensures count { failed_in result ≡ 0 }
    ensures sink { IfErr result (λ e. e ≢ Unloaded.Failed Failure.Sink) }
{
    match read_tables(alloc, text) {
        Ok(tables) => Ok(tables),
        Err(BuildError::Refused(fault)) => Err(Unloaded::Refused(fault)),
        Err(BuildError::Memory(_)) => Err(Unloaded::Failed(Failure::Memory)),
    }
}

/// The same beside its document.
fn build_written(alloc: Global, text: &[u8]) -> Result<WrittenTables, Unloaded<TableFault>>
    ensures tables { LoadsWritten (tables_of text.now) result }
    ensures count { failed_in result ≡ 0 }
    ensures sink { IfErr result (λ e. e ≢ Unloaded.Failed Failure.Sink) }
{
    match read_written(alloc, text) {
        Ok(tables) => Ok(tables),
        Err(BuildError::Refused(fault)) => Err(Unloaded::Refused(fault)),
        Err(BuildError::Memory(_)) => Err(Unloaded::Failed(Failure::Memory)),
    }
}

/// The fault of a text of tables that is longer than a text may be.
const TOO_LONG: TableFault = TableFault {
    rule: TableRule::NotToml,
    section: Section::Top,
    index: 0,
};

/// The tables that the text of a source says, read whole.
///
/// # Errors
/// `Refused` with the text's first fault; `Failed` where the source failed or memory was refused.
pub fn load<S: Source>(alloc: Global, source: &mut S) -> Result<Tables, Unloaded<TableFault>>
    requires { IsCountable (S.state source.old) }
    ensures tables { IfSome (S.state source.old).remaining (λ text. Loads (tables_of text) result) }
    ensures count { (S.state source.new).failed ≡ (S.state source.old).failed + failed_in result }
    ensures asks { AsksUpTo TEXT_LIMIT (S.state source.old) (S.state source.new) }
    ensures sink { IfErr result (λ e. e ≢ Unloaded.Failed Failure.Sink) }
{
    match read_text(alloc, source, TOO_LONG) {
        Ok(text) => build(alloc, text.as_slice()),
        Err(unloaded) => Err(unloaded),
    }
}

/// The tables that the text of a source says, read whole, beside its document.
///
/// # Errors
/// As of [`load`].
pub fn load_written<S: Source>(
    alloc: Global,
    source: &mut S,
) -> Result<WrittenTables, Unloaded<TableFault>>
    requires { IsCountable (S.state source.old) }
    ensures tables { IfSome (S.state source.old).remaining (λ text. LoadsWritten (tables_of text) result) }
    ensures count { (S.state source.new).failed ≡ (S.state source.old).failed + failed_in result }
    ensures asks { AsksUpTo TEXT_LIMIT (S.state source.old) (S.state source.new) }
    ensures sink { IfErr result (λ e. e ≢ Unloaded.Failed Failure.Sink) }
{
    match read_text(alloc, source, TOO_LONG) {
        Ok(text) => build_written(alloc, text.as_slice()),
        Err(unloaded) => Err(unloaded),
    }
}

/// The certificate of a text.
fn certificate_in(alloc: Global, text: &[u8]) -> Result<Certificate, Unloaded<Fault>>
    ensures certificate { LoadsCertificate (certificate_of text.now) result }
    ensures count { failed_in result ≡ 0 }
    ensures sink { IfErr result (λ e. e ≢ Unloaded.Failed Failure.Sink) }
{
    match read_cert(alloc, text) {
        Ok(certificate) => Ok(certificate),
        Err(CertFault::Unreadable(fault)) => Err(Unloaded::Refused(fault)),
        Err(CertFault::Memory) => Err(Unloaded::Failed(Failure::Memory)),
    }
}

/// The certificate that the text of a source says, read whole.
///
/// # Errors
/// `Refused` with the text's first fault; `Failed` where the source failed or memory was refused.
pub fn load_certificate<S: Source>(
    alloc: Global,
    source: &mut S,
) -> Result<Certificate, Unloaded<Fault>>
    requires { IsCountable (S.state source.old) }
    ensures certificate { IfSome (S.state source.old).remaining (λ text. LoadsCertificate (certificate_of text) result) }
    ensures count { (S.state source.new).failed ≡ (S.state source.old).failed + failed_in result }
    ensures asks { AsksUpTo TEXT_LIMIT (S.state source.old) (S.state source.new) }
    ensures sink { IfErr result (λ e. e ≢ Unloaded.Failed Failure.Sink) }
{
    let too_long = Fault {
        rule: CertRule::NotJson,
        place: TextPlace::Top,
    };
    match read_text(alloc, source, too_long) {
        Ok(text) => certificate_in(alloc, text.as_slice()),
        Err(unloaded) => Err(unloaded),
    }
}
