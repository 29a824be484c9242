//! An engine of the texts of tables and of a certificate.
ghost use Rattle.std.specs.Prelude.{◌≡◌};
ghost use Rattle.std.specs.Arc.{arc_value};
ghost use Rattle.dc_engine.specs.Opening.{ReadsTables, IsVerdict, Judges, Certifies, Opens};

use crate::engine::Engine;
use crate::fault::OpenFault;
use dc_build::read_tables;
use dc_cert::{CertFault, Certificate, read_cert};
use dc_check::{Certified, check};
use dc_document::BuildError;
use dc_tables::Tables;
use std::alloc::Global;
use std::sync::Arc;

/// The tables that a text says.
///
/// # Errors
/// `Tables` with the text's first fault; `Memory` where an allocation failed.
pub fn read(alloc: Global, text: &[u8]) -> Result<Tables, OpenFault>
    ensures { ReadsTables text.now result }
{
    match read_tables(alloc, text) {
        Ok(tables) => Ok(tables),
        Err(BuildError::Refused(fault)) => Err(OpenFault::Tables(fault)),
        Err(BuildError::Memory(_)) => Err(OpenFault::Memory),
    }
}

/// The verdict on a certificate for tables.
fn verdict(tables: Arc<Tables>, certificate: Certificate) -> Result<Certified, OpenFault>
    ensures { IsVerdict (arc_value tables) certificate result }
{
    match check(tables, certificate) {
        Ok(certified) => Ok(certified),
        Err(fault) => Err(OpenFault::Refused(fault)),
    }
}

/// Judges the text of a certificate for tables.
fn judge_for(alloc: Global, tables: Arc<Tables>, text: &[u8]) -> Result<Certified, OpenFault>
    ensures { Judges (arc_value tables) text.now result }
{
    match read_cert(alloc, text) {
        Err(CertFault::Memory) => Err(OpenFault::Memory),
        Err(CertFault::Unreadable(fault)) => Err(OpenFault::Certificate(fault)),
        Ok(certificate) => verdict(tables, certificate),
    }
}

/// Judges the text of a certificate for the tables that a text says. If it is accepted, what it claims holds in every
/// admissible run of the tables.
///
/// # Errors
/// `Tables` with the first fault of the tables' text; else `Certificate` with that of the certificate's; else `Refused`
/// with the first condition that fails; `Memory` where an allocation failed.
pub fn judge(alloc: Global, tables: &[u8], certificate: &[u8]) -> Result<Certified, OpenFault>
    ensures { Certifies tables.now certificate.now result }
{
    match read(alloc, tables) {
        Err(fault) => Err(fault),
        Ok(tables) => match Arc::new(alloc, tables) {
            Err(_) => Err(OpenFault::Memory),
            Ok(tables) => judge_for(alloc, tables, certificate),
        },
    }
}

/// The engine of these texts, before any event.
///
/// # Errors
/// As of [`judge`].
pub fn open(alloc: Global, tables: &[u8], certificate: &[u8]) -> Result<Engine, OpenFault>
    ensures { Opens tables.now certificate.now result }
{
    match judge(alloc, tables, certificate) {
        Err(fault) => Err(fault),
        Ok(certified) => match Engine::new(alloc, certified) {
            Ok(engine) => Ok(engine),
            Err(_) => Err(OpenFault::Memory),
        },
    }
}
