//! The text that `margins` prints of texts, and why no certificate is accepted.
ghost use Rattle.std.specs.Prelude.{◌≡◌, IfOk};
ghost use Rattle.dc_answer.specs.Exits.{is_answered};
ghost use Rattle.dc_texts.specs.Margins.{IsLeastMarginsText, IsLeastRefusal, IsLeastReportOf, IsMarginsText, IsRefusal, IsReportOf};

use crate::fault::NotFound;
use crate::finding::find_text;
use crate::growing::Growing;
use dc_answer::Exit;
use dc_device::MemSource;
use dc_engine::{OpenFault, Report, judge};
use dc_run_margins::{Telling, run_margins_least_told, run_margins_told};
use std::alloc::{AllocError, Global};

/// How margins are told without options.
const WITHOUT_OPTIONS: Telling = Telling {
    json: false,
    microseconds: false,
    drift: None,
};

/// How many bytes of a text are read at once, at most.
const PIECE: usize = 1 << 20;

/// What `margins` prints.
#[derive(Drop)]
pub struct MarginsText {
    /// The lines, each with a line feed.
    pub text: Vec<u8>,
    /// Why no certificate is accepted, where none is.
    pub refusal: Option<Report>,
}

/// Whether a command got to its end.
fn is_whole(exit: Exit) -> bool
    ensures { result ≡ is_answered exit }
{
    match exit {
        Exit::Done => true,
        Exit::Refused => true,
        Exit::Unreadable => true,
        Exit::Failed => false,
    }
}

/// A fault as numbers, where there is one; want of memory is told as that.
fn reported(fault: Option<OpenFault>) -> Result<Option<Report>, AllocError>
    ensures { IfOk result (λ r. IsReportOf fault r) }
{
    match fault {
        None => Ok(None),
        Some(OpenFault::Memory) => Err(AllocError),
        Some(OpenFault::Tables(fault)) => Ok(Some(OpenFault::Tables(fault).report())),
        Some(OpenFault::Certificate(fault)) => Ok(Some(OpenFault::Certificate(fault).report())),
        Some(OpenFault::Refused(fault)) => Ok(Some(OpenFault::Refused(fault).report())),
    }
}

/// Why a certificate is not accepted for tables, both texts, where it is not.
fn refusal(alloc: Global, tables: &[u8], certificate: &[u8]) -> Result<Option<Report>, AllocError>
    ensures { IfOk result (λ r. IsRefusal tables.now certificate.now r) }
{
    reported(judge(alloc, tables, certificate).err())
}

/// Why nothing was found as numbers, where it was not; want of memory is told as that.
fn least_reported(fault: Option<NotFound>) -> Result<Option<Report>, AllocError>
    ensures { IfOk result (λ r. IsLeastReportOf fault r) }
{
    match fault {
        None => Ok(None),
        Some(NotFound::Memory) => Err(AllocError),
        Some(NotFound::Tables(fault)) => Ok(Some(NotFound::Tables(fault).report())),
        Some(NotFound::Obstacle(fault)) => Ok(Some(NotFound::Obstacle(fault).report())),
    }
}

/// Why none is found for the tables of a text, where none is.
fn least_refusal(alloc: Global, tables: &[u8]) -> Result<Option<Report>, AllocError>
    ensures { IfOk result (λ r. IsLeastRefusal tables.now r) }
{
    least_reported(find_text(alloc, tables).err())
}

/// The lines that `margins` prints of a certificate for tables, both texts.
fn lines(alloc: Global, tables: &[u8], certificate: &[u8]) -> Result<Vec<u8>, AllocError>
    ensures { IfOk result (λ t. IsMarginsText tables.now certificate.now t.items) }
{
    let mut rows = MemSource::new(tables, PIECE, 0);
    let mut claims = MemSource::new(certificate, PIECE, 0);
    let mut sink = Growing::new(alloc);
    let exit = run_margins_told(alloc, WITHOUT_OPTIONS, &mut rows, &mut claims, &mut sink);
    if !is_whole(exit) {
        return Err(AllocError);
    }
    Ok(sink.into_text())
}

/// The lines that `margins` prints of the tables of a text alone.
fn least_lines(alloc: Global, tables: &[u8]) -> Result<Vec<u8>, AllocError>
    ensures { IfOk result (λ t. IsLeastMarginsText tables.now t.items) }
{
    let mut rows = MemSource::new(tables, PIECE, 0);
    let mut sink = Growing::new(alloc);
    let exit = run_margins_least_told(alloc, WITHOUT_OPTIONS, &mut rows, &mut sink);
    if !is_whole(exit) {
        return Err(AllocError);
    }
    Ok(sink.into_text())
}

/// The text that `margins` prints of a certificate for tables, both texts, and why it is not accepted.
///
/// # Errors
/// `AllocError` where memory was refused.
pub fn margins_text(
    alloc: Global,
    tables: &[u8],
    certificate: &[u8],
) -> Result<MarginsText, AllocError>
    ensures { IfOk result (λ m. IsMarginsText tables.now certificate.now m.text.items × IsRefusal tables.now certificate.now m.refusal) }
{
    let refusal = refusal(alloc, tables, certificate)?;
    match lines(alloc, tables, certificate) {
        Ok(text) => Ok(MarginsText { text, refusal }),
        Err(e) => Err(e),
    }
}

/// The text that `margins` prints of the tables of a text alone, with the least certificate, and why none is accepted.
///
/// # Errors
/// `AllocError` where memory was refused.
pub fn least_margins_text(alloc: Global, tables: &[u8]) -> Result<MarginsText, AllocError>
    ensures { IfOk result (λ m. IsLeastMarginsText tables.now m.text.items × IsLeastRefusal tables.now m.refusal) }
{
    let refusal = least_refusal(alloc, tables)?;
    match least_lines(alloc, tables) {
        Ok(text) => Ok(MarginsText { text, refusal }),
        Err(e) => Err(e),
    }
}
