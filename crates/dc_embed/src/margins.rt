//! Margins for C.
ghost use Rattle.dc_embed.specs.Margins.{PrintsLeastMargins, PrintsMargins, TellsMargins};

use crate::exports::NO_FAULT;
use crate::text::put_text;
use dc_engine::{OpenFault, Report};
use dc_texts::{MarginsText, least_margins_text, margins_text};
use std::alloc::{AllocError, Global};

/// Tells what `margins` prints: true where a certificate is accepted; else the report says why none is.
fn tell(
    printed: Result<MarginsText, AllocError>,
    text: &mut [u8],
    length: &mut usize,
    report: &mut Report,
) -> bool
    ensures { TellsMargins printed text.old text.new length.new report.new result }
{
    let Ok(margins) = printed else {
        *length = 0;
        *report = OpenFault::Memory.report();
        return false;
    };
    *length = margins.text.len();
    put_text(margins.text.as_slice(), text);
    match margins.refusal {
        None => {
            *report = NO_FAULT;
            true
        }
        Some(why) => {
            *report = why;
            false
        }
    }
}

/// The text that `dc429 margins` prints of the texts of tables and of a certificate: `length` is what it takes, and where
/// there is room it is put to the front of `text`; else nothing is. True where the certificate is accepted; else the
/// report says why not, as `dc429_check` does. Where memory was refused, `length` is 0 and no text is told.
#[unsafe(no_mangle)]
pub extern "C" fn dc429_margins(
    alloc: Global,
    tables: &[u8],
    certificate: &[u8],
    text: &mut [u8],
    length: &mut usize,
    report: &mut Report,
) -> bool
    ensures { PrintsMargins tables.now certificate.now text.old text.new length.new report.new result }
{
    tell(
        margins_text(alloc, tables, certificate),
        text,
        length,
        report,
    )
}

/// The same of the text of tables alone, with the least certificate that is accepted for them: true where there is one;
/// else the report says why there is none, as `dc429_find` does, and the text tells what was reached.
#[unsafe(no_mangle)]
pub extern "C" fn dc429_least_margins(
    alloc: Global,
    tables: &[u8],
    text: &mut [u8],
    length: &mut usize,
    report: &mut Report,
) -> bool
    ensures { PrintsLeastMargins tables.now text.old text.new length.new report.new result }
{
    tell(least_margins_text(alloc, tables), text, length, report)
}
