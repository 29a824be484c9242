//! The least certificate for C.
ghost use Rattle.dc_embed.specs.Finding.{FindsCertificate};

use crate::exports::NO_FAULT;
use crate::text::put_text;
use dc_engine::Report;
use dc_texts::find_text;
use std::alloc::Global;

/// The text of the least certificate that is accepted for the text of tables, as `dc429 find` prints it: true where
/// there is one. `length` is what it takes, and where there is room it is put to the front of `text`; else nothing is.
/// Where the answer is false, the report says why there is none, and `length` is 0.
#[unsafe(no_mangle)]
pub extern "C" fn dc429_find(
    alloc: Global,
    tables: &[u8],
    text: &mut [u8],
    length: &mut usize,
    report: &mut Report,
) -> bool
    ensures { FindsCertificate tables.now text.old text.new length.new report.new result }
{
    match find_text(alloc, tables) {
        Ok(found) => {
            *length = found.len();
            put_text(found.as_bytes(), text);
            *report = NO_FAULT;
            true
        }
        Err(fault) => {
            *length = 0;
            *report = fault.report();
            false
        }
    }
}
