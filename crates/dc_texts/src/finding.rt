//! The text of the least certificate for the text of tables.
ghost use Rattle.std.specs.Prelude.{◌≡◌};
ghost use Rattle.dc_texts.specs.Finding.{FindsFor, FindsText};

use crate::fault::NotFound;
use dc_build::read_tables;
use dc_cert::cert_text;
use dc_document::BuildError;
use dc_find::find;
use dc_tables::Tables;
use std::alloc::Global;

/// The text of the least certificate that is accepted for tables.
fn find_for(alloc: Global, tables: &Tables) -> Result<String, NotFound>
    ensures { FindsFor tables.now result }
{
    match find(alloc, tables) {
        Ok(certificate) => match cert_text(alloc, &certificate) {
            Ok(text) => Ok(text),
            Err(_) => Err(NotFound::Memory),
        },
        Err(fault) => {
            if fault.obstacle().is_none() {
                return Err(NotFound::Memory);
            }
            Err(NotFound::Obstacle(fault))
        }
    }
}

/// The text of the least certificate that is accepted for the tables of a text, as `find` prints it.
///
/// # Errors
/// `Tables` with the first fault of the text; `Obstacle` with what stands first in the way of every certificate;
/// `Memory` where an allocation failed.
pub fn find_text(alloc: Global, tables: &[u8]) -> Result<String, NotFound>
    ensures { FindsText tables.now result }
{
    match read_tables(alloc, tables) {
        Err(BuildError::Refused(fault)) => Err(NotFound::Tables(fault)),
        Err(BuildError::Memory(_)) => Err(NotFound::Memory),
        Ok(tables) => find_for(alloc, &tables),
    }
}
