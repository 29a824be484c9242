//! From a text to the certificate that it is, or its first fault.
ghost use Rattle.std.specs.Prelude.{map};
ghost use Rattle.serde_json.specs.View.{view, items_view};
ghost use Rattle.dc_cert.specs.NamedRows.{named_rows};
ghost use Rattle.dc_cert.specs.Faults.{Gives};
ghost use Rattle.dc_cert.specs.Reading.{rows_of, claims_in, document_of, certificate_of};

use crate::certificate::Certificate;
use crate::fault::{CertFault, CertRule, TextPlace};
use crate::keys::{list, object, shape, version};
use crate::row::Row;
use dc_document::TEXT_LIMIT;
use serde_json::Value;
use std::alloc::Global;

/// The longest list of a certificate's text, in members: this project's own number.
pub const LIST_LIMIT: usize = 1024;

/// The rows of a list, in order.
fn rows<R: Row>(alloc: Global, values: &[Value]) -> Result<Vec<R>, CertFault>
    ensures { Gives (λ v. map R.claim v.items) result (rows_of R.claim_of 0 (items_view values.now)) }
{
    let mut rows = Vec::new(alloc);
    for (index, value) in values.iter().enumerate() {
        match R::read(value, index) {
            Err(fault) => return Err(CertFault::Unreadable(fault)),
            Ok(row) => match rows.push(row) {
                Ok(()) => {}
                Err(_) => return Err(CertFault::Memory),
            },
        }
    }
    Ok(rows)
}

/// The certificate that a JSON value is.
#[tactic(auto, unfolding(crate::specs::Reading::claims_in))]
fn certificate(alloc: Global, value: &Value) -> Result<Certificate, CertFault>
    ensures { Gives named_rows result (claims_in (view value.now)) }
{
    let members = object(value, TextPlace::Top)?;
    version(members)?;
    shape(
        members,
        &["version", "inputs", "outputs", "labels"],
        TextPlace::Top,
    )?;
    let inputs = list(members, "inputs")?;
    let outputs = list(members, "outputs")?;
    let labels = list(members, "labels")?;
    Ok(Certificate {
        inputs: rows(alloc, inputs)?,
        outputs: rows(alloc, outputs)?,
        labels: rows(alloc, labels)?,
    })
}

/// The JSON value that a text is.
#[tactic(auto, unfolding(crate::specs::Reading::document_of))]
fn document(alloc: Global, text: &[u8]) -> Result<Value, CertFault>
    ensures { Gives view result (document_of text.now) }
{
    let refused = CertRule::NotJson.at(TextPlace::Top);
    if text.len() > TEXT_LIMIT {
        return Err(CertFault::Unreadable(refused));
    }
    match Value::from_slice(alloc, text) {
        Ok(value) => Ok(value),
        Err(error) => {
            if error.is_memory() {
                return Err(CertFault::Memory);
            }
            Err(CertFault::Unreadable(refused))
        }
    }
}

/// The certificate that a text is.
///
/// # Errors
///
/// `Unreadable` with the first fault of the text, by the definition that the contract names;
/// `Memory` where an allocation failed.
pub fn read_cert(alloc: Global, text: &[u8]) -> Result<Certificate, CertFault>
    ensures { Gives named_rows result (certificate_of text.now) }
{
    let value = document(alloc, text)?;
    certificate(alloc, &value)
}
