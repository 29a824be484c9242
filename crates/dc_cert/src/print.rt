//! From a certificate to its text.
ghost use Rattle.std.specs.Prelude.{◌≡◌, map, string_bytes, All, IfOk};
ghost use Rattle.serde_json.specs.Data.{array as json_array};
ghost use Rattle.serde_json.specs.View.{view, items_of};
ghost use Rattle.dc_cert.specs.NamedRows.{named_rows};
ghost use Rattle.dc_cert.specs.Limits.{IsWithinLimits, ClaimsFit};
ghost use Rattle.dc_cert.specs.Printing.{claims_data, claims_text};
ghost use Rattle.dc_cert.specs.Reading.{certificate_of};

use crate::certificate::Certificate;
use crate::row::Row;
use serde_json::{Value, json};
use std::alloc::{AllocError, Global};

/// The JSON list that rows are, in order.
fn array<R: Row>(alloc: Global, rows: &[R]) -> Result<Value, AllocError>
    ensures value { IfOk result
        (λ v. view v ≡ json_array (items_of (map R.printed (map R.claim rows.now)))) }
    ensures fits { IfOk result (λ _. All R.fits (map R.claim rows.now)) }
{
    let mut values = Vec::new(alloc);
    for row in rows {
        values.push(row.value(alloc)?)?;
    }
    Ok(Value::Array(values))
}

/// The JSON value that a certificate is.
fn certificate_value(alloc: Global, certificate: &Certificate) -> Result<Value, AllocError>
    ensures value { IfOk result (λ v. view v ≡ claims_data (named_rows certificate.now)) }
    ensures fits { IfOk result (λ _. ClaimsFit (named_rows certificate.now)) }
{
    let inputs = array(alloc, certificate.inputs.as_slice())?;
    let labels = array(alloc, certificate.labels.as_slice())?;
    let outputs = array(alloc, certificate.outputs.as_slice())?;
    json!(in alloc; {"inputs": inputs, "labels": labels, "outputs": outputs, "version": 1u32})
}

/// The text of a certificate: compact JSON with keys in the order of their bytes, and a line feed.
///
/// # Errors
///
/// `AllocError` where an allocation failed.
pub fn cert_text(alloc: Global, certificate: &Certificate) -> Result<String, AllocError>
    ensures text { IfOk result (λ s. string_bytes s ≡ claims_text (named_rows certificate.now)) }

    // Within the limits of a text, what was printed reads as the certificate.
    ensures reads_back { IfOk result (λ s. IsWithinLimits (named_rows certificate.now)
        → certificate_of (string_bytes s) ≡ Ok (named_rows certificate.now)) }
{
    let value = certificate_value(alloc, certificate)?;
    let mut text = value.to_string(alloc)?;
    text.push('\n')?;
    Ok(text)
}
