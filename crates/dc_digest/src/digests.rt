//! The lines of digests.
ghost use Rattle.std.specs.Prelude.{◌≡◌, ◌∷◌, ◌++◌, codes, IfErr, IfOk};
ghost use Rattle.hex.specs.Hex.{encode_lower};
ghost use Rattle.sha2.specs.Sha256.{sha256};

use dc_answer::{Outcome, Page, Unjudged};
use sha2::{Digest, Sha256};
use std::alloc::AllocError;

/// The digest SHA-256 of a text.
pub fn digest_of(text: &[u8]) -> [u8; 32]
    ensures { result ≡ sha256 text.now }
{
    Sha256::digest(text)
}

/// The digits of a digest, in lower case.
fn digits_of(digest: &[u8; 32]) -> [u8; 64]
    ensures { result ≡ encode_lower digest.now }
{
    let mut digits = [0; 64];
    let _ = hex::encode_to_slice(digest.as_slice(), &mut digits);
    digits
}

/// Puts the digits of a digest at the end of a page, behind these bytes.
fn add_digest(page: &mut Page, front: &[u8], digest: &[u8; 32]) -> Result<(), AllocError>
    ensures { IfOk result (λ _. page.new ≡ page.old ++ (front.now ++ encode_lower digest.now)) }
{
    page.add(front)?;
    page.add(&digits_of(digest))
}

/// Puts the lines of the digests of tables and of a certificate at the end of a page.
fn add_digests(page: &mut Page, tables: &[u8; 32], certificate: &[u8; 32]) -> Result<(), AllocError>
    ensures { IfOk result (λ _. page.new ≡ (page.old ++ (10 ∷ codes "sha256 tables " ++ encode_lower tables.now))
        ++ (10 ∷ codes "sha256 certificate " ++ encode_lower certificate.now)) }
{
    add_digest(page, b"\nsha256 tables ", tables)?;
    add_digest(page, b"\nsha256 certificate ", certificate)
}

/// Puts the lines of the digests of tables, which have this one, and of the text of a certificate behind an answer.
///
/// # Errors
/// `Memory` where memory was refused.
pub fn with_digests(
    outcome: Outcome,
    tables: &[u8; 32],
    certificate: &[u8],
    page: &mut Page,
) -> Result<Outcome, Unjudged>
    ensures kept { IfOk result (λ o. (o ≡ outcome) × (page.new ≡ (page.old ++ (10 ∷ codes "sha256 tables " ++ encode_lower tables.now))
        ++ (10 ∷ codes "sha256 certificate " ++ encode_lower (sha256 certificate.now)))) }
    ensures memory { IfErr result (λ e. e ≡ Unjudged.Memory) }
{
    match add_digests(page, tables, &digest_of(certificate)) {
        Ok(()) => Ok(outcome),
        Err(_) => Err(Unjudged::Memory),
    }
}
