//! What a page says that it is of.

use dc_digest::Hashing;
use dc_page::{Identity, NamedText};
use std::alloc::{AllocError, Global};

/// A text that is read for a page.
#[derive(Clone, Copy)]
pub struct TextOf<'n, 'h> {
    /// Its name.
    pub name: &'n str,
    /// Its digest, which its source makes while it is read.
    pub hashing: &'h Hashing,
}

/// What a page is of.
#[derive(Clone, Copy)]
pub struct PageOf<'n, 'h> {
    /// The tables.
    pub tables: TextOf<'n, 'h>,
    /// The certificate, where one is given.
    pub certificate: Option<TextOf<'n, 'h>>,
    /// What was observed of a run, where that is given.
    pub observed: Option<TextOf<'n, 'h>>,
    /// The version of the program.
    pub version: &'n str,
    /// The sum of the logic that it was proved by.
    pub logic: &'n str,
}

/// What a page shows beside a certificate and its verdict.
#[derive(Clone, Copy)]
pub struct Shown<'n, 'h> {
    /// The drift of clocks, in millionths, on which it has a section.
    pub drift: Option<u16>,
    /// What it is of, where it says that.
    pub of: Option<PageOf<'n, 'h>>,
}

/// The digits of the digests of the texts that a page is of.
#[derive(Drop)]
pub(crate) struct Digits {
    tables: String,
    certificate: String,
    observed: String,
}

/// The digits of the digest of a text, when it was read; none where there is no text.
fn digits_of(alloc: Global, text: Option<TextOf<'_, '_>>) -> Result<String, AllocError> {
    match text {
        Some(text) => text.hashing.end(alloc),
        None => Ok(String::new(alloc)),
    }
}

impl<'n, 'h> PageOf<'n, 'h> {
    /// The digits of the digests, when all texts were read.
    pub(crate) fn digits(&self, alloc: Global) -> Result<Digits, AllocError> {
        let tables = self.tables.hashing.end(alloc)?;
        let certificate = digits_of(alloc, self.certificate)?;
        let observed = digits_of(alloc, self.observed)?;
        Ok(Digits {
            tables,
            certificate,
            observed,
        })
    }
}

/// A text with its digest.
fn named<'a>(text: TextOf<'a, 'a>, digest: &'a str) -> NamedText<'a> {
    NamedText {
        name: text.name,
        digest,
    }
}

/// A text with its digest, where there is one.
fn named_where_given<'a>(text: Option<TextOf<'a, 'a>>, digest: &'a str) -> Option<NamedText<'a>> {
    match text {
        Some(text) => Some(named(text, digest)),
        None => None,
    }
}

/// What a page says that it is of, with these digests.
pub(crate) fn identity_of<'a>(of: PageOf<'a, 'a>, digits: &'a Digits) -> Identity<'a> {
    Identity {
        tables: named(of.tables, digits.tables.as_str()),
        certificate: named_where_given(of.certificate, digits.certificate.as_str()),
        observed: named_where_given(of.observed, digits.observed.as_str()),
        version: of.version,
        logic: of.logic,
    }
}
