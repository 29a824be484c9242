//! The tables and certificates of texts.

use crate::texts::push_small_tables;
use dc_build::read_tables;
use dc_cert::{CertFault, Certificate, read_cert};
use dc_document::BuildError;
use dc_tables::Tables;
use std::alloc::Global;

/// The tables of a text.
pub fn tables_of(alloc: Global, text: &str) -> Result<Tables, BuildError> {
    read_tables(alloc, text.as_bytes())
}

/// The certificate of a text.
pub fn certificate_of(alloc: Global, text: &str) -> Result<Certificate, CertFault> {
    read_cert(alloc, text.as_bytes())
}

/// The small tables with the values of a row.
pub fn small_tables(alloc: Global, row: &str) -> Result<Tables, BuildError> {
    let mut text = String::new(alloc);
    push_small_tables(&mut text, row)?;
    tables_of(alloc, text.as_str())
}
