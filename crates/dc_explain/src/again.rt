//! The texts that a run judged, read again.
use dc_document::{BuildError, TableFault};
use dc_system_text::System;
use dc_tables::Tables;
use dc_tell::File;
use std::alloc::Global;

/// What reads texts again, and tells why they were refused. Whoever has a run explained brings it, so that what explains the
/// rest of it stands below no reader.
pub trait Again {
    /// The tables of a text.
    ///
    /// # Errors
    /// Its first fault, or where memory was refused.
    fn tables(&self, alloc: Global, text: &[u8]) -> Result<Tables, BuildError>;

    /// The tables of a text whose layout is open, with one that breaks no rule.
    ///
    /// # Errors
    /// Its first fault, or where memory was refused.
    fn unlaid_tables(&self, alloc: Global, text: &[u8]) -> Result<Tables, BuildError>;

    /// The system of a text, where it is one.
    fn system(&self, alloc: Global, text: &[u8]) -> Option<System>;

    /// Why a text is no tables, by its first fault.
    fn unread_tables(&self, alloc: Global, tables: File<'_>, fault: TableFault) -> Option<String>;

    /// Why a text is no certificate.
    fn unread_certificate(&self, alloc: Global, certificate: File<'_>) -> Option<String>;

    /// Why no certificate is found for tables.
    fn unfound(&self, alloc: Global, tables: &Tables, file: File<'_>) -> Option<String>;

    /// Why the certificate of the second of two texts is refused for the tables of the first.
    fn refused(
        &self,
        alloc: Global,
        tables: &Tables,
        files: (File<'_>, File<'_>),
    ) -> Option<String>;
}
