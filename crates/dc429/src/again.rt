//! The readers by which a run is explained.
use dc_build::read_tables;
use dc_design::set_apart;
use dc_document::{BuildError, TableFault};
use dc_explain::Again;
use dc_explain_unreadable::{explain_no_certificate, explain_tables};
use dc_explain_verdict::{Files, explain_find, explain_text};
use dc_system_text::{System, read_system};
use dc_tables::Tables;
use dc_tell::File;
use dc_toml::read_unlaid;
use std::alloc::{AllocError, Global};

/// The readers of the commands.
#[derive(Clone, Copy)]
pub(crate) struct Readers;

impl Again for Readers {
    fn tables(&self, alloc: Global, text: &[u8]) -> Result<Tables, BuildError> {
        read_tables(alloc, text)
    }

    fn unlaid_tables(&self, alloc: Global, text: &[u8]) -> Result<Tables, BuildError> {
        let parts = read_unlaid(alloc, text)?;
        match set_apart(alloc, &parts) {
            Ok(apart) => read_tables(alloc, apart.as_bytes()),
            Err(_) => Err(BuildError::Memory(AllocError)),
        }
    }

    fn system(&self, alloc: Global, text: &[u8]) -> Option<System> {
        read_system(alloc, text).ok()
    }

    fn unread_tables(&self, alloc: Global, tables: File<'_>, fault: TableFault) -> Option<String> {
        explain_tables(alloc, tables, fault)
    }

    fn unread_certificate(&self, alloc: Global, certificate: File<'_>) -> Option<String> {
        explain_no_certificate(alloc, certificate)
    }

    fn unfound(&self, alloc: Global, tables: &Tables, file: File<'_>) -> Option<String> {
        explain_find(alloc, tables, file)
    }

    fn refused(
        &self,
        alloc: Global,
        tables: &Tables,
        files: (File<'_>, File<'_>),
    ) -> Option<String> {
        let (tables_file, certificate) = files;
        explain_text(
            alloc,
            tables,
            Files {
                tables: tables_file,
                certificate,
            },
        )
    }
}
