//! What a person is told of tables, of a certificate or of a system that can't be read: the thing itself, where it stands,
//! and what to do. No program reads it, and no clause speaks of it but that it ends and is safe.
#![tactic(auto)]

mod certificate;
mod counts;
mod document;
mod instead;
mod names;
mod no_json;
mod no_toml;
mod numbers;
mod offsets;
mod pace;
mod related;
mod tables;
mod twins;
mod visits;

pub use certificate::{explain_certificate, explain_no_certificate};
pub use counts::tell_count;
pub use document::{refused_of, tell_no_document};
pub use related::{are_same, parameter_of};
pub use tables::explain_tables;
