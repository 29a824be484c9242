//! Certificates of a concentrator: what they say, how their JSON text is read, and how it is printed.
//!
//! A certificate claims a window, a backlog and a delay for each input bus, a window and a delay for each output, and
//! an age for each label. `read_cert` gives the certificate of a text or its first fault; `cert_text` prints a
//! certificate in a form that, within the limits of a text, reads as that certificate again.
#![tactic(auto)]

mod certificate;
mod fault;
mod keys;
mod print;
mod read;
mod row;

pub use certificate::{Certificate, InputRow, LabelRow, OutputRow};
pub use fault::{CertFault, CertRule, Fault, ShortText, TextPlace};
pub use print::cert_text;
pub use read::{LIST_LIMIT, read_cert};
