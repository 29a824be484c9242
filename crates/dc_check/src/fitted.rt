//! A certificate beside the tables that it fits.

ghost use Rattle.dc_cert.specs.Bounds.{certificate_rows};
ghost use Rattle.dc_check.specs.Verdict.{IsSized};

use dc_cert::Certificate;
use dc_tables::Tables;

/// A certificate for tables that it fits: it has as many inputs, outputs and labels as these.
#[derive(Drop)]
pub struct Fitted<'a> {
    /// The tables.
    pub tables: &'a Tables,
    /// The certificate.
    pub certificate: &'a Certificate,
    pub ghost sized: { IsSized tables.now (certificate_rows certificate.now) },
}
