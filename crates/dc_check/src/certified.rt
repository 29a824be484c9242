//! Tables with a certificate that is accepted for them.

ghost use Rattle.std.specs.Prelude.{◌≡◌};
ghost use Rattle.std.specs.Arc.{arc_value};
ghost use Rattle.dc_cert.specs.NamedRows.{named_rows};
ghost use Rattle.dc_check.specs.Accepts.{Accepts};
ghost use Rattle.dc_check.specs.Certified.{KeepsItsClaims};
ghost use Rattle.dc_check.specs.Numbers.{KeepsItsNumbers};

use dc_cert::Certificate;
use dc_tables::Tables;
use std::sync::Arc;

/// Tables with a certificate that is accepted for them. Who holds one has what the certificate claims, and what its
/// windows, backlogs and delays say, in every admissible run of the tables.
#[derive(Drop)]
pub struct Certified {
    tables: Arc<Tables>,
    certificate: Certificate,
    ghost accepted: { Accepts (arc_value tables) (named_rows certificate) },
}

impl Certified {
    ghost use Rattle.dc_check.specs.Lent.{tables_of, certificate_of};

    /// Tables and a certificate that is accepted for them.
    pub(crate) fn new(tables: Arc<Tables>, certificate: Certificate) -> Certified
        requires { Accepts (arc_value tables) (named_rows certificate) }
        ensures tables { tables_of result ≡ arc_value tables }
        ensures certificate { certificate_of result ≡ certificate }
    {
        Certified {
            tables,
            certificate,
        }
    }

    /// The tables that were handed in.
    pub fn tables(&self) -> &Tables
        ensures { result.now ≡ tables_of self.now }
    {
        &self.tables
    }

    /// The certificate that was handed in.
    pub fn certificate(&self) -> &Certificate
        ensures { result.now ≡ certificate_of self.now }
    {
        &self.certificate
    }

    /// What the certificate claims holds in every admissible run of the tables, and so do its numbers: no more words
    /// wait on a bus than its backlog, each is taken within its delay, each entry of an output is sent within its delay,
    /// and no stretch in which some wait lasts as long as the window. The call does nothing.
    pub fn keeps_its_claims(&self)
        ensures accepted { Accepts (tables_of self.now) (named_rows (certificate_of self.now)) }
        ensures claims { KeepsItsClaims (tables_of self.now) (named_rows (certificate_of self.now)) }
        ensures numbers { KeepsItsNumbers (tables_of self.now) (named_rows (certificate_of self.now)) }
    {
        self.tables.valid();
    }
}
