//! Concentrators of a network.
ghost use Rattle.std.specs.Prelude.{◌≡◌, None, Some, MatchResult, slice_index};
ghost use Rattle.dc_cert.specs.NamedRows.{named_rows};
ghost use Rattle.dc_check.specs.Accepts.{Accepts};
ghost use Rattle.dc_check.specs.Verdict.{verdict_of};

use dc_build::WrittenTables;
use dc_cert::Certificate;
use dc_check::laws::no_fault_is_acceptance;
use dc_check::{CheckFault, verdict};
use dc_tables::Tables;
use std::marker::Model;

/// A concentrator of a network: tables beside their document, and a certificate that is accepted for them.
pub struct Member {
    written: WrittenTables,
    certificate: Certificate,
}

// Dropped by one call, which is proved here and not in each crate that owns one.
impl Drop for Member {
    fn drop(self) {
        let Member {
            written: _,
            certificate: _,
        } = self;
    }
}

/// Tables whose certificate is refused, with its first fault.
#[derive(Drop)]
pub struct Refused {
    /// The tables.
    pub written: WrittenTables,
    /// The first fault of the certificate.
    pub fault: CheckFault,
}

impl Model for Member {
    ghost use Rattle.dc_cert.specs.NamedRows.{named_rows};
    ghost use Rattle.dc_ways.specs.Members.{MemberRows, IsMember};

    ghost Value = { MemberRows };

    ghost view = { λ m. record { written = m.written; claims = named_rows m.certificate } };

    ghost invariant = { λ m. IsMember (record { written = m.written; claims = named_rows m.certificate }) };
}

impl Member {
    ghost use Rattle.dc_ways.specs.Members.{IsMember, ages_in};

    /// Judges a certificate for tables: the concentrator of both, where it is accepted.
    ///
    /// # Errors
    /// The tables with the certificate's first fault.
    pub fn judge(written: WrittenTables, certificate: Certificate) -> Result<Member, Refused>
        ensures { MatchResult result (λ m. (verdict_of written.tables (named_rows certificate) ≡ None) × (m ≡ record { written = written; claims = named_rows certificate }))
            (λ r. (verdict_of written.tables (named_rows certificate) ≡ Some r.fault) × (r.written ≡ written)) }
    {
        let fault = verdict(written.tables(), &certificate).err();
        Member::of_verdict(written, certificate, fault)
    }

    /// The concentrator of tables and a certificate of which this is the verdict: a fault, or none.
    ///
    /// # Errors
    /// The tables with that fault.
    pub fn of_verdict(
        written: WrittenTables,
        certificate: Certificate,
        fault: Option<CheckFault>,
    ) -> Result<Member, Refused>
        requires { fault ≡ verdict_of written.tables (named_rows certificate) }
        ensures { MatchResult result (λ m. (fault ≡ None) × (m ≡ record { written = written; claims = named_rows certificate }))
            (λ r. (fault ≡ Some r.fault) × (r.written ≡ written)) }
    {
        no_fault_is_acceptance(written.tables());
        match fault {
            None => Ok(Member::new(written, certificate)),
            Some(fault) => Err(Refused { written, fault }),
        }
    }

    /// The concentrator of these tables and this certificate, which is accepted for them.
    fn new(written: WrittenTables, certificate: Certificate) -> Member
        requires { Accepts written.tables (named_rows certificate) }
        ensures { result ≡ record { written = written; claims = named_rows certificate } }
    {
        written.written();
        written.tables().valid();
        Member {
            written,
            certificate,
        }
    }

    /// Its document breaks no rule, its tables are the document's, and its certificate is accepted for them. The call does
    /// nothing.
    pub fn judged(&self)
        ensures { IsMember self.now }
    {
        let _ = &self.certificate;
    }

    /// The tables beside their document.
    pub fn written(&self) -> &WrittenTables
        ensures { result.now ≡ self.now.written }
    {
        &self.written
    }

    /// The tables.
    pub fn tables(&self) -> &Tables
        ensures { result.now ≡ self.now.written.tables }
    {
        self.written.tables()
    }

    /// The age of a label in the certificate, in ticks; 0 where it is not there.
    pub fn age(&self, label: usize) -> u32
        ensures { result ≡ slice_index (ages_in self.now) label }
    {
        match self.certificate.labels.get(label) {
            Some(row) => row.age,
            None => 0,
        }
    }
}
