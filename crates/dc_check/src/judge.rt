//! Certificates that are judged to be accepted.

ghost use Rattle.std.specs.Prelude.{◌≡◌, None, Some, IfErr, IfOk, MatchResult};
ghost use Rattle.std.specs.Arc.{arc_value};
ghost use Rattle.dc_cert.specs.NamedRows.{named_rows};
ghost use Rattle.dc_check.specs.Accepts.{Accepts};
ghost use Rattle.dc_check.specs.Certified.{KeepsItsClaims};
ghost use Rattle.dc_check.specs.Lent.{tables_of, certificate_of};
ghost use Rattle.dc_check.specs.Numbers.{KeepsItsNumbers};
ghost use Rattle.dc_check.specs.Placed.{IsPlaced};
ghost use Rattle.dc_check.specs.Verdict.{verdict_of};

use crate::certified::Certified;
use crate::fault::CheckFault;
use crate::job::verdict;
use dc_cert::Certificate;
use dc_tables::Tables;
use std::sync::Arc;

/// Holds tables together with a certificate that is accepted for them.
pub fn certify(tables: Arc<Tables>, certificate: Certificate) -> Certified
    requires { Accepts (arc_value tables) (named_rows certificate) }
    ensures tables { tables_of result ≡ arc_value tables }
    ensures certificate { certificate_of result ≡ certificate }
{
    Certified::new(tables, certificate)
}

/// Judges a certificate for tables. If it is accepted, then in every admissible run of these tables no receive queue
/// overruns, every word that leaves is no computed data or copies a word at most the label's age old, a live first
/// source is used, each label keeps its intervals, and the certificate's windows, backlogs and delays hold. Else its
/// first fault.
pub fn check(tables: Arc<Tables>, certificate: Certificate) -> Result<Certified, CheckFault>
    ensures claims { IfOk result (λ _. KeepsItsClaims (arc_value tables) (named_rows certificate)) }
    ensures numbers { IfOk result (λ _. KeepsItsNumbers (arc_value tables) (named_rows certificate)) }
    ensures lends { IfOk result (λ c. (tables_of c ≡ arc_value tables) × (certificate_of c ≡ certificate)) }
    ensures place { IfErr result (λ fault. IsPlaced (arc_value tables) fault) }
    ensures exact { MatchResult result (λ _. verdict_of (arc_value tables) (named_rows certificate) ≡ None)
        (λ fault. verdict_of (arc_value tables) (named_rows certificate) ≡ Some fault) }
{
    match verdict(&tables, &certificate) {
        Err(fault) => Err(fault),
        Ok(()) => {
            let certified = certify(tables, certificate);
            certified.keeps_its_claims();
            Ok(certified)
        }
    }
}
