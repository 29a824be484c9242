//! What is observed of the runs of certified tables.

ghost use Rattle.dc_cert.specs.NamedRows.{named_rows};
ghost use Rattle.dc_check.specs.Lent.{tables_of, certificate_of};
ghost use Rattle.dc_within.specs.Within.{ObservedStayWithin};

use crate::laws;
use dc_check::Certified;

/// No number that is observed of an admissible run passes the one beside it: no backlog and no wait of an input those of
/// the certificate, no lateness of an output its delay, no age of a copied word its label's, and no interval of a label
/// the minimum and the maximum of the tables. The call does nothing.
pub fn observed_stay_within(certified: &Certified)
    ensures { ObservedStayWithin (tables_of certified.now) (named_rows (certificate_of certified.now)) }
{
    certified.keeps_its_claims();
    let tables = certified.tables();
    laws::inputs_stay_within(tables);
    laws::outputs_stay_within(tables);
    laws::labels_stay_within(tables);
}
