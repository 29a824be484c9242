//! What each accepted certificate says of what is observed of an admissible run: laws about the definitions, for calls
//! that cite them. They do nothing.

ghost use Rattle.dc_within.specs.Within.{AcceptedHave, InputsWithin, OutputsWithin, LabelsWithin};

use dc_check::laws;
use dc_tables::Tables;

/// No more words wait at a time on a bus than its backlog, and none longer than its delay.
pub fn inputs_stay_within(tables: &Tables)
    ensures { AcceptedHave InputsWithin tables.now }
{
    laws::accepted_certificates_keep_their_numbers(tables);
}

/// No entry of an output is later than its delay.
pub fn outputs_stay_within(tables: &Tables)
    ensures { AcceptedHave OutputsWithin tables.now }
{
    laws::accepted_certificates_keep_their_numbers(tables);
}

/// No word that a label copies is older than its age, two emissions of it that follow one another are no less apart than
/// its minimum, and no interval is longer than its maximum, from the start to the first emission and from the last to the
/// end as well.
pub fn labels_stay_within(tables: &Tables)
    ensures { AcceptedHave LabelsWithin tables.now }
{
    tables.valid();
    laws::accepted_certificates_keep_their_claims(tables);
    laws::accepted_certificates_keep_their_numbers(tables);
}
