//! Certified tables in microseconds.

ghost use Rattle.dc_cert.specs.NamedRows.{named_rows};
ghost use Rattle.dc_check.specs.Lent.{tables_of, certificate_of};
ghost use Rattle.dc_in_time.specs.InTime.{AreAdmissible, KeepsItsClaimsInTime};
ghost use Rattle.dc_time.specs.Laws.{RunsHaveTimes};

use dc_check::Certified;

/// What the certificate claims holds in microseconds: for each clock, and all intervals that fit it and the tables, in
/// every timed run whose sources keep these intervals, whose wires keep their spacing and whose actors keep their
/// budgets. No queue overruns; a word that leaves is the fallback, or copies one that came less than its label's age and
/// one more tick ago; a first source that sends in each span of its greatest interval is used where its words are
/// usable; and two emissions of a label that follow one another are more than its least interval and less than its
/// greatest apart. Each such run is admissible in ticks, so the certificate's numbers hold in it too, and each run of
/// events happens in time by each clock. The call does nothing.
pub fn keeps_its_claims_in_time(certified: &Certified)
    ensures claims { KeepsItsClaimsInTime (tables_of certified.now) (named_rows (certificate_of certified.now)) }
    ensures admissible { AreAdmissible (tables_of certified.now) }
    ensures times { RunsHaveTimes }
{
    certified.keeps_its_claims();
    let tables = certified.tables();
    dc_time::laws::sources_keep_ticks(tables);
    dc_time::laws::claims_keep_time(tables);
    dc_time::laws::runs_have_times();
}
