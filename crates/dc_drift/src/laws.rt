//! Laws about the numbers of clocks that drift. The functions do nothing.

ghost use Rattle.std.specs.Prelude.{◌≡◌};
ghost use Rattle.dc_check.specs.Small.{small_tables};
ghost use Rattle.dc_drift.specs.Drift.{drifting_intervals, oldest_of};
ghost use Rattle.dc_drift.specs.Laws.{AcceptedKeepUnderDrift, AgesAre, AreSame, NoneAreBetter, small_at_50, small_at_1000};
ghost use Rattle.dc_in_time.specs.Oldest.{small_intervals};

use dc_build::WrittenTables;

/// The tables of a document and these numbers fit under each clock of the drift, and with any of them one microsecond
/// better they do not: of all whole microseconds that fit, none are better in any of them.
pub fn drifting_intervals_are_best(written: &WrittenTables)
    ensures { NoneAreBetter written.now.tables }
{
    written.written();
    let tables = written.tables();
    tables.valid();
    dc_in_time::laws::documents_round(tables);
}

/// An age in microseconds covers its ticks and the one that runs, each as long as the drift lets it be, and one
/// microsecond less does not.
pub fn ages_are_covered()
    ensures { AgesAre }
{}

/// Each certificate that is accepted for a document's tables keeps its claims under clocks that drift: in every timed
/// run whose wires and streams keep the intervals of the drift, labels keep theirs, and a word that leaves is the
/// fallback or copies one that came less than its age in microseconds before.
pub fn accepted_keep_under_drift(written: &WrittenTables)
    ensures { AcceptedKeepUnderDrift written.now.tables }
{
    drifting_intervals_are_best(written);
    let tables = written.tables();
    ages_are_covered();
    dc_in_time::laws::accepted_keep_time(tables);
}

/// The numbers of the small tables, with no drift those that their ticks of 1,000 microseconds were made from, and
/// their age of 24 ticks.
pub fn small_tables_under_drift()
    ensures none { AreSame small_tables (drifting_intervals small_tables 0) small_intervals }
    ensures fifty { AreSame small_tables (drifting_intervals small_tables 50) small_at_50 }
    ensures thousand { AreSame small_tables (drifting_intervals small_tables 1000) small_at_1000 }
    ensures age_none { oldest_of small_tables 0 24 ≡ 25000 }
    ensures age_fifty { oldest_of small_tables 50 24 ≡ 25002 }
    ensures age_thousand { oldest_of small_tables 1000 24 ≡ 25025 }
{}
