//! Laws about accepted certificates and documents in microseconds. The functions do nothing, but for the last, which
//! answers a number.

ghost use Rattle.std.specs.Prelude.{◌≡◌};
ghost use Rattle.dc_check.specs.Accepts.{Accepts};
ghost use Rattle.dc_check.specs.Small.{small_claims, small_tables};
ghost use Rattle.dc_in_time.specs.InTime.{AcceptedKeepTime, DocumentsRound};
ghost use Rattle.dc_in_time.specs.Oldest.{SendsOld, old_run, policed_tables, small_clock, small_intervals};
ghost use Rattle.dc_spans.specs.Spans.{KeepsPace};
ghost use Rattle.dc_tables.specs.TableRows.{AreValid};
ghost use Rattle.dc_time.specs.Admissible.{IsAdmissibleInTime};
ghost use Rattle.dc_time.specs.Intervals.{FitsClock};

use dc_tables::Tables;

/// Each certificate that is accepted for these tables keeps its claims in microseconds.
pub fn accepted_keep_time(tables: &Tables)
    ensures { AcceptedKeepTime tables.now }
{
    dc_check::laws::accepted_certificates_keep_their_claims(tables);
    dc_time::laws::sources_keep_ticks(tables);
    dc_time::laws::claims_keep_time(tables);
}

/// The tables of a document fit its intervals, by a clock whose ticks are of its length.
pub fn documents_round(tables: &Tables)
    ensures { DocumentsRound tables.now }
{
    tables.valid();
}

/// How old a word of the small tables is when it leaves, in microseconds, in a run of theirs that is admissible in
/// microseconds. Their least age is 24 ticks of 1,000, so each word that leaves is less than 25,000 old: the theorem
/// speaks of something, and without its one more tick it would be false.
pub fn oldest_word_of_the_small_tables() -> u32
    ensures paced { KeepsPace small_clock }
    ensures fits { FitsClock small_tables small_intervals small_clock }
    ensures admissible { IsAdmissibleInTime small_tables small_intervals small_clock (old_run 6350) }
    ensures old { SendsOld small_tables 25000 result (old_run 6350) }
    ensures value { result ≡ 24649 }
{
    24_649
}

/// The same of the small tables with a policed bus, of whose wire nothing is asked: the word comes in the first
/// microsecond of its tick and leaves in the last of another, so that the bound is reached but for one microsecond.
pub fn oldest_word_of_the_policed_tables() -> u32
    ensures valid { AreValid policed_tables }
    ensures accepted { Accepts policed_tables (small_claims 24) }
    ensures fits { FitsClock policed_tables small_intervals small_clock }
    ensures admissible { IsAdmissibleInTime policed_tables small_intervals small_clock (old_run 6000) }
    ensures old { SendsOld policed_tables 25000 result (old_run 6000) }
    ensures value { result ≡ 24999 }
{
    dc_check::laws::least_age_of_the_small_tables();
    24_999
}
