//! Laws about runs in microseconds. Each function does nothing: its contract is the law, and holds for all tables, all
//! clocks and all intervals that fit them.

ghost use Rattle.dc_time.specs.Laws.{SourcesKeepTicks, ClaimsKeepTime, RunsHaveTimes, RefusesNothing};

use dc_tables::Tables;

/// Sources that keep their intervals in microseconds keep them in ticks.
pub fn sources_keep_ticks(tables: &Tables)
    ensures { SourcesKeepTicks tables.now }
{
    tables.valid();
}

/// Claims that hold in ticks hold in microseconds.
pub fn claims_keep_time(tables: &Tables)
    ensures { ClaimsKeepTime tables.now }
{
    tables.valid();
}

/// Each run happens in time, by each clock.
pub fn runs_have_times()
    ensures { RunsHaveTimes }
{}

/// A policed bus refuses no word of a stream that keeps its intervals in microseconds.
pub fn refuses_nothing(tables: &Tables)
    ensures { RefusesNothing tables.now }
{
    tables.valid();
}
