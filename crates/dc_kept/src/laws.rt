//! Laws above captures and the runs that they record. Each function does nothing: its contract is the law.

ghost use Rattle.dc_kept.specs.Laws.{KeptCapturesKeepTicks, KeptCapturesKeepTime, KeptTracesAreAdmissible};

use dc_tables::Tables;

/// A run whose capture keeps what is declared keeps what is asked of the sources in microseconds.
pub fn kept_captures_keep_time(tables: &Tables)
    ensures { KeptCapturesKeepTime tables.now }
{
    tables.valid();
}

/// A run whose capture keeps what is declared keeps what is asked of the sources in ticks, by each clock that the
/// intervals fit.
pub fn kept_captures_keep_ticks(tables: &Tables)
    ensures { KeptCapturesKeepTicks tables.now }
{
    kept_captures_keep_time(tables);
    dc_time::laws::sources_keep_ticks(tables);
}

/// The run that a kept capture makes is admissible.
pub fn kept_traces_are_admissible(tables: &Tables)
    ensures { KeptTracesAreAdmissible tables.now }
{
    tables.valid();
    dc_spans::laws::spans_become_windows();
    dc_trace::laws::traces_keep_budgets(tables);
    dc_trace::laws::traces_bring_the_capture(tables);
    dc_trace::laws::traces_are_numbered(tables);
}
