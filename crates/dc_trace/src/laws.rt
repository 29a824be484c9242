//! Laws about the runs that captures make. Each function does nothing: its contract is the law.

ghost use Rattle.dc_trace.specs.Laws.{TracesAreNumbered, TracesBringTheCapture, TracesKeepBudgets};

use dc_event::laws::{steady_admissible, steady_ticks};
use dc_tables::Tables;

/// The run of each capture keeps the budgets.
pub fn traces_keep_budgets(tables: &Tables)
    ensures { TracesKeepBudgets tables.now }
{
    steady_admissible(tables);
}

/// The run of a capture whose times never fall brings its words, each in its tick, in order.
pub fn traces_bring_the_capture(tables: &Tables)
    ensures { TracesBringTheCapture tables.now }
{
    tables.valid();
    steady_ticks(tables);
}

/// The numbers of the events of a capture's run are in the tables, where those of its buses are.
pub fn traces_are_numbered(tables: &Tables)
    ensures { TracesAreNumbered tables.now }
{
    steady_admissible(tables);
}
