//! Laws about what `trace` answers. Each function does nothing: its contract is the law.

ghost use Rattle.dc_run_trace.specs.Laws.{AnswersAreRuns};

use dc_tables::Tables;
use dc_trace::laws::{traces_bring_the_capture, traces_keep_budgets};

/// What `trace` answers to a capture is the text of a run whose arrivals are the capture's words, each in its tick, and
/// whose actors' steps are those of the steady run; it keeps the budgets.
pub fn answers_are_runs(tables: &Tables)
    ensures { AnswersAreRuns tables.now }
{
    traces_keep_budgets(tables);
    traces_bring_the_capture(tables);
}
