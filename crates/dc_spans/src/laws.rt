//! Laws about clocks. Each function does nothing: its contract is the law.

ghost use Rattle.dc_spans.specs.Laws.{SpansBecomeWindows};

/// What holds of spans of microseconds holds of windows of ticks.
pub fn spans_become_windows()
    ensures { SpansBecomeWindows }
{}
