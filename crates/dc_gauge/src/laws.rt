//! The law about times. The function does nothing: its contract is the law.

ghost use Rattle.dc_gauge.specs.Laws.{SpacingsAreIntervals};

/// Times keep a spacing exactly where no interval between neighbours is less.
pub fn spacings_are_intervals()
    ensures { SpacingsAreIntervals }
{}
