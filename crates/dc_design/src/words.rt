//! Words of tables.
use dc_design_rows::Fact;
use dc_document::Speed;
use dc_word::Format;

/// What a speed is called.
pub(crate) fn speed_word(speed: Speed) -> Fact {
    Fact::Word(match speed {
        Speed::High => "high",
        Speed::Low => "low",
    })
}

/// What a format is called.
pub(crate) fn format_word(format: Option<Format>) -> Fact {
    Fact::Word(match format {
        Some(Format::Bcd) => "bcd",
        Some(Format::Disc) => "disc",
        _ => "bnr",
    })
}

/// What so many ticks are called.
pub(crate) fn ticks_word(count: u64) -> Fact {
    Fact::Word(if count == 1 { "tick" } else { "ticks" })
}

/// Whether something is so.
pub(crate) fn truth_word(is_so: bool) -> Fact {
    Fact::Word(if is_so { "true" } else { "false" })
}
