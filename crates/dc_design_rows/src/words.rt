//! What formats, speeds and SDIs are called.
use crate::lines::Fact;
use dc_document::Speed;
use dc_word::Format;

/// What a speed is called.
pub(crate) fn speed_word(speed: Speed) -> Fact {
    Fact::Word(match speed {
        Speed::High => "high",
        Speed::Low => "low",
    })
}

/// What a format is called.
pub(crate) fn format_word(format: Format) -> Fact {
    Fact::Word(match format {
        Format::Bnr => "bnr",
        Format::Bcd => "bcd",
        Format::Disc => "disc",
    })
}

/// What an SDI is called; `None` is any.
pub(crate) fn sdi_word(sdi: Option<u64>) -> Fact {
    match sdi {
        Some(number) => Fact::Number(number),
        None => Fact::Word("any"),
    }
}
