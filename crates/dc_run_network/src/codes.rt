//! The codes of the faults of a system's text and of links.
ghost use Rattle.std.specs.Prelude.{◌≡◌};
ghost use Rattle.dc_run_network.specs.Codes.{stream_code, system_code};

use dc_system_text::SystemRule;
use dc_ways::StreamRule;

/// The code of a rule of a system's text.
pub(crate) fn system_code(rule: SystemRule) -> &'static [u8]
    ensures { result.now ≡ system_code rule }
{
    match rule {
        SystemRule::NotToml => b"N01",
        SystemRule::VersionUnknown => b"N02",
        SystemRule::KeyAbsent => b"N03",
        SystemRule::KeyUnknown => b"N04",
        SystemRule::WrongKind => b"N05",
        SystemRule::NumberOutOfRange => b"N06",
        SystemRule::WrongSpelling => b"N07",
        SystemRule::CountOutOfRange => b"N08",
        SystemRule::NameDoubled => b"N09",
        SystemRule::ConcentratorAbsent => b"N10",
        SystemRule::FedTwice => b"N11",
        SystemRule::LatencyReversed => b"N12",
    }
}

/// The code of a rule that a stream of a link's bus breaks.
pub(crate) fn stream_code(rule: StreamRule) -> &'static [u8]
    ensures { result.now ≡ stream_code rule }
{
    match rule {
        StreamRule::TwoLabels => b"N16",
        StreamRule::Formats => b"N17",
        StreamRule::TooSoon => b"N18",
        StreamRule::TooLate => b"N19",
    }
}
