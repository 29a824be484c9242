//! How margins are told: as lines of fields, or as JSON objects.

ghost use Rattle.std.specs.Prelude.{◌≡◌, ◌∷◌};
ghost use Rattle.dc_run_margins.specs.Telling.{closing, opening};

/// How margins are told, and what of time beside them.
#[derive(Clone, Copy, Debug, PartialEq, Eq)]
pub struct Telling {
    /// Whether each line is told as a JSON object.
    pub json: bool,
    /// Whether each amount that counts ticks is told in microseconds too.
    pub microseconds: bool,
    /// The drift of clocks, in millionths, of which it is told what they ask and keep.
    pub drift: Option<u16>,
}

/// What is told of time beside the margins.
#[derive(Clone, Copy, Debug, PartialEq, Eq)]
pub struct InTime {
    /// Whether each amount that counts ticks is told in microseconds too.
    pub microseconds: bool,
    /// The drift of clocks, in millionths, of which it is told what they ask and keep.
    pub drift: Option<u16>,
}

impl InTime {
    ghost use Rattle.dc_run_margins.specs.Telling.{in_lines};

    /// That with margins as lines.
    pub(crate) fn in_lines(self) -> Telling
        ensures { result ≡ in_lines self }
    {
        Telling {
            json: false,
            microseconds: self.microseconds,
            drift: self.drift,
        }
    }
}

/// Under which key a line that is no margin's stands in its object.
#[derive(Clone, Copy, Debug, PartialEq, Eq)]
pub enum LineKey {
    /// The verdict, or what stands in the way of one.
    Verdict,
    /// A line of a drift, or of a text that can't be read.
    Line,
}

/// What stands before a line that is no margin's.
pub(crate) fn opening(json: bool, key: LineKey) -> &'static [u8]
    ensures { result.now ≡ opening json key }
{
    if !json {
        return b"";
    }
    match key {
        LineKey::Verdict => b"{\"verdict\":\"",
        LineKey::Line => b"{\"line\":\"",
    }
}

/// What stands behind it.
pub(crate) fn closing(json: bool) -> &'static [u8]
    ensures { result.now ≡ closing json }
{
    if json { b"\"}" } else { b"" }
}

/// A line feed, and what stands before a line of a drift.
pub(crate) fn fed_opening(json: bool) -> &'static [u8]
    ensures { result.now ≡ 10 ∷ opening json LineKey.Line }
{
    if json { b"\n{\"line\":\"" } else { b"\n" }
}
