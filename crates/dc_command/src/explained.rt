//! When what was refused is explained.
ghost use Rattle.std.specs.Prelude.{◌≡◌, codes, IfSome};
ghost use Rattle.clap.specs.Words.{first_of, found_of, rows_of};
ghost use Rattle.dc_command.specs.Asked.{WhenIs, when_name};

use clap::ArgMatches;

/// When what was refused is explained, on standard error.
#[derive(Clone, Copy, Debug, PartialEq, Eq)]
pub enum When {
    /// Always.
    Always,
    /// Never.
    Never,
    /// Where standard error is a terminal.
    Auto,
}

/// When a text says to explain.
fn when_of(text: &str) -> Option<When>
    ensures { IfSome result (λ when. text.now ≡ when_name when) }
{
    match text {
        "always" => Some(When::Always),
        "never" => Some(When::Never),
        "auto" => Some(When::Auto),
        _ => None,
    }
}

/// When the matches of a command say to explain, where they say it by a word that there is.
pub(crate) fn when_in(matches: &ArgMatches<'_>) -> Option<When>
    ensures { IfSome result (WhenIs (first_of (codes "explain") (rows_of (found_of matches.now)))) }
{
    match matches.get_str("explain") {
        Some(text) => when_of(text),
        None => Some(When::Auto),
    }
}
