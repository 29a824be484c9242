//! The lines of a text, each at its place.
ghost use Rattle.std.specs.Prelude.{◌≡◌, ◌∷◌, [], ◌+◌, ◌<◌, ◌≤◌, ◌^◌, Err, IfOk, Ok, drop, length, take, MatchOption, MatchResult};
ghost use Rattle.dc_cert.specs.Bounds.{CertificateRows};
ghost use Rattle.dc_device.specs.Lines.{NoFeed};
ghost use Rattle.dc_document.specs.declared.limits.TheConstants.{TEXT_LIMIT};
ghost use Rattle.dc_seen.specs.Reading.{IsRefused, IsWhole, line_fault, said_from};
ghost use Rattle.dc_seen.specs.Said.{at_line, followed, line_said, lines_wanted, none_seen, too_long, unended_rule};
ghost use Rattle.dc_tables.specs.TableRows.{TableRows};

use crate::fault::{SeenFault, SeenRule};
use crate::kind::surplus;
use dc_document::TEXT_LIMIT;

/// The greatest length of a line, in bytes without its line feed: this project's own number.
pub const LINE_LIMIT: usize = 256;

/// Where a line of a text begins.
#[derive(Clone, Copy)]
pub struct Place {
    /// How many bytes of the text stand before it.
    pub before: usize,
    /// How many lines.
    pub lines: u64,
}

/// A rule, broken by the line at a place.
pub(crate) fn fault_at(place: Place, rule: SeenRule) -> SeenFault
    requires { place.lines < 2 ^ 32 }
    ensures { result ≡ line_fault place.lines rule }
{
    SeenFault {
        rule,
        line: place.lines + 1,
    }
}

/// Whether a line of so many bytes is too long, or the text is behind so many bytes of it, where so many stand before.
fn is_too_long(before: usize, line: usize, through: usize) -> bool
    requires { before + through < 2 ^ 64 }
    ensures { result ≡ too_long before line through }
{
    line > LINE_LIMIT || before + through > TEXT_LIMIT
}

/// The rule that is broken where a text ends inside a line of so many bytes.
fn unended_rule(before: usize, line: usize) -> SeenRule
    requires { before + line < 2 ^ 64 }
    ensures { result ≡ unended_rule before line }
{
    if is_too_long(before, line, line) {
        return SeenRule::LineTooLong;
    }
    SeenRule::LineNotEnded
}

/// Where the first line feed is.
fn first_feed(bytes: &[u8]) -> Option<usize>
    ensures { MatchOption result (NoFeed bytes.now)
        (λ i. (i < length bytes.now) × NoFeed (take i bytes.now) × (drop i bytes.now ≡ 10 ∷ drop (i + 1) bytes.now)) }
{
    for i in 0..bytes.len() {
        if bytes[i] == b'\n' {
            return Some(i);
        }
    }
    None
}

/// What stands behind so many bytes.
fn behind(text: &[u8], before: usize) -> &[u8]
    requires { before ≤ length text.now }
    ensures { result.now ≡ drop before text.now }
{
    &text[before..]
}

/// The line behind so many bytes of a text, without its line feed; none where the text ends there.
///
/// # Errors
/// `LineTooLong` or `LineNotEnded`.
fn line_at(text: &[u8], before: usize) -> Result<Option<&[u8]>, SeenRule>
    requires { before ≤ length text.now }
    ensures { MatchResult result
        (λ found. MatchOption found (drop before text.now ≡ []) (λ line. IsWhole before text.now line.now))
        (λ rule. IsRefused before text.now rule) }
{
    let left = behind(text, before);
    if left.is_empty() {
        return Ok(None);
    }
    let Some(length) = first_feed(left) else {
        return Err(unended_rule(before, left.len()));
    };
    if is_too_long(before, length, length + 1) {
        return Err(SeenRule::LineTooLong);
    }
    Ok(Some(&left[..length]))
}

/// The line at a place, where one is wanted, and the place behind it.
///
/// # Errors
/// The fault of that place: a line that is too long, is not ended or is missing.
pub(crate) fn wanted_line(text: &[u8], place: Place) -> Result<(&[u8], Place), SeenFault>
    requires within { place.before ≤ length text.now }
    requires few { place.lines < 2 ^ 32 }
    ensures said { MatchResult result
        (λ r. (t : TableRows) (c : CertificateRows) → said_from t c text.now place ≡ followed (at_line place.lines (line_said t c place.lines r.0.now)) (said_from t c text.now r.1))
        (λ fault. (t : TableRows) (c : CertificateRows) → place.lines < lines_wanted t → said_from t c text.now place ≡ Err fault) }
    ensures within { IfOk result (λ r. r.1.before ≤ length text.now) }
    ensures next { IfOk result (λ r. r.1.lines ≡ place.lines + 1) }
{
    let line = match line_at(text, place.before) {
        Ok(Some(line)) => line,
        Ok(None) => return Err(fault_at(place, SeenRule::NotNext)),
        Err(rule) => return Err(fault_at(place, rule)),
    };
    let behind = Place {
        before: place.before + line.len() + 1,
        lines: place.lines + 1,
    };
    Ok((line, behind))
}

/// That the text ends at a place.
///
/// # Errors
/// The fault of that place: a line that is too long, is not ended or is one too many.
pub(crate) fn no_more(text: &[u8], place: Place) -> Result<(), SeenFault>
    requires within { place.before ≤ length text.now }
    requires few { place.lines < 2 ^ 32 }
    ensures { (t : TableRows) (c : CertificateRows) → lines_wanted t ≤ place.lines
        → MatchResult result (λ _. said_from t c text.now place ≡ Ok none_seen) (λ fault. said_from t c text.now place ≡ Err fault) }
{
    match line_at(text, place.before) {
        Ok(None) => Ok(()),
        Ok(Some(line)) => Err(fault_at(place, surplus(line))),
        Err(rule) => Err(fault_at(place, rule)),
    }
}
