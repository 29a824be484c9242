//! Decoding a word from C.
ghost use Rattle.std.specs.Prelude.{◌≡◌};
ghost use Rattle.dc_embed.specs.Decoding.{Decodes, format_at};

use crate::fields::Fields;
use dc_word::{Format, Word};

/// The format of this number: 1 to 3.
fn format_of(number: u32) -> Option<Format>
    ensures { result ≡ format_at number }
{
    match number {
        1 => Some(Format::Bnr),
        2 => Some(Format::Bcd),
        3 => Some(Format::Disc),
        _ => None,
    }
}

/// The fields of a word in the format of this number, 1 to 3 for BNR, BCD and discretes; false where there is none, and
/// nothing is written.
#[unsafe(no_mangle)]
pub extern "C" fn dc429_decode(word: u32, format: u32, fields: &mut Fields) -> bool
    ensures { Decodes word (format_at format) fields.old fields.new result }
{
    match format_of(format) {
        None => false,
        Some(format) => {
            *fields = Fields::of(Word(word), format);
            true
        }
    }
}
