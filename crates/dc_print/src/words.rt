//! The printed line of a word.
ghost use Rattle.std.specs.Prelude.{◌≡◌, [], ◌++◌, ◌+◌, ◌≤◌, length};
ghost use Rattle.dc_print.specs.Words.{data_text, line_of, parity_text, status_text};
ghost use Rattle.dc_print.specs.declared.words.TheConstants.{WORD_ROOM};

use crate::put::{put_hex_8, put_octal_3, put_signed};
use crate::text::{decimal_5, digit_of, hex_5};
use dc_device::Pen;
use dc_word::{Format, Status, Word};

/// The room of the line of a word, in bytes: no line is longer, and all of the room is copied where the line is written.
pub const WORD_ROOM: usize = 96;

/// Puts the status at the end.
#[inline(always)]
fn put_status(pen: &mut Pen<WORD_ROOM>, status: Status)
    requires { length pen.old + 16 ≤ WORD_ROOM }
    ensures items { pen.new ≡ pen.old ++ status_text status }
    ensures len { length pen.new ≤ length pen.old + 16 }
{
    match status {
        Status::FailureWarning => pen.put(b"failure_warning"),
        Status::NoComputedData => pen.put(b"no_computed_data"),
        Status::FunctionalTest => pen.put(b"functional_test"),
        Status::Normal => pen.put(b"normal"),
        Status::Plus => pen.put(b"plus"),
        Status::Minus => pen.put(b"minus"),
        Status::Verified => pen.put(b"verified"),
    }
}

/// Puts the parity at the end.
#[inline(always)]
fn put_parity(pen: &mut Pen<WORD_ROOM>, is_odd: bool)
    requires { length pen.old + 4 ≤ WORD_ROOM }
    ensures { pen.new ≡ pen.old ++ parity_text is_odd }
{
    if is_odd {
        pen.put(b"odd")
    } else {
        pen.put(b"even")
    }
}

/// Puts the data at the end.
#[inline(always)]
fn put_data(pen: &mut Pen<WORD_ROOM>, format: Format, word: Word)
    requires { length pen.old + 21 ≤ WORD_ROOM }
    ensures items { pen.new ≡ pen.old ++ data_text format word }
    ensures len { length pen.new ≤ length pen.old + 21 }
{
    match format {
        Format::Bnr => put_signed(pen, word.bnr()),
        Format::Bcd => match word.bcd() {
            Ok(number) => pen.put(&decimal_5(number)),
            Err(place) => {
                pen.put(b"bad");
                pen.put(&[digit_of(u32::from(place.number()))]);
            }
        },
        Format::Disc => pen.put(&hex_5(word.data())),
    }
}

/// Puts the line of a word into an empty pen.
#[tactic(auto, unfolding(crate::specs::Words::line_of))]
#[inline(always)]
pub fn put_word(pen: &mut Pen<WORD_ROOM>, format: Format, word: Word)
    requires { pen.old ≡ [] }
    ensures { pen.new ≡ line_of format word }
{
    put_hex_8(pen, word.bits());
    pen.put(b" label=");
    put_octal_3(pen, word.label_number());
    pen.put(b" sdi=");
    pen.put(&[digit_of(word.sdi())]);
    pen.put(b" data=");
    put_data(pen, format, word);
    pen.put(b" status=");
    put_status(pen, word.status(format));
    pen.put(b" parity=");
    put_parity(pen, word.is_odd());
}
