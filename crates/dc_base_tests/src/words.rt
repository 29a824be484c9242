//! Known words, labels, SDIs and the sign/status matrix.

use dc_word::{DigitPlace, Format, Label, Sdi, Status, Word};
use std::test::Fail;

#[test]
fn numbers_of_labels_and_sdis(rt: HostRuntime) -> Result<(), Fail> {
    assert!(rt; Label::new(0).is_none());
    assert!(rt; Label::new(0o377).ok_or("no label")?.number() == 255);
    assert!(rt; Sdi::new(3).ok_or("no SDI")?.number() == 3);
    assert!(rt; Sdi::new(4).is_none());
    Ok(())
}

#[test]
fn fields_of_known_words(rt: HostRuntime) {
    let known = [
        (0x6000_00C1, 0o203, 3, true),
        (0xFFFF_FCC1, 0o203, 3, true),
        (0x2000_00C1, 0o203, 1, false),
        (0xA000_00C1, 0o203, 1, true),
        (0xE000_0021, 0o204, 3, true),
        (0xE000_0081, 0o201, 3, true),
        (0x048D_1481, 0o201, 0, true),
        (0x648D_1481, 0o201, 3, true),
        (0x048D_2881, 0o201, 0, true),
    ];
    for (bits, label, ssm, odd) in known {
        let word = Word(bits);
        assert!(rt; word.bits() == bits);
        assert!(rt; word.label_number() == label, "label of {bits:08X}");
        assert!(rt; word.sdi() == 0, "SDI of {bits:08X}");
        assert!(rt; word.ssm() == ssm, "SSM of {bits:08X}");
        assert!(rt; word.is_odd() == odd, "parity of {bits:08X}");
    }
    assert!(rt; Word(0x0000_0100).sdi() == 1);
    assert!(rt; Word(0x0000_0200).sdi() == 2);
}

#[test]
fn data_in_each_format(rt: HostRuntime) {
    assert!(rt; Word(0x6000_00C1).bnr() == 0);
    assert!(rt; Word(0xFFFF_FCC1).bnr() == -1);
    assert!(rt; Word(0xF000_00C1).bnr() == -262_144);
    assert!(rt; Word(0x048D_1481).bcd() == Ok(12_345));
    assert!(rt; Word(0x648D_1481).bcd() == Ok(12_345));
    assert!(rt; Word(0x048D_2881).bcd() == Err(DigitPlace::Fifth));
    assert!(rt; DigitPlace::Fifth.number() == 5);
    assert!(rt; Word(0xFFFF_FCC1).data() == 0x7FFFF);
}

#[test]
fn status_and_use_of_words(rt: HostRuntime) {
    assert!(rt; Word(0x6000_00C1).status(Format::Bnr) == Status::Normal);
    assert!(rt; Word(0x6000_00C1).status(Format::Disc) == Status::FailureWarning);
    assert!(rt; Word(0xA000_00C1).status(Format::Bcd) == Status::NoComputedData);
    assert!(rt; Word(0x6000_00C1).usable(Format::Bnr));
    assert!(rt; Word(0x648D_1481).usable(Format::Bcd));
    assert!(rt; !Word(0x6000_00C1).usable(Format::Disc));
    assert!(rt; !Word(0xA000_00C1).usable(Format::Bnr));
}

#[test]
fn composed_words_are_odd(rt: HostRuntime) -> Result<(), Fail> {
    let label = Label::new(0o203).ok_or("no label")?;
    let other = Label::new(0o204).ok_or("no label")?;
    let sdi = Sdi::new(0).ok_or("no SDI")?;
    assert!(rt; Word::compose(label, sdi, 0, 3) == Word(0x6000_00C1));
    assert!(rt; Word::compose(label, sdi, 0x7FFFF, 3) == Word(0xFFFF_FCC1));
    assert!(rt; Word::copy_as(Word(0x6000_00C1), other, sdi) == Word(0xE000_0021));
    assert!(rt; Word::copy_as(Word(0xFFFF_FCC1), other, sdi) == Word(0x7FFF_FC21));
    assert!(rt; Word::fallback(label, sdi) == Word(0xA000_00C1));
    Ok(())
}

#[test]
fn table_of_the_sign_status_matrix(rt: HostRuntime) {
    let table = [
        (Format::Bnr, 0, Status::FailureWarning, false),
        (Format::Bnr, 1, Status::NoComputedData, false),
        (Format::Bnr, 2, Status::FunctionalTest, false),
        (Format::Bnr, 3, Status::Normal, true),
        (Format::Bcd, 0, Status::Plus, true),
        (Format::Bcd, 1, Status::NoComputedData, false),
        (Format::Bcd, 2, Status::FunctionalTest, false),
        (Format::Bcd, 3, Status::Minus, true),
        (Format::Disc, 0, Status::Verified, true),
        (Format::Disc, 1, Status::NoComputedData, false),
        (Format::Disc, 2, Status::FunctionalTest, false),
        (Format::Disc, 3, Status::FailureWarning, false),
    ];
    for (format, ssm, status, usable) in table {
        assert!(rt; ssm < 4);
        assert!(rt; format.status(ssm) == status, "{format:?} {ssm}");
        assert!(rt; format.is_usable(ssm) == usable, "{format:?} {ssm}");
    }
}
