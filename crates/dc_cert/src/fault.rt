//! Why a certificate's text is refused, and where.
ghost use Rattle.std.specs.Prelude.{◌≡◌, ◌+◌, ◌≤◌, ◌++◌, length, decimal, Some};
ghost use Rattle.arrayvec.specs.ArrayVec.{array_vec_len};
ghost use Rattle.dc_cert.specs.declared.fault.CertFault.TheVariants.{Memory, Unreadable};
ghost use Rattle.dc_cert.specs.Faults.{rule_code, place_text, fault_text};
ghost use Rattle.dc_cert.specs.declared.fault.TheConstants.{SHORT_TEXT};

use arrayvec::ArrayVec;
use itoa::Buffer;
use std::alloc::{AllocError, AllocFailed};
use std::fmt;
use thiserror::Error;

/// The rules of a certificate's text, in the order of their codes.
#[derive(Clone, Copy, Debug, PartialEq, Eq, Error)]
pub enum CertRule {
    /// K1: the text is over its limit, not UTF-8, or no JSON text with nothing after it.
    #[error("the text is too long, not UTF-8, or no JSON text with nothing after it")]
    NotJson,
    /// K2: `version` is absent or not the number 1.
    #[error("`version` is absent or not the number 1")]
    VersionUnknown,
    /// K3: a wanted key is absent.
    #[error("a wanted key is absent")]
    KeyAbsent,
    /// K4: a key is unknown.
    #[error("a key is unknown")]
    KeyUnknown,
    /// K5: a value is not of its kind, or a number is not a whole one from 0 to 4,294,967,295.
    #[error("a value is not of its kind, or a number is not a whole one from 0 to 4294967295")]
    WrongKind,
    /// K6: a list has more than [`LIST_LIMIT`](crate::LIST_LIMIT) members, or a name is not in its spelling.
    #[error("a list has more than 1024 members, or a name is not 1 to 16 of A-Z a-z 0-9 _ -")]
    ListOrNameOutOfBounds,
}

/// The room of a short text, in bytes.
pub const SHORT_TEXT: usize = 64;

/// A short text, as bytes.
pub type ShortText = ArrayVec<u8, SHORT_TEXT>;

/// Puts bytes at the end.
fn append(text: &mut ShortText, bytes: &[u8])
    requires { array_vec_len text.old + length bytes.now ≤ SHORT_TEXT }
    ensures items { text.new.items ≡ text.old.items ++ bytes.now }
    ensures len { array_vec_len text.new ≡ array_vec_len text.old + length bytes.now }
{
    let _ = text.try_extend_from_slice(bytes);
}

impl CertRule {
    /// The code as it is printed, as `K5`.
    pub fn code(self) -> &'static str
        ensures text { result.now ≡ rule_code self }
        ensures short { length result.now ≤ 2 }
    {
        match self {
            CertRule::NotJson => "K1",
            CertRule::VersionUnknown => "K2",
            CertRule::KeyAbsent => "K3",
            CertRule::KeyUnknown => "K4",
            CertRule::WrongKind => "K5",
            CertRule::ListOrNameOutOfBounds => "K6",
        }
    }

    /// The fault of this rule at a place.
    pub(crate) fn at(self, place: TextPlace) -> Fault
        ensures { result ≡ record { rule = self; place = place } }
    {
        Fault { rule: self, place }
    }
}

/// Where a certificate's text is wrong.
#[derive(Clone, Copy, Debug, PartialEq, Eq)]
pub enum TextPlace {
    /// The text as a whole, or its outermost object.
    Top,
    /// The input with this index, from 0.
    Inputs(usize),
    /// The output with this index, from 0.
    Outputs(usize),
    /// The label with this index, from 0.
    Labels(usize),
}

impl fmt::Display for TextPlace {
    ghost output = { λ place. Some (place_text place) };

    fn fmt<W: fmt::Write>(&self, f: &mut fmt::Formatter<W>) -> fmt::Result {
        match self {
            TextPlace::Top => write!(f, "top"),
            TextPlace::Inputs(index) => write!(f, "inputs {index}"),
            TextPlace::Outputs(index) => write!(f, "outputs {index}"),
            TextPlace::Labels(index) => write!(f, "labels {index}"),
        }
    }
}

/// Puts the name of a list and an index at the end.
fn append_index(text: &mut ShortText, list: &[u8], index: usize)
    requires { (array_vec_len text.old ≤ 10) × (length list.now ≤ 10) }
    ensures { text.new.items ≡ text.old.items ++ list.now ++ decimal index }
{
    append(text, list);
    let mut buffer = Buffer::new();
    append(text, buffer.format(index).as_bytes());
}

/// The first fault of a certificate's text.
#[derive(Clone, Copy, Debug, PartialEq, Eq, Error)]
#[error("{place}: {rule}")]
pub struct Fault {
    /// What is wrong.
    pub rule: CertRule,
    /// Where it is wrong.
    pub place: TextPlace,
}

impl Fault {
    /// The code and the place in short, as `K5 at inputs 0` or `K1 at top`.
    pub fn short_text(self) -> ShortText
        ensures { result.items ≡ fault_text self }
    {
        let mut text = ShortText::new();
        append(&mut text, self.rule.code().as_bytes());
        append(&mut text, b" at ");
        match self.place {
            TextPlace::Top => append(&mut text, b"top"),
            TextPlace::Inputs(index) => append_index(&mut text, b"inputs ", index),
            TextPlace::Outputs(index) => append_index(&mut text, b"outputs ", index),
            TextPlace::Labels(index) => append_index(&mut text, b"labels ", index),
        }
        text
    }
}

/// Why a certificate could not be read.
#[derive(Clone, Copy, Debug, PartialEq, Eq, Error)]
pub enum CertFault {
    /// An allocation failed.
    #[error("out of memory")]
    Memory,
    /// The text is no certificate.
    #[error(transparent)]
    Unreadable(Fault),
}

impl From<Fault> for CertFault {
    ghost from_gives = { λ fault e. e ≡ Unreadable fault };

    fn from(fault: Fault) -> CertFault {
        CertFault::Unreadable(fault)
    }
}

impl From<AllocError> for CertFault {
    ghost from_gives = { λ _ e. e ≡ Memory };

    fn from(_error: AllocError) -> CertFault {
        CertFault::Memory
    }
}

impl<T: Drop> From<AllocFailed<T>> for CertFault {
    ghost from_gives = { λ _ e. e ≡ Memory };

    fn from(_error: AllocFailed<T>) -> CertFault {
        CertFault::Memory
    }
}
