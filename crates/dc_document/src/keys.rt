//! What names a parameter.

ghost use Rattle.std.specs.Prelude.{◌≡◌};
ghost use Rattle.dc_document.specs.Keys.{stream_key, label_key};

use crate::parts::{LabelPart, StreamPart};
use dc_dict::Equipment;
use dc_word::Label;

/// What names a parameter.
#[derive(Clone, Copy, Debug, PartialEq, Eq, Hash)]
pub struct ParameterKey {
    /// Its label.
    pub label: Label,
    /// Its equipment code.
    pub equipment: Equipment,
}

impl StreamPart {
    /// What names the stream's parameter.
    pub fn key(&self) -> ParameterKey
        ensures { result ≡ stream_key self.now }
    {
        ParameterKey {
            label: self.label,
            equipment: self.equipment,
        }
    }
}

impl LabelPart {
    /// What names the label's parameter.
    pub fn key(&self) -> ParameterKey
        ensures { result ≡ label_key self.now }
    {
        ParameterKey {
            label: self.label,
            equipment: self.equipment,
        }
    }
}
