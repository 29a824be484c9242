//! The parts of tables, which say the same where each of their keys does.
ghost use Rattle.std.specs.Prelude.{◌≡◌};
ghost use Rattle.std.specs.Bool.{Decides};
ghost use Rattle.dc_toml.specs.Written.{label_text, router_text};

use crate::lists::Member;
use dc_dict::Parameter;
use dc_document::{BusPart, LabelPart, Name, OutputPart, RouterPart, StreamPart};

/// Whether names are the same, in the same order.
fn same_names(ones: &[Name], others: &[Name]) -> bool
    ensures { Decides result (ones.now ≡ others.now) }
{
    ones == others
}

/// Whether numbers are the same, in the same order.
fn same_numbers(ones: &[u32], others: &[u32]) -> bool
    ensures { Decides result (ones.now ≡ others.now) }
{
    ones == others
}

impl Member for Parameter {
    ghost is_said = { λ x y. x ≡ y };

    fn says_the_same(&self, other: &Self) -> bool {
        self == other
    }
}

impl Member for BusPart {
    ghost is_said = { λ x y. x ≡ y };

    fn says_the_same(&self, other: &Self) -> bool {
        self == other
    }
}

impl Member for StreamPart {
    ghost is_said = { λ x y. x ≡ y };

    fn says_the_same(&self, other: &Self) -> bool {
        self == other
    }
}

impl Member for OutputPart {
    ghost is_said = { λ x y. x ≡ y };

    fn says_the_same(&self, other: &Self) -> bool {
        self == other
    }
}

impl Member for RouterPart {
    ghost is_said = { λ x y. router_text x ≡ router_text y };

    fn says_the_same(&self, other: &Self) -> bool {
        if !same_names(&self.visits, &other.visits) {
            return false;
        }
        self.name == other.name
            && self.steps == other.steps
            && self.within == other.within
            && self.most == other.most
    }
}

impl Member for LabelPart {
    ghost is_said = { λ x y. label_text x ≡ label_text y };

    fn says_the_same(&self, other: &Self) -> bool {
        if !same_names(&self.sources, &other.sources)
            || !same_numbers(&self.offsets, &other.offsets)
        {
            return false;
        }
        self.output == other.output
            && self.name == other.name
            && self.label == other.label
            && self.equipment == other.equipment
            && self.sdi == other.sdi
            && self.stale == other.stale
            && self.age == other.age
    }
}
