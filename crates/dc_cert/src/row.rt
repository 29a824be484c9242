//! The three kinds of rows: how each is read from a JSON value, and which JSON value it is.
ghost use Rattle.std.specs.Prelude.{◌≡◌, ℕ, Result, IfOk};
ghost use Rattle.serde_json.specs.Data.{Data};
ghost use Rattle.serde_json.specs.View.{view};
ghost use Rattle.dc_cert.specs.declared.fault.Fault.{Fault as SpecFault};
ghost use Rattle.dc_cert.specs.NamedRows.{NamedInput, NamedOutput, NamedLabel, named_input, named_output, named_label};
ghost use Rattle.dc_cert.specs.Faults.{seen};
ghost use Rattle.dc_cert.specs.Reading.{input_of, output_of, label_of};
ghost use Rattle.dc_cert.specs.Limits.{InputFits, OutputFits, LabelFits};
ghost use Rattle.dc_cert.specs.Printing.{input_data, output_data, label_data};

use crate::certificate::{InputRow, LabelRow, OutputRow};
use crate::fault::{Fault, TextPlace};
use crate::keys::{name, number, object, shape};
use serde_json::{Value, json};
use std::alloc::{AllocError, Global};

/// A member of one of a certificate's lists.
pub trait Row: Copy {
    // What a row says.
    ghost Claim: { Type 0 };

    // The claim of a row.
    ghost claim: { Self → Claim };

    // The claim that a JSON value with its index is, or its first fault.
    ghost claim_of: { ℕ → Data → Result Claim SpecFault };

    // The JSON value that a claim is.
    ghost printed: { Claim → Data };

    // The claim's name is spelled as one, and its numbers have 32 bits.
    ghost fits: { Claim → Type 0 };

    /// The row that a JSON value is, with its index in the list.
    fn read(value: &Value, index: usize) -> Result<Self, Fault>
        ensures { seen claim result ≡ claim_of index (view value.now) };

    /// The JSON value that a row is.
    fn value(&self, alloc: Global) -> Result<Value, AllocError>
        ensures value { IfOk result (λ v. view v ≡ printed (claim self.now)) }
        ensures fits { IfOk result (λ _. fits (claim self.now)) };
}

impl Row for InputRow {
    ghost Claim = { NamedInput };

    ghost claim = { named_input };

    ghost claim_of = { input_of };

    ghost printed = { input_data };

    ghost fits = { InputFits };

    #[tactic(auto, unfolding(crate::specs::Reading::input_of))]
    fn read(value: &Value, index: usize) -> Result<Self, Fault> {
        let place = TextPlace::Inputs(index);
        let members = object(value, place)?;
        shape(members, &["bus", "window", "backlog", "delay"], place)?;
        let bus = name(members, "bus", place)?;
        let window = number(members, "window", place)?;
        let backlog = number(members, "backlog", place)?;
        let delay = number(members, "delay", place)?;
        Ok(InputRow {
            bus,
            window,
            backlog,
            delay,
        })
    }

    fn value(&self, alloc: Global) -> Result<Value, AllocError> {
        json!(in alloc; {"backlog": self.backlog, "bus": self.bus.as_str(), "delay": self.delay, "window": self.window})
    }
}

impl Row for OutputRow {
    ghost Claim = { NamedOutput };

    ghost claim = { named_output };

    ghost claim_of = { output_of };

    ghost printed = { output_data };

    ghost fits = { OutputFits };

    #[tactic(auto, unfolding(crate::specs::Reading::output_of))]
    fn read(value: &Value, index: usize) -> Result<Self, Fault> {
        let place = TextPlace::Outputs(index);
        let members = object(value, place)?;
        shape(members, &["output", "window", "delay"], place)?;
        let output = name(members, "output", place)?;
        let window = number(members, "window", place)?;
        let delay = number(members, "delay", place)?;
        Ok(OutputRow {
            output,
            window,
            delay,
        })
    }

    fn value(&self, alloc: Global) -> Result<Value, AllocError> {
        json!(in alloc; {"delay": self.delay, "output": self.output.as_str(), "window": self.window})
    }
}

impl Row for LabelRow {
    ghost Claim = { NamedLabel };

    ghost claim = { named_label };

    ghost claim_of = { label_of };

    ghost printed = { label_data };

    ghost fits = { LabelFits };

    #[tactic(auto, unfolding(crate::specs::Reading::label_of))]
    fn read(value: &Value, index: usize) -> Result<Self, Fault> {
        let place = TextPlace::Labels(index);
        let members = object(value, place)?;
        shape(members, &["label", "age"], place)?;
        let label = name(members, "label", place)?;
        let age = number(members, "age", place)?;
        Ok(LabelRow { label, age })
    }

    fn value(&self, alloc: Global) -> Result<Value, AllocError> {
        json!(in alloc; {"age": self.age, "label": self.label.as_str()})
    }
}
