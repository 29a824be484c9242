//! What was seen of an input, an output and a label, beside what bounds it.

ghost use Rattle.std.specs.Prelude.{◌≡◌, ◌<◌, length, slice_index};
ghost use Rattle.dc_cert.specs.Bounds.{certificate_rows, input_bound, output_bound};
ghost use Rattle.dc_seen_page.specs.Rows.{AreSeenOf, seen_input, seen_label, seen_output};
ghost use Rattle.dc_tables.specs.TableRows.{bus_row, label_row};

use crate::drawing::Beside;
use dc_check::Fitted;
use dc_observe::LabelNumbers;
use dc_seen::{InputNumbers, OutputNumbers, Seen};

/// Of an input.
#[derive(Clone, Copy)]
pub struct InputBeside {
    /// What was seen.
    pub seen: InputNumbers,
    /// The backlog that the certificate claims, in words.
    pub backlog: u32,
    /// The delay that it claims, in ticks.
    pub delay: u32,
    /// How many words the queue holds.
    pub queue: u32,
}

impl InputBeside {
    /// The most words that waited.
    pub fn backlog(&self) -> Beside {
        Beside {
            seen: Some(self.seen.backlog),
            certified: Some(u64::from(self.backlog)),
            limit: Some(u64::from(self.queue)),
            is_least: false,
        }
    }

    /// The longest wait.
    pub fn wait(&self) -> Beside {
        Beside {
            seen: Some(self.seen.wait),
            certified: Some(u64::from(self.delay)),
            limit: None,
            is_least: false,
        }
    }
}

/// Of an output.
#[derive(Clone, Copy)]
pub struct OutputBeside {
    /// What was seen.
    pub seen: OutputNumbers,
    /// The delay that the certificate claims, in ticks.
    pub delay: u32,
}

impl OutputBeside {
    /// How late an entry left at most.
    pub fn late(&self) -> Beside {
        Beside {
            seen: Some(self.seen.late),
            certified: Some(u64::from(self.delay)),
            limit: None,
            is_least: false,
        }
    }
}

/// Of a label.
#[derive(Clone, Copy)]
pub struct LabelBeside {
    /// What was seen.
    pub seen: LabelNumbers,
    /// The age that the certificate claims, in ticks.
    pub age: u32,
    /// The limit on its age, in ticks.
    pub age_limit: u32,
    /// Its least interval, in ticks.
    pub minimum: u32,
    /// Its greatest interval, in ticks.
    pub maximum: u32,
}

impl LabelBeside {
    /// The greatest age of a word that it copied.
    pub fn age(&self) -> Beside {
        Beside {
            seen: self.seen.age,
            certified: Some(u64::from(self.age)),
            limit: Some(u64::from(self.age_limit)),
            is_least: false,
        }
    }

    /// The least interval between two of its words.
    pub fn least(&self) -> Beside {
        Beside {
            seen: self.seen.least,
            certified: None,
            limit: Some(u64::from(self.minimum)),
            is_least: true,
        }
    }

    /// The greatest interval.
    pub fn greatest(&self) -> Beside {
        Beside {
            seen: Some(self.seen.greatest),
            certified: None,
            limit: Some(u64::from(self.maximum)),
            is_least: false,
        }
    }
}

/// What was seen of the input of this number, beside what bounds it.
pub fn input_beside(fitted: &Fitted<'_>, seen: &Seen, bus: usize) -> InputBeside
    requires there { bus < length fitted.now.tables.now.buses }
    requires sized { AreSeenOf fitted.now.tables.now seen.now }
    ensures seen { result.seen ≡ seen_input seen.now bus }
    ensures backlog { result.backlog ≡ (input_bound (certificate_rows fitted.now.certificate.now) bus).backlog }
    ensures delay { result.delay ≡ (input_bound (certificate_rows fitted.now.certificate.now) bus).delay }
    ensures queue { result.queue ≡ (bus_row fitted.now.tables.now bus).queue }
{
    let row = &fitted.certificate.inputs[bus];
    let numbers = &seen.inputs[bus];
    InputBeside {
        seen: *numbers,
        backlog: row.backlog,
        delay: row.delay,
        queue: fitted.tables.queue(bus),
    }
}

/// What was seen of the output of this number, beside what bounds it.
pub fn output_beside(fitted: &Fitted<'_>, seen: &Seen, output: usize) -> OutputBeside
    requires there { output < length fitted.now.tables.now.outputs }
    requires sized { AreSeenOf fitted.now.tables.now seen.now }
    ensures seen { result.seen ≡ seen_output seen.now output }
    ensures delay { result.delay ≡ (output_bound (certificate_rows fitted.now.certificate.now) output).delay }
{
    let row = &fitted.certificate.outputs[output];
    let numbers = &seen.outputs[output];
    OutputBeside {
        seen: *numbers,
        delay: row.delay,
    }
}

/// What was seen of the label of this number, beside what bounds it.
pub fn label_beside(fitted: &Fitted<'_>, seen: &Seen, label: usize) -> LabelBeside
    requires there { label < length fitted.now.tables.now.labels }
    requires sized { AreSeenOf fitted.now.tables.now seen.now }
    ensures seen { result.seen ≡ seen_label seen.now label }
    ensures age { result.age ≡ slice_index (certificate_rows fitted.now.certificate.now).ages label }
    ensures age_limit { result.age_limit ≡ (label_row fitted.now.tables.now label).age_limit }
    ensures minimum { result.minimum ≡ (label_row fitted.now.tables.now label).minimum }
    ensures maximum { result.maximum ≡ (label_row fitted.now.tables.now label).maximum }
{
    let row = &fitted.certificate.labels[label];
    let numbers = &seen.labels[label];
    let own = fitted.tables.label(label);
    LabelBeside {
        seen: *numbers,
        age: row.age,
        age_limit: own.age_limit,
        minimum: own.minimum,
        maximum: own.maximum,
    }
}
