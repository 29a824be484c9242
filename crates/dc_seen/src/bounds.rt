//! What bounds the numbers of a row, by a certificate and by tables; 0 where the certificate claims nothing.
ghost use Rattle.std.specs.Prelude.{◌≡◌, ◌<◌, length, slice_index};
ghost use Rattle.dc_cert.specs.Bounds.{certificate_rows, input_bound, output_bound};
ghost use Rattle.dc_tables.specs.TableRows.{label_row};

use dc_cert::Certificate;
use dc_tables::Tables;

/// What is claimed of an input: its backlog in words, its delay in ticks.
#[derive(Clone, Copy)]
pub struct InputBounds {
    pub backlog: u32,
    pub delay: u32,
}

/// What bounds a label, in ticks: its age by the certificate, its least and its greatest interval by the tables.
#[derive(Clone, Copy)]
pub struct LabelBounds {
    pub age: u32,
    pub minimum: u32,
    pub maximum: u32,
}

/// What is claimed of an input.
pub(crate) fn input_bounds(certificate: &Certificate, bus: usize) -> InputBounds
    ensures backlog { result.backlog ≡ (input_bound (certificate_rows certificate.now) bus).backlog }
    ensures delay { result.delay ≡ (input_bound (certificate_rows certificate.now) bus).delay }
{
    if bus >= certificate.inputs.len() {
        return InputBounds {
            backlog: 0,
            delay: 0,
        };
    }
    let row = certificate.inputs[bus];
    InputBounds {
        backlog: row.backlog,
        delay: row.delay,
    }
}

/// The delay that is claimed of an output, in ticks.
pub(crate) fn output_delay(certificate: &Certificate, output: usize) -> u32
    ensures { result ≡ (output_bound (certificate_rows certificate.now) output).delay }
{
    if output >= certificate.outputs.len() {
        return 0;
    }
    certificate.outputs[output].delay
}

/// The age that is claimed of a label, in ticks.
fn label_age(certificate: &Certificate, label: usize) -> u32
    ensures { result ≡ slice_index (certificate_rows certificate.now).ages label }
{
    if label >= certificate.labels.len() {
        return 0;
    }
    certificate.labels[label].age
}

/// What bounds a label.
pub(crate) fn label_bounds(tables: &Tables, certificate: &Certificate, label: usize) -> LabelBounds
    requires { label < length tables.now.labels }
    ensures age { result.age ≡ slice_index (certificate_rows certificate.now).ages label }
    ensures minimum { result.minimum ≡ (label_row tables.now label).minimum }
    ensures maximum { result.maximum ≡ (label_row tables.now label).maximum }
{
    let row = tables.label(label);
    LabelBounds {
        age: label_age(certificate, label),
        minimum: row.minimum,
        maximum: row.maximum,
    }
}
