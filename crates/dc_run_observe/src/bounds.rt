//! What a certificate claims of a row of the tables; 0 where it claims nothing.
ghost use Rattle.std.specs.Prelude.{◌≡◌, slice_index};
ghost use Rattle.dc_cert.specs.Bounds.{certificate_rows, input_bound, output_bound};

use dc_cert::Certificate;

/// The backlog that is claimed of an input.
pub(crate) fn backlog_of(certificate: &Certificate, bus: usize) -> u32
    ensures { result ≡ (input_bound (certificate_rows certificate.now) bus).backlog }
{
    if bus >= certificate.inputs.len() {
        return 0;
    }
    certificate.inputs[bus].backlog
}

/// The delay that is claimed of an input, in ticks.
pub(crate) fn wait_of(certificate: &Certificate, bus: usize) -> u32
    ensures { result ≡ (input_bound (certificate_rows certificate.now) bus).delay }
{
    if bus >= certificate.inputs.len() {
        return 0;
    }
    certificate.inputs[bus].delay
}

/// The delay that is claimed of an output, in ticks.
pub(crate) fn late_of(certificate: &Certificate, output: usize) -> u32
    ensures { result ≡ (output_bound (certificate_rows certificate.now) output).delay }
{
    if output >= certificate.outputs.len() {
        return 0;
    }
    certificate.outputs[output].delay
}

/// The age that is claimed of a label, in ticks.
pub(crate) fn age_of(certificate: &Certificate, label: usize) -> u32
    ensures { result ≡ slice_index (certificate_rows certificate.now).ages label }
{
    if label >= certificate.labels.len() {
        return 0;
    }
    certificate.labels[label].age
}
