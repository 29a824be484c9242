//! The margins of all inputs and outputs, each worked out once.

ghost use Rattle.std.specs.Prelude.{◌≡◌, ◌<◌, IfOk, length};

use crate::standing::Standing;
use dc_check::Fitted;
use dc_margin::{
    InputMargins, LabelMargins, OutputMargins, input_margins, label_margins, output_margins,
};
use std::alloc::{AllocError, Global};

/// The margins of an input; where no window of it closes, that of C03 alone.
fn input_known(fitted: &Fitted<'_>, bus: usize, standing: Standing) -> InputMargins
    requires there { bus < length fitted.now.tables.now.buses }
{
    fitted.tables.valid();
    let margins = input_margins(fitted, bus);
    if !standing.is_none(fitted.certificate.inputs[bus].delay) {
        return margins;
    }
    InputMargins {
        window: None,
        delay_limit: None,
        closes: margins.closes,
        backlog: None,
        queue: None,
        delay: None,
    }
}

/// The margins of an output; where no window of it closes, that of C03 alone.
fn output_known(fitted: &Fitted<'_>, output: usize, standing: Standing) -> OutputMargins
    requires there { output < length fitted.now.tables.now.outputs }
{
    let margins = output_margins(fitted, output);
    if !standing.is_none(fitted.certificate.outputs[output].delay) {
        return margins;
    }
    OutputMargins {
        window: None,
        delay_limit: None,
        closes: margins.closes,
        delay: None,
    }
}

/// The margins of a label; where no window of a bus of its sources closes, those of C08 and C09 alone.
pub fn label_known(fitted: &Fitted<'_>, label: usize, standing: Standing) -> LabelMargins
    requires there { label < length fitted.now.tables.now.labels }
{
    let margins = label_margins(fitted, label);
    if !standing.is_sought() || margins.age.is_some() {
        return margins;
    }
    LabelMargins {
        soon: margins.soon,
        late: margins.late,
        age: None,
        age_limit: None,
        fresh: None,
    }
}

/// The margins of all inputs.
pub fn inputs_known(
    alloc: Global,
    fitted: &Fitted<'_>,
    standing: Standing,
) -> Result<Vec<InputMargins>, AllocError>
    ensures { IfOk result (λ v. length v.items ≡ length fitted.now.tables.now.buses) }
{
    let mut margins = Vec::new(alloc);
    for bus in 0..fitted.tables.bus_count() {
        margins.push(input_known(fitted, bus, standing))?;
    }
    Ok(margins)
}

/// The margins of all outputs.
pub fn outputs_known(
    alloc: Global,
    fitted: &Fitted<'_>,
    standing: Standing,
) -> Result<Vec<OutputMargins>, AllocError>
    ensures { IfOk result (λ v. length v.items ≡ length fitted.now.tables.now.outputs) }
{
    let mut margins = Vec::new(alloc);
    for output in 0..fitted.tables.output_count() {
        margins.push(output_known(fitted, output, standing))?;
    }
    Ok(margins)
}
