//! What the finder gets to where something stands in the way, and what is found behind it.

ghost use Rattle.std.specs.Prelude.{◌≡◌, ◌<◌, ◌≤◌, length, map, IfOk};
ghost use Rattle.dc_cert.specs.Bounds.{certificate_rows};
ghost use Rattle.dc_cert.specs.NamedRows.{named_input, named_output, named_rows};
ghost use Rattle.dc_check.specs.Verdict.{IsSized, job_count};
ghost use Rattle.dc_find.specs.Found.{AreFoundInputs, AreFoundOutputs, IsFound, IsFoundInput, IsFoundOutput};
ghost use Rattle.dc_find.specs.Reached.{IsReached, jobs_reached};
ghost use Rattle.dc_find.specs.Ways.{IsFirstInTheWay, StandsInTheWay};

use crate::fault::{FindFault, Queue};
use crate::queues::{InputNumbers, Times, least_input, least_output};
use crate::rows::{label_rows, named_input_row, named_output_row};
use dc_busy::LONGEST_WINDOW;
use dc_cert::{Certificate, InputRow, OutputRow};
use dc_tables::Tables;
use std::alloc::{AllocError, Global};

/// What the finder reached before a fault, and what is found behind it.
#[derive(Debug, Drop)]
pub struct Reached {
    /// A row for each input, output and label of the tables, with its name. An input and an output have their least
    /// numbers; where no window closes the longest window, and a delay that is out of range stands for none. A label has
    /// the least age for the delays that stand here.
    pub certificate: Certificate,
    /// How many of the inputs, the outputs and the labels, in one row, were reached: a window of each input and output
    /// among them closes.
    pub jobs: usize,
}

/// What stands for the times where no window closes: the longest window, and a delay that is out of range.
const NO_TIMES: Times = Times {
    window: LONGEST_WINDOW,
    delay: LONGEST_WINDOW + 1,
};

/// What stands for the numbers where no window closes.
const NO_NUMBERS: InputNumbers = InputNumbers {
    times: NO_TIMES,
    backlog: 0,
};

/// How many jobs are reached before a fault.
fn jobs_before(tables: &Tables, fault: FindFault) -> usize
    requires { StandsInTheWay tables.now fault }
    ensures jobs { result ≡ jobs_reached tables.now fault }
    ensures few { result ≤ job_count tables.now }
{
    tables.valid();
    let buses = tables.bus_count();
    match fault {
        FindFault::WindowNeverCloses(Queue::Input(bus)) => bus,
        FindFault::WindowNeverCloses(Queue::Output(output)) => buses + output,
        FindFault::QueueTooShort(bus) => bus + 1,
        FindFault::LabelRule(_, _) => buses + tables.output_count() + tables.label_count(),
        FindFault::Memory => 0,
    }
}

/// The row of an input with what is found of it.
fn found_input(tables: &Tables, bus: usize) -> InputRow
    requires { bus < length tables.now.buses }
    ensures { IsFoundInput tables.now bus (named_input result) }
{
    let found = least_input(
        tables,
        bus,
        &tables.bus_bound(bus),
        &tables.bus_service(bus),
    );
    match found {
        None => named_input_row(tables, bus, NO_NUMBERS),
        Some(numbers) => named_input_row(tables, bus, numbers),
    }
}

/// The row of an output with what is found of it.
fn found_output(tables: &Tables, output: usize) -> OutputRow
    requires { output < length tables.now.outputs }
    ensures { IsFoundOutput tables.now output (named_output result) }
{
    let found = least_output(
        tables,
        output,
        &tables.output_bound(output),
        &tables.output_service(output),
    );
    match found {
        None => named_output_row(tables, output, NO_TIMES),
        Some(times) => named_output_row(tables, output, times),
    }
}

/// The rows of the inputs with what is found of them.
fn found_inputs(alloc: Global, tables: &Tables) -> Result<Vec<InputRow>, AllocError>
    ensures { IfOk result (λ v. AreFoundInputs tables.now (map named_input v.items)) }
{
    let mut rows = Vec::new(alloc);
    for bus in 0..tables.bus_count() {
        rows.push(found_input(tables, bus))?;
    }
    Ok(rows)
}

/// The rows of the outputs with what is found of them.
fn found_outputs(alloc: Global, tables: &Tables) -> Result<Vec<OutputRow>, AllocError>
    ensures { IfOk result (λ v. AreFoundOutputs tables.now (map named_output v.items)) }
{
    let mut rows = Vec::new(alloc);
    for output in 0..tables.output_count() {
        rows.push(found_output(tables, output))?;
    }
    Ok(rows)
}

/// What [`find`](crate::find) reached before the fault with which it ended: the least numbers of the inputs and outputs
/// before it; of its input too, where the queue is too short, and of all, where a rule on a label is broken. It looks
/// behind the fault too, so that each input and output of which a window closes has its least numbers.
///
/// # Errors
/// `AllocError` where an allocation failed.
pub fn reach(alloc: Global, tables: &Tables, fault: FindFault) -> Result<Reached, AllocError>
    requires { IsFirstInTheWay tables.now fault }
    ensures jobs { IfOk result (λ r. r.jobs ≡ jobs_reached tables.now fault) }
    ensures few { IfOk result (λ r. r.jobs ≤ job_count tables.now) }
    ensures reached { IfOk result (λ r. IsReached tables.now r.jobs (named_rows r.certificate)) }
    ensures found { IfOk result (λ r. IsFound tables.now (named_rows r.certificate)) }
    ensures sized { IfOk result (λ r. IsSized tables.now (certificate_rows r.certificate)) }
{
    tables.named();
    let jobs = jobs_before(tables, fault);
    let inputs = found_inputs(alloc, tables)?;
    let outputs = found_outputs(alloc, tables)?;
    let labels = label_rows(alloc, tables, inputs.as_slice())?;
    let certificate = Certificate {
        inputs,
        outputs,
        labels,
    };
    Ok(Reached { certificate, jobs })
}
