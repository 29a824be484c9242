//! Why no certificate was found, as plain numbers too.
ghost use Rattle.std.specs.Prelude.{◌≡◌};
ghost use Rattle.dc_texts.specs.Reports.{not_found_report, obstacle_report};
ghost use Rattle.dc_texts.specs.declared.fault.NotFound.{NotFound};

use dc_document::TableFault;
use dc_engine::{OpenFault, Report, condition_code};
use dc_find::{FindFault, Queue};

/// Why no certificate was found.
#[derive(Clone, Copy, Debug, PartialEq, Eq)]
pub enum NotFound {
    /// An allocation failed.
    Memory,
    /// The first fault of the tables' text.
    Tables(TableFault),
    /// What stands first in the way of every certificate.
    Obstacle(FindFault),
}

/// The report of what stands in the way: its code, the list and the member of it.
fn obstructed(code: u32, place: u32, index: usize, window: u32) -> Report
    ensures { result ≡ record { kind = 70; code = code; place = place; window = window; index = index } }
{
    Report {
        kind: 70,
        code,
        place,
        window,
        index,
    }
}

/// What stands in the way as numbers.
fn obstacle(fault: FindFault) -> Report
    ensures { result ≡ obstacle_report fault }
{
    match fault {
        FindFault::WindowNeverCloses(Queue::Input(bus)) => obstructed(1, 1, bus, 0),
        FindFault::WindowNeverCloses(Queue::Output(output)) => obstructed(1, 2, output, 0),
        FindFault::QueueTooShort(bus) => obstructed(2, 1, bus, 0),
        FindFault::LabelRule(label, condition) => {
            obstructed(3, 3, label, condition_code(condition))
        }
        FindFault::Memory => OpenFault::Memory.report(),
    }
}

impl NotFound {
    /// The fault as numbers.
    pub fn report(self) -> Report
        ensures { result ≡ not_found_report self }
    {
        match self {
            NotFound::Memory => OpenFault::Memory.report(),
            NotFound::Tables(fault) => OpenFault::Tables(fault).report(),
            NotFound::Obstacle(fault) => obstacle(fault),
        }
    }
}
