//! The line of what stands first in the way of every certificate, as it stands in the page.
ghost use Rattle.std.specs.Prelude.{◌≡◌, ◌<◌, ◌≤◌};
ghost use Rattle.arrayvec.specs.ArrayVec.{array_vec_len};
ghost use Rattle.dc_check.specs.Placed.{member_count};
ghost use Rattle.dc_find.specs.Ways.{StandsInTheWay};
ghost use Rattle.dc_run.specs.Find.{obstacle_text, refusal_text};

use dc_check::CertificateList;
use dc_find::{FindFault, Obstacle, Queue};
use dc_print::{Text, append, append_member};
use dc_tables::Tables;

/// The line up to the name of the bus, the output or the label.
#[tactic(auto, unfolding(dc_run::specs::Find::refusal_text))]
fn refusal(tables: &Tables, obstacle: Obstacle, list: CertificateList, index: usize) -> Text
    requires { index < member_count tables.now list }
    ensures items { result.items ≡ refusal_text tables.now obstacle list index }
    ensures len { array_vec_len result ≤ 34 }
{
    let mut text = Text::new();
    append(&mut text, b"refused ");
    append(&mut text, obstacle.code().as_bytes());
    append(&mut text, b" ");
    append_member(&mut text, tables, list, index);
    text
}

/// The line, as `find` prints it.
pub(crate) fn line_of(tables: &Tables, fault: FindFault) -> Text
    requires { StandsInTheWay tables.now fault }
    ensures { result.items ≡ obstacle_text tables.now fault }
{
    let (inputs, outputs) = (CertificateList::Inputs, CertificateList::Outputs);
    match fault {
        FindFault::WindowNeverCloses(Queue::Input(bus)) => {
            refusal(tables, Obstacle::NoWindowCloses, inputs, bus)
        }
        FindFault::WindowNeverCloses(Queue::Output(output)) => {
            refusal(tables, Obstacle::NoWindowCloses, outputs, output)
        }
        FindFault::QueueTooShort(bus) => refusal(tables, Obstacle::QueueTooSmall, inputs, bus),
        FindFault::LabelRule(label, condition) => {
            let labels = CertificateList::Labels;
            let mut text = refusal(tables, Obstacle::LabelRuleBroken, labels, label);
            append(&mut text, b" ");
            append(&mut text, condition.code().as_bytes());
            text
        }
        FindFault::Memory => Text::new(),
    }
}
