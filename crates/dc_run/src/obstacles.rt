//! The printed line of what stands in the way of every certificate.
ghost use Rattle.std.specs.Prelude.{◌≡◌, ◌≢◌, ◌++◌, ◌+◌, ◌<◌, ◌≤◌};
ghost use Rattle.arrayvec.specs.ArrayVec.{array_vec_len};
ghost use Rattle.dc_check.specs.Placed.{member_count};
ghost use Rattle.dc_find.specs.Ways.{StandsInTheWay};
ghost use Rattle.dc_run.specs.Find.{obstacle_text, refusal_text};

use dc_check::CertificateList;
use dc_find::{FindFault, Obstacle, Queue};
use dc_print::{Text, append, append_member};
use dc_tables::Tables;

/// The line of what stands in the way at a bus, an output or a label.
#[tactic(auto, unfolding(crate::specs::Find::refusal_text))]
fn print_refusal(
    text: &mut Text,
    tables: &Tables,
    obstacle: Obstacle,
    list: CertificateList,
    index: usize,
)
    requires { index < member_count tables.now list }
    ensures items { text.new.items ≡ refusal_text tables.now obstacle list index }
    ensures len { array_vec_len text.new ≤ 34 }
{
    text.clear();
    append(text, b"refused ");
    append(text, obstacle.code().as_bytes());
    append(text, b" ");
    append_member(text, tables, list, index);
}

/// The line of what stands in the way.
pub fn print_obstacle(text: &mut Text, tables: &Tables, fault: FindFault)
    requires { fault ≢ FindFault.Memory → StandsInTheWay tables.now fault }
    ensures { text.new.items ≡ obstacle_text tables.now fault }
{
    match fault {
        FindFault::WindowNeverCloses(Queue::Input(bus)) => {
            print_refusal(
                text,
                tables,
                Obstacle::NoWindowCloses,
                CertificateList::Inputs,
                bus,
            );
        }
        FindFault::WindowNeverCloses(Queue::Output(output)) => {
            print_refusal(
                text,
                tables,
                Obstacle::NoWindowCloses,
                CertificateList::Outputs,
                output,
            );
        }
        FindFault::QueueTooShort(bus) => {
            print_refusal(
                text,
                tables,
                Obstacle::QueueTooSmall,
                CertificateList::Inputs,
                bus,
            );
        }
        FindFault::LabelRule(label, condition) => {
            print_refusal(
                text,
                tables,
                Obstacle::LabelRuleBroken,
                CertificateList::Labels,
                label,
            );
            append(text, b" ");
            append(text, condition.code().as_bytes());
        }
        FindFault::Memory => text.clear(),
    }
}
