//! The printed line of a verdict, and of a text that can't be read.
ghost use Rattle.std.specs.Prelude.{◌≡◌, ◌++◌, ◌+◌, ◌<◌, ◌≤◌, length};
ghost use Rattle.arrayvec.specs.ArrayVec.{array_vec_len};
ghost use Rattle.dc_cert.specs.Faults.{fault_text};
ghost use Rattle.dc_document.specs.FaultText.{table_fault_text};
ghost use Rattle.dc_check.specs.Placed.{IsPlaced, member_count};
ghost use Rattle.dc_print.specs.Verdicts.{accepted_text, is_of_a_list, list_text, member_name, member_text, names_window, place_text, refused_text, window_text};
ghost use Rattle.std.specs.Prelude.{codes};
ghost use Rattle.dc_document.specs.declared.limits.TheConstants.{NAME_LIMIT};

use crate::text::{Text, append, append_number};
use dc_cert::Fault;
use dc_check::{CertificateList, CheckFault, Condition};
use dc_document::{Section, TableFault};
use dc_tables::Tables;

/// Whether a condition is of a list as a whole.
fn is_of_list(condition: Condition) -> bool
    ensures { result ≡ is_of_a_list condition }
{
    matches!(condition, Condition::NamesDiffer)
}

/// Whether a condition names a window.
fn has_window(condition: Condition) -> bool
    ensures { result ≡ names_window condition }
{
    matches!(
        condition,
        Condition::BacklogTooSmall | Condition::DelayTooSmall
    )
}

/// The name of a list.
fn list(list: CertificateList) -> &'static [u8]
    ensures text { result.now ≡ list_text list }
    ensures short { length result.now ≤ 7 }
{
    match list {
        CertificateList::Inputs => b"inputs",
        CertificateList::Outputs => b"outputs",
        CertificateList::Labels => b"labels",
    }
}

/// What a member of a list is called, and a space.
fn member(list: CertificateList) -> &'static [u8]
    ensures text { result.now ≡ member_text list }
    ensures short { length result.now ≤ 7 }
{
    match list {
        CertificateList::Inputs => b"input ",
        CertificateList::Outputs => b"output ",
        CertificateList::Labels => b"label ",
    }
}

/// The name of a bus, an output or a label.
fn name(tables: &Tables, list: CertificateList, index: usize) -> &[u8]
    requires { index < member_count tables.now list }
    ensures text { result.now ≡ member_name tables.now list index }
    ensures short { length result.now ≤ NAME_LIMIT }
{
    match list {
        CertificateList::Inputs => tables.bus_name(index).text(),
        CertificateList::Outputs => tables.output_name(index).text(),
        CertificateList::Labels => tables.label_name(index).text(),
    }
}

/// Puts what a member of a list is called and its name at the end.
pub fn append_member(text: &mut Text, tables: &Tables, list: CertificateList, index: usize)
    requires room { array_vec_len text.old ≤ 60 }
    requires place { index < member_count tables.now list }
    ensures items { text.new.items ≡ text.old.items ++ member_text list ++ member_name tables.now list index }
    ensures len { array_vec_len text.new ≤ array_vec_len text.old + 23 }
{
    append(text, member(list));
    append(text, name(tables, list, index));
}

/// Puts the window at the end, where the condition names one.
fn append_window(text: &mut Text, fault: CheckFault)
    requires { array_vec_len text.old ≤ 60 }
    ensures { text.new.items ≡ text.old.items ++ window_text fault }
{
    if has_window(fault.condition) {
        append(text, b" window ");
        append_number(text, u64::from(fault.window));
    }
}

/// Puts the place of a fault at the end.
fn append_place(text: &mut Text, tables: &Tables, fault: CheckFault)
    requires room { array_vec_len text.old ≤ 20 }
    requires place { IsPlaced tables.now fault }
    ensures { text.new.items ≡ text.old.items ++ place_text tables.now fault }
{
    if is_of_list(fault.condition) {
        append(text, list(fault.list));
        return;
    }
    append_member(text, tables, fault.list, fault.index);
    append_window(text, fault);
}

/// The line of a refused certificate.
#[tactic(auto, unfolding(crate::specs::Verdicts::refused_text))]
pub fn print_refused(text: &mut Text, tables: &Tables, fault: CheckFault)
    requires { IsPlaced tables.now fault }
    ensures { text.new.items ≡ refused_text tables.now fault }
{
    text.clear();
    append(text, b"refused ");
    append(text, fault.condition.code().as_bytes());
    append(text, b" ");
    append_place(text, tables, fault);
}

/// The line of an accepted certificate.
#[tactic(auto, unfolding(crate::specs::Verdicts::accepted_text))]
pub fn print_accepted(text: &mut Text, tables: &Tables)
    ensures { text.new.items ≡ accepted_text tables.now }
{
    text.clear();
    append(text, b"accepted inputs ");
    append_number(text, tables.bus_count() as u64);
    append(text, b" outputs ");
    append_number(text, tables.output_count() as u64);
    append(text, b" labels ");
    append_number(text, tables.label_count() as u64);
}

/// The line of a certificate's text that can't be read.
pub fn print_cert_fault(text: &mut Text, fault: Fault)
    ensures { text.new.items ≡ codes "unreadable " ++ fault_text fault }
{
    text.clear();
    append(text, b"unreadable ");
    let short = fault.short_text();
    append(text, short.as_slice());
}

/// The line of the first fault of a tables' text.
pub fn print_table_fault(text: &mut Text, fault: TableFault)
    ensures { text.new.items ≡ codes "unreadable " ++ table_fault_text fault }
{
    text.clear();
    append(text, b"unreadable ");
    append(text, fault.rule.code().as_bytes());
    append(text, b" at ");
    append(text, fault.section.text().as_bytes());
    match fault.section {
        Section::Top => {}
        _ => {
            append(text, b" ");
            append_number(text, fault.index as u64);
        }
    }
}
