//! The rule on names: a certificate lists the tables' buses, outputs and labels, once each and in their order.

ghost use Rattle.std.specs.Prelude.{◌≡◌, ℕ, ◌<◌, [], List, IfNone, map, slice_index_or};
ghost use Rattle.dc_cert.specs.Bounds.{certificate_rows};
ghost use Rattle.dc_cert.specs.NamedRows.{named_rows};
ghost use Rattle.dc_check.specs.Names.{names_of};
ghost use Rattle.dc_check.specs.Placed.{member_count};
ghost use Rattle.dc_check.specs.Verdict.{IsSized, is_named, misnaming};
ghost use Rattle.dc_document.specs.Names.{text_of};

use crate::fault::{CertificateList, CheckFault, Condition};
use crate::rules::{fault, fault_unless, first_fault};
use dc_cert::{Certificate, InputRow, LabelRow, OutputRow};
use dc_document::Name;
use dc_tables::Tables;

/// The fault of a certificate's names, if any: `NamesDiffer` at the inputs, the outputs or the labels. Where there is
/// none, the certificate has as many rows of each kind as the tables.
pub fn misnamed(tables: &Tables, certificate: &Certificate) -> Option<CheckFault>
    ensures exact { result ≡ misnaming tables.now (named_rows certificate.now) }
    ensures sized { IfNone result (IsSized tables.now (certificate_rows certificate.now)) }
{
    first_fault(&[
        fault_unless(
            are_named(tables, CertificateList::Inputs, &certificate.inputs),
            fault(CertificateList::Inputs, 0, Condition::NamesDiffer),
        ),
        fault_unless(
            are_named(tables, CertificateList::Outputs, &certificate.outputs),
            fault(CertificateList::Outputs, 0, Condition::NamesDiffer),
        ),
        fault_unless(
            are_named(tables, CertificateList::Labels, &certificate.labels),
            fault(CertificateList::Labels, 0, Condition::NamesDiffer),
        ),
    ])
}

/// The claim for an input, an output or a label, with its name.
trait Row {
    // its name
    ghost name: { Self → List ℕ };

    fn name(&self) -> &Name
        ensures { result.now ≡ name self.now };
}

impl Row for InputRow {
    ghost name = { λ row. row.bus };

    fn name(&self) -> &Name {
        &self.bus
    }
}

impl Row for OutputRow {
    ghost name = { λ row. row.output };

    fn name(&self) -> &Name {
        &self.output
    }
}

impl Row for LabelRow {
    ghost name = { λ row. row.label };

    fn name(&self) -> &Name {
        &self.label
    }
}

/// How many inputs, outputs or labels the tables have.
fn count(tables: &Tables, list: CertificateList) -> usize
    ensures { result ≡ member_count tables.now list }
{
    match list {
        CertificateList::Inputs => tables.bus_count(),
        CertificateList::Outputs => tables.output_count(),
        CertificateList::Labels => tables.label_count(),
    }
}

/// The name of an input, an output or a label of the tables.
fn name_of(tables: &Tables, list: CertificateList, number: usize) -> &Name
    requires { number < member_count tables.now list }
    ensures { result.now ≡ slice_index_or (names_of tables.now list) number [] }
{
    match list {
        CertificateList::Inputs => tables.bus_name(number),
        CertificateList::Outputs => tables.output_name(number),
        CertificateList::Labels => tables.label_name(number),
    }
}

/// Whether these rows are of the tables' inputs, outputs or labels, once each and in their order.
fn are_named<T: Row>(tables: &Tables, list: CertificateList, rows: &[T]) -> bool
    ensures { result ≡ is_named (member_count tables.now list) (map (λ row. text_of (T.name row)) rows.now) (names_of tables.now list) }
{
    tables.named();
    if rows.len() != count(tables, list) {
        return false;
    }
    for (number, row) in rows.iter().enumerate() {
        let name = name_of(tables, list, number);
        if row.name().text() != name.text() {
            return false;
        }
    }
    true
}
