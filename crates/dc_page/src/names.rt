//! Inputs, outputs and labels by their names, and where they stand in the page.

use dc_check::CertificateList;
use dc_document::Name;
use dc_page_text::Hole::Text;
use dc_page_text::Html;
use dc_tables::Tables;

/// What a member of a list is called.
pub fn member(list: CertificateList) -> &'static str {
    match list {
        CertificateList::Inputs => "input",
        CertificateList::Outputs => "output",
        CertificateList::Labels => "label",
    }
}

/// The name of a bus, an output or a label, where there is one of this number.
fn name_of(tables: &Tables, list: CertificateList, index: usize) -> Option<Name> {
    match list {
        CertificateList::Inputs if index < tables.bus_count() => Some(*tables.bus_name(index)),
        CertificateList::Outputs if index < tables.output_count() => Some(*tables.output_name(
            index,
        )),
        CertificateList::Labels if index < tables.label_count() => Some(*tables.label_name(index)),
        _ => None,
    }
}

/// Adds what an input, an output or a label is called, as `input A`.
pub fn push_member(html: &mut Html, tables: &Tables, list: CertificateList, index: usize) {
    if let Some(name) = name_of(tables, list, index) {
        html.put("{} {}", &[Text(member(list)), Text(name.as_str())]);
    }
}

/// Adds the same as a link to its part.
pub fn push_link(html: &mut Html, tables: &Tables, list: CertificateList, index: usize) {
    if let Some(name) = name_of(tables, list, index) {
        let (kind, name) = (Text(member(list)), Text(name.as_str()));
        html.put("<a href='#{}-{}'>{} {}</a>", &[kind, name, kind, name]);
    }
}

/// Adds its name, to which links lead.
pub fn push_place(html: &mut Html, tables: &Tables, list: CertificateList, index: usize) {
    if let Some(name) = name_of(tables, list, index) {
        let (kind, name) = (Text(member(list)), Text(name.as_str()));
        html.put("<span id='{}-{}'>{}</span>", &[kind, name, name]);
    }
}
