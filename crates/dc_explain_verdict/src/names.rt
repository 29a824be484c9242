//! The names of tables and of a certificate, and where they stand in their texts.
use dc_cert::Certificate;
use dc_check::CertificateList;
use dc_document::Section;
use dc_tables::Tables;
use dc_tell::{Kind, Layout, is_of_certificate, layout_of};
use std::alloc::Global;

/// The name of a table, empty where there is none of this number.
pub(crate) fn name_of(tables: &Tables, section: Section, number: usize) -> &str {
    match section {
        Section::Bus if number < tables.bus_count() => tables.bus_name(number).as_str(),
        Section::Stream if number < tables.stream_count() => tables.stream_name(number).as_str(),
        Section::Router if number < tables.router_count() => tables.router_name(number).as_str(),
        Section::Output if number < tables.output_count() => tables.output_name(number).as_str(),
        Section::Label if number < tables.label_count() => tables.label_name(number).as_str(),
        _ => "",
    }
}

/// The name of this number in a list of the certificate, empty where there is none.
pub(crate) fn written_at(certificate: &Certificate, list: CertificateList, number: usize) -> &str {
    match list {
        CertificateList::Inputs => match certificate.inputs.get(number) {
            None => "",
            Some(row) => row.bus.as_str(),
        },
        CertificateList::Outputs => match certificate.outputs.get(number) {
            None => "",
            Some(row) => row.output.as_str(),
        },
        CertificateList::Labels => match certificate.labels.get(number) {
            None => "",
            Some(row) => row.label.as_str(),
        },
    }
}

/// What the tables of a kind are in their text, and what is claimed of each in that of a certificate.
pub(crate) fn kinds_of(section: Section) -> (Kind, Kind) {
    match section {
        Section::Bus => (Kind::Bus, Kind::InputClaim),
        Section::Output => (Kind::Output, Kind::OutputClaim),
        Section::Router => (Kind::Router, Kind::None),
        _ => (Kind::Label, Kind::LabelClaim),
    }
}

/// Behind how many bytes of a text the value stands at a key of the table or object of this kind and number, or that
/// itself where it has no such key.
pub(crate) fn offset_in(
    layout: &Layout<'_>,
    kind: Kind,
    number: usize,
    key: &str,
) -> Option<usize> {
    let Some(row) = layout.row(kind, number) else {
        return None;
    };
    if let Some(key) = layout.key(row, key.as_bytes()) {
        return Some(key.value.from);
    }
    match layout.rows.get(row) {
        None => None,
        Some(found) => Some(found.at.from),
    }
}

/// The same of a text; nothing where it is not found.
pub(crate) fn offset_of(
    alloc: Global,
    text: &[u8],
    kind: Kind,
    number: usize,
    key: &str,
) -> Option<usize> {
    match layout_of(alloc, text, is_of_certificate(kind)) {
        Some(layout) => offset_in(&layout, kind, number, key),
        None => None,
    }
}
