//! Certificates that were refused.
use crate::document::{refused_of, tell_no_document};
use dc_cert::{CertFault, CertRule, Fault, LIST_LIMIT, TextPlace, read_cert};
use dc_explain_text::{
    Fact, Misfit, Refused, tell_absent, tell_misfit, tell_no_table, tell_unknown, tell_version,
};
use dc_tell::{File, Kind};
use std::alloc::Global;

/// The kind of the object at a place, and its number among those of its kind.
fn object_at(place: TextPlace) -> (Kind, usize) {
    match place {
        TextPlace::Top => (Kind::Certificate, 0),
        TextPlace::Inputs(index) => (Kind::InputClaim, index),
        TextPlace::Outputs(index) => (Kind::OutputClaim, index),
        TextPlace::Labels(index) => (Kind::LabelClaim, index),
    }
}

/// The lists of a certificate.
static LISTS: [(Kind, &'static str); 3] = [
    (Kind::InputClaim, "inputs"),
    (Kind::OutputClaim, "outputs"),
    (Kind::LabelClaim, "labels"),
];

/// Tells of a list that is too long.
fn tell_long_list(refused: &mut Refused<'_>) -> bool {
    for (kind, name) in &LISTS {
        let count = refused.tables_of(*kind);
        if count > LIST_LIMIT {
            refused.say(
                "`{}` has {}, and {} are the most{}\nhelp: tables that can be read have no more of any kind",
                &[
                    Fact::Word(name),
                    Fact::Several(count as u64, "member", "members"),
                    Fact::Number(LIST_LIMIT as u64),
                    Fact::Place(0, name),
                ],
            );
            return true;
        }
    }
    false
}

/// Tells what there is to say of a rule.
fn tell(refused: &mut Refused<'_>, rule: CertRule) -> bool {
    match rule {
        CertRule::VersionUnknown => tell_version(refused),
        CertRule::KeyAbsent => tell_absent(refused),
        CertRule::KeyUnknown => tell_unknown(refused),
        CertRule::WrongKind => tell_no_table(refused) || tell_misfit(refused, Misfit::Kind),
        CertRule::ListOrNameOutOfBounds if refused.row == 0 => tell_long_list(refused),
        CertRule::ListOrNameOutOfBounds => tell_misfit(refused, Misfit::Spelling),
        CertRule::NotJson => {
            tell_no_document(refused);
            true
        }
    }
}

/// Tells the rule alone, where its object stands.
fn tell_plainly(refused: &mut Refused<'_>, code: &'static str) {
    let row = refused.row;
    refused.say(
        "{} is not what a certificate has there{}\nhelp: `dc429 explain {}` says what this rule asks for",
        &[Fact::Row(row), Fact::Place(row, ""), Fact::Word(code)],
    );
}

/// Explains why a text gives no certificate, by its fault; nothing where memory was refused.
pub fn explain_certificate(alloc: Global, file: File<'_>, fault: Fault) -> Option<String> {
    let is_document = fault.rule != CertRule::NotJson;
    let Some(mut refused) = refused_of(alloc, file, Kind::Certificate, is_document) else {
        return None;
    };
    let (kind, index) = object_at(fault.place);
    let is_there = refused.begin(fault.rule.code(), kind, index);
    if !is_there || !tell(&mut refused, fault.rule) {
        tell_plainly(&mut refused, fault.rule.code());
    }
    if is_document {
        refused.say(
            "\nhelp: or let `dc429 find TABLES > FILE` write a certificate: its numbers are the least that are accepted",
            &[],
        );
    }
    refused.finish()
}

/// Explains why a text gives no certificate; nothing where it gives one, or memory was refused.
pub fn explain_no_certificate(alloc: Global, file: File<'_>) -> Option<String> {
    match read_cert(alloc, file.text) {
        Err(CertFault::Unreadable(fault)) => explain_certificate(alloc, file, fault),
        _ => None,
    }
}
