//! Names of a certificate that are not the tables', once each and in their order: C01.
use crate::names::{name_of, written_at};
use crate::teller::About;
use dc_check::CertificateList;
use dc_document::Section;
use dc_tell::Explanation;
use dc_tell::Value::{Number, Text};

/// More names than a list has.
const MOST: usize = 4_096;

/// What a list of a certificate and its members are called: the list, one of the tables' and several, and their kind.
fn words_of(list: CertificateList) -> (&'static str, &'static str, &'static str, Section) {
    match list {
        CertificateList::Inputs => ("inputs", "bus", "buses", Section::Bus),
        CertificateList::Outputs => ("outputs", "output", "outputs", Section::Output),
        CertificateList::Labels => ("labels", "label", "labels", Section::Label),
    }
}

/// The first place at which the names of a list differ, and at how many places they do.
fn differing(of: &About<'_>, list: CertificateList, section: Section) -> (usize, u64) {
    let (mut first, mut count) = (MOST, 0u64);
    for place in 0..MOST {
        if name_of(of.tables, section, place) != written_at(of.certificate, list, place) {
            first = first.min(place);
            count = count.saturating_add(1);
        }
    }
    (first, count)
}

/// The number in the tables of a name, from 1; 0 where they do not have it.
fn number_of(of: &About<'_>, section: Section, name: &str) -> u64 {
    for place in 0..MOST {
        let wanted = name_of(of.tables, section, place);
        if wanted.is_empty() {
            break;
        }
        if wanted == name {
            return (place as u64).saturating_add(1);
        }
    }
    0
}

/// Tells of a name that stands at the place of another what it is, and how the list is to be, which differs at so many places.
fn tell_order(
    out: &mut Explanation,
    list: CertificateList,
    name: &str,
    wanted: &str,
    number: u64,
    count: u64,
) {
    let (kind, key, many, _) = words_of(list);
    if number != 0 {
        out.note(
            "{} `{}` is number {} of the tables",
            &[Text(key), Text(name), Number(number)],
        );
    } else if !name.is_empty() && !wanted.is_empty() {
        out.help(
            "write `{}` in place of `{}`, which the tables do not have",
            &[Text(wanted), Text(name)],
        );
    }
    if count > 1 {
        out.note(
            "this is the first of {} places of the {} where they differ",
            &[Number(count), Text(kind)],
        );
    }
    let sentence = if out.is_helped() {
        "or list the {} once each, in the order of the tables, or let `dc429 find` write the certificate"
    } else {
        "list the {} once each, in the order of the tables, or let `dc429 find` write the certificate"
    };
    out.help(sentence, &[Text(many)]);
}

/// C01: the names of a list are not the tables', once each and in their order.
pub(crate) fn tell_names(out: &mut Explanation, of: &About<'_>, list: CertificateList) {
    let (kind, key, many, section) = words_of(list);
    let (place, count) = differing(of, list, section);
    let name = written_at(of.certificate, list, place);
    let wanted = name_of(of.tables, section, place);
    let number = number_of(of, section, name);
    let sentence = if wanted.is_empty() {
        "number {} of the {}, `{}`, is more than the tables have"
    } else if name.is_empty() {
        "number {} of the {}{}, {} `{}`, is missing"
    } else {
        "number {} of the {} is `{}`, and the tables have {} `{}`"
    };
    out.begin("C01");
    out.say(
        sentence,
        &[
            Number(place.saturating_add(1) as u64),
            Text(kind),
            Text(name),
            Text(key),
            Text(wanted),
        ],
    );
    of.tell_place(out, true, section, place, key);
    tell_order(out, list, name, wanted, number, count);
}
