//! Tables that were refused.
use crate::counts::tell_count;
use crate::document::{refused_of, tell_no_document};
use crate::names::{tell_no_name, tell_no_parameter, tell_orphans};
use crate::numbers::{tell_interval, tell_reversed};
use crate::offsets::{tell_offset, tell_offset_twice};
use crate::pace::{tell_output, tell_router};
use crate::twins::{tell_source_twice, tell_twin};
use crate::visits::{tell_formats, tell_visits};
use dc_document::{Section, TableFault, TableRule};
use dc_explain_text::{
    Misfit, Refused, tell_absent, tell_misfit, tell_no_table, tell_unknown, tell_version,
};
use dc_tell::{Explanation, File, Kind, Value};
use std::alloc::Global;
use std::mem;

/// The kind of a table.
fn kind_of(section: Section) -> Kind {
    match section {
        Section::Top => Kind::Top,
        Section::Parameter => Kind::Parameter,
        Section::Bus => Kind::Bus,
        Section::Stream => Kind::Stream,
        Section::Router => Kind::Router,
        Section::Output => Kind::Output,
        Section::Label => Kind::Label,
    }
}

/// Tells what there is to say of a rule on several values.
fn tell_rule(out: &mut Explanation, refused: &Refused<'_>, rule: TableRule) -> bool {
    match rule {
        TableRule::IntervalReversed => tell_reversed(out, refused),
        TableRule::MinimumBelowOneTick => tell_interval(out, refused, true),
        TableRule::NoOutputInterval => tell_interval(out, refused, false),
        TableRule::ParameterAbsent => tell_no_parameter(out, refused),
        TableRule::FormatsDiffer => tell_formats(out, refused),
        TableRule::BusNotVisitedByOne => tell_visits(out, refused),
        TableRule::RouterCannotKeepPace => tell_router(out, refused),
        TableRule::OutputCannotKeepPace => tell_output(out, refused),
        TableRule::OffsetPastFrame => tell_offset(out, refused),
        TableRule::OffsetDoubled => tell_offset_twice(out, refused),
        TableRule::NameAbsent => tell_no_name(out, refused),
        TableRule::SourceDoubled => tell_source_twice(out, refused),
        TableRule::ParameterDoubled
        | TableRule::NameDoubled
        | TableRule::StreamsOverlap
        | TableRule::LabelDoubled => tell_twin(out, refused, rule),
        _ => false,
    }
}

/// Tells what there is to say of a rule on the shape of the text; of none, and false, where it is no such rule.
fn tell_shape(refused: &mut Refused<'_>, rule: TableRule) -> bool {
    match rule {
        TableRule::NotToml => {
            tell_no_document(refused);
            true
        }
        TableRule::VersionUnknown => tell_version(refused),
        TableRule::KeyAbsent => tell_absent(refused),
        TableRule::KeyUnknown => tell_unknown(refused),
        TableRule::WrongKind => tell_no_table(refused) || tell_misfit(refused, Misfit::Kind),
        TableRule::NumberOutOfRange => tell_misfit(refused, Misfit::Range),
        TableRule::WrongSpelling => tell_misfit(refused, Misfit::Spelling),
        TableRule::CountOutOfRange => tell_count(refused),
        _ => false,
    }
}

/// Tells the rule alone, where its table stands.
fn tell_plainly(out: &mut Explanation, refused: &Refused<'_>, rule: TableRule) {
    refused.fill(out, "{row}: ", &[]);
    out.put(Value::Text(rule.explanation()));
    refused.fill(out, "{place own }\nhelp: `dc429 explain ", &[]);
    out.say("{}` says more of this rule", &[Value::Text(rule.code())]);
}

/// Goes on behind what was told of the shape of the text, if it was: of a parameter that is spelled wrongly with whom it may
/// be meant for, else with the rule, on several values. Of what is written by escape sequences only its shape is told.
fn tell_behind(out: &mut Explanation, refused: &Refused<'_>, rule: TableRule, is_told: bool) {
    let is_parameter = matches!(refused.kind(refused.row), Kind::Parameter);
    if is_parameter && rule == TableRule::WrongSpelling {
        tell_orphans(
            out,
            refused,
            "\nnote: {row 0} in line {line 0 label} has no parameter, with label {at 0 label} and equipment code {at 0 equipment}: this one may be meant for it",
        );
    }
    if is_told {
        return;
    }
    if refused.layout.is_escaped || !tell_rule(out, refused, rule) {
        tell_plainly(out, refused, rule);
    }
}

/// Explains why a text gives no tables, by its fault; nothing where memory was refused.
pub fn explain_tables(alloc: Global, file: File<'_>, fault: TableFault) -> Option<String> {
    let is_document = fault.rule != TableRule::NotToml;
    let Some(mut refused) = refused_of(alloc, file, Kind::Top, is_document) else {
        return None;
    };
    let _ = refused.begin(fault.rule.code(), kind_of(fault.section), fault.index);
    let is_told = tell_shape(&mut refused, fault.rule);
    let mut out = mem::replace(&mut refused.out, Explanation::new(alloc));
    tell_behind(&mut out, &refused, fault.rule, is_told);
    out.finish()
}
