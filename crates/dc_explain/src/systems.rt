//! Systems that can't be read.
use crate::output::{index_in, word};
use crate::plain::repeat;
use crate::ran::Ran;
use crate::rings::tell_ring;
use crate::system_rules::{tell_no_concentrator, tell_reversed, tell_twin};
use dc_codes::{Kind as Sort, meaning_of};
use dc_explain_text::{
    Misfit, Refused, tell_absent, tell_misfit, tell_no_table, tell_unknown, tell_version,
};
use dc_explain_unreadable::{refused_of, tell_count, tell_no_document};
use dc_tell::Value::Text;
use dc_tell::{Explanation, Kind};

/// The kind of table that a word of the answer names.
fn kind_named(word: &str) -> Kind {
    match word {
        "concentrator" => Kind::Concentrator,
        "link" => Kind::Link,
        _ => Kind::System,
    }
}

/// Tells what there is to say of a rule on the shape of the text.
fn tell_shape(refused: &mut Refused<'_>, code: &str) -> bool {
    match code {
        "N01" => {
            tell_no_document(refused);
            true
        }
        "N02" => tell_version(refused),
        "N03" => tell_absent(refused),
        "N04" => tell_unknown(refused),
        "N05" => tell_no_table(refused) || tell_misfit(refused, Misfit::Kind),
        "N06" => tell_misfit(refused, Misfit::Range),
        "N07" => tell_misfit(refused, Misfit::Spelling),
        "N08" => tell_count(refused),
        _ => false,
    }
}

/// Tells what there is to say of a rule on several tables. Of what is written by escape sequences nothing is.
fn tell_rule(out: &mut Explanation, refused: &Refused<'_>, code: &str) -> bool {
    if refused.layout.is_escaped {
        return false;
    }
    match code {
        "N09" => tell_twin(out, refused, "name"),
        "N10" => tell_no_concentrator(out, refused),
        "N11" => tell_twin(out, refused, "to"),
        "N12" => tell_reversed(out, refused),
        "N13" => tell_ring(out, refused),
        _ => false,
    }
}

/// Tells the rule alone, where its table stands.
fn tell_alone(out: &mut Explanation, refused: &Refused<'_>, code: &str) {
    let Some(meaning) = meaning_of(Sort::System, code) else {
        return;
    };
    refused.fill(out, "{row}: ", &[]);
    out.put(Text(meaning.means));
    refused.fill(out, "{place own }", &[]);
    out.help("{}", &[Text(meaning.mend)]);
}

/// Tells of a system that can't be read.
pub(crate) fn tell_system(out: &mut Explanation, ran: &Ran<'_>) {
    let code = word(ran.line, 1);
    let (file, _) = ran.files();
    let is_document = code != "N01";
    let Some(mut refused) = refused_of(ran.alloc, file, Kind::System, is_document) else {
        return;
    };
    let kind = kind_named(word(ran.line, 3));
    let _ = refused.begin(code, kind, index_in(word(ran.line, 4)));
    if tell_shape(&mut refused, code) {
        repeat(out, refused.finish());
        return;
    }
    out.begin(code);
    if !tell_rule(out, &refused, code) {
        tell_alone(out, &refused, code);
    }
}
