//! What a page is of: the texts that were read, and the program.

use dc_page_text::Hole::Text;
use dc_page_text::Html;

/// A text that a page is of.
#[derive(Clone, Copy, Debug)]
pub struct NamedText<'a> {
    /// Its name, whatever its characters.
    pub name: &'a str,
    /// The digits of its SHA-256.
    pub digest: &'a str,
}

/// What a page is of.
#[derive(Clone, Copy, Debug)]
pub struct Identity<'a> {
    /// The tables.
    pub tables: NamedText<'a>,
    /// The certificate, where one was given; else it is the least one.
    pub certificate: Option<NamedText<'a>>,
    /// What was observed of a run, where it was given: the page has a section on it, to which its head leads.
    pub observed: Option<NamedText<'a>>,
    /// The version of the program.
    pub version: &'a str,
    /// The sum of the logic that it was proved by.
    pub logic: &'a str,
}

/// Adds a text, behind what it is.
fn push_text(html: &mut Html, what: &str, text: NamedText<'_>) {
    html.put(
        "<p>{}: <b>{}</b><br/><small>SHA-256 <code>{}</code></small></p>\n",
        &[Text(what), Text(text.name), Text(text.digest)],
    );
}

/// Adds what the page is of.
pub fn push_identity(html: &mut Html, identity: &Identity<'_>) {
    html.add("<div class='card'>");
    push_text(html, "Tables", identity.tables);
    match identity.certificate {
        Some(certificate) => push_text(html, "Certificate", certificate),
        None => {
            html.add(
                "<p>Certificate: none given; where one is accepted, the least one is shown</p>\n",
            )
        }
    }
    if let Some(observed) = identity.observed {
        push_text(html, "Observed", observed);
        html.add("<p><a href='#seen'>What was seen beside what is certified</a></p>\n");
    }
    html.put(
        "<p class='s'>dc429 {}, proved by the logic <code>{}</code></p></div>\n",
        &[Text(identity.version), Text(identity.logic)],
    );
}
