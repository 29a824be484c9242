//! What the page is of.

use dc_page_text::Hole::Text;
use dc_page_text::Html;
use dc_system_text::{ConcentratorText, LinkText};
use dc_tables::Tables;
use dc_ways::{Connection, Member, Ways};

/// A network that is accepted, as the page shows it: each list in the order of the system's text.
#[derive(Clone, Copy)]
pub struct Shown<'a> {
    /// The concentrators, with the names of their files.
    pub concentrators: &'a [ConcentratorText],
    /// The links, by the names of their ends.
    pub links: &'a [LinkText],
    /// The concentrators, with their tables and certificates.
    pub members: &'a [Member],
    /// The links, by the numbers of their ends.
    pub connections: &'a [Connection],
    /// Of each concentrator the ways of its labels, in microseconds.
    pub ways: &'a [Ways],
}

impl<'a> Shown<'a> {
    /// Adds the name of a concentrator; of one that is not there `?`.
    pub fn push_name(&self, html: &mut Html, concentrator: usize) {
        match self.concentrators.get(concentrator) {
            Some(row) => {
                let name = row.name();
                html.put("{}", &[Text(name.as_str())])
            }
            None => html.add("?"),
        }
    }

    /// The tables of a concentrator, where it is there.
    pub fn tables(&self, concentrator: usize) -> Option<&Tables> {
        match self.members.get(concentrator) {
            Some(member) => Some(member.tables()),
            None => None,
        }
    }
}
