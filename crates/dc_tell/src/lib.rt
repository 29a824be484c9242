//! How an explanation is written: what is wrong, where it stands, and what to do; and where the tables and keys of a
//! text in TOML or JSON stand, as its reader wrote them. No program reads it, and no clause speaks of it but that it
//! ends and is safe.
#![tactic(auto)]

mod explanation;
mod kinds;
mod layout;
mod letters;
mod likeness;
mod place;
mod tokens;
mod walker;

pub use explanation::{Explanation, File, Value};
pub use kinds::{Kind, called, is_of_certificate, kind_at, naming, top_of};
pub use layout::{Form, Key, Layout, Row, unquoted};
pub use likeness::Names;
pub use place::{Place, place_at};
pub use tokens::{Span, Token, tokens_of};
pub use walker::{layout_below, layout_of};
