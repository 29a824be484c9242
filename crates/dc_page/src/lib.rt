//! The report on a certificate: one page of HTML that holds all of itself, with its plots as inline SVG.
#![tactic(auto)]

mod alike;
mod claims;
mod drift;
mod facts;
mod frame;
mod html;
mod identity;
mod input;
mod known;
mod labels;
mod mends;
mod names;
mod output;
mod plot;
mod rules;
mod standing;
mod style;
mod summary;
mod tight;
mod time;
mod verdict;

pub use drift::{Drift, Drifted, LabelDrift, SourceDrift, WireDrift};
pub use html::{page, page_of, page_with_drift, page_with_section, sought_back, sought_front};
pub use identity::{Identity, NamedText};
