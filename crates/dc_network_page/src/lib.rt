//! The report on a network of concentrators: one page of HTML that holds all of itself, with its drawings as inline SVG.
#![tactic(auto)]

mod bars;
mod drawing;
mod feeds;
mod layout;
mod links;
mod page;
mod parts;
mod promise;
mod sections;
mod shown;
mod style;
mod verdict;

pub use page::network_page;
pub use shown::Shown;
