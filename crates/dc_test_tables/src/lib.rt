//! The texts that tests share: the small tables with their certificate, by rows of values, and tables of buses that are alike,
//! few or many. No part of the product.
#![tactic(auto)]

mod equal;
mod reading;
mod texts;

pub use equal::{push_equal_certificate, push_equal_tables};
pub use reading::{certificate_of, small_tables, tables_of};
pub use texts::{push_small_certificate, push_small_tables};
