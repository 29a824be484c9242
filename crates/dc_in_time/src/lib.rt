//! What an accepted certificate means in microseconds.
#![tactic(auto)]

mod documents;
mod in_time;
pub mod laws;

pub use documents::keeps_its_documents_time;
pub use in_time::keeps_its_claims_in_time;
