//! What the times of a stream's words and of a wire's tell, in one pass and in constant memory.
#![tactic(auto)]

pub mod laws;
mod stream;
mod timing;
mod wire;

pub use stream::StreamGauge;
pub use timing::StreamTiming;
pub use wire::WireGauge;
