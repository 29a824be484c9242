//! The lists of tables whose members have names.

/// A list of the tables whose members have names and numbers.
#[derive(Clone, Copy, Debug, PartialEq, Eq)]
pub enum NameList {
    /// The receive buses.
    Buses,
    /// The streams of all buses.
    Streams,
    /// The routers.
    Routers,
    /// The outputs.
    Outputs,
    /// The labels of all outputs.
    Labels,
}
