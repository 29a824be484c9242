//! Whether a layout has to stand in a text of tables.

/// Whether the keys of a layout have to stand in a text: `frame` of an output, `stale` and `offsets` of a label.
#[derive(Clone, Copy, Debug, PartialEq, Eq)]
pub enum Layout {
    /// They have to, as all others.
    Wanted,
    /// They need not, and nothing there is looked at. Then `most` of a router need not stand either, its `visits` may stand for
    /// several looks in a row, `looks`, and the limit on a label's age may be in microseconds, `max_age_us`.
    Open,
}
