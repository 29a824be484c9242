//! Margins: how far each condition of a certificate is from failing.

/// What decides a margin.
#[derive(Clone, Copy, Debug, PartialEq, Eq)]
pub enum Decider {
    /// The numbers of the certificate and the tables alone.
    Numbers,
    /// So many ticks of the window: the first number of ticks that leaves no more room.
    Window(u32),
    /// A gap between neighbouring entries of the label, in ticks.
    Gap(u64),
    /// The stream of this number, a source of the label.
    Source(usize),
}

/// How far a condition is from failing.
#[derive(Clone, Copy, Debug, PartialEq, Eq)]
pub struct Margin {
    /// In words or in ticks; negative where the condition fails. `None` for C06 where no delay up to
    /// [`LONGEST_WINDOW`](dc_busy::LONGEST_WINDOW) ticks passes: it fails then too.
    pub slack: Option<i64>,
    /// What decides it.
    pub decider: Decider,
}

/// The margins of an input, in the order in which the verdict looks at them. `None` is a margin that is not told, since
/// it rests on a window or a delay that is out of range.
#[derive(Clone, Copy, Debug, PartialEq, Eq)]
pub struct InputMargins {
    /// C02, in ticks.
    pub window: Option<Margin>,
    /// C07, in ticks.
    pub delay_limit: Option<Margin>,
    /// C03, in words.
    pub closes: Option<Margin>,
    /// C04, in words.
    pub backlog: Option<Margin>,
    /// C05, in words.
    pub queue: Option<Margin>,
    /// C06, in ticks.
    pub delay: Option<Margin>,
}

/// The margins of an output, as those of an input.
#[derive(Clone, Copy, Debug, PartialEq, Eq)]
pub struct OutputMargins {
    /// C02, in ticks.
    pub window: Option<Margin>,
    /// C07, in ticks.
    pub delay_limit: Option<Margin>,
    /// C03, in words.
    pub closes: Option<Margin>,
    /// C06, in ticks.
    pub delay: Option<Margin>,
}

/// The margins of a label, all in ticks, as those of an input.
#[derive(Clone, Copy, Debug, PartialEq, Eq)]
pub struct LabelMargins {
    /// C08.
    pub soon: Option<Margin>,
    /// C09.
    pub late: Option<Margin>,
    /// C10.
    pub age: Option<Margin>,
    /// C11.
    pub age_limit: Option<Margin>,
    /// C12.
    pub fresh: Option<Margin>,
}
