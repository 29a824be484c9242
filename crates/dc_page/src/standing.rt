//! What the numbers on a page are.

use dc_busy::LONGEST_WINDOW;

/// What the numbers on a page are, and what was said of them.
#[derive(Clone, Copy)]
pub enum Standing {
    /// Those of a certificate that is accepted.
    Accepted,
    /// Those of one that is refused.
    Refused,
    /// What was found where none is accepted: a delay that is out of range stands for none.
    Sought,
}

impl Standing {
    /// Whether they are those of an accepted certificate.
    pub fn is_accepted(self) -> bool {
        matches!(self, Standing::Accepted)
    }

    /// Whether they are what was found where no certificate is accepted.
    pub fn is_sought(self) -> bool {
        matches!(self, Standing::Sought)
    }

    /// Whether a delay is none: it was sought, and not found.
    pub fn is_none(self, delay: u32) -> bool {
        self.is_sought() && delay > LONGEST_WINDOW
    }
}
