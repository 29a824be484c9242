//! Lists whose members say the same, one by one.
ghost use Rattle.std.specs.Bool.{Decides};
ghost use Rattle.dc_same_tables.specs.Pairs.{ArePaired};

/// What may say the same as another one of its kind.
pub(crate) trait Member {
    // When two do.
    ghost is_said: { Self → Self → Type 0 };

    /// Whether this one says the same as another one.
    fn says_the_same(&self, other: &Self) -> bool
        ensures { Decides result (is_said self.now other.now) };
}

/// Whether the members of two lists say the same, one by one.
pub(crate) fn are_paired<T: Member>(ones: &[T], others: &[T]) -> bool
    ensures { Decides result (ArePaired T.is_said ones.now others.now) }
{
    if ones.len() != others.len() {
        return false;
    }
    for (place, one) in ones.iter().enumerate() {
        let Some(other) = others.get(place) else {
            return false;
        };
        if !one.says_the_same(other) {
            return false;
        }
    }
    true
}
