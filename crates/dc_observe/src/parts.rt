//! Parts before any event.
ghost use Rattle.std.specs.Prelude.{IfOk};
ghost use Rattle.dc_oracle.specs.Fresh.{AllMade};

use std::alloc::{AllocError, Global};

/// So many of the same value.
pub fn all_of<T: Copy>(alloc: Global, count: usize, value: T) -> Result<Vec<T>, AllocError>
    ensures { IfOk result (λ v. AllMade (λ _. value) value count v.items) }
{
    let mut values = Vec::new(alloc);
    for _number in 0..count {
        values.push(value)?;
    }
    Ok(values)
}
