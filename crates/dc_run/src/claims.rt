//! The line of what is claimed of a run.
ghost use Rattle.std.specs.Prelude.{◌≡◌, ◌++◌, ◌+◌, ◌≤◌};
ghost use Rattle.arrayvec.specs.ArrayVec.{array_vec_len};
ghost use Rattle.dc_print.specs.declared.text.TheConstants.{TEXT_CAPACITY};
ghost use Rattle.dc_run.specs.Claims.{claims_text};

use dc_event::Claim;
use dc_print::{Text, append, append_number};

/// Puts the line of the claims at the end, `claims hold`, or which claim fails at which place. The text has room for 56
/// bytes more.
pub fn append_claims(text: &mut Text, failure: Option<(Claim, usize)>)
    requires { array_vec_len text.old + 56 ≤ TEXT_CAPACITY }
    ensures { text.new.items ≡ text.old.items ++ claims_text failure }
{
    match failure {
        None => append(text, b"claims hold"),
        Some((claim, place)) => {
            append(text, b"claim ");
            append_number(text, u64::from(claim.number()));
            append(text, b" fails at ");
            append_number(text, place as u64);
        }
    }
}
