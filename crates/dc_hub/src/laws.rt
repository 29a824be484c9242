//! What is sure of a hub that has closed; and a forged receipt, for tests.

ghost use Rattle.std.specs.Prelude.{◌≡◌, ◌-◌, ◌≤◌, length, slice_set};
ghost use Rattle.dc_cert.specs.Bounds.{numbers_of};
ghost use Rattle.dc_cert.specs.NamedRows.{named_rows};
ghost use Rattle.dc_check.specs.Lent.{tables_of, certificate_of};
ghost use Rattle.dc_event.specs.Admissible.{KeepsSources};
ghost use Rattle.dc_event.specs.Claims.{ClaimsHold};
ghost use Rattle.dc_hub.specs.Entries.{events};

use crate::charter::Charter;
use crate::closed::Closed;
use crate::entry::Receipt;
use crate::seat::ClockSeat;

/// Where the words of the entries' run keep what is asked of the sources, their intervals and their wires, the claims
/// of the certificate hold at each entry. The call does nothing.
pub fn keeps_the_claims(closed: &Closed)
    ensures { KeepsSources (tables_of closed.now.certified) (events closed.now.entries)
        → ClaimsHold (tables_of closed.now.certified) (numbers_of (named_rows (certificate_of closed.now.certified))).ages (events closed.now.entries) }
{
    closed.legal();
    closed.certified.keeps_its_claims();
}

/// For tests: the last receipt of the clock's seat, which has one, is replaced by another.
pub fn forge<L: Charter>(seat: &mut ClockSeat<L>, receipt: Receipt)
    requires { 1 ≤ length seat.old.receipts }
    ensures actor { (seat.new.actor ≡ seat.old.actor) × (seat.new.parts ≡ seat.old.parts) }
    ensures replaced { seat.new.receipts ≡ slice_set seat.old.receipts (length seat.old.receipts - 1) receipt }
{
    let last = seat.seat.receipts.len() - 1;
    seat.seat.receipts[last] = receipt;
}
