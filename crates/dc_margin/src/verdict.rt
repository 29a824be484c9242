//! The verdict on a certificate whose margins are known.

ghost use Rattle.std.specs.Prelude.{◌≡◌, None, IfSome, is_some};
ghost use Rattle.dc_cert.specs.Bounds.{certificate_rows};
ghost use Rattle.dc_cert.specs.NamedRows.{named_rows};
ghost use Rattle.dc_check.specs.Placed.{IsPlaced};
ghost use Rattle.dc_check.specs.Verdict.{misnaming, verdict_of};
ghost use Rattle.dc_margin.specs.Lines.{fault_of_lines, margin_lines_of};

use crate::lines::MarginLine;
use dc_cert::Certificate;
use dc_check::{CheckFault, verdict};
use dc_tables::Tables;

/// Whether one of these margins is negative.
fn is_any_negative(lines: &[MarginLine]) -> bool
    ensures { result ≡ is_some (fault_of_lines lines.now) }
{
    for line in lines {
        if line.is_negative() {
            return true;
        }
    }
    false
}

/// The fault of [`dc_check::verdict`] on a certificate that has the tables' names, given the lines of its margins;
/// `None` where it is accepted.
pub fn verdict_fault(
    tables: &Tables,
    certificate: &Certificate,
    lines: &[MarginLine],
) -> Option<CheckFault>
    requires named { misnaming tables.now (named_rows certificate.now) ≡ None }
    requires lines { lines.now ≡ margin_lines_of tables.now (certificate_rows certificate.now) }
    ensures exact { result ≡ verdict_of tables.now (named_rows certificate.now) }
    ensures place { IfSome result (λ fault. IsPlaced tables.now fault) }
{
    tables.valid();
    if is_any_negative(lines) {
        return verdict(tables, certificate).err();
    }
    None
}
