//! Tables that are driven, with a certificate that is accepted for them.

ghost use Rattle.std.specs.Prelude.{◌≡◌};
ghost use Rattle.std.specs.Arc.{arc_value};
ghost use Rattle.dc_check.specs.Lent.{tables_of};

use dc_build::read_tables;
use dc_cert::{Certificate, read_cert};
use dc_check::{Certified, check};
use dc_tables::Tables;
use dc_test_tables::{push_equal_certificate, push_equal_tables};
use std::alloc::Global;
use std::sync::Arc;

/// Tables, and the same with a certificate that is accepted for them.
#[derive(Drop)]
pub struct Plan {
    pub tables: Arc<Tables>,
    pub certified: Certified,
    ghost is_of: { tables_of certified ≡ arc_value tables },
}

/// Tables of this text. None where they can't be read, or memory ends.
fn tables_of(alloc: Global, text: &str) -> Option<Arc<Tables>> {
    let tables = read_tables(alloc, text.as_bytes()).ok()?;
    Arc::new(alloc, tables).ok()
}

/// A certificate for tables. None where it is refused, or memory ends.
fn plan_of(tables: Arc<Tables>, certificate: Certificate) -> Option<Plan> {
    let shared = Arc::try_clone(&tables).ok()?;
    let certified = check(shared, certificate).ok()?;
    Some(Plan { tables, certified })
}

/// Tables of so many equal buses. None where memory ends.
pub fn equal_plan(alloc: Global, buses: u32, policed: bool) -> Option<Plan> {
    let mut text = String::new(alloc);
    push_equal_tables(&mut text, buses, policed).ok()?;
    let mut certificate = String::new(alloc);
    push_equal_certificate(&mut certificate, buses).ok()?;
    let certificate = read_cert(alloc, certificate.as_bytes()).ok()?;
    plan_of(tables_of(alloc, text.as_str())?, certificate)
}
