//! Tables of equal buses with their certificate.

use dc_build::read_tables;
use dc_cert::read_cert;
use dc_check::{Certified, check};
use dc_test_tables::{push_equal_certificate, push_equal_tables};
use std::alloc::Global;
use std::sync::Arc;

/// Tables of so many equal buses, certified. None where memory ends.
fn certified(alloc: Global, buses: u32) -> Option<Certified> {
    let mut text = String::new(alloc);
    push_equal_tables(&mut text, buses, false).ok()?;
    let mut certificate = String::new(alloc);
    push_equal_certificate(&mut certificate, buses).ok()?;
    let certificate = read_cert(alloc, certificate.as_bytes()).ok()?;
    let tables = read_tables(alloc, text.as_bytes()).ok()?;
    let tables = Arc::new(alloc, tables).ok()?;
    check(tables, certificate).ok()
}

/// The small tables, certified.
pub fn small_certified(alloc: Global) -> Option<Certified> {
    certified(alloc, 1)
}

/// Tables of 64 buses, certified.
#[cfg(test)]
pub fn wide_certified(alloc: Global) -> Option<Certified> {
    certified(alloc, 64)
}
