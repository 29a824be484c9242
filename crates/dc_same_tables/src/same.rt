//! Whether two documents of tables say the same.
ghost use Rattle.std.specs.Prelude.{◌≡◌};
ghost use Rattle.std.specs.Bool.{Decides};
ghost use Rattle.dc_toml.specs.Written.{label_text, router_text, written};
ghost use Rattle.dc_same_tables.specs.Pairs.{ArePaired};

use crate::lists::are_paired;
use dc_document::Parts;

/// Whether two documents say the same version and length of a tick.
fn have_one_head(one: &Parts, other: &Parts) -> bool
    ensures { Decides result ((one.now.version ≡ other.now.version) × (one.now.tick_us ≡ other.now.tick_us)) }
{
    one.version() == other.version() && one.tick_us() == other.tick_us()
}

/// Whether two documents say the same parameters, and the same buses with their streams.
fn take_the_same(one: &Parts, other: &Parts) -> bool
    ensures { Decides result (ArePaired (λ x y. x ≡ y) one.now.parameters other.now.parameters × ArePaired (λ x y. x ≡ y) one.now.buses other.now.buses
        × ArePaired (λ x y. x ≡ y) one.now.streams other.now.streams) }
{
    are_paired(one.parameters(), other.parameters())
        && are_paired(one.buses(), other.buses())
        && are_paired(one.streams(), other.streams())
}

/// Whether two documents say the same routers, and the same outputs with their labels.
fn send_the_same(one: &Parts, other: &Parts) -> bool
    ensures { Decides result (ArePaired (λ x y. router_text x ≡ router_text y) one.now.routers other.now.routers
        × ArePaired (λ x y. x ≡ y) one.now.outputs other.now.outputs × ArePaired (λ x y. label_text x ≡ label_text y) one.now.labels other.now.labels) }
{
    are_paired(one.routers(), other.routers())
        && are_paired(one.outputs(), other.outputs())
        && are_paired(one.labels(), other.labels())
}

/// Whether two documents say the same tables: version, length of a tick, and each part with all its keys, in the same order.
pub fn say_the_same(one: &Parts, other: &Parts) -> bool
    ensures { Decides result (written one.now ≡ written other.now) }
{
    if !have_one_head(one, other) {
        return false;
    }
    if !take_the_same(one, other) {
        return false;
    }
    send_the_same(one, other)
}
