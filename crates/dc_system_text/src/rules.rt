//! The rules on what a text says, in their order.
ghost use Rattle.std.specs.Prelude.{◌≡◌, map, position};
ghost use Rattle.std.specs.List.{list_any};
ghost use Rattle.std.specs.Str.{bytes_eq};
ghost use Rattle.dc_rules.specs.Rules.{doubled};
ghost use Rattle.dc_system_text.specs.Faults.{fault_of};
ghost use Rattle.dc_system_text.specs.System.{broken, feed_one, is_absent, is_reversed, or_then, verdict_of};

use crate::fault::{SystemFault, SystemPart, SystemRule};
use crate::parts::{ConcentratorText, LinkText};
use dc_document::Name;

/// The first rule that is broken.
pub fn first_broken(concentrators: &[ConcentratorText], links: &[LinkText]) -> Option<SystemFault>
    ensures { result ≡ verdict_of (record { concentrators = concentrators.now; links = links.now }) }
{
    if let Some(index) = doubled_name(concentrators) {
        return Some(at(SystemRule::NameDoubled, SystemPart::Concentrator, index));
    }
    if let Some(index) = first_absent(concentrators, links) {
        return Some(at(SystemRule::ConcentratorAbsent, SystemPart::Link, index));
    }
    if let Some(index) = fed_twice(links) {
        return Some(at(SystemRule::FedTwice, SystemPart::Link, index));
    }
    match first_reversed(links) {
        Some(index) => Some(at(SystemRule::LatencyReversed, SystemPart::Link, index)),
        None => None,
    }
}

/// The first link from or to a concentrator that is not there.
fn first_absent(concentrators: &[ConcentratorText], links: &[LinkText]) -> Option<usize>
    ensures { result ≡ position (is_absent (map (λ c. c.name) concentrators.now)) links.now }
{
    for (index, link) in links.iter().enumerate() {
        if is_absent(concentrators, link) {
            return Some(index);
        }
    }
    None
}

/// The first link whose least latency is over its greatest.
fn first_reversed(links: &[LinkText]) -> Option<usize>
    ensures { result ≡ position is_reversed links.now }
{
    for (index, link) in links.iter().enumerate() {
        if link.most_us < link.least_us {
            return Some(index);
        }
    }
    None
}

/// The fault that this rule is broken there.
fn at(rule: SystemRule, part: SystemPart, index: usize) -> SystemFault
    ensures { result ≡ fault_of rule part index }
{
    SystemFault { rule, part, index }
}

/// The first concentrator with the name of one before it.
fn doubled_name(concentrators: &[ConcentratorText]) -> Option<usize>
    ensures { result ≡ doubled bytes_eq (map (λ c. c.name) concentrators.now) }
{
    for (index, concentrator) in concentrators.iter().enumerate() {
        if is_there(&concentrators[..index], concentrator.name()) {
            return Some(index);
        }
    }
    None
}

/// Whether one of them has this name.
fn is_there(concentrators: &[ConcentratorText], name: Name) -> bool
    ensures { result ≡ list_any (bytes_eq name) (map (λ c. c.name) concentrators.now) }
{
    for one in concentrators {
        if name == one.name() {
            return true;
        }
    }
    false
}

/// Whether a link leads from or to a concentrator that is not there.
fn is_absent(concentrators: &[ConcentratorText], link: &LinkText) -> bool
    ensures { result ≡ is_absent (map (λ c. c.name) concentrators.now) link.now }
{
    !is_there(concentrators, link.from.concentrator)
        || !is_there(concentrators, link.to.concentrator)
}

/// The first link that leads to the bus of one before it.
fn fed_twice(links: &[LinkText]) -> Option<usize>
    ensures { result ≡ doubled feed_one links.now }
{
    for (index, link) in links.iter().enumerate() {
        if is_fed(&links[..index], link) {
            return Some(index);
        }
    }
    None
}

/// Whether one of them leads to the bus of this one.
fn is_fed(links: &[LinkText], link: &LinkText) -> bool
    ensures { result ≡ list_any (feed_one link.now) links.now }
{
    for one in links {
        if feed_one(link, one) {
            return true;
        }
    }
    false
}

/// Whether two links lead to one bus.
fn feed_one(one: &LinkText, other: &LinkText) -> bool
    ensures { result ≡ feed_one one.now other.now }
{
    one.to.concentrator == other.to.concentrator && one.to.port == other.to.port
}
