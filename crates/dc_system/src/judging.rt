//! Judges whole networks.
ghost use Rattle.std.specs.Prelude.{◌≡◌, ℕ, ◌<◌, ◌≤◌, Some, IfErr, IfOk, MatchOption, MatchResult, length};
ghost use Rattle.dc_network.specs.Networks.{AreWays};
ghost use Rattle.dc_order.specs.declared.limits.TheConstants.{MOST_CONCENTRATORS};
ghost use Rattle.dc_ways.specs.Fitting.{IsGood, IsLinkFault};
ghost use Rattle.dc_ways.specs.Members.{AreConnections, ArePlaces, IsMember, concentrator, link_of, network_of, ways_in};
ghost use Rattle.dc_system.specs.Judged.{IsGoodAt, IsLinksFault, IsMemory, IsNetworkFault, IsOrderFault, NetworkKeepsClaims, NetworkKeepsTime, Stands, hops_of};

use dc_order::{Hop, OrderError, places};
use dc_ways::{Connection, LinkFault, Member, Ways, link_fault, ways};
use std::alloc::{AllocError, Global};

/// Why a network is not accepted.
#[derive(Debug, Drop)]
pub enum NetworkFault {
    /// This is the first concentrator that is on a ring.
    Ring(usize),
    /// This is the first link that does not fit, with its first fault.
    Link(usize, LinkFault),
    /// Memory is out.
    Memory(AllocError),
}

/// Judges a network, and answers the ways of its labels: where each concentrator's certificate is accepted, as that of a
/// [`Member`] is, no link is on a ring, and all are of one speed and fit, then in every joint run of it each concentrator
/// keeps its claims in microseconds, and each word that leaves a label is no computed data or came to a bus that no link
/// feeds less than the label's way before.
///
/// # Errors
/// The first concentrator on a ring; where there is none, the first link that does not fit; `Memory` where memory is out.
pub fn judge(
    alloc: Global,
    members: &[Member],
    connections: &[Connection],
) -> Result<Vec<Ways>, NetworkFault>
    requires few { length members.now ≤ MOST_CONCENTRATORS }
    requires connections { AreConnections (length members.now) connections.now }
    ensures stands { IfOk result (λ w. Stands members.now connections.now w.items) }
    ensures claims { IfOk result (λ w. NetworkKeepsClaims members.now connections.now w.items) }
    ensures time { IfOk result (λ w. NetworkKeepsTime members.now connections.now w.items) }
    ensures fault { IfErr result (λ fault. IsNetworkFault members.now connections.now fault) }
{
    are_judged(members);
    judged(alloc, members, connections)
}

/// The certificate of each is accepted. The call does nothing.
fn are_judged(members: &[Member])
    ensures { (i : ℕ) → i < length members.now → IsMember (concentrator members.now i) }
{
    for member in members {
        member.judged();
    }
}

/// The same, without its meaning.
fn judged(
    alloc: Global,
    members: &[Member],
    connections: &[Connection],
) -> Result<Vec<Ways>, NetworkFault>
    requires few { length members.now ≤ MOST_CONCENTRATORS }
    requires connections { AreConnections (length members.now) connections.now }
    ensures { MatchResult result (λ w. Stands members.now connections.now w.items) (λ fault. IsNetworkFault members.now connections.now fault) }
{
    match order_of(alloc, members, connections) {
        Ok(places) => in_order(alloc, members, connections, &places),
        Err(fault) => Err(fault),
    }
}

/// The places of the concentrators.
fn order_of(
    alloc: Global,
    members: &[Member],
    connections: &[Connection],
) -> Result<Vec<usize>, NetworkFault>
    requires few { length members.now ≤ MOST_CONCENTRATORS }
    requires connections { AreConnections (length members.now) connections.now }
    ensures { MatchResult result (λ v. ArePlaces members.now connections.now v.items) (λ fault. IsOrderFault members.now connections.now fault) }
{
    let hops = match hops_of(alloc, connections) {
        Ok(hops) => hops,
        Err(error) => return Err(NetworkFault::Memory(error)),
    };
    match places(alloc, members.len(), &hops) {
        Ok(places) => Ok(places),
        Err(OrderError::Ring(i)) => Err(NetworkFault::Ring(i)),
        Err(OrderError::Memory(error)) => Err(NetworkFault::Memory(error)),
    }
}

/// From where to where each link leads.
fn hops_of(alloc: Global, connections: &[Connection]) -> Result<Vec<Hop>, AllocError>
    ensures { IfOk result (λ v. v.items ≡ hops_of connections.now) }
{
    let mut hops = Vec::new(alloc);
    for link in connections {
        hops.push(Hop {
            from: link.from,
            to: link.to,
        })?;
    }
    Ok(hops)
}

/// Judges the links, and computes the ways.
fn in_order(
    alloc: Global,
    members: &[Member],
    connections: &[Connection],
    places: &[usize],
) -> Result<Vec<Ways>, NetworkFault>
    requires few { length members.now ≤ MOST_CONCENTRATORS }
    requires connections { AreConnections (length members.now) connections.now }
    requires places { ArePlaces members.now connections.now places.now }
    ensures { MatchResult result (λ w. Stands members.now connections.now w.items) (λ fault. IsNetworkFault members.now connections.now fault) }
{
    match first_fault(members, connections) {
        Some(fault) => Err(fault),
        None => with_ways(alloc, members, connections, places),
    }
}

/// Computes the ways of links that fit.
fn with_ways(
    alloc: Global,
    members: &[Member],
    connections: &[Connection],
    places: &[usize],
) -> Result<Vec<Ways>, NetworkFault>
    requires few { length members.now ≤ MOST_CONCENTRATORS }
    requires connections { AreConnections (length members.now) connections.now }
    requires places { ArePlaces members.now connections.now places.now }
    ensures { MatchResult result (λ w. AreWays (network_of members.now connections.now) (ways_in w.items)) (λ fault. IsMemory fault) }
{
    match ways(alloc, members, connections, places) {
        Ok(rows) => Ok(rows),
        Err(error) => Err(NetworkFault::Memory(error)),
    }
}

/// The first link that does not fit.
fn first_fault(members: &[Member], connections: &[Connection]) -> Option<NetworkFault>
    requires { AreConnections (length members.now) connections.now }
    ensures { MatchOption result ((k : ℕ) → k < length connections.now → IsGoodAt members.now connections.now k) (λ fault. IsLinksFault members.now connections.now fault) }
{
    for (k, link) in connections.iter().enumerate() {
        if let Some(fault) = fault_of(members, link) {
            return Some(NetworkFault::Link(k, fault));
        }
    }
    None
}

/// The first fault of a link.
fn fault_of(members: &[Member], link: &Connection) -> Option<LinkFault>
    requires from { link.now.from < length members.now }
    requires to { link.now.to < length members.now }
    ensures { MatchOption result (IsGood (concentrator members.now link.now.from) (concentrator members.now link.now.to) (link_of link.now)) (λ fault. IsLinkFault (concentrator members.now link.now.from) (concentrator members.now link.now.to) (link_of link.now) fault) }
{
    let from = member(members, link.from);
    let to = member(members, link.to);
    link_fault(from, to, link)
}

/// The member of this number.
fn member(members: &[Member], i: usize) -> &Member
    requires { i < length members.now }
    ensures { result.now ≡ concentrator members.now i }
{
    &members[i]
}
