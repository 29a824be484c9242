//! Links that lead from a concentrator back to it: N13.
use crate::ends::concentrator_at;
use dc_explain_text::Refused;
use dc_tell::{Explanation, Kind};
use std::alloc::Global;

/// How many concentrators a system has at most.
const MOST: usize = 64;

/// In the place of a link, where none leads on.
const NONE: usize = usize::MAX;

/// From which concentrator to which a link leads, by their numbers, and the row of the link.
#[derive(Clone, Copy)]
struct Hop {
    row: usize,
    from: usize,
    to: usize,
}

/// The concentrator at an end of a link, by its number; one that is not there where none has the name.
fn end_of(refused: &Refused<'_>, row: usize, key: &str) -> usize {
    match concentrator_at(refused, row, key) {
        Some(concentrator) => index_of(refused, concentrator),
        None => NONE,
    }
}

/// The number of a table among those of its kind.
fn index_of(refused: &Refused<'_>, row: usize) -> usize {
    match refused.layout.rows.get(row) {
        Some(it) => it.index,
        None => NONE,
    }
}

/// From which concentrator to which each link leads; nothing where memory was refused.
fn hops_of(alloc: Global, refused: &Refused<'_>) -> Option<Vec<Hop>> {
    let mut hops = Vec::new(alloc);
    for (row, it) in refused.layout.rows.iter().enumerate() {
        if it.kind != Kind::Link {
            continue;
        }
        let hop = Hop {
            row,
            from: end_of(refused, row, "from"),
            to: end_of(refused, row, "to"),
        };
        if hops.push(hop).is_err() {
            return None;
        }
    }
    Some(hops)
}

/// Whether a link leads to a concentrator, or to one from which it is known how to go on.
fn leads_on(known: &[usize; MOST], to: usize, goal: usize) -> bool {
    to == goal || known.get(to).copied().unwrap_or(NONE) != NONE
}

/// The link of each concentrator on a shortest way from it to this one.
fn ways_to(hops: &[Hop], goal: usize) -> [usize; MOST] {
    let mut next = [NONE; MOST];
    for _ in 0..MOST {
        let known = next;
        for (link, hop) in hops.iter().enumerate() {
            if !leads_on(&known, hop.to, goal) {
                continue;
            }
            if let Some(own) = next.get_mut(hop.from) {
                if *own == NONE {
                    *own = link;
                }
            }
        }
    }
    next
}

/// Writes that a link is on the ring, and gives the concentrator to which it leads.
fn tell_hop(out: &mut Explanation, refused: &Refused<'_>, hops: &[Hop], link: usize) -> usize {
    let Some(hop) = hops.get(link) else {
        return NONE;
    };
    refused.fill(
        out,
        "\nnote: {row 0} is on the ring, in line {line 0 to}",
        &[hop.row],
    );
    hop.to
}

/// Writes the links that lead from a concentrator back to it.
fn tell_hops(out: &mut Explanation, refused: &Refused<'_>, hops: &[Hop], goal: usize) {
    let next = ways_to(hops, goal);
    let mut now = goal;
    for _ in 0..MOST {
        let link = next.get(now).copied().unwrap_or(NONE);
        if link == NONE {
            break;
        }
        now = tell_hop(out, refused, hops, link);
        if now == goal {
            break;
        }
    }
}

/// Tells of a concentrator from which links lead back to it.
pub(crate) fn tell_ring(out: &mut Explanation, refused: &Refused<'_>) -> bool {
    let row = refused.row;
    let Some(hops) = hops_of(refused.alloc, refused) else {
        out.lose();
        return true;
    };
    refused.fill(
        out,
        "{row} is on a ring: links lead from it back to it{place own name}",
        &[],
    );
    let goal = index_of(refused, row);
    tell_hops(out, refused, hops.as_slice(), goal);
    refused.fill(
        out,
        "\nhelp: take out one of these links: how old data become that go round is not known",
        &[],
    );
    true
}
