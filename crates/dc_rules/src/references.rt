//! The rules on names that one table has of another.
ghost use Rattle.std.specs.Prelude.{◌≡◌, is_some, IfOk};
ghost use Rattle.dc_rules.specs.Rules.{has_unknown, first_lost_router, first_lost_label, first_unserved};
ghost use Rattle.dc_rules.specs.Rules.{doubled_name, first_doubled_source};
ghost use Rattle.std.specs.Str.{bytes_eq};
ghost use Rattle.std.specs.List.{list_any};

use crate::visits::index_visits;
use dc_document::{BusPart, LabelPart, Name, RouterPart};
use dc_tables::NameIndex;
use std::alloc::{AllocError, Global};

/// Whether one of these names is not there.
fn has_unknown(names: &NameIndex, wanted: &[Name]) -> bool
    ensures { result ≡ has_unknown names.now wanted.now }
{
    wanted.iter().any(|n| names.number_of(n).is_none())
}

/// The first router that visits a bus that is not there.
pub(crate) fn first_lost_router(buses: &NameIndex, routers: &[RouterPart]) -> Option<usize>
    ensures { result ≡ first_lost_router buses.now routers.now }
{
    routers.iter().position(|r| has_unknown(buses, &r.visits))
}

/// The first label with a source that is not there.
pub(crate) fn first_lost_label(streams: &NameIndex, labels: &[LabelPart]) -> Option<usize>
    ensures { result ≡ first_lost_label streams.now labels.now }
{
    labels.iter().position(|x| has_unknown(streams, &x.sources))
}

/// The first bus that no router visits, or two.
pub(crate) fn first_unserved(
    alloc: Global,
    routers: &[RouterPart],
    buses: &[BusPart],
) -> Result<Option<usize>, AllocError>
    ensures { IfOk result (λ r. r ≡ first_unserved routers.now buses.now) }
{
    let visits = index_visits(alloc, routers)?;
    Ok(visits.first_unserved(buses))
}

/// Whether the name is one of these.
fn is_among(name: &Name, others: &[Name]) -> bool
    ensures { result ≡ list_any (bytes_eq name.now) others.now }
{
    others.iter().any(|other| name == other)
}

/// The first name that is doubled, in a short list.
#[tactic(auto, using(crate::proofs::Doubled::doubled_step))]
fn first_doubled_name(names: &[Name]) -> Option<usize>
    ensures { result ≡ doubled_name names.now }
{
    for (i, name) in names.iter().enumerate() {
        if is_among(name, &names[..i]) {
            return Some(i);
        }
    }
    None
}

/// The first label with a doubled source.
pub(crate) fn first_doubled_source(labels: &[LabelPart]) -> Option<usize>
    ensures { result ≡ first_doubled_source labels.now }
{
    labels
        .iter()
        .position(|x| first_doubled_name(&x.sources).is_some())
}
