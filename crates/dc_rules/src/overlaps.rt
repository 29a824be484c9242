//! Streams of a bus that one word may fit.
ghost use Rattle.std.specs.Prelude.{◌≡◌, IfOk, OnOk};
ghost use Rattle.indexmap.specs.IndexSet.{insert_key};
ghost use Rattle.dc_rules.specs.Rules.{doubled, overlap};
ghost use Rattle.dc_rules.specs.Declarations.{place_of, declaring, same_place, same_declared, overlaps_known};

use crate::keys::{BusLabel, Declared};
use dc_document::StreamPart;
use dc_word::Sdi;
use indexmap::IndexSet;
use std::alloc::{AllocError, Global};

/// The label that a stream has on its bus.
fn place_of(stream: &StreamPart) -> BusLabel
    ensures { result ≡ place_of stream.now }
{
    BusLabel {
        bus: stream.bus,
        label: stream.label,
    }
}

/// What a stream declares, with this SDI.
fn declaring(stream: &StreamPart, sdi: Option<Sdi>) -> Declared
    ensures { result ≡ declaring stream.now sdi }
{
    Declared {
        bus: stream.bus,
        label: stream.label,
        sdi,
    }
}

/// What the streams so far declare: their labels, and these with their SDIs.
#[derive(Drop)]
pub(crate) struct Declarations {
    labels: IndexSet<BusLabel>,
    exact: IndexSet<Declared>,
}

impl Declarations {
    /// Whether the stream overlaps with one of them.
    fn overlap(&self, stream: &StreamPart) -> bool
        ensures { result ≡ overlaps_known stream.now self.now.labels.keys self.now.exact.keys }
    {
        match stream.sdi {
            None => self.labels.contains(&place_of(stream)),
            Some(sdi) => {
                self.exact.contains(&declaring(stream, Some(sdi)))
                    || self.exact.contains(&declaring(stream, None))
            }
        }
    }

    /// Adds what the stream declares.
    fn add(&mut self, stream: &StreamPart) -> Result<(), AllocError>
        ensures labels { OnOk result (self.new.labels.keys ≡ insert_key same_place self.old.labels.keys (place_of stream.now)) }
        ensures exact { OnOk result (self.new.exact.keys ≡ insert_key same_declared self.old.exact.keys (declaring stream.now stream.now.sdi)) }
    {
        self.labels.insert(place_of(stream))?;
        self.exact.insert(declaring(stream, stream.sdi))?;
        Ok(())
    }
}

/// The first stream that overlaps with one before it.
#[tactic(auto, using(crate::proofs::Meeting::knows_none))]
pub(crate) fn first_overlap(
    alloc: Global,
    streams: &[StreamPart],
) -> Result<Option<usize>, AllocError>
    ensures { IfOk result (λ r. r ≡ doubled overlap streams.now) }
{
    let mut known = Declarations {
        labels: IndexSet::new(alloc),
        exact: IndexSet::new(alloc),
    };
    for (i, stream) in streams.iter().enumerate() {
        if known.overlap(stream) {
            return Ok(Some(i));
        }
        known.add(stream)?;
    }
    Ok(None)
}
