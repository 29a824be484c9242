//! Whether a link fits: its ends are there and of one speed, and each stream of its bus is fed as it has to be.
ghost use Rattle.std.specs.Prelude.{◌≡◌, ◌<◌, ◌↔◌, true, length, option_map, slice_get, MatchOption};
ghost use Rattle.dc_network.specs.Networks.{IsFeeder};
ghost use Rattle.dc_ways.specs.Fitting.{BreaksPair, BreaksStream, HasEnds, IsFound, IsGood, IsLinkFault, KeepsPair, KeepsStream, SpeedsMeet};
ghost use Rattle.dc_ways.specs.Members.{link_of, member_of};

use crate::connection::Connection;
use crate::feeding::feeds;
use crate::member::Member;
use dc_document::{Parts, Speed};
use dc_drift::{declared_sent, declared_source};
use dc_tables::Tables;

/// The rules that a stream of a link's bus can break, in the order in which they are asked.
#[derive(Clone, Copy, Debug, PartialEq, Eq)]
pub enum StreamRule {
    /// Two labels of the output feed it.
    TwoLabels,
    /// The label that feeds it has another format.
    Formats,
    /// Its words can come too soon.
    TooSoon,
    /// Its words can come too late.
    TooLate,
}

/// The first fault of a link.
#[derive(Clone, Copy, Debug, PartialEq, Eq)]
pub enum LinkFault {
    /// There is no such output, or no such bus.
    NoEnd,
    /// The output and the bus have different speeds.
    Speeds,
    /// This stream of the bus breaks this rule.
    Stream(usize, StreamRule),
}

/// Which labels feed a stream.
#[derive(Clone, Copy, Debug, PartialEq, Eq)]
pub enum Feeder {
    /// None does.
    Nothing,
    /// This one does, and no other.
    One(usize),
    /// At least two do.
    Several,
}

/// The first fault of a link; `None` where it is of one speed and fits.
pub fn link_fault(from: &Member, to: &Member, link: &Connection) -> Option<LinkFault>
    ensures { MatchOption result (IsGood from.now to.now (link_of link.now)) (λ fault. IsLinkFault from.now to.now (link_of link.now) fault) }
{
    if !has_ends(from.tables(), to.tables(), link) {
        return Some(LinkFault::NoEnd);
    }
    if !speeds_meet(from.written().parts(), to.written().parts(), link) {
        return Some(LinkFault::Speeds);
    }
    for stream in 0..to.tables().stream_count() {
        if let Some(rule) = stream_fault(from, to, link, stream) {
            return Some(LinkFault::Stream(stream, rule));
        }
    }
    None
}

/// Whether the link's output and bus are there.
fn has_ends(from: &Tables, to: &Tables, link: &Connection) -> bool
    ensures { (result ≡ true) ↔ HasEnds from.now to.now (link_of link.now) }
{
    link.output < from.output_count() && link.bus < to.bus_count()
}

/// Whether they are of one speed.
fn speeds_meet(from: &Parts, to: &Parts, link: &Connection) -> bool
    ensures { (result ≡ true) ↔ SpeedsMeet from.now to.now (link_of link.now) }
{
    speed_of_output(from, link.output) == speed_of_bus(to, link.bus)
}

/// The speed of an output.
fn speed_of_output(parts: &Parts, output: usize) -> Option<Speed>
    ensures { result ≡ option_map (λ o. o.speed) (slice_get parts.now.outputs output) }
{
    match parts.outputs().get(output) {
        Some(row) => Some(row.speed),
        None => None,
    }
}

/// The speed of a bus.
fn speed_of_bus(parts: &Parts, bus: usize) -> Option<Speed>
    ensures { result ≡ option_map (λ b. b.speed) (slice_get parts.now.buses bus) }
{
    match parts.buses().get(bus) {
        Some(row) => Some(row.speed),
        None => None,
    }
}

/// The first rule that a stream breaks. Streams of other buses break none.
fn stream_fault(from: &Member, to: &Member, link: &Connection, stream: usize) -> Option<StreamRule>
    requires { stream < length to.now.written.tables.streams }
    ensures { MatchOption result (KeepsStream (member_of from.now) (member_of to.now) (link_of link.now) stream) (λ rule. BreaksStream (member_of from.now) (member_of to.now) (link_of link.now) stream rule) }
{
    if to.tables().stream(stream).bus != link.bus {
        return None;
    }
    match feeding_label(from.tables(), to.tables(), link, stream) {
        Feeder::Nothing => None,
        Feeder::Several => Some(StreamRule::TwoLabels),
        Feeder::One(label) => pair_fault(from, to, link, label, stream),
    }
}

/// The first rule that the label that feeds a stream breaks.
fn pair_fault(
    from: &Member,
    to: &Member,
    link: &Connection,
    label: usize,
    stream: usize,
) -> Option<StreamRule>
    requires { IsFeeder from.now.written.tables to.now.written.tables (link_of link.now) label stream }
    ensures { MatchOption result (KeepsPair (member_of from.now) (member_of to.now) (link_of link.now) label stream) (λ rule. BreaksPair (member_of from.now) (member_of to.now) (link_of link.now) label stream rule) }
{
    if from.tables().label(label).format != to.tables().stream(stream).format {
        return Some(StreamRule::Formats);
    }
    let sent = declared_sent(from.written(), label);
    let source = declared_source(to.written(), stream);
    let variation = u64::from(link.most_us.saturating_sub(link.least_us));
    if sent.least < source.least + variation.saturating_sub(source.jitter) {
        return Some(StreamRule::TooSoon);
    }
    if source.most < variation || source.most - variation < sent.most {
        return Some(StreamRule::TooLate);
    }
    None
}

/// Which labels feed a stream.
fn feeding_label(from: &Tables, to: &Tables, link: &Connection, stream: usize) -> Feeder
    requires { stream < length to.now.streams }
    ensures { IsFound from.now to.now (link_of link.now) stream (length from.now.labels) result }
{
    let mut found = Feeder::Nothing;
    for label in 0..from.label_count() {
        if feeds(from, to, link, label, stream) {
            match found {
                Feeder::Nothing => found = Feeder::One(label),
                Feeder::One(_) => return Feeder::Several,
                Feeder::Several => return Feeder::Several,
            }
        }
    }
    found
}
