//! The tables of a document as they are written.

ghost use Rattle.std.specs.Prelude.{◌≡◌, ◌+◌, ◌-◌, ◌<◌, [], ◌∷◌, ◌++◌, length, OnOk, OnErr};

use crate::name::{Name, Named};
use dc_dict::{Equipment, Parameter};
use dc_word::{Label, Sdi};
use std::alloc::{AllocError, Global};
use std::marker::Model;

/// The version of a text of tables, this project's own format. The second says the jitter of each stream, and of each
/// bus whether it refuses early words; the first has no such keys.
#[derive(Clone, Copy, Debug, PartialEq, Eq, Hash)]
pub enum Version {
    /// `version = 1`.
    One,
    /// `version = 2`.
    Two,
}

/// The speed of a bus or an output.
#[derive(Clone, Copy, Debug, PartialEq, Eq, Hash)]
pub enum Speed {
    /// `"high"`: spacings of 350 and 365 microseconds.
    High,
    /// `"low"`: spacings of 2,450 and 3,050 microseconds.
    Low,
}

/// A receive bus. A part bounds no number: the ranges here and below are those of the rules T06 and T08, which
/// `dc_build::Build` tests.
#[derive(Clone, Copy, Debug, PartialEq)]
pub struct BusPart {
    /// Its name.
    pub name: Name,
    /// Its speed.
    pub speed: Speed,
    /// The capacity of its receive queue in words, 1 to [`GREATEST_QUEUE`](dc_bound::GREATEST_QUEUE).
    pub queue: u32,
    /// Whether it refuses early words.
    pub police: bool,
}

/// A stream of a bus: the words of one label, with one SDI or with any.
#[derive(Clone, Copy, Debug, PartialEq)]
pub struct StreamPart {
    /// The number of its bus, from 0.
    pub bus: usize,
    /// Its name.
    pub name: Name,
    /// The label of its words and of its parameter.
    pub label: Label,
    /// The equipment code of its parameter.
    pub equipment: Equipment,
    /// The SDI of its words; `None` for any.
    pub sdi: Option<Sdi>,
    /// How late of their rhythm its words may come, in microseconds, 0 to
    /// [`GREATEST_JITTER_US`](crate::GREATEST_JITTER_US).
    pub jitter_us: u32,
}

/// A router, which visits buses in turn, one a step.
#[derive(Debug, Drop)]
pub struct RouterPart {
    /// Its name.
    pub name: Name,
    /// Its fewest steps in each `within` whole ticks, 1 to [`MOST_STEPS`](crate::MOST_STEPS).
    pub steps: u32,
    /// In so many ticks, 1 to [`LONGEST_WITHIN`](crate::LONGEST_WITHIN), it makes `steps` steps or more.
    pub within: u32,
    /// Its most steps in one tick, 1 to [`MOST_STEPS`](crate::MOST_STEPS).
    pub most: u32,
    /// The names of the buses that it visits in turn, 1 to [`MOST_VISITS`](crate::MOST_VISITS) of them.
    pub visits: Vec<Name>,
}

/// An output, which sends words by its frame, one a step.
#[derive(Clone, Copy, Debug, PartialEq)]
pub struct OutputPart {
    /// Its name.
    pub name: Name,
    /// Its speed.
    pub speed: Speed,
    /// Its fewest sends in each `within` whole ticks, 1 to [`MOST_STEPS`](crate::MOST_STEPS).
    pub steps: u32,
    /// In so many ticks, 1 to [`LONGEST_WITHIN`](crate::LONGEST_WITHIN), it makes `steps` sends or more.
    pub within: u32,
    /// After so many ticks, 1 to [`LONGEST_FRAME`](dc_bound::LONGEST_FRAME), its entries are due again.
    pub frame: u32,
}

/// A label of an output: what it sends under one label and SDI.
#[derive(Debug, Drop)]
pub struct LabelPart {
    /// The number of its output, from 0.
    pub output: usize,
    /// Its name.
    pub name: Name,
    /// The label of its words and of its parameter.
    pub label: Label,
    /// The equipment code of its parameter.
    pub equipment: Equipment,
    /// The SDI of its words.
    pub sdi: Sdi,
    /// The names of its streams in order of priority, 1 to [`MOST_SOURCES`](crate::MOST_SOURCES) of them.
    pub sources: Vec<Name>,
    /// How many ticks after it was routed a word is fresh, 1 to [`LONGEST_STALE`](crate::LONGEST_STALE).
    pub stale: u32,
    /// The limit on the age of its data in ticks, 1 to [`GREATEST_AGE`](crate::GREATEST_AGE).
    pub age: u32,
    /// The ticks of the frame in which it is due, in any order: 1 to [`MOST_OFFSETS`](crate::MOST_OFFSETS) of them,
    /// each 0 to [`LAST_OFFSET`](crate::LAST_OFFSET).
    pub offsets: Vec<u32>,
}

impl Named for BusPart {
    ghost name_of = { λ x. x.name };

    fn name(&self) -> Name {
        self.name
    }
}

impl Named for StreamPart {
    ghost name_of = { λ x. x.name };

    fn name(&self) -> Name {
        self.name
    }
}

impl Named for RouterPart {
    ghost name_of = { λ x. x.name };

    fn name(&self) -> Name {
        self.name
    }
}

impl Named for OutputPart {
    ghost name_of = { λ x. x.name };

    fn name(&self) -> Name {
        self.name
    }
}

impl Named for LabelPart {
    ghost name_of = { λ x. x.name };

    fn name(&self) -> Name {
        self.name
    }
}

/// Tables as they are written, before any rule is tested: each list in the order of the text. The streams follow one
/// another bus by bus, and the labels output by output.
#[derive(Debug)]
pub struct Parts {
    version: Version,
    tick_us: u32,
    parameters: Vec<Parameter>,
    buses: Vec<BusPart>,
    streams: Vec<StreamPart>,
    routers: Vec<RouterPart>,
    outputs: Vec<OutputPart>,
    labels: Vec<LabelPart>,
}

// Dropped by one call, which is proved here and not in each crate that owns one.
impl Drop for Parts {
    fn drop(self) {
        let Parts {
            version: _,
            tick_us: _,
            parameters: _,
            buses: _,
            streams: _,
            routers: _,
            outputs: _,
            labels: _,
        } = self;
    }
}

impl Model for Parts {
    ghost use Rattle.dc_document.specs.Document.{Document, IsInOrder};

    ghost Value = { Document };

    ghost view = { λ p. record {
      version = p.version;
      tick_us = p.tick_us;
      parameters = p.parameters.items;
      buses = p.buses.items;
      streams = p.streams.items;
      routers = p.routers.items;
      outputs = p.outputs.items;
      labels = p.labels.items;
    } };

    ghost invariant = { λ p. IsInOrder (record {
      version = p.version;
      tick_us = p.tick_us;
      parameters = p.parameters.items;
      buses = p.buses.items;
      streams = p.streams.items;
      routers = p.routers.items;
      outputs = p.outputs.items;
      labels = p.labels.items;
    }) };
}

impl Parts {
    ghost use Rattle.dc_document.specs.Document.{IsInOrder, with_parameter, with_bus, with_stream, with_router, with_output, with_label, empty_document};

    /// Tables of this version with nothing in them but the length of a tick in microseconds, which is not bounded yet:
    /// the rule T06 asks for [`SHORTEST_TICK`](crate::SHORTEST_TICK) to [`LONGEST_TICK`](dc_bound::LONGEST_TICK).
    pub fn new(alloc: Global, version: Version, tick_us: u32) -> Parts
        ensures { result ≡ empty_document version tick_us }
    {
        Parts {
            version,
            tick_us,
            parameters: Vec::new(alloc),
            buses: Vec::new(alloc),
            streams: Vec::new(alloc),
            routers: Vec::new(alloc),
            outputs: Vec::new(alloc),
            labels: Vec::new(alloc),
        }
    }

    /// The streams follow one another bus by bus, and the labels output by output. The call does nothing.
    pub fn in_order(&self)
        ensures { IsInOrder self.now }
    {
        let _ = &self.tick_us;
    }

    /// The version of the text.
    pub fn version(&self) -> Version
        ensures { result ≡ self.now.version }
    {
        let version = &self.version;
        *version
    }

    /// The length of a tick in microseconds, as it was handed in.
    pub fn tick_us(&self) -> u32
        ensures { result ≡ self.now.tick_us }
    {
        let tick_us = &self.tick_us;
        *tick_us
    }

    /// The parameters, in the order of the text.
    pub fn parameters(&self) -> &[Parameter]
        ensures { result.now ≡ self.now.parameters }
    {
        &self.parameters
    }

    /// The buses, in the order of the text.
    pub fn buses(&self) -> &[BusPart]
        ensures { result.now ≡ self.now.buses }
    {
        &self.buses
    }

    /// The streams of all buses, in the order of the text.
    pub fn streams(&self) -> &[StreamPart]
        ensures { result.now ≡ self.now.streams }
    {
        &self.streams
    }

    /// The routers, in the order of the text.
    pub fn routers(&self) -> &[RouterPart]
        ensures { result.now ≡ self.now.routers }
    {
        &self.routers
    }

    /// The outputs, in the order of the text.
    pub fn outputs(&self) -> &[OutputPart]
        ensures { result.now ≡ self.now.outputs }
    {
        &self.outputs
    }

    /// The labels of all outputs, in the order of the text.
    pub fn labels(&self) -> &[LabelPart]
        ensures { result.now ≡ self.now.labels }
    {
        &self.labels
    }

    /// Adds a parameter after the others. Where memory is out, nothing changes.
    pub fn push_parameter(&mut self, parameter: Parameter) -> Result<(), AllocError>
        ensures ok { OnOk result (self.new ≡ with_parameter self.old parameter) }
        ensures err { OnErr result (self.new ≡ self.old) }
    {
        self.parameters.push(parameter)?;
        Ok(())
    }

    /// Adds a bus after the others. Where memory is out, nothing changes.
    pub fn push_bus(&mut self, bus: BusPart) -> Result<(), AllocError>
        ensures ok { OnOk result (self.new ≡ with_bus self.old bus) }
        ensures err { OnErr result (self.new ≡ self.old) }
    {
        self.buses.push(bus)?;
        Ok(())
    }

    /// Adds a stream of the last bus after the others. Where memory is out, nothing changes.
    pub fn push_stream(&mut self, stream: StreamPart) -> Result<(), AllocError>
        requires { stream.bus + 1 ≡ length self.old.buses }
        ensures ok { OnOk result (self.new ≡ with_stream self.old stream) }
        ensures err { OnErr result (self.new ≡ self.old) }
    {
        let sdi: Option<Sdi> = stream.sdi;
        self.streams.push(StreamPart { sdi, ..stream })?;
        Ok(())
    }

    /// Adds a router after the others. Where memory is out, nothing changes.
    pub fn push_router(&mut self, router: RouterPart) -> Result<(), AllocError>
        ensures ok { OnOk result (self.new ≡ with_router self.old router) }
        ensures err { OnErr result (self.new ≡ self.old) }
    {
        match self.routers.push(router) {
            Ok(()) => Ok(()),
            Err(_) => Err(AllocError),
        }
    }

    /// Adds an output after the others. Where memory is out, nothing changes.
    pub fn push_output(&mut self, output: OutputPart) -> Result<(), AllocError>
        ensures ok { OnOk result (self.new ≡ with_output self.old output) }
        ensures err { OnErr result (self.new ≡ self.old) }
    {
        self.outputs.push(output)?;
        Ok(())
    }

    /// Adds a label of the last output after the others. Where memory is out, nothing changes.
    pub fn push_label(&mut self, label: LabelPart) -> Result<(), AllocError>
        requires { label.output + 1 ≡ length self.old.outputs }
        ensures ok { OnOk result (self.new ≡ with_label self.old label) }
        ensures err { OnErr result (self.new ≡ self.old) }
    {
        self.labels.push(label)?;
        Ok(())
    }

    /// How many parameters there are so far.
    pub fn parameter_count(&self) -> usize
        ensures { result ≡ length self.now.parameters }
    {
        self.parameters.len()
    }

    /// How many buses there are so far.
    pub fn bus_count(&self) -> usize
        ensures { result ≡ length self.now.buses }
    {
        self.buses.len()
    }

    /// How many streams there are so far, through all buses.
    pub fn stream_count(&self) -> usize
        ensures { result ≡ length self.now.streams }
    {
        self.streams.len()
    }

    /// How many routers there are so far.
    pub fn router_count(&self) -> usize
        ensures { result ≡ length self.now.routers }
    {
        self.routers.len()
    }

    /// How many outputs there are so far.
    pub fn output_count(&self) -> usize
        ensures { result ≡ length self.now.outputs }
    {
        self.outputs.len()
    }

    /// How many labels there are so far, through all outputs.
    pub fn label_count(&self) -> usize
        ensures { result ≡ length self.now.labels }
    {
        self.labels.len()
    }
}
