//! What a system's text says.
ghost use Rattle.std.specs.Prelude.{◌≡◌};

use dc_document::Name;
use std::marker::Model;

/// A concentrator: its name, and the names of its files.
#[derive(Debug, Drop)]
pub struct ConcentratorText {
    name: Name,
    tables: String,
    certificate: String,
}

impl Model for ConcentratorText {
    ghost use Rattle.std.specs.String.{string_bytes};
    ghost use Rattle.dc_system_text.specs.System.{ConcentratorRow};

    ghost Value = { ConcentratorRow };

    ghost view = { λ c. record { name = c.name; tables = string_bytes c.tables; certificate = string_bytes c.certificate } };
}

impl ConcentratorText {
    ghost use Rattle.std.specs.String.{string_bytes};

    /// The concentrator of this name, with these files.
    pub(crate) fn new(name: Name, tables: String, certificate: String) -> ConcentratorText
        ensures { result ≡ record { name = name; tables = string_bytes tables; certificate = string_bytes certificate } }
    {
        ConcentratorText {
            name,
            tables,
            certificate,
        }
    }

    /// Its name.
    pub fn name(&self) -> Name
        ensures { result ≡ self.now.name }
    {
        self.name
    }

    /// The name of the file of its tables.
    pub fn tables(&self) -> &str
        ensures { result.now ≡ self.now.tables }
    {
        self.tables.as_str()
    }

    /// The name of the file of its certificate.
    pub fn certificate(&self) -> &str
        ensures { result.now ≡ self.now.certificate }
    {
        self.certificate.as_str()
    }
}

/// An end of a link: a concentrator, and an output or a bus of it, by their names.
#[derive(Clone, Copy, Debug, PartialEq, Eq)]
pub struct End {
    /// The name of the concentrator.
    pub concentrator: Name,
    /// The name of its output or bus.
    pub port: Name,
}

/// A link: from which output to which bus, and its least and greatest latency in microseconds.
#[derive(Clone, Copy, Debug, PartialEq, Eq)]
pub struct LinkText {
    /// The output that sends.
    pub from: End,
    /// The bus to which the words come.
    pub to: End,
    /// The least latency, in microseconds.
    pub least_us: u32,
    /// The greatest latency, in microseconds.
    pub most_us: u32,
}

/// What a system's text says, by all of its rules: 1 to 64 concentrators, no two of one name, and up to 1,024 links, each
/// between two of these, no two to one bus.
#[derive(Debug)]
pub struct System {
    concentrators: Vec<ConcentratorText>,
    links: Vec<LinkText>,
}

// Dropped by one call, which is proved here and not in each crate that owns one.
impl Drop for System {
    fn drop(self) {
        let System {
            concentrators: _,
            links: _,
        } = self;
    }
}

impl Model for System {
    ghost use Rattle.dc_system_text.specs.System.{SystemRows, KeepsRules};

    ghost Value = { SystemRows };

    ghost view = { λ s. record { concentrators = s.concentrators.items; links = s.links.items } };

    ghost invariant = { λ s. KeepsRules (record { concentrators = s.concentrators.items; links = s.links.items }) };
}

impl System {
    ghost use Rattle.dc_system_text.specs.System.{KeepsRules};

    /// The system of these, which keep its rules.
    pub(crate) fn new(concentrators: Vec<ConcentratorText>, links: Vec<LinkText>) -> System
        requires { KeepsRules (record { concentrators = concentrators.items; links = links.items }) }
        ensures { result ≡ record { concentrators = concentrators.items; links = links.items } }
    {
        System {
            concentrators,
            links,
        }
    }

    /// It keeps the rules of its text. The call does nothing.
    pub fn keeps_rules(&self)
        ensures { KeepsRules self.now }
    {
        let _ = &self.links;
    }

    /// The concentrators, in the order of the text.
    pub fn concentrators(&self) -> &[ConcentratorText]
        ensures { result.now ≡ self.now.concentrators }
    {
        &self.concentrators
    }

    /// The links, in the order of the text.
    pub fn links(&self) -> &[LinkText]
        ensures { result.now ≡ self.now.links }
    {
        &self.links
    }
}
