//! Where a text is wrong.
ghost use Rattle.std.specs.Prelude.{◌≡◌};
ghost use Rattle.dc_toml.specs.Faults.{fault_at};
ghost use Rattle.dc_toml.specs.Faults.{place as section_place};

use dc_document::{Section, TableFault, TableRule};

/// A table of the text: its section, and its index there.
#[derive(Clone, Copy, Debug, PartialEq)]
pub struct TablePlace {
    pub section: Section,
    pub index: usize,
}

impl TablePlace {
    /// The table of this section with this index.
    pub fn new(section: Section, index: usize) -> TablePlace
        ensures { result ≡ section_place section index }
    {
        TablePlace { section, index }
    }

    /// The fault with this code here.
    pub fn fault(self, rule: TableRule) -> TableFault
        ensures { result ≡ fault_at self rule }
    {
        TableFault {
            rule,
            section: self.section,
            index: self.index,
        }
    }
}
