//! The dictionary: parameters by label and equipment code.

ghost use Rattle.std.specs.Prelude.{◌≡◌, ◌<◌, [], ◌∷◌, ◌++◌, length, slice_get, option_copied, OnOk, OnErr, IsOkUnless, MatchOption, Some, IsTrue, ◌↔◌};
ghost use Rattle.dc_dict.specs.Rows.{row_of, refusal_of, AreUnique};

use crate::fault::DictFault;
use crate::parameter::{Equipment, Parameter};
use dc_word::Label;
use indexmap::IndexMap;
use std::alloc::Global;
use std::marker::Model;

/// Parameters in the order in which they were inserted, each label and equipment code at most once.
#[derive(Drop)]
pub struct Dictionary {
    rows: IndexMap<(Label, Equipment), Parameter>,
}

impl Model for Dictionary {
    ghost use Rattle.std.specs.Prelude.{List};
    ghost use Rattle.indexmap.specs.IndexMap.{values};
    ghost use Rattle.dc_dict.specs.declared.parameter.Parameter.{Parameter};
    ghost use Rattle.dc_dict.specs.Rows.{AreKeyed, AreUnique};

    ghost Value = { List Parameter };

    ghost view = { λ d. values d.rows };

    ghost invariant = { λ d. AreKeyed d.rows.entries × AreUnique (values d.rows) };
}

impl Dictionary {
    /// A dictionary with no rows.
    pub fn new(alloc: Global) -> Dictionary
        ensures { result ≡ [] }
    {
        Dictionary {
            rows: IndexMap::new(alloc),
        }
    }

    /// How many rows there are.
    pub fn len(&self) -> usize
        ensures { result ≡ length self.now }
    {
        self.rows.len()
    }

    /// Whether there are no rows.
    pub fn is_empty(&self) -> bool
        ensures { IsTrue result ↔ (self.now ≡ []) }
    {
        self.rows.len() == 0
    }

    /// Appends a row.
    ///
    /// # Errors
    /// The first of these that applies, and the dictionary is unchanged then: `Zero` where an interval is 0,
    /// `MinOverMax` where the least is over the greatest, `Doubled` where the label and equipment code are there
    /// already; else `Memory` where there is no room.
    #[tactic(auto, unfolding(crate::specs::Rows::refusal_of))]
    pub fn insert(&mut self, row: Parameter) -> Result<(), DictFault>
        ensures ok { OnOk result (self.new ≡ self.old ++ row ∷ []) }
        ensures err { OnErr result (self.new ≡ self.old) }
        ensures refusal { MatchOption (refusal_of self.old row) (IsOkUnless result DictFault.Memory) (λ fault. result ≡ Err fault) }
    {
        if row.min_us == 0 || row.max_us == 0 {
            return Err(DictFault::Zero);
        }
        if row.max_us < row.min_us {
            return Err(DictFault::MinOverMax);
        }
        let key = (row.label, row.equipment);
        if self.rows.contains_key(&key) {
            return Err(DictFault::Doubled);
        }
        if self.rows.insert(key, row).is_err() {
            return Err(DictFault::Memory);
        }
        Ok(())
    }

    /// The row of a label and an equipment code, if it is there.
    pub fn row(&self, label: Label, equipment: Equipment) -> Option<&Parameter>
        ensures value { option_copied result ≡ row_of self.now label equipment }
        ensures unique { AreUnique self.now }
    {
        self.rows.get(&(label, equipment))
    }

    /// The row that was inserted at this place, counted from 0.
    pub fn row_at(&self, index: usize) -> &Parameter
        requires { index < length self.now }
        ensures { Some result.now ≡ slice_get self.now index }
    {
        match self.rows.get_index(index) {
            Some((_, row)) => row,
            None => unreachable!(),
        }
    }
}
