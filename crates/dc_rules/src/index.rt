//! Keys that are looked up by their value.
ghost use Rattle.std.specs.Prelude.{◌≡◌, ◌≤◌, ◌<◌, ◌++◌, ◌∷◌, None, map, position, IfOk, IfSome, OnOk, [], length, slice_index_or};
ghost use Rattle.dc_word.specs.declared.format.Format.TheVariants.{Bnr};
ghost use Rattle.dc_rules.specs.Rules.{doubled, doubled_name, parameter_out, parameter_of, first_inverted, reported, Tells};
ghost use Rattle.dc_document.specs.Keys.{parameter_key, same_parameter};
ghost use Rattle.dc_dict.specs.Rows.{refusal_of};
ghost use Rattle.dc_document.specs.declared.limits.TheConstants.{LONGEST_INTERVAL_US};

use crate::breach::refuse;
use dc_dict::{DictFault, Dictionary, Parameter};
use dc_document::{BuildError, Name, Named, ParameterKey, Section, TableRule};
use dc_tables::NameIndex;
use indexmap::IndexSet;
use std::alloc::{AllocError, Global};
use std::hash::Hash;
use std::marker::Model;

/// The keys as a set, and the first that is doubled; where none is, the set has them in their order.
pub(crate) fn distinct<K: Eq + Hash + Copy>(
    alloc: Global,
    keys: &[K],
) -> Result<(IndexSet<K>, Option<usize>), AllocError>
    ensures found { IfOk result (λ r. r.1 ≡ doubled K.eq keys.now) }
    ensures all { IfOk result (λ r. r.1 ≡ None → r.0.keys ≡ keys.now) }
{
    let mut known = IndexSet::new(alloc);
    for (i, key) in keys.iter().enumerate() {
        let (_, added) = known.insert_full(*key)?;
        if !added {
            return Ok((known, Some(i)));
        }
    }
    Ok((known, None))
}

/// The names of one kind of table, where none is doubled.
pub(crate) fn index_of<T: Named>(
    alloc: Global,
    section: Section,
    rows: &[T],
) -> Result<NameIndex, BuildError>
    ensures rule { Tells (reported TableRule.NameDoubled section (doubled_name (map T.name_of rows.now))) result }
    ensures list { IfOk result (λ n. n ≡ map T.name_of rows.now) }
{
    let names = names_of(alloc, rows).map_err(BuildError::Memory)?;
    index_once(alloc, section, &names)
}

/// These names, where none is doubled.
fn index_once(alloc: Global, section: Section, names: &[Name]) -> Result<NameIndex, BuildError>
    ensures rule { Tells (reported TableRule.NameDoubled section (doubled_name names.now)) result }
    ensures list { IfOk result (λ n. n ≡ names.now) }
{
    let (known, found) = distinct(alloc, names).map_err(BuildError::Memory)?;
    refuse(TableRule::NameDoubled, section, found)?;
    Ok(NameIndex::new(known))
}

/// The names of these tables.
fn names_of<T: Named>(alloc: Global, rows: &[T]) -> Result<Vec<Name>, AllocError>
    ensures { IfOk result (λ v. v.items ≡ map T.name_of rows.now) }
{
    rows.iter().map(|row| row.name()).collect(alloc)
}

/// Parameters in a dictionary, looked up by label and equipment code. A clause sees them as their list.
#[derive(Drop)]
pub struct Parameters {
    rows: Dictionary,
}

impl Model for Parameters {
    ghost use Rattle.std.specs.Prelude.{◌≤◌, All, List};
    ghost use Rattle.dc_dict.specs.declared.parameter.Parameter.{Parameter as ParameterRow};
    ghost use Rattle.dc_document.specs.declared.limits.TheConstants.{LONGEST_INTERVAL_US};

    ghost Value = { List ParameterRow };

    ghost view = { λ p. p.rows };

    ghost invariant = { λ p. All (λ q. q.min_us ≤ LONGEST_INTERVAL_US) p.rows };
}

impl Parameters {
    /// The parameters, of which the dictionary refuses none.
    pub(crate) fn of(alloc: Global, parameters: &[Parameter]) -> Result<Parameters, AllocError>
        requires shape { position parameter_out parameters.now ≡ None }
        requires once { doubled same_parameter (map parameter_key parameters.now) ≡ None }
        requires ordered { first_inverted parameters.now ≡ None }
        ensures { IfOk result (λ p. p ≡ parameters.now) }
    {
        let mut rows = Dictionary::new(alloc);
        for row in parameters {
            add(&mut rows, *row)?;
        }
        Ok(Parameters { rows })
    }

    /// How many there are.
    pub fn len(&self) -> usize
        ensures { result ≡ length self.now }
    {
        self.rows.len()
    }

    /// The parameter of this number, from 0.
    pub fn at(&self, number: usize) -> &Parameter
        requires { number < length self.now }
        ensures { result.now ≡ slice_index_or self.now number (record { label = 0; equipment = 0; format = Bnr; min_us = 0; max_us = 0 }) }
    {
        self.rows.row_at(number)
    }

    /// The parameter of this key, where it is there.
    pub fn find(&self, key: ParameterKey) -> Option<Parameter>
        ensures value { result ≡ parameter_of self.now key }
        ensures small { IfSome result (λ p. p.min_us ≤ LONGEST_INTERVAL_US) }
    {
        self.rows.row(key.label, key.equipment).copied()
    }
}

/// Appends a row that the dictionary does not refuse.
fn add(rows: &mut Dictionary, row: Parameter) -> Result<(), AllocError>
    requires { refusal_of rows.old row ≡ None }
    ensures { OnOk result (rows.new ≡ rows.old ++ row ∷ []) }
{
    match rows.insert(row) {
        Ok(()) => Ok(()),
        Err(DictFault::Memory) => Err(AllocError),
        Err(_) => unreachable!(),
    }
}

/// The keys of these parameters.
fn keys_of(alloc: Global, parameters: &[Parameter]) -> Result<Vec<ParameterKey>, AllocError>
    ensures { IfOk result (λ v. v.items ≡ map parameter_key parameters.now) }
{
    parameters
        .iter()
        .map(|p| ParameterKey {
            label: p.label,
            equipment: p.equipment,
        })
        .collect(alloc)
}

/// The first parameter with the label and equipment code of one before it.
pub(crate) fn first_doubled_parameter(
    alloc: Global,
    parameters: &[Parameter],
) -> Result<Option<usize>, AllocError>
    ensures { IfOk result (λ r. r ≡ doubled same_parameter (map parameter_key parameters.now)) }
{
    let keys = keys_of(alloc, parameters)?;
    let (_, found) = distinct(alloc, &keys)?;
    Ok(found)
}
