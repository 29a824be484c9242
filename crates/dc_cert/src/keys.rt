//! The objects of a certificate's text: which keys they have, and what stands at each.
ghost use Rattle.std.specs.Prelude.{◌≡◌, map, option_map, option_and_then, Some};
ghost use Rattle.std.specs.List.{list_any};
ghost use Rattle.serde_json.specs.Find.{get_member, as_array, as_number, as_u64};
ghost use Rattle.serde_json.specs.View.{view, items_view, members_view};
ghost use Rattle.dc_cert.specs.Faults.{seen};
ghost use Rattle.dc_cert.specs.Reading.{same_key, only_keys, all_keys, object_of, shape_of, number_at, name_in, name_at, list_at, version_of};
ghost use Rattle.dc_document.specs.Names.{text_of};

use crate::fault::{CertRule, Fault, TextPlace};
use crate::read::LIST_LIMIT;
use dc_document::Name;
use serde_json::{Map, Value};

/// The members of an object.
pub type Members = Map<String, Value>;

/// The greatest number: those of the program's rows have 32 bits.
const GREATEST_NUMBER: u64 = 4_294_967_295;

/// The members of a value that is an object.
pub fn object(value: &Value, place: TextPlace) -> Result<&Members, Fault>
    ensures { seen (λ m. members_view m.now.entries) result ≡ object_of place (view value.now) }
{
    match value.as_object() {
        Some(members) => Ok(members),
        None => Err(CertRule::WrongKind.at(place)),
    }
}

/// The value at a key.
fn find<'a>(members: &'a Members, key: &str) -> Option<&'a Value>
    ensures { option_map (λ v. view v.now) result
        ≡ get_member key.now (members_view members.now.entries) }
{
    members.get(key)
}

/// Whether the key is one of these.
fn is_among(key: &str, keys: &[&str]) -> bool
    ensures { result ≡ list_any (same_key key.now) (map (λ k. k.now) keys.now) }
{
    for other in keys {
        if key.cmp(other).is_eq() {
            return true;
        }
    }
    false
}

/// Whether each key of the object is one of these.
fn only_known(members: &Members, keys: &[&str]) -> bool
    ensures { result
        ≡ only_keys (map (λ k. k.now) keys.now) (members_view members.now.entries) }
{
    for (key, _) in members {
        if !is_among(key.as_str(), keys) {
            return false;
        }
    }
    true
}

/// Whether each of these keys is in the object.
fn all_present(members: &Members, keys: &[&str]) -> bool
    ensures { result
        ≡ all_keys (map (λ k. k.now) keys.now) (members_view members.now.entries) }
{
    for key in keys {
        if find(members, key).is_none() {
            return false;
        }
    }
    true
}

/// Refuses an unknown key, and then an absent one.
pub fn shape(members: &Members, keys: &[&str], place: TextPlace) -> Result<(), Fault>
    ensures { result
        ≡ shape_of place (map (λ k. k.now) keys.now) (members_view members.now.entries) }
{
    if !only_known(members, keys) {
        return Err(CertRule::KeyUnknown.at(place));
    }
    if !all_present(members, keys) {
        return Err(CertRule::KeyAbsent.at(place));
    }
    Ok(())
}

/// The whole number at a key that is not negative and fits 64 bits.
fn whole(members: &Members, key: &str) -> Option<u64>
    ensures { result ≡ option_and_then as_u64
        (option_and_then as_number (get_member key.now (members_view members.now.entries))) }
{
    find(members, key)?.as_u64()
}

/// Refuses a `version` that is not the number 1.
pub fn version(members: &Members) -> Result<(), Fault>
    ensures { result ≡ version_of (members_view members.now.entries) }
{
    if whole(members, "version") != Some(1) {
        return Err(CertRule::VersionUnknown.at(TextPlace::Top));
    }
    Ok(())
}

/// The number at a key.
pub fn number(members: &Members, key: &str, place: TextPlace) -> Result<u32, Fault>
    ensures { result ≡ number_at place key.now (members_view members.now.entries) }
{
    let refused = CertRule::WrongKind.at(place);
    let Some(n) = whole(members, key) else {
        return Err(refused);
    };
    if n > GREATEST_NUMBER {
        return Err(refused);
    }
    Ok(n as u32)
}

/// The name that a text is.
fn spelled(text: &str, place: TextPlace) -> Result<Name, Fault>
    ensures { seen text_of result ≡ name_in place (Some text.now) }
{
    match Name::new(text.as_bytes()) {
        Some(name) => Ok(name),
        None => Err(CertRule::ListOrNameOutOfBounds.at(place)),
    }
}

/// The name at a key.
pub fn name(members: &Members, key: &str, place: TextPlace) -> Result<Name, Fault>
    ensures { seen text_of result ≡ name_at place key.now (members_view members.now.entries) }
{
    let Some(text) = find(members, key).and_then(Value::as_str) else {
        return Err(CertRule::WrongKind.at(place));
    };
    spelled(text, place)
}

/// The members of the list at a key.
fn array<'a>(members: &'a Members, key: &str) -> Option<&'a [Value]>
    ensures { option_map (λ v. items_view v.now) result
        ≡ option_and_then as_array (get_member key.now (members_view members.now.entries)) }
{
    let values = find(members, key)?.as_array()?;
    Some(values.as_slice())
}

/// The members of the list at a key of the outermost object.
pub fn list<'a>(members: &'a Members, key: &str) -> Result<&'a [Value], Fault>
    ensures { seen (λ v. items_view v.now) result
        ≡ list_at key.now (members_view members.now.entries) }
{
    let Some(values) = array(members, key) else {
        return Err(CertRule::WrongKind.at(TextPlace::Top));
    };
    if values.len() > LIST_LIMIT {
        return Err(CertRule::ListOrNameOutOfBounds.at(TextPlace::Top));
    }
    Ok(values)
}
