//! What stands in the fields of a table.
ghost use Rattle.std.specs.Prelude.{◌≡◌, ◌≤◌, true, IfOk, map, option_map};
ghost use Rattle.std.specs.BTreeMap.{keys};
ghost use Rattle.std.specs.List.{list_all, list_any};
ghost use Rattle.std.specs.Str.{bytes_eq};
ghost use Rattle.std.specs.String.{string_bytes};
ghost use Rattle.toml.specs.Data.{as_array, as_str, as_table, get_member};
ghost use Rattle.toml.specs.View.{array_view, table_view, view};
ghost use Rattle.iter_config.specs.Faults.{Gives};
ghost use Rattle.iter_config.specs.Fields.{flag_in, integer_or, is_name, is_name_byte, keys_within, name_in, no_scopes, number_in, scopes_from, scopes_in, with_scope};

use crate::error::FieldError;
use crate::iter_spec::Scopes;
use cell_key::ByteText;
use std::alloc::Global;
use toml::value::{Array, Table, Value};

/// What stands under a key, if anything does.
pub fn find<'a>(table: &'a Table, key: &str) -> Option<&'a Value>
    ensures { option_map (λ v. view v.now) result ≡ get_member key.now (table_view table.now) }
{
    table.get(key)
}

/// What stands under a key.
pub fn member<'a>(table: &'a Table, key: &str) -> Result<&'a Value, FieldError>
    ensures { Gives (λ v. view v.now) (get_member key.now (table_view table.now)) result }
{
    match find(table, key) {
        Some(value) => Ok(value),
        None => Err(FieldError::Field),
    }
}

fn is_among(names: &[&str], name: &str) -> bool
    ensures { result ≡ list_any (λ n. bytes_eq n.now name.now) names.now }
{
    names.iter().any(|n| *n == name)
}

fn all_among(table: &Table, names: &[&str]) -> bool
    ensures { result ≡ list_all (λ k. list_any (λ n. bytes_eq n.now (string_bytes k)) names.now) (keys table.now) }
{
    table.keys().all(|key| is_among(names, key.as_str()))
}

/// Whether a table has no other keys than these.
pub fn has_only(table: &Table, names: &[&str]) -> bool
    ensures { result ≡ keys_within (map (λ n. n.now) names.now) (table_view table.now) }
{
    all_among(table, names)
}

/// A table.
pub fn table_in(value: &Value) -> Result<&Table, FieldError>
    ensures { Gives (λ t. table_view t.now) (as_table (view value.now)) result }
{
    match value.as_table() {
        Some(table) => Ok(table),
        None => Err(FieldError::Field),
    }
}

pub fn array_in(value: &Value) -> Result<&Array, FieldError>
    ensures { Gives (λ a. array_view a.now) (as_array (view value.now)) result }
{
    match value.as_array() {
        Some(items) => Ok(items),
        None => Err(FieldError::Field),
    }
}

/// The bytes of a text.
pub fn text_in(value: &Value) -> Result<&[u8], FieldError>
    ensures { Gives (λ t. t.now) (as_str (view value.now)) result }
{
    match value.as_str() {
        Some(text) => Ok(text.as_bytes()),
        None => Err(FieldError::Field),
    }
}

/// An integer from `low` to `high`.
pub fn number_in(value: &Value, low: u32, high: u32) -> Result<u32, FieldError>
    ensures number { Gives (λ n. n) (number_in low high (view value.now)) result }
    ensures range { IfOk result (λ n. (low ≤ n) × (n ≤ high)) }
{
    match value.as_integer() {
        Some(n) if n >= i64::from(low) && n <= i64::from(high) => Ok(n as u32),
        _ => Err(FieldError::Field),
    }
}

fn is_name_byte(b: u8) -> bool
    ensures { result ≡ is_name_byte b }
{
    b.is_ascii_alphanumeric() || b"_-".contains(&b)
}

fn are_name_bytes(text: &[u8]) -> bool
    ensures { result ≡ list_all is_name_byte text.now }
{
    text.iter().all(|b| is_name_byte(*b))
}

fn is_name(text: &[u8]) -> bool
    ensures { result ≡ is_name text.now }
{
    text.len() >= 1 && text.len() <= 32 && are_name_bytes(text)
}

/// The name of an iterator.
pub fn name_in(alloc: Global, value: &Value) -> Result<ByteText, FieldError>
    ensures text { Gives (λ t. t) (name_in (view value.now)) result }
    ensures name { IfOk result (λ t. is_name t ≡ true) }
{
    let text = text_in(value)?;
    if !is_name(text) {
        return Err(FieldError::Field);
    }
    Ok(ByteText::of(alloc, text)?)
}

/// A flag, which is false where nothing stands under the key.
pub fn flag_in(table: &Table, key: &str) -> Result<bool, FieldError>
    ensures { Gives (λ b. b) (flag_in (get_member key.now (table_view table.now))) result }
{
    let Some(value) = find(table, key) else {
        return Ok(false);
    };
    match value.as_bool() {
        Some(flag) => Ok(flag),
        None => Err(FieldError::Field),
    }
}

/// An integer, which is `default` where nothing stands under the key.
pub fn integer_or(table: &Table, key: &str, default: i64) -> Result<i64, FieldError>
    ensures { Gives (λ z. z) (integer_or default (get_member key.now (table_view table.now))) result }
{
    let Some(value) = find(table, key) else {
        return Ok(default);
    };
    match value.as_integer() {
        Some(integer) => Ok(integer),
        None => Err(FieldError::Field),
    }
}

/// One scope more.
#[tactic(auto, unfolding(crate::specs::Fields::with_scope))]
fn with_scope(scopes: Scopes, word: &[u8]) -> Result<Scopes, FieldError>
    ensures { Gives (λ s. s) (with_scope scopes word.now) result }
{
    if word == b"scan".as_slice() {
        if scopes.scan {
            return Err(FieldError::Field);
        }
        return Ok(Scopes {
            scan: true,
            ..scopes
        });
    }
    if word == b"minc".as_slice() {
        if scopes.minc {
            return Err(FieldError::Field);
        }
        return Ok(Scopes {
            minc: true,
            ..scopes
        });
    }
    if word == b"majc".as_slice() {
        if scopes.majc {
            return Err(FieldError::Field);
        }
        return Ok(Scopes {
            majc: true,
            ..scopes
        });
    }
    Err(FieldError::Field)
}

fn scopes_of(items: &Array) -> Result<Scopes, FieldError>
    ensures { Gives (λ s. s) (scopes_from no_scopes (array_view items.now)) result }
{
    let mut scopes = Scopes {
        scan: false,
        minc: false,
        majc: false,
    };
    for i in 0..items.len() {
        let word = text_in(&items[i])?;
        scopes = with_scope(scopes, word)?;
    }
    Ok(scopes)
}

/// Where an iterator runs: 1 to 3 different scopes.
#[tactic(auto, unfolding(crate::specs::Fields::scopes_in))]
pub fn scopes_in(value: &Value) -> Result<Scopes, FieldError>
    ensures { Gives (λ s. s) (scopes_in (view value.now)) result }
{
    let items = array_in(value)?;
    let scopes = scopes_of(items)?;
    if scopes.scan || scopes.minc || scopes.majc {
        Ok(scopes)
    } else {
        Err(FieldError::Field)
    }
}
