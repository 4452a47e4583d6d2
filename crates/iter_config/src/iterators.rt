//! The iterators that tables describe.
ghost use Rattle.std.specs.Prelude.{◌≡◌, ◌≤◌, IfOk, All, length, map, codes};
ghost use Rattle.toml.specs.View.{array_view, table_view, view};
ghost use Rattle.iter_config.specs.Faults.{Gives, Reads};
ghost use Rattle.iter_config.specs.Iterators.{iterator_of, iterators_from, kind_of, versions_of};
ghost use Rattle.iter_config.specs.Limits.{AreFields, IsLimited};

use crate::combiners::{combiner_of, op_of};
use crate::error::{ConfigError, FieldError, Rule};
use crate::fields::{has_only, member, name_in, number_in, scopes_in, table_in, text_in};
use crate::filters::filter_of;
use crate::iter_spec::{IterSpec, Kind};
use crate::scan_only::{intersecting_of, whole_row_of};
use std::alloc::Global;
use toml::value::{Array, Table, Value};

/// The most iterators that a configuration may have.
pub const MAX_ITERATORS: usize = 16;

/// The most versions of a column that an iterator may keep.
const MAX_VERSIONS: u32 = 1000;

/// The highest priority.
const MAX_PRIORITY: u32 = i32::MAX as u32;

#[tactic(auto, unfolding(crate::specs::Iterators::versions_of))]
fn versions_of(table: &Table) -> Result<Kind, FieldError>
    ensures kind { Gives (λ k. k) (versions_of (table_view table.now)) result }
    ensures limits { IfOk result IsLimited }
{
    let max = number_in(member(table, "max")?, 1, MAX_VERSIONS)?;
    if has_only(table, &["max", "name", "priority", "kind", "scopes"]) {
        Ok(Kind::Versions { max })
    } else {
        Err(FieldError::Field)
    }
}

/// What the iterator of a table does, by the word of its kind.
#[tactic(auto, unfolding(crate::specs::Iterators::kind_of))]
fn kind_of(alloc: Global, word: &[u8], table: &Table) -> Result<Kind, FieldError>
    ensures kind { Gives (λ k. k) (kind_of word.now (table_view table.now)) result }
    ensures limits { IfOk result IsLimited }
{
    if word == b"versions".as_slice() {
        return versions_of(table);
    }
    if word == b"whole_row".as_slice() {
        return whole_row_of(table);
    }
    if word == b"intersecting".as_slice() {
        return intersecting_of(alloc, table);
    }
    match op_of(word) {
        Some(op) => combiner_of(alloc, op, table),
        None => filter_of(alloc, word, table),
    }
}

/// The iterator that a table describes.
#[tactic(auto, unfolding(crate::specs::Iterators::iterator_of))]
fn iterator_of(alloc: Global, value: &Value) -> Result<IterSpec, FieldError>
    ensures iterator { Gives (λ s. s) (iterator_of (view value.now)) result }
    ensures limits { IfOk result (λ s. AreFields s) }
{
    let table = table_in(value)?;
    let name = name_in(alloc, member(table, "name")?)?;
    let priority = number_in(member(table, "priority")?, 1, MAX_PRIORITY)?;
    let scopes = scopes_in(member(table, "scopes")?)?;
    let word = text_in(member(table, "kind")?)?;
    let kind = kind_of(alloc, word, table)?;
    Ok(IterSpec {
        name,
        priority,
        kind,
        scopes,
    })
}

/// The iterators of an array, as they stand there.
pub fn iterators_in(alloc: Global, items: &Array) -> Result<Vec<IterSpec>, ConfigError>
    requires { length items.now.items ≤ MAX_ITERATORS }
    ensures iterators { Reads (λ v. v.items) (iterators_from 1 (array_view items.now)) result }
    ensures few { IfOk result (λ v. length v.items ≤ MAX_ITERATORS) }
    ensures limits { IfOk result (λ v. All AreFields v.items) }
{
    let mut iterators = Vec::new(alloc);
    for i in 0..items.len() {
        match iterator_of(alloc, &items[i]) {
            Ok(iterator) => iterators.push(iterator)?,
            Err(FieldError::Field) => {
                return Err(ConfigError::Refused {
                    rule: Rule::Field,
                    at: i as u32 + 1,
                });
            }
            Err(FieldError::NoMemory) => return Err(ConfigError::NoMemory),
        }
    }
    Ok(iterators)
}
