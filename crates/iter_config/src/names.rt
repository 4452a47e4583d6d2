//! Escaped names, and the names of columns.
ghost use Rattle.std.specs.Prelude.{◌≡◌, ◌≤◌, ◌==◌, IfOk, IfSome, All, codes, length, option_map, position};
ghost use Rattle.toml.specs.Data.{as_str, get_member};
ghost use Rattle.toml.specs.View.{array_view, table_view, view};
ghost use Rattle.iter_config.specs.Faults.{Gives};
ghost use Rattle.iter_config.specs.Limits.{AreColumns, AreNames, AreTimed, IsShortColumn, IsShortName};
ghost use Rattle.iter_config.specs.Names.{column_at, column_of, columns_in, columns_of, listed_in, listed_or_none, name_of, name_or_none, names_in, names_of, spelled_in, timed_or_none};

use crate::error::FieldError;
use crate::fields::{array_in, find, text_in};
use cell_key::{ByteText, ColumnName, Columns, Names, TextError, unescape};
use std::alloc::Global;
use toml::value::{Array, Table, Value};

/// The most bytes of a name.
const MAX_NAME: usize = 1024;

/// The most names in a list.
const MAX_NAMES: usize = 64;

/// The name that a text spells.
fn name_of(alloc: Global, text: &[u8]) -> Result<ByteText, FieldError>
    ensures name { Gives (λ n. n) (name_of text.now) result }
    ensures short { IfOk result IsShortName }
{
    match unescape(alloc, text) {
        Ok(name) if name.len() <= MAX_NAME => Ok(name),
        Ok(_) => Err(FieldError::Field),
        Err(TextError::Fault { .. }) => Err(FieldError::Field),
        Err(TextError::NoMemory) => Err(FieldError::NoMemory),
    }
}

/// The name that a field spells.
pub fn spelled_in(alloc: Global, value: &Value) -> Result<ByteText, FieldError>
    ensures name { Gives (λ n. n) (spelled_in (view value.now)) result }
    ensures short { IfOk result IsShortName }
{
    let text = text_in(value)?;
    name_of(alloc, text)
}

/// The name under a key, if anything stands there.
pub fn name_or_none(alloc: Global, table: &Table, key: &str) -> Result<Option<ByteText>, FieldError>
    ensures name { Gives (λ n. n) (name_or_none (get_member key.now (table_view table.now))) result }
    ensures short { IfOk result (λ n. IfSome n IsShortName) }
{
    let Some(value) = find(table, key) else {
        return Ok(None);
    };
    let name = spelled_in(alloc, value)?;
    Ok(Some(name))
}

fn names_of(alloc: Global, items: &Array) -> Result<Names, FieldError>
    ensures names { Gives (λ n. n) (names_of (array_view items.now)) result }
    ensures short { IfOk result (λ n. All IsShortName n) }
{
    let mut names = Names::new(alloc);
    for i in 0..items.len() {
        let name = spelled_in(alloc, &items[i])?;
        names.push(name)?;
    }
    Ok(names)
}

/// A list of names.
pub fn names_in(alloc: Global, value: &Value) -> Result<Names, FieldError>
    ensures names { Gives (λ n. n) (names_in (view value.now)) result }
    ensures limits { IfOk result AreNames }
{
    let items = array_in(value)?;
    let names = names_of(alloc, items)?;
    if names.len() >= 1 && names.len() <= MAX_NAMES {
        Ok(names)
    } else {
        Err(FieldError::Field)
    }
}

/// Some names, as many as there are.
pub fn listed_in(alloc: Global, value: &Value) -> Result<Names, FieldError>
    ensures names { Gives (λ n. n) (listed_in (view value.now)) result }
    ensures short { IfOk result (λ n. All IsShortName n) }
{
    let items = array_in(value)?;
    names_of(alloc, items)
}

/// The names under a key, which are none where nothing stands there.
pub fn listed_or_none(alloc: Global, table: &Table, key: &str) -> Result<Names, FieldError>
    ensures names { Gives (λ n. n) (listed_or_none (get_member key.now (table_view table.now))) result }
    ensures short { IfOk result (λ n. All IsShortName n) }
{
    match find(table, key) {
        Some(value) => listed_in(alloc, value),
        None => Ok(Names::new(alloc)),
    }
}

/// The families whose puts bring times of their own, which are none where nothing stands under the key.
pub fn timed_or_none(alloc: Global, table: &Table) -> Result<Names, FieldError>
    ensures names { Gives (λ n. n) (timed_or_none (get_member (codes "timed") (table_view table.now))) result }
    ensures limits { IfOk result AreTimed }
{
    match find(table, "timed") {
        Some(value) => names_in(alloc, value),
        None => Ok(Names::new(alloc)),
    }
}

/// Where the first colon stands.
fn colon(text: &[u8]) -> Option<usize>
    ensures { result ≡ position (λ b. b == 58) text.now }
{
    text.iter().position(|b| *b == b':')
}

/// The name of columns that a text is.
#[tactic(auto, unfolding(crate::specs::Names::column_at))]
fn column_of(alloc: Global, text: &[u8]) -> Result<ColumnName, FieldError>
    ensures column { Gives (λ c. c) (column_of text.now) result }
    ensures short { IfOk result IsShortColumn }
{
    let Some(cut) = colon(text) else {
        let family = name_of(alloc, text)?;
        return Ok(ColumnName {
            family,
            qualifier: None,
        });
    };
    let family = name_of(alloc, &text[..cut])?;
    let qualifier = name_of(alloc, &text[cut + 1..])?;
    Ok(ColumnName {
        family,
        qualifier: Some(qualifier),
    })
}

fn columns_of(alloc: Global, items: &Array) -> Result<Columns, FieldError>
    ensures columns { Gives (λ c. c) (columns_of (array_view items.now)) result }
    ensures short { IfOk result (λ c. All IsShortColumn c) }
{
    let mut columns = Columns::new(alloc);
    for i in 0..items.len() {
        let text = text_in(&items[i])?;
        let column = column_of(alloc, text)?;
        columns.push(column)?;
    }
    Ok(columns)
}

/// A list of names of columns.
pub fn columns_in(alloc: Global, value: &Value) -> Result<Columns, FieldError>
    ensures columns { Gives (λ c. c) (columns_in (view value.now)) result }
    ensures limits { IfOk result AreColumns }
{
    let items = array_in(value)?;
    let columns = columns_of(alloc, items)?;
    if columns.len() >= 1 && columns.len() <= MAX_NAMES {
        Ok(columns)
    } else {
        Err(FieldError::Field)
    }
}
