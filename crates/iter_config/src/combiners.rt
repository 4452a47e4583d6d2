//! The combiners that tables describe.
ghost use Rattle.std.specs.Prelude.{◌≡◌, IfOk};
ghost use Rattle.toml.specs.Data.{get_member};
ghost use Rattle.toml.specs.View.{table_view};
ghost use Rattle.iter_config.specs.Combiners.{combiner_of, deletes_in, deletes_of, encoding_of, op_of};
ghost use Rattle.iter_config.specs.Faults.{Gives};
ghost use Rattle.iter_config.specs.Limits.{IsLimited};

use crate::error::FieldError;
use crate::fields::{find, has_only, member, text_in};
use crate::iter_spec::{Deletes, Kind};
use crate::names::columns_in;
use number_values::{Encoding, Op};
use std::alloc::Global;
use toml::value::Table;

/// The operation of a combiner's word, and `None` for a word of another kind.
#[tactic(auto, unfolding(crate::specs::Combiners::op_of))]
pub fn op_of(word: &[u8]) -> Option<Op>
    ensures { result ≡ op_of word.now }
{
    if word == b"sum".as_slice() {
        return Some(Op::Sum);
    }
    if word == b"min".as_slice() {
        return Some(Op::Min);
    }
    if word == b"max".as_slice() {
        return Some(Op::Max);
    }
    if word == b"array_sum".as_slice() {
        return Some(Op::ArraySum);
    }
    None
}

#[tactic(auto, unfolding(crate::specs::Combiners::encoding_of))]
fn encoding_of(word: &[u8]) -> Result<Encoding, FieldError>
    ensures { Gives (λ e. e) (encoding_of word.now) result }
{
    if word == b"fixed".as_slice() {
        return Ok(Encoding::Fixed);
    }
    if word == b"string".as_slice() {
        return Ok(Encoding::String);
    }
    Err(FieldError::Field)
}

#[tactic(auto, unfolding(crate::specs::Combiners::deletes_of))]
fn deletes_of(word: &[u8]) -> Result<Deletes, FieldError>
    ensures { Gives (λ d. d) (deletes_of word.now) result }
{
    if word == b"none".as_slice() {
        return Ok(Deletes::None);
    }
    if word == b"full".as_slice() {
        return Ok(Deletes::Full);
    }
    Err(FieldError::Field)
}

/// The deletes under the key, which are none where nothing stands there.
fn deletes_in(table: &Table, key: &str) -> Result<Deletes, FieldError>
    ensures { Gives (λ d. d) (deletes_in (get_member key.now (table_view table.now))) result }
{
    let Some(value) = find(table, key) else {
        return Ok(Deletes::None);
    };
    let word = text_in(value)?;
    deletes_of(word)
}

/// The combiner of a table.
#[tactic(auto, unfolding(crate::specs::Combiners::combiner_of))]
pub fn combiner_of(alloc: Global, op: Op, table: &Table) -> Result<Kind, FieldError>
    ensures kind { Gives (λ k. k) (combiner_of op (table_view table.now)) result }
    ensures limits { IfOk result IsLimited }
{
    let columns = columns_in(alloc, member(table, "columns")?)?;
    let word = text_in(member(table, "encoding")?)?;
    let encoding = encoding_of(word)?;
    let deletes = deletes_in(table, "deletes")?;
    if has_only(
        table,
        &[
            "columns", "encoding", "deletes", "name", "priority", "kind", "scopes",
        ],
    ) {
        Ok(Kind::Combine {
            op,
            columns,
            encoding,
            deletes,
        })
    } else {
        Err(FieldError::Field)
    }
}
