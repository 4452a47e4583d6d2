//! The filters that tables describe.
ghost use Rattle.std.specs.Prelude.{◌≡◌, IfOk};
ghost use Rattle.toml.specs.View.{table_view};
ghost use Rattle.iter_config.specs.Faults.{Gives};
ghost use Rattle.iter_config.specs.Filters.{family_test, filter_of, grep_test, qualifier_test, test_of, times_test, visibility_test};
ghost use Rattle.iter_config.specs.Limits.{IsLimited, IsLimitedTest};

use crate::error::FieldError;
use crate::fields::{flag_in, has_only, integer_or, member};
use crate::iter_spec::Kind;
use crate::names::{name_or_none, names_in, spelled_in};
use crate::predicate::Predicate;
use std::alloc::Global;
use toml::value::Table;

#[tactic(auto, unfolding(crate::specs::Filters::family_test))]
fn family_test(alloc: Global, table: &Table) -> Result<Predicate, FieldError>
    ensures test { Gives (λ p. p) (family_test (table_view table.now)) result }
    ensures limits { IfOk result IsLimitedTest }
{
    let families = names_in(alloc, member(table, "families")?)?;
    if has_only(
        table,
        &["families", "negate", "name", "priority", "kind", "scopes"],
    ) {
        Ok(Predicate::Family { families })
    } else {
        Err(FieldError::Field)
    }
}

#[tactic(auto, unfolding(crate::specs::Filters::qualifier_test))]
fn qualifier_test(alloc: Global, table: &Table) -> Result<Predicate, FieldError>
    ensures test { Gives (λ p. p) (qualifier_test (table_view table.now)) result }
    ensures limits { IfOk result IsLimitedTest }
{
    let from = name_or_none(alloc, table, "from")?;
    let to = name_or_none(alloc, table, "to")?;
    if has_only(
        table,
        &["from", "to", "negate", "name", "priority", "kind", "scopes"],
    ) {
        Ok(Predicate::QualifierSlice { from, to })
    } else {
        Err(FieldError::Field)
    }
}

#[tactic(auto, unfolding(crate::specs::Filters::visibility_test))]
fn visibility_test(alloc: Global, table: &Table) -> Result<Predicate, FieldError>
    ensures test { Gives (λ p. p) (visibility_test (table_view table.now)) result }
    ensures limits { IfOk result IsLimitedTest }
{
    let visibilities = names_in(alloc, member(table, "visibilities")?)?;
    if has_only(
        table,
        &[
            "visibilities",
            "negate",
            "name",
            "priority",
            "kind",
            "scopes",
        ],
    ) {
        Ok(Predicate::VisibilitySet { visibilities })
    } else {
        Err(FieldError::Field)
    }
}

#[tactic(auto, unfolding(crate::specs::Filters::grep_test))]
fn grep_test(alloc: Global, table: &Table) -> Result<Predicate, FieldError>
    ensures test { Gives (λ p. p) (grep_test (table_view table.now)) result }
    ensures limits { IfOk result IsLimitedTest }
{
    let needle = spelled_in(alloc, member(table, "needle")?)?;
    if needle.len() < 1 {
        return Err(FieldError::Field);
    }
    if has_only(
        table,
        &["needle", "negate", "name", "priority", "kind", "scopes"],
    ) {
        Ok(Predicate::Grep { needle })
    } else {
        Err(FieldError::Field)
    }
}

#[tactic(auto, unfolding(crate::specs::Filters::times_test))]
fn times_test(table: &Table) -> Result<Predicate, FieldError>
    ensures test { Gives (λ p. p) (times_test (table_view table.now)) result }
    ensures limits { IfOk result IsLimitedTest }
{
    let from = integer_or(table, "from", i64::MIN)?;
    let to = integer_or(table, "to", i64::MAX)?;
    if has_only(
        table,
        &["from", "to", "negate", "name", "priority", "kind", "scopes"],
    ) {
        Ok(Predicate::Times { from, to })
    } else {
        Err(FieldError::Field)
    }
}

/// What the filter of a table tests, by the word of its kind.
#[tactic(auto, unfolding(crate::specs::Filters::test_of))]
fn test_of(alloc: Global, word: &[u8], table: &Table) -> Result<Predicate, FieldError>
    ensures test { Gives (λ p. p) (test_of word.now (table_view table.now)) result }
    ensures limits { IfOk result IsLimitedTest }
{
    if word == b"family".as_slice() {
        return family_test(alloc, table);
    }
    if word == b"qualifier_slice".as_slice() {
        return qualifier_test(alloc, table);
    }
    if word == b"visibility_set".as_slice() {
        return visibility_test(alloc, table);
    }
    if word == b"grep".as_slice() {
        return grep_test(alloc, table);
    }
    if word == b"times".as_slice() {
        return times_test(table);
    }
    Err(FieldError::Field)
}

/// The filter of a table.
#[tactic(auto, unfolding(crate::specs::Filters::filter_of))]
pub fn filter_of(alloc: Global, word: &[u8], table: &Table) -> Result<Kind, FieldError>
    ensures kind { Gives (λ k. k) (filter_of word.now (table_view table.now)) result }
    ensures limits { IfOk result IsLimited }
{
    let predicate = test_of(alloc, word, table)?;
    let negate = flag_in(table, "negate")?;
    Ok(Kind::Filter { predicate, negate })
}
