//! The iterators of scans alone that tables describe.
ghost use Rattle.std.specs.Prelude.{◌≡◌, IfOk};
ghost use Rattle.toml.specs.View.{table_view};
ghost use Rattle.iter_config.specs.Faults.{Gives};
ghost use Rattle.iter_config.specs.Limits.{IsLimited};
ghost use Rattle.iter_config.specs.ScanOnly.{are_terms, intersecting_of, whole_row_of};

use crate::error::FieldError;
use crate::fields::{has_only, member};
use crate::iter_spec::Kind;
use crate::names::{listed_in, listed_or_none};
use cell_key::Names;
use std::alloc::Global;
use toml::value::Table;

/// The most terms of an intersection, those counted that documents are to be without.
const MAX_TERMS: usize = 16;

/// Whole rows.
#[tactic(auto, unfolding(crate::specs::ScanOnly::whole_row_of))]
pub fn whole_row_of(table: &Table) -> Result<Kind, FieldError>
    ensures kind { Gives (λ k. k) (whole_row_of (table_view table.now)) result }
    ensures limits { IfOk result IsLimited }
{
    if has_only(table, &["name", "priority", "kind", "scopes"]) {
        Ok(Kind::WholeRow)
    } else {
        Err(FieldError::Field)
    }
}

fn are_terms(terms: &Names, without: &Names) -> bool
    ensures { result ≡ are_terms terms.now without.now }
{
    let count = terms.len();
    count >= 1 && count <= MAX_TERMS && without.len() <= MAX_TERMS - count
}

/// The intersection of a table.
#[tactic(auto, unfolding(crate::specs::ScanOnly::intersecting_of))]
pub fn intersecting_of(alloc: Global, table: &Table) -> Result<Kind, FieldError>
    ensures kind { Gives (λ k. k) (intersecting_of (table_view table.now)) result }
    ensures limits { IfOk result IsLimited }
{
    let terms = listed_in(alloc, member(table, "terms")?)?;
    let without = listed_or_none(alloc, table, "not")?;
    if !are_terms(&terms, &without) {
        return Err(FieldError::Field);
    }
    if has_only(
        table,
        &["terms", "not", "name", "priority", "kind", "scopes"],
    ) {
        Ok(Kind::Intersecting { terms, without })
    } else {
        Err(FieldError::Field)
    }
}
