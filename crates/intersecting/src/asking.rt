//! What a source shows, seen from a document and a term.
ghost use Rattle.std.specs.Prelude.{◌≡◌, true, IsSome, IsOk, IfOk, length, option_map};
ghost use Rattle.tablet_model.specs.Cell.{Cell};
ghost use Rattle.tablet_model.specs.Sorted.{first};
ghost use Rattle.tablet_model.specs.Rows.{has_term};
ghost use Rattle.cell_key.specs.Views.{cell_of};
ghost use Rattle.intersecting.specs.Searches.{place, step_to, under, IsAdvance};
ghost use Rattle.intersecting.specs.declared.asking.Step.TheVariants.{Ahead};

use crate::moving::stand;
use cell_key::{ColumnBuf, EntryRef, MAX_KEY_PART, NoMemory};
use iter_contract::SortedSource;

/// What a source shows of the documents of a row under a term, seen from one document.
#[derive(Clone, Copy)]
pub(crate) enum Step {
    /// The document itself.
    Here,
    /// A later document of the row.
    Ahead,
    /// No document of the row.
    Nowhere,
}

/// Where an entry stands, seen from the document of the kept column and a term.
#[tactic(auto, using(tablet_model::proofs::Texts::same_bytes_pointwise), unfolding(crate::specs::Searches::step_to))]
fn step_to(column: &ColumnBuf, term: &[u8], top: Option<EntryRef<'_>>) -> Step
    requires { IsSome column.now }
    ensures { result ≡ step_to (place column.now) term.now (option_map cell_of top.entry) }
{
    let Some(entry) = top else {
        return Step::Nowhere;
    };
    let own = column.key(0, false);
    let key = entry.key;
    if key.row != own.row || key.family != term {
        Step::Nowhere
    } else if key.qualifier == own.qualifier {
        Step::Here
    } else {
        Step::Ahead
    }
}

/// Moves a source to the first document that the row of the kept column has under a term, behind the column's document or from it
/// on. Answers which it is.
fn look<S: SortedSource>(
    source: &mut S,
    column: &ColumnBuf,
    term: &[u8],
    behind: bool,
) -> Result<Step, NoMemory>
    requires valid { S.valid source.old }
    requires kept { IsSome column.now }
    ensures valid { S.valid source.new }
    ensures cells { S.cells source.new ≡ S.cells source.old }
    ensures steady { S.steady source.new ≡ S.steady source.old }
    ensures step { IfOk result (λ step. step ≡ step_to (place column.now) term.now
        (first (under behind (place column.now) term.now (S.cells source.old)))) }
    ensures rest { IfOk result (λ step. step ≡ Ahead →
        S.rest source.new ≡ under behind (place column.now) term.now (S.cells source.old)) }
    ensures works { S.steady source.old ≡ true → IsOk result }
{
    if term.len() > MAX_KEY_PART {
        return Ok(Step::Nowhere);
    }
    stand(source, column, term, behind)?;
    Ok(step_to(column, term, source.top()))
}

/// Whether the source has the document of the kept column under a term.
pub(crate) fn has<S: SortedSource>(
    source: &mut S,
    column: &ColumnBuf,
    term: &[u8],
) -> Result<bool, NoMemory>
    requires valid { S.valid source.old }
    requires kept { IsSome column.now }
    ensures valid { S.valid source.new }
    ensures cells { S.cells source.new ≡ S.cells source.old }
    ensures steady { S.steady source.new ≡ S.steady source.old }
    ensures answer { IfOk result (λ answer. answer ≡ has_term (S.cells source.old) (place column.now) term.now) }
    ensures works { S.steady source.old ≡ true → IsOk result }
{
    Ok(matches!(look(source, column, term, false)?, Step::Here))
}

/// Moves the kept column to the first document that its row has under a term, behind the column's own or from it on. Answers where
/// that is.
pub(crate) fn advance<S: SortedSource>(
    source: &mut S,
    column: &mut ColumnBuf,
    term: &[u8],
    behind: bool,
) -> Result<Step, NoMemory>
    requires valid { S.valid source.old }
    requires kept { IsSome column.old }
    ensures valid { S.valid source.new }
    ensures kept { IsSome column.new }
    ensures cells { S.cells source.new ≡ S.cells source.old }
    ensures steady { S.steady source.new ≡ S.steady source.old }
    ensures advance { IfOk result (λ step. IsAdvance (S.cells source.old) term.now behind (place column.old) (place column.new) step) }
    ensures works { S.steady source.old ≡ true → IsOk result }
{
    let step = look(source, column, term, behind)?;
    if let Step::Ahead = step {
        if let Some(entry) = source.top() {
            column.set(entry.key);
        }
    }
    Ok(step)
}
