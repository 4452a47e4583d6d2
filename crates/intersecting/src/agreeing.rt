//! Whether a document has several terms: each is asked of a source of its own.
ghost use Rattle.std.specs.Prelude.{◌≡◌, ◌≤◌, ◌+◌, true, not, map, IsSome, IsOk, IfOk, List, length};
ghost use Rattle.std.specs.List.{AllByRecursion, list_any};
ghost use Rattle.tablet_model.specs.Cell.{Cell};
ghost use Rattle.tablet_model.specs.Rows.{has_term};
ghost use Rattle.iter_contract.specs.Several.{all_steady};
ghost use Rattle.intersecting.specs.Searches.{place, IsAgreement};

use crate::asking::{Step, advance, has};
use cell_key::{ByteText, ColumnBuf, NoMemory};
use iter_contract::SortedSource;

/// Moves the kept document forward, within its row, until each term's source has shown it or a later one: the sources behind the
/// first are asked, one for each term. Answers whether all of them have the document, or it was moved, or one of them has none.
pub(crate) fn ask_terms<S: SortedSource>(
    sources: &mut [S],
    column: &mut ColumnBuf,
    terms: &[ByteText],
) -> Result<Step, NoMemory>
    requires valid { AllByRecursion S.valid sources.old }
    requires kept { IsSome column.old }
    requires count { 1 + length terms.now ≤ length sources.old }
    ensures valid { AllByRecursion S.valid sources.new }
    ensures kept { IsSome column.new }
    ensures cells { map S.cells sources.new ≡ map S.cells sources.old }
    ensures steady { map S.steady sources.new ≡ map S.steady sources.old }
    ensures agreement { (list : List Cell) → AllByRecursion (λ cells. cells ≡ list) (map S.cells sources.old) →
        IfOk result (λ step. IsAgreement list terms.now (place column.old) (place column.new) step) }
    ensures works { all_steady S.steady sources.old ≡ true → IsOk result }
{
    let mut step = Step::Here;
    for (i, term) in terms.iter().enumerate() {
        match advance(&mut sources[i + 1], column, term.bytes(), false)? {
            Step::Here => {}
            Step::Ahead => step = Step::Ahead,
            Step::Nowhere => return Ok(Step::Nowhere),
        }
    }
    Ok(step)
}

/// Whether the kept document has none of these terms. The sources from the place `from` on are asked, one for each term.
pub(crate) fn lacks_all<S: SortedSource>(
    sources: &mut [S],
    from: usize,
    column: &ColumnBuf,
    terms: &[ByteText],
) -> Result<bool, NoMemory>
    requires valid { AllByRecursion S.valid sources.old }
    requires kept { IsSome column.now }
    requires count { from + length terms.now ≤ length sources.old }
    ensures valid { AllByRecursion S.valid sources.new }
    ensures cells { map S.cells sources.new ≡ map S.cells sources.old }
    ensures steady { map S.steady sources.new ≡ map S.steady sources.old }
    ensures answer { (list : List Cell) → AllByRecursion (λ cells. cells ≡ list) (map S.cells sources.old) →
        IfOk result (λ answer. answer ≡ not (list_any (has_term list (place column.now)) terms.now)) }
    ensures works { all_steady S.steady sources.old ≡ true → IsOk result }
{
    for (i, term) in terms.iter().enumerate() {
        if has(&mut sources[from + i], column, term.bytes())? {
            return Ok(false);
        }
    }
    Ok(true)
}
