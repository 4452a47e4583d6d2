//! A search for documents that have all terms and none of others.
ghost use Rattle.std.specs.Prelude.{◌≡◌, ◌≤◌, ◌+◌, true, [], map, IsSome, IsOk, IfOk, length, List};
ghost use Rattle.std.specs.List.{AllByRecursion};
ghost use Rattle.tablet_model.specs.Cell.{Cell};
ghost use Rattle.tablet_model.specs.Cuts.{BehindRow};
ghost use Rattle.iter_contract.specs.Several.{all_steady};
ghost use Rattle.intersecting.specs.Searches.{place, IsRound, IsRowStart, IsSearch};
ghost use Rattle.intersecting.specs.Firsts.{at_first};

use crate::agreeing::{ask_terms, lacks_all};
use crate::asking::{Step, advance};
use crate::moving::keep_row;
use cell_key::{Bound, ByteText, ColumnBuf, NoMemory, Range};
use iter_contract::SortedSource;

/// What a round of a search came to.
#[derive(Clone, Copy)]
pub(crate) enum Round {
    /// A document that has all terms and none of the others.
    Hit,
    /// A place to go on from: behind the kept document where the flag says so, or from it on.
    On(bool),
    /// The end of the row.
    Row,
}

/// Moves the kept document to the next that the first term has, behind it or from it on, and asks the other sources for it.
fn meet<S: SortedSource>(
    sources: &mut [S],
    column: &mut ColumnBuf,
    terms: &[ByteText],
    without: &[ByteText],
    behind: bool,
) -> Result<Round, NoMemory>
    requires valid { AllByRecursion S.valid sources.old }
    requires kept { IsSome column.old }
    requires some { 1 ≤ length terms.now }
    requires count { length sources.old ≡ length terms.now + length without.now }
    ensures valid { AllByRecursion S.valid sources.new }
    ensures kept { IsSome column.new }
    ensures cells { map S.cells sources.new ≡ map S.cells sources.old }
    ensures steady { map S.steady sources.new ≡ map S.steady sources.old }
    ensures round { (list : List Cell) → AllByRecursion (λ cells. cells ≡ list) (map S.cells sources.old) →
        IfOk result (λ round. IsRound list terms.now without.now behind (place column.old) (place column.new) round) }
    ensures works { all_steady S.steady sources.old ≡ true → IsOk result }
{
    if let Step::Nowhere = advance(&mut sources[0], column, terms[0].bytes(), behind)? {
        return Ok(Round::Row);
    }
    match ask_terms(sources, column, &terms[1..])? {
        Step::Here => {}
        Step::Ahead => return Ok(Round::On(false)),
        Step::Nowhere => return Ok(Round::Row),
    }
    if lacks_all(sources, terms.len(), column, without)? {
        Ok(Round::Hit)
    } else {
        Ok(Round::On(true))
    }
}

/// Moves to the first row behind that of the kept column, and keeps its beginning. Answers whether there is one.
fn next_row<S: SortedSource>(source: &mut S, column: &mut ColumnBuf) -> Result<bool, NoMemory>
    requires valid { S.valid source.old }
    requires kept { IsSome column.old }
    ensures valid { S.valid source.new }
    ensures cells { S.cells source.new ≡ S.cells source.old }
    ensures steady { S.steady source.new ≡ S.steady source.old }
    ensures kept { IfOk result (λ found. IsSome column.new) }
    ensures row { IfOk result (λ found. IsRowStart (S.cells source.old) (BehindRow (place column.old).key.row) (place column.new) found) }
    ensures works { S.steady source.old ≡ true → IsOk result }
{
    let row = column.key(0, false).row;
    source.seek(&Range {
        start: Bound::PastRow(row),
        end: Bound::Open,
    })?;
    Ok(keep_row(source, column))
}

/// Moves the kept document to the next that has all terms and none of the others, behind it or from it on. Answers whether there
/// is one.
pub(crate) fn search<S: SortedSource>(
    sources: &mut [S],
    column: &mut ColumnBuf,
    terms: &[ByteText],
    without: &[ByteText],
    behind: bool,
) -> Result<bool, NoMemory>
    requires valid { AllByRecursion S.valid sources.old }
    requires kept { IsSome column.old }
    requires some { 1 ≤ length terms.now }
    requires count { length sources.old ≡ length terms.now + length without.now }
    requires same { AllByRecursion (λ cells. cells ≡ at_first S.cells [] sources.old) (map S.cells sources.old) }
    ensures valid { AllByRecursion S.valid sources.new }
    ensures kept { IfOk result (λ found. IsSome column.new) }
    ensures cells { map S.cells sources.new ≡ map S.cells sources.old }
    ensures steady { map S.steady sources.new ≡ map S.steady sources.old }
    ensures search { IfOk result (λ found. IsSearch (at_first S.cells [] sources.old) terms.now without.now behind
        (place column.old) (place column.new) found) }
    ensures works { all_steady S.steady sources.old ≡ true → IsOk result }
{
    let mut is_behind = behind;
    loop {
        match meet(sources, column, terms, without, is_behind)? {
            Round::Hit => return Ok(true),
            Round::On(next) => is_behind = next,
            Round::Row => {
                if !next_row(&mut sources[0], column)? {
                    return Ok(false);
                }
                is_behind = false;
            }
        }
    }
}
