//! How a source is moved to a document under a term, and behind it.
ghost use Rattle.std.specs.Prelude.{◌≡◌, ◌≤◌, true, IsSome, IsOk, OnOk, not, length};
ghost use Rattle.tablet_model.specs.Cell.{Cell};
ghost use Rattle.tablet_model.specs.Cuts.{within, Before, Cut, Everything};
ghost use Rattle.tablet_model.specs.Sorted.{from_first};
ghost use Rattle.cell_key.specs.Views.{key_of};
ghost use Rattle.intersecting.specs.Searches.{document_start, is_at_row, is_under, place, under, IsRowStart};

use cell_key::{Bound, ColumnBuf, KeyRef, NoMemory, Range};
use iter_contract::SortedSource;

/// The first key that the document of the kept column can have under a term.
fn document_start<'a>(column: &'a ColumnBuf, term: &'a [u8]) -> KeyRef<'a>
    requires kept { IsSome column.now }
    requires short { length term.now ≤ 1024 }
    ensures { key_of result ≡ document_start (place column.now) term.now }
{
    let key = column.key(0, false);
    KeyRef {
        row: key.row,
        family: term,
        qualifier: key.qualifier,
        visibility: &[],
        time: i64::MAX,
        deleted: true,
    }
}

/// Moves to the first entry from the document of the kept column on, under a term.
fn seek_document<S: SortedSource>(
    source: &mut S,
    column: &ColumnBuf,
    term: &[u8],
) -> Result<(), NoMemory>
    requires valid { S.valid source.old }
    requires kept { IsSome column.now }
    requires short { length term.now ≤ 1024 }
    ensures valid { S.valid source.new }
    ensures cells { S.cells source.new ≡ S.cells source.old }
    ensures steady { S.steady source.new ≡ S.steady source.old }
    ensures rest { OnOk result (S.rest source.new ≡
        within (record { start = Before (document_start (place column.now) term.now); end = Everything }) (S.cells source.old)) }
    ensures works { S.steady source.old ≡ true → IsOk result }
{
    source.seek(&Range {
        start: Bound::At(document_start(column, term)),
        end: Bound::Open,
    })
}

/// Whether the key is of the document of the kept column, under a term.
#[tactic(auto, using(tablet_model::proofs::Texts::same_bytes_pointwise))]
fn is_under(column: &ColumnBuf, term: &[u8], key: KeyRef<'_>) -> bool
    requires { IsSome column.now }
    ensures { (e : Cell) → e.key ≡ key_of key.entry → result ≡ is_under (place column.now) term.now e }
{
    let own = column.key(0, false);
    own.row == key.row && (term == key.family && own.qualifier == key.qualifier)
}

/// Steps over what is left of the document of the kept column under a term.
fn skip_document<S: SortedSource>(
    source: &mut S,
    column: &ColumnBuf,
    term: &[u8],
) -> Result<(), NoMemory>
    requires valid { S.valid source.old }
    requires kept { IsSome column.now }
    ensures valid { S.valid source.new }
    ensures cells { S.cells source.new ≡ S.cells source.old }
    ensures steady { S.steady source.new ≡ S.steady source.old }
    ensures rest { OnOk result (S.rest source.new ≡ from_first (λ e. not (is_under (place column.now) term.now e)) (S.rest source.old)) }
    ensures works { S.steady source.old ≡ true → IsOk result }
{
    while let Some(entry) = source.top() {
        if !is_under(column, term, entry.key) {
            return Ok(());
        }
        source.next()?;
    }
    Ok(())
}

/// Moves to the first entry behind the document of the kept column under a term, or from the document on.
pub(crate) fn stand<S: SortedSource>(
    source: &mut S,
    column: &ColumnBuf,
    term: &[u8],
    behind: bool,
) -> Result<(), NoMemory>
    requires valid { S.valid source.old }
    requires kept { IsSome column.now }
    requires short { length term.now ≤ 1024 }
    ensures valid { S.valid source.new }
    ensures cells { S.cells source.new ≡ S.cells source.old }
    ensures steady { S.steady source.new ≡ S.steady source.old }
    ensures rest { OnOk result (S.rest source.new ≡ under behind (place column.now) term.now (S.cells source.old)) }
    ensures works { S.steady source.old ≡ true → IsOk result }
{
    seek_document(source, column, term)?;
    if behind {
        skip_document(source, column, term)?;
    }
    Ok(())
}

/// Keeps the beginning of the row at whose first entry the source stands, behind a cut at the border of a row. Answers whether
/// there is one.
pub(crate) fn keep_row<S: SortedSource>(source: &S, column: &mut ColumnBuf) -> bool
    requires valid { S.valid source.now }
    ensures stays { IsSome column.old → IsSome column.new }
    ensures kept { result ≡ true → IsSome column.new }
    ensures row { (cut : Cut) → is_at_row cut ≡ true
        → S.rest source.now ≡ within (record { start = cut; end = Everything }) (S.cells source.now)
        → IsRowStart (S.cells source.now) cut (place column.new) result }
{
    let Some(entry) = source.top() else {
        return false;
    };
    column.set(KeyRef {
        row: entry.key.row,
        family: &[],
        qualifier: &[],
        visibility: &[],
        time: 0,
        deleted: false,
    });
    true
}
