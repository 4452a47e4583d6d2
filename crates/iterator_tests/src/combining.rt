//! Combiners.
ghost use Rattle.std.specs.Prelude.{◌≡◌, ◌≢◌, IfOk};
ghost use Rattle.std.specs.Arc.{arc_value};
ghost use Rattle.iter_contract.specs.VecRest.{vec_cells};
ghost use Rattle.iterator_tests.specs.Examples.{example_names, example_cells, example_arrays, example_flags, AreNumbers};

use crate::fixtures::{key, leaves, range, source};
use cell_key::{Bound, ByteText, ColumnName, Columns, KeyError, KeyRef, NoMemory, Range};
use combiners::{ArrayReducer, CombineIter, LongReducer};
use iter_contract::{SortedSource, VecSource};
use number_values::{Encoding, Op};
use own_iterators::AnyFlag;
use std::alloc::Global;
use std::sync::Arc;

/// Names the columns of a family, or of one of its qualifiers.
fn name(alloc: Global, family: &[u8], qualifier: Option<ByteText>) -> Result<ColumnName, NoMemory>
    ensures { IfOk result (λ name. name ≡ record { family = family.now; qualifier = qualifier }) }
{
    let family = ByteText::of(alloc, family)?;
    Ok(ColumnName { family, qualifier })
}

/// All of the family `s`, and the qualifier `q` of the family `t`.
fn columns(alloc: Global) -> Result<Columns, NoMemory>
    ensures { IfOk result (λ columns. columns ≡ example_names) }
{
    let mut columns = Columns::new(alloc);
    columns.push(name(alloc, b"s", None)?)?;
    let qualifier = ByteText::of(alloc, b"q")?;
    columns.push(name(alloc, b"t", Some(qualifier))?)?;
    Ok(columns)
}

fn shared_columns(alloc: Global) -> Result<Arc<Columns>, NoMemory>
    ensures { IfOk result (λ columns. arc_value columns ≡ example_names) }
{
    let columns = columns(alloc)?;
    let shared = Arc::new(alloc, columns)?;
    Ok(shared)
}

/// Entries of six columns. They are numbers, and no marker stands in front of another entry of a listed column.
fn numbers(alloc: Global) -> Result<VecSource, KeyError>
    ensures { IfOk result (λ source. vec_cells source ≡ example_cells) }
{
    source(
        alloc,
        &[
            (b"1", b"a", b"x", b"", 9, false, b"1"),
            (b"1", b"s", b"x", b"", 9, false, b"1"),
            (b"1", b"s", b"x", b"", 7, false, b"20"),
            (b"1", b"s", b"x", b"", 5, false, b"300"),
            (b"1", b"s", b"x", b"", 4, true, b""),
            (b"1", b"t", b"p", b"", 8, false, b"007"),
            (b"1", b"t", b"q", b"", 8, false, b"9223372036854775807"),
            (b"1", b"t", b"q", b"", 6, false, b"007"),
            (b"2", b"s", b"y", b"", 3, false, b"007"),
        ],
    )
}

/// Entries of one column, whose values are arrays.
fn arrays(alloc: Global) -> Result<VecSource, KeyError>
    ensures { IfOk result (λ source. vec_cells source ≡ example_arrays) }
{
    source(
        alloc,
        &[
            (b"1", b"s", b"x", b"", 9, false, b"4,6,5"),
            (b"1", b"s", b"x", b"", 7, false, b"1"),
            (b"1", b"s", b"x", b"", 5, false, b"0,0,0,7"),
        ],
    )
}

/// Entries of two columns, whose values are flags.
fn flags(alloc: Global) -> Result<VecSource, KeyError>
    ensures { IfOk result (λ source. vec_cells source ≡ example_flags) }
{
    source(
        alloc,
        &[
            (b"1", b"s", b"x", b"", 9, false, b"0"),
            (b"1", b"s", b"x", b"", 7, false, b"1"),
            (b"1", b"s", b"x", b"", 5, false, b"0"),
            (b"2", b"s", b"x", b"", 3, false, b"0"),
        ],
    )
}

/// Whether these are left in a range of the numbers where an operation joins them.
fn joins(
    alloc: Global,
    source: &VecSource,
    op: Op,
    range: &Range<'_>,
    want: &[u8],
) -> Result<bool, NoMemory>
    requires op { op ≢ Op.ArraySum }
    requires read { AreNumbers op example_names example_cells }
    requires cells { vec_cells source.now ≡ example_cells }
{
    let columns = shared_columns(alloc)?;
    let reducer = LongReducer::new(op, Encoding::String);
    let joined = CombineIter::new(alloc, source.deep_copy(alloc)?, columns, reducer)?;
    leaves(alloc, &joined, range, want)
}

/// Whether these are left of arrays that are added.
fn adds(alloc: Global, source: VecSource, want: &[u8]) -> Result<bool, NoMemory>
    requires { vec_cells source ≡ example_arrays }
{
    let columns = shared_columns(alloc)?;
    let reducer = ArrayReducer::new(alloc, Encoding::String)?;
    let added = CombineIter::new(alloc, source, columns, reducer)?;
    leaves(alloc, &added, &range(Bound::Open, Bound::Open), want)
}

#[test]
fn arrays_are_added(rt: HostRuntime) -> Result<(), KeyError> {
    assert!(rt; adds(rt.alloc(), arrays(rt.alloc())?, b"1sx9=5,6,5,7 ")?);
    Ok(())
}

/// Whether these are left of flags that a reducer of a user's own joins.
fn any_is_set(alloc: Global, source: VecSource, want: &[u8]) -> Result<bool, NoMemory>
    requires { vec_cells source ≡ example_flags }
{
    let columns = shared_columns(alloc)?;
    let joined = CombineIter::new(alloc, source, columns, AnyFlag::new())?;
    leaves(alloc, &joined, &range(Bound::Open, Bound::Open), want)
}

#[test]
fn flags_are_joined(rt: HostRuntime) -> Result<(), KeyError> {
    assert!(rt; any_is_set(rt.alloc(), flags(rt.alloc())?, b"1sx9=1 2sx3=0 ")?);
    Ok(())
}

/// Whether these are left in a range of sums, and of least numbers.
#[tactic(auto, using(crate::proofs::ExampleRows::example_sums, crate::proofs::ExampleRows::example_least))]
fn shows(
    alloc: Global,
    source: &VecSource,
    range: &Range<'_>,
    sums: &[u8],
    least: &[u8],
) -> Result<bool, NoMemory>
    requires { vec_cells source.now ≡ example_cells }
{
    Ok(joins(alloc, source, Op::Sum, range, sums)? && joins(alloc, source, Op::Min, range, least)?)
}

fn newest() -> KeyRef<'static> {
    key(b"1", b"s", 9, false)
}

fn second() -> KeyRef<'static> {
    key(b"1", b"s", 7, false)
}

#[test]
fn a_column_becomes_one_entry(rt: HostRuntime) -> Result<(), KeyError> {
    let marker = key(b"1", b"s", 4, true);
    // A range, and what is left in it of sums and of least numbers. Between versions no part of a column is seen.
    let ranges: [(Bound<'_>, Bound<'_>, &[u8], &[u8]); 7] = [
        (
            Bound::Open,
            Bound::Open,
            b"1ax9=1 1sx9=321 1sx4! 1tp8=007 1tq8=9223372036854775807 2sy3=7 ",
            b"1ax9=1 1sx9=1 1sx4! 1tp8=007 1tq8=7 2sy3=7 ",
        ),
        (
            Bound::At(second()),
            Bound::Past(marker),
            b"1sx4! ",
            b"1sx4! ",
        ),
        (Bound::Past(newest()), Bound::At(marker), b"", b""),
        (
            Bound::At(newest()),
            Bound::Past(newest()),
            b"1sx9=321 ",
            b"1sx9=1 ",
        ),
        (
            Bound::Open,
            Bound::At(second()),
            b"1ax9=1 1sx9=321 ",
            b"1ax9=1 1sx9=1 ",
        ),
        (Bound::Open, Bound::At(newest()), b"1ax9=1 ", b"1ax9=1 "),
        (
            Bound::Row(b"2"),
            Bound::PastRow(b"2"),
            b"2sy3=7 ",
            b"2sy3=7 ",
        ),
    ];
    let source = numbers(rt.alloc())?;
    for (i, (start, end, sums, least)) in ranges.iter().enumerate() {
        let range = range(*start, *end);
        assert!(rt; shows(rt.alloc(), &source, &range, sums, least)?, "{i}");
    }
    Ok(())
}
