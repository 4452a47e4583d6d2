//! Filters.
ghost use Rattle.std.specs.Prelude.{◌≤◌, length};

use crate::fixtures::{leaves, range, source};
use cell_key::{Bound, ByteText, KeyError, Names, NoMemory};
use filters::filter_iter;
use iter_config::Predicate;
use iter_contract::{SortedSource, VecSource};
use own_iterators::SmallValues;
use stages::filter_by;
use std::alloc::Global;
use std::sync::Arc;

/// Entries of the rows `a` to `f`.
fn entries(alloc: Global) -> Result<VecSource, KeyError> {
    source(
        alloc,
        &[
            (b"a", b"f", b"b", b"", 1, false, b"cat"),
            (b"b", b"f", b"bc", b"v", 2, false, b"concat"),
            (b"c", b"g", b"c", b"w", 3, false, b"ca"),
            (b"d", b"", b"", b"cat", -4, false, b""),
            (b"e", b"h", b"z", b"w", 9, true, b""),
            (b"f", b"hcat", b"", b"", i64::MAX, false, b"dog"),
        ],
    )
}

/// Whether a filter keeps these of the entries behind a row.
fn keeps(
    alloc: Global,
    source: &VecSource,
    predicate: Predicate,
    negate: bool,
    behind: &[u8],
    want: &[u8],
) -> Result<bool, NoMemory>
    requires { length behind.now ≤ 1024 }
{
    let predicate = Arc::new(alloc, predicate)?;
    let filter = filter_iter(source.deep_copy(alloc)?, predicate, negate);
    leaves(
        alloc,
        &filter,
        &range(Bound::PastRow(behind), Bound::Open),
        want,
    )
}

fn names(alloc: Global, first: &[u8], second: &[u8]) -> Result<Names, NoMemory> {
    let mut names = Names::new(alloc);
    names.push(ByteText::of(alloc, first)?)?;
    names.push(ByteText::of(alloc, second)?)?;
    Ok(names)
}

fn text(alloc: Global, bytes: Option<&[u8]>) -> Result<Option<ByteText>, NoMemory> {
    match bytes {
        Some(bytes) => Ok(Some(ByteText::of(alloc, bytes)?)),
        None => Ok(None),
    }
}

fn keeps_families(
    alloc: Global,
    source: &VecSource,
    first: &[u8],
    second: &[u8],
    want: &[u8],
) -> Result<bool, NoMemory> {
    let families = names(alloc, first, second)?;
    keeps(
        alloc,
        source,
        Predicate::Family { families },
        false,
        b"",
        want,
    )
}

fn drops_visibilities(
    alloc: Global,
    source: &VecSource,
    first: &[u8],
    second: &[u8],
    want: &[u8],
) -> Result<bool, NoMemory> {
    let visibilities = names(alloc, first, second)?;
    let predicate = Predicate::VisibilitySet { visibilities };
    keeps(alloc, source, predicate, true, b"", want)
}

fn keeps_slice(
    alloc: Global,
    source: &VecSource,
    from: Option<&[u8]>,
    to: Option<&[u8]>,
    negate: bool,
    want: &[u8],
) -> Result<bool, NoMemory> {
    let from = text(alloc, from)?;
    let to = text(alloc, to)?;
    let predicate = Predicate::QualifierSlice { from, to };
    keeps(alloc, source, predicate, negate, b"", want)
}

fn keeps_needle(
    alloc: Global,
    source: &VecSource,
    needle: &[u8],
    negate: bool,
    want: &[u8],
) -> Result<bool, NoMemory> {
    let needle = ByteText::of(alloc, needle)?;
    keeps(alloc, source, Predicate::Grep { needle }, negate, b"", want)
}

#[test]
fn column_filters_look_at_the_column(rt: HostRuntime) -> Result<(), KeyError> {
    let source = entries(rt.alloc())?;
    let kept = b"afb1=cat bfbcv2=concat dcat-4= ehzw9! ";
    assert!(rt; keeps_families(rt.alloc(), &source, b"f", b"", kept)?);
    let kept = b"afb1=cat dcat-4= ehzw9! fhcat9223372036854775807=dog ";
    assert!(rt; drops_visibilities(rt.alloc(), &source, b"w", b"v", kept)?);
    Ok(())
}

#[test]
fn slices_look_at_the_qualifier(rt: HostRuntime) -> Result<(), KeyError> {
    let slices: [(Option<&[u8]>, Option<&[u8]>, bool, &[u8]); 4] = [
        (
            Some(b"b"),
            Some(b"c"),
            false,
            b"afb1=cat bfbcv2=concat ehzw9! ",
        ),
        (Some(b"bc"), None, false, b"bfbcv2=concat cgcw3=ca ehzw9! "),
        (
            None,
            Some(b"bc"),
            false,
            b"afb1=cat dcat-4= ehzw9! fhcat9223372036854775807=dog ",
        ),
        (None, Some(b"bc"), true, b"bfbcv2=concat cgcw3=ca ehzw9! "),
    ];
    let source = entries(rt.alloc())?;
    for (i, (from, to, negate, kept)) in slices.iter().enumerate() {
        assert!(rt;
            keeps_slice(rt.alloc(), &source, *from, *to, *negate, kept)?,
            "{i}"
        );
    }
    Ok(())
}

#[test]
fn greps_look_at_the_entry(rt: HostRuntime) -> Result<(), KeyError> {
    let needles: [(&[u8], bool, &[u8]); 3] = [
        (
            b"cat",
            false,
            b"afb1=cat bfbcv2=concat dcat-4= ehzw9! fhcat9223372036854775807=dog ",
        ),
        (b"cat", true, b"cgcw3=ca ehzw9! "),
        (b"hcat", false, b"ehzw9! fhcat9223372036854775807=dog "),
    ];
    let source = entries(rt.alloc())?;
    for (i, (needle, negate, kept)) in needles.iter().enumerate() {
        assert!(rt;
            keeps_needle(rt.alloc(), &source, needle, *negate, kept)?,
            "{i}"
        );
    }
    Ok(())
}

#[test]
fn times_have_both_ends(rt: HostRuntime) -> Result<(), KeyError> {
    let times: [(i64, i64, bool, &[u8], &[u8]); 3] = [
        (2, 3, false, b"", b"bfbcv2=concat cgcw3=ca ehzw9! "),
        (-4, i64::MAX, true, b"a", b"ehzw9! "),
        (
            1,
            2,
            true,
            b"c",
            b"dcat-4= ehzw9! fhcat9223372036854775807=dog ",
        ),
    ];
    let source = entries(rt.alloc())?;
    for (i, (from, to, negate, behind, kept)) in times.iter().enumerate() {
        let predicate = Predicate::Times {
            from: *from,
            to: *to,
        };
        assert!(rt;
            keeps(rt.alloc(), &source, predicate, *negate, behind, kept)?,
            "{i}"
        );
    }
    Ok(())
}

/// Whether a filter of a user's own keeps these.
fn keeps_small(
    alloc: Global,
    source: &VecSource,
    most: usize,
    want: &[u8],
) -> Result<bool, NoMemory> {
    let small = filter_by(source.deep_copy(alloc)?, SmallValues::new(most));
    leaves(alloc, &small, &range(Bound::Open, Bound::Open), want)
}

#[test]
fn small_values_are_kept(rt: HostRuntime) -> Result<(), KeyError> {
    let source = entries(rt.alloc())?;
    assert!(rt; keeps_small(rt.alloc(), &source, 2, b"cgcw3=ca dcat-4= ehzw9! ")?);
    Ok(())
}
