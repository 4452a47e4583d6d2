//! Which mutations come in.
use cell_key::{ByteText, Mutation, NoMemory, Part, Update, Updates};
use ingest::{Refused, check};
use iter_config::{ConfigError, read_config};
use std::alloc::Global;

const SUM: &[u8] =
    b"timed = [\"t\"]\n[[iterator]]\nname = \"sum\"\npriority = 10\nkind = \"sum\"\ncolumns = [\"n\"]\nencoding = \"string\"\nscopes = [\"scan\"]\n";

/// A family, a time of its own, and the value of a put.
type Change<'a> = (&'a [u8], Option<i64>, Option<&'a [u8]>);

fn value_of(alloc: Global, value: Option<&[u8]>) -> Result<Option<ByteText>, NoMemory> {
    match value {
        Some(value) => Ok(Some(ByteText::of(alloc, value)?)),
        None => Ok(None),
    }
}

/// A change of the column `FAMILY:x:`.
fn update(
    alloc: Global,
    family: &[u8],
    time: Option<i64>,
    value: Option<ByteText>,
) -> Result<Update, NoMemory> {
    let family = ByteText::of(alloc, family)?;
    let qualifier = ByteText::of(alloc, b"x")?;
    Ok(Update {
        family,
        qualifier,
        visibility: ByteText::new(alloc),
        time,
        value,
    })
}

fn push(alloc: Global, updates: &mut Updates, change: &Change<'_>) -> Result<(), NoMemory> {
    let (family, time, value) = *change;
    let update = update(alloc, family, time, value_of(alloc, value)?)?;
    updates.push(update)
}

fn updates(alloc: Global, changes: &[Change<'_>]) -> Result<Updates, NoMemory> {
    let mut updates = Updates::new(alloc);
    for change in changes {
        push(alloc, &mut updates, change)?;
    }
    Ok(updates)
}

fn mutation(alloc: Global, changes: &[Change<'_>]) -> Result<Mutation, NoMemory> {
    let row = ByteText::of(alloc, b"r")?;
    let updates = updates(alloc, changes)?;
    Ok(Mutation { row, updates })
}

/// Why changes of the row `r` stay out of a log of so many mutations.
fn refusal(
    alloc: Global,
    log: u64,
    changes: &[Change<'_>],
) -> Result<Option<Refused>, ConfigError> {
    let sum = read_config(alloc, SUM)?;
    let mutation = mutation(alloc, changes)?;
    Ok(check(&sum, log, &mutation))
}

const ONE: Option<&[u8]> = Some(b"1");

const WORD: Option<&[u8]> = Some(b"one");

const AT: Option<i64> = Some(-5);

const LONG: &[u8] = &[b'f'; 1025];

/// How many mutations a log has, changes, and why they stay out.
const CASES: [(u64, &[Change<'static>], Option<Refused>); 18] = [
    (
        0,
        &[(b"n", None, ONE), (b"a", None, WORD), (b"a", None, None)],
        None,
    ),
    (524_287, &[(b"n", None, ONE)], None),
    (524_288, &[(b"n", None, ONE)], Some(Refused::Full)),
    (
        524_288,
        &[(b"n", None, WORD)],
        Some(Refused::Value { at: 1 }),
    ),
    (
        0,
        &[(b"a", None, None), (b"n", None, ONE), (b"n", None, None)],
        Some(Refused::DeleteHere { at: 3 }),
    ),
    (
        0,
        &[(b"n", None, WORD), (b"a", None, ONE), (b"a", None, WORD)],
        Some(Refused::Duplicate { at: 3 }),
    ),
    (
        0,
        &[(b"a", None, None), (b"b", None, ONE), (b"a", None, None)],
        Some(Refused::Duplicate { at: 3 }),
    ),
    (
        0,
        &[(b"n", None, WORD), (b"n", None, None)],
        Some(Refused::DeleteHere { at: 2 }),
    ),
    (0, &[(b"t", AT, WORD), (b"n", None, ONE)], None),
    (
        0,
        &[(b"t", AT, ONE), (b"t", Some(6), ONE)],
        Some(Refused::Duplicate { at: 2 }),
    ),
    (0, &[(b"n", AT, None)], Some(Refused::DeleteHere { at: 1 })),
    (
        0,
        &[(b"a", None, ONE), (b"t", None, None)],
        Some(Refused::DeleteHere { at: 2 }),
    ),
    (0, &[(b"a", AT, None)], Some(Refused::Time { at: 1 })),
    (
        0,
        &[(b"n", None, WORD), (b"a", AT, ONE)],
        Some(Refused::Time { at: 2 }),
    ),
    (
        0,
        &[(b"t", AT, ONE), (b"n", None, ONE), (b"t", None, ONE)],
        Some(Refused::Duplicate { at: 3 }),
    ),
    (
        0,
        &[(b"n", None, ONE), (b"t", None, ONE)],
        Some(Refused::Time { at: 2 }),
    ),
    (
        0,
        &[],
        Some(Refused::Bound {
            at: 0,
            part: Part::Updates,
        }),
    ),
    (
        0,
        &[(b"a", None, ONE), (b"a", None, ONE), (LONG, None, None)],
        Some(Refused::Bound {
            at: 3,
            part: Part::Family,
        }),
    ),
];

#[test]
fn mutations_are_checked_in_order(rt: HostRuntime) -> Result<(), ConfigError> {
    for (i, (log, changes, refused)) in CASES.iter().enumerate() {
        assert!(rt; refusal(rt.alloc(), *log, changes)? == *refused, "{i}");
    }
    Ok(())
}
