//! The kinds of iterators, and their fields.
use crate::config_texts::{
    ALL, FAMILY, FULL, MINC, NEWEST, SCAN, SUM, SUM_X, Table, append_digits, iterators,
};
use cell_key::{ByteText, NoMemory, append_escape};
use iter_config::{
    ColumnName, Columns, Config, ConfigError, Deletes, Encoding, Kind, Names, Op, Predicate,
    Scopes, read_config,
};
use std::alloc::Global;

fn config_of(alloc: Global, tables: &[Table<'_>]) -> Result<Config, ConfigError> {
    let text = iterators(alloc, tables)?;
    read_config(alloc, text.bytes())
}

fn append_word(text: &mut ByteText, word: &[u8]) -> Result<(), NoMemory> {
    text.append(b" ")?;
    append_escape(text, word)
}

fn append_bound(text: &mut ByteText, name: &Option<ByteText>) -> Result<(), NoMemory> {
    match name {
        Some(name) => append_word(text, name.bytes()),
        None => text.append(b" none"),
    }
}

/// Names, each behind a blank.
fn append_names(text: &mut ByteText, names: &Names) -> Result<(), NoMemory> {
    for name in names.as_slice() {
        append_word(text, name.bytes())?;
    }
    Ok(())
}

fn append_column(text: &mut ByteText, column: &ColumnName) -> Result<(), NoMemory> {
    append_word(text, column.family.bytes())?;
    text.append(b":")?;
    append_bound(text, &column.qualifier)
}

fn append_columns(text: &mut ByteText, columns: &Columns) -> Result<(), NoMemory> {
    for column in columns.as_slice() {
        append_column(text, column)?;
    }
    Ok(())
}

fn append_number(text: &mut ByteText, number: i64) -> Result<(), NoMemory> {
    text.append(b" ")?;
    append_digits(text, number)
}

fn append_test(text: &mut ByteText, predicate: &Predicate) -> Result<(), NoMemory> {
    match predicate {
        Predicate::Family { families } => append_names(text, families),
        Predicate::QualifierSlice { from, to } => {
            append_bound(text, from)?;
            append_bound(text, to)
        }
        Predicate::VisibilitySet { visibilities } => append_names(text, visibilities),
        Predicate::Grep { needle } => append_word(text, needle.bytes()),
        Predicate::Times { from, to } => {
            append_number(text, *from)?;
            append_number(text, *to)
        }
    }
}

fn append_copied_test(
    alloc: Global,
    text: &mut ByteText,
    predicate: &Predicate,
) -> Result<(), NoMemory> {
    let copy = predicate.copy(alloc)?;
    append_test(text, &copy)
}

fn op_word(op: Op) -> &'static [u8] {
    match op {
        Op::Sum => b"Sum",
        Op::Min => b"Min",
        Op::Max => b"Max",
        Op::ArraySum => b"ArraySum",
    }
}

fn encoding_word(encoding: Encoding) -> &'static [u8] {
    match encoding {
        Encoding::String => b" String",
        Encoding::Fixed => b" Fixed",
    }
}

fn deletes_word(deletes: Deletes) -> &'static [u8] {
    match deletes {
        Deletes::None => b" None",
        Deletes::Full => b" Full",
    }
}

fn append_words(
    text: &mut ByteText,
    op: Op,
    encoding: Encoding,
    deletes: Deletes,
) -> Result<(), NoMemory> {
    text.append(op_word(op))?;
    text.append(encoding_word(encoding))?;
    text.append(deletes_word(deletes))
}

/// What an iterator does, in words; tests are copied first.
fn append_kind(alloc: Global, text: &mut ByteText, kind: &Kind) -> Result<(), NoMemory> {
    match kind {
        Kind::Filter { predicate, negate } => {
            text.append(if *negate { b"without" } else { b"with" })?;
            append_copied_test(alloc, text, predicate)
        }
        Kind::Versions { max } => {
            text.append(b"newest")?;
            append_number(text, i64::from(*max))
        }
        Kind::Combine {
            op,
            columns,
            encoding,
            deletes,
        } => {
            append_words(text, *op, *encoding, *deletes)?;
            append_columns(text, columns)
        }
        Kind::WholeRow => text.append(b"rows"),
        Kind::Intersecting { terms, without } => {
            append_names(text, terms)?;
            text.append(b" not")?;
            append_names(text, without)
        }
    }
}

/// Fields, what is read of them.
const KINDS: [(&str, &[u8]); 15] = [
    ("kind = 'versions'\nmax = 1000", b"newest 1000"),
    (
        "kind = 'family'\nfamilies = ['a', '', 'b\\x20\\x2C']",
        b"with a  b\\x20\\x2c",
    ),
    (
        "kind = 'family'\nfamilies = ['a']\nnegate = false",
        b"with a",
    ),
    (
        "kind = 'qualifier_slice'\nfrom = 'a'\nnegate = true",
        b"without a none",
    ),
    ("kind = 'qualifier_slice'\nto = 'b'", b"with none b"),
    (
        "kind = 'visibility_set'\nvisibilities = ['A|B', '']\nnegate = true",
        b"without A|B ",
    ),
    ("kind = 'grep'\nneedle = '\\x00'", b"with \\x00"),
    (
        "kind = 'times'",
        b"with -9223372036854775808 9223372036854775807",
    ),
    ("kind = 'times'\nfrom = -1\nto = 5", b"with -1 5"),
    (
        "kind = 'sum'\nencoding = 'fixed'\ncolumns = ['', ':', 'n:', 'n:a:b', 'n\\x3ax']",
        b"Sum Fixed None : none :  n:  n: a\\x3ab n\\x3ax: none",
    ),
    (
        "kind = 'min'\nencoding = 'string'\ncolumns = ['m']\ndeletes = 'full'",
        b"Min String Full m: none",
    ),
    (
        "kind = 'max'\nencoding = 'string'\ncolumns = ['m']\ndeletes = 'none'",
        b"Max String None m: none",
    ),
    (
        "kind = 'array_sum'\nencoding = 'string'\ncolumns = ['m:x']",
        b"ArraySum String None m: x",
    ),
    ("kind = 'whole_row'", b"rows"),
    (
        "kind = 'intersecting'\nterms = ['a', '\\x20']\nnot = ['']",
        b" a \\x20 not ",
    ),
];

fn kind_config(alloc: Global, fields: &str) -> Result<Config, ConfigError> {
    config_of(alloc, &[("7", SCAN, fields)])
}

/// What the only iterator of a configuration does, in words.
fn only_kind(alloc: Global, config: &Config) -> Result<ByteText, NoMemory> {
    let mut text = ByteText::new(alloc);
    if config.count() == 1 {
        append_kind(alloc, &mut text, &config.iterator(0).kind)?;
    }
    Ok(text)
}

fn is_kind(alloc: Global, fields: &str, want: &[u8]) -> Result<bool, ConfigError> {
    let config = kind_config(alloc, fields)?;
    let text = only_kind(alloc, &config)?;
    Ok(text.bytes() == want)
}

#[test]
fn kinds_are_read(rt: HostRuntime) -> Result<(), ConfigError> {
    for (i, (fields, want)) in KINDS.iter().enumerate() {
        assert!(rt; is_kind(rt.alloc(), fields, want)?, "{i}");
    }
    Ok(())
}

fn are_same(alloc: Global, fields: &str, others: &str) -> Result<bool, ConfigError> {
    let config = kind_config(alloc, fields)?;
    let other = kind_config(alloc, others)?;
    Ok(config.same(&other))
}

#[test]
fn other_kinds_are_not_the_same(rt: HostRuntime) -> Result<(), ConfigError> {
    for i in 0..15 {
        for j in 0..15 {
            let same = are_same(rt.alloc(), KINDS[i].0, KINDS[j].0)?;
            assert!(rt; same == (i == j), "{i} and {j}");
        }
    }
    Ok(())
}

/// Whether the iterator at a place has this name, this priority, and the scope of scans beside these.
fn is_at(config: &Config, i: usize, name: &[u8], priority: u32, minc: bool, majc: bool) -> bool {
    if i >= config.count() {
        return false;
    }
    let iterator = config.iterator(i);
    let scopes = Scopes {
        scan: true,
        minc,
        majc,
    };
    iterator.name.bytes() == name && iterator.priority == priority && iterator.scopes == scopes
}

fn are_in_order(config: &Config) -> bool {
    config.count() == 3
        && is_at(config, 0, b"10", 10, true, true)
        && is_at(config, 1, b"20", 20, true, false)
        && is_at(config, 2, b"30", 30, false, false)
}

fn three_iterators(alloc: Global) -> Result<Config, ConfigError> {
    config_of(
        alloc,
        &[("20", MINC, FAMILY), ("30", SCAN, SUM), ("10", ALL, FAMILY)],
    )
}

#[test]
fn iterators_run_in_priority_order(rt: HostRuntime) -> Result<(), ConfigError> {
    let config = three_iterators(rt.alloc())?;
    assert!(rt; are_in_order(&config));
    Ok(())
}

/// Whether the configuration of these tables is that of the three iterators, asked of both.
fn same_as_three(alloc: Global, tables: &[Table<'_>]) -> Result<[bool; 2], ConfigError> {
    let config = three_iterators(alloc)?;
    let other = config_of(alloc, tables)?;
    Ok([config.same(&other), other.same(&config)])
}

#[test]
fn other_configurations_are_not_the_same(rt: HostRuntime) -> Result<(), ConfigError> {
    let others: [(&[Table<'_>], bool); 6] = [
        (
            &[("10", ALL, FAMILY), ("20", MINC, FAMILY), ("30", SCAN, SUM)],
            true,
        ),
        (
            &[("10", ALL, FAMILY), ("20", MINC, FAMILY), ("31", SCAN, SUM)],
            false,
        ),
        (
            &[("10", ALL, FAMILY), ("20", ALL, FAMILY), ("30", SCAN, SUM)],
            false,
        ),
        (
            &[
                ("10", ALL, FAMILY),
                ("20", MINC, FAMILY),
                ("30", SCAN, SUM_X),
            ],
            false,
        ),
        (&[("10", ALL, FAMILY), ("20", MINC, FAMILY)], false),
        (&[], false),
    ];
    for (i, (tables, same)) in others.iter().enumerate() {
        assert!(rt; same_as_three(rt.alloc(), tables)? == [*same, *same], "{i}");
    }
    Ok(())
}

fn combiners(alloc: Global) -> Result<Config, ConfigError> {
    config_of(
        alloc,
        &[("1", ALL, SUM_X), ("2", ALL, FULL), ("3", SCAN, NEWEST)],
    )
}

/// Whether a delete is refused, and whether the value is read.
fn answers(
    alloc: Global,
    family: &[u8],
    qualifier: &[u8],
    value: &[u8],
) -> Result<(bool, bool), ConfigError> {
    let config = combiners(alloc)?;
    Ok((
        config.refuses_delete(family, qualifier),
        config.reads(family, qualifier, value),
    ))
}

/// Family, qualifier and value; whether a delete is refused, whether the value is read.
const COLUMN_ANSWERS: [(&[u8], &[u8], &[u8], (bool, bool)); 9] = [
    (b"n", b"x", b"5", (true, true)),
    (b"n", b"x", b"-5", (true, false)),
    (b"n", b"x", b"", (true, false)),
    (b"n", b"y", b"-5", (false, true)),
    (b"x", b"n", b"?", (false, true)),
    (b"a", b"q", b"?", (true, false)),
    (b"m", b"", b"-5", (false, true)),
    (b"m", b"q", b"five", (false, false)),
    (b"", b"", b"", (false, true)),
];

#[test]
fn combiners_ask_of_their_columns(rt: HostRuntime) -> Result<(), ConfigError> {
    for (i, (family, qualifier, value, want)) in COLUMN_ANSWERS.iter().enumerate() {
        assert!(rt;
            answers(rt.alloc(), family, qualifier, value)? == *want,
            "{i}"
        );
    }
    Ok(())
}
