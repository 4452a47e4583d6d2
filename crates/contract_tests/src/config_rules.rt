//! The rules of configurations.
use crate::config_texts::{
    ALL, FAMILY, FULL, MAJC, MINC, NEWEST, SCAN, SUM, SUM_X, Table, Versions, append_numbered,
    append_versions, iterators, versions,
};
use cell_key::{ByteText, NoMemory};
use iter_config::{ConfigError, Rule, read_config};
use std::alloc::Global;

/// The rule that a text breaks and the number, if it is refused.
fn refusal(alloc: Global, text: &[u8]) -> Result<Option<(Rule, u32)>, NoMemory> {
    match read_config(alloc, text) {
        Ok(_) => Ok(None),
        Err(ConfigError::Refused { rule, at }) => Ok(Some((rule, at))),
        Err(ConfigError::NoMemory) => Err(NoMemory),
    }
}

/// Documents, and the rule that each breaks with the number, if it is refused.
const DOCUMENTS: [(&[u8], Option<(Rule, u32)>); 16] = [
    (b"", None),
    (b"# nothing\n", None),
    (b"iterator = []", None),
    (b"[[", Some((Rule::Toml, 0))),
    (b"# \xff", Some((Rule::Toml, 0))),
    (b"colour = 9223372036854775808", Some((Rule::Toml, 0))),
    (b"colour = 1", Some((Rule::Field, 0))),
    (b"timed = ['a', 'a\\x20b']", None),
    (b"timed = 1", Some((Rule::Field, 0))),
    (b"timed = []", Some((Rule::Field, 0))),
    (b"timed = ['a', 1]", Some((Rule::Field, 0))),
    (b"timed = []\niterator = [2]", Some((Rule::Field, 0))),
    (b"iterator = 1", Some((Rule::Field, 0))),
    (b"[iterator]\nname = 'vers'", Some((Rule::Field, 0))),
    (b"colour = 1\niterator = [2]", Some((Rule::Field, 0))),
    (b"iterator = [{}, 2]", Some((Rule::Field, 1))),
];

#[test]
fn documents_have_iterators_and_timed_families(rt: HostRuntime) -> Result<(), NoMemory> {
    for (i, (text, want)) in DOCUMENTS.iter().enumerate() {
        assert!(rt; refusal(rt.alloc(), text)? == *want, "{i}");
    }
    Ok(())
}

/// A text of 16 iterators.
fn sixteen(alloc: Global) -> Result<ByteText, NoMemory> {
    let mut text = ByteText::new(alloc);
    for i in 1..17 {
        append_numbered(&mut text, i)?;
    }
    Ok(text)
}

/// A text of 17 iterators, of which the last has no versions.
fn seventeen(alloc: Global) -> Result<ByteText, NoMemory> {
    let mut text = sixteen(alloc)?;
    append_versions(&mut text, &("i17", "17", "0"))?;
    Ok(text)
}

fn count(alloc: Global) -> Result<usize, ConfigError> {
    let text = sixteen(alloc)?;
    let config = read_config(alloc, text.bytes())?;
    Ok(config.count())
}

fn count_refusal(alloc: Global) -> Result<Option<(Rule, u32)>, NoMemory> {
    let text = seventeen(alloc)?;
    refusal(alloc, text.bytes())
}

#[test]
fn documents_have_16_iterators(rt: HostRuntime) -> Result<(), ConfigError> {
    assert!(rt; count(rt.alloc())? == 16);
    assert!(rt; count_refusal(rt.alloc())? == Some((Rule::Field, 0)));
    Ok(())
}

fn versions_refusal(
    alloc: Global,
    tables: &[Versions<'_>],
) -> Result<Option<(Rule, u32)>, NoMemory> {
    let text = versions(alloc, tables)?;
    refusal(alloc, text.bytes())
}

/// Iterators of versions, and the rule that they break with the number, if they are refused.
const VERSION_LISTS: [(&[Versions<'static>], Option<(Rule, u32)>); 14] = [
    (&[("a", "1", "1"), ("b", "2", "1"), ("c", "3", "1")], None),
    (
        &[("0123456789abcdefghijKLMNOPQRST_-", "2147483647", "1000")],
        None,
    ),
    (
        &[("0123456789abcdefghijKLMNOPQRST_-x", "1", "1")],
        Some((Rule::Field, 1)),
    ),
    (&[("", "1", "1")], Some((Rule::Field, 1))),
    (&[("a b", "1", "1")], Some((Rule::Field, 1))),
    (&[("a", "0", "1")], Some((Rule::Field, 1))),
    (&[("a", "2147483648", "1")], Some((Rule::Field, 1))),
    (&[("a", "1", "0")], Some((Rule::Field, 1))),
    (&[("a", "1", "1001")], Some((Rule::Field, 1))),
    (&[("a", "1", "1"), ("a", "1", "1")], Some((Rule::Name, 2))),
    (
        &[("a", "1", "1"), ("w", "1", "1")],
        Some((Rule::Priority, 2)),
    ),
    (
        &[
            ("a", "1", "1"),
            ("b", "1", "1"),
            ("b", "2", "1"),
            ("a", "3", "1"),
        ],
        Some((Rule::Name, 3)),
    ),
    (
        &[
            ("a", "3", "1"),
            ("b", "2", "1"),
            ("c", "3", "1"),
            ("d", "2", "1"),
        ],
        Some((Rule::Priority, 3)),
    ),
    (
        &[("a", "1", "1"), ("a", "1", "0"), ("b", "0", "0")],
        Some((Rule::Field, 2)),
    ),
];

#[test]
fn names_and_priorities_differ(rt: HostRuntime) -> Result<(), NoMemory> {
    for (i, (tables, want)) in VERSION_LISTS.iter().enumerate() {
        assert!(rt; versions_refusal(rt.alloc(), tables)? == *want, "{i}");
    }
    Ok(())
}

fn stack_refusal(alloc: Global, tables: &[Table<'_>]) -> Result<Option<(Rule, u32)>, NoMemory> {
    let text = iterators(alloc, tables)?;
    refusal(alloc, text.bytes())
}

fn fields_refusal(
    alloc: Global,
    scopes: &str,
    fields: &str,
) -> Result<Option<(Rule, u32)>, NoMemory> {
    stack_refusal(alloc, &[("1", scopes, fields)])
}

/// Scopes and fields that are accepted.
const ACCEPTED: [(&str, &str); 8] = [
    (SCAN, "kind = 'versions'\nmax = 1"),
    ("'majc', 'scan', 'minc'", "kind = 'versions'\nmax = 1"),
    (SCAN, "kind = 'family'\nfamilies = ['', 'a', 'a']"),
    (SCAN, "kind = 'qualifier_slice'"),
    (SCAN, "kind = 'times'\nfrom = -9223372036854775808"),
    (
        SCAN,
        "kind = 'sum'\nencoding = 'fixed'\ncolumns = ['', ':', 'n:']",
    ),
    (SCAN, "kind = 'whole_row'"),
    (
        SCAN,
        "kind = 'intersecting'\nterms = ['']\nnot = ['1', '2', '3', '4', '5', '6', '7', '8', '9', '10', '11', '12', '13', '14', '15']",
    ),
];

#[test]
fn kinds_have_their_fields(rt: HostRuntime) -> Result<(), NoMemory> {
    for (i, (scopes, fields)) in ACCEPTED.iter().enumerate() {
        assert!(rt;
            fields_refusal(rt.alloc(), scopes, fields)?.is_none(),
            "{i}"
        );
    }
    Ok(())
}

/// Scopes and fields that are refused.
const REFUSED: [(&str, &str); 24] = [
    ("", "kind = 'versions'\nmax = 1"),
    ("'scan', 'scan'", "kind = 'versions'\nmax = 1"),
    ("'scan', 'full'", "kind = 'versions'\nmax = 1"),
    (SCAN, "kind = 'versions'\nmax = 1.0"),
    (SCAN, "kind = 'versions'"),
    (SCAN, "kind = 'versions'\nmax = 1\nnegate = true"),
    (SCAN, "kind = 'whole_row'\nnegate = false"),
    (SCAN, "kind = 'intersecting'\nterms = []"),
    (SCAN, "kind = 'intersecting'\nnot = ['a']"),
    (SCAN, "kind = 'intersecting'\nterms = ['a']\nmax = 1"),
    (
        SCAN,
        "kind = 'intersecting'\nterms = ['a', 'b']\nnot = ['1', '2', '3', '4', '5', '6', '7', '8', '9', '10', '11', '12', '13', '14', '15']",
    ),
    (SCAN, "kind = 'family'\nfamilies = []"),
    (SCAN, "kind = 'family'\nfamilies = ['a b']"),
    (SCAN, "kind = 'family'\nfamilies = ['a']\nnegate = 1"),
    (SCAN, "kind = 'family'\nfamilies = ['a']\nmax = 1"),
    (SCAN, "kind = 'qualifier_slice'\nto = 1"),
    (SCAN, "kind = 'visibility_set'\nvisibilities = 'a'"),
    (SCAN, "kind = 'grep'\nneedle = ''"),
    (SCAN, "kind = 'times'\nfrom = 1.5"),
    (SCAN, "kind = 'sum'\nencoding = 'fixed'\ncolumns = []"),
    (SCAN, "kind = 'sum'\nencoding = 'hex'\ncolumns = ['n']"),
    (SCAN, "kind = 'sum'\ncolumns = ['n']"),
    (
        SCAN,
        "kind = 'min'\nencoding = 'fixed'\ncolumns = ['n']\ndeletes = 'some'",
    ),
    (
        SCAN,
        "kind = 'max'\nencoding = 'fixed'\ncolumns = ['n']\nnegate = true",
    ),
];

#[test]
fn kinds_have_no_other_fields(rt: HostRuntime) -> Result<(), NoMemory> {
    for (i, (scopes, fields)) in REFUSED.iter().enumerate() {
        let found = fields_refusal(rt.alloc(), scopes, fields)?;
        assert!(rt; found == Some((Rule::Field, 1)), "{i}");
    }
    Ok(())
}

const GREP: &str = "kind = 'grep'\nneedle = 'a'";

const TIMES: &str = "kind = 'times'";

const ROWS: &str = "kind = 'whole_row'";

const INDEX: &str = "kind = 'intersecting'\nterms = ['a']";

const SUM_Y: &str = "kind = 'sum'\nencoding = 'string'\ncolumns = ['n:y', 'x:n']";

/// Stacks that keep all rules.
const ACCEPTED_STACKS: [&[Table<'static>]; 11] = [
    &[("1", ALL, FAMILY), ("2", MINC, FAMILY), ("3", SCAN, FAMILY)],
    &[("1", ALL, NEWEST), ("2", SCAN, NEWEST)],
    &[("1", ALL, NEWEST), ("2", ALL, FAMILY)],
    &[("1", ALL, SUM), ("2", SCAN, TIMES), ("3", SCAN, FULL)],
    &[("1", ALL, TIMES), ("2", ALL, GREP), ("3", ALL, NEWEST)],
    &[("1", ALL, SUM_X), ("2", ALL, SUM_Y), ("3", ALL, FULL)],
    &[("1", ALL, FULL), ("2", MINC, NEWEST)],
    &[("1", MINC, FULL), ("2", MINC, NEWEST)],
    &[("1", ALL, SUM), ("2", ALL, NEWEST)],
    &[("1", ALL, SUM), ("2", SCAN, ROWS), ("3", SCAN, NEWEST)],
    &[("1", ALL, NEWEST), ("2", SCAN, INDEX), ("3", SCAN, ROWS)],
];

#[test]
fn stacks_are_accepted(rt: HostRuntime) -> Result<(), NoMemory> {
    for (i, tables) in ACCEPTED_STACKS.iter().enumerate() {
        assert!(rt; stack_refusal(rt.alloc(), tables)?.is_none(), "{i}");
    }
    Ok(())
}

/// Stacks, and the rule that each breaks with the number of the iterator.
const REFUSED_STACKS: [(&[Table<'static>], Rule, u32); 20] = [
    (&[("1", "'majc'", NEWEST)], Rule::NoScan, 1),
    (
        &[("2", "'minc'", SUM), ("1", "'majc'", NEWEST)],
        Rule::NoScan,
        2,
    ),
    (
        &[("10", SCAN, FAMILY), ("20", ALL, NEWEST)],
        Rule::NotPrefix,
        2,
    ),
    (
        &[("20", ALL, NEWEST), ("10", SCAN, FAMILY)],
        Rule::NotPrefix,
        1,
    ),
    (
        &[("1", MINC, FAMILY), ("2", MAJC, FAMILY)],
        Rule::NotPrefix,
        2,
    ),
    (
        &[
            ("1", MINC, FAMILY),
            ("2", SCAN, FAMILY),
            ("3", MINC, FAMILY),
        ],
        Rule::NotPrefix,
        3,
    ),
    (&[("1", MINC, ROWS)], Rule::ScanOnly, 1),
    (&[("1", MAJC, INDEX)], Rule::ScanOnly, 1),
    (&[("2", SCAN, SUM), ("1", SCAN, ROWS)], Rule::ScanOnly, 1),
    (
        &[("1", SCAN, INDEX), ("2", SCAN, GREP), ("3", SCAN, FULL)],
        Rule::ScanOnly,
        3,
    ),
    (&[("1", ALL, NEWEST), ("2", MAJC, NEWEST)], Rule::Order, 2),
    (&[("1", ALL, NEWEST), ("2", MINC, SUM)], Rule::Order, 2),
    (&[("1", ALL, NEWEST), ("2", MINC, GREP)], Rule::Order, 2),
    (&[("1", ALL, TIMES), ("2", MAJC, SUM)], Rule::Order, 2),
    (&[("1", ALL, SUM), ("2", MAJC, TIMES)], Rule::Order, 2),
    (
        &[("3", ALL, GREP), ("1", ALL, SUM), ("2", ALL, TIMES)],
        Rule::Order,
        3,
    ),
    (&[("10", SCAN, SUM), ("11", SCAN, SUM_X)], Rule::Overlap, 2),
    (&[("11", SCAN, SUM), ("10", ALL, SUM_X)], Rule::Overlap, 1),
    (&[("1", ALL, SUM_X), ("2", ALL, SUM_X)], Rule::Overlap, 2),
    (
        &[("1", ALL, FULL), ("2", MAJC, NEWEST)],
        Rule::FullUnderVersions,
        2,
    ),
];

#[test]
fn stacks_keep_the_rules(rt: HostRuntime) -> Result<(), NoMemory> {
    for (i, (tables, rule, at)) in REFUSED_STACKS.iter().enumerate() {
        assert!(rt;
            stack_refusal(rt.alloc(), tables)? == Some((*rule, *at)),
            "{i}"
        );
    }
    Ok(())
}
