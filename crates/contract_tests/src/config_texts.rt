//! What the tests of configurations share.
use cell_key::{ByteText, NoMemory};
use number_values::{Encoding, NumberText};
use std::alloc::Global;

// Lists of scopes.
pub const SCAN: &str = "'scan'";

pub const MINC: &str = "'scan', 'minc'";

pub const MAJC: &str = "'scan', 'majc'";

pub const ALL: &str = "'scan', 'minc', 'majc'";

// Fields of kinds.
pub const NEWEST: &str = "kind = 'versions'\nmax = 1";

pub const FAMILY: &str = "kind = 'family'\nfamilies = ['a']";

pub const SUM: &str = "kind = 'sum'\nencoding = 'string'\ncolumns = ['n']";

pub const SUM_X: &str = "kind = 'sum'\nencoding = 'string'\ncolumns = ['a', 'n:x']";

pub const FULL: &str = "kind = 'max'\nencoding = 'string'\ndeletes = 'full'\ncolumns = ['m']";

/// Priority, scopes and the fields of the kind.
pub type Table<'a> = (&'a str, &'a str, &'a str);

fn append_all(text: &mut ByteText, pieces: &[&str]) -> Result<(), NoMemory> {
    for piece in pieces {
        text.append(piece.as_bytes())?;
    }
    Ok(())
}

/// An iterator, whose name is its priority.
fn append_iterator(text: &mut ByteText, table: &Table<'_>) -> Result<(), NoMemory> {
    let (priority, scopes, fields) = *table;
    append_all(
        text,
        &[
            "[[iterator]]\nname = '",
            priority,
            "'\npriority = ",
            priority,
        ],
    )?;
    append_all(text, &["\nscopes = [", scopes, "]\n", fields, "\n"])
}

/// A text of these iterators.
pub fn iterators(alloc: Global, tables: &[Table<'_>]) -> Result<ByteText, NoMemory> {
    let mut text = ByteText::new(alloc);
    for table in tables {
        append_iterator(&mut text, table)?;
    }
    Ok(text)
}

/// Name, priority and number of versions.
pub type Versions<'a> = (&'a str, &'a str, &'a str);

/// An iterator of versions in scans.
pub fn append_versions(text: &mut ByteText, table: &Versions<'_>) -> Result<(), NoMemory> {
    let (name, priority, max) = *table;
    append_all(
        text,
        &["[[iterator]]\nname = '", name, "'\npriority = ", priority],
    )?;
    append_all(
        text,
        &["\nkind = 'versions'\nmax = ", max, "\nscopes = ['scan']\n"],
    )
}

/// A text of these iterators of versions.
pub fn versions(alloc: Global, tables: &[Versions<'_>]) -> Result<ByteText, NoMemory> {
    let mut text = ByteText::new(alloc);
    for table in tables {
        append_versions(&mut text, table)?;
    }
    Ok(text)
}

/// An iterator of one version in scans, whose name is `i` and its priority.
pub fn append_numbered(text: &mut ByteText, number: i64) -> Result<(), NoMemory> {
    append_all(text, &["[[iterator]]\nname = 'i"])?;
    append_digits(text, number)?;
    append_all(text, &["'\npriority = "])?;
    append_digits(text, number)?;
    append_all(text, &["\nkind = 'versions'\nmax = 1\nscopes = ['scan']\n"])
}

pub fn append_digits(text: &mut ByteText, number: i64) -> Result<(), NoMemory> {
    let mut digits = NumberText::new();
    digits.write(Encoding::String, number);
    text.append(digits.bytes())
}
