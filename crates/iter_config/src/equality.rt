//! Which iterators are equal.
ghost use Rattle.std.specs.Prelude.{◌≡◌, ◌↔◌, IsTrue};

use crate::iter_spec::{IterSpec, Kind};
use crate::predicate::Predicate;
use cell_key::{ByteText, ColumnName};

/// Whether two lists of iterators are equal.
pub fn same_iterators(a: &[IterSpec], b: &[IterSpec]) -> bool
    ensures { IsTrue result ↔ (a.now ≡ b.now) }
{
    if a.len() != b.len() {
        return false;
    }
    for i in 0..a.len() {
        if !same_iterator(&a[i], &b[i]) {
            return false;
        }
    }
    true
}

fn same_iterator(a: &IterSpec, b: &IterSpec) -> bool
    ensures { IsTrue result ↔ (a.now ≡ b.now) }
{
    a.name.bytes() == b.name.bytes()
        && a.priority == b.priority
        && same_kind(&a.kind, &b.kind)
        && a.scopes == b.scopes
}

fn same_kind(a: &Kind, b: &Kind) -> bool
    ensures { IsTrue result ↔ (a.now ≡ b.now) }
{
    match (a, b) {
        (
            Kind::Filter {
                predicate: test,
                negate: flag,
            },
            Kind::Filter { predicate, negate },
        ) => same_test(test, predicate) && flag == negate,
        (Kind::Versions { max: m }, Kind::Versions { max: n }) => m == n,
        (
            Kind::Combine {
                op: o,
                columns: c,
                encoding: e,
                deletes: d,
            },
            Kind::Combine {
                op,
                columns,
                encoding,
                deletes,
            },
        ) => o == op
            && same_columns(c.as_slice(), columns.as_slice())
            && e == encoding
            && d == deletes,
        (Kind::WholeRow, Kind::WholeRow) => true,
        (
            Kind::Intersecting {
                terms: t,
                without: w,
            },
            Kind::Intersecting { terms, without },
        ) => {
            same_names(t.as_slice(), terms.as_slice())
                && same_names(w.as_slice(), without.as_slice())
        }
        _ => false,
    }
}

fn same_test(a: &Predicate, b: &Predicate) -> bool
    ensures { IsTrue result ↔ (a.now ≡ b.now) }
{
    match (a, b) {
        (Predicate::Family { families: m }, Predicate::Family { families: n }) => {
            same_names(m.as_slice(), n.as_slice())
        }
        (Predicate::QualifierSlice { from: f, to: t }, Predicate::QualifierSlice { from, to }) =>
            same_optional(f, from) && same_optional(t, to),
        (
            Predicate::VisibilitySet { visibilities: m },
            Predicate::VisibilitySet { visibilities: n },
        ) => same_names(m.as_slice(), n.as_slice()),
        (Predicate::Grep { needle: m }, Predicate::Grep { needle: n }) => m.bytes() == n.bytes(),
        (Predicate::Times { from: f, to: t }, Predicate::Times { from, to }) => {
            f == from && t == to
        }
        _ => false,
    }
}

fn same_optional(a: &Option<ByteText>, b: &Option<ByteText>) -> bool
    ensures { IsTrue result ↔ (a.now ≡ b.now) }
{
    match (a, b) {
        (None, None) => true,
        (Some(a), Some(b)) => a.bytes() == b.bytes(),
        _ => false,
    }
}

fn same_name(a: &ByteText, b: &ByteText) -> bool
    ensures { IsTrue result ↔ (a.now ≡ b.now) }
{
    a.bytes() == b.bytes()
}

/// Whether two lists of names are equal.
pub fn same_names(a: &[ByteText], b: &[ByteText]) -> bool
    ensures { IsTrue result ↔ (a.now ≡ b.now) }
{
    if a.len() != b.len() {
        return false;
    }
    for i in 0..a.len() {
        if !same_name(&a[i], &b[i]) {
            return false;
        }
    }
    true
}

fn same_column(a: &ColumnName, b: &ColumnName) -> bool
    ensures { IsTrue result ↔ (a.now ≡ b.now) }
{
    a.family.bytes() == b.family.bytes() && same_optional(&a.qualifier, &b.qualifier)
}

fn same_columns(a: &[ColumnName], b: &[ColumnName]) -> bool
    ensures { IsTrue result ↔ (a.now ≡ b.now) }
{
    if a.len() != b.len() {
        return false;
    }
    for i in 0..a.len() {
        if !same_column(&a[i], &b[i]) {
            return false;
        }
    }
    true
}
