//! The rules between two iterators, and the first iterator that breaks one.
ghost use Rattle.std.specs.Prelude.{◌≡◌, ◌==◌, ◌<◌, ◌≤◌, false, IfSome, length, position};
ghost use Rattle.std.specs.List.{list_any};
ghost use Rattle.cell_key.specs.declared.column_name.ColumnName.{ColumnName};
ghost use Rattle.iter_config.specs.Rules.{all_scopes, clashes, first_beyond_scans, first_breaking, first_gap, first_repeat, first_unscanned, in_base, is_cell_filter, is_combiner, is_disordered, is_full_combiner, is_full_under_versions, is_of_deletes, is_scan_only, is_versions, leaves_scans, listed_columns, names_meet, number_by, out_of_order, qualifiers_meet, scopes_gap, shares_column};

use crate::error::Rule;
use crate::iter_spec::{Deletes, IterSpec, Kind, Scopes};
use crate::iterators::MAX_ITERATORS;
use crate::predicate::Predicate;
use cell_key::{ByteText, ColumnName};

/// Whether `second` has a compaction's scope that `first` lacks.
fn scopes_gap(first: Scopes, second: Scopes) -> bool
    ensures { result ≡ scopes_gap first second }
{
    (second.minc && !first.minc) || (second.majc && !first.majc)
}

fn is_cell_filter(kind: &Kind) -> bool
    ensures { result ≡ is_cell_filter kind.now }
{
    match kind {
        Kind::Filter { predicate, .. } => !predicate.is_of_column(),
        Kind::Versions { .. } | Kind::Combine { .. } | Kind::WholeRow | Kind::Intersecting { .. } =>
            false,
    }
}

fn is_versions(kind: &Kind) -> bool
    ensures { result ≡ is_versions kind.now }
{
    match kind {
        Kind::Versions { .. } => true,
        Kind::Filter { .. } | Kind::Combine { .. } | Kind::WholeRow | Kind::Intersecting { .. } =>
            false,
    }
}

fn is_combiner(kind: &Kind) -> bool
    ensures { result ≡ is_combiner kind.now }
{
    match kind {
        Kind::Combine { .. } => true,
        Kind::Filter { .. } | Kind::Versions { .. } | Kind::WholeRow | Kind::Intersecting { .. } =>
            false,
    }
}

/// Whether it shows entries that stand for rows or documents, as scans alone may.
fn is_scan_only(kind: &Kind) -> bool
    ensures { result ≡ is_scan_only kind.now }
{
    match kind {
        Kind::WholeRow | Kind::Intersecting { .. } => true,
        Kind::Filter { .. } | Kind::Versions { .. } | Kind::Combine { .. } => false,
    }
}

/// Whether it runs in compactions, but is for scans alone.
fn leaves_scans(spec: &IterSpec) -> bool
    ensures { result ≡ leaves_scans spec.now }
{
    is_scan_only(&spec.kind) && (spec.scopes.minc || spec.scopes.majc)
}

/// Whether the second may not follow the first in compactions.
fn is_disordered(first: &Kind, second: &Kind) -> bool
    ensures { result ≡ is_disordered first.now second.now }
{
    let combines = is_combiner(second);
    let tests_cells = is_cell_filter(second);
    (is_versions(first) && (is_versions(second) || combines || tests_cells))
        || (is_cell_filter(first) && combines)
        || (is_combiner(first) && tests_cells)
}

fn out_of_order(first: &IterSpec, second: &IterSpec) -> bool
    ensures { result ≡ out_of_order first.now second.now }
{
    let in_base = second.scopes.minc || second.scopes.majc;
    in_base && is_disordered(&first.kind, &second.kind)
}

/// The columns that a combiner lists.
fn listed_columns(kind: &Kind) -> &[ColumnName]
    ensures { result.now ≡ listed_columns kind.now }
{
    match kind {
        Kind::Combine { columns, .. } => columns.as_slice(),
        Kind::Filter { .. } | Kind::Versions { .. } | Kind::WholeRow | Kind::Intersecting { .. } =>
            &[],
    }
}

fn qualifiers_meet(a: &Option<ByteText>, b: &Option<ByteText>) -> bool
    ensures { result ≡ qualifiers_meet a.now b.now }
{
    match (a, b) {
        (Some(a), Some(b)) => a.bytes() == b.bytes(),
        _ => true,
    }
}

/// Whether two names have a column in common.
fn names_meet(a: &ColumnName, b: &ColumnName) -> bool
    ensures { result ≡ names_meet a.now b.now }
{
    a.family.bytes() == b.family.bytes() && qualifiers_meet(&a.qualifier, &b.qualifier)
}

fn meets_one(name: &ColumnName, names: &[ColumnName]) -> bool
    ensures { result ≡ list_any (names_meet name.now) names.now }
{
    names.iter().any(|other| names_meet(name, other))
}

fn lists_share(a: &[ColumnName], b: &[ColumnName]) -> bool
    ensures { result ≡ list_any (λ n. list_any (names_meet n) b.now) a.now }
{
    a.iter().any(|name| meets_one(name, b))
}

/// Whether both combine one column.
fn shares_column(first: &IterSpec, second: &IterSpec) -> bool
    ensures { result ≡ shares_column first.now second.now }
{
    lists_share(listed_columns(&first.kind), listed_columns(&second.kind))
}

fn is_full_combiner(kind: &Kind) -> bool
    ensures { result ≡ is_full_combiner kind.now }
{
    match kind {
        Kind::Combine { deletes, .. } => *deletes == Deletes::Full,
        Kind::Filter { .. } | Kind::Versions { .. } | Kind::WholeRow | Kind::Intersecting { .. } =>
            false,
    }
}

/// Whether `second` counts versions behind a combiner of columns with deletes, in major compactions.
fn is_full_under_versions(first: &IterSpec, second: &IterSpec) -> bool
    ensures { result ≡ is_full_under_versions first.now second.now }
{
    second.scopes.majc
        && is_versions(&second.kind)
        && first.scopes.majc
        && is_full_combiner(&first.kind)
}

/// Whether two iterators, of which the first runs before the second, break a rule between two.
fn clashes(rule: Rule, first: &IterSpec, second: &IterSpec) -> bool
    ensures { result ≡ clashes rule first.now second.now }
{
    match rule {
        Rule::Toml | Rule::Field | Rule::NoScan | Rule::NotPrefix | Rule::ScanOnly => false,
        Rule::Name => first.name.bytes() == second.name.bytes(),
        Rule::Priority => first.priority == second.priority,
        Rule::Order => out_of_order(first, second),
        Rule::Overlap => shares_column(first, second),
        Rule::FullUnderVersions => is_full_under_versions(first, second),
    }
}

fn clashes_with_one(rule: Rule, before: &[IterSpec], spec: &IterSpec) -> bool
    ensures { result ≡ list_any (λ t. clashes rule t spec.now) before.now }
{
    before.iter().any(|first| clashes(rule, first, spec))
}

/// The number of the first iterator of a document that breaks a rule with one before it.
pub fn first_repeat(rule: Rule, iterators: &[IterSpec]) -> Option<u32>
    requires { length iterators.now ≤ MAX_ITERATORS }
    ensures { result ≡ first_repeat rule iterators.now }
{
    for i in 0..iterators.len() {
        if clashes_with_one(rule, &iterators[..i], &iterators[i]) {
            return Some(i as u32 + 1);
        }
    }
    None
}

/// Where a priority stands among others.
fn place_of(priorities: &[u32], priority: u32) -> Option<usize>
    ensures place { result ≡ position (λ p. p == priority) priorities.now }
    ensures within { IfSome result (λ i. i < length priorities.now) }
{
    priorities.iter().position(|p| *p == priority)
}

/// The number of an iterator whose document has these priorities: its place there, from 1.
fn number_by(priorities: &[u32], spec: &IterSpec) -> u32
    requires { length priorities.now ≤ MAX_ITERATORS }
    ensures { result ≡ number_by priorities.now spec.now }
{
    match place_of(priorities, spec.priority) {
        Some(place) => place as u32 + 1,
        None => 1,
    }
}

/// The number of the first iterator in priority order that breaks a rule with one before it.
pub fn first_breaking(rule: Rule, priorities: &[u32], iterators: &[IterSpec]) -> Option<u32>
    requires { length priorities.now ≤ MAX_ITERATORS }
    ensures { result ≡ first_breaking rule priorities.now iterators.now }
{
    for i in 0..iterators.len() {
        let spec = &iterators[i];
        if clashes_with_one(rule, &iterators[..i], spec) {
            return Some(number_by(priorities, spec));
        }
    }
    None
}

/// The number of the first iterator in priority order that doesn't run in scans.
pub fn first_unscanned(priorities: &[u32], iterators: &[IterSpec]) -> Option<u32>
    requires { length priorities.now ≤ MAX_ITERATORS }
    ensures { result ≡ first_unscanned priorities.now iterators.now }
{
    for spec in iterators {
        if !spec.scopes.scan {
            return Some(number_by(priorities, spec));
        }
    }
    None
}

/// The number of the first iterator in priority order that has a compaction's scope which the one just before it lacks.
pub fn first_gap(priorities: &[u32], iterators: &[IterSpec]) -> Option<u32>
    requires { length priorities.now ≤ MAX_ITERATORS }
    ensures { result ≡ first_gap priorities.now all_scopes iterators.now }
{
    let mut before = Scopes {
        scan: true,
        minc: true,
        majc: true,
    };
    for spec in iterators {
        if scopes_gap(before, spec.scopes) {
            return Some(number_by(priorities, spec));
        }
        before = spec.scopes;
    }
    None
}

/// The number of the first iterator in priority order that leaves scans, or is a combiner behind one for scans alone.
pub fn first_beyond_scans(priorities: &[u32], iterators: &[IterSpec]) -> Option<u32>
    requires { length priorities.now ≤ MAX_ITERATORS }
    ensures { result ≡ first_beyond_scans priorities.now false iterators.now }
{
    let mut alone = false;
    for spec in iterators {
        if leaves_scans(spec) || (alone && is_combiner(&spec.kind)) {
            return Some(number_by(priorities, spec));
        }
        alone = alone || is_scan_only(&spec.kind);
    }
    None
}
