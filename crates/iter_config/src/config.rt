//! Accepted configurations.
ghost use Rattle.std.specs.Prelude.{◌≡◌, ◌↔◌, ◌<◌, IsTrue, Some, length, slice_get};
ghost use Rattle.std.specs.List.{list_all, list_any};
ghost use Rattle.iter_config.specs.Columns.{all_read, is_timed, kind_reads, kind_refuses, one_refuses, reads_value, refuses_delete};
ghost use Rattle.iter_config.specs.Limits.{AreFields, AreTimed};
ghost use Rattle.iter_config.specs.Order.{AreIterators, IsConfig};

use crate::equality::{same_iterators, same_names};
use crate::iter_spec::{Deletes, IterSpec, Kind};
use cell_key::Names;
use std::marker::Model;

/// A configuration: iterators in priority order, which keep each [`Rule`](crate::Rule), and the families whose puts bring
/// times of their own, 64 at most. Contracts see both.
#[derive(Drop)]
pub struct Config {
    iterators: Vec<IterSpec>,
    timed: Names,
}

impl Model for Config {
    ghost use Rattle.iter_config.specs.Settings.{Settings};

    ghost Value = { Settings };

    ghost use Rattle.iter_config.specs.ConfigParts.{settings_of};
    ghost use Rattle.iter_config.specs.Order.{IsConfig};

    ghost view = { settings_of };

    ghost invariant = { λ c. IsConfig (settings_of c) };
}

impl Config {
    /// The configuration of these iterators and families. It takes no memory.
    pub(crate) fn of(iterators: Vec<IterSpec>, timed: Names) -> Config
        requires iterators { AreIterators iterators.items }
        requires timed { AreTimed timed }
        ensures iterators { result.iterators ≡ iterators.items }
        ensures timed { result.timed ≡ timed }
    {
        Config { iterators, timed }
    }

    /// The number of iterators. It takes no memory.
    pub fn count(&self) -> usize
        ensures count { result ≡ length self.now.iterators }
        ensures rules { IsConfig self.now }
    {
        self.iterators.len()
    }

    /// The iterator at place `i` in priority order, counted from 0. It takes no memory.
    pub fn iterator(&self, i: usize) -> &IterSpec
        requires { i < length self.now.iterators }
        ensures element { slice_get self.now.iterators i ≡ Some result.now }
        ensures limits { AreFields result.now }
    {
        &self.iterators[i]
    }

    /// Whether the two configurations are equal. It takes no memory.
    pub fn same(&self, other: &Config) -> bool
        ensures { IsTrue result ↔ (self.now ≡ other.now) }
    {
        same_iterators(&self.iterators, &other.iterators)
            && same_names(self.timed.as_slice(), other.timed.as_slice())
    }

    /// Whether the puts of this family bring times of their own. It takes no memory.
    pub fn is_timed(&self, family: &[u8]) -> bool
        ensures { result ≡ is_timed self.now family.now }
    {
        self.timed.has(family)
    }

    /// Whether a delete of the columns of this family and qualifier is to be refused: the family has times of its own, or a
    /// combiner of deletes `none` lists them. It takes no memory.
    pub fn refuses_delete(&self, family: &[u8], qualifier: &[u8]) -> bool
        ensures { result ≡ refuses_delete self.now family.now qualifier.now }
    {
        self.is_timed(family) || one_refuses(&self.iterators, family, qualifier)
    }

    /// Whether the value may stand in the columns of this family and qualifier: false exactly where a combiner lists
    /// them and its encoding doesn't read the value. It takes no memory.
    pub fn reads(&self, family: &[u8], qualifier: &[u8], value: &[u8]) -> bool
        ensures { result ≡ reads_value self.now family.now qualifier.now value.now }
    {
        all_read(&self.iterators, family, qualifier, value)
    }
}

/// Whether a combiner without deletes combines these columns.
fn kind_refuses(kind: &Kind, family: &[u8], qualifier: &[u8]) -> bool
    ensures { result ≡ kind_refuses family.now qualifier.now kind.now }
{
    match kind {
        Kind::Combine {
            columns,
            deletes,
            ..
        } => *deletes == Deletes::None && columns.lists(family, qualifier),
        Kind::Filter { .. } | Kind::Versions { .. } | Kind::WholeRow | Kind::Intersecting { .. } =>
            false,
    }
}

#[tactic(auto, unfolding(crate::specs::Columns::one_refuses))]
fn one_refuses(iterators: &[IterSpec], family: &[u8], qualifier: &[u8]) -> bool
    ensures { result ≡ one_refuses iterators.now family.now qualifier.now }
{
    iterators
        .iter()
        .any(|spec| kind_refuses(&spec.kind, family, qualifier))
}

/// Whether the value is read by a combiner of these columns, or is of no combiner.
fn kind_reads(kind: &Kind, family: &[u8], qualifier: &[u8], value: &[u8]) -> bool
    ensures { result ≡ kind_reads family.now qualifier.now value.now kind.now }
{
    match kind {
        Kind::Combine {
            op,
            columns,
            encoding,
            ..
        } => !columns.lists(family, qualifier) || op.reads(*encoding, value),
        Kind::Filter { .. } | Kind::Versions { .. } | Kind::WholeRow | Kind::Intersecting { .. } =>
            true,
    }
}

#[tactic(auto, unfolding(crate::specs::Columns::all_read))]
fn all_read(iterators: &[IterSpec], family: &[u8], qualifier: &[u8], value: &[u8]) -> bool
    ensures { result ≡ all_read iterators.now family.now qualifier.now value.now }
{
    iterators
        .iter()
        .all(|spec| kind_reads(&spec.kind, family, qualifier, value))
}
