//! The mutations of a view, in shared runs.
ghost use Rattle.std.specs.Prelude.{◌≡◌, ◌↔◌, ◌<◌, ◌≤◌, ◌+◌, ◌^◌, IsTrue, Some, [], ◌∷◌, ◌++◌, length, map, slice_get, take, IfOk, OnOk};
ghost use Rattle.tablet_view.specs.Extending.{BeginsWith};
ghost use Rattle.tablet_view.specs.LogParts.{all_in, mutation_in};
ghost use Rattle.tablet_model.specs.Runs.{AreHalving};

use crate::run::Run;
use crate::same_entries::same_mutation;
use cell_key::{Entries, Entry, NoMemory};
use iter_config::Config;
use std::alloc::Global;
use std::marker::Model;

/// The mutations that came in, in order, each as its entries, which memory shares. A longer log shares them with the one that it continues.
#[derive(Drop)]
pub(crate) struct Log {
    /// Each run is at least twice as long as the next.
    runs: Vec<Run>,
    count: usize,
}

impl Model for Log {
    ghost use Rattle.std.specs.Prelude.{◌≡◌, ◌<◌, ◌^◌, List, length};
    ghost use Rattle.tablet_model.specs.Cell.{Cell};
    ghost use Rattle.tablet_view.specs.LogParts.{all_in};
    ghost use Rattle.tablet_model.specs.Runs.{AreHalving};

    ghost Value = { List (List Cell) };

    ghost view = { λ l. all_in l.runs.items };

    ghost invariant = { λ l. AreHalving (λ run. length run) l.runs.items × (l.count ≡ length (all_in l.runs.items)) × (l.count < 2 ^ 64) };
}

impl Log {
    /// No mutations. It takes no memory.
    pub(crate) fn new(alloc: Global) -> Log
        ensures { result ≡ [] }
    {
        Log {
            runs: Vec::new(alloc),
            count: 0,
        }
    }

    /// The log with a mutation at its end, of which these are the entries. It takes memory for the log's runs.
    pub(crate) fn with(&self, alloc: Global, entries: Entries) -> Result<Log, NoMemory>
        requires { length self.now + 1 < 2 ^ 64 }
        ensures { IfOk result (λ log. log ≡ self.now ++ entries ∷ []) }
    {
        let mut runs = shared(alloc, &self.runs)?;
        let last = Run::of(alloc, entries)?;
        push_joined(alloc, &mut runs, last)?;
        Ok(Log {
            runs,
            count: self.count + 1,
        })
    }

    /// How many mutations there are. It takes no memory.
    pub(crate) fn len(&self) -> usize
        ensures { result ≡ length self.now }
    {
        self.count
    }

    /// The number of runs. It takes no memory.
    pub(crate) fn runs(&self) -> u32
        ensures { 2 ^ result ≤ length self.now + 1 }
    {
        self.runs.len() as u32
    }

    /// Whether the other log's mutations, under a configuration, stand at the beginning of this one. It takes no memory.
    pub(crate) fn begins_with(&self, other: &Log, config: &Config) -> bool
        ensures { IsTrue result ↔ BeginsWith (map (mutation_in config.now) self.now) (map (mutation_in config.now) other.now) }
    {
        self.count >= other.count && begin_alike(config, &self.runs, &other.runs, other.count)
    }
}

/// The same runs.
fn shared(alloc: Global, runs: &[Run]) -> Result<Vec<Run>, NoMemory>
    ensures { IfOk result (λ list. list.items ≡ runs.now) }
{
    let mut list = Vec::with_capacity(alloc, runs.len() + 1)?;
    for run in runs {
        list.push(run.share()?)?;
    }
    Ok(list)
}

/// Puts a run behind others, joined with those before it that are less than twice as long.
fn push_joined(alloc: Global, runs: &mut Vec<Run>, last: Run) -> Result<(), NoMemory>
    requires halving { AreHalving (λ run. length run) runs.old.items }
    requires some { 1 ≤ length last }
    requires fits { length (all_in runs.old.items) + length last < 2 ^ 64 }
    ensures mutations { OnOk result (all_in runs.new.items ≡ all_in runs.old.items ++ last) }
    ensures halving { OnOk result (AreHalving (λ run. length run) runs.new.items) }
{
    let mut last = last;
    while let Some(before) = runs.pop() {
        if before.len() / 2 >= last.len() {
            runs.push(before)?;
            runs.push(last)?;
            return Ok(());
        }
        last = before.join(alloc, last)?;
    }
    runs.push(last)?;
    Ok(())
}

/// Whether the first mutations of two lists of runs are the same under a configuration, so many of them.
fn begin_alike(config: &Config, runs: &[Run], others: &[Run], count: usize) -> bool
    requires here { count ≤ length (all_in runs.now) }
    requires there { count ≤ length (all_in others.now) }
    ensures { IsTrue result ↔ (take count (map (mutation_in config.now) (all_in runs.now)) ≡ take count (map (mutation_in config.now) (all_in others.now))) }
{
    for i in 0..count {
        if !same_mutation(config, mutation_at(runs, i), mutation_at(others, i)) {
            return false;
        }
    }
    true
}

/// The entries of the mutation at place `i` of runs, counted from 0.
fn mutation_at(runs: &[Run], i: usize) -> &[Entry]
    requires { i < length (all_in runs.now) }
    ensures { slice_get (all_in runs.now) i ≡ Some result.now }
{
    let [run, rest @ ..] = runs else {
        unreachable!()
    };
    if i < run.len() {
        run.get(i)
    } else {
        mutation_at(rest, i - run.len())
    }
}
