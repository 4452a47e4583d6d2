//! The iterators of a TOML document.
ghost use Rattle.std.specs.Prelude.{◌≡◌, ◌≤◌, IfOk, All, length};
ghost use Rattle.std.specs.List.Sorted.{IsNonDecreasingBy};
ghost use Rattle.toml.specs.View.{table_view};
ghost use Rattle.iter_config.specs.Document.{config_of, config_of_iterators, config_of_members, in_order, iterators_of, priorities_of};
ghost use Rattle.iter_config.specs.Faults.{Reads};
ghost use Rattle.iter_config.specs.Limits.{AreFields};
ghost use Rattle.iter_config.specs.Order.{AreIterators, NoneClashes, in_priority_order};
ghost use Rattle.iter_config.specs.Rules.{same_name, same_priority};
ghost use Rattle.iter_config.specs.declared.error.ConfigError.TheVariants as error;

use crate::config::Config;
use crate::error::{ConfigError, FieldError, Rule};
use crate::fields::{find, has_only};
use crate::iter_spec::IterSpec;
use crate::iterators::{MAX_ITERATORS, iterators_in};
use crate::names::timed_or_none;
use crate::rules::{first_beyond_scans, first_breaking, first_gap, first_repeat, first_unscanned};
use cell_key::NoMemory;
use std::alloc::Global;
use toml::value::Table;

/// The iterators of a document, as they stand there.
#[tactic(auto, using(crate::proofs::Views::count_view))]
fn iterators_of(alloc: Global, table: &Table) -> Result<Vec<IterSpec>, ConfigError>
    ensures iterators { Reads (λ v. v.items) (iterators_of (table_view table.now)) result }
    ensures few { IfOk result (λ v. length v.items ≤ MAX_ITERATORS) }
    ensures limits { IfOk result (λ v. All AreFields v.items) }
{
    let Some(value) = find(table, "iterator") else {
        return Ok(Vec::new(alloc));
    };
    match value.as_array() {
        Some(items) if items.len() <= MAX_ITERATORS => iterators_in(alloc, items),
        _ => Err(broken(Rule::Field, 0)),
    }
}

/// The priorities of some iterators, as they stand there.
fn priorities_of(alloc: Global, iterators: &[IterSpec]) -> Result<Vec<u32>, NoMemory>
    ensures { IfOk result (λ v. v.items ≡ priorities_of iterators.now) }
{
    let mut priorities = Vec::new(alloc);
    for spec in iterators {
        priorities.push(spec.priority)?;
    }
    Ok(priorities)
}

fn broken(rule: Rule, at: u32) -> ConfigError
    ensures { result ≡ error.Refused rule at }
{
    ConfigError::Refused { rule, at }
}

/// The iterators in the order in which they run.
fn in_priority_order(mut iterators: Vec<IterSpec>) -> Result<Vec<IterSpec>, NoMemory>
    requires limits { All AreFields iterators.items }
    requires names { NoneClashes same_name iterators.items }
    requires priorities { NoneClashes same_priority iterators.items }
    ensures sorted { IfOk result (λ v. v.items ≡ in_priority_order iterators.items) }
    ensures count { IfOk result (λ v. length v.items ≡ length iterators.items) }
    ensures limits { IfOk result (λ v. All AreFields v.items) }
    ensures names { IfOk result (λ v. NoneClashes same_name v.items) }
    ensures priorities { IfOk result (λ v. NoneClashes same_priority v.items) }
    ensures order { IfOk result (λ v. IsNonDecreasingBy (λ s. s.priority) v.items) }
{
    iterators.sort_by_key(|spec| spec.priority)?;
    Ok(iterators)
}

/// The iterators of a configuration, in priority order; their document has these priorities.
#[tactic(auto, unfolding(crate::specs::Document::in_order))]
fn in_order(priorities: &[u32], iterators: Vec<IterSpec>) -> Result<Vec<IterSpec>, ConfigError>
    requires few_priorities { length priorities.now ≤ MAX_ITERATORS }
    requires few { length iterators.items ≤ MAX_ITERATORS }
    requires limits { All AreFields iterators.items }
    requires names { NoneClashes same_name iterators.items }
    requires priorities { NoneClashes same_priority iterators.items }
    requires order { IsNonDecreasingBy (λ s. s.priority) iterators.items }
    ensures iterators { Reads (λ v. v.items) (in_order priorities.now iterators.items) result }
    ensures rules { IfOk result (λ v. AreIterators v.items) }
{
    if let Some(at) = first_unscanned(priorities, &iterators) {
        return Err(broken(Rule::NoScan, at));
    }
    if let Some(at) = first_gap(priorities, &iterators) {
        return Err(broken(Rule::NotPrefix, at));
    }
    if let Some(at) = first_beyond_scans(priorities, &iterators) {
        return Err(broken(Rule::ScanOnly, at));
    }
    if let Some(at) = first_breaking(Rule::Order, priorities, &iterators) {
        return Err(broken(Rule::Order, at));
    }
    if let Some(at) = first_breaking(Rule::Overlap, priorities, &iterators) {
        return Err(broken(Rule::Overlap, at));
    }
    if let Some(at) = first_breaking(Rule::FullUnderVersions, priorities, &iterators) {
        return Err(broken(Rule::FullUnderVersions, at));
    }
    Ok(iterators)
}

/// The iterators of a configuration, from those that stand in a document.
#[tactic(auto, unfolding(crate::specs::Document::config_of_iterators))]
fn config_of_iterators(
    alloc: Global,
    iterators: Vec<IterSpec>,
) -> Result<Vec<IterSpec>, ConfigError>
    requires few { length iterators.items ≤ MAX_ITERATORS }
    requires limits { All AreFields iterators.items }
    ensures iterators { Reads (λ v. v.items) (config_of_iterators iterators.items) result }
    ensures rules { IfOk result (λ v. AreIterators v.items) }
{
    if let Some(at) = first_repeat(Rule::Name, &iterators) {
        return Err(broken(Rule::Name, at));
    }
    if let Some(at) = first_repeat(Rule::Priority, &iterators) {
        return Err(broken(Rule::Priority, at));
    }
    let priorities = priorities_of(alloc, &iterators)?;
    let iterators = in_priority_order(iterators)?;
    in_order(&priorities, iterators)
}

/// The configuration of a document.
#[tactic(auto, unfolding(crate::specs::Document::config_of_members))]
fn config_in(alloc: Global, table: &Table) -> Result<Config, ConfigError>
    ensures { Reads (λ c. c) (config_of_members (table_view table.now)) result }
{
    if !has_only(table, &["iterator", "timed"]) {
        return Err(broken(Rule::Field, 0));
    }
    let timed = match timed_or_none(alloc, table) {
        Ok(timed) => timed,
        Err(FieldError::Field) => return Err(broken(Rule::Field, 0)),
        Err(FieldError::NoMemory) => return Err(ConfigError::NoMemory),
    };
    let iterators = iterators_of(alloc, table)?;
    let iterators = config_of_iterators(alloc, iterators)?;
    Ok(Config::of(iterators, timed))
}

/// Reads a configuration. An empty text is one without iterators.
///
/// The configuration is `config_of`, and a refusal comes exactly where that is a fault: the first broken rule in
/// the order of [`Rule`], with the number of the first iterator that breaks it.
pub fn read_config(alloc: Global, text: &[u8]) -> Result<Config, ConfigError>
    ensures { Reads (λ c. c) (config_of text.now) result }
{
    let table = match toml::table_from_slice(alloc, text) {
        Ok(table) => table,
        Err(e) => {
            if e.is_memory() {
                return Err(ConfigError::NoMemory);
            }
            return Err(ConfigError::Refused {
                rule: Rule::Toml,
                at: 0,
            });
        }
    };
    config_in(alloc, &table)
}
