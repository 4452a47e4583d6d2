//! The checks of what a mutation does, and all checks in their order.
ghost use Rattle.std.specs.Prelude.{◌≡◌, ◌≤◌, [], length, map, option_map};
ghost use Rattle.std.specs.List.{list_any};
ghost use Rattle.tablet_model.specs.Limits.{max_changes};
ghost use Rattle.tablet_model.specs.Ingest.{first_twice, first_where, ingest, is_twin};
ghost use Rattle.cell_key.specs.Mutations.{change_of, row_change_of};
ghost use Rattle.iter_config.specs.RulesOf.{rules_of};
ghost use Rattle.ingest.specs.Refusals.{refusal_of};
ghost use Rattle.ingest.specs.Checks.{first_broken, is_mistimed, is_refused_delete, is_unread};

use crate::bounds::out_of_bounds;
use crate::refused::Refused;
use cell_key::{Mutation, Update};
use iter_config::Config;

/// The most mutations of a log.
const MAX_LOG: u64 = 524_288;

/// Whether two updates are of one column, and both deletes or both puts.
#[tactic(auto, unfolding(tablet_model::specs::Ingest::is_twin))]
fn is_twin(update: &Update, other: &Update) -> bool
    ensures { result ≡ is_twin (change_of update.now) (change_of other.now) }
{
    update.family.bytes() == other.family.bytes()
        && update.qualifier.bytes() == other.qualifier.bytes()
        && update.visibility.bytes() == other.visibility.bytes()
        && update.value.is_some() == other.value.is_some()
}

fn has_twin(before: &[Update], update: &Update) -> bool
    ensures { result ≡ list_any (λ other. is_twin (change_of update.now) (change_of other)) before.now }
{
    before.iter().any(|other| is_twin(update, other))
}

/// The number of the first update that has a twin before it.
fn first_twice(updates: &[Update]) -> Option<u32>
    requires { length updates.now ≤ max_changes }
    ensures { result ≡ first_twice [] 1 (map change_of updates.now) }
{
    for i in 0..updates.len() {
        if has_twin(&updates[..i], &updates[i]) {
            return Some(i as u32 + 1);
        }
    }
    None
}

/// Whether an update deletes where the configuration refuses deletes.
fn is_refused_delete(config: &Config, update: &Update) -> bool
    ensures { result ≡ is_refused_delete config.now (change_of update.now) }
{
    update.value.is_none() && config.refuses_delete(update.family.bytes(), update.qualifier.bytes())
}

/// Whether an update brings a time where it may not, or lacks one where it has to bring it.
fn is_mistimed(config: &Config, update: &Update) -> bool
    ensures { result ≡ is_mistimed config.now (change_of update.now) }
{
    let is_timed = config.is_timed(update.family.bytes());
    if update.time.is_some() {
        update.value.is_none() || !is_timed
    } else {
        update.value.is_some() && is_timed
    }
}

/// Whether an update puts a value that the configuration doesn't read.
fn is_unread(config: &Config, update: &Update) -> bool
    ensures { result ≡ is_unread config.now (change_of update.now) }
{
    match &update.value {
        None => false,
        Some(value) => !config.reads(
            update.family.bytes(),
            update.qualifier.bytes(),
            value.bytes(),
        ),
    }
}

/// The number of the first update that deletes where the configuration refuses deletes.
fn first_refused_delete(config: &Config, updates: &[Update]) -> Option<u32>
    requires { length updates.now ≤ max_changes }
    ensures { result ≡ first_where (is_refused_delete config.now) 1 (map change_of updates.now) }
{
    for i in 0..updates.len() {
        if is_refused_delete(config, &updates[i]) {
            return Some(i as u32 + 1);
        }
    }
    None
}

/// The number of the first update that brings a time where it may not, or lacks one where it has to bring it.
fn first_mistimed(config: &Config, updates: &[Update]) -> Option<u32>
    requires { length updates.now ≤ max_changes }
    ensures { result ≡ first_where (is_mistimed config.now) 1 (map change_of updates.now) }
{
    for i in 0..updates.len() {
        if is_mistimed(config, &updates[i]) {
            return Some(i as u32 + 1);
        }
    }
    None
}

/// The number of the first update that puts a value that the configuration doesn't read.
fn first_unread(config: &Config, updates: &[Update]) -> Option<u32>
    requires { length updates.now ≤ max_changes }
    ensures { result ≡ first_where (is_unread config.now) 1 (map change_of updates.now) }
{
    for i in 0..updates.len() {
        if is_unread(config, &updates[i]) {
            return Some(i as u32 + 1);
        }
    }
    None
}

/// The first broken check.
fn first_broken(config: &Config, log: u64, mutation: &Mutation) -> Option<Refused>
    ensures { option_map refusal_of result ≡ first_broken config.now log (row_change_of mutation.now) }
{
    if let Some(refused) = out_of_bounds(mutation) {
        return Some(refused);
    }
    let updates = mutation.updates.as_slice();
    if let Some(at) = first_twice(updates) {
        return Some(Refused::Duplicate { at });
    }
    if let Some(at) = first_refused_delete(config, updates) {
        return Some(Refused::DeleteHere { at });
    }
    if let Some(at) = first_mistimed(config, updates) {
        return Some(Refused::Time { at });
    }
    if let Some(at) = first_unread(config, updates) {
        return Some(Refused::Value { at });
    }
    if log < MAX_LOG {
        None
    } else {
        Some(Refused::Full)
    }
}

/// Why a mutation stays out, behind a log of so many mutations: the first broken check, in the order of [`Refused`], each
/// over the whole mutation. It takes no memory.
#[tactic(auto, using(crate::proofs::Checking::ingest_is))]
pub fn check(config: &Config, log: u64, mutation: &Mutation) -> Option<Refused>
    ensures { option_map refusal_of result ≡ ingest (rules_of config.now) log (row_change_of mutation.now) }
{
    first_broken(config, log, mutation)
}
