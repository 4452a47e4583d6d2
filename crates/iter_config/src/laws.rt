//! Laws of configurations as rules of a store.
ghost use Rattle.std.specs.Prelude.{◌≡◌, ℕ, not, ◌&&◌, ◌||◌, List, [], is_some, unwrap_or};
ghost use Rattle.tablet_model.specs.Cell.{Cell};
ghost use Rattle.tablet_model.specs.History.{Change, RowChange, is_delete};
ghost use Rattle.tablet_model.specs.Ingest.{is_mistimed, is_refused_delete, is_unread};
ghost use Rattle.tablet_model.specs.Rules.{AreSound, scan_stack};
ghost use Rattle.tablet_model.specs.Stages.{stages};
ghost use Rattle.iter_config.specs.Columns.{is_timed, reads_value, refuses_delete};
ghost use Rattle.iter_config.specs.Order.{IsConfig};
ghost use Rattle.iter_config.specs.RulesOf.{rules_of};
ghost use Rattle.iter_config.specs.Settings.{Settings};
ghost use Rattle.iter_config.specs.Stages.{stages_of};

/// A law: the checks of a mutation that the model makes under the rules of a configuration are the configuration's own
/// answers. A delete is refused where `Config::refuses_delete` says so, a put where `Config::reads` is false; and a change
/// is refused for its time where it has one and is a delete or `Config::is_timed` is false of its family, or is a put without
/// one where that is true.
pub fn checks_are_the_configurations()
    ensures deletes { (c : Settings) (k : ℕ) (m : RowChange) (u : Change) →
        is_refused_delete (rules_of c) k m u ≡ (is_delete u.value && refuses_delete c u.family u.qualifier) }
    ensures times { (c : Settings) (k : ℕ) (m : RowChange) (u : Change) →
        is_mistimed (rules_of c) k m u
        ≡ (is_some u.time && (is_delete u.value || not (is_timed c u.family)) || not (is_some u.time) && (is_some u.value && is_timed c u.family)) }
    ensures values { (c : Settings) (k : ℕ) (m : RowChange) (u : Change) →
        is_unread (rules_of c) k m u
        ≡ (is_some u.value && not (reads_value c u.family u.qualifier (unwrap_or u.value []))) }
{}

/// A law: what a scan runs under the rules of a configuration is each of its iterators, in priority order, though the
/// rules tell those of compactions apart.
pub fn scans_run_all_iterators()
    ensures { (c : Settings) (list : List Cell) → IsConfig c →
        scan_stack (rules_of c) list ≡ stages (stages_of c) list }
{}

/// A law: the rules of a configuration are sound. So by the laws of compactions no compaction that keeps to them changes
/// what its scans answer.
pub fn configurations_are_sound()
    ensures { (c : Settings) → IsConfig c → AreSound (rules_of c) }
{}
