//! Loads by their plan.
use crate::fixtures::{config, puts};
use cell_key::NoMemory;
use iter_config::ConfigError;
use std::alloc::Global;
use tablet_core::{Answer, FileCount, StoreStatus};
use tablet_loader::{Planned, run_plan};

/// Four mutations of a row each, in chunks of one.
fn loaded(alloc: Global) -> Result<Planned, ConfigError> {
    let config = config(alloc)?;
    let mutations = puts(alloc, b"abcd")?;
    Ok(run_plan(alloc, config, &mutations, 1)?)
}

/// Whether a store has four mutations, all of them in these two files.
fn is_compacted(status: &StoreStatus) -> bool {
    let files = [FileCount { id: 4, count: 1 }, FileCount { id: 5, count: 3 }];
    status.log == 4
        && status.memory == 0
        && status.frozen.is_none()
        && status.files.as_slice() == files.as_slice()
        && status.jobs.is_empty()
}

fn are_applied(answers: &[Answer]) -> bool {
    let applied = [
        Answer::Applied(1),
        Answer::Applied(2),
        Answer::Applied(3),
        Answer::Applied(4),
    ];
    answers == applied.as_slice()
}

/// Whether the first three files became the fifth, beside the last flush.
fn is_as_planned(alloc: Global, planned: &Planned) -> Result<bool, NoMemory> {
    let status = planned.core.status(alloc)?;
    Ok(is_compacted(&status) && are_applied(planned.answers.as_slice()))
}

#[test]
fn three_files_of_a_load_become_one(rt: HostRuntime) -> Result<(), ConfigError> {
    let planned = loaded(rt.alloc())?;
    assert!(rt; is_as_planned(rt.alloc(), &planned)?);
    Ok(())
}
