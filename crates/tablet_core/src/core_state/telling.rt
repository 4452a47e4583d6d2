//! What a core has, as it is told.
ghost use Rattle.std.specs.Prelude.{◌≡◌, map, IfOk};
ghost use Rattle.tablet_core.specs.Status.{IsStatusOf, count_of};

use super::Core;
use crate::status::{FileCounts, StoreStatus};
use cell_key::NoMemory;
use compactor::FileCount;
use std::alloc::Global;
use tablet_view::View;

fn file_counts(view: &View, alloc: Global) -> Result<FileCounts, NoMemory>
    ensures { IfOk result (λ counts. counts ≡ map count_of view.now.files) }
{
    let mut counts = FileCounts::new(alloc);
    for i in 0..view.file_count() {
        let (id, count) = view.file_at(i);
        counts.push(FileCount { id, count })?;
    }
    Ok(counts)
}

impl Core {
    /// What the core has now. It takes memory.
    pub fn status(&self, alloc: Global) -> Result<StoreStatus, NoMemory>
        ensures { IfOk result (λ status. IsStatusOf self.now status) }
    {
        Ok(StoreStatus {
            log: self.view.mutations(),
            memory: self.view.memory_count(),
            frozen: self.view.frozen_count(),
            files: file_counts(&self.view, alloc)?,
            jobs: self.jobs.in_order(alloc)?,
        })
    }
}
