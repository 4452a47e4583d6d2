//! What steps in a row come to, and that what a job makes may be put in place later.
ghost use Rattle.tablet_core.specs.CoreLaws.{FlushesFit, FrozenPartsStay, JobsStay, MajorsFit};
ghost use Rattle.tablet_core.specs.Turns.{CoresFollowStores};

/// A law: what a job makes stays the same over any step that leaves the job running, and a frozen part stays until it is written.
/// So a job may be made at once, or in another thread, and be put in place later.
pub fn jobs_may_end_later()
    ensures jobs { JobsStay }
    ensures frozen { FrozenPartsStay }
{}

/// A law: what a job makes that [`Core::flush_job`](crate::Core::flush_job) or [`Core::major_job`](crate::Core::major_job) gave is
/// what `install_flush` and `install_finish` ask for.
pub fn made_jobs_fit()
    ensures flush { FlushesFit }
    ensures major { MajorsFit }
{}

/// A law: whatever steps a core is asked for, with those left out for which memory was wanting, it is the store of lists that these
/// steps lead to, with its log, and each answer is that store's.
pub fn cores_follow_stores()
    ensures { CoresFollowStores }
{}
