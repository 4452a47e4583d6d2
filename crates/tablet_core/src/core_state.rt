//! A tablet's view and its running jobs.
ghost use Rattle.std.specs.Prelude.{◌≡◌, ◌<◌, ◌^◌, IfOk};
ghost use Rattle.std.specs.Arc.{arc_value};
ghost use Rattle.tablet_view.specs.Snapshot.{IsStanding};
ghost use Rattle.tablet_core.specs.State.{IsStandingCore, empty_core};

mod applying;
mod finishing;
mod flushing;
mod freezing;
mod starting;
mod stepping;
mod telling;

use cell_key::NoMemory;
use compactor::RunningJobs;
use iter_config::Config;
use std::alloc::Global;
use std::marker::Model;
use std::sync::Arc;
use tablet_view::View;

/// A tablet's core: its view and its running jobs. Contracts see the store of lists that they are.
#[derive(Drop)]
pub struct Core {
    view: Arc<View>,
    next: u64,
    jobs: RunningJobs,
}

impl Model for Core {
    ghost use Rattle.std.specs.Arc.{arc_value};
    ghost use Rattle.tablet_core.specs.State.{CoreState, IsStandingCore};

    ghost Value = { CoreState };

    ghost view = { λ k. record { view = arc_value k.view; next = k.next; jobs = k.jobs } };

    ghost invariant = { λ k. IsStandingCore record { view = arc_value k.view; next = k.next; jobs = k.jobs } };
}

impl Core {
    /// The core of no mutations and no jobs. It takes memory.
    pub fn open(alloc: Global, config: Arc<Config>) -> Result<Core, NoMemory>
        ensures { IfOk result (λ core. core ≡ empty_core (arc_value config)) }
    {
        let view = Arc::new(alloc, View::open(alloc, config)?)?;
        Ok(Core {
            view,
            next: 1,
            jobs: RunningJobs::new(alloc),
        })
    }

    /// The view that stands now. It takes no memory.
    pub fn view(&self) -> &Arc<View>
        ensures view { arc_value result.now ≡ self.now.view }
        ensures stands { IsStanding self.now.view }
        ensures jobs { IsStandingCore self.now }
    {
        // That the view stands for its log is what `config` says.
        let _ = self.view.config();
        &self.view
    }
}
