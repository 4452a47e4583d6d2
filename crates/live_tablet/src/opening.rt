//! A tablet is opened with its readers.
ghost use Rattle.std.specs.Prelude.{◌≡◌, ◌<◌, ◌≤◌, ◌++◌, ◌∷◌, [], drop, length, IfOk, All, MatchOption, vec_len};
ghost use Rattle.std.specs.Arc.{arc_value};
ghost use Rattle.tablet_view.specs.Snapshot.{empty_snapshot};
ghost use Rattle.tablet_core.specs.State.{empty_core};
ghost use Rattle.live_tablet.specs.States.{IsNew};

use crate::loader::Loader;
use crate::published::{Published, ViewWriter};
use crate::reader::LiveReader;
use cell_key::NoMemory;
use iter_config::Config;
use std::alloc::Global;
use std::marker::Model;
use std::sync::{Arc, Wait};
use tablet_core::Core;

/// The readers of a tablet that were not taken yet. Contracts see the list of them.
#[derive(Drop)]
pub struct Readers {
    waiting: Vec<LiveReader>,
}

impl Model for Readers {
    ghost use Rattle.std.specs.Prelude.{List};
    ghost use Rattle.live_tablet.specs.States.{ReaderState};

    ghost Value = { List ReaderState };

    ghost view = { λ r. r.waiting.items };
}

impl Readers {
    /// Gives the last reader that was not taken yet, and none exactly where all were. It takes no memory.
    pub fn take(&mut self) -> Option<LiveReader>
        ensures { MatchOption result ((self.old ≡ []) × (self.new ≡ [])) (λ reader. self.old ≡ self.new ++ reader ∷ []) }
    {
        self.waiting.pop()
    }
}

/// As many readers of a loader's tablet.
fn seat_all(loader: &mut Loader, alloc: Global, readers: u32) -> Result<Readers, NoMemory>
    ensures loader { loader.new ≡ loader.old }
    ensures readers { IfOk result (λ list. All (IsNew loader.old.tablet loader.old.published) list × (length list ≡ readers)) }
{
    let mut waiting = Vec::new(alloc);
    for _ in 0..readers {
        let reader = loader.reader(alloc)?;
        waiting.push(reader)?;
    }
    Ok(Readers { waiting })
}

/// A writer that shows a core's view, with two places for each reader: its own, and one in a note that is under way.
fn writer_of(alloc: Global, core: &Core, readers: u32) -> Result<ViewWriter, NoMemory>
    requires { (0 < readers) × (readers ≤ 8) }
    ensures shown { IfOk result (λ writer. arc_value writer.desk.shown.value.view ≡ core.now.view) }
    ensures pending { IfOk result (λ writer. drop writer.behind writer.log.items ≡ []) }
{
    let first = Published {
        view: Arc::try_clone(core.view())?,
    };
    let second = Published {
        view: Arc::try_clone(core.view())?,
    };
    Ok(ViewWriter::new(alloc, first, second, 2 * readers as usize)?)
}

/// Opens an empty tablet, and publishes its view to so many readers. It takes memory.
pub fn open<R: Wait>(
    rt: &R,
    alloc: Global,
    config: Arc<Config>,
    readers: u32,
) -> Result<(Loader, Readers), NoMemory>
    requires { (0 < readers) × (readers ≤ 8) }
    ensures core { IfOk result (λ tablet. (tablet.0.core ≡ empty_core (arc_value config)) × (tablet.0.job ≡ 0)) }
    ensures published { IfOk result (λ tablet. tablet.0.published ≡ empty_snapshot (arc_value config)) }
    ensures readers { IfOk result (λ tablet. All (IsNew tablet.0.tablet tablet.0.published) tablet.1 × (length tablet.1 ≡ readers)) }
{
    let load = tablet_loader::Loader::open(alloc, config)?;
    let writer = writer_of(alloc, &load.core, readers)?;
    let mut loader = Loader::started(rt, load, writer)?;
    match seat_all(&mut loader, alloc, readers) {
        Ok(readers) => Ok((loader, readers)),
        Err(error) => {
            loader.close(rt);
            Err(error)
        }
    }
}
