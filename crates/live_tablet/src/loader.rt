//! The loader, which publishes the view of its core.
ghost use Rattle.std.specs.Prelude.{◌≡◌, [], drop, IfOk, MatchResult, OnOk};
ghost use Rattle.std.specs.Arc.{arc_value};
ghost use Rattle.std.specs.Borrow.{Lends, sem};
ghost use Rattle.tablet_view.specs.Extending.{Extends};
ghost use Rattle.tablet_core.specs.Status.{IsStatusOf};
ghost use Rattle.tablet_core.specs.contracts.core_state.Core.{the_row as core_row};
ghost use Rattle.live_tablet.specs.States.{IsNew};
ghost use Rattle.live_tablet.specs.contracts.loader.Loader.{the_row};

use crate::published::{PlaceFactory, ViewWriter};
use crate::reader::{LiveReader, Note};
use crate::seats::{push, show_again, told};
use cell_key::NoMemory;
use core::mem::replace_with;
use std::alloc::Global;
use std::marker::Model;
use std::sync::{Arc, Wait};
use tablet_core::{Core, StoreStatus};
use tablet_io::{Gate, Place};
use tablet_view::View;

/// Loads a tablet, and publishes its view. Contracts see its tablet, its core, the number of its last job, and the view that it
/// published last.
pub struct Loader {
    pub(crate) load: tablet_loader::Loader,
    writer: ViewWriter,
    home: PlaceFactory,
    /// How many publishes were let through a gate.
    publishes: u64,
}

impl Model for Loader {
    ghost use Rattle.std.specs.Prelude.{◌≡◌, Some};
    ghost use Rattle.std.specs.Arc.{arc_value};
    ghost use Rattle.left_right.specs.Sides as sides;
    ghost use Rattle.live_tablet.specs.States.{LoaderState};

    ghost Value = { LoaderState };

    ghost view = { λ l. record {
      tablet = (arc_value l.home.board).shared.table_id;
      core = l.load.core;
      job = l.load.job;
      published = arc_value l.writer.desk.shown.value.view;
    } };

    ghost invariant = { λ l. sides.view l.writer.desk.place ≡ Some (arc_value l.writer.desk.shown.value.view) };
}

impl Loader {
    /// A loader of this tablet, whose view the writer shows. It takes memory, and may wait for readers.
    pub(crate) fn started<R: Wait>(
        rt: &R,
        load: tablet_loader::Loader,
        writer: ViewWriter,
    ) -> Result<Loader, NoMemory>
        requires pending { drop writer.behind writer.log.items ≡ [] }
        requires shown { arc_value writer.desk.shown.value.view ≡ load.core.view }
        ensures { IfOk result (λ loader. (loader.core ≡ load.core) × (loader.job ≡ load.job) × (loader.published ≡ load.core.view)) }
    {
        let Ok(home) = writer.factory().another() else {
            writer.take(rt);
            return Err(NoMemory);
        };
        let (writer, shown) = show_again(rt, writer);
        if shown.is_err() {
            writer.take(rt);
            return Err(NoMemory);
        }
        Ok(Loader {
            load,
            writer,
            home,
            publishes: 0,
        })
    }

    /// A reader that has seen the view last published, and no other. It takes memory.
    pub(crate) fn reader(&mut self, alloc: Global) -> Result<LiveReader, NoMemory>
        ensures reader { IfOk result (IsNew self.old.tablet self.old.published) }
        ensures kept { self.new ≡ self.old }
    {
        let note = self.tell(alloc)?;
        Ok(LiveReader::of(note))
    }

    /// The loader's own core. It takes no memory.
    pub fn core(&mut self) -> &mut Core
        ensures* lends { sem 𝓛 (Lends the_row core_row self.entry result (λ core. record self.entry.now { core = core })) }
        ensures value { result.now ≡ self.old.core }
    {
        &mut self.load.core
    }

    /// The core's present view. It takes no memory.
    pub fn view(&self) -> &Arc<View>
        ensures { arc_value result.now ≡ self.now.core.view }
    {
        self.load.core.view()
    }

    /// What the core has now. It takes memory.
    pub fn status(&self, alloc: Global) -> Result<StoreStatus, NoMemory>
        ensures { IfOk result (λ status. IsStatusOf self.now.core status) }
    {
        self.load.core.status(alloc)
    }

    /// Publishes the core's present view, in one step. It may wait for readers. It takes memory; without it what is published
    /// stays as it was.
    pub fn publish<R: Wait>(&mut self, rt: &R, _alloc: Global) -> Result<(), NoMemory>
        requires { Extends self.old.core.view self.old.published }
        ensures published { MatchResult result (λ _. self.new.published ≡ self.old.core.view) (λ _. self.new.published ≡ self.old.published) }
        ensures kept { (self.new.tablet ≡ self.old.tablet) × (self.new.core ≡ self.old.core) × (self.new.job ≡ self.old.job) }
    {
        let next = Arc::try_clone(self.load.core.view())?;
        Ok(replace_with(&mut self.writer, next, |writer, next| {
            push(rt, writer, next)
        })?)
    }

    /// Passes the gate, and publishes the core's present view, as [`publish`](Loader::publish) does.
    pub(crate) fn publish_through<R: Wait, G: Gate>(
        &mut self,
        rt: &R,
        alloc: Global,
        gate: &G,
    ) -> Result<(), NoMemory>
        requires { Extends self.old.core.view self.old.published }
        ensures published { OnOk result (self.new.published ≡ self.old.core.view) }
        ensures kept { (self.new.tablet ≡ self.old.tablet) × (self.new.core ≡ self.old.core) × (self.new.job ≡ self.old.job) }
    {
        self.publishes = self.publishes.saturating_add(1);
        gate.at(Place::Publish(self.publishes));
        self.publish(rt, alloc)
    }

    /// A note that stands for the view last published. It takes memory.
    pub fn tell(&mut self, _alloc: Global) -> Result<Note, NoMemory>
        ensures note { IfOk result (λ note. (note.tablet ≡ self.old.tablet) × (note.shown ≡ self.old.published)) }
        ensures kept { self.new ≡ self.old }
    {
        let shown = Arc::try_clone(&self.writer.published().view)?;
        let from = self.home.another()?;
        let seat = told(&mut self.writer);
        Ok(Note { seat, shown, from })
    }

    /// Uses the loader up; what its readers keep stays. It may wait for readers, and takes no memory.
    pub fn close<R: Wait>(self, rt: &R) {
        let Loader {
            load: _,
            writer,
            home: _,
            publishes: _,
        } = self;
        writer.take(rt);
    }
}
