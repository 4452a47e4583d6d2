//! The open sessions of a script.
ghost use Rattle.std.specs.Prelude.{◌≡◌, ◌<◌, ◌≤◌, ◌==◌, [], ◌∷◌, ◌++◌, position, length, is_ok, if◌then◌else◌, slice_get, slice_set, remove, Some, IfOk, IfSome, OnErr};
ghost use Rattle.std.specs.Arc.{arc_value};
ghost use Rattle.cell_key.specs.Ranges.{span_of};
ghost use Rattle.scan_session.specs.Sessions.{IsFetch, IsSameScan};
ghost use Rattle.scan_session.specs.Takes.{mode_of};

use cell_key::NoMemory;
use scan_session::{Fetched, Session, Still};
use std::alloc::Global;
use std::marker::Model;
use std::sync::Arc;
use tablet_view::View;

/// A session that is open, with the number that a script gave it.
#[derive(Drop)]
pub struct OpenSession {
    pub number: u32,
    pub session: Session,
}

/// The open sessions of a script.
#[derive(Drop)]
pub struct Sessions {
    open: Vec<OpenSession>,
}

impl Model for Sessions {
    ghost use Rattle.std.specs.Prelude.{List};
    ghost use Rattle.tablet_replay.specs.declared.sessions.OpenSession.{OpenSession};

    ghost Value = { List OpenSession };

    ghost view = { λ s. s.open.items };
}

impl Sessions {
    ghost use Rattle.tablet_replay.specs.SessionSteps.{IsFetchedAt, IsRenewedAt};
    ghost use Rattle.tablet_replay.specs.TabletParts.{IsPinned};

    /// No sessions. It takes no memory.
    pub fn new(alloc: Global) -> Sessions
        ensures { result ≡ [] }
    {
        Sessions {
            open: Vec::new(alloc),
        }
    }

    /// The place of the session of a number, if one is open.
    pub fn place_of(&self, number: u32) -> Option<usize>
        ensures place { result ≡ position (λ s. s.number == number) self.now }
        ensures inside { IfSome result (λ i. i < length self.now) }
    {
        self.open.iter().position(|s| s.number == number)
    }

    /// Puts a session at the end.
    pub fn push(&mut self, session: OpenSession) -> Result<(), NoMemory>
        ensures { self.new ≡ (if is_ok result then self.old ++ session ∷ [] else self.old) }
    {
        self.open.push(session)?;
        Ok(())
    }

    /// The next entries of the session at a place.
    pub fn fetch_at(&mut self, alloc: Global, i: usize, count: u32) -> Result<Fetched, NoMemory>
        requires inside { i < length self.old }
        requires some { 1 ≤ count }
        ensures given { IfOk result (IsFetchedAt self.old self.new i count) }
        ensures failed { OnErr result (self.new ≡ self.old) }
    {
        let mut views = Still::new();
        let open = &mut self.open[i];
        open.session.fetch(alloc, &mut views, count)
    }

    /// Moves the session at a place to a view, whose log begins with that of the session's view.
    pub fn renew_at(&mut self, i: usize, view: Arc<View>)
        requires inside { i < length self.old }
        requires pinned { IfSome (slice_get self.old i) (IsPinned (arc_value view)) }
        ensures { IsRenewedAt self.old self.new i (arc_value view) }
    {
        let open = &mut self.open[i];
        open.session.renew(view);
    }

    /// Tears the stack of the session at a place down.
    pub fn drop_stack_at(&mut self, i: usize)
        requires { i < length self.old }
        ensures { self.new ≡ self.old }
    {
        let open = &mut self.open[i];
        open.session.drop_stack();
    }

    /// Takes the session at a place away.
    pub fn remove_at(&mut self, i: usize)
        requires { i < length self.old }
        ensures { self.new ≡ remove self.old i }
    {
        let _ = self.open.remove(i);
    }
}
