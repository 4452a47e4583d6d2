//! A reader of the published view, and the note that the loader gives it.
ghost use Rattle.std.specs.Prelude.{◌≡◌, ◌≤◌, ◌↔◌, true, false, Some, IsTrue, IfOk, OnErr};
ghost use Rattle.std.specs.Arc.{arc_value};
ghost use Rattle.tablet_io.specs.Causes.{Rose};
ghost use Rattle.tablet_view.specs.Extending.{Extends};
ghost use Rattle.live_tablet.specs.States.{IsNew};

use crate::extending::extends;
use crate::published::{PlaceFactory, PlacedReader};
use crate::seats::see;
use cell_key::NoMemory;
use scan_session::Views;
use std::marker::Model;
use std::sync::Arc;
use tablet_view::View;

/// Stands for a view that was published. Contracts see its tablet and that view.
#[derive(Drop)]
pub struct Note {
    pub(crate) seat: Option<PlacedReader>,
    pub(crate) shown: Arc<View>,
    pub(crate) from: PlaceFactory,
}

impl Model for Note {
    ghost use Rattle.std.specs.Prelude.{◌≡◌, Some, IfSome};
    ghost use Rattle.std.specs.Arc.{arc_value};
    ghost use Rattle.left_right.specs.Sides as sides;
    ghost use Rattle.live_tablet.specs.States.{NoteState};

    ghost Value = { NoteState };

    ghost view = { λ n. record { tablet = (arc_value n.from.board).shared.table_id; shown = arc_value n.shown } };

    ghost invariant = { λ n. IfSome n.seat (λ s. sides.view s.place ≡ Some (arc_value n.shown)) };
}

/// Looks at the published view, and keeps the newest one that it has seen or learnt. Where it has no place to look from, it
/// finds the one that it keeps. Contracts see its tablet, the view that it keeps, and how often it was asked.
#[derive(Drop)]
pub struct LiveReader {
    seat: Option<PlacedReader>,
    kept: Arc<View>,
    from: PlaceFactory,
    questions: u64,
}

impl Model for LiveReader {
    ghost use Rattle.std.specs.Prelude.{IfSome};
    ghost use Rattle.std.specs.Arc.{arc_value};
    ghost use Rattle.left_right.specs.Sides as sides;
    ghost use Rattle.live_tablet.specs.Rules.{Knows};
    ghost use Rattle.live_tablet.specs.States.{ReaderState};

    ghost Value = { ReaderState };

    ghost view = { λ r. record {
      tablet = (arc_value r.from.board).shared.table_id;
      newest = arc_value r.kept;
      questions = r.questions;
    } };

    ghost invariant = { λ r. IfSome r.seat (λ s. Knows (sides.view s.place) (arc_value r.kept)) };
}

impl LiveReader {
    /// A reader that has learnt a note, and seen nothing else.
    pub(crate) fn of(note: Note) -> LiveReader
        ensures { IsNew note.tablet note.shown result }
    {
        let Note { seat, shown, from } = note;
        LiveReader {
            seat,
            kept: shown,
            from,
            questions: 0,
        }
    }

    /// Counts a question.
    fn count_question(&mut self)
        ensures rose { Rose self.old.questions self.new.questions × (self.old.questions ≤ self.new.questions) }
        ensures kept { (self.new.tablet ≡ self.old.tablet) × (self.new.newest ≡ self.old.newest) }
    {
        self.questions = self.questions.saturating_add(1);
    }

    /// Whether the view of a note extends the one that the reader keeps. It waits for nobody, and takes no memory.
    pub fn allows(&self, note: &Note) -> bool
        ensures { IsTrue result ↔ Extends note.now.shown self.now.newest }
    {
        extends(&note.shown, &self.kept)
    }

    /// Takes in the view of a note of its tablet, which extends the one that the reader keeps. The note is used up. It waits
    /// for nobody, and takes no memory.
    #[tactic(auto, using(tablet_view::proofs::Orders::extends_refl))]
    pub fn learn(&mut self, note: Note)
        requires tablet { note.tablet ≡ self.old.tablet }
        requires extends { Extends note.shown self.old.newest }
        ensures newest { self.new.newest ≡ note.shown }
        ensures kept { (self.new.tablet ≡ self.old.tablet) × (self.new.questions ≡ self.old.questions) }
    {
        let Note {
            seat,
            shown,
            from: _,
        } = note;
        self.seat = seat;
        self.kept = shown;
    }

    /// A view that extends each one that the reader has seen or learnt, and is the newest one then. It waits for nobody. It
    /// takes memory; without it the look counts as not made.
    pub fn view(&mut self) -> Result<Arc<View>, NoMemory>
        ensures newest { IfOk result (λ view. Extends (arc_value view) self.old.newest × (self.new.newest ≡ arc_value view)) }
        ensures failed { OnErr result (self.new.newest ≡ self.old.newest) }
        ensures kept { (self.new.tablet ≡ self.old.tablet) × (self.new.questions ≡ self.old.questions) }
    {
        let (looked, seen) = see(self.seat.take(), &self.kept);
        self.seat = looked;
        let seen = seen?;
        self.kept = Arc::try_clone(&seen)?;
        Ok(seen)
    }
}

impl Views for LiveReader {
    ghost use Rattle.atomic_table.specs.Seated.{TableId};
    ghost use Rattle.std.proofs.Common.{rules};

    ghost Home = { TableId };

    ghost home = { λ r. r.tablet };

    ghost looks = { λ _. true };

    ghost steady = { λ _. false };

    ghost newest = { λ r. Some r.newest };

    ghost questions = { λ r. r.questions };

    ghost blind_has_none = { λ r e. Prim.search rules };

    fn newer(&mut self, than: u64) -> Result<Option<Arc<View>>, NoMemory> {
        let seen = self.view()?;
        self.count_question();
        if seen.version() > than {
            Ok(Some(seen))
        } else {
            Ok(None)
        }
    }
}
