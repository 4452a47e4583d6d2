//! Sessions, which go on behind a place.
ghost use Rattle.std.specs.Prelude.{◌≡◌, ◌≤◌, ◌++◌, true, false, Some, ℕ, List, length, IfOk, OnOk, OnErr};
ghost use Rattle.std.specs.Arc.{arc_value};
ghost use Rattle.std.specs.Option.{ForSome};
ghost use Rattle.tablet_io.specs.Causes.{Rose};
ghost use Rattle.tablet_model.specs.Cell.{Cell};
ghost use Rattle.tablet_model.specs.Places.{Place, Start};
ghost use Rattle.cell_key.specs.Ranges.{span_of, IsAtMostRow};
ghost use Rattle.tablet_view.specs.Extending.{BeginsWith, Extends};
ghost use Rattle.tablet_view.specs.Snapshot.{Snapshot};
ghost use Rattle.scan_session.specs.Looks.{Leads, Holds, IsLater};
ghost use Rattle.scan_session.specs.Sessions.{AnswersInOrder, IsFetch, IsSameScan, TakesEnough, number_of, answers_of, left_of};
ghost use Rattle.scan_session.specs.Runs.{place_behind};
ghost use Rattle.scan_session.specs.Takes.{mode_of, place_after, take_together};
ghost use Rattle.scan_session.specs.Walks.{Walks, end_of, fetch_pieces};

use crate::fetching::newest;
use crate::piece::Fetched;
use crate::scanning::fetched_in;
use crate::views::Views;
use cell_key::{Families, NoMemory, Position, Range, RangeBuf};
use std::alloc::Global;
use std::marker::Model;
use std::sync::Arc;
use tablet_view::View;

/// A scan that is read piece by piece: it has pinned a view, and knows where it has come to. A plain session goes on behind
/// the last key that it gave, an isolated one behind the last row.
#[derive(Drop)]
pub struct Session {
    view: Arc<View>,
    range: RangeBuf,
    families: Families,
    isolated: bool,
    position: Position,
}

impl Model for Session {
    ghost use Rattle.std.specs.Arc.{arc_value};
    ghost use Rattle.cell_key.specs.Ranges.{place_of, IsAtMostRow};
    ghost use Rattle.scan_session.specs.Sessions.{SessionState};
    ghost use Rattle.scan_session.specs.Takes.{mode_of, place_after, take_together};

    ghost Value = { SessionState };

    ghost view = { λ s. record {
      view = arc_value s.view;
      range = s.range;
      families = s.families;
      mode = mode_of s.isolated;
      place = place_of s.position;
    } };

    ghost invariant = { λ s. IsAtMostRow s.position };
}

impl Session {
    /// A session at the start of a range, in some families, over a view. It takes memory.
    pub fn open(
        alloc: Global,
        range: &Range<'_>,
        families: &Families,
        isolated: bool,
        view: Arc<View>,
    ) -> Result<Session, NoMemory>
        ensures { IfOk result (λ session. session ≡ record {
          view = arc_value view;
          range = span_of range.now;
          families = families.now;
          mode = mode_of isolated;
          place = Start;
        }) }
    {
        let range = RangeBuf::of(alloc, range)?;
        let families = families.copy(alloc)?;
        Ok(Session {
            view,
            range,
            families,
            isolated,
            position: Position::Start,
        })
    }

    /// The view that it has pinned. It takes no memory.
    pub fn view(&self) -> &Arc<View>
        ensures { arc_value result.now ≡ self.now.view }
    {
        &self.view
    }

    /// The number of mutations that its view has. It takes no memory.
    pub fn n(&self) -> u64
        ensures { result ≡ number_of self.now }
    {
        self.view.mutations()
    }

    /// Goes on over a view that follows its own: of one configuration, and with a log that begins with that of its own. It
    /// takes no memory.
    pub fn renew(&mut self, view: Arc<View>)
        requires config { (arc_value view).config ≡ self.old.view.config }
        requires log { BeginsWith (arc_value view).log self.old.view.log }
        ensures { self.new ≡ record self.old { view = arc_value view } }
    {
        self.view = view;
    }

    /// Lets go of what it keeps between fetches for speed alone. Each fetch builds its stack anew, so there is nothing. It
    /// takes no memory.
    pub fn drop_stack(&mut self)
        ensures { self.new ≡ self.old }
    {}

    /// What a fetch over a view gives of what is left there, and the position behind it, if it gives an entry.
    fn fetched(
        &self,
        alloc: Global,
        view: &View,
        count: u32,
    ) -> Result<(Fetched, Option<Position>), NoMemory>
        ensures pieces { IfOk result (λ given. given.0.pieces
            ≡ fetch_pieces self.now.mode count (length view.now.log) (left_of (record self.now { view = view.now }))) }
        ensures place { IfOk result (λ given. (old : Place) → place_behind given.1 old
            ≡ place_after self.now.mode old (take_together self.now.mode count (left_of (record self.now { view = view.now })))) }
        ensures row { IfOk result (λ given. ForSome given.1 IsAtMostRow) }
        ensures ended { IfOk result (λ given. (left : List Cell) → left_of (record self.now { view = view.now })
            ≡ take_together self.now.mode count (left_of (record self.now { view = view.now })) ++ left
            → given.0.ended ≡ end_of (length view.now.log) left) }
    {
        let source = view.source(alloc, &self.families)?;
        let left = self.range.range().after(&self.position);
        fetched_in(
            alloc,
            view.config(),
            source,
            &left,
            self.isolated,
            count,
            view.mutations(),
        )
    }

    /// Asks once for a newer view, and gives the next entries: at least `count` of them, and those that may not be parted
    /// from the last, or all that are left. They are of one number of mutations. It takes memory; without it the session
    /// stays as it was.
    pub fn fetch<V: Views>(
        &mut self,
        alloc: Global,
        views: &mut V,
        count: u32,
    ) -> Result<Fetched, NoMemory>
        requires some { 1 ≤ count }
        requires leads { Leads (V.looks views.old) (V.newest views.old) self.old.view }
        ensures walk { IfOk result (λ fetch. (l : ℕ) × Walks (answers_of self.new) (number_of self.new) self.new.mode
            self.old.place (number_of self.old) fetch.pieces self.new.place l) }
        ensures enough { IfOk result (λ fetch. TakesEnough count self.new fetch.pieces) }
        ensures ended { IfOk result (λ fetch. fetch.ended ≡ end_of (number_of self.new) (left_of self.new)) }
        ensures one_number { IfOk result (λ fetch. IsFetch count self.old.place self.new fetch.pieces fetch.ended) }
        ensures sorted { OnOk result (AnswersInOrder self.new) }
        ensures same { OnOk result (IsSameScan self.new self.old) }
        ensures extends { OnOk result (Extends self.new.view self.old.view) }
        ensures own { V.looks views.old ≡ false → self.new.view ≡ self.old.view }
        ensures before { OnOk result (Holds (V.newest views.old) self.new.view) }
        ensures after { OnOk result (Holds (V.newest views.new) self.new.view) }
        ensures asked { OnOk result (Rose (V.questions views.old) (V.questions views.new)) }
        ensures failed { OnErr result (self.new ≡ self.old) }
        ensures home { (V.home views.new ≡ V.home views.old) × (V.looks views.new ≡ V.looks views.old) }
        ensures leads { Leads (V.looks views.new) (V.newest views.new) self.new.view }
        ensures later { IsLater (V.looks views.old) (V.newest views.old) (V.newest views.new) }
    {
        let view = newest(&self.view, views)?;
        let (fetched, position) = self.fetched(alloc, &view, count)?;
        self.go_on(view, position);
        Ok(fetched)
    }

    /// Goes on over a view and behind a position, where there is one.
    fn go_on(&mut self, found: Arc<View>, position: Option<Position>)
        requires { ForSome position IsAtMostRow }
        ensures { self.new ≡ record self.old { view = arc_value found; place = place_behind position self.old.place } }
    {
        self.view = found;
        if let Some(position) = position {
            self.position = position;
        }
    }
}
