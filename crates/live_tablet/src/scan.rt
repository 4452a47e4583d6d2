//! Scans of a whole table, piece by piece, over views that go on.
ghost use Rattle.std.specs.Prelude.{◌≡◌, ℕ, ◌≤◌, ◌∷◌, [], ◌++◌, true, false, Some, IfOk, IfSome};
ghost use Rattle.std.specs.Arc.{arc_value};
ghost use Rattle.tablet_io.specs.Causes.{Rose};
ghost use Rattle.scan_session.specs.Looks.{IsLater, Leads};
ghost use Rattle.scan_session.specs.ScanCalls.{all_pieces};
ghost use Rattle.scan_session.specs.Takes.{mode_of};
ghost use Rattle.live_tablet.specs.Scans.{HasScanned, IsSameScanOf, IsScanOver, new_scan};

use crate::walk::Walk;
use cell_key::{Bound, Families, Items, NoMemory, Range};
use scan_session::{Fetched, Session, Views};
use std::alloc::Global;
use std::marker::Model;
use std::sync::Arc;
use tablet_view::View;

/// A scan of all keys in all families, a batch of entries at a time. Its type keeps that what it gave is one walk over the log of
/// its session's view, from the start on, each piece within a batch, and that its end is so; unless memory was wanting.
#[derive(Drop)]
pub struct Scan {
    session: Session,
    isolated: bool,
    batch: u32,
    least: u64,
    fetches: Items<Fetched>,
    ended: Option<u64>,
    failed: bool,
}

impl Model for Scan {
    ghost use Rattle.std.specs.Prelude.{◌≡◌, ◌≤◌, false};
    ghost use Rattle.scan_session.specs.ScanCalls.{all_pieces};
    ghost use Rattle.scan_session.specs.Takes.{mode_of};
    ghost use Rattle.live_tablet.specs.Scans.{HasScanned, ScanState};

    ghost Value = { ScanState };

    ghost view = { λ s. record {
      session = s.session;
      batch = s.batch;
      least = s.least;
      pieces = all_pieces s.fetches;
      ended = s.ended;
      failed = s.failed;
    } };

    ghost invariant = { λ s. (s.session.mode ≡ mode_of s.isolated) × (1 ≤ s.batch) × (s.failed ≡ false → HasScanned s.least s.batch s.session (all_pieces s.fetches) s.ended) };
}

/// Adds what a fetch gave, and says whether that found no memory, or something before it.
fn is_lost(failed: bool, fetches: &mut Items<Fetched>, fetched: Fetched) -> bool
    ensures { result ≡ false → (failed ≡ false) × (fetches.new ≡ fetches.old ++ fetched ∷ []) }
{
    let added = fetches.push(fetched);
    failed || added.is_err()
}

impl Scan {
    /// A scan over a view that has given nothing, with at least one entry a batch. It takes memory.
    pub fn open(
        alloc: Global,
        view: Arc<View>,
        isolated: bool,
        batch: u32,
    ) -> Result<Scan, NoMemory>
        requires { 1 ≤ batch }
        ensures { IfOk result (λ scan. scan ≡ new_scan (arc_value view) (mode_of isolated) batch) }
    {
        let keys = Range {
            start: Bound::Open,
            end: Bound::Open,
        };
        let least = view.mutations();
        let session = Session::open(alloc, &keys, &Families::all(), isolated, view)?;
        Ok(Scan {
            session,
            isolated,
            batch,
            least,
            fetches: Items::new(alloc),
            ended: None,
            failed: false,
        })
    }

    /// A scan of the same mode and batches over a view that has given nothing. It takes memory.
    pub fn anew(&self, alloc: Global, view: Arc<View>) -> Result<Scan, NoMemory>
        ensures { IfOk result (λ scan. scan ≡ new_scan (arc_value view) self.now.session.mode self.now.batch) }
    {
        Scan::open(alloc, view, self.isolated, self.batch)
    }

    /// Fetches a batch, on the newest view that `views` answers. It takes memory.
    pub fn fetch<V: Views>(&mut self, alloc: Global, views: &mut V)
        requires { Leads (V.looks views.old) (V.newest views.old) self.old.session.view }
        ensures same { IsSameScanOf self.new self.old }
        ensures own { V.looks views.old ≡ false → self.new.session.view ≡ self.old.session.view }
        ensures leads { Leads (V.looks views.new) (V.newest views.new) self.new.session.view }
        ensures asked { self.new.failed ≡ false → Rose (V.questions views.old) (V.questions views.new) }
        ensures home { (V.home views.new ≡ V.home views.old) × (V.looks views.new ≡ V.looks views.old) }
        ensures later { IsLater (V.looks views.old) (V.newest views.old) (V.newest views.new) }
    {
        match self.session.fetch(alloc, views, self.batch) {
            Ok(fetched) => {
                self.ended = fetched.ended;
                self.failed = is_lost(self.failed, &mut self.fetches, fetched);
            }
            Err(NoMemory) => self.failed = true,
        }
    }

    /// Whether there is nothing more to fetch: it has ended, or memory was wanting. It takes no memory.
    pub fn is_over(&self) -> bool
        ensures { result ≡ false → self.now.failed ≡ false }
    {
        self.failed || self.ended.is_some()
    }

    /// The number of mutations at which it ended, if it did and memory was never wanting. It takes no memory.
    pub fn ended(&self) -> Option<u64>
        ensures ended { IfSome result (λ n. (self.now.ended ≡ Some n) × (self.now.failed ≡ false)) }
        ensures scanned { IfSome result (λ n. HasScanned self.now.least self.now.batch self.now.session self.now.pieces (Some n)) }
    {
        if self.failed { None } else { self.ended }
    }

    /// Whether it is a whole scan over the mutations of a view, from so many of them on. It takes no memory.
    #[tactic(auto, using(crate::proofs::Scans::scan_is_over))]
    pub fn is_scan_over(&self, whole: &View, least: u64) -> bool
        ensures { result ≡ true → (n : ℕ) × (self.now.ended ≡ Some n)
            × IsScanOver whole.now.config whole.now.log self.now.session.mode self.now.batch least self.now.pieces n }
    {
        self.ended().is_some() && least <= self.least && whole.begins_with(self.session.view())
    }

    /// Whether it is in this mode and in batches of so many entries. It takes no memory.
    pub(crate) fn is_made_so(&self, isolated: bool, batch: u32) -> bool
        ensures { result ≡ true → (self.now.session.mode ≡ mode_of isolated) × (self.now.batch ≡ batch) }
    {
        self.isolated == isolated && self.batch == batch
    }

    /// What it gave and where it ended, if it did. It takes no memory.
    pub(crate) fn into_walk(self) -> Option<Walk>
        ensures { IfSome result (λ walk. (all_pieces walk.fetches ≡ self.pieces) × (self.ended ≡ Some walk.end)) }
    {
        let end = self.ended?;
        Some(Walk {
            fetches: self.fetches,
            end,
        })
    }

    /// What each fetch gave. It takes no memory.
    pub fn fetches(&self) -> &[Fetched]
        ensures { all_pieces result.now ≡ self.now.pieces }
    {
        self.fetches.as_slice()
    }
}
