//! Scans over many calls of a session: what a scanner is that reads beside a loader.
ghost use Rattle.std.specs.Prelude.{◌≡◌, ◌⊎◌, List, [], All, length, None, IfOk, OnOk, OnErr};
ghost use Rattle.std.specs.Arc.{arc_value};
ghost use Rattle.tablet_view.specs.Extending.{BeginsWith};
ghost use Rattle.scan_session.specs.Looks.{IsLater, Leads};
ghost use Rattle.scan_session.specs.ScanCalls.{EndsAs, IsLed, all_pieces};
ghost use Rattle.scan_session.specs.Sessions.{HasWalked, IsEndOf};
ghost use Rattle.scan_session.specs.declared.piece.Piece.{Piece};

use crate::fetching::newest;
use crate::piece::{Fetched, Pieces};
use crate::session::Session;
use crate::views::Views;
use cell_key::{Items, NoMemory};
use std::alloc::Global;
use std::sync::Arc;
use tablet_view::View;

/// A call to a session.
#[derive(Drop)]
pub enum ScanCall {
    /// It asks once for a newer view, and fetches as many entries; 0 counts as 1.
    Fetch(u32),
    /// It looks once for a newer view, and goes on over it.
    Renew,
    /// It goes on over this view, where that has its configuration and a log that begins with its own; else it stays.
    RenewTo(Arc<View>),
    /// It lets go of its stack.
    DropStack,
}

/// Makes calls to a session, one after another, and answers what each gave. The pieces of all of them are one walk, which goes
/// on behind the place and the number at which the session stood. It takes memory; without it what was given is lost.
pub fn drive<V: Views>(
    alloc: Global,
    session: &mut Session,
    views: &mut V,
    calls: &[ScanCall],
) -> Result<Items<Fetched>, NoMemory>
    requires leads { Leads (V.looks views.old) (V.newest views.old) session.old.view }
    requires led { All (IsLed (V.looks views.old) (V.newest views.old)) calls.now }
    ensures walked { IfOk result (λ given. HasWalked session.new session.old (all_pieces given)) }
    ensures each { IfOk result (λ given. length given ≡ length calls.now) }
    ensures ended { IfOk result (λ given. EndsAs session.new given) }
    ensures failed { OnErr result ((lost : List Piece) × HasWalked session.new session.old lost) }
    ensures leads { Leads (V.looks views.new) (V.newest views.new) session.new.view }
    ensures home { (V.home views.new ≡ V.home views.old) × (V.looks views.new ≡ V.looks views.old) }
    ensures later { IsLater (V.looks views.old) (V.newest views.old) (V.newest views.new) }
{
    let mut given = Items::new(alloc);
    for call in calls {
        let fetched = take_turn(alloc, session, views, call)?;
        given.push(fetched)?;
    }
    Ok(given)
}

/// Makes one call to a session.
fn take_turn<V: Views>(
    alloc: Global,
    session: &mut Session,
    views: &mut V,
    call: &ScanCall,
) -> Result<Fetched, NoMemory>
    requires leads { Leads (V.looks views.old) (V.newest views.old) session.old.view }
    requires led { IsLed (V.looks views.old) (V.newest views.old) call.now }
    ensures walked { IfOk result (λ fetched. HasWalked session.new session.old fetched.pieces) }
    ensures ended { IfOk result (λ fetched. IsEndOf session.new fetched.ended) }
    ensures failed { OnErr result (session.new ≡ session.old) }
    ensures leads { Leads (V.looks views.new) (V.newest views.new) session.new.view }
    ensures home { (V.home views.new ≡ V.home views.old) × (V.looks views.new ≡ V.looks views.old) }
    ensures later { IsLater (V.looks views.old) (V.newest views.old) (V.newest views.new) }
{
    match call {
        ScanCall::Fetch(count) => session.fetch(alloc, views, (*count).max(1)),
        ScanCall::Renew => {
            look(session, views)?;
            Ok(nothing(alloc))
        }
        ScanCall::RenewTo(view) => {
            follow(session, view)?;
            Ok(nothing(alloc))
        }
        ScanCall::DropStack => {
            session.drop_stack();
            Ok(nothing(alloc))
        }
    }
}

/// Goes on over the newest view.
fn look<V: Views>(session: &mut Session, views: &mut V) -> Result<(), NoMemory>
    requires { Leads (V.looks views.old) (V.newest views.old) session.old.view }
    ensures walked { OnOk result (HasWalked session.new session.old []) }
    ensures failed { OnErr result (session.new ≡ session.old) }
    ensures leads { Leads (V.looks views.new) (V.newest views.new) session.new.view }
    ensures home { (V.home views.new ≡ V.home views.old) × (V.looks views.new ≡ V.looks views.old) }
    ensures later { IsLater (V.looks views.old) (V.newest views.old) (V.newest views.new) }
{
    let view = newest(session.view(), views)?;
    renew_to(session, view);
    Ok(())
}

/// Goes on over a view, where that follows the session's own.
fn follow(session: &mut Session, view: &Arc<View>) -> Result<(), NoMemory>
    ensures walked { OnOk result (HasWalked session.new session.old []) }
    ensures failed { OnErr result (session.new ≡ session.old) }
    ensures view { (session.new.view ≡ session.old.view) ⊎ (session.new.view ≡ arc_value view.now) }
{
    if !view.begins_with(session.view()) {
        return Ok(());
    }
    renew_to(session, Arc::try_clone(view)?);
    Ok(())
}

/// Goes on over a view that follows the session's own.
fn renew_to(session: &mut Session, view: Arc<View>)
    requires config { (arc_value view).config ≡ session.old.view.config }
    requires log { BeginsWith (arc_value view).log session.old.view.log }
    ensures walked { HasWalked session.new session.old [] }
    ensures view { session.new.view ≡ arc_value view }
{
    session.renew(view);
}

/// What a call gives that gives nothing. It takes no memory.
fn nothing(alloc: Global) -> Fetched
    ensures pieces { result.pieces ≡ [] }
    ensures ended { result.ended ≡ None }
{
    Fetched {
        pieces: Pieces::new(alloc),
        ended: None,
    }
}
