//! Sessions.
ghost use Rattle.std.specs.Prelude.{◌≡◌, true, false, Some};
ghost use Rattle.std.specs.Arc.{arc_value};
ghost use Rattle.tablet_view.specs.Extending.{Extends};

use crate::views::{grown, opened, session};
use cell_key::{Entries, Families, NoMemory};
use scan_session::{Fetched, ScanCall, Session, Still, Views, drive};
use std::alloc::Global;
use std::sync::Arc;
use std::test::Fail;
use tablet_view::View;

/// Always shows one view.
#[derive(Drop)]
struct Shown {
    view: Arc<View>,
    questions: u64,
}

impl Views for Shown {
    ghost use Rattle.tablet_view.proofs.Orders.{extends_refl};

    ghost Home = { Unit {0} };

    ghost home = { λ _. tt };

    ghost looks = { λ _. true };

    ghost steady = { λ _. false };

    ghost newest = { λ s. Some (arc_value s.view) };

    ghost questions = { λ s. s.questions };

    ghost blind_has_none = { λ s e. absurd (cc) };

    fn newer(&mut self, than: u64) -> Result<Option<Arc<View>>, NoMemory> {
        let view = Arc::try_clone(&self.view)?;
        self.questions = self.questions.saturating_add(1);
        Ok((than < view.version()).then_some(view))
    }
}

/// The view of a first mutation, of the row `1`.
fn first(alloc: Global) -> Result<Arc<View>, Fail> {
    let view = opened(alloc)?;
    let view = grown(
        alloc,
        &view,
        b'1',
        &[(b'a', Some(b'x')), (b'b', Some(b'y'))],
    )?;
    Ok(Arc::new(alloc, view)?)
}

/// The view of another mutation, of the row `2`.
fn second(alloc: Global, first: &View) -> Result<Arc<View>, Fail> {
    let view = grown(alloc, first, b'2', &[(b'a', Some(b'z'))])?;
    Ok(Arc::new(alloc, view)?)
}

fn both(alloc: Global) -> Result<Arc<View>, Fail> {
    let first = first(alloc)?;
    second(alloc, &first)
}

/// Whether entries have these values, each of one byte.
fn have_values(entries: &Entries, values: &[u8]) -> bool {
    if entries.len() != values.len() {
        return false;
    }
    for (entry, value) in entries.as_slice().iter().zip(values) {
        if entry.entry().value != [*value].as_slice() {
            return false;
        }
    }
    true
}

/// What is given: some values, and whether it is the end.
type Given = (&'static [u8], bool);

/// Whether a fetch gives one piece of these values at a number of mutations, or none where there are none, and says so that
/// it ends.
fn is_given_at(fetched: &Fetched, n: u64, given: &Given) -> bool {
    let (values, ended) = *given;
    if fetched.ended != ended.then_some(n) || (values.is_empty() && !fetched.pieces.is_empty()) {
        return false;
    }
    for piece in fetched.pieces.as_slice() {
        if piece.n != n || !have_values(&piece.entries, values) {
            return false;
        }
    }
    values.is_empty() || fetched.pieces.len() == 1
}

fn fetch_gives(
    alloc: Global,
    session: &mut Session,
    count: u32,
    given: &Given,
) -> Result<bool, NoMemory> {
    let mut views = Still::new();
    let fetched = session.fetch(alloc, &mut views, count.max(1))?;
    Ok(is_given_at(&fetched, 2, given))
}

/// Whether fetches, one after another, give this.
fn fetches_give(
    alloc: Global,
    session: &mut Session,
    count: u32,
    given: &[Given],
) -> Result<bool, NoMemory> {
    for each in given {
        if !fetch_gives(alloc, session, count, each)? {
            return Ok(false);
        }
    }
    Ok(true)
}

fn session_gives(
    alloc: Global,
    view: &Arc<View>,
    isolated: bool,
    count: u32,
    given: &[Given],
) -> Result<bool, NoMemory> {
    let mut session = session(alloc, view, &Families::all(), isolated)?;
    fetches_give(alloc, &mut session, count, given)
}

const ONE_BY_ONE: &[Given] = &[(b"x", false), (b"y", false), (b"z", true), (b"", true)];

const TWO_AND_ONE: &[Given] = &[(b"xy", false), (b"z", true), (b"", true), (b"", true)];

const AT_ONCE: &[Given] = &[(b"xyz", true), (b"", true), (b"", true), (b"", true)];

#[test]
fn fetches_give_the_answer_in_pieces(rt: HostRuntime) -> Result<(), Fail> {
    let view = both(rt.alloc())?;
    let cases = [
        (false, 1, ONE_BY_ONE),
        (false, 2, TWO_AND_ONE),
        (false, 9, AT_ONCE),
        (true, 1, TWO_AND_ONE),
        (true, 3, AT_ONCE),
    ];
    for (isolated, count, given) in cases {
        let gives = session_gives(rt.alloc(), &view, isolated, count, given)?;
        assert!(rt; gives, "{count}, isolated: {isolated}");
    }
    Ok(())
}

/// Moves a session to a view that follows its own, and says whether it does.
fn renew(session: &mut Session, view: &Arc<View>) -> Result<bool, NoMemory> {
    if !view.begins_with(session.view()) {
        return Ok(false);
    }
    session.renew(Arc::try_clone(view)?);
    session.drop_stack();
    Ok(session.n() == 2 && session.view().version() == 2)
}

/// Whether an isolated session over a view goes on over a newer one.
fn goes_on(alloc: Global, first: &Arc<View>, second: &Arc<View>) -> Result<bool, NoMemory> {
    let mut session = session(alloc, first, &Families::all(), true)?;
    Ok(
        session.n() == 1
            && session.view().version() == 1
            && renew(&mut session, second)?
            && fetches_give(alloc, &mut session, 2, TWO_AND_ONE)?,
    )
}

#[test]
fn sessions_go_on_over_newer_views(rt: HostRuntime) -> Result<(), Fail> {
    let first = first(rt.alloc())?;
    let second = second(rt.alloc(), &first)?;
    assert!(rt; goes_on(rt.alloc(), &first, &second)?);
    Ok(())
}

/// Whether a view follows another, and is newer.
fn follows(view: &View, other: &View) -> bool
    ensures { result ≡ true → Extends view.now other.now }
{
    view.begins_with(other) && other.version() < view.version()
}

/// Whether a fetch of three entries where a newer view is shown gives all of it.
fn fetch_gives_all(
    alloc: Global,
    session: &mut Session,
    shown: &mut Shown,
) -> Result<bool, NoMemory> {
    if !follows(&shown.view, session.view()) {
        return Ok(false);
    }
    let fetched = session.fetch(alloc, shown, 3)?;
    Ok(is_given_at(&fetched, 2, &(b"xyz", true)))
}

/// Whether a fetch of a session over a view looks once at a newer one.
fn looks_once(alloc: Global, first: &Arc<View>, second: Arc<View>) -> Result<bool, NoMemory> {
    let mut session = session(alloc, first, &Families::all(), false)?;
    let mut shown = Shown {
        view: second,
        questions: 0,
    };
    Ok(fetch_gives_all(alloc, &mut session, &mut shown)? && shown.questions == 1)
}

#[test]
fn a_fetch_looks_once_for_a_newer_view(rt: HostRuntime) -> Result<(), Fail> {
    let first = first(rt.alloc())?;
    let second = second(rt.alloc(), &first)?;
    assert!(rt; looks_once(rt.alloc(), &first, second)?);
    Ok(())
}

/// What a scanner's calls give: a fetch of one entry over one mutation, then nothing of a renewal and a teardown, and then the
/// rest over two mutations.
const BESIDE_A_LOADER: &[(u64, Given)] = &[
    (1, (b"x", false)),
    (2, (b"", false)),
    (2, (b"", false)),
    (2, (b"yz", true)),
];

fn are_given(all: &[Fetched], given: &[(u64, Given)]) -> bool {
    if all.len() != given.len() {
        return false;
    }
    for (fetched, each) in all.iter().zip(given) {
        if !is_given_at(fetched, each.0, &each.1) {
            return false;
        }
    }
    true
}

/// Whether a scanner over a view that goes on over a second one is given each entry once.
fn scanner_is_given(alloc: Global, first: &Arc<View>, second: Arc<View>) -> Result<bool, NoMemory> {
    let mut session = session(alloc, first, &Families::all(), false)?;
    let mut views = Still::new();
    let calls = [
        ScanCall::Fetch(1),
        ScanCall::RenewTo(second),
        ScanCall::DropStack,
        ScanCall::Fetch(9),
    ];
    let given = drive(alloc, &mut session, &mut views, &calls)?;
    Ok(are_given(given.as_slice(), BESIDE_A_LOADER))
}

#[test]
fn a_scanner_beside_a_loader_is_given_each_entry_once(rt: HostRuntime) -> Result<(), Fail> {
    let first = first(rt.alloc())?;
    let second = second(rt.alloc(), &first)?;
    assert!(rt; scanner_is_given(rt.alloc(), &first, second)?);
    Ok(())
}
