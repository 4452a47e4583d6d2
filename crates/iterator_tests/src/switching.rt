//! Switches to newer stacks.
ghost use Rattle.std.specs.Prelude.{◌≤◌};
ghost use Rattle.source_switch.specs.SwitchParts.{switch_state};
ghost use Rattle.iter_contract.specs.VecRest.{vec_cells};

use crate::fixtures::{Row, range, source, write};
use cell_key::{Bound, ByteText, KeyError, NoMemory, Position};
use iter_contract::{SortedSource, VecSource};
use source_switch::{Advance, Provider, SwitchIter};
use std::alloc::Global;

/// Shows a newer stack, of version 2 and over three mutations, from one of its questions on.
#[derive(Drop)]
struct Later {
    newer: VecSource,
    /// The number of that question.
    from: u64,
    questions: u64,
    version: u64,
    n: u64,
}

impl Provider<VecSource> for Later {
    ghost use Rattle.std.specs.Prelude.{⊤};
    ghost use Rattle.iter_contract.specs.VecRest.{vec_cells};

    ghost version = { λ p. p.version };

    ghost n = { λ p. p.n };

    ghost given = { λ p. vec_cells p.newer };

    ghost questions = { λ p. p.questions };

    ghost later = { λ _ _. ⊤ };

    ghost valid = { λ _. ⊤ };

    ghost later_refl = { λ _. tt };

    ghost later_trans = { λ _ _ _ _ _. tt };

    fn newer(
        &mut self,
        alloc: Global,
        than: u64,
    ) -> Result<Option<(u64, u64, VecSource)>, NoMemory> {
        self.questions = self.questions.saturating_add(1);
        if self.questions == self.from {
            self.version = self.version.max(2);
            self.n = self.n.max(3);
        }
        if self.version <= than {
            return Ok(None);
        }
        let newer = self.newer.deep_copy(alloc)?;
        Ok(Some((self.version, self.n, newer)))
    }
}

/// Writes what is left, with a bar where it goes on over a newer stack.
fn walk(
    alloc: Global,
    it: &mut SwitchIter<VecSource>,
    provider: &mut Later,
    walked: &mut ByteText,
) -> Result<(), NoMemory>
    requires { let state = switch_state vec_cells it.old in (state.version ≤ provider.old.version) × (state.n ≤ provider.old.n) }
{
    for _ in 0..9 {
        let Some(entry) = it.top() else {
            break;
        };
        write(walked, entry)?;
        if it.advance(alloc, provider)? == Advance::Switched {
            walked.push(b'|')?;
        }
    }
    Ok(())
}

/// From which question on the newer stack is shown, whether whole rows are read, what a walk gives, and over how many mutations
/// the last stack is.
type Case = (u64, bool, &'static [u8], u64);

/// Whether a walk over an older stack, of version 1 and over two mutations, gives this.
fn gives(alloc: Global, older: VecSource, newer: VecSource, case: &Case) -> Result<bool, NoMemory> {
    let (from, rows, want, n) = *case;
    let mut it = SwitchIter::new(alloc, 1, 2, older, &range(Bound::Open, Bound::Open), rows)?;
    it.seek(&Position::Start)?;
    let mut provider = Later {
        newer,
        from,
        questions: 0,
        version: 1,
        n: 2,
    };
    let mut walked = ByteText::new(alloc);
    walk(alloc, &mut it, &mut provider, &mut walked)?;
    Ok(walked.bytes() == want && it.n() == n)
}

const OLDER: &[Row<'static>] = &[
    (b"1", b"a", b"x", b"", 1, false, b"1"),
    (b"3", b"a", b"x", b"", 2, false, b"3"),
];

const NEWER: &[Row<'static>] = &[
    (b"1", b"a", b"x", b"", 1, false, b"1"),
    (b"2", b"a", b"x", b"", 3, false, b"2"),
    (b"3", b"a", b"x", b"", 2, false, b"3"),
];

const BY_ENTRIES: &[Case] = &[
    (1, false, b"1ax1=1 |2ax3=2 3ax2=3 ", 3),
    (1, true, b"1ax1=1 |2ax3=2 3ax2=3 ", 3),
    (2, false, b"1ax1=1 3ax2=3 |", 3),
    (3, false, b"1ax1=1 3ax2=3 ", 2),
];

/// The first row has two columns.
const OLDER_ROWS: &[Row<'static>] = &[
    (b"1", b"a", b"x", b"", 1, false, b"1"),
    (b"1", b"b", b"x", b"", 1, false, b"1"),
    (b"3", b"a", b"x", b"", 2, false, b"3"),
];

/// It has three.
const NEWER_ROWS: &[Row<'static>] = &[
    (b"1", b"a", b"x", b"", 1, false, b"1"),
    (b"1", b"b", b"x", b"", 1, false, b"1"),
    (b"1", b"c", b"x", b"", 3, false, b"2"),
    (b"2", b"a", b"x", b"", 3, false, b"2"),
    (b"3", b"a", b"x", b"", 2, false, b"3"),
];

const BY_ROWS: &[Case] = &[
    (1, false, b"1ax1=1 |1bx1=1 1cx3=2 2ax3=2 3ax2=3 ", 3),
    (1, true, b"1ax1=1 1bx1=1 |2ax3=2 3ax2=3 ", 3),
    (2, false, b"1ax1=1 1bx1=1 |1cx3=2 2ax3=2 3ax2=3 ", 3),
    (2, true, b"1ax1=1 1bx1=1 3ax2=3 |", 3),
];

/// Whether walks over stacks of these entries give this.
fn all_give(
    alloc: Global,
    older: &[Row<'_>],
    newer: &[Row<'_>],
    cases: &[Case],
) -> Result<bool, KeyError> {
    for case in cases {
        let older = source(alloc, older)?;
        let newer = source(alloc, newer)?;
        if !gives(alloc, older, newer, case)? {
            return Ok(false);
        }
    }
    Ok(true)
}

#[test]
fn a_walk_goes_on_over_the_newest_stack(rt: HostRuntime) -> Result<(), KeyError> {
    assert!(rt; all_give(rt.alloc(), OLDER, NEWER, BY_ENTRIES)?);
    Ok(())
}

#[test]
fn a_row_is_of_one_stack(rt: HostRuntime) -> Result<(), KeyError> {
    assert!(rt; all_give(rt.alloc(), OLDER_ROWS, NEWER_ROWS, BY_ROWS)?);
    Ok(())
}
