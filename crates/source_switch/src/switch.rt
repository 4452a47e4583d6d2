//! The iterator that goes on over newer stacks.
ghost use Rattle.std.specs.Prelude.{◌≡◌, ◌<◌, ◌≤◌, true, false, [], length, is_ok, IfOk, OnOk, OnErr, if◌then◌else◌, option_map, MatchOption};
ghost use Rattle.tablet_io.specs.Causes.{Rose};
ghost use Rattle.tablet_model.specs.Cuts.{within};
ghost use Rattle.tablet_model.specs.Places.{after};
ghost use Rattle.tablet_model.specs.Sorted.{first, later};
ghost use Rattle.cell_key.specs.Ranges.{span_of, place_of, IsAtMostRow};
ghost use Rattle.cell_key.specs.Views.{cell_of};
ghost use Rattle.source_switch.specs.Parting.{mode_of, begins_at, may_part, place_behind_first};

use crate::parting::{position_behind, stands_behind};
use crate::provider::Provider;
use cell_key::{EntryRef, NoMemory, Position, Range, RangeBuf};
use iter_contract::SortedSource;
use std::alloc::Global;

/// What a step did.
#[derive(Clone, Copy, Debug, PartialEq, Eq)]
pub enum Advance {
    /// The stack stays.
    Same,
    /// The iterator goes on over a newer stack.
    Switched,
}

/// The entries of a stack in a range, which goes on over a newer stack wherever one is there and the next entry may be parted
/// from the one before it. So it gives the entries of the newest stack from each such place on, and at one stack it skips none
/// and gives none twice.
#[derive(Drop)]
pub struct SwitchIter<S> {
    version: u64,
    n: u64,
    stack: S,
    range: RangeBuf,
    /// Whether it goes on over a newer stack between rows alone.
    rows: bool,
    /// Whether the last seek or step came to its end.
    is_sought: bool,
}

impl<S: SortedSource> SwitchIter<S> {
    ghost use Rattle.source_switch.specs.SwitchParts.{HasAdvanced, switch_rest, switch_state, switch_valid};

    /// An iterator over a stack of this version and number of mutations, which may have been sought or not. With `rows` it
    /// goes on over newer stacks between rows alone. It takes memory.
    pub fn new(
        alloc: Global,
        version: u64,
        n: u64,
        stack: S,
        range: &Range<'_>,
        rows: bool,
    ) -> Result<SwitchIter<S>, NoMemory>
        requires { S.valid stack }
        ensures state { IfOk result (λ it. switch_state S.cells it
            ≡ record { version = version; n = n; cells = S.cells stack; range = span_of range.now; mode = mode_of rows }) }
        ensures rest { IfOk result (λ it. switch_rest S.rest it ≡ []) }
        ensures valid { IfOk result (λ it. switch_valid S.valid it) }
    {
        let range = RangeBuf::of(alloc, range)?;
        Ok(SwitchIter {
            version,
            n,
            stack,
            range,
            rows,
            is_sought: false,
        })
    }

    /// Begins behind a position. After `NoMemory` nothing is left until the next seek.
    pub fn seek(&mut self, position: &Position) -> Result<(), NoMemory>
        requires valid { switch_valid S.valid self.old }
        requires row { IsAtMostRow position.now }
        ensures valid { switch_valid S.valid self.new }
        ensures state { switch_state S.cells self.new ≡ switch_state S.cells self.old }
        ensures rest { let state = switch_state S.cells self.old in switch_rest S.rest self.new
            ≡ (if is_ok result then after (place_of position.now) (within state.range state.cells) else []) }
    {
        self.is_sought = false;
        seek_behind(&mut self.stack, &self.range, position)?;
        self.is_sought = true;
        Ok(())
    }

    /// The first entry that is left, and `None` where nothing is. It takes no memory.
    pub fn top(&self) -> Option<EntryRef<'_>>
        requires { switch_valid S.valid self.now }
        ensures { option_map cell_of result ≡ first (switch_rest S.rest self.now) }
    {
        if self.is_sought {
            self.stack.top()
        } else {
            None
        }
    }

    /// The number of mutations of its stack. It takes no memory.
    pub fn n(&self) -> u64
        ensures { result ≡ (switch_state S.cells self.now).n }
    {
        self.n
    }

    /// Drops the first entry that is left, of which there has to be one. Where the next one may be parted from it, or there is
    /// none, it asks once for a newer stack, and where there is one it goes on over that behind the entry. After `NoMemory` its
    /// stack is the one from before, and nothing is left until the next seek. It takes memory.
    pub fn advance<P: Provider<S>>(
        &mut self,
        alloc: Global,
        provider: &mut P,
    ) -> Result<Advance, NoMemory>
        requires valid { switch_valid S.valid self.old }
        requires top { 0 < length (switch_rest S.rest self.old) }
        requires provider { P.valid provider.old }
        requires seen { let state = switch_state S.cells self.old in (state.version ≤ P.version provider.old) × (state.n ≤ P.n provider.old) }
        ensures valid { switch_valid S.valid self.new }
        ensures provider { P.valid provider.new }
        ensures later { P.later provider.new provider.old }
        ensures seen { let state = switch_state S.cells self.new in (state.version ≤ P.version provider.new) × (state.n ≤ P.n provider.new) }
        ensures asked { may_part (switch_state S.cells self.old).mode (switch_rest S.rest self.old) ≡ true
            → OnOk result (Rose (P.questions provider.old) (P.questions provider.new)) }
        ensures unasked { may_part (switch_state S.cells self.old).mode (switch_rest S.rest self.old) ≡ false
            → P.questions provider.new ≡ P.questions provider.old }
        ensures advanced { IfOk result (λ a. HasAdvanced a (switch_state S.cells self.old) (switch_state S.cells self.new)
            (switch_rest S.rest self.old) (switch_rest S.rest self.new) (P.version provider.new) (P.n provider.new) (P.given provider.new)) }
        ensures failed { OnErr result (switch_state S.cells self.new ≡ switch_state S.cells self.old) }
        ensures empty { OnErr result (switch_rest S.rest self.new ≡ []) }
    {
        let Some(position) = self.step(alloc)? else {
            self.is_sought = true;
            return Ok(Advance::Same);
        };
        match provider.newer(alloc, self.version)? {
            None => {
                self.is_sought = true;
                Ok(Advance::Same)
            }
            Some((version, n, stack)) => {
                self.switch_to(version, n, stack, &position)?;
                Ok(Advance::Switched)
            }
        }
    }

    /// Drops the first entry that is left, and gives the position behind it, where the next one may be parted from it.
    #[tactic(auto, using(crate::proofs::Parted::parts_behind))]
    fn step(&mut self, alloc: Global) -> Result<Option<Position>, NoMemory>
        requires valid { S.valid self.old.stack }
        requires top { 0 < length (switch_rest S.rest self.old) }
        ensures valid { S.valid self.new.stack }
        ensures state { switch_state S.cells self.new ≡ switch_state S.cells self.old }
        ensures unsought { self.new.is_sought ≡ false }
        ensures left { OnOk result (S.rest self.new.stack ≡ later (switch_rest S.rest self.old)) }
        ensures parted { IfOk result (λ parted. let before = switch_rest S.rest self.old in
            MatchOption parted (may_part (mode_of self.old.rows) before ≡ false) (λ position.
            (may_part (mode_of self.old.rows) before ≡ true) × (place_of position ≡ place_behind_first (mode_of self.old.rows) before) × IsAtMostRow position)) }
    {
        self.is_sought = false;
        let position = self.position_behind_top(alloc)?;
        self.stack.next()?;
        if self.is_next_together(&position) {
            return Ok(None);
        }
        Ok(Some(position))
    }

    /// The position behind the first entry that its stack has left.
    fn position_behind_top(&self, alloc: Global) -> Result<Position, NoMemory>
        requires valid { S.valid self.now.stack }
        requires top { 0 < length (S.rest self.now.stack) }
        ensures place { IfOk result (λ position. place_of position ≡ place_behind_first (mode_of self.now.rows) (S.rest self.now.stack)) }
        ensures row { IfOk result IsAtMostRow }
    {
        match self.stack.top() {
            Some(entry) => position_behind(alloc, entry, self.rows),
            None => Ok(Position::Start),
        }
    }

    /// Whether the next entry may not be parted from the one that a position is behind.
    fn is_next_together(&self, position: &Position) -> bool
        requires { S.valid self.now.stack }
        ensures { result ≡ begins_at (place_of position.now) (S.rest self.now.stack) }
    {
        match self.stack.top() {
            Some(next) => stands_behind(position, next.key),
            None => false,
        }
    }

    /// Goes on over another stack behind a position.
    fn switch_to(
        &mut self,
        version: u64,
        n: u64,
        stack: S,
        position: &Position,
    ) -> Result<(), NoMemory>
        requires valid { S.valid stack }
        requires old { S.valid self.old.stack }
        requires unsought { self.old.is_sought ≡ false }
        requires row { IsAtMostRow position.now }
        ensures valid { S.valid self.new.stack }
        ensures state { switch_state S.cells self.new ≡ (if is_ok result
            then record (switch_state S.cells self.old) { version = version; n = n; cells = S.cells stack } else switch_state S.cells self.old) }
        ensures rest { switch_rest S.rest self.new
            ≡ (if is_ok result then after (place_of position.now) (within self.old.range (S.cells stack)) else []) }
    {
        let mut stack = stack;
        seek_behind(&mut stack, &self.range, position)?;
        self.version = version;
        self.n = n;
        self.stack = stack;
        self.is_sought = true;
        Ok(())
    }
}

/// Begins behind a position of a range.
fn seek_behind<S: SortedSource>(
    stack: &mut S,
    range: &RangeBuf,
    position: &Position,
) -> Result<(), NoMemory>
    requires valid { S.valid stack.old }
    requires row { IsAtMostRow position.now }
    ensures valid { S.valid stack.new }
    ensures cells { S.cells stack.new ≡ S.cells stack.old }
    ensures rest { S.rest stack.new
        ≡ (if is_ok result then after (place_of position.now) (within range.now (S.cells stack.old)) else []) }
{
    let range = range.range().after(position);
    stack.seek(&range)
}
