//! How an entry of an image is read.
ghost use Rattle.std.specs.Prelude.{◌≡◌, ◌≤◌, length, option_map, IfOk};
ghost use Rattle.tablet_model.specs.Limits.{max_part};
ghost use Rattle.cell_key.specs.Views.{cell_of, key_of};
ghost use Rattle.byte_fields.specs.Answers.{unread_of};
ghost use Rattle.sorted_file.specs.Answers.{Gives};
ghost use Rattle.sorted_file.specs.Reading.{entry_at, flag_at, key_at, part_at, row_at, same_at, shared_or, sharer, value_at};

use crate::fault::{Fault, ImageCause};
use crate::format::MAX_VALUE;
use crate::version::Version;
use byte_fields::Input;
use cell_key::{EntryRef, KeyRef, MAX_KEY_PART};

#[tactic(auto, unfolding(crate::specs::Reading::row_at))]
fn take_row(input: Input<'_>) -> Result<(&[u8], Input<'_>), Fault>
    ensures reading { Gives (λ x. (x.0.now, unread_of x.1)) result (row_at (unread_of input.entry)) }
    ensures some { IfOk result (λ x. 1 ≤ length x.0.now) }
    ensures bound { IfOk result (λ x. length x.0.now ≤ max_part) }
{
    let (length, rest) = input.take_u16()?;
    let length = length as usize;
    if length == 0 || length > MAX_KEY_PART {
        return Err(Fault::of(input, ImageCause::Bound));
    }
    Ok(rest.take(length)?)
}

/// A part of a key, but its row.
#[tactic(auto, unfolding(crate::specs::Reading::part_at))]
fn take_part(input: Input<'_>) -> Result<(&[u8], Input<'_>), Fault>
    ensures reading { Gives (λ x. (x.0.now, unread_of x.1)) result (part_at (unread_of input.entry)) }
    ensures bound { IfOk result (λ x. length x.0.now ≤ max_part) }
{
    let (length, rest) = input.take_u16()?;
    let length = length as usize;
    if length > MAX_KEY_PART {
        return Err(Fault::of(input, ImageCause::Bound));
    }
    Ok(rest.take(length)?)
}

/// Whether the entry is a delete marker.
#[tactic(auto, unfolding(crate::specs::Reading::flag_at))]
fn take_flag(input: Input<'_>) -> Result<(bool, Input<'_>), Fault>
    ensures { Gives (λ x. (x.0, unread_of x.1)) result (flag_at (unread_of input.entry)) }
{
    let (flag, rest) = input.take(1)?;
    match flag[0] {
        0 => Ok((false, rest)),
        1 => Ok((true, rest)),
        _ => Err(Fault::of(input, ImageCause::Bound)),
    }
}

#[tactic(auto, unfolding(crate::specs::Reading::value_at))]
fn take_value(deleted: bool, input: Input<'_>) -> Result<(&[u8], Input<'_>), Fault>
    ensures { Gives (λ x. (x.0.now, unread_of x.1)) result (value_at deleted (unread_of input.entry)) }
{
    let (length, rest) = input.take_u32()?;
    let longest = if deleted { 0 } else { MAX_VALUE };
    if length > longest {
        return Err(Fault::of(input, ImageCause::Bound));
    }
    Ok(rest.take(length as usize)?)
}

/// How many parts the entry shares with its neighbour, as it says in version 2.
#[tactic(auto, unfolding(crate::specs::Reading::same_at))]
fn take_same<'a>(
    version: Version,
    near: Option<EntryRef<'_>>,
    input: Input<'a>,
) -> Result<(u8, Input<'a>), Fault>
    ensures { Gives (λ x. (x.0, unread_of x.1)) result
        (same_at version (option_map cell_of near.entry) (unread_of input.entry)) }
{
    if version == Version::One {
        return Ok((0, input));
    }
    let (same, rest) = input.take(1)?;
    let most = if near.is_some() { 4 } else { 0 };
    if same[0] > most {
        return Err(Fault::of(input, ImageCause::Bound));
    }
    Ok((same[0], rest))
}

/// The neighbour's key, if its part of this number is shared.
fn sharer<'a>(part: u8, same: u8, near: Option<EntryRef<'a>>) -> Option<KeyRef<'a>>
    ensures { option_map key_of result ≡ sharer part same (option_map cell_of near.entry) }
{
    if part < same {
        near.map(|near| near.key)
    } else {
        None
    }
}

fn row_or_shared<'a>(
    near: Option<KeyRef<'a>>,
    input: Input<'a>,
) -> Result<(&'a [u8], Input<'a>), Fault>
    ensures reading { Gives (λ x. (x.0.now, unread_of x.1)) result
        (shared_or (λ k. k.row) row_at (option_map key_of near.entry) (unread_of input.entry)) }
    ensures some { IfOk result (λ x. 1 ≤ length x.0.now) }
    ensures bound { IfOk result (λ x. length x.0.now ≤ max_part) }
{
    match near {
        Some(near) => Ok((near.row, input)),
        None => take_row(input),
    }
}

fn family_or_shared<'a>(
    near: Option<KeyRef<'a>>,
    input: Input<'a>,
) -> Result<(&'a [u8], Input<'a>), Fault>
    ensures reading { Gives (λ x. (x.0.now, unread_of x.1)) result
        (shared_or (λ k. k.family) part_at (option_map key_of near.entry) (unread_of input.entry)) }
    ensures bound { IfOk result (λ x. length x.0.now ≤ max_part) }
{
    match near {
        Some(near) => Ok((near.family, input)),
        None => take_part(input),
    }
}

fn qualifier_or_shared<'a>(
    near: Option<KeyRef<'a>>,
    input: Input<'a>,
) -> Result<(&'a [u8], Input<'a>), Fault>
    ensures reading { Gives (λ x. (x.0.now, unread_of x.1)) result
        (shared_or (λ k. k.qualifier) part_at (option_map key_of near.entry) (unread_of input.entry)) }
    ensures bound { IfOk result (λ x. length x.0.now ≤ max_part) }
{
    match near {
        Some(near) => Ok((near.qualifier, input)),
        None => take_part(input),
    }
}

fn visibility_or_shared<'a>(
    near: Option<KeyRef<'a>>,
    input: Input<'a>,
) -> Result<(&'a [u8], Input<'a>), Fault>
    ensures reading { Gives (λ x. (x.0.now, unread_of x.1)) result
        (shared_or (λ k. k.visibility) part_at (option_map key_of near.entry) (unread_of input.entry)) }
    ensures bound { IfOk result (λ x. length x.0.now ≤ max_part) }
{
    match near {
        Some(near) => Ok((near.visibility, input)),
        None => take_part(input),
    }
}

/// A key of which so many parts are its neighbour's.
#[tactic(auto, unfolding(crate::specs::Reading::key_at))]
fn take_key<'a>(
    same: u8,
    near: Option<EntryRef<'a>>,
    input: Input<'a>,
) -> Result<(KeyRef<'a>, Input<'a>), Fault>
    ensures { Gives (λ x. (key_of x.0, unread_of x.1)) result
        (key_at same (option_map cell_of near.entry) (unread_of input.entry)) }
{
    let (row, input) = row_or_shared(sharer(0, same, near), input)?;
    let (family, input) = family_or_shared(sharer(1, same, near), input)?;
    let (qualifier, input) = qualifier_or_shared(sharer(2, same, near), input)?;
    let (visibility, input) = visibility_or_shared(sharer(3, same, near), input)?;
    let (time, input) = input.take_u64()?;
    let (deleted, input) = take_flag(input)?;
    let key = KeyRef {
        row,
        family,
        qualifier,
        visibility,
        time: time.cast_signed(),
        deleted,
    };
    Ok((key, input))
}

/// An entry of an image, as it is read.
#[derive(Clone, Copy)]
pub struct Taken<'a> {
    /// How many parts of its key are its neighbour's.
    pub same: u8,
    pub entry: EntryRef<'a>,
    /// What follows it.
    pub rest: Input<'a>,
}

/// The entry that the input begins with; its neighbour is the entry before it that it may share parts with.
#[tactic(auto, unfolding(crate::specs::Reading::entry_at))]
pub fn take_entry<'a>(
    version: Version,
    near: Option<EntryRef<'a>>,
    input: Input<'a>,
) -> Result<Taken<'a>, Fault>
    ensures { Gives (λ taken. ((taken.same, cell_of taken.entry), unread_of taken.rest)) result
        (entry_at version (option_map cell_of near.entry) (unread_of input.entry)) }
{
    let (same, input) = take_same(version, near, input)?;
    let (key, input) = take_key(same, near, input)?;
    let (value, rest) = take_value(key.deleted, input)?;
    let entry = EntryRef { key, value };
    Ok(Taken { same, entry, rest })
}
