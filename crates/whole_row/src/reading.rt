//! How the text of a row is read.
ghost use Rattle.std.specs.Prelude.{◌≡◌, ◌<◌, ◌≤◌, ◌^◌, IfOk, ℕ, List, Ok, None, length, option_map};
ghost use Rattle.tablet_model.specs.Cell.{Cell};
ghost use Rattle.cell_key.specs.Views.{cell_of, key_of};
ghost use Rattle.byte_fields.specs.Answers.{unread_of};
ghost use Rattle.whole_row.specs.RowAnswers.{Gives};
ghost use Rattle.whole_row.specs.RowLists.{IsRow};
ghost use Rattle.whole_row.specs.RowReading.{count_at, entries_at, entry_at, key_at, next_entry_at, part_at, row_reading, value_at};
ghost use Rattle.tablet_model.specs.RowText.{row_text};

use crate::error::RowError;
use byte_fields::Input;
use cell_key::{Entries, Entry, EntryRef, KeyRef, MAX_KEY_PART};
use iter_contract::is_out_of_order;
use std::alloc::Global;

/// The number of entries.
#[tactic(auto, unfolding(crate::specs::RowReading::count_at))]
fn take_count(input: Input<'_>) -> Result<(u64, Input<'_>), RowError>
    ensures { Gives (λ x. (x.0, unread_of x.1)) result (count_at (unread_of input.entry)) }
{
    let (count, rest) = input.take_u64()?;
    if count == 0 {
        return Err(RowError::at(input));
    }
    Ok((count, rest))
}

/// A part of a key.
#[tactic(auto, unfolding(crate::specs::RowReading::part_at))]
fn take_part(input: Input<'_>) -> Result<(&[u8], Input<'_>), RowError>
    ensures reading { Gives (λ x. (x.0.now, unread_of x.1)) result (part_at (unread_of input.entry)) }
    ensures bound { IfOk result (λ x. length x.0.now ≤ 1024) }
{
    let (length, rest) = input.take_u16()?;
    let length = length as usize;
    if length > MAX_KEY_PART {
        return Err(RowError::at(input));
    }
    Ok(rest.take(length)?)
}

#[tactic(auto, unfolding(crate::specs::RowReading::value_at))]
fn take_value(input: Input<'_>) -> Result<(&[u8], Input<'_>), RowError>
    ensures { Gives (λ x. (x.0.now, unread_of x.1)) result (value_at (unread_of input.entry)) }
{
    let (length, rest) = input.take_u64()?;
    Ok(rest.take(length as usize)?)
}

/// The key of an entry of the row.
#[tactic(auto, unfolding(crate::specs::RowReading::key_at))]
fn take_key<'a>(row: &'a [u8], input: Input<'a>) -> Result<(KeyRef<'a>, Input<'a>), RowError>
    requires some { 1 ≤ length row.now }
    requires short { length row.now ≤ 1024 }
    ensures { Gives (λ x. (key_of x.0, unread_of x.1)) result (key_at row.now (unread_of input.entry)) }
{
    let (family, input) = take_part(input)?;
    let (qualifier, input) = take_part(input)?;
    let (visibility, input) = take_part(input)?;
    let (time, input) = input.take_u64()?;
    let key = KeyRef {
        row,
        family,
        qualifier,
        visibility,
        time: time.cast_signed(),
        deleted: false,
    };
    Ok((key, input))
}

/// The entry of the row that the input begins with, and what follows it.
#[tactic(auto, unfolding(crate::specs::RowReading::entry_at))]
fn take_entry<'a>(row: &'a [u8], input: Input<'a>) -> Result<(EntryRef<'a>, Input<'a>), RowError>
    requires some { 1 ≤ length row.now }
    requires short { length row.now ≤ 1024 }
    ensures { Gives (λ x. (cell_of x.0, unread_of x.1)) result (entry_at row.now (unread_of input.entry)) }
{
    let (key, input) = take_key(row, input)?;
    let (value, input) = take_value(input)?;
    Ok((EntryRef { key, value }, input))
}

/// The next entry of the row, which does not sort before the one before it.
#[tactic(auto, unfolding(crate::specs::RowReading::next_entry_at))]
fn take_next<'a>(
    row: &'a [u8],
    before: Option<EntryRef<'_>>,
    input: Input<'a>,
) -> Result<(EntryRef<'a>, Input<'a>), RowError>
    requires some { 1 ≤ length row.now }
    requires short { length row.now ≤ 1024 }
    ensures { Gives (λ x. (cell_of x.0, unread_of x.1)) result
        (next_entry_at row.now (option_map cell_of before.entry) (unread_of input.entry)) }
{
    let (entry, rest) = take_entry(row, input)?;
    if is_out_of_order(before, entry) {
        return Err(RowError::at(input));
    }
    Ok((entry, rest))
}

/// As many entries of the row as `count` says, and what follows them.
fn take_entries<'a>(
    alloc: Global,
    row: &'a [u8],
    count: u64,
    input: Input<'a>,
) -> Result<(Entries, Input<'a>), RowError>
    requires some { 1 ≤ length row.now }
    requires short { length row.now ≤ 1024 }
    ensures { Gives (λ x. (x.0, unread_of x.1)) result (entries_at row.now count None (unread_of input.entry)) }
{
    let mut entries = Entries::new(alloc);
    let mut before = None;
    let mut rest = input;
    let mut left = count;
    while left > 0 {
        let (entry, behind) = take_next(row, before, rest)?;
        entries.push(Entry::of(alloc, entry)?)?;
        before = Some(entry);
        rest = behind;
        left -= 1;
    }
    Ok((entries, rest))
}

/// The entries of which the bytes are the text.
#[tactic(auto, unfolding(crate::specs::RowReading::row_reading))]
fn read_row(alloc: Global, row: &[u8], bytes: &[u8]) -> Result<Entries, RowError>
    requires some { 1 ≤ length row.now }
    requires short { length row.now ≤ 1024 }
    ensures { Gives (λ entries. entries) result (row_reading row.now bytes.now) }
{
    let (count, rest) = take_count(Input { at: 0, rest: bytes })?;
    let (entries, rest) = take_entries(alloc, row, count, rest)?;
    if !rest.rest.is_empty() {
        return Err(RowError::at(rest));
    }
    Ok(entries)
}

/// Reads the text of a whole row back: the entries of this row, in order, whose text the bytes are. `Fault` comes exactly where
/// the bytes are the text of no such entries, at the first field that is at fault. The format is this project's own. It takes
/// memory for the entries.
pub fn decode_row(alloc: Global, row: &[u8], bytes: &[u8]) -> Result<Entries, RowError>
    requires some { 1 ≤ length row.now }
    requires short { length row.now ≤ 1024 }
    ensures reading { Gives (λ entries. entries) result (row_reading row.now bytes.now) }
    ensures row { IfOk result (IsRow row.now) }
    ensures text { IfOk result (λ entries. row_text entries ≡ bytes.now) }
    ensures again { (list : List Cell) → IsRow row.now list → bytes.now ≡ row_text list →
        Gives (λ entries. entries) result (Ok list) }
{
    read_row(alloc, row, bytes)
}
