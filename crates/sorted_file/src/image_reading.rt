//! How an image is read.
ghost use Rattle.std.specs.Prelude.{◌≡◌, ◌<◌, ◌≤◌, ◌++◌, None, All, IfOk, OnOk, length, option_map};
ghost use Rattle.cell_key.specs.Views.{cell_of};
ghost use Rattle.byte_fields.specs.Answers.{unread_of};
ghost use Rattle.sorted_file.specs.Answers.{Gives, Opens, contents_in, count_entries, shape_of};
ghost use Rattle.sorted_file.specs.Image.{block_places, block_start, image_of, neighbour};
ghost use Rattle.sorted_file.specs.Lists.{IsFileList};
ghost use Rattle.sorted_file.specs.Reading.{end_at, entries_at, expected_at, footer_at, head_at, image_reading, index_at, next_entry_at, version_at};

use crate::entry_reading::{Taken, take_entry};
use crate::fault::{Fault, ImageCause, OpenError};
use crate::format::{BLOCK_ENTRIES, END_MAGIC, MAGIC};
use crate::sharing::shared_parts;
use crate::version::Version;
use byte_fields::{Input, u64_bytes};
use cell_key::{EntryRef, NoMemory};
use iter_contract::is_out_of_order;
use std::alloc::Global;

/// What an image says of its entries.
#[derive(Drop)]
pub struct Contents {
    pub version: Version,
    /// The places of the blocks.
    pub blocks: Vec<u64>,
    /// The number of entries.
    pub count: usize,
}

/// What the entries of an image come to.
#[derive(Drop)]
struct Body<'a> {
    /// The places of the blocks.
    places: Vec<u64>,
    /// The number of entries.
    count: usize,
    /// What follows the end mark.
    rest: Input<'a>,
}

/// The next entry, with so many before it, of which one is the last. It shares as many parts as may be, and does not sort
/// before the last one.
#[tactic(auto, unfolding(crate::specs::Reading::next_entry_at))]
fn take_next<'a>(
    version: Version,
    count: usize,
    before: Option<EntryRef<'a>>,
    input: Input<'a>,
) -> Result<(EntryRef<'a>, Input<'a>), Fault>
    ensures { Gives (λ x. (cell_of x.0, unread_of x.1)) result
        (next_entry_at version count (option_map cell_of before.entry) (unread_of input.entry)) }
{
    let near = neighbour(version, count, before);
    let Taken { same, entry, rest } = take_entry(version, near, input)?;
    if shared_parts(near, entry) != same {
        return Err(Fault::of(input, ImageCause::Shared));
    }
    if is_out_of_order(before, entry) {
        return Err(Fault::of(input, ImageCause::Order));
    }
    Ok((entry, rest))
}

/// Whether the end mark stands in the place of an entry's first field, and what follows that field.
#[tactic(auto, unfolding(crate::specs::Reading::end_at))]
fn take_end(version: Version, input: Input<'_>) -> Result<(bool, Input<'_>), Fault>
    ensures { Gives (λ x. (x.0, unread_of x.1)) result (end_at version (unread_of input.entry)) }
{
    match version {
        Version::One => {
            let (row, rest) = input.take_u16()?;
            Ok((row == 0, rest))
        }
        Version::Two => {
            let (same, rest) = input.take(1)?;
            Ok((same[0] == 255, rest))
        }
    }
}

/// The entry that the one behind it may share parts with; so many are before that one.
fn neighbour<'a>(
    version: Version,
    count: usize,
    before: Option<EntryRef<'a>>,
) -> Option<EntryRef<'a>>
    ensures { option_map cell_of result ≡ neighbour version count (option_map cell_of before.entry) }
{
    if version.shares(count) { before } else { None }
}

/// Puts the place of an entry to those of the blocks, if it begins one.
fn note_block(places: &mut Vec<u64>, count: usize, place: usize) -> Result<(), NoMemory>
    ensures { OnOk result (places.new.items ≡ places.old.items ++ block_start count place) }
{
    if count % BLOCK_ENTRIES == 0 {
        places.push(place as u64)?;
    }
    Ok(())
}

/// The entries up to the end mark.
fn take_body<'a>(
    alloc: Global,
    version: Version,
    most: usize,
    input: Input<'a>,
) -> Result<Body<'a>, OpenError>
    requires few { length input.rest.now ≤ most }
    requires bytes { All (λ b. b < 256) input.rest.now }
    ensures { Opens (λ body. (body.places.items, body.count, unread_of body.rest)) result
        (count_entries version input.entry.at (entries_at version most 0 None (unread_of input.entry))) }
{
    let mut places = Vec::new(alloc);
    let mut count = 0;
    let mut before = None;
    let mut rest = input;
    loop {
        let (ends, behind) = take_end(version, rest)?;
        if ends {
            return Ok(Body {
                places,
                count,
                rest: behind,
            });
        }
        let (entry, behind) = take_next(version, count, before, rest)?;
        note_block(&mut places, count, rest.at)?;
        count += 1;
        before = Some(entry);
        rest = behind;
    }
}

/// What follows a field that can only be these bytes; where it is another, the fault has this cause.
#[tactic(auto, unfolding(crate::specs::Reading::expected_at))]
fn expect<'a>(input: Input<'a>, bytes: &[u8], cause: ImageCause) -> Result<Input<'a>, Fault>
    ensures { Gives unread_of result (expected_at cause bytes.now (unread_of input.entry)) }
{
    let (field, rest) = input.take(bytes.len())?;
    if field != bytes {
        return Err(Fault::of(input, cause));
    }
    Ok(rest)
}

/// The index, which can only be these places.
fn take_index<'a>(places: &[u64], input: Input<'a>) -> Result<Input<'a>, Fault>
    ensures { Gives unread_of result (index_at places.now (unread_of input.entry)) }
{
    let mut rest = input;
    for place in places {
        rest = expect(rest, &u64_bytes(*place), ImageCause::Index)?;
    }
    Ok(rest)
}

/// What stands behind the entries, and then nothing.
#[tactic(auto, unfolding(crate::specs::Reading::footer_at))]
fn take_footer<'a>(places: &[u64], count: usize, input: Input<'a>) -> Result<Input<'a>, Fault>
    ensures { Gives unread_of result (footer_at places.now count (unread_of input.entry)) }
{
    let input = take_index(places, input)?;
    let input = expect(input, &u64_bytes(count as u64), ImageCause::Tail)?;
    let input = expect(input, &END_MAGIC, ImageCause::Tail)?;
    if !input.rest.is_empty() {
        return Err(Fault::of(input, ImageCause::Tail));
    }
    Ok(input)
}

/// The version of an image, which is one of two.
#[tactic(auto, unfolding(crate::specs::Reading::version_at))]
fn take_version(input: Input<'_>) -> Result<(Version, Input<'_>), Fault>
    ensures { Gives (λ x. (x.0, unread_of x.1)) result (version_at (unread_of input.entry)) }
{
    let (number, rest) = input.take(1)?;
    match number[0] {
        1 => Ok((Version::One, rest)),
        2 => Ok((Version::Two, rest)),
        _ => Err(Fault::of(input, ImageCause::Version)),
    }
}

/// What stands before the entries.
#[tactic(auto, unfolding(crate::specs::Reading::head_at))]
fn take_head(input: Input<'_>) -> Result<(Version, Input<'_>), Fault>
    ensures { Gives (λ x. (x.0, unread_of x.1)) result (head_at (unread_of input.entry)) }
{
    let input = expect(input, &MAGIC, ImageCause::Magic)?;
    take_version(input)
}

/// What an image says of its entries: its version, where its blocks stand, and how many entries there are.
pub fn read_image(alloc: Global, bytes: &[u8]) -> Result<Contents, OpenError>
    ensures shape { Opens (λ contents. (contents.version, contents.count)) result (shape_of (image_reading bytes.now)) }
    ensures blocks { IfOk result (λ contents. contents.blocks.items
        ≡ block_places contents.version (contents_in bytes.now).cells) }
    ensures image { IfOk result (λ contents. image_of contents.version (contents_in bytes.now).cells ≡ bytes.now) }
    ensures list { OnOk result (IsFileList (contents_in bytes.now).cells) }
{
    let (version, input) = take_head(Input { at: 0, rest: bytes })?;
    let Body {
        places,
        count,
        rest,
    } = take_body(alloc, version, bytes.len(), input)?;
    take_footer(places.as_slice(), count, rest)?;
    Ok(Contents {
        version,
        blocks: places,
        count,
    })
}
