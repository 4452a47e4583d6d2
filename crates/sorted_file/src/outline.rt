//! Where the parts of an entry stand in an image.
ghost use Rattle.std.specs.Prelude.{◌≡◌, ◌+◌, ◌<◌, ◌≤◌, ◌^◌, Option, length, option_map, slice_range};
ghost use Rattle.tablet_model.specs.Cell.{Cell};
ghost use Rattle.cell_key.specs.Views.{cell_of};
ghost use Rattle.sorted_file.specs.Outlines.{AreOutlined, IsOutlined, outline_of, part_end, part_stretch, time_place};

use cell_key::{EntryRef, KeyRef};

/// Where a part of an entry stands: the place of its first byte, and the place behind it.
#[derive(Clone, Copy)]
pub struct Stretch {
    pub start: usize,
    pub end: usize,
}

/// Where the parts of an entry stand in its image, and what stands between them. A part that the entry shares stands in an
/// entry before it.
#[derive(Clone, Copy)]
pub struct Outline {
    pub row: Stretch,
    pub family: Stretch,
    pub qualifier: Stretch,
    pub visibility: Stretch,
    /// Its timestamp.
    pub time: i64,
    /// Whether it is a delete marker.
    pub deleted: bool,
    pub value: Stretch,
}

impl Stretch {
    /// Its bytes.
    fn of(self, bytes: &[u8]) -> &[u8]
        requires order { self.start ≤ self.end }
        requires within { self.end ≤ length bytes.now }
        ensures { result.now ≡ slice_range bytes.now self.start self.end }
    {
        &bytes[self.start..self.end]
    }
}

/// Where a part of so many bytes stands, and the place behind it. It stands where the neighbour's does, if it is shared, or
/// behind its length at a place.
fn stretch_at(is_shared: bool, near: Stretch, place: usize, length: usize) -> (Stretch, usize)
    requires { part_end is_shared place length < 2 ^ 64 }
    ensures stretch { result.0 ≡ part_stretch is_shared near place length }
    ensures end { result.1 ≡ part_end is_shared place length }
{
    if is_shared {
        return (near, place);
    }
    let start = place + 2;
    let end = start + length;
    (Stretch { start, end }, end)
}

impl Outline {
    /// The outline of an entry that shares so many parts with its neighbour, whose own parts begin at a place, and behind
    /// which another place is. Time, flag and the length of the value take 13 bytes.
    pub fn behind(near: Outline, same: u8, place: usize, entry: EntryRef<'_>, end: usize) -> Outline
        requires { time_place same place (cell_of entry) + (13 + length entry.value.now) ≡ end }
        ensures { result ≡ outline_of near same place (cell_of entry.entry) }
    {
        let key = entry.key;
        let (row, place) = stretch_at(0 < same, near.row, place, key.row.len());
        let (family, place) = stretch_at(1 < same, near.family, place, key.family.len());
        let (qualifier, place) = stretch_at(2 < same, near.qualifier, place, key.qualifier.len());
        let (visibility, place) = stretch_at(
            3 < same,
            near.visibility,
            place,
            key.visibility.len(),
        );
        let start = place + 13;
        Outline {
            row,
            family,
            qualifier,
            visibility,
            time: key.time,
            deleted: key.deleted,
            value: Stretch { start, end },
        }
    }

    /// An outline where there is no entry.
    pub fn none() -> Outline {
        let nowhere = Stretch { start: 0, end: 0 };
        Outline {
            row: nowhere,
            family: nowhere,
            qualifier: nowhere,
            visibility: nowhere,
            time: 0,
            deleted: false,
            value: nowhere,
        }
    }

    /// The entry whose parts are the stretches of the bytes that the outline finds.
    pub fn slices(self, bytes: &[u8]) -> EntryRef<'_>
        requires { (e : Cell) × IsOutlined bytes.now e self }
        ensures { (e : Cell) → IsOutlined bytes.now e self → cell_of result ≡ e }
    {
        let key = KeyRef {
            row: self.row.of(bytes),
            family: self.family.of(bytes),
            qualifier: self.qualifier.of(bytes),
            visibility: self.visibility.of(bytes),
            time: self.time,
            deleted: self.deleted,
        };
        EntryRef {
            key,
            value: self.value.of(bytes),
        }
    }
}

/// The entry whose parts an outline finds in the bytes, if there is an outline.
pub fn slices_of(outline: Option<Outline>, bytes: &[u8]) -> Option<EntryRef<'_>>
    requires { (e : Option Cell) × AreOutlined bytes.now e outline }
    ensures { (e : Option Cell) → AreOutlined bytes.now e outline → option_map cell_of result ≡ e }
{
    match outline {
        Some(outline) => Some(outline.slices(bytes)),
        None => None,
    }
}
