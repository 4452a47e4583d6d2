//! How one goes from entry to entry in a file.
ghost use Rattle.std.specs.Prelude.{◌≡◌, ◌<◌, ◌+◌, ◌*◌, Some, length, slice_get, take};
ghost use Rattle.cell_key.specs.Views.{cell_of};
ghost use Rattle.sorted_file.specs.Image.{block_places, entry_place, image_of, neighbour, shared_parts};
ghost use Rattle.sorted_file.specs.Lists.{IsFileList, last_of};
ghost use Rattle.sorted_file.specs.Outlines.{AreOutlined, IsSpot};

use crate::entry_reading::{Taken, take_entry};
use crate::file::SortedFile;
use crate::format::{BLOCK_ENTRIES, FIRST_PLACE};
use crate::outline::{Outline, slices_of};
use crate::spot::Spot;
use byte_fields::Input;
use cell_key::EntryRef;

impl SortedFile {
    /// The number of entries.
    pub(crate) fn len(&self) -> usize
        ensures length { result ≡ length self.now.cells }
        ensures list { IsFileList self.now.cells }
    {
        self.count
    }

    /// Where the first entry stands, if there is one.
    pub(crate) fn start(&self) -> Spot
        ensures index { result.index ≡ 0 }
        ensures spot { IsSpot self.now result }
        ensures list { IsFileList self.now.cells }
    {
        if self.count == 0 {
            return Spot {
                index: 0,
                outline: Outline::none(),
            };
        }
        self.spot_at(0, FIRST_PLACE, None)
    }

    /// The number of blocks.
    pub(crate) fn blocks(&self) -> usize
        ensures { result ≡ length (block_places self.now.version self.now.cells) }
    {
        self.blocks.len()
    }

    /// Where a block begins, of which there has to be one of this number, from 0.
    pub(crate) fn block(&self, number: usize) -> Spot
        requires { number < length (block_places self.now.version self.now.cells) }
        ensures index { result.index ≡ 64 * number }
        ensures within { result.index < length self.now.cells }
        ensures spot { IsSpot self.now result }
    {
        let place = self.blocks[number] as usize;
        self.spot_at(number * BLOCK_ENTRIES, place, None)
    }

    /// The entry at a spot, as slices of the image.
    pub(crate) fn entry(&self, spot: Spot) -> EntryRef<'_>
        requires within { spot.index < length self.now.cells }
        requires spot { IsSpot self.now spot }
        ensures { slice_get self.now.cells spot.index ≡ Some (cell_of result) }
    {
        spot.outline.slices(self.bytes())
    }

    /// Where the next entry stands, if there is one.
    pub(crate) fn next(&self, spot: Spot) -> Spot
        requires within { spot.index < length self.now.cells }
        requires spot { IsSpot self.now spot }
        ensures index { result.index ≡ spot.index + 1 }
        ensures spot { IsSpot self.now result }
    {
        let count = self.len();
        let index = spot.index + 1;
        if index == count {
            return Spot {
                index,
                outline: Outline::none(),
            };
        }
        let near = self.version.shares(index).then_some(spot.outline);
        self.spot_at(index, spot.outline.value.end, near)
    }

    /// The entry at a place, as it is read, with so many before it. If it has a neighbour, the outline is that of the
    /// neighbour.
    fn taken_at(&self, index: usize, place: usize, near: Option<Outline>) -> Taken<'_>
        requires within { index < length self.now.cells }
        requires place { place ≡ entry_place self.now.version self.now.cells index }
        requires near { AreOutlined (image_of self.now.version self.now.cells)
            (neighbour self.now.version index (last_of (take index self.now.cells))) near }
        ensures entry { slice_get self.now.cells index ≡ Some (cell_of result.entry) }
        ensures same { result.same
            ≡ shared_parts (neighbour self.now.version index (last_of (take index self.now.cells))) (cell_of result.entry) }
        ensures next { result.rest.at ≡ entry_place self.now.version self.now.cells (index + 1) }
    {
        let bytes = self.bytes();
        let (_, rest) = bytes.split_at(place);
        let input = Input { at: place, rest };
        let Ok(taken) = take_entry(self.version, slices_of(near, bytes), input) else {
            unreachable!()
        };
        taken
    }

    /// Where the parts stand of the entry at a place, with so many before it. If it has a neighbour, the outline is that of
    /// the neighbour.
    fn spot_at(&self, index: usize, place: usize, near: Option<Outline>) -> Spot
        requires within { index < length self.now.cells }
        requires place { place ≡ entry_place self.now.version self.now.cells index }
        requires near { AreOutlined (image_of self.now.version self.now.cells)
            (neighbour self.now.version index (last_of (take index self.now.cells))) near }
        ensures index { result.index ≡ index }
        ensures spot { IsSpot self.now result }
    {
        let taken = self.taken_at(index, place, near);
        let outline = Outline::behind(
            near.unwrap_or(Outline::none()),
            taken.same,
            place + self.version.same_size(),
            taken.entry,
            taken.rest.at,
        );
        Spot { index, outline }
    }
}
