//! Where the ends of a range lie in a file. Each search finds a block first, and goes from entry to entry in it.
ghost use Rattle.std.specs.Prelude.{◌≡◌, ◌≤◌, ◌-◌, false, length, filter, take, drop};
ghost use Rattle.std.specs.List.{AllByRecursion};
ghost use Rattle.tablet_model.specs.Cuts.{is_behind, is_before};
ghost use Rattle.cell_key.specs.Ranges.{cut_of};
ghost use Rattle.sorted_file.specs.Outlines.{IsSpot};

use crate::file::SortedFile;
use crate::spot::Spot;
use cell_key::{Bound, lies_before, lies_behind};

/// Where the first entry behind a start stands, or the end of the entries where none is behind it.
pub fn first_behind(file: &SortedFile, start: &Bound<'_>) -> Spot
    ensures within { result.index ≤ length file.now.cells }
    ensures spot { IsSpot file.now result }
    ensures behind { filter (λ e. is_behind (cut_of start.now) e.key) file.now.cells ≡ drop result.index file.now.cells }
{
    if let Bound::Open = start {
        return file.start();
    }
    let mut spot = last_block_before(file, start);
    while spot.index < file.len() {
        if lies_behind(start, file.entry(spot).key) {
            return spot;
        }
        spot = file.next(spot);
    }
    spot
}

/// How many entries stand before the first one, from a spot on, that does not lie before an end.
pub fn end_before(file: &SortedFile, from: Spot, end: &Bound<'_>) -> usize
    requires within { from.index ≤ length file.now.cells }
    requires spot { IsSpot file.now from }
    ensures order { from.index ≤ result }
    ensures within { result ≤ length file.now.cells }
    ensures before { filter (λ e. is_before (cut_of end.now) e.key) (drop from.index file.now.cells)
        ≡ take (result - from.index) (drop from.index file.now.cells) }
{
    if let Bound::Open = end {
        return file.len();
    }
    let block = last_block_before(file, end);
    let mut spot = if from.index < block.index {
        block
    } else {
        from
    };
    while spot.index < file.len() {
        if !lies_before(end, file.entry(spot).key) {
            return spot.index;
        }
        spot = file.next(spot);
    }
    spot.index
}

/// Where the last block begins whose first entry does not lie behind a bound, or the first entry where there is none
/// such.
fn last_block_before(file: &SortedFile, bound: &Bound<'_>) -> Spot
    ensures within { result.index ≤ length file.now.cells }
    ensures spot { IsSpot file.now result }
    ensures passed { AllByRecursion (λ e. is_behind (cut_of bound.now) e.key ≡ false) (take result.index file.now.cells) }
{
    let mut last = file.start();
    let mut low = 0;
    let mut high = file.blocks();
    while low < high {
        let middle = low + (high - low) / 2;
        let block = file.block(middle);
        if lies_behind(bound, file.entry(block).key) {
            high = middle;
        } else {
            low = middle + 1;
            last = block;
        }
    }
    last
}
