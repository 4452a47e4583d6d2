//! Cursors over a file.
ghost use Rattle.std.specs.Prelude.{◌≡◌, ◌≤◌, length};
ghost use Rattle.std.specs.Arc.{arc_value};
ghost use Rattle.tablet_model.specs.Order.{above};
ghost use Rattle.tablet_model.specs.Sorted.{Ascends};
ghost use Rattle.tablet_model.specs.Bounds.{AreEntries};
ghost use Rattle.iter_contract.specs.Props.{Ascends-prop, AreEntries-prop};
ghost use Rattle.sorted_file.specs.Outlines.{IsSpot};
ghost use Rattle.sorted_file.specs.SpotProps.{IsSpot-prop};

use crate::file::SortedFile;
use crate::seeking::{end_before, first_behind};
use crate::spot::Spot;
use cell_key::{EntryRef, NoMemory, Range};
use iter_contract::SortedSource;
use std::alloc::Global;
use std::sync::Arc;

/// A source over the entries of a shared file. It is steady, its tops are slices of the image, and its deep copies share
/// the file.
#[derive(Drop)]
pub struct FileCursor {
    file: Arc<SortedFile>,
    /// What is left begins at `top`, and `end` entries of the file stand before its end.
    top: Spot,
    end: usize,
    ghost order: { top.index ≤ end },
    ghost bound: { end ≤ length (arc_value file).cells },
    ghost is_spot: { IsSpot (arc_value file) top } by { IsSpot-prop (arc_value file) top },
    ghost is_sorted: { Ascends above (arc_value file).cells } by { Ascends-prop (arc_value file).cells },
    ghost is_bounded: { AreEntries (arc_value file).cells } by { AreEntries-prop (arc_value file).cells },
}

impl SortedFile {
    ghost use Rattle.std.specs.Prelude.{[], IfOk};
    ghost use Rattle.sorted_file.specs.CursorParts.{cursor_cells, cursor_rest};

    /// A source over the entries of a file. It takes no memory for now.
    pub fn cursor(_alloc: Global, file: &Arc<SortedFile>) -> Result<FileCursor, NoMemory>
        ensures cells { IfOk result (λ cursor. cursor_cells cursor ≡ (arc_value file.now).cells) }
        ensures rest { IfOk result (λ cursor. cursor_rest cursor ≡ []) }
    {
        let file = Arc::try_clone(file)?;
        let top = file.start();
        Ok(FileCursor { file, top, end: 0 })
    }
}

impl SortedSource for FileCursor {
    ghost use Rattle.std.specs.Prelude.{true, ⊤};
    ghost use Rattle.sorted_file.specs.CursorParts.{cursor_cells, cursor_rest};

    ghost cells = { cursor_cells };

    ghost rest = { cursor_rest };

    ghost steady = { λ _. true };

    ghost valid = { λ _. ⊤ };

    ghost sorted = { λ s. s.is_sorted };

    ghost bounded = { λ s. s.is_bounded };

    fn seek(&mut self, range: &Range<'_>) -> Result<(), NoMemory> {
        let file: &SortedFile = &self.file;
        let top = first_behind(file, &range.start);
        let end = end_before(file, top, &range.end);
        self.top = top;
        self.end = end;
        Ok(())
    }

    fn top(&self) -> Option<EntryRef<'_>> {
        if self.top.index < self.end {
            Some(self.file.entry(self.top))
        } else {
            None
        }
    }

    fn next(&mut self) -> Result<(), NoMemory> {
        self.top = self.file.next(self.top);
        Ok(())
    }

    fn deep_copy(&self, alloc: Global) -> Result<FileCursor, NoMemory> {
        SortedFile::cursor(alloc, &self.file)
    }
}
