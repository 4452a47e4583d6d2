//! The files of a view, by their numbers.
ghost use Rattle.std.specs.Prelude.{◌≡◌, ◌<◌, [], ◌∷◌, ◌++◌, Some, length, map, slice_get, IfOk};
ghost use Rattle.std.specs.Arc.{arc_value};
ghost use Rattle.tablet_model.specs.Store.{files_without};
ghost use Rattle.compactor.specs.PartCells.{part_cells};
ghost use Rattle.tablet_view.specs.FileParts.{file_of};

use cell_key::{FileIds, NoMemory};
use compactor::PartCursor;
use sorted_file::SortedFile;
use std::alloc::Global;
use std::marker::Model;
use std::sync::Arc;

/// A file of a tablet, with its number.
#[derive(Drop)]
pub(crate) struct StoredFile {
    pub id: u64,
    pub file: Arc<SortedFile>,
}

/// The files of a tablet, in order of their numbers.
#[derive(Drop)]
pub(crate) struct Files {
    files: Vec<StoredFile>,
}

impl Model for Files {
    ghost use Rattle.std.specs.Prelude.{List, map};
    ghost use Rattle.tablet_model.specs.Store.{File};

    ghost Value = { List File };

    ghost use Rattle.tablet_view.specs.FileParts.{file_of};

    ghost view = { λ l. map file_of l.files.items };
}

impl StoredFile {
    /// The same file, shared.
    fn share(&self) -> Result<StoredFile, NoMemory>
        ensures { IfOk result (λ stored. file_of stored ≡ file_of self.now) }
    {
        let file = Arc::try_clone(&self.file)?;
        Ok(StoredFile { id: self.id, file })
    }
}

impl Files {
    /// No files. It takes no memory.
    pub(crate) fn new(alloc: Global) -> Files
        ensures { result ≡ [] }
    {
        Files {
            files: Vec::new(alloc),
        }
    }

    /// These files without those of some numbers, and another one behind them.
    pub(crate) fn with(
        &self,
        alloc: Global,
        ids: &FileIds,
        id: u64,
        file: &Arc<SortedFile>,
    ) -> Result<Files, NoMemory>
        ensures { IfOk result (λ files. files
            ≡ files_without ids.now self.now ++ record { id = id; cells = (arc_value file.now).cells } ∷ []) }
    {
        let mut files = other_files(alloc, &self.files, ids)?;
        let file = Arc::try_clone(file)?;
        files.push(StoredFile { id, file })?;
        Ok(Files { files })
    }

    /// Sources of the entries of each file.
    pub(crate) fn cursors(&self, alloc: Global) -> Result<Vec<PartCursor>, NoMemory>
        ensures { IfOk result (λ cursors. map part_cells cursors.items ≡ map (λ f. f.cells) self.now) }
    {
        let mut cursors = Vec::new(alloc);
        for stored in &self.files {
            let cursor = SortedFile::cursor(alloc, &stored.file)?;
            cursors.push(PartCursor::File(cursor))?;
        }
        Ok(cursors)
    }

    /// How many files there are.
    pub(crate) fn len(&self) -> usize
        ensures { result ≡ length self.now }
    {
        self.files.len()
    }

    /// The file at place `i`.
    pub(crate) fn get(&self, i: usize) -> &StoredFile
        requires { i < length self.now }
        ensures { slice_get self.now i ≡ Some (file_of result.now) }
    {
        &self.files[i]
    }
}

/// The files of other numbers.
fn other_files(
    alloc: Global,
    files: &[StoredFile],
    ids: &FileIds,
) -> Result<Vec<StoredFile>, NoMemory>
    ensures { IfOk result (λ others. map file_of others.items ≡ files_without ids.now (map file_of files.now)) }
{
    let mut others = Vec::new(alloc);
    for stored in files {
        if ids.has(stored.id) {
            continue;
        }
        others.push(stored.share()?)?;
    }
    Ok(others)
}
