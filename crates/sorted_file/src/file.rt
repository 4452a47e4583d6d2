//! Files that are open.
ghost use Rattle.std.specs.Prelude.{◌≡◌, length};
ghost use Rattle.sorted_file.specs.Answers.{Opens};
ghost use Rattle.sorted_file.specs.Image.{image_of};
ghost use Rattle.sorted_file.specs.Lists.{IsFileList};
ghost use Rattle.sorted_file.specs.Reading.{image_reading};
ghost use Rattle.sorted_file.specs.Versions.{version_number};

use crate::fault::OpenError;
use crate::image_reading::{Contents, read_image};
use crate::version::Version;
use cell_key::ByteText;
use std::alloc::Global;
use std::marker::Model;

/// An immutable file of sorted entries: its image in memory.
#[derive(Drop)]
pub struct SortedFile {
    pub(crate) version: Version,
    /// The image.
    pub(crate) bytes: ByteText,
    /// The places of its blocks.
    pub(crate) blocks: Vec<u64>,
    /// The number of entries.
    pub(crate) count: usize,
}

impl Model for SortedFile {
    ghost use Rattle.sorted_file.specs.Contents.{FileContents};

    ghost Value = { FileContents };

    ghost use Rattle.sorted_file.specs.FileParts.{file_contents, IsFile};

    ghost view = { file_contents };

    ghost invariant = { IsFile };
}

impl SortedFile {
    /// The file whose image the bytes are. The bytes are gone after a refusal.
    pub fn open(alloc: Global, bytes: ByteText) -> Result<SortedFile, OpenError>
        ensures { Opens (λ file. file) result (image_reading bytes) }
    {
        let Contents {
            version,
            blocks,
            count,
        } = read_image(alloc, bytes.bytes())?;
        Ok(SortedFile {
            version,
            bytes,
            blocks,
            count,
        })
    }

    /// The version of the image, 1 or 2. It takes no memory.
    pub fn version(&self) -> u8
        ensures { result ≡ version_number self.now.version }
    {
        self.version.number()
    }

    /// The number of entries. It takes no memory.
    pub fn count(&self) -> u64
        ensures { result ≡ length self.now.cells }
    {
        self.count as u64
    }

    /// The image. It takes no memory.
    pub fn bytes(&self) -> &[u8]
        ensures image { result.now ≡ image_of self.now.version self.now.cells }
        ensures list { IsFileList self.now.cells }
    {
        self.bytes.bytes()
    }
}
