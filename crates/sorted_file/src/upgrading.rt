//! Files in the newest version.
ghost use Rattle.std.specs.Prelude.{◌≡◌, ◌≤◌, length, take, IfOk, OnOk};
ghost use Rattle.sorted_file.specs.Outlines.{IsSpot};
ghost use Rattle.sorted_file.specs.declared.version.Version.TheVariants.{Two};

use crate::builder::FileBuilder;
use crate::file::SortedFile;
use cell_key::NoMemory;
use std::alloc::Global;

impl SortedFile {
    /// A file of version 2 with the same entries. It takes memory for its image.
    pub fn upgrade(&self, alloc: Global) -> Result<SortedFile, NoMemory>
        ensures { IfOk result (λ file. file ≡ record { version = Two; cells = self.now.cells }) }
    {
        let mut builder = FileBuilder::new(alloc)?;
        let mut spot = self.start();
        while spot.index < self.len() {
            builder.push(self.entry(spot))?;
            spot = self.next(spot);
        }
        builder.finish()
    }
}
