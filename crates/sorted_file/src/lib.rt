//! Sorted files of entries: images in memory, how they are written and read, and cursors over them.
#![tactic(auto)]

mod builder;
mod cursor;
mod entry_reading;
mod entry_writing;
mod fault;
mod file;
mod format;
mod image_laws;
mod image_reading;
mod outline;
mod seeking;
mod sharing;
mod spot;
mod upgrading;
mod version;
mod walking;

pub use builder::FileBuilder;
pub use cursor::FileCursor;
pub use fault::{Fault, ImageCause, OpenError};
pub use file::SortedFile;
pub use image_laws::images_are_exact;
