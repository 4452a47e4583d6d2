//! A tablet that is published to readers while a loader works: readers look at views that only ever go on, and wait for nobody.
#![tactic(auto)]

mod extending;
mod loader;
mod loading;
mod opening;
mod published;
mod reader;
mod reading;
mod running;
mod scan;
mod scanner;
mod seats;
mod walk;

pub use extending::extends;
pub use loader::Loader;
pub use opening::{Readers, open};
pub use reader::{LiveReader, Note};
pub use running::{LiveRun, LiveShape, ScannerWalks, run_mutations};
pub use scan::Scan;
pub use scanner::Scanner;
pub use walk::Walk;
