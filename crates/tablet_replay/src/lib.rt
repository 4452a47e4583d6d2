//! What the commands write for an input: the answers to a script, the image that it packs, the entries of an image, and
//! its image of the newest version.
#![tactic(auto)]

mod headline;
mod outcome;
mod packing;
mod refusal;
mod reply;
mod scan;
mod script;
mod sending;
mod sessions;
mod showing;
mod status;
mod tablet;

pub use headline::{scans_are_whole, sessions_walk, steps_change_no_answer};
pub use outcome::{Outcome, ReplyError};
pub use reply::{pack_to, replay_to, show_to, upgrade_to, write_refusal};
pub use status::append_files;
