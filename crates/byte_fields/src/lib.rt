//! Fields of bytes, one behind the other: numbers and texts that are read with the place of the first one that is cut, and written. Numbers
//! are big-endian.
#![tactic(auto)]

mod cut;
mod input;
mod writing;

pub use cut::Cut;
pub use input::Input;
pub use writing::{append_u16, append_u32, append_u64, u64_bytes};
