//! The text of a session with a tablet: how an input is cut into a configuration and script lines, what a
//! script line says, and the lines that answer it.
#![tactic(auto)]

mod answers;
mod grammar;
mod line;
mod line_laws;
mod lines;
mod numbers;
mod parts;
mod scan_line;
mod scans;
mod search;
mod session_answers;
mod session_lines;
mod status_answers;
mod step_lines;
mod times;
mod updates;
mod words;

pub use answers::{append_at, append_count, append_end, append_entry, entry_text};
pub use grammar::parse_line;
pub use line::{Line, LineError, SessionStep};
pub use line_laws::lines_are_whole;
pub use lines::{Lines, split_input};
pub use session_answers::{
    append_closed, append_dropped, append_opened, append_renewed, append_rest,
};
pub use status_answers::{append_file, append_frozen, append_job, append_log, append_memory};
