//! Scan sessions: what a reader is given piece by piece while mutations come in, and the laws of such walks.
#![tactic(auto)]

mod fetching;
mod piece;
mod run;
mod scanner;
mod scanning;
mod session;
mod session_laws;
mod views;
mod walk_laws;

pub use piece::{Fetched, Piece, Pieces};
pub use scanner::{ScanCall, drive};
pub use session::Session;
pub use session_laws::{sessions_answer_in_order, sessions_walk, untimed_answers_differ};
pub use views::{Still, Views};
pub use walk_laws::{
    different_keys_rise, fetches_walk, keys_never_fall, walks_are_whole, walks_go_on, what_is_taken,
};
