//! The steps of a store, the answers to them and why they are refused, with the text of each.
#![tactic(auto)]

mod answer;
mod event;
mod numbered;
mod refusal;

pub use answer::{Answer, kind_word};
pub use event::Event;
pub use numbered::{append_number_line, append_numbered};
pub use refusal::{LineRefusal, StepRefusal};
