//! The outside: sources and sinks of bytes with counts of faults, and a gate of the live program.
#![tactic(auto)]

mod calls;
mod gate;
mod memory;
mod ports;
mod sending;
mod streams;
mod system;

pub use calls::Calls;
pub use cell_key::NoMemory;
pub use gate::{Gate, OpenGate, Place};
pub use memory::{MemSink, MemSource};
pub use ports::{Got, Put, Sink, Source};
pub use sending::{send_all, send_full};
pub use streams::{ReadError, WriteFault, read_all, write_all};
pub use system::{StdSink, StdSource};
