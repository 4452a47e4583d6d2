//! What may hold the steps of the live program back.
/// A step of the live program, which a gate may hold back.
#[derive(Clone, Copy, Debug, PartialEq, Eq)]
pub enum Place {
    /// Before a publish of the loader, numbered from 1.
    Publish(u64),
    /// Before a fetch of a scanner, both numbered from 1.
    Fetch { scanner: u32, number: u64 },
}

/// What the live program calls before each publish and each fetch. Threads share it. It changes nothing that a contract speaks of:
/// tests hold threads back by it.
pub trait Gate {
    /// Returns when the step may be made.
    fn at(&self, place: Place);
}

/// A gate that holds nothing back.
pub struct OpenGate;

impl Gate for OpenGate {
    fn at(&self, _place: Place) {}
}
