// Where a worker announces the pack that it begins.

/// What a worker passes as it begins a pack: a place for a test to hold it, and to see who is under
/// way at once.
pub trait Gate {
    /// Quantum `number` of the round begins; numbers count from 0, in the order of the packs. The
    /// call returns.
    fn pass(&self, number: u32);
}

/// A gate that is always open.
#[derive(Drop)]
pub struct OpenGate;

impl OpenGate {
    /// The gate.
    pub fn new() -> OpenGate {
        OpenGate
    }
}

impl Gate for OpenGate {
    fn pass(&self, _number: u32) {}
}
