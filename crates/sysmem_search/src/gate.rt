//! What is told of a search, and of the proof of what it found, while they go on.

/// Is told of each prefix that a search visits, and by who has what was found proved of that proof.
pub trait Gate {
    /// At a prefix with this many choices, 0 to 128.
    fn at_prefix(&self, length: u32);

    /// Before a verdict's proof is made, and again after it. No search calls it: a collection that
    /// threads share does, which proves each of its decisions.
    fn at_proof(&self) {}
}

/// Does nothing.
#[derive(Clone, Copy, Debug)]
pub struct NoGate;

impl Gate for NoGate {
    fn at_prefix(&self, _length: u32) {}
}
