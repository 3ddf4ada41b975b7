//! Where a node is in the tree.

ghost use Rattle.std.specs.Prelude.{◌≡◌};

use std::marker::Model;

/// The way from the root to a node: at each step which child, counted from 0 in the order in which
/// children were made. The root's path is empty.
#[derive(Debug, Drop)]
pub struct Path {
    ordinals: Vec<u32>,
}

impl Model for Path {
    ghost use Rattle.std.specs.Prelude.{ℕ, List};

    ghost Value = { List ℕ };

    ghost view = { λ p. p.ordinals.items };
}

impl Path {
    /// The path of these ordinals, from the root on. Any list is a path; whether a node is there is
    /// the tree's matter.
    pub fn new(ordinals: Vec<u32>) -> Path
        ensures { result ≡ ordinals.items }
    {
        Path { ordinals }
    }

    /// Which child is taken at each step from the root.
    pub fn ordinals(&self) -> &[u32]
        ensures { result.now ≡ self.now }
    {
        &self.ordinals
    }
}
