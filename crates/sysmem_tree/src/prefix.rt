//! Choices for the first groups of a domain.

ghost use Rattle.std.specs.Prelude.{◌≡◌, ◌≤◌, ◌<◌, ◌++◌, [], ◌∷◌, length, MatchOption, true, false};

use crate::tree::MOST_NODES;
use std::marker::Model;

/// The choices for the first groups in effect of a domain, at most 128: for each the number of the
/// chosen child.
#[derive(Debug, Drop)]
pub struct Prefix {
    choices: [u8; MOST_NODES],
    many: usize,
}

impl Model for Prefix {
    ghost use Rattle.std.specs.Prelude.{◌≡◌, ◌≤◌, ℕ, List, take};
    ghost use Rattle.sysmem_tree.specs.declared.tree.TheConstants.{MOST_NODES};

    ghost Value = { List ℕ };

    ghost view = { λ p. take p.many p.choices };

    ghost invariant = { λ p. p.many ≤ MOST_NODES };
}

impl Prefix {
    /// No choice.
    pub fn new() -> Prefix
        ensures { result ≡ [] }
    {
        Prefix {
            choices: [0; MOST_NODES],
            many: 0,
        }
    }

    /// The choices, that for the first group first.
    pub fn choices(&self) -> &[u8]
        ensures { result.now ≡ self.now }
    {
        &self.choices[..self.many]
    }

    /// Whether 128 choices are there, so that no further one fits.
    pub fn is_full(&self) -> bool
        ensures room { result ≡ false → length self.now < MOST_NODES }
        ensures full { result ≡ true → length self.now ≡ MOST_NODES }
    {
        self.many == MOST_NODES
    }

    /// Chooses this child for the next group.
    pub fn push(&mut self, choice: u8)
        requires { length self.old < MOST_NODES }
        ensures { self.new ≡ self.old ++ choice ∷ [] }
    {
        self.choices[self.many] = choice;
        self.many += 1;
    }

    /// Takes the last choice back.
    pub fn pop(&mut self) -> Option<u8>
        ensures { MatchOption result ((self.old ≡ []) × (self.new ≡ []))
            (λ choice. self.old ≡ self.new ++ choice ∷ []) }
    {
        if self.many == 0 {
            return None;
        }
        self.many -= 1;
        Some(self.choices[self.many])
    }
}
