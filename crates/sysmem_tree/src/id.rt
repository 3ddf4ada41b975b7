//! Which node, and which domain.

use std::marker::Model;

/// A node of a tree, by its number in the order in which nodes were made; the root's is 0. A tree
/// doesn't know the numbers of another one.
#[derive(Clone, Copy, Debug, PartialEq, Eq)]
pub struct NodeId(pub(crate) usize);

impl Model for NodeId {
    ghost use Rattle.std.specs.Prelude.{ℕ};

    ghost Value = { ℕ };

    ghost view = { λ node. node.0 };

    ghost inverse = { λ number. record { 0 = number } };
}

/// A domain of a tree, by the number of the node that is its root.
#[derive(Clone, Copy, Debug, PartialEq, Eq)]
pub struct DomainId(pub(crate) usize);

impl Model for DomainId {
    ghost use Rattle.std.specs.Prelude.{ℕ};

    ghost Value = { ℕ };

    ghost view = { λ domain. domain.0 };

    ghost inverse = { λ number. record { 0 = number } };
}
