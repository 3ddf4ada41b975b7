//! What a node is, and what its own actions made of it.

/// What a node is.
#[derive(Clone, Copy, Debug, PartialEq, Eq)]
pub enum NodeKind {
    /// A participant's claim to take part, which can be duplicated.
    Token,
    /// Alternatives: of its children one is chosen.
    Group,
    /// A token that was bound, so that constraints can be set on it.
    Collection,
}

/// What its own actions made of a node, but for the constraints that it set.
#[derive(Clone, Copy, Debug, PartialEq, Eq)]
pub struct NodeState {
    /// What the node is.
    pub kind: NodeKind,
    /// Whether the node is open; else it is gone.
    pub is_open: bool,
    /// Whether a collection was set, with constraints or with none.
    pub is_set: bool,
    /// Whether all the children of a group are there.
    pub is_complete: bool,
    /// How many children the node made, 0 to 127.
    pub children: u32,
}
