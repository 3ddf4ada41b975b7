//! What a host allows those whom it lets take part.

ghost use Rattle.std.specs.Prelude.{◌≡◌, ◌<◌, IfSome, get_or, replicate, slice_get};
ghost use Rattle.node_limits.specs.Limits.{counts_after};
ghost use Rattle.sysmem_tree.specs.declared.tree.TheConstants.{MOST_NODES};

use sysmem_tree::{ActionKind, MOST_NODES};

/// What a host allows those whom it lets take part, beside what the description does.
#[derive(Clone, Copy, Debug, PartialEq, Eq)]
pub struct Limits {
    /// How many nodes there may be below each child of the root, those that are gone included;
    /// `None` where it may be as many as a collection has. No node but the root has more below it
    /// then, whoever makes them.
    pub offspring: Option<u32>,
}

/// How many nodes are below each child of the root, by which child it is.
#[derive(Drop)]
pub struct Offspring {
    pub counts: [u8; MOST_NODES],
}

impl Offspring {
    /// Of a root alone.
    pub fn new() -> Offspring
        ensures { result.counts ≡ replicate MOST_NODES 0 }
    {
        Offspring {
            counts: [0; MOST_NODES],
        }
    }

    /// How many are below this child of the root.
    pub fn below(&self, top: u32) -> u32
        requires { top < MOST_NODES }
        ensures { result ≡ get_or self.now.counts top 0 }
    {
        u32::from(self.counts[top as usize])
    }

    /// Counts what an action of this kind on the node at this path makes.
    pub fn add(&mut self, path: &[u32], kind: ActionKind)
        requires few { IfSome (slice_get path.now 0) (λ top. top < MOST_NODES) }
        requires room { IfSome (slice_get path.now 0) (λ top. get_or self.old.counts top 0 < 255) }
        ensures { self.new.counts ≡ counts_after self.old.counts path.now kind }
    {
        let Some(top) = path.first() else {
            return;
        };
        if kind.makes().is_some() {
            self.counts[*top as usize] += 1;
        }
    }
}
