//! Naming a node of a collection.

ghost use Rattle.std.specs.Prelude.{◌≡◌, ◌<◌, ◌≤◌, IfErr, OnErr, OnOk, length};
ghost use Rattle.node_names.specs.Names.{with_name};
ghost use Rattle.live_book.specs.Collection.{with_names};
ghost use Rattle.live_book.specs.Naming.{IsMisnamed};

use crate::collection::Collection;
use node_names::Unnamed;
use std::alloc::Global;

/// Why a node isn't given a name.
#[derive(Clone, Copy, Debug, Drop)]
pub enum Misnamed {
    /// It is the root, which each script calls `root`, or there is no such node.
    NoNode,
    Unnamed(Unnamed),
}

/// Gives the node of a number a name, in the place of the one that it had; or says why not, and
/// then nothing has changed.
pub fn set_name(
    alloc: Global,
    collection: &mut Collection,
    number: u32,
    name: &str,
) -> Result<(), Misnamed>
    ensures some { OnOk result (1 ≤ number) }
    ensures there { OnOk result (number < length collection.old.book.state.tree.nodes) }
    ensures named { OnOk result (collection.new ≡ with_names collection.old
        (with_name collection.old.names number name.now)) }
    ensures misnamed { IfErr result (IsMisnamed collection.old number name.now) }
    ensures unchanged { OnErr result (collection.new ≡ collection.old) }
{
    if number == 0 || number >= collection.book.tree().node_count() {
        return Err(Misnamed::NoNode);
    }
    match collection.names.set(alloc, number, name) {
        Ok(()) => Ok(()),
        Err(unnamed) => Err(Misnamed::Unnamed(unnamed)),
    }
}
