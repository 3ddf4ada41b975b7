//! Names of nodes, by their paths.

ghost use Rattle.std.specs.Prelude.{◌≡◌, IfErr, IfSome, IsSome, MatchOption, OnErr, OnOk};
ghost use Rattle.live_book.specs.Collection.{with_names};
ghost use Rattle.live_book.specs.Naming.{IsMisnamed};
ghost use Rattle.live_book.specs.declared.naming.Misnamed.TheVariants.{NoNode};
ghost use Rattle.node_names.specs.Names.{with_name};
ghost use Rattle.sysmem_tree.specs.Path.{node_at};

use live_book::{Collection, Misnamed, set_name};
use std::alloc::Global;

/// The number of the node at a path.
fn number_at(collection: &Collection, path: &[u32]) -> Option<u32>
    ensures { result ≡ node_at collection.now.book.state.tree.nodes path.now }
{
    let tree = collection.book().tree();
    match tree.node_at(path) {
        Some(node) => Some(tree.number_of(node)),
        None => None,
    }
}

/// Gives the node at a path a name, in the place of the one that it had; or says why not, and then
/// nothing has changed.
pub fn set_name_at(
    alloc: Global,
    collection: &mut Collection,
    path: &[u32],
    name: &str,
) -> Result<(), Misnamed>
    ensures there { OnOk result (IsSome (node_at collection.old.book.state.tree.nodes path.now)) }
    ensures named { OnOk result (IfSome (node_at collection.old.book.state.tree.nodes path.now)
        (λ node. collection.new ≡ with_names collection.old
        (with_name collection.old.names node name.now))) }
    ensures misnamed { IfErr result (λ why. MatchOption
        (node_at collection.old.book.state.tree.nodes path.now) (why ≡ NoNode)
        (λ node. IsMisnamed collection.old node name.now why)) }
    ensures unchanged { OnErr result (collection.new ≡ collection.old) }
{
    match number_at(collection, path) {
        Some(number) => set_name(alloc, collection, number, name),
        None => Err(Misnamed::NoNode),
    }
}
