//! Links from node to node within a domain.

ghost use Rattle.std.specs.Prelude.{◌≡◌, ◌+◌, ◌<◌, length};
ghost use Rattle.sysmem_tree.specs.Links.{AreLinks, parent_in};
ghost use Rattle.sysmem_tree.specs.Nodes.{IsTree};

use crate::node::Node;
use crate::tree::MOST_NODES;

/// Which of a domain's nodes are children of one node, each by its number, a byte.
#[derive(Drop)]
pub(crate) struct Links {
    /// For each node the first of its children.
    pub(crate) first: [Option<u8>; MOST_NODES],
    /// For each child the one that was made next.
    pub(crate) next: [Option<u8>; MOST_NODES],
}

/// The parent of a node, where that node is of the domain.
fn parent_in(node: &Node, domain: usize) -> Option<usize>
    ensures { result ≡ parent_in domain node.now }
{
    let birth = node.birth?;
    if node.domain == domain {
        Some(birth.parent)
    } else {
        None
    }
}

impl Links {
    /// Of the nodes below the root of a domain, in one pass over the nodes, from the last one on.
    pub(crate) fn new(nodes: &[Node], root: usize) -> Links
        requires tree { IsTree nodes.now }
        requires there { root < length nodes.now }
        ensures { AreLinks nodes.now root (root + 1) result }
    {
        let mut links = Links {
            first: [None; MOST_NODES],
            next: [None; MOST_NODES],
        };
        let mut number = nodes.len();
        while number > root + 1 {
            number -= 1;
            if let Some(parent) = parent_in(&nodes[number], root) {
                links.next[number] = links.first[parent];
                links.first[parent] = Some(number as u8);
            }
        }
        links
    }
}
