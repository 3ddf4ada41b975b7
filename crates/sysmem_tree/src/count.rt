//! How many selections there are.

ghost use Rattle.std.specs.Prelude.{◌≡◌, ◌<◌, ◌^◌, ◌-◌, ◌+◌, ℕ, [], IfSome, length, min};
ghost use Rattle.sysmem_tree.specs.Shape.{by_number, forest_of};
ghost use Rattle.sysmem_tree.specs.Layout.{count_as};
ghost use Rattle.sysmem_tree.specs.Links.{AreLinks, IsBelow, siblings_from};
ghost use Rattle.sysmem_tree.specs.Forest.{count as count_of};
ghost use Rattle.sysmem_tree.specs.Nodes.{IsTree};

use crate::layout::has_alternatives;
use crate::links::Links;
use crate::node::Node;

/// How many selections there are of children of a node, from the first of them on; at most
/// `u64::MAX`.
fn count_children(nodes: &[Node], links: &Links, first: Option<u8>, is_group: bool) -> u64
    requires tree { IsTree nodes.now }
    requires links { (root : ℕ) × AreLinks nodes.now root (root + 1) links.now
        × IfSome first (IsBelow nodes.now root) }
    ensures { result ≡ min (count_as is_group (siblings_from nodes.now first)) (2 ^ 64 - 1) }
{
    let Some(own) = first else {
        return if is_group { 0 } else { 1 };
    };
    let number = own as usize;
    let rest = count_children(nodes, links, links.next[number], is_group);
    let is_alternatives = has_alternatives(&nodes[number]);
    let own = count_children(nodes, links, links.first[number], is_alternatives);
    if is_group {
        own.saturating_add(rest)
    } else {
        own.saturating_mul(rest)
    }
}

/// How many selections the domain of this root has; at most `u64::MAX`.
pub(crate) fn count_selections(nodes: &[Node], root: usize) -> u64
    requires tree { IsTree nodes.now }
    requires there { root < length nodes.now }
    ensures { result ≡ min (count_of (forest_of by_number nodes.now root [])) (2 ^ 64 - 1) }
{
    let links = Links::new(nodes, root);
    count_children(
        nodes,
        &links,
        links.first[root],
        has_alternatives(&nodes[root]),
    )
}
