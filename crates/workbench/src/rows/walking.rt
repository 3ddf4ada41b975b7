//! Walks over a domain's layout, by one choice after the other.

ghost use Rattle.std.specs.Prelude.{ℕ, List, Some, IfOk};
ghost use Rattle.sysmem_tree.specs.Domain.{HasDomain};
ghost use Rattle.sysmem_tree.specs.Forest.{Forest};
ghost use Rattle.sysmem_tree.specs.Node.{NodeFacts};
ghost use Rattle.sysmem_tree.specs.OpenGroups.{HasChild, HasLeft, HoldsNodes, IsChildPlace, IsFirstOpen};

use super::nodes::push_node;
use crate::failure::Failure;
use std::alloc::AllocError;
use sysmem_tree::{
    ChildPlace, DomainId, GroupPlace, Layout, MOST_NODES, Prefix, SettledNodes, Tree,
};

/// What no choice settles, and then what each choice of the prefix does, in pre-order; after each
/// the group that is open then.
pub(super) fn walk(
    text: &mut String,
    tree: &Tree,
    domain: DomainId,
    prefix: &Prefix,
) -> Result<(), Failure>
    requires { HasDomain tree.now.nodes domain }
{
    let layout = tree.layout(domain);
    text.push_str("settled")?;
    push_nodes(text, tree, &layout, layout.settled_first())?;
    let mut open = layout.first_open();
    for choice in prefix.choices() {
        let Some(group) = open else {
            return Err(Failure::NoGroup);
        };
        push_group(text, tree, &layout, group)?;
        let child = child(&layout, group, *choice)?;
        push_nodes(text, tree, &layout, layout.settled_with(child))?;
        open = layout.open_after(child);
    }
    match open {
        Some(group) => push_group(text, tree, &layout, group)?,
        None => text.push_str(" whole")?,
    }
    Ok(())
}

/// Writes the paths of the nodes that a walk gives.
fn push_nodes(
    text: &mut String,
    tree: &Tree,
    layout: &Layout,
    walk: SettledNodes,
) -> Result<(), AllocError>
    requires left { (ns : List ℕ) × HasLeft layout.now walk ns }
    requires nodes { HoldsNodes layout.now tree.now.nodes }
{
    let mut walk = walk;
    for _ in 0..MOST_NODES {
        let Some(node) = layout.next_settled(&mut walk) else {
            break;
        };
        push_node(text, tree, node)?;
    }
    Ok(())
}

/// Writes which group is open, and how many children it has.
fn push_group(
    text: &mut String,
    tree: &Tree,
    layout: &Layout,
    group: GroupPlace,
) -> Result<(), AllocError>
    requires open { (d : Forest ℕ) × (cs : List ℕ) × IsFirstOpen layout.now d cs (Some group) }
    requires nodes { HoldsNodes layout.now tree.now.nodes }
{
    let (node, children) = layout.group_at(group);
    text.push_str(", group")?;
    push_node(text, tree, node)?;
    write!(text, " of {children}:")
}

/// A child of an open group; an error where it has no such child.
fn child(layout: &Layout, group: GroupPlace, choice: u8) -> Result<ChildPlace, Failure>
    requires { (d : Forest ℕ) × (cs : List ℕ) × IsFirstOpen layout.now d cs (Some group) }
    ensures there { IfOk result (λ child. HasChild layout.now child) }
    ensures child { IfOk result (λ child. (d : Forest ℕ) (cs : List ℕ)
        → IsFirstOpen layout.now d cs (Some group) → IsChildPlace layout.now d cs choice child) }
{
    let (_, children) = layout.group_at(group);
    if u32::from(choice) >= children {
        return Err(Failure::NoChild);
    }
    Ok(layout.child_at(group, choice))
}
