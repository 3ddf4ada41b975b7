//! What a tree tells of a domain.

ghost use Rattle.std.specs.Prelude.{[]};
ghost use Rattle.sysmem_tree.specs.Domain.{HasDomain};
ghost use Rattle.sysmem_tree.specs.Selection.{IsPrefix};
ghost use Rattle.sysmem_tree.specs.Shape.{by_number, forest_of};

use super::nodes::push_node;
use certificate_text::push_path;
use std::alloc::AllocError;
use sysmem_tree::{DomainId, NodeKind, Prefix, Tree};

/// The group that is next after a prefix, and how many children it has.
pub(super) fn next_group(
    text: &mut String,
    tree: &Tree,
    domain: DomainId,
    prefix: &Prefix,
) -> Result<(), AllocError>
    requires domain { HasDomain tree.now.nodes domain }
    requires prefix { IsPrefix (forest_of by_number tree.now.nodes domain []) prefix.now }
{
    let Some((group, children)) = tree.next_group(domain, prefix) else {
        return text.push_str("none");
    };
    push_path(text, tree.path_of(group)?.ordinals())?;
    write!(text, " {children}")
}

/// The nodes with constraints that a prefix settles.
pub(super) fn settled(
    text: &mut String,
    tree: &Tree,
    domain: DomainId,
    prefix: &Prefix,
) -> Result<(), AllocError>
    requires domain { HasDomain tree.now.nodes domain }
    requires prefix { IsPrefix (forest_of by_number tree.now.nodes domain []) prefix.now }
{
    text.push_str("settled")?;
    for number in 0..tree.node_count() {
        let Some(node) = tree.node(number) else {
            break;
        };
        if tree.settled(domain, prefix, node) {
            push_node(text, tree, node)?;
        }
    }
    Ok(())
}

/// The nodes that choices settle.
pub(super) fn members(
    text: &mut String,
    tree: &Tree,
    domain: DomainId,
    choices: &Prefix,
) -> Result<(), AllocError>
    requires { HasDomain tree.now.nodes domain }
{
    text.push_str("members")?;
    for number in 0..tree.node_count() {
        let Some(node) = tree.node(number) else {
            break;
        };
        if tree.is_member(domain, choices, node) {
            push_node(text, tree, node)?;
        }
    }
    Ok(())
}

/// The nodes of a domain, with their kinds and whether they set constraints, as a copy of the tree
/// has them.
pub(super) fn shape(text: &mut String, tree: &Tree, domain: DomainId) -> Result<(), AllocError> {
    text.push_str("shape")?;
    push_shape(text, &tree.copy()?, domain)
}

fn push_shape(text: &mut String, tree: &Tree, domain: DomainId) -> Result<(), AllocError> {
    for number in 0..tree.node_count() {
        let Some(node) = tree.node(number) else {
            break;
        };
        if tree.domain_of(node) != domain {
            continue;
        }
        push_node(text, tree, node)?;
        text.push(match tree.kind(node) {
            NodeKind::Token => 't',
            NodeKind::Group => 'g',
            NodeKind::Collection => 'c',
        })?;
        if tree.constraints_of(node).is_some() {
            text.push('+')?;
        }
    }
    Ok(())
}
