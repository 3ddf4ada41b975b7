//! One line and its answer.

ghost use Rattle.std.specs.Prelude.{[], IfSome};
ghost use Rattle.sysmem_tree.specs.Domain.{HasDomain};
ghost use Rattle.sysmem_tree.specs.Nodes.{HasNode};
ghost use Rattle.sysmem_tree.specs.Selection.{IsPrefix};
ghost use Rattle.sysmem_tree.specs.Shape.{by_number, forest_of};

use super::actions::{action_of, push_domains};
use super::asking::{members, next_group, settled, shape};
use super::choosing::{choices_of, decide, prefix_of};
use super::nodes::node_at;
use super::walking::walk;
use crate::failure::Failure;
use std::alloc::{AllocError, Global};
use sysmem_tree::{DomainId, Event, NodeId, Prefix, Tree};

/// Plays a line and writes what is answered.
pub(super) fn answer(
    alloc: Global,
    text: &mut String,
    tree: &mut Tree,
    line: &str,
) -> Result<(), Failure> {
    let Some((path, words)) = line.split_once(' ') else {
        return Err(Failure::NoWord);
    };
    let Some(node) = node_at(alloc, tree, path)? else {
        text.push_str("no node")?;
        return Ok(());
    };
    match words.split_once(' ') {
        Some((word, choices)) => chosen(text, tree, node, word, choices),
        None => acted(alloc, text, tree, node, words),
    }
}

/// What a line with a prefix asks for.
fn chosen(
    text: &mut String,
    tree: &mut Tree,
    node: NodeId,
    word: &str,
    choices: &str,
) -> Result<(), Failure>
    requires { HasNode tree.old.nodes node }
{
    let domain = tree.domain_of(node);
    let choices = choices_of(choices)?;
    let written = if word == "members" {
        members(text, tree, domain, &choices)
    } else {
        match prefix_of(tree, domain, choices.choices()) {
            Some(prefix) => return of_prefix(text, tree, domain, word, prefix),
            None => text.push_str("no prefix"),
        }
    };
    Ok(written?)
}

/// What a line asks for with a prefix that the domain has.
fn of_prefix(
    text: &mut String,
    tree: &mut Tree,
    domain: DomainId,
    word: &str,
    prefix: Prefix,
) -> Result<(), Failure>
    requires domain { HasDomain tree.old.nodes domain }
    requires prefix { IsPrefix (forest_of by_number tree.old.nodes domain []) prefix }
{
    let written = match word {
        "next" => next_group(text, tree, domain, &prefix),
        "settled" => settled(text, tree, domain, &prefix),
        "walk" => return walk(text, tree, domain, &prefix),
        "chosen" => decided(text, tree, domain, Some(prefix)),
        "try" => decided(text, &mut tree.copy()?, domain, Some(prefix)),
        _ => return Err(Failure::NoSuchWord),
    };
    Ok(written?)
}

/// What a line without a prefix asks for.
fn acted(
    alloc: Global,
    text: &mut String,
    tree: &mut Tree,
    node: NodeId,
    word: &str,
) -> Result<(), Failure>
    requires { HasNode tree.old.nodes node }
{
    let domain = tree.domain_of(node);
    let written = match word {
        "selections" => write!(text, "{}", tree.count_selections(domain)),
        "shape" => shape(text, tree, domain),
        "none" => decided(text, tree, domain, None),
        _ => {
            let action = action_of(alloc, word)?;
            match tree.apply(Event { node, action }) {
                Ok(_made) => told(text, tree, "ok"),
                Err(refusal) => told(text, tree, refusal.name()),
            }
        }
    };
    Ok(written?)
}

/// Decides a domain for a selection, or for none.
fn decided(
    text: &mut String,
    tree: &mut Tree,
    domain: DomainId,
    selection: Option<Prefix>,
) -> Result<(), AllocError>
    requires there { HasDomain tree.old.nodes domain }
    requires prefix { IfSome selection
        (λ prefix. IsPrefix (forest_of by_number tree.old.nodes domain []) prefix) }
{
    let answer = decide(tree, domain, selection);
    told(text, tree, answer)
}

/// `ok` or why not, and how the domains stand.
fn told(text: &mut String, tree: &Tree, answer: &str) -> Result<(), AllocError> {
    text.push_str(answer)?;
    push_domains(text, tree)
}
