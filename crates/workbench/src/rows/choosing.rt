//! Prefixes as text, and decisions.

ghost use Rattle.std.specs.Prelude.{[], IfSome};
ghost use Rattle.sysmem_tree.specs.Domain.{HasDomain};
ghost use Rattle.sysmem_tree.specs.Selection.{IsPrefix};
ghost use Rattle.sysmem_tree.specs.Shape.{by_number, forest_of};

use crate::decisions::choose;
use crate::failure::Failure;
use sysmem_tree::{DomainId, Fate, Prefix, Tree};

/// The choices of a text such as `-` or `0.2`, whether some domain has such a prefix or not.
pub(super) fn choices_of(text: &str) -> Result<Prefix, Failure> {
    let mut choices = Prefix::new();
    if text == "-" {
        return Ok(choices);
    }
    for choice in text.split('.') {
        let Ok(choice) = choice.parse::<u8>() else {
            return Err(Failure::NoNumber);
        };
        if choices.is_full() {
            return Err(Failure::TooManyChoices);
        }
        choices.push(choice);
    }
    Ok(choices)
}

/// The prefix of these choices; `None` where the domain has no such prefix.
pub(super) fn prefix_of(tree: &Tree, domain: DomainId, choices: &[u8]) -> Option<Prefix>
    requires { HasDomain tree.now.nodes domain }
    ensures { IfSome result
        (λ prefix. IsPrefix (forest_of by_number tree.now.nodes domain []) prefix) }
{
    let mut prefix = Prefix::new();
    for choice in choices {
        if !choose(tree, domain, &mut prefix, *choice) {
            return None;
        }
    }
    Some(prefix)
}

/// Decides a domain for a selection, or for none: `ok`, or why it can't be decided so.
pub(super) fn decide(tree: &mut Tree, domain: DomainId, selection: Option<Prefix>) -> &'static str
    requires there { HasDomain tree.old.nodes domain }
    requires prefix { IfSome selection
        (λ prefix. IsPrefix (forest_of by_number tree.old.nodes domain []) prefix) }
{
    if !tree.is_ready(domain) {
        return "not ready";
    }
    let Fate::Undecided = tree.fate(domain) else {
        return "decided";
    };
    let Some(prefix) = selection else {
        tree.decide(domain, None);
        return "ok";
    };
    if tree.next_group(domain, &prefix).is_some() {
        return "no selection";
    }
    tree.decide(domain, Some(prefix.choices()));
    "ok"
}
