//! Actions as words, and how the domains stand.

use crate::failure::Failure;
use negotiation_inputs::Constraints;
use serde_json::Value;
use std::alloc::{AllocError, Global};
use std::sync::Arc;
use sysmem_sanitise::read_constraints;
use sysmem_tree::{Action, ActionKind, Fate, Tree};

/// The action of this word. Constraints are those of a participant with the usage cpu; `set_none`
/// sets none.
pub(super) fn action_of(alloc: Global, word: &str) -> Result<Action, Failure> {
    Ok(match word {
        "set_constraints" => Action::SetConstraints(Some(cpu(alloc)?)),
        "set_none" => Action::SetConstraints(None),
        _ => match ActionKind::from_name(word) {
            Some(kind) => Action::plain(kind),
            None => return Err(Failure::NoSuchWord),
        },
    })
}

fn cpu(alloc: Global) -> Result<Arc<Constraints>, Failure> {
    let Ok(record) = Value::from_str(alloc, r#"{"usage":["cpu"]}"#) else {
        return Err(Failure::NotJson);
    };
    let Ok(constraints) = read_constraints(alloc, &record) else {
        return Err(Failure::Constraints);
    };
    Ok(Arc::new(alloc, constraints)?)
}

/// Writes after a text how each domain stands.
pub(super) fn push_domains(text: &mut String, tree: &Tree) -> Result<(), AllocError> {
    text.push(' ')?;
    for index in 0..tree.domain_count() {
        let Some(domain) = tree.domain_at(index) else {
            break;
        };
        text.push(match tree.fate(domain) {
            Fate::Undecided if tree.is_ready(domain) => 'r',
            Fate::Undecided => 'u',
            Fate::Failed => 'f',
            Fate::Chosen => 'c',
            Fate::NoneChosen => 'n',
        })?;
    }
    Ok(())
}
