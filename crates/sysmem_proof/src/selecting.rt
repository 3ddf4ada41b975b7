//! Whether choices are a selection of a domain, and how many there are.

ghost use Rattle.std.specs.Prelude.{◌↔◌, ℕ, IsTrue};
ghost use Rattle.verdict_claims.specs.Fault.{AreFew, IsSelected};
ghost use Rattle.sysmem_tree.specs.Domain.{HasDomain};
ghost use Rattle.sysmem_tree.specs.Forest.{Forest};
ghost use Rattle.sysmem_tree.specs.Layout.{IsLayout};
ghost use Rattle.sysmem_tree.specs.Selection.{IsSelection};
ghost use Rattle.sysmem_tree.specs.Shape.{shape_of};

use sysmem_tree::laws::{one_forest, prefix_of_prefix};
use sysmem_tree::layout_laws::{
    children_are_choices, choices_leave_one_forest, none_open_is_selection,
};
use sysmem_tree::{DomainId, Layout, Prefix, Tree};
use verdict_claims::MOST_SELECTIONS;

/// Whether a domain has no more selections than a decision goes through.
pub(crate) fn are_few(tree: &Tree, domain: DomainId) -> bool
    requires { HasDomain tree.now.nodes domain }
    ensures { IsTrue result ↔ AreFew (shape_of tree.now.nodes domain) }
{
    one_forest();
    if tree.count_selections(domain) > MOST_SELECTIONS {
        return false;
    }
    true
}

/// Whether the choices are a selection of the forest that is laid out.
fn selects(layout: &Layout, choices: &[u8]) -> bool
    requires { (d : Forest ℕ) × IsLayout layout.now d }
    ensures { (d : Forest ℕ) → IsLayout layout.now d
        → IsTrue result ↔ ((e : Forest ℕ) × IsSelection d choices.now e) }
{
    prefix_of_prefix();
    none_open_is_selection();
    children_are_choices();
    let mut group = layout.first_open();
    for choice in choices {
        let Some(at) = group else {
            return false;
        };
        let (_, children) = layout.group_at(at);
        if u32::from(*choice) >= children {
            return false;
        }
        group = layout.open_after(layout.child_at(at, *choice));
    }
    group.is_none()
}

/// Whether the choices are a selection of a domain: a child for each group in effect.
pub(crate) fn is_selected(tree: &Tree, domain: DomainId, selection: &Prefix) -> bool
    requires { HasDomain tree.now.nodes domain }
    ensures { IsTrue result ↔ IsSelected (shape_of tree.now.nodes domain) selection.now }
{
    choices_leave_one_forest();
    selects(&tree.layout(domain), selection.choices())
}
