//! The cells in which the outcomes of domains are published.

ghost use Rattle.std.specs.Prelude.{◌≡◌, ◌<◌, ◌+◌, true, is_some, if◌then◌else◌, IfSome, length};
ghost use Rattle.std.specs.Vec.{vec_capacity, vec_len};

use crate::outcome::Outcome;
use once_cell::race::OnceBox;
use std::alloc::{AllocError, Global};
use std::sync::Arc;
use sysmem_tree::{ActionKind, DomainId, Tree};

/// An empty cell with the memory in which the outcome will lie, so that to set it takes none.
pub struct FreshCell {
    cell: Arc<OnceBox<Outcome>>,
    place: Box<Outcome>,
}

impl Drop for FreshCell {
    fn drop(self) {
        let FreshCell { cell: _, place: _ } = self;
    }
}

impl FreshCell {
    /// A cell for a domain that is to be made; `AllocError` where memory is refused.
    pub fn new(alloc: Global) -> Result<FreshCell, AllocError> {
        let cell = Arc::new(alloc, OnceBox::new(alloc))?;
        let place = Box::new(alloc, Outcome::NoMemory)?;
        Ok(FreshCell { cell, place })
    }

    /// The cell, with one more owner; `AllocError` where the count of its owners has no room.
    pub fn shared(&self) -> Result<Arc<OnceBox<Outcome>>, AllocError> {
        Arc::try_clone(&self.cell)
    }

    /// For the domain that was made.
    pub(crate) fn kept(self) -> DomainCell {
        let FreshCell { cell, place } = self;
        DomainCell {
            cell,
            place: Some(place),
        }
    }
}

/// The cell of a domain; until it is set, with the memory in which the outcome will lie.
#[derive(Drop)]
pub(crate) struct DomainCell {
    cell: Arc<OnceBox<Outcome>>,
    place: Option<Box<Outcome>>,
}

impl DomainCell {
    /// Sets the cell, if it isn't set yet.
    fn set(&mut self, outcome: Outcome) {
        let Some(mut place) = self.place.take() else {
            return;
        };
        *place = outcome;
        let _again = self.cell.set(place);
    }
}

/// The index of a domain, in the order in which their roots were made.
fn index_of(tree: &Tree, domain: DomainId) -> Option<usize>
    ensures { IfSome result (λ index. index < length tree.now.domains) }
{
    for index in 0..tree.domain_count() {
        if tree.domain_at(index) == Some(domain) {
            return Some(index as usize);
        }
    }
    None
}

/// Adds the cell of a domain that was made, if one was.
pub(crate) fn keep(cells: &mut Vec<DomainCell>, fresh: Option<FreshCell>)
    requires { is_some fresh ≡ true → vec_len cells.old < vec_capacity cells.old }
    ensures number { vec_len cells.new
        ≡ vec_len cells.old + (if is_some fresh then 1 else 0) }
    ensures room { vec_capacity cells.new ≡ vec_capacity cells.old }
{
    if let Some(one) = fresh {
        cells.push_reserved(one.kept());
    }
}

/// Sets the cells of the domains that have failed, in the order in which their roots were made; a
/// cell that is set stays as it is. The cells are those of the tree's domains, in that order.
fn publish_failed(cells: &mut [DomainCell], tree: &Tree)
    requires { length cells.old ≡ length tree.now.domains }
    ensures { length cells.new ≡ length cells.old }
{
    let have_failed = tree.failed_domains();
    for index in 0..tree.domain_count() {
        if have_failed[index as usize] {
            cells[index as usize].set(Outcome::Failed);
        }
    }
}

/// Publishes what an action of this kind has made fail; only a close does.
pub(crate) fn publish_action(cells: &mut [DomainCell], tree: &Tree, kind: ActionKind)
    requires { length cells.old ≡ length tree.now.domains }
    ensures { length cells.new ≡ length cells.old }
{
    if kind == ActionKind::Close {
        publish_failed(cells, tree);
    }
}

/// Publishes what became of a domain by its decision, and of those that failed by it.
pub(crate) fn publish_decision(
    cells: &mut [DomainCell],
    tree: &Tree,
    domain: DomainId,
    outcome: Outcome,
)
    requires { length cells.old ≡ length tree.now.domains }
    ensures { length cells.new ≡ length cells.old }
{
    if let Some(index) = index_of(tree, domain) {
        cells[index].set(outcome);
    }
    publish_failed(cells, tree);
}
