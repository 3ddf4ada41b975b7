//! Lines that name one participant each, kept so that nobody's path is made twice.

ghost use Rattle.std.specs.Prelude.{◌≡◌, ◌++◌, List, [], ◌∷◌, IfOk, IfSome, OnOk};
ghost use Rattle.conflict_finding.specs.AloneLines.{AreAlone, AreInSlots, NamesOne};
ghost use Rattle.conflict_finding.specs.Whom.{line_on};
ghost use Rattle.sysmem_tree.specs.Node.{NodeFacts};
ghost use Rattle.sysmem_tree.specs.Nodes.{HasNode};

use crate::whom::{Whom, is_named};
use std::alloc::{AllocError, Global};
use sysmem_counts::Field;
use sysmem_tree::{NodeId, Tree};
use verdict_claims::{Line, PathList};

/// A line that names the participant at the node of this number.
#[derive(Drop)]
pub(crate) struct Alone {
    number: u32,
    line: Line,
}

/// Such lines of participants of a tree, by the numbers of their nodes. There are slots up to the
/// greatest of those that are kept.
#[derive(Drop)]
pub(crate) struct AloneLines {
    slots: Vec<Option<Alone>>,
}

impl AloneLines {
    /// Nobody's.
    pub(crate) fn new(alloc: Global) -> AloneLines
        ensures { (nodes : List NodeFacts) → AreAlone nodes result }
    {
        AloneLines {
            slots: Vec::new(alloc),
        }
    }

    /// What is kept for the node of this number.
    fn kept(&self, number: u32) -> Option<&Alone>
        ensures number { IfSome result (λ alone. alone.now.number ≡ number) }
        ensures names { (nodes : List NodeFacts) → AreAlone nodes self.now
            → IfSome result (λ alone. NamesOne nodes alone.now) }
    {
        let Some(Some(alone)) = self.slots.get(number as usize) else {
            return None;
        };
        if alone.number != number {
            return None;
        }
        Some(alone)
    }

    /// Keeps the line for the node of this number.
    fn keep(&mut self, alone: Alone) -> Result<(), AllocError>
        ensures { (nodes : List NodeFacts) → NamesOne nodes alone
            → AreAlone nodes self.old → AreAlone nodes self.new }
    {
        let slot = alone.number as usize;
        reserve_slot(&mut self.slots, slot)?;
        if slot < self.slots.len() {
            self.slots[slot] = Some(alone);
        }
        Ok(())
    }
}

/// Has this slot; in a new one nothing is.
fn reserve_slot(slots: &mut Vec<Option<Alone>>, slot: usize) -> Result<(), AllocError>
    ensures { (nodes : List NodeFacts) → AreInSlots nodes slots.old.items
        → AreInSlots nodes slots.new.items }
{
    for _more in slots.len()..slot.saturating_add(1) {
        slots.push(None)?;
    }
    Ok(())
}

/// The line of this field that names the participant at a node of the tree.
fn line_at(alloc: Global, tree: &Tree, node: NodeId, field: Field) -> Result<Line, AllocError>
    requires { HasNode tree.now.nodes node }
    ensures { IfOk result (λ line. line ≡ line_on tree.now.nodes (node ∷ []) field Whom.All) }
{
    if !is_named(Whom::All, tree.constraints_of(node)) {
        return Line::new(alloc, field, PathList::new(alloc));
    }
    let path = tree.path_of(node)?;
    Line::new(alloc, field, PathList::alone(alloc, path.ordinals())?)
}

/// The line of this field that names the participant at a node of the tree. Where a line is kept
/// that names him, both have one path.
pub(crate) fn line_alone(
    alloc: Global,
    tree: &Tree,
    node: NodeId,
    field: Field,
    alone: &mut AloneLines,
) -> Result<Line, AllocError>
    requires there { HasNode tree.now.nodes node }
    requires alone { AreAlone tree.now.nodes alone.old }
    ensures alone { AreAlone tree.now.nodes alone.new }
    ensures line { IfOk result (λ line.
        line ≡ line_on tree.now.nodes (node ∷ []) field Whom.All) }
{
    let number = tree.number_of(node);
    if let Some(kept) = alone.kept(number) {
        let shared = kept.line.headed(field)?;
        return Ok(shared);
    }
    let line = line_at(alloc, tree, node, field)?;
    let again = line.again()?;
    alone.keep(Alone {
        number,
        line: again,
    })?;
    Ok(line)
}

/// Puts the path of the participant at a node of the tree behind these, as the line of this field
/// names him alone. Where a line is kept that names him, its path is taken.
pub(crate) fn put_alone(
    alloc: Global,
    tree: &Tree,
    node: NodeId,
    field: Field,
    paths: &mut PathList,
    alone: &mut AloneLines,
) -> Result<(), AllocError>
    requires there { HasNode tree.now.nodes node }
    requires alone { AreAlone tree.now.nodes alone.old }
    ensures alone { AreAlone tree.now.nodes alone.new }
    ensures paths { OnOk result (paths.new
        ≡ paths.old ++ (line_on tree.now.nodes (node ∷ []) field Whom.All).nodes) }
{
    let number = tree.number_of(node);
    if let Some(kept) = alone.kept(number) {
        paths.join(kept.line.nodes())?;
        return Ok(());
    }
    let line = line_at(alloc, tree, node, field)?;
    paths.join(line.nodes())?;
    alone.keep(Alone { number, line })?;
    Ok(())
}
