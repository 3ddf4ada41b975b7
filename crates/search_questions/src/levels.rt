//! What a search keeps at each prefix from no choice on to where it stands.

ghost use Rattle.std.specs.Prelude.{◌≡◌, ◌≢◌, ◌<◌, ◌≤◌, ◌+◌, ◌++◌, ℕ, List, [], Option, Some, IfOk, IsSomeAnd, OnOk, length, slice_get};
ghost use Rattle.negotiation_inputs.specs.Participant.{Participant};
ghost use Rattle.search_questions.specs.Kept.{IsKeptFor, IsPartFor, HaveRoom};
ghost use Rattle.search_questions.specs.Standing.{AreMade, AreParts, IsFilled, IsLevel, IsSlot, IsWholeLevel, LaysOut};
ghost use Rattle.search_questions.specs.declared.kept.ChoiceShare.{ChoiceShare as AChoiceShare};
ghost use Rattle.search_questions.specs.declared.levels.Level.{Level as ALevel};
ghost use Rattle.sysmem_tree.specs.OpenGroups.{HasChild, HoldsNodes, share_of};

use crate::kept::{ChoiceShare, PrefixSum};
use crate::settling::add_settled;
use conflict_finding::Subject;
use std::alloc::AllocError;
use sysmem_tree::{ChildPlace, GroupPlace, Layout, MOST_NODES};

/// What is kept at a prefix. Those of longer prefixes are written over, so that a visit takes no
/// memory.
#[derive(Drop)]
pub(crate) struct Level {
    /// The first group that is open after the choices.
    pub(crate) group: Option<GroupPlace>,
    /// What is kept of the participants that they settle.
    pub(crate) kept: PrefixSum,
    /// The slot of the child that was chosen last; at no choice any.
    pub(crate) slot: usize,
}

/// Makes the level below this depth that of one choice more, which settles the part in a slot and
/// leaves this group open. Of pairs nothing is joined there.
pub(crate) fn join_level(
    levels: &mut Vec<Level>,
    subject: &Subject<'_>,
    depth: usize,
    slot: usize,
    part: &ChoiceShare,
    group: Option<GroupPlace>,
)
    requires there { depth + 1 < length levels.old.items }
    requires room { (above : ALevel) → slice_get levels.old.items depth ≡ Some above
        → HaveRoom above.kept part.now }
    ensures same { (k : ℕ) → k ≢ depth + 1
        → slice_get levels.new.items k ≡ slice_get levels.old.items k }
    ensures joined { (ps qs : List Participant) (above old : ALevel)
        → slice_get levels.old.items depth ≡ Some above
        → slice_get levels.old.items (depth + 1) ≡ Some old
        → IsKeptFor subject.now above.kept ps → IsPartFor subject.now part.now qs
        → (others : List Participant) → IsKeptFor subject.now old.kept others
        → IsSomeAnd (slice_get levels.new.items (depth + 1)) (λ level. (level.group ≡ group)
        × (level.slot ≡ slot) × IsKeptFor subject.now level.kept (ps ++ qs)) }
{
    let (above, below) = levels.split_at_mut(depth + 1);
    let level = &mut below[0];
    level.kept.join_of(subject, &above[depth].kept, part);
    level.group = group;
    level.slot = slot;
}

/// The level of no choice.
pub(crate) fn first_level(subject: &Subject<'_>, layout: &Layout) -> Result<Level, AllocError>
    requires { LaysOut subject.now layout.now }
    ensures level { IfOk result (λ level. IsLevel subject.now layout.now [] level) }
    ensures whole { IfOk result (IsWholeLevel subject.now) }
{
    subject.recall();
    let none = PrefixSum::new(subject)?;
    let mut part = ChoiceShare::new(subject)?;
    let walk = layout.settled_first();
    add_settled(&mut part, subject, layout, walk);
    let mut kept = PrefixSum::new(subject)?;
    kept.join_of(subject, &none, &part);
    kept.join_pairs(&none, &part, subject.platform().pairs().len());
    let group = layout.first_open();
    Ok(Level {
        group,
        kept,
        slot: 0,
    })
}

/// Has a level below this depth, whatever stands there.
pub(crate) fn reserve_level(
    levels: &mut Vec<Level>,
    depth: usize,
    subject: &Subject<'_>,
) -> Result<(), AllocError>
    requires there { depth < length levels.old.items }
    requires small { depth ≤ MOST_NODES }
    ensures there { OnOk result (depth + 1 < length levels.new.items) }
    ensures kept { (k : ℕ) → k ≤ depth
        → slice_get levels.new.items k ≡ slice_get levels.old.items k }
    ensures made { AreMade subject.now levels.old.items → AreMade subject.now levels.new.items }
{
    if depth + 1 < levels.len() {
        return Ok(());
    }
    add_level(levels, subject)
}

/// Has one level more. A visit that needs none isn't burdened with the memory that a new one takes
/// on the stack.
#[cold]
#[inline(never)]
fn add_level(levels: &mut Vec<Level>, subject: &Subject<'_>) -> Result<(), AllocError>
    ensures there { OnOk result (length levels.new.items ≡ length levels.old.items + 1) }
    ensures kept { (k : ℕ) → k < length levels.old.items
        → slice_get levels.new.items k ≡ slice_get levels.old.items k }
    ensures made { AreMade subject.now levels.old.items → AreMade subject.now levels.new.items }
{
    let kept = PrefixSum::new(subject)?;
    levels.push(Level {
        group: None,
        kept,
        slot: 0,
    })?;
    Ok(())
}

/// The slot in which what is kept of a child stands. The places of a domain are the last ones, so
/// that those of its children need few slots.
pub(crate) fn slot_of(child: ChildPlace) -> usize
    requires { child < MOST_NODES }
    ensures { IsSlot child result }
{
    MOST_NODES - 1 - child.number()
}

/// Has this slot, whatever is kept there; in a new one nothing is.
fn reserve_slot(parts: &mut Vec<Option<ChoiceShare>>, slot: usize) -> Result<(), AllocError>
    requires { slot < MOST_NODES }
    ensures there { OnOk result (slot < length parts.new.items) }
    ensures filled { (at : ℕ) → IsFilled parts.old.items at → IsFilled parts.new.items at }
    ensures kept { (at : ℕ) (part : AChoiceShare) → slice_get parts.new.items at ≡ Some (Some part)
        → slice_get parts.old.items at ≡ Some (Some part) }
{
    if slot < parts.len() {
        return Ok(());
    }
    parts.reserve(slot + 1 - parts.len())?;
    for _more in parts.len()..slot + 1 {
        parts.push(None)?;
    }
    Ok(())
}

/// Keeps what the choice of a child settles, if that isn't kept yet.
pub(crate) fn keep_part(
    parts: &mut Vec<Option<ChoiceShare>>,
    child: ChildPlace,
    subject: &Subject<'_>,
    layout: &Layout,
) -> Result<(), AllocError>
    requires within { child < MOST_NODES }
    requires child { HasChild layout.now child }
    requires few { length (share_of layout.now child) ≤ MOST_NODES }
    requires nodes { HoldsNodes layout.now subject.now.nodes }
    ensures parts { AreParts subject.now layout.now parts.old.items
        → AreParts subject.now layout.now parts.new.items }
    ensures filled { (at : ℕ) → IsFilled parts.old.items at → IsFilled parts.new.items at }
    ensures there { OnOk result ((slot : ℕ) → IsSlot child slot → (part : AChoiceShare)
        × (slice_get parts.new.items slot ≡ Some (Some part))) }
{
    let slot = slot_of(child);
    reserve_slot(parts, slot)?;
    if parts[slot].is_some() {
        return Ok(());
    }
    read_part(parts, slot, child, subject, layout)
}

/// Reads what the choice of a child settles, and keeps it in its slot. A visit that needn't read it
/// isn't burdened with the memory that a new part takes on the stack.
#[cold]
#[inline(never)]
fn read_part(
    parts: &mut Vec<Option<ChoiceShare>>,
    slot: usize,
    child: ChildPlace,
    subject: &Subject<'_>,
    layout: &Layout,
) -> Result<(), AllocError>
    requires within { child < MOST_NODES }
    requires slot { IsSlot child slot }
    requires room { slot < length parts.old.items }
    requires child { HasChild layout.now child }
    requires few { length (share_of layout.now child) ≤ MOST_NODES }
    requires nodes { HoldsNodes layout.now subject.now.nodes }
    ensures parts { AreParts subject.now layout.now parts.old.items
        → AreParts subject.now layout.now parts.new.items }
    ensures filled { (at : ℕ) → IsFilled parts.old.items at → IsFilled parts.new.items at }
    ensures there { OnOk result ((own : ℕ) → IsSlot child own → (part : AChoiceShare)
        × (slice_get parts.new.items own ≡ Some (Some part))) }
{
    parts[slot] = Some(ChoiceShare::new(subject)?);
    if let Some(part) = &mut parts[slot] {
        let walk = layout.settled_with(child);
        add_settled(part, subject, layout, walk);
    }
    Ok(())
}
