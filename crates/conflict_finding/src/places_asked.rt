//! What participants were asked about places, so that nobody is asked twice.

ghost use Rattle.std.specs.Prelude.{◌≡◌, ◌<◌, true, List, [], Some, All, Any, IfNone, IfOk, IfSome, IsSomeAnd, option_map, slice_get};
ghost use Rattle.std.specs.List.{cons_option};
ghost use Rattle.sysmem_memory.specs.Heap.{HeapFacts};
ghost use Rattle.sysmem_memory.specs.PlaceTable.{AllowsPlace, first_refusing, refuses_by};
ghost use Rattle.conflict_finding.specs.PlacesAsked.{AreAsked, AreSlots, IsAsked, IsPlaceAnswer};
ghost use Rattle.sysmem_tree.specs.Node.{NodeFacts};
ghost use Rattle.sysmem_tree.specs.Nodes.{HasNode};

use crate::participants::Participants;
use negotiation_inputs::{Constraints, Platform};
use std::alloc::{AllocError, Global};
use sysmem_counts::Field;
use sysmem_memory::{CoherencyDomain, HeapInfo, MOST_HEAPS, Place, refuses};
use sysmem_tree::NodeId;

/// For how many participants there are slots.
const MANY: usize = 64;

/// What the participant at the node of this number said of a place: the first
/// field that refuses it, if one does.
#[derive(Clone, Copy)]
pub(crate) struct KeptAnswer {
    number: u32,
    place: Place,
    refused: Option<Field>,
}

/// What participants of a tree said of places of a platform. Where two questions share a
/// slot, the last answer stands there.
#[derive(Drop)]
pub(crate) struct PlacesAsked {
    /// Whether a conflict was looked for before.
    is_used: bool,
    slots: Vec<Option<KeptAnswer>>,
}

impl PlacesAsked {
    /// Nobody was asked.
    pub(crate) fn new(alloc: Global) -> PlacesAsked
        ensures { (nodes : List NodeFacts) (heaps : List HeapFacts) → AreAsked nodes heaps result }
    {
        PlacesAsked {
            is_used: false,
            slots: Vec::new(alloc),
        }
    }

    /// Looks for one more conflict. Answers are kept from the second one
    /// on: of one alone none comes again.
    pub(crate) fn begin(&mut self, platform: &Platform) -> Result<(), AllocError>
        ensures { (nodes : List NodeFacts) (heaps : List HeapFacts)
            → AreAsked nodes heaps self.old → AreAsked nodes heaps self.new }
    {
        if self.is_used && self.slots.is_empty() {
            let many = slots_for(platform);
            self.slots = empty_slots(*self.slots.allocator(), many)?;
        }
        self.is_used = true;
        Ok(())
    }

    /// The first field that refuses the place to the participant at a node, of whom these
    /// constraints are, if there is one.
    pub(crate) fn answer(
        &mut self,
        those: &Participants<'_>,
        node: NodeId,
        constraints: Option<&Constraints>,
        place: Place,
        heap: &HeapInfo,
    ) -> Option<Field>
        requires there { HasNode those.now.tree.now.nodes node }
        requires constraints { IfSome (slice_get those.now.tree.now.nodes node)
            (λ n. option_map (λ one. one.now) constraints ≡ n.constraints) }
        requires heap { slice_get those.now.platform.now.heaps place.heap ≡ Some heap.now }
        requires asked { AreAsked those.now.tree.now.nodes those.now.platform.now.heaps self.old }
        ensures asked { AreAsked those.now.tree.now.nodes those.now.platform.now.heaps self.new }
        ensures answer { IsPlaceAnswer (option_map (λ one. one.now) constraints.entry) heap.now
            place.coherency result }
    {
        let number = those.tree.number_of(node);
        let slot = slot_of(those.platform, number, place);
        if let Some(asked) = self.kept(slot, number, place) {
            return asked.refused;
        }
        let refused = refused_place(constraints, heap, place.coherency);
        self.keep(
            slot,
            KeptAnswer {
                number,
                place,
                refused,
            },
        );
        refused
    }

    /// What is kept in this slot, if it is of this participant and place.
    fn kept(&self, slot: usize, number: u32, place: Place) -> Option<KeptAnswer>
        ensures number { IfSome result (λ asked. asked.number ≡ number) }
        ensures place { IfSome result (λ asked. asked.place ≡ place) }
        ensures asked { (nodes : List NodeFacts) (heaps : List HeapFacts)
            → AreAsked nodes heaps self.now → IfSome result (IsAsked nodes heaps) }
    {
        let asked = (*self.slots.get(slot)?)?;
        if asked.number != number || asked.place != place {
            return None;
        }
        Some(asked)
    }

    /// Keeps this in the slot, if it is there.
    fn keep(&mut self, slot: usize, asked: KeptAnswer)
        ensures { (nodes : List NodeFacts) (heaps : List HeapFacts) → IsAsked nodes heaps asked
            → AreAsked nodes heaps self.old → AreAsked nodes heaps self.new }
    {
        if slot < self.slots.len() {
            self.slots[slot] = Some(asked);
        }
    }
}

/// The first field that refuses a participant, if there is one, the coherency domain of the heap.
fn refused_place(
    asked: Option<&Constraints>,
    heap: &HeapInfo,
    domain: CoherencyDomain,
) -> Option<Field>
    ensures refused { IfSome result (λ field.
        Any (λ p. refuses_by field p.memory p.usage heap.now domain ≡ true)
        (cons_option (option_map (λ one. one.now) asked.entry) [])) }
    ensures allowed { IfNone result (All (λ p. AllowsPlace p.memory p.usage heap.now domain)
        (cons_option (option_map (λ one. one.now) asked.entry) [])) }
    ensures first { IfSome result (λ field.
        IsSomeAnd (option_map (λ one. one.now) asked.entry)
        (λ p. first_refusing p.memory p.usage heap.now domain ≡ Some field)) }
{
    let one = asked?;
    refuses(one.memory(), one.usage(), heap, domain)
}

/// How many slots a platform needs: for each heap one for each of so many participants,
/// which the domains of a heap share.
fn slots_for(platform: &Platform) -> usize
    ensures { 0 < result }
{
    MANY * platform.heaps().len().min(MOST_HEAPS).max(1)
}

/// The slot for what this participant says of the place.
fn slot_of(platform: &Platform, number: u32, place: Place) -> usize {
    let domain = match place.coherency {
        CoherencyDomain::Cpu => 0,
        CoherencyDomain::Ram => 1,
        CoherencyDomain::Inaccessible => 2,
    };
    let of_heap = place.heap.wrapping_mul(3).wrapping_add(domain);
    let of_each = platform.heaps().len().wrapping_mul(3);
    let of_all = (number as usize)
        .wrapping_mul(of_each)
        .wrapping_add(of_heap);
    of_all % slots_for(platform)
}

/// Slots in which nothing is.
fn empty_slots(alloc: Global, many: usize) -> Result<Vec<Option<KeptAnswer>>, AllocError>
    ensures { (nodes : List NodeFacts) (heaps : List HeapFacts)
        → IfOk result (λ slots. AreSlots nodes heaps slots.items) }
{
    let mut slots = Vec::with_capacity(alloc, many)?;
    for _slot in 0..many {
        slots.push(None)?;
    }
    Ok(slots)
}
