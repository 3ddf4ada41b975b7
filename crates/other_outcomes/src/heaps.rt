//! A platform one of whose heaps is contiguous or secure, where participants need that, or has a
//! coherency domain more.

ghost use Rattle.std.specs.Prelude.{◌≡◌, IfOk, IfSome};
ghost use Rattle.other_outcomes.specs.OtherPlatform.{IsPromisedOn, made_so, with_so};

use crate::platforms::{heaps_of, outcome_on};
use explanation_text::{Items, Label, TextBuilder};
use script_story::{Outcome, Scenario};
use std::alloc::{AllocError, Global};
use sysmem_memory::{CoherencyDomain, Heap, HeapInfo};
use value_sources::NamedParticipant;

/// How many heaps are told of which something is wanted.
const MOST: usize = 2;

/// What a heap may be, or have.
#[derive(Clone, Copy)]
enum Trait {
    Contiguous,
    Secure,
    Domain(CoherencyDomain),
}

impl Trait {
    const ALL: [Trait; 5] = [
        Trait::Contiguous,
        Trait::Secure,
        Trait::Domain(CoherencyDomain::Cpu),
        Trait::Domain(CoherencyDomain::Ram),
        Trait::Domain(CoherencyDomain::Inaccessible),
    ];

    /// Whether a participant needs it, or of a domain accepts it.
    fn is_wanted(self, participant: &NamedParticipant<'_>) -> bool {
        let memory = participant.asked.memory();
        match self {
            Trait::Contiguous => memory.physically_contiguous_required,
            Trait::Secure => memory.secure_required,
            Trait::Domain(CoherencyDomain::Cpu) => memory.cpu_domain_supported,
            Trait::Domain(CoherencyDomain::Ram) => memory.ram_domain_supported,
            Trait::Domain(CoherencyDomain::Inaccessible) => memory.inaccessible_domain_supported,
        }
    }

    /// Whether one of some participants needs it; of a domain, whether each accepts it.
    fn is_wanted_of(self, participants: &[NamedParticipant<'_>]) -> bool {
        let mut is_of_one = false;
        let mut is_of_all = true;
        for participant in participants {
            let is_wanted = self.is_wanted(participant);
            is_of_one = is_of_one || is_wanted;
            is_of_all = is_of_all && is_wanted;
        }
        match self {
            Trait::Domain(_) => is_of_one && is_of_all,
            _ => is_of_one,
        }
    }

    /// Whether a heap is so.
    fn is_of(self, info: &HeapInfo) -> bool {
        match self {
            Trait::Contiguous => info.contiguous,
            Trait::Secure => info.secure,
            Trait::Domain(CoherencyDomain::Cpu) => info.domains.cpu,
            Trait::Domain(CoherencyDomain::Ram) => info.domains.ram,
            Trait::Domain(CoherencyDomain::Inaccessible) => info.domains.inaccessible,
        }
    }

    /// Makes a heap so.
    fn put_in(self, info: &mut HeapInfo)
        ensures { info.new ≡ made_so self info.old }
    {
        match self {
            Trait::Contiguous => info.contiguous = true,
            Trait::Secure => info.secure = true,
            Trait::Domain(CoherencyDomain::Cpu) => info.domains.cpu = true,
            Trait::Domain(CoherencyDomain::Ram) => info.domains.ram = true,
            Trait::Domain(CoherencyDomain::Inaccessible) => info.domains.inaccessible = true,
        }
    }
}

/// Tells the first heaps with which the domain at a path would have settings if they were contiguous
/// or secure, where participants need that, or had a coherency domain that all accept; and what
/// would be decided then.
pub fn add_heaps(
    items: &mut Items,
    scenario: &Scenario<'_>,
    path: &str,
    participants: &[NamedParticipant<'_>],
) -> Result<(), AllocError> {
    for wanted in Trait::ALL {
        if wanted.is_wanted_of(participants) {
            add_firsts(items, scenario, path, wanted)?;
        }
    }
    Ok(())
}

/// Tells the first heaps with which the domain at a path would have settings if they were so.
fn add_firsts(
    items: &mut Items,
    scenario: &Scenario<'_>,
    path: &str,
    wanted: Trait,
) -> Result<(), AllocError> {
    let alloc = items.alloc();
    let mut count = 0usize;
    for (index, info) in scenario.platform.heaps().iter().enumerate() {
        if count >= MOST || scenario.effort.is_spent() {
            break;
        }
        if let Some(outcome) = outcome_so(alloc, scenario, path, index, wanted)? {
            add_heap(items, &info.heap, wanted);
            put_promised(items, scenario, path, index, wanted, outcome);
            count = count.saturating_add(1);
        }
    }
    Ok(())
}

fn add_heap(items: &mut Items, heap: &Heap, wanted: Trait) {
    let mut words = TextBuilder::of(items.alloc(), "with ");
    words.put(&heap.heap_type).put("#").put_number(heap.id);
    match wanted {
        Trait::Contiguous => words.put(" contiguous on the platform, which doesn't say so,"),
        Trait::Secure => words.put(" secure on the platform, which doesn't say so,"),
        Trait::Domain(domain) => words
            .put(" ")
            .put(domain.name())
            .put(" on the platform, which doesn't have it,"),
    };
    words.put(" it would be:");
    items.say(1, Label::Then, words)
}

/// What the domain at a path would be if the heap of an index were so that isn't, if it would be
/// chosen.
fn outcome_so(
    alloc: Global,
    scenario: &Scenario<'_>,
    path: &str,
    index: usize,
    wanted: Trait,
) -> Result<Option<Outcome>, AllocError>
    ensures { IfOk result (λ said. IfSome said (λ what. IsPromisedOn scenario.now.platform.now
        (with_so scenario.now.platform.now.heaps index wanted)
        scenario.now.platform.now.pairs scenario.now.calls.now path.now what)) }
{
    let mut heaps = heaps_of(alloc, scenario.platform)?;
    if index >= heaps.len() || wanted.is_of(&heaps[index]) {
        return Ok(None);
    }
    wanted.put_in(&mut heaps[index]);
    let pairs = Vec::from_slice(alloc, scenario.platform.pairs())?;
    outcome_on(alloc, scenario, heaps, pairs, path)
}

/// Puts the decision that comes if the heap of an index is so.
fn put_promised(
    items: &mut Items,
    scenario: &Scenario<'_>,
    path: &str,
    index: usize,
    wanted: Trait,
    outcome: Outcome,
)
    requires { IsPromisedOn scenario.now.platform.now
        (with_so scenario.now.platform.now.heaps index wanted)
        scenario.now.platform.now.pairs scenario.now.calls.now path.now outcome }
{
    outcome.promise(items, 2)
}
