//! The places that a list of participants leaves, folded one participant at a time.

ghost use Rattle.std.specs.Prelude.{◌≡◌, ◌&&◌, is_none};
ghost use Rattle.std.specs.List.{find};
ghost use Rattle.sysmem_memory.specs.declared.domain.CoherencyDomain.{CoherencyDomain as Domain};
ghost use Rattle.sysmem_memory.specs.Domain.{has_domain};
ghost use Rattle.sysmem_memory.specs.PlaceTable.{refuses_by, first_refusing, domain_fields};

use crate::constraints::MemoryConstraints;
use crate::domain::{CoherencyDomain, CoherencyDomains};
use crate::heap::HeapInfo;
use crate::heap_set::HeapSet;
use crate::place::Place;
use crate::refusal::{domain_refuses, heap_refuses};
use sysmem_counts::Usage;

/// How many heaps a platform has at most.
pub const MOST_HEAPS: usize = 64;

/// The coherency domains of each heap that nobody who was added refuses: for
/// each domain, the heaps of which it is left.
#[derive(Clone, Copy, Debug)]
pub struct MemoryBounds {
    cpu: HeapSet,
    ram: HeapSet,
    inaccessible: HeapSet,
}

impl MemoryBounds {
    ghost use Rattle.std.specs.Prelude.{◌≢◌, ◌<◌, ◌≤◌, ℕ, ◌||◌, List, [], ◌∷◌, ◌++◌, length, IfSome, IfNone};
    ghost use Rattle.sysmem_memory.specs.PlaceTable.{PlaceDemand};
    ghost use Rattle.sysmem_memory.specs.Left.{has_left};
    ghost use Rattle.sysmem_memory.specs.Place.{AreDomainsLeft, IsFirstPlace, HasNoPlace};

    /// No domain of any heap.
    const NONE: MemoryBounds = MemoryBounds {
        cpu: HeapSet::NONE,
        ram: HeapSet::NONE,
        inaccessible: HeapSet::NONE,
    };

    /// The bounds to which nobody was added: each domain of each heap is left.
    pub fn new(heaps: &[HeapInfo]) -> MemoryBounds
        requires { length heaps.now ≤ MOST_HEAPS }
        ensures { AreDomainsLeft result heaps.now [] }
    {
        let mut left = MemoryBounds::NONE;
        for (index, heap) in heaps.iter().enumerate() {
            left = left.with(index, heap.domains);
        }
        left
    }

    /// Adds a participant: what it refuses is no longer left. The
    /// heaps are those that `new` was given.
    pub fn add(&mut self, heaps: &[HeapInfo], memory: &MemoryConstraints, usage: Usage)
        requires { length heaps.now ≤ MOST_HEAPS }
        ensures { (ps : List PlaceDemand) → AreDomainsLeft self.old heaps.now ps
            → AreDomainsLeft self.new heaps.now
            (ps ++ record { memory = memory.now; usage = usage } ∷ []) }
    {
        let mut left = MemoryBounds::NONE;
        for (index, heap) in heaps.iter().enumerate() {
            left = left.with(index, still_left(self.at(index), heap, memory, usage));
        }
        *self = left;
    }

    /// Joins the bounds of more participants: what any of both refuses is no longer left. The heaps
    /// are those that `new` was given, of both.
    pub fn join(&mut self, heaps: &[HeapInfo], more: &MemoryBounds)
        requires { length heaps.now ≤ MOST_HEAPS }
        ensures { (ps qs : List PlaceDemand) → AreDomainsLeft self.old heaps.now ps
            → AreDomainsLeft more.now heaps.now qs → AreDomainsLeft self.new heaps.now (ps ++ qs) }
    {
        self.cpu = self.cpu.both(more.cpu);
        self.ram = self.ram.both(more.ram);
        self.inaccessible = self.inaccessible.both(more.inaccessible);
    }

    /// The first place that nobody who was added refuses, or `None` where each place is refused by
    /// somebody. The heaps are those that `new` was given.
    pub fn first_place(&self, heaps: &[HeapInfo]) -> Option<Place>
        requires { length heaps.now ≤ MOST_HEAPS }
        ensures first { (ps : List PlaceDemand) → AreDomainsLeft self.now heaps.now ps
            → IfSome result (IsFirstPlace heaps.now ps) }
        ensures none { (ps : List PlaceDemand) → AreDomainsLeft self.now heaps.now ps
            → IfNone result (HasNoPlace heaps.now ps) }
    {
        let heap = self
            .cpu
            .either(self.ram)
            .either(self.inaccessible)
            .lowest()?;
        if heap >= heaps.len() {
            return None;
        }
        let coherency = self.at(heap).first()?;
        Some(Place { heap, coherency })
    }

    /// The domains that are left of the heap.
    fn at(&self, heap: usize) -> CoherencyDomains
        requires { heap < 64 }
        ensures { (d : Domain) → has_domain result d ≡ has_left self.now heap d }
    {
        CoherencyDomains {
            cpu: self.cpu.has(heap),
            ram: self.ram.has(heap),
            inaccessible: self.inaccessible.has(heap),
        }
    }

    /// The bounds in which these domains of the heap are left too.
    fn with(self, heap: usize, domains: CoherencyDomains) -> MemoryBounds
        requires { heap < 64 }
        ensures heap { (d : Domain) → has_left result heap d
            ≡ (has_domain domains d || has_left self heap d) }
        ensures others { (k : ℕ) (d : Domain) → k ≢ heap → has_left result k d ≡ has_left self k d }
    {
        MemoryBounds {
            cpu: self.cpu.with_if(domains.cpu, heap),
            ram: self.ram.with_if(domains.ram, heap),
            inaccessible: self.inaccessible.with_if(domains.inaccessible, heap),
        }
    }
}

/// The domains of `left` that a participant of these constraints and this usage doesn't refuse.
fn still_left(
    left: CoherencyDomains,
    heap: &HeapInfo,
    memory: &MemoryConstraints,
    usage: Usage,
) -> CoherencyDomains
    ensures { (d : Domain) → has_domain result d
        ≡ (has_domain left d && is_none (first_refusing memory.now usage heap.now d)) }
{
    if heap_refuses(memory, heap).is_some() {
        return CoherencyDomains::NONE;
    }
    let cpu = domain_left(left, CoherencyDomain::Cpu, heap, memory, usage);
    let ram = domain_left(left, CoherencyDomain::Ram, heap, memory, usage);
    let inaccessible = domain_left(left, CoherencyDomain::Inaccessible, heap, memory, usage);
    CoherencyDomains {
        cpu,
        ram,
        inaccessible,
    }
}

/// Whether the domain is in `left` and no field of such a participant refuses it
/// on a heap that is itself accepted.
fn domain_left(
    left: CoherencyDomains,
    domain: CoherencyDomain,
    heap: &HeapInfo,
    memory: &MemoryConstraints,
    usage: Usage,
) -> bool
    ensures { result ≡ (has_domain left domain
        && is_none (find (λ f. refuses_by f memory.now usage heap.now domain) domain_fields)) }
{
    left.has(domain) && domain_refuses(memory, usage, heap, domain).is_none()
}
