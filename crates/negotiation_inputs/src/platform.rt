//! What a platform has.

ghost use Rattle.std.specs.Prelude.{◌≡◌, ◌≢◌, ◌≤◌, ◌↔◌, length, false, All, AllPairs, IfErr, IfOk, IsTrue};
ghost use Rattle.sysmem_formats.specs.Layout.{IsTiledMisfit};
ghost use Rattle.sysmem_memory.specs.Heap.{same_heap};
ghost use Rattle.negotiation_inputs.specs.Amiss.{PlatformAmiss};
ghost use Rattle.negotiation_inputs.specs.Equal.{same_platform};
ghost use Rattle.negotiation_inputs.specs.EqualLaws.{platform_laws};
ghost use Rattle.negotiation_inputs.specs.Platform.{IsPlatform, IsHeap};
ghost use Rattle.sysmem_memory.specs.declared.bounds.TheConstants.{MOST_HEAPS};

use crate::amiss::amiss_in_platform;
use crate::copying::copied_heaps;
use crate::equal::are_same_heaps;
use std::alloc::AllocError;
use std::marker::Model;
use sysmem_counts::Field;
use sysmem_formats::{ColourSpace, Pair};
use sysmem_memory::HeapInfo;

/// A platform: its heaps, 1 to 64 and no two of one type and id; its pairs of a format and a
/// modifier, no tiled modifier with a format that isn't of 4 bytes; and its colour spaces. Each
/// list is in the platform's order, isn't empty and has no item twice.
#[derive(Debug)]
pub struct Platform {
    heaps: Vec<HeapInfo>,
    pairs: Vec<Pair>,
    colours: Vec<ColourSpace>,
}

impl Drop for Platform {
    fn drop(self) {
        let Platform {
            heaps: _,
            pairs: _,
            colours: _,
        } = self;
    }
}

impl Model for Platform {
    ghost use Rattle.negotiation_inputs.specs.Platform.{PlatformFacts, IsPlatform};

    ghost Value = { PlatformFacts };

    ghost view = { λ p. record {
      heaps = p.heaps.items;
      pairs = p.pairs.items;
      colours = p.colours.items;
    } };

    ghost invariant = { λ p. IsPlatform p.heaps.items p.pairs.items p.colours.items };
}

impl PartialEq for Platform {
    ghost eq = { same_platform };

    ghost laws = { platform_laws };

    fn eq(&self, other: &Platform) -> bool {
        are_same_heaps(&self.heaps, &other.heaps)
            && self.pairs.as_slice() == other.pairs.as_slice()
            && self.colours.as_slice() == other.colours.as_slice()
    }
}

impl Platform {
    /// The platform of its parts. Where it isn't known that they are such parts, `of` tests them.
    pub fn new(heaps: Vec<HeapInfo>, pairs: Vec<Pair>, colours: Vec<ColourSpace>) -> Platform
        requires { IsPlatform heaps.items pairs.items colours.items }
        ensures { result
            ≡ record { heaps = heaps.items; pairs = pairs.items; colours = colours.items } }
    {
        Platform {
            heaps,
            pairs,
            colours,
        }
    }

    /// The platform of these parts. It fails with a field in which no platform is so, where they
    /// are the parts of none.
    pub fn of(
        heaps: Vec<HeapInfo>,
        pairs: Vec<Pair>,
        colours: Vec<ColourSpace>,
    ) -> Result<Platform, Field>
        ensures made { IfOk result (λ platform. platform
            ≡ record { heaps = heaps.items; pairs = pairs.items; colours = colours.items }) }
        ensures taken { IfOk result (λ _. IsPlatform heaps.items pairs.items colours.items) }
        ensures refused { IfErr result (λ _. IsPlatform heaps.items pairs.items colours.items → ⊥) }
        ensures amiss { IfErr result
            (λ field. PlatformAmiss field heaps.items pairs.items colours.items) }
    {
        match amiss_in_platform(&heaps, &pairs, &colours) {
            Some(field) => Err(field),
            None => Ok(Platform::new(heaps, pairs, colours)),
        }
    }

    /// The heaps in the platform's order: 1 to 64, no two of one type and id, each with some
    /// coherency domain.
    pub fn heaps(&self) -> &[HeapInfo]
        ensures heaps { result.now ≡ self.now.heaps }
        ensures some { 1 ≤ length result.now }
        ensures few { length result.now ≤ MOST_HEAPS }
        ensures distinct { AllPairs (λ a b. same_heap a.heap b.heap ≡ false) result.now }
        ensures each { All IsHeap result.now }
    {
        &self.heaps
    }

    /// The pairs of a format and a modifier that it has, in its order: some, none of them twice, no
    /// tiled modifier with a format that isn't of 4 bytes.
    pub fn pairs(&self) -> &[Pair]
        ensures pairs { result.now ≡ self.now.pairs }
        ensures some { 1 ≤ length result.now }
        ensures distinct { AllPairs (λ a b. a ≢ b) result.now }
        ensures fitting { All (λ pair. IsTiledMisfit pair → ⊥) result.now }
    {
        &self.pairs
    }

    /// The colour spaces that it has, in its order: some, none of them twice.
    pub fn colours(&self) -> &[ColourSpace]
        ensures colours { result.now ≡ self.now.colours }
        ensures some { 1 ≤ length result.now }
        ensures distinct { AllPairs (λ a b. a ≢ b) result.now }
    {
        &self.colours
    }

    /// A platform that is equal to this one, in memory of its own. It fails where memory is
    /// refused.
    pub fn copy(&self) -> Result<Platform, AllocError>
        ensures { IfOk result (λ copy. copy ≡ self.now) }
    {
        let alloc = *self.heaps.allocator();
        let heaps = copied_heaps(alloc, &self.heaps)?;
        let pairs = Vec::from_slice(alloc, &self.pairs)?;
        let colours = Vec::from_slice(alloc, &self.colours)?;
        Ok(Platform::new(heaps, pairs, colours))
    }

    /// Whether the other has the same in all that it states.
    pub fn is_same(&self, other: &Platform) -> bool
        ensures { IsTrue result ↔ (self.now ≡ other.now) }
    {
        self == other
    }
}
