//! What is kept of participants, and the best settings for them.

ghost use Rattle.std.specs.Prelude.{◌≡◌, ◌+◌, ◌<◌, ◌≤◌, ◌++◌, List, [], ◌∷◌, IfOk, IfErr, OnOk};
ghost use Rattle.sysmem_merge.specs.Aggregate.{StandsFor};
ghost use Rattle.sysmem_merge.specs.Best.{IsBest, IsUnmet};
ghost use Rattle.negotiation_inputs.specs.Participant.{Participant};
ghost use Rattle.negotiation_inputs.specs.Platform.{PlatformFacts};
ghost use Rattle.sysmem_merge.specs.Reasons.{IsFirstReason};
ghost use Rattle.sysmem_merge.specs.declared.sum.TheConstants.{MOST_ADDED};

use crate::joined::copied_offers;
use crate::kept::KeptOffer;
use crate::offers::{add_to_offers, kept_offers};
use crate::reason::Reason;
use crate::settings::Settings;
use crate::walk::first_fit;
use negotiation_inputs::{Constraints, Platform};
use std::alloc::{AllocError, Global};
use std::marker::Model;
use sysmem_counts::CountBounds;
use sysmem_memory::MemoryBounds;

/// The participants that were added to a platform: what they ask for together.
#[derive(Debug, Drop)]
pub struct Aggregate<'p> {
    platform: &'p Platform,
    counts: CountBounds,
    memory: MemoryBounds,
    offers: Vec<KeptOffer>,
    least_size: u64,
    greatest_size: u64,
    added: u64,
}

impl<'p> Model for Aggregate<'p> {
    ghost use Rattle.std.specs.Prelude.{◌*◌, ◌^◌, ◌≤◌};
    ghost use Rattle.sysmem_counts.specs.Tally.{sum_of};
    ghost use Rattle.sysmem_merge.specs.Kept.{Kept};
    ghost use Rattle.sysmem_merge.specs.declared.sum.TheConstants.{MOST_ADDED};

    ghost Value = { Kept };

    ghost view = { λ a. record {
      platform = a.platform.now;
      counts = a.counts;
      places = a.memory;
      offers = a.offers.items;
      least_size = a.least_size;
      greatest_size = a.greatest_size;
      added = a.added;
    } };

    ghost invariant = { λ a. (sum_of a.counts ≤ a.added * 2 ^ 33) × (a.added ≤ MOST_ADDED) };
}

impl<'p> Aggregate<'p> {
    /// The aggregate of no participant at all.
    pub fn new(alloc: Global, platform: &'p Platform) -> Result<Aggregate<'p>, AllocError>
        ensures { IfOk result (λ made. StandsFor made platform.now []) }
    {
        let offers = kept_offers(alloc, platform)?;
        Ok(Aggregate {
            platform,
            counts: CountBounds::new(),
            memory: MemoryBounds::new(platform.heaps()),
            offers,
            least_size: 0,
            greatest_size: u64::MAX,
            added: 0,
        })
    }

    /// The platform whose offers and places are asked for.
    pub fn platform(&self) -> &'p Platform
        ensures { result.now ≡ self.now.platform }
    {
        self.platform
    }

    /// An aggregate that is equal to this one, in memory of its own.
    /// It fails where memory is refused.
    pub fn copy(&self) -> Result<Aggregate<'p>, AllocError>
        ensures { IfOk result (λ copy. copy ≡ self.now) }
    {
        let offers = copied_offers(*self.offers.allocator(), &self.offers)?;
        Ok(Aggregate {
            platform: self.platform,
            counts: self.counts,
            memory: self.memory,
            offers,
            least_size: self.least_size,
            greatest_size: self.greatest_size,
            added: self.added,
        })
    }

    /// Adds one more participant, where fewer than 1,024 were added. It
    /// takes no memory, so it isn't refused.
    pub fn add(&mut self, asked: &Constraints) -> Result<(), AllocError>
        requires { self.old.added < MOST_ADDED }
        ensures ok { (platform : PlatformFacts) (ps : List Participant)
            → StandsFor self.old platform ps
            → OnOk result (StandsFor self.new platform (ps ++ asked.now ∷ [])) }
        ensures always { IfErr result (λ _. ⊥) }
        ensures grows { self.new.added ≤ self.old.added + 1 }
    {
        let memory = asked.memory();
        let platform = self.platform;
        self.counts.add(asked.counts());
        self.memory.add(platform.heaps(), memory, asked.usage());
        add_to_offers(&mut self.offers, platform, asked.entries());
        self.least_size = self.least_size.max(memory.min_size_bytes);
        self.greatest_size = self.greatest_size.min(memory.max_size_bytes);
        self.added += 1;
        Ok(())
    }

    /// The best settings for the participants that were added: the first offer, then the
    /// first place, the least count, and for these the least size and the merged bounds.
    /// Where no settings meet them, the first reason that is true of them. `whole` says that
    /// they are all that a decision has, so that an image's format, modifier and colour space
    /// must each be named by some of them.
    pub fn best_settings(&self, whole: bool) -> Result<Settings, Reason>
        ensures best { (platform : PlatformFacts) (ps : List Participant)
            → StandsFor self.now platform ps
            → IfOk result (IsBest whole platform ps) }
        ensures none { (platform : PlatformFacts) (ps : List Participant)
            → StandsFor self.now platform ps
            → IfErr result (λ _. IsUnmet whole platform ps) }
        ensures reason { (platform : PlatformFacts) (ps : List Participant)
            → StandsFor self.now platform ps
            → IfErr result (IsFirstReason whole platform ps) }
    {
        let count = match self.counts.least_count() {
            Ok(count) => count,
            Err(field) => return Err(Reason::Count(field)),
        };
        let Some(place) = self.memory.first_place(self.platform.heaps()) else {
            return Err(Reason::NoPlace);
        };
        let Some(fit) = first_fit(
            self.platform,
            &self.offers,
            self.least_size,
            self.greatest_size,
            whole,
        ) else {
            return Err(Reason::NoOffer);
        };
        Ok(Settings {
            offer: fit.offer,
            place,
            count,
            size_bytes: fit.size_bytes,
            bounds: fit.bounds,
        })
    }
}
