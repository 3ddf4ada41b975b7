//! What participants ask for together, apart from their platform: what a search
//! keeps of each prefix of choices.

ghost use Rattle.std.specs.Prelude.{◌≡◌, ◌+◌, ◌<◌, ◌≤◌, ◌↔◌, ◌++◌, List, [], ◌∷◌, IfOk, IfSome, IfNone, IsPermutation, IsTrue};
ghost use Rattle.sysmem_merge.specs.Asked.{IsAskedOf, IsOpenFrom, settings_of};
ghost use Rattle.sysmem_merge.specs.Best.{IsBest};
ghost use Rattle.sysmem_merge.specs.Share.{IsShareOf};
ghost use Rattle.sysmem_merge.specs.Sum.{IsWhole, SumsUp};
ghost use Rattle.negotiation_inputs.specs.Participant.{Participant};
ghost use Rattle.negotiation_inputs.specs.Platform.{PlatformFacts};

use crate::asked::Asked;
use crate::kept::KeptOffer;
use crate::pair::KeptPair;
use crate::pair_walk::fit_at;
use crate::pairs::{add_to_pairs, join_pairs, kept_pairs};
use crate::reason::Reason;
use crate::settings::Settings;
use crate::share::Share;
use crate::walk::fit_of;
use negotiation_inputs::{Constraints, Platform};
use offer_fits::Fit;
use std::alloc::{AllocError, Global};
use std::marker::Model;
use sysmem_counts::CountBounds;
use sysmem_formats::Offer;
use sysmem_image::FirstMatches;
use sysmem_memory::{MemoryBounds, Place};

/// How many participants are added at most, each with counts of 33 bits together.
pub const MOST_ADDED: u64 = 1024;

/// What participants ask for together. A search reserves one for each level of choices,
/// so that a prefix takes no memory.
#[derive(Debug, Drop)]
pub struct Sum {
    counts: CountBounds,
    memory: MemoryBounds,
    /// The first place that is left, found when the memory was last changed.
    place: Option<Place>,
    no_image: KeptOffer,
    pairs: Vec<KeptPair>,
    /// How many pairs, from the first on, have no image that suits these participants, whatever is
    /// named; nor has any of them one that suits these and more.
    passed: usize,
    /// Up to which pair those that aren't passed are kept for these participants; what is kept of
    /// the others is of somebody else.
    joined: usize,
    least_size: u64,
    greatest_size: u64,
    added: u64,
}

impl Model for Sum {
    ghost use Rattle.std.specs.Prelude.{◌*◌, ◌^◌, ◌≤◌};
    ghost use Rattle.sysmem_counts.specs.Tally.{sum_of};
    ghost use Rattle.sysmem_merge.specs.Sum.{SumFacts};
    ghost use Rattle.sysmem_merge.specs.declared.sum.TheConstants.{MOST_ADDED};

    ghost Value = { SumFacts };

    ghost view = { λ s. record {
      counts = s.counts;
      places = s.memory;
      place = s.place;
      no_image = s.no_image;
      pairs = s.pairs.items;
      passed = s.passed;
      joined = s.joined;
      least_size = s.least_size;
      greatest_size = s.greatest_size;
      added = s.added;
    } };

    ghost invariant = { λ s. (sum_of s.counts ≤ s.added * 2 ^ 33) × (s.added ≤ MOST_ADDED) };
}

impl Sum {
    /// The sum of no participant at all, in memory that later sums on this platform need too.
    pub fn new(alloc: Global, platform: &Platform) -> Result<Sum, AllocError>
        ensures sums { IfOk result (λ made. SumsUp made platform.now []) }
        ensures whole { IfOk result (IsWhole platform.now) }
    {
        let pairs = kept_pairs(alloc, platform.pairs())?;
        let joined = pairs.len();
        let memory = MemoryBounds::new(platform.heaps());
        Ok(Sum {
            counts: CountBounds::new(),
            memory,
            place: memory.first_place(platform.heaps()),
            no_image: KeptOffer::new(&Offer::NoImage),
            pairs,
            passed: 0,
            joined,
            least_size: 0,
            greatest_size: u64::MAX,
            added: 0,
        })
    }

    /// Adds one more participant, where fewer than 1,024 were added and each pair is kept.
    pub(crate) fn add(&mut self, platform: &Platform, asked: &Constraints)
        requires { self.old.added < MOST_ADDED }
        ensures sums { (ps : List Participant) → IsWhole platform.now self.old
            → SumsUp self.old platform.now ps
            → SumsUp self.new platform.now (ps ++ asked.now ∷ []) }
        ensures whole { IsWhole platform.now self.old → IsWhole platform.now self.new }
        ensures grows { self.new.added ≡ self.old.added + 1 }
    {
        let memory = asked.memory();
        self.counts.add(asked.counts());
        self.memory.add(platform.heaps(), memory, asked.usage());
        self.place = self.memory.first_place(platform.heaps());
        let mut matches = FirstMatches::none();
        matches.read(asked.entries());
        self.no_image.add(&Offer::NoImage, &matches);
        add_to_pairs(&mut self.pairs, platform.pairs(), &matches);
        self.least_size = self.least_size.max(memory.min_size_bytes);
        self.greatest_size = self.greatest_size.min(memory.max_size_bytes);
        self.added += 1;
    }

    /// Becomes the sum of the participants above, then those of a share, whatever it was the sum
    /// of; of pairs nothing is joined yet. All three were made for this platform, and the
    /// participants are at most 1,024. It takes no memory.
    pub fn join_of(&mut self, platform: &Platform, above: &Sum, share: &Share)
        requires { above.now.added + share.now.sum.added ≤ MOST_ADDED }
        ensures sums { (others ps qs : List Participant) → SumsUp self.old platform.now others
            → SumsUp above.now platform.now ps → IsShareOf share.now platform.now qs
            → SumsUp self.new platform.now (ps ++ qs) }
        ensures grows { self.new.added ≡ above.now.added + share.now.sum.added }
    {
        let more = share.sum();
        self.counts = above.counts;
        self.counts.join(&more.counts);
        self.memory = above.memory;
        self.memory.join(platform.heaps(), &more.memory);
        self.place = self.memory.first_place(platform.heaps());
        self.no_image.join_of(&above.no_image, &more.no_image);
        self.passed = above.passed;
        self.joined = 0;
        self.least_size = above.least_size.max(more.least_size);
        self.greatest_size = above.greatest_size.min(more.greatest_size);
        self.added = above.added + more.added;
    }

    /// Whether all pairs up to so many are joined or passed.
    #[inline]
    pub fn has_joined(&self, pairs: usize) -> bool
        ensures { IsTrue result ↔ (pairs ≤ self.now.joined) }
    {
        pairs <= self.joined
    }

    /// Joins the pairs up to so many, where they aren't joined yet: it is the sum of the
    /// participants above, then those of a share, and as many pairs are joined above. Those that
    /// are passed above are passed. It takes no memory.
    pub fn join_pairs(&mut self, above: &Sum, share: &Share, pairs: usize)
        ensures sums { (platform : PlatformFacts) (all ps qs : List Participant)
            → IsPermutation (ps ++ qs) all → pairs ≤ above.now.joined
            → SumsUp self.old platform all → SumsUp above.now platform ps
            → IsShareOf share.now platform qs → SumsUp self.new platform all }
        ensures joined { pairs ≤ self.new.joined }
        ensures same { self.new.added ≡ self.old.added }
    {
        if self.has_joined(pairs) {
            return;
        }
        let more = share.sum();
        self.passed = self.passed.max(above.passed);
        let from = self.joined.max(self.passed).min(pairs);
        join_pairs(&mut self.pairs, &above.pairs, &more.pairs, from, pairs);
        self.joined = pairs;
    }

    /// What is known of the participants without a look at pairs: the best settings, where they
    /// have no image; the first reason that is true of them, where no number of buffers or no place
    /// suits them; else the first pair that has to be looked at. `whole` says that they are all
    /// that a decision has, so that an image's format, modifier and colour space must each be named
    /// by some of them. The platform is the one that the sum was made for. It takes no memory.
    // In line, a caller that asks only whether there are settings copies none.
    #[inline(always)]
    pub fn ask(&self, platform: &Platform, whole: bool) -> Asked
        ensures { (ps : List Participant) → SumsUp self.now platform.now ps
            → IsAskedOf whole platform.now ps result }
    {
        let count = match self.counts.least_count() {
            Ok(count) => count,
            Err(field) => return Asked::Unmet(Reason::Count(field)),
        };
        let Some(place) = self.place else {
            return Asked::Unmet(Reason::NoPlace);
        };
        let (least, greatest) = (self.least_size, self.greatest_size);
        match fit_of(&self.no_image, &Offer::NoImage, least, greatest, whole) {
            Some(fit) => Asked::Met(settings_of(fit, place, count)),
            None => Asked::Open(self.passed),
        }
    }

    /// The best settings for the participants, where they have an image of the pair at this index,
    /// and none without an image or with one of an earlier pair; `None` where they have none of
    /// this pair either. The pairs up to this one are joined; where more participants may come,
    /// those before it are passed. It takes no memory.
    // In line, a caller that asks only whether there are settings copies none.
    #[inline(always)]
    pub fn ask_pair(&mut self, platform: &Platform, index: usize, whole: bool) -> Option<Settings>
        ensures best { (ps : List Participant) → SumsUp self.old platform.now ps
            → index < self.old.joined → IsOpenFrom index whole platform.now ps
            → IfSome result (IsBest whole platform.now ps) }
        ensures none { (ps : List Participant) → SumsUp self.old platform.now ps
            → index < self.old.joined → IsOpenFrom index whole platform.now ps
            → IfNone result (IsOpenFrom (index + 1) whole platform.now ps) }
        ensures sums { (ps : List Participant) → SumsUp self.old platform.now ps
            → index < self.old.joined → IsOpenFrom index whole platform.now ps
            → SumsUp self.new platform.now ps }
        ensures same { self.new.joined ≡ self.old.joined }
    {
        if index < self.passed {
            return None;
        }
        let kept = self.pairs.get(index)?;
        let (least, greatest) = (self.least_size, self.greatest_size);
        let fit = fit_at(platform, index, kept, least, greatest, whole)?;
        let Ok(count) = self.counts.least_count() else {
            return None;
        };
        let place = self.place?;
        if !whole {
            self.passed = index;
        }
        Some(settings_of(fit, place, count))
    }
}

/// Settings of a fit, in this place and of so many buffers.
#[inline(always)]
fn settings_of(fit: Fit, place: Place, count: u32) -> Settings
    ensures { result ≡ settings_of fit place count }
{
    Settings {
        offer: fit.offer,
        place,
        count,
        size_bytes: fit.size_bytes,
        bounds: fit.bounds,
    }
}
