//! What is kept of each pair of a platform.

ghost use Rattle.std.specs.Prelude.{◌≡◌, ◌<◌, ◌≤◌, ◌+◌, ℕ, List, [], ◌∷◌, ◌++◌, IfOk, Some, slice_get};
ghost use Rattle.sysmem_formats.specs.declared.offer.Pair.{Pair as APair};
ghost use Rattle.sysmem_merge.specs.Demands.{OfferDemand};
ghost use Rattle.sysmem_merge.specs.Pairs.{ArePairsJoined, ArePairsKept, IsPairKept};

use crate::pair::KeptPair;
use std::alloc::{AllocError, Global};
use sysmem_formats::Pair;
use sysmem_image::FirstMatches;

/// What is kept of each pair before any participant, in the order of the pairs.
pub(crate) fn kept_pairs(alloc: Global, pairs: &[Pair]) -> Result<Vec<KeptPair>, AllocError>
    ensures { IfOk result (λ kept. ArePairsKept pairs.now [] kept.items) }
{
    let mut kept = Vec::with_capacity(alloc, pairs.len())?;
    for pair in pairs {
        kept.push(KeptPair::new(*pair))?;
    }
    Ok(kept)
}

/// Keeps what one more participant asks of each pair by its entries.
pub(crate) fn add_to_pairs(kept: &mut [KeptPair], pairs: &[Pair], matches: &FirstMatches)
    ensures { (ds : List OfferDemand) (d : OfferDemand) → d.entries ≡ matches.now
        → ArePairsKept pairs.now ds kept.old → ArePairsKept pairs.now (ds ++ d ∷ []) kept.new }
{
    for (index, one) in kept.iter_mut().enumerate() {
        add_at(one, pairs, index, matches);
    }
}

/// Keeps what one more participant asks of the pair at this index by its entries.
fn add_at(kept: &mut KeptPair, pairs: &[Pair], index: usize, matches: &FirstMatches)
    ensures { (pair : APair) (ds : List OfferDemand) (d : OfferDemand)
        → slice_get pairs.now index ≡ Some pair → d.entries ≡ matches.now
        → IsPairKept pair ds kept.old → IsPairKept pair (ds ++ d ∷ []) kept.new }
{
    if let Some(pair) = pairs.get(index) {
        kept.add(*pair, matches);
    }
}

/// Keeps of each pair between two indices what those above ask, then more participants, whatever
/// was kept of it.
pub(crate) fn join_pairs(
    kept: &mut [KeptPair],
    above: &[KeptPair],
    more: &[KeptPair],
    from: usize,
    to: usize,
)
    ensures { (pairs : List APair) (low : ℕ) (ds es : List OfferDemand) → from ≤ to
        → (from < to → low ≤ from) → ArePairsJoined low from pairs (ds ++ es) kept.old
        → ArePairsJoined low to pairs ds above.now → ArePairsKept pairs es more.now
        → ArePairsJoined low to pairs (ds ++ es) kept.new }
{
    for index in from..to {
        join_at(kept, above, more, index);
    }
}

/// The same of the pair at this index.
#[inline]
fn join_at(kept: &mut [KeptPair], above: &[KeptPair], more: &[KeptPair], index: usize)
    ensures { (pairs : List APair) (low : ℕ) (ds es : List OfferDemand) → low ≤ index
        → ArePairsJoined low index pairs (ds ++ es) kept.old
        → ArePairsJoined low (index + 1) pairs ds above.now → ArePairsKept pairs es more.now
        → ArePairsJoined low (index + 1) pairs (ds ++ es) kept.new }
{
    if index >= kept.len() || index >= above.len() || index >= more.len() {
        return;
    }
    kept[index].join_of(&above[index], &more[index]);
}
