//! What the participants whom paths name ask together.

ghost use Rattle.std.specs.Prelude.{◌≡◌, ◌↔◌, true, [], ◌∷◌, Any, IsTrue, option_map};
ghost use Rattle.std.specs.List.{cons_option};
ghost use Rattle.sysmem_memory.specs.PlaceTable.{refuses_by};
ghost use Rattle.offer_fits.specs.Demands.{offer_demands};
ghost use Rattle.sysmem_merge.specs.Failing.{FailsOn};
ghost use Rattle.sysmem_merge.specs.OfferRead.{IsOfferRead};
ghost use Rattle.verdict_claims.specs.Roll.{asked_by, listed};

use crate::roll::Roll;
use negotiation_inputs::{Constraints, Platform};
use sysmem_counts::Field;
use sysmem_formats::Offer;
use sysmem_memory::{CoherencyDomain, HeapInfo, refuses_in};
use sysmem_merge::{OfferRead, Settings, fails_in};
use verdict_claims::{PathList, add_read};

/// What they ask of an offer.
pub(crate) fn read_of(roll: &Roll<'_>, offer: &Offer, paths: &PathList) -> OfferRead
    ensures { IsOfferRead offer.now (offer_demands (asked_by (listed roll.now) paths.now)) result }
{
    let mut read = OfferRead::new(offer);
    for path in paths.iter() {
        add_read(&mut read, roll.at(path));
    }
    read
}

/// Whether the field refuses the coherency domain of the heap to one, if there is one.
fn is_refused(
    field: Field,
    heap: &HeapInfo,
    domain: CoherencyDomain,
    asked: Option<&Constraints>,
) -> bool
    ensures { IsTrue result ↔ Any (λ p. refuses_by field p.memory p.usage heap.now domain ≡ true)
        (cons_option (option_map (λ one. one.now) asked.entry) []) }
{
    match asked {
        Some(one) => refuses_in(field, one.memory(), one.usage(), heap, domain),
        None => false,
    }
}

/// Whether the field refuses the coherency domain of the heap to some of them.
pub(crate) fn refuse_place(
    roll: &Roll<'_>,
    field: Field,
    heap: &HeapInfo,
    domain: CoherencyDomain,
    paths: &PathList,
) -> bool
    ensures { IsTrue result ↔ Any (λ p. refuses_by field p.memory p.usage heap.now domain ≡ true)
        (asked_by (listed roll.now) paths.now) }
{
    for path in paths.iter() {
        if is_refused(field, heap, domain, roll.at(path)) {
            return true;
        }
    }
    false
}

/// Whether the settings fail one in the field, if there is one.
fn is_failed(
    field: Field,
    platform: &Platform,
    settings: &Settings,
    asked: Option<&Constraints>,
) -> bool
    ensures { IsTrue result ↔ Any (FailsOn field platform.now settings.now)
        (cons_option (option_map (λ one. one.now) asked.entry) []) }
{
    match asked {
        Some(one) => fails_in(field, platform, settings, one),
        None => false,
    }
}

/// Whether the settings fail the participant at the path in the field.
pub(crate) fn fail_at(
    roll: &Roll<'_>,
    field: Field,
    platform: &Platform,
    settings: &Settings,
    path: &[u32],
) -> bool
    ensures { IsTrue result ↔ Any (FailsOn field platform.now settings.now)
        (asked_by (listed roll.now) (path.now ∷ [])) }
{
    is_failed(field, platform, settings, roll.at(path))
}
