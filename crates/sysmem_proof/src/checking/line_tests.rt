//! Whether a line is true of the participants that it names.

ghost use Rattle.std.specs.Prelude.{◌↔◌, [], ◌∷◌, Any, IsTrue};
ghost use Rattle.sysmem_counts.specs.Bounds.{IsTallyOf};
ghost use Rattle.sysmem_counts.specs.Counts.{IsCountLine, IsFixedCountLine};
ghost use Rattle.sysmem_memory.specs.PlaceTable.{IsPlaceLine};
ghost use Rattle.offer_fits.specs.Demands.{counts_asked, offer_demands, place_demands};
ghost use Rattle.sysmem_merge.specs.Failing.{FailsOn};
ghost use Rattle.offer_fits.specs.OfferLines.{IsOfferLine};
ghost use Rattle.verdict_claims.specs.Fault.{AreNamed};
ghost use Rattle.verdict_claims.specs.Naming.{IsTrueOf};
ghost use Rattle.verdict_claims.specs.Roll.{asked_by, listed};

use crate::asked::{fail_at, read_of, refuse_place};
use crate::roll::Roll;
use negotiation_inputs::Platform;
use sysmem_counts::{CountBounds, Field};
use sysmem_formats::Offer;
use sysmem_memory::{CoherencyDomain, HeapInfo};
use sysmem_merge::Settings;
use verdict_claims::Line;

/// Whether no count suits the participants whom the line names, by its field, where this is what
/// they ask of the number of buffers.
pub(crate) fn is_count_line(roll: &Roll<'_>, counts: &CountBounds, line: &Line) -> bool
    requires named { AreNamed (listed roll.now) line.now.nodes }
    requires counts { IsTallyOf counts.now
        (counts_asked (asked_by (listed roll.now) line.now.nodes)) }
    ensures { IsTrue result ↔ IsTrueOf (listed roll.now) line.now.nodes
        (λ ps. IsCountLine line.now.field (counts_asked ps)) }
{
    let _ = roll;
    counts.is_line(line.field())
}

/// Whether a count that is fixed doesn't suit the participants whom the line names, by its field,
/// where this is what they ask of the number of buffers.
pub(crate) fn is_fixed_count_line(
    roll: &Roll<'_>,
    counts: &CountBounds,
    count: u32,
    line: &Line,
) -> bool
    requires named { AreNamed (listed roll.now) line.now.nodes }
    requires counts { IsTallyOf counts.now
        (counts_asked (asked_by (listed roll.now) line.now.nodes)) }
    ensures { IsTrue result ↔ IsTrueOf (listed roll.now) line.now.nodes
        (λ ps. IsFixedCountLine count line.now.field (counts_asked ps)) }
{
    let _ = roll;
    counts.is_fixed_line(count, line.field())
}

/// Whether the line's field refuses the coherency domain of the heap
/// to some participant whom it names.
pub(crate) fn is_place_line(
    roll: &Roll<'_>,
    heap: &HeapInfo,
    domain: CoherencyDomain,
    line: &Line,
) -> bool
    requires { AreNamed (listed roll.now) line.now.nodes }
    ensures { IsTrue result ↔ IsTrueOf (listed roll.now) line.now.nodes
        (λ ps. IsPlaceLine line.now.field heap.now domain (place_demands ps)) }
{
    refuse_place(roll, line.field(), heap, domain, line.nodes())
}

/// Whether the offer doesn't suit the participants whom the line names,
/// by its field; whatever is named.
pub(crate) fn is_offer_line(roll: &Roll<'_>, offer: &Offer, line: &Line) -> bool
    requires { AreNamed (listed roll.now) line.now.nodes }
    ensures { IsTrue result ↔ IsTrueOf (listed roll.now) line.now.nodes
        (λ ps. IsOfferLine line.now.field offer.now (offer_demands ps)) }
{
    read_of(roll, offer, line.nodes()).is_line(line.field())
}

/// Whether the settings fail the participant at the path in the field.
pub(crate) fn is_failed_at(
    roll: &Roll<'_>,
    platform: &Platform,
    settings: &Settings,
    field: Field,
    path: &[u32],
) -> bool
    requires { AreNamed (listed roll.now) (path.now ∷ []) }
    ensures { IsTrue result ↔ IsTrueOf (listed roll.now) (path.now ∷ [])
        (λ ps. Any (FailsOn field platform.now settings.now) ps) }
{
    fail_at(roll, field, platform, settings, path)
}
