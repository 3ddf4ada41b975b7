//! What one more participant asks, behind those before it.

ghost use Rattle.std.specs.Prelude.{◌≤◌, ◌<◌, ◌+◌, ◌^◌, ◌++◌, List, [], option_map};
ghost use Rattle.std.specs.List.{cons_option};
ghost use Rattle.sysmem_counts.specs.Bounds.{IsTallyOf};
ghost use Rattle.sysmem_counts.specs.Tally.{sum_of};
ghost use Rattle.sysmem_counts.specs.declared.constraints.CountConstraints.{CountConstraints as Counted};
ghost use Rattle.sysmem_formats.specs.declared.offer.Offer.{Offer as Offered};
ghost use Rattle.offer_fits.specs.Demands.{OfferDemand, counts_asked, offer_demands};
ghost use Rattle.sysmem_merge.specs.OfferRead.{IsOfferRead};

use negotiation_inputs::Constraints;
use sysmem_counts::CountBounds;
use sysmem_merge::OfferRead;

/// Adds what one more asks of the number of buffers, if there is one.
pub fn add_count(counts: &mut CountBounds, asked: Option<&Constraints>)
    requires { sum_of counts.old < 2 ^ 62 }
    ensures added { (ps : List Counted) → IsTallyOf counts.old ps → IsTallyOf counts.new
        (ps ++ counts_asked (cons_option (option_map (λ one. one.now) asked.entry) [])) }
    ensures grows { sum_of counts.new ≤ sum_of counts.old + 2 ^ 33 }
{
    if let Some(one) = asked {
        counts.add(one.counts());
    }
}

/// Reads what one more asks of an offer, if there is one.
pub fn add_read(read: &mut OfferRead, asked: Option<&Constraints>)
    ensures { (o : Offered) (ds : List OfferDemand) → IsOfferRead o ds read.old → IsOfferRead o
        (ds ++ offer_demands (cons_option (option_map (λ one. one.now) asked.entry) [])) read.new }
{
    if let Some(one) = asked {
        read.add(one);
    }
}
