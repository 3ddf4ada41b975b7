//! The field of a participant that is in the way.

ghost use Rattle.std.specs.Prelude.{◌≡◌, Some, IfSome};
ghost use Rattle.offer_fits.specs.Demands.{offer_demands};
ghost use Rattle.sysmem_merge.specs.OfferRead.{IsOfferRead};
ghost use Rattle.flat_negotiation.specs.Takes.{take_format, told_line};
ghost use Rattle.flat_negotiation.specs.Blame.{IsFieldOf, IsOfferField, IsPlaceField, IsToldOffer, alone, shared_offer, told_of, told_reason, up_to};

use crate::taking::{or_else, own_offer, take_format};
use crate::unsettled::{ListStop, Refusal};
use negotiation_inputs::{Constraints, Platform};
use sysmem_counts::Field;
use sysmem_formats::Offer;
use sysmem_memory::refuses;
use sysmem_merge::{OfferRead, Reason, Settings};

/// What all of a list ask of an offer.
pub(crate) fn read_of(offer: &Offer, asked: &[Constraints]) -> OfferRead
    ensures { IsOfferRead offer.now (offer_demands asked.now) result }
{
    let mut read = OfferRead::new(offer);
    for index in 0..asked.len() {
        read.add(&asked[index]);
    }
    read
}

/// Those of a list up to this index.
fn up_to(asked: &[Constraints], who: usize) -> &[Constraints]
    ensures { result.now ≡ up_to who asked.now }
{
    if who < asked.len() {
        &asked[..who + 1]
    } else {
        asked
    }
}

/// The one of this index by itself, where it is one of the list.
pub(crate) fn alone(asked: &[Constraints], who: usize) -> &[Constraints]
    ensures { result.now ≡ alone who asked.now }
{
    if who < asked.len() {
        &asked[who..][..1]
    } else {
        &[]
    }
}

/// Those of whom is told.
fn told_of<'a>(asked: &'a [Constraints], stop: &ListStop, lone: Option<Reason>) -> &'a [Constraints]
    ensures { result.now ≡ told_of stop.now lone asked.now }
{
    match lone {
        Some(_) => alone(asked, stop.who),
        None => up_to(asked, stop.who),
    }
}

/// The field in which the participant is refused the place of these settings.
fn place_field(platform: &Platform, asked: &Constraints, settings: &Settings) -> Option<Field>
    ensures { IfSome result (IsPlaceField platform.now asked.now settings.now) }
{
    let heap = platform.heaps().get(settings.place.heap)?;
    refuses(
        asked.memory(),
        asked.usage(),
        heap,
        settings.place.coherency,
    )
}

/// The field that is told of a line.
fn line_told(line: Field, takes_format: bool) -> Field
    ensures { result ≡ told_line takes_format line }
{
    match line {
        Field::PixelFormat if takes_format => Field::PixelFormatModifier,
        _ => line,
    }
}

/// The field that is told of the first line that is true of a list for an offer.
fn offer_field(offer: &Offer, asked: &[Constraints], whole: bool) -> Option<Field>
    ensures { IfSome result (IsOfferField whole asked.now offer.now) }
{
    let line = read_of(offer, asked).first_line(whole)?;
    Some(line_told(line, take_format(offer, asked)))
}

fn shared_offer(stop: &ListStop) -> Option<Offer>
    ensures { result ≡ shared_offer stop.now }
{
    match stop.shared {
        Some(settings) => Some(settings.offer),
        None => None,
    }
}

/// The offer of which is told.
fn told_offer(
    platform: &Platform,
    asked: &[Constraints],
    stop: &ListStop,
    lone: Option<Reason>,
) -> Option<Offer>
    ensures { IsToldOffer platform.now asked.now stop.now lone result }
{
    match lone {
        Some(Reason::NoOffer) => {
            or_else(
                own_offer(platform, alone(asked, stop.who)),
                shared_offer(stop),
            )
        }
        _ => shared_offer(stop),
    }
}

/// Who is in the way, and in which field, or, of the count, its own.
pub(crate) fn blamed(
    platform: &Platform,
    asked: &[Constraints],
    stop: ListStop,
    lone: Option<Reason>,
) -> Option<Refusal>
    ensures stop { IfSome result (λ r. (r.stop ≡ stop) × (r.lone ≡ lone)) }
    ensures offer { IfSome result (λ r. IsToldOffer platform.now asked.now stop lone r.offer) }
    ensures field { IfSome result (λ r. IsFieldOf platform.now asked.now r (told_reason r)) }
{
    let offer = told_offer(platform, asked, &stop, lone);
    let field = match lone.unwrap_or(stop.reason) {
        Reason::Count(field) => field,
        Reason::NoPlace => {
            let shared = stop.shared?;
            place_field(platform, asked.get(stop.who)?, &shared)?
        }
        Reason::NoOffer => offer_field(&offer?, told_of(asked, &stop, lone), stop.whole)?,
    };
    Some(Refusal {
        stop,
        lone,
        offer,
        field,
    })
}
