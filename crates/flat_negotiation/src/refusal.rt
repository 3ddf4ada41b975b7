//! Refusals as a C program is told them.

ghost use Rattle.std.specs.Prelude.{◌≡◌};
ghost use Rattle.flat_negotiation.specs.Refusals.{field_number, flat_refusal, kind_of, refusal_with, unmet_refusal, with_offer, with_shared};

use crate::flat::FlatRefusal;
use crate::parts::colour_bit;
use crate::unsettled::{Refusal, Unsettled};
use crate::written::domain_code;
use drm_images::{bits_of, code_of};
use sysmem_counts::Field;
use sysmem_formats::Offer;
use sysmem_merge::{Reason, Settings};

/// Where it is no participant.
const NOBODY: usize = usize::MAX;

fn field_number(field: Field) -> u32
    ensures { result ≡ field_number field }
{
    field as u32 + 1
}

fn refusal_with(struct_size: usize, kind: u32, who: usize, index: usize, field: u32) -> FlatRefusal
    ensures { result ≡ refusal_with struct_size kind who index field }
{
    FlatRefusal {
        struct_size,
        who,
        index,
        heap: 0,
        modifier: 0,
        format: 0,
        colour: 0,
        coherency: 0,
        kind,
        field,
        alone: 0,
    }
}

fn kind_of(reason: Reason) -> u32
    ensures { result ≡ kind_of reason }
{
    match reason {
        Reason::Count(_) => 4,
        Reason::NoPlace => 5,
        Reason::NoOffer => 6,
    }
}

fn with_offer(offer: Offer, refusal: FlatRefusal) -> FlatRefusal
    ensures { result ≡ with_offer offer refusal }
{
    match offer {
        Offer::NoImage => refusal,
        Offer::Image(pair, colour) => FlatRefusal {
            modifier: bits_of(pair.modifier),
            format: code_of(pair.format),
            colour: colour_bit(colour),
            ..refusal
        },
    }
}

fn with_shared(shared: Option<Settings>, refusal: FlatRefusal) -> FlatRefusal
    ensures { result ≡ with_shared shared refusal }
{
    match shared {
        None => refusal,
        Some(settings) => FlatRefusal {
            heap: settings.place.heap,
            coherency: domain_code(settings.place.coherency),
            ..refusal
        },
    }
}

fn unmet_refusal(struct_size: usize, refusal: &Refusal) -> FlatRefusal
    ensures { result ≡ unmet_refusal struct_size refusal.now }
{
    let stop = refusal.stop;
    let who = if stop.whole { NOBODY } else { stop.who };
    let kind = kind_of(refusal.lone.unwrap_or(stop.reason));
    let field = field_number(refusal.field);
    let told = FlatRefusal {
        alone: u32::from(refusal.lone.is_some()),
        ..refusal_with(struct_size, kind, who, 0, field)
    };
    let placed = with_shared(stop.shared, told);
    match refusal.offer {
        Some(offer) => with_offer(offer, placed),
        None => placed,
    }
}

/// Why there are no settings, in a struct of this size.
pub fn refusal_of(struct_size: usize, unsettled: &Unsettled) -> FlatRefusal
    ensures { result ≡ flat_refusal struct_size unsettled.now }
{
    match unsettled {
        Unsettled::NoMemory => refusal_with(struct_size, 0, NOBODY, 0, 0),
        Unsettled::Platform(amiss) => {
            let field = field_number(amiss.field);
            refusal_with(struct_size, 1, NOBODY, amiss.index, field)
        }
        Unsettled::Participant(who, amiss) => {
            let field = field_number(amiss.field);
            refusal_with(struct_size, 2, *who, amiss.index, field)
        }
        Unsettled::TooMany => refusal_with(struct_size, 3, NOBODY, 0, 0),
        Unsettled::Unmet(refusal) => unmet_refusal(struct_size, refusal),
    }
}
