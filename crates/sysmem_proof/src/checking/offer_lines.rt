//! Whether each offer of a platform is refused to participants by its line.

ghost use Rattle.std.specs.Prelude.{◌≡◌, ◌≢◌, ◌↔◌, Bool, List, [], All, IsTrue, option_copied, option_map};
ghost use Rattle.std.specs.List.{AllZip, cons_option};
ghost use Rattle.sysmem_formats.specs.declared.offer.Offer.TheVariants.{NoImage, Image};
ghost use Rattle.offer_fits.specs.Demands.{offer_demands};
ghost use Rattle.offer_fits.specs.Offers.{names_format, names_modifier, names_colour};
ghost use Rattle.sysmem_merge.specs.Reasons.{IsUnnamedLine};
ghost use Rattle.verdict_claims.specs.Conflict.{RefusesOffer};
ghost use Rattle.verdict_claims.specs.Fault.{AreNamed};
ghost use Rattle.verdict_claims.specs.Members.{participants};
ghost use Rattle.verdict_claims.specs.Roll.{listed};
ghost use Rattle.negotiation_inputs.specs.Platform.{offers_of};
ghost use Rattle.sysmem_tree.specs.Shape.{Member};

use super::line_tests::is_offer_line;
use crate::roll::Roll;
use negotiation_inputs::{Constraints, Platform};
use sysmem_counts::Field;
use sysmem_formats::{Offer, offer_at};
use sysmem_image::{Entry, entry_for};
use verdict_claims::{Line, is_shared};

/// Whether one, if there is one, doesn't name the part of the offer's name that the field speaks
/// of. False of another field, and of no image.
fn is_silent(asked: Option<&Constraints>, offer: &Offer, field: Field) -> bool
    ensures { IsTrue result ↔ IsUnnamedLine field offer.now
        (offer_demands (cons_option (option_map (λ one. one.now) asked.entry) [])) }
{
    let Offer::Image(_, _) = offer else {
        return false;
    };
    let entry = match asked {
        Some(one) => entry_for(one.entries(), offer),
        None => None,
    };
    match field {
        Field::UnnamedPixelFormat => !has_format(entry),
        Field::UnnamedPixelFormatModifier => !has_modifier(entry),
        Field::UnnamedColorSpace => !lists_colour(entry, offer),
        _ => false,
    }
}

fn has_format(entry: Option<&Entry>) -> bool
    ensures { result ≡ names_format (option_copied entry.entry) }
{
    match entry {
        Some(entry) => entry.format.is_some(),
        None => false,
    }
}

fn has_modifier(entry: Option<&Entry>) -> bool
    ensures { result ≡ names_modifier (option_copied entry.entry) }
{
    match entry {
        Some(entry) => entry.modifier.is_some(),
        None => false,
    }
}

fn lists_colour(entry: Option<&Entry>, offer: &Offer) -> bool
    ensures { result ≡ names_colour offer.now (option_copied entry.entry) }
{
    match (offer, entry) {
        (Offer::Image(_, colour), Some(entry)) => entry.colours.lists(*colour),
        _ => false,
    }
}

/// Whether nobody on the roll names the part of the offer's name that the field
/// speaks of. Another field reads nobody.
fn is_unnamed(roll: &Roll<'_>, offer: &Offer, field: Field) -> bool
    ensures { IsTrue result
        ↔ IsUnnamedLine field offer.now (offer_demands (participants (listed roll.now))) }
{
    roll.by_numbers();
    if !is_silent(None, offer, field) {
        return false;
    }
    for number in 0..roll.node_count() {
        if !is_silent(roll.at_number(number), offer, field) {
            return false;
        }
    }
    true
}

/// Whether a line refuses an offer because it is the line of another offer of the same pair, and
/// doesn't speak of the colour space.
fn is_as_before(earlier: &Offer, before: &Line, offer: &Offer, line: &Line) -> bool
    ensures { IsTrue result → (whole : Bool) (ms : List Member)
        → (earlier.now ≢ NoImage → RefusesOffer whole ms earlier.now before.now)
        → RefusesOffer whole ms offer.now line.now }
{
    let field = line.field();
    let last = before.field();
    if !is_shared(field, earlier, offer) || !is_same_field(last, field) {
        return false;
    }
    before.nodes().is_same(line.nodes())
}

fn is_same_field(one: Field, other: Field) -> bool
    ensures { IsTrue result → one ≡ other }
{
    one == other
}

/// Whether the line refuses the offer. Where those on the roll are all that a decision has, it
/// may do so for want of a name, too.
pub(crate) fn refuses_offer(roll: &Roll<'_>, whole: bool, offer: &Offer, line: &Line) -> bool
    requires { AreNamed (listed roll.now) line.now.nodes }
    ensures { IsTrue result ↔ RefusesOffer whole (listed roll.now) offer.now line.now }
{
    match line.field() {
        Field::UnnamedPixelFormat | Field::UnnamedPixelFormatModifier | Field::UnnamedColorSpace =>
            whole && is_unnamed(roll, offer, line.field()),
        _ => is_offer_line(roll, offer, line),
    }
}

/// Whether the line refuses the offer, where the one before it refuses the offer before.
fn refuses_behind(
    roll: &Roll<'_>,
    whole: bool,
    earlier: &Offer,
    before: &Line,
    offer: &Offer,
    line: &Line,
) -> bool
    requires named { AreNamed (listed roll.now) line.now.nodes }
    requires before { earlier.now ≢ NoImage
        → RefusesOffer whole (listed roll.now) earlier.now before.now }
    ensures { IsTrue result ↔ RefusesOffer whole (listed roll.now) offer.now line.now }
{
    if is_as_before(earlier, before, offer, line) {
        return true;
    }
    refuses_offer(roll, whole, offer, line)
}

/// Whether there is a line for each offer of the platform, and it refuses the offer.
pub(crate) fn refuse_offers(
    platform: &Platform,
    roll: &Roll<'_>,
    whole: bool,
    lines: &[Line],
) -> bool
    requires { All (λ line. AreNamed (listed roll.now) line.nodes) lines.now }
    ensures { IsTrue result
        ↔ AllZip (RefusesOffer whole (listed roll.now)) (offers_of platform.now) lines.now }
{
    let pairs = platform.pairs();
    let colours = platform.colours();
    let mut earlier = Offer::NoImage;
    for index in 0..lines.len() {
        let Some(offer) = offer_at(pairs, colours, index) else {
            return false;
        };
        let before = &lines[index.saturating_sub(1)];
        if !refuses_behind(roll, whole, &earlier, before, &offer, &lines[index]) {
            return false;
        }
        earlier = offer;
    }
    offer_at(pairs, colours, lines.len()).is_none()
}
