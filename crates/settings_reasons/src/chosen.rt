//! What decided each value of a choice.

use crate::amounts::Amount;
use crate::asking_less::{put_less, put_multiples};
use crate::later_places::{add_later_places, later_words};
use crate::limiting::{Limit, put_limit, put_side_limits};
use crate::listed::listed_before;
use crate::offer_words::{least_side, offer_name};
use crate::offering::{are_refused, offers_of};
use crate::placing::{place_name, places_of};
use crate::refusing::{Parties, add_no_image, add_offers, place_rows};
use crate::rows::Unchosen;
use explanation_text::wording::{MOST_NAMES, put_few};
use explanation_text::{Fact, Items, Label, ListBuilder, Said, Text, TextBuilder};
use negotiation_inputs::Platform;
use std::alloc::{AllocError, Global};
use sysmem_counts::Field;
use sysmem_formats::{ColourSpace, Offer, Pair, bytes_per_pixel};
use sysmem_image::{Size, entry_for};
use sysmem_memory::Place;
use sysmem_merge::Settings;
use value_sources::{DerivedNumber, LeastCount, NamedParticipant, Side, Wishes, held};

/// Tells where the settings come from that were chosen for participants.
pub fn add_settings(
    items: &mut Items,
    platform: &Platform,
    participants: &[NamedParticipant<'_>],
    settings: &Settings,
) -> Result<(), AllocError> {
    let parties = Parties {
        platform,
        participants,
        whole: true,
    };
    let wishes = Wishes {
        participants,
        offer: settings.offer,
    };
    add_count(items, wishes, settings.count);
    add_chosen_place(items, parties, settings.place)?;
    add_offer(items, parties, settings.offer)?;
    add_sides(items, wishes)?;
    add_size(items, wishes)?;
    note_size(items, wishes)
}

/// Tells the count, where it comes from, if it is the least that the participants need, and who
/// limits it.
fn add_count(items: &mut Items, wishes: Wishes<'_, '_>, count: u32) {
    let participants = wishes.participants;
    let mut words = TextBuilder::new(items.alloc());
    words.value(u128::from(count));
    if let Some(least) = LeastCount::of(participants) {
        if least.number() == u64::from(count) {
            let mark = if held(participants) > 0 { " = " } else { ": " };
            words.put(mark).put_words(&least.why(items.alloc()));
        }
    }
    let chosen = Amount::Number(u64::from(count));
    put_less(&mut words, wishes, Field::MinBufferCount, chosen);
    put_less_slack(&mut words, wishes);
    put_limit(&mut words, wishes, Limit::Count);
    items.say(1, Label::Count, words)
}

/// Puts who asks for fewer buffers that all share beside the others than the most that anybody does
/// after a text.
fn put_less_slack(text: &mut TextBuilder, wishes: Wishes<'_, '_>) {
    let mut most = 0u32;
    for participant in wishes.participants {
        most = most.max(participant.asked.counts().min_buffer_count_for_shared_slack);
    }
    let chosen = Amount::Number(u64::from(most));
    put_less(text, wishes, Field::MinBufferCountForSharedSlack, chosen)
}

/// Tells the bytes of a buffer, where they come from, who asks for less, and who limits them.
fn add_size(items: &mut Items, wishes: Wishes<'_, '_>) -> Result<(), AllocError> {
    let size = wishes.size(items.alloc(), false)?;
    let mut words = number_words(items.alloc(), &size);
    put_less(
        &mut words,
        wishes,
        Field::MinSizeBytes,
        number_of(size.value),
    );
    put_limit(&mut words, wishes, Limit::Size);
    items.say(1, Label::Size, words);
    Ok(())
}

/// Tells the bytes of a row, in the same way.
fn add_row(items: &mut Items, wishes: Wishes<'_, '_>) -> Result<(), AllocError> {
    let alloc = items.alloc();
    let row = wishes.row(alloc, false)?;
    let mut words = number_words(alloc, &row);
    let asked = number_of(wishes.row_asked(alloc)?);
    put_less(&mut words, wishes, Field::MinBytesPerRow, asked);
    if asked == number_of(row.value) {
        put_multiples(&mut words, wishes, Field::BytesPerRowDivisor);
    }
    put_limit(&mut words, wishes, Limit::Row);
    items.say(1, Label::Row, words);
    Ok(())
}

/// A number as one of 64 bits; the greatest of these where it is above.
fn number_of(number: u128) -> Amount {
    Amount::Number(u64::try_from(number).unwrap_or(u64::MAX))
}

/// A number, and where it comes from.
fn number_words(alloc: Global, derived: &DerivedNumber) -> TextBuilder {
    let mut words = TextBuilder::new(alloc);
    words.value(derived.value).put(": ").put_text(&derived.why);
    words
}

/// Notes sides and rows that come out more than twice as great as anybody asks: mostly a multiple
/// is stated that wasn't meant; and multiples that don't hold for rows.
fn note_size(items: &mut Items, wishes: Wishes<'_, '_>) -> Result<(), AllocError> {
    let Offer::Image(_, _) = wishes.offer else {
        return Ok(());
    };
    note_side(items, wishes, Side::Width)?;
    note_side(items, wishes, Side::Height)?;
    note_row(items, wishes)?;
    note_start(items, wishes)
}

/// Notes a side that comes out so great.
fn note_side(items: &mut Items, wishes: Wishes<'_, '_>, side: Side) -> Result<(), AllocError> {
    let value = least_side(items.alloc(), wishes, side)?;
    let asked = wishes.asked(side);
    if value <= asked.saturating_mul(2).max(32) {
        return Ok(());
    }
    let mut words = TextBuilder::of(items.alloc(), "the ");
    words.put(side.name()).put(" is ").put_number(value);
    words.put(", more than twice the ").put_number(asked);
    words
        .put(" that are asked for: is the ")
        .field(Field::SizeAlignment)
        .put(" meant?");
    items.say(1, Label::Note, words);
    Ok(())
}

/// Notes rows that come out so long.
fn note_row(items: &mut Items, wishes: Wishes<'_, '_>) -> Result<(), AllocError> {
    let alloc = items.alloc();
    let width = least_side(alloc, wishes, Side::Width)?;
    let packed = width.saturating_mul(u128::from(bytes_per_pixel(&wishes.offer)));
    let row = wishes.row(alloc, false)?.value;
    if row <= packed.saturating_mul(2).max(512) {
        return Ok(());
    }
    let mut words = TextBuilder::of(alloc, "a row is ");
    words.put_number(row).put(" bytes, more than twice the ");
    words
        .put_number(packed)
        .put(" of its pixels: are the row's fields meant?");
    items.say(1, Label::Note, words);
    Ok(())
}

/// Notes where images may begin, if rows aren't multiples of it: mostly such rows were meant.
fn note_start(items: &mut Items, wishes: Wishes<'_, '_>) -> Result<(), AllocError> {
    let alloc = items.alloc();
    let row = wishes.row(alloc, false)?.value;
    let texts = starts_apart(alloc, wishes, row)?;
    let (say, them) = match texts.len() {
        0 => return Ok(()),
        1 => (" says", "it"),
        _ => (" say", "them"),
    };
    let mut words = TextBuilder::new(alloc);
    put_few(&mut words, &texts, MOST_NAMES);
    words
        .put(say)
        .put(" where an image may begin in its buffer; rows (")
        .put_number(row)
        .put(") aren't rounded by ")
        .put(them)
        .put(", but by ")
        .field(Field::BytesPerRowDivisor);
    items.say(1, Label::Note, words);
    Ok(())
}

/// Who states of what an image's offset is a multiple, where a row of so many bytes isn't one.
fn starts_apart(alloc: Global, wishes: Wishes<'_, '_>, row: u128) -> Result<Vec<Text>, AllocError> {
    let mut texts = ListBuilder::new(alloc);
    for participant in wishes.participants {
        let divisor = start_divisor(participant, &wishes.offer);
        if !is_multiple(row, divisor) {
            let mut words = TextBuilder::of_name(alloc, participant.called());
            words
                .put(" ")
                .field(Field::StartOffsetDivisor)
                .put(" ")
                .put_number(divisor);
            texts.add_text(words);
        }
    }
    texts.done()
}

/// Of what a participant wants an image's offset to be a multiple; 1 where it states none.
fn start_divisor(participant: &NamedParticipant<'_>, offer: &Offer) -> u32 {
    match entry_for(participant.asked.entries(), offer) {
        Some(entry) => entry.bounds.asked.start_offset_divisor,
        None => 1,
    }
}

/// Whether a number is a multiple of another one; each counts as one of 0 and 1.
fn is_multiple(number: u128, divisor: u32) -> bool {
    divisor < 2 || number % u128::from(divisor) == 0
}

/// Tells the place, who refused each of those before it, and what is to be said of those after it.
fn add_chosen_place(
    items: &mut Items,
    parties: Parties<'_, '_>,
    place: Place,
) -> Result<(), AllocError> {
    let alloc = items.alloc();
    items.say(1, Label::Place, place_name(alloc, parties.platform, place));
    let places = places_of(alloc, parties.platform)?;
    let (earlier, later) = around(&places, &place);
    let rows = place_rows(alloc, parties, earlier)?;
    Unchosen::of(" places before it").add(items, &rows);
    add_later_places(items, parties, place, later)
}

/// Tells the offer, and who refused each of those before it.
fn add_offer(items: &mut Items, parties: Parties<'_, '_>, chosen: Offer) -> Result<(), AllocError> {
    let alloc = items.alloc();
    let name = match chosen {
        Offer::NoImage => TextBuilder::of(alloc, "none"),
        offer => offer_name(alloc, &offer),
    };
    items.say(1, Label::Image, name);
    let offers = offers_of(alloc, parties.platform)?;
    let (earlier, _) = around(&offers, &chosen);
    let images = add_image(items, parties, earlier)?;
    add_offers(items, parties, images, " offers before it")?;
    if let Offer::Image(pair, colour) = chosen {
        add_listed(items, parties, pair)?;
        add_later_colours(items, parties, pair, colour)?;
    }
    Ok(())
}

/// Tells in which colour spaces after the chosen one nobody refuses the chosen pair.
fn add_later_colours(
    items: &mut Items,
    parties: Parties<'_, '_>,
    pair: Pair,
    chosen: ColourSpace,
) -> Result<(), AllocError> {
    let alloc = items.alloc();
    let mut names = ListBuilder::new(alloc);
    let (_, later) = around(parties.platform.colours(), &chosen);
    for colour in later {
        let offer = Offer::Image(pair, *colour);
        if !are_refused(&[offer], parties.participants, true) {
            names.add_text(offer_name(alloc, &offer));
        }
    }
    if let Some(mut words) = later_words(alloc, &names.done()?) {
        words
            .put(", whose order decides, not that of anybody's ")
            .field(Field::ColorSpaces);
        items.say(2, Label::Plain, words);
    }
    Ok(())
}

/// Tells why there has to be an image, if these offers were refused of which the first is none; says
/// which of them are images.
fn add_image<'b>(
    items: &mut Items,
    parties: Parties<'_, '_>,
    refused: &'b [Offer],
) -> Result<&'b [Offer], AllocError> {
    match refused.split_first() {
        Some((none, images)) if *none == Offer::NoImage => {
            add_no_image(items, parties)?;
            Ok(images)
        }
        _ => Ok(refused),
    }
}

/// Tells who refuses each pair that participants list before the chosen one, where all its offers
/// are refused: such a pair stands later on the platform.
fn add_listed(items: &mut Items, parties: Parties<'_, '_>, chosen: Pair) -> Result<(), AllocError> {
    let alloc = items.alloc();
    let participants = parties.participants;
    let pairs = listed_before(alloc, parties.platform, participants, chosen)?;
    for pair in &pairs {
        let offers = offers_with(alloc, parties.platform, *pair)?;
        if are_refused(&offers, participants, true) {
            add_offers(items, parties, &offers, " offers after it")?;
        }
    }
    Ok(())
}

/// The offers of a pair.
fn offers_with(alloc: Global, platform: &Platform, pair: Pair) -> Result<Vec<Offer>, AllocError> {
    let mut offers = Vec::new(alloc);
    for colour in platform.colours() {
        offers.push(Offer::Image(pair, *colour))?;
    }
    Ok(offers)
}

/// The items of a list before the first that is equal to one, and those after it; all of it, and
/// none, where none is.
fn around<'a, T: PartialEq>(list: &'a [T], one: &T) -> (&'a [T], &'a [T]) {
    for (k, other) in list.iter().enumerate() {
        if *other == *one {
            let after = list.get(k.saturating_add(1)..).unwrap_or(&[]);
            return (list.get(..k).unwrap_or(list), after);
        }
    }
    (list, &[])
}

/// Tells where an image's width, height and row come from, and who limits them.
fn add_sides(items: &mut Items, wishes: Wishes<'_, '_>) -> Result<(), AllocError> {
    let Offer::Image(_, _) = wishes.offer else {
        return Ok(());
    };
    let alloc = items.alloc();
    let width = wishes.side(alloc, Side::Width)?;
    let height = wishes.side(alloc, Side::Height)?;
    if width.why == height.why {
        add_both_sides(items, wishes, &width, &height);
    } else {
        add_each_side(items, wishes, &width, &height);
    }
    add_row(items, wishes)
}

/// Tells where an image's width and height come from, if from the same.
fn add_both_sides(
    items: &mut Items,
    wishes: Wishes<'_, '_>,
    width: &DerivedNumber,
    height: &DerivedNumber,
) {
    let mut words = TextBuilder::new(items.alloc());
    words
        .put_number(width.value)
        .put("x")
        .put_number(height.value);
    tell_sides(&mut words, width.value, height.value);
    words.put(": ").put_text(&width.why);
    put_less_sides(&mut words, wishes, &[Side::Width, Side::Height]);
    let is_asked = width.value == wishes.asked(Side::Width);
    if is_asked && height.value == wishes.asked(Side::Height) {
        put_multiples(&mut words, wishes, Field::SizeAlignment);
    }
    put_side_limits(&mut words, wishes);
    put_limit(&mut words, wishes, Limit::Pixels);
    items.say(1, Label::Pixels, words)
}

/// Tells where an image's width and height come from, each by itself.
fn add_each_side(
    items: &mut Items,
    wishes: Wishes<'_, '_>,
    width: &DerivedNumber,
    height: &DerivedNumber,
) {
    let mut words = number_words(items.alloc(), width);
    put_less_sides(&mut words, wishes, &[Side::Width]);
    put_limit(&mut words, wishes, Limit::Side(Side::Width));
    items.say(1, Label::Width, words);
    let mut words = number_words(items.alloc(), height);
    put_less_sides(&mut words, wishes, &[Side::Height]);
    put_limit(&mut words, wishes, Limit::Side(Side::Height));
    put_limit(&mut words, wishes, Limit::Pixels);
    items.say(1, Label::Height, words)
}

/// Puts who asks for images less wide or less high than somebody does after a text; only less wide, or
/// only less high, where one side alone is told.
fn put_less_sides(text: &mut TextBuilder, wishes: Wishes<'_, '_>, sides: &[Side]) {
    let mut size = Size {
        width: 0,
        height: 0,
    };
    for side in sides {
        let asked = u32::try_from(wishes.asked(*side)).unwrap_or(u32::MAX);
        match side {
            Side::Width => size.width = asked,
            Side::Height => size.height = asked,
        }
    }
    put_less(text, wishes, Field::MinSize, Amount::Sides(size))
}

/// Keeps the sides that a text tells.
fn tell_sides(text: &mut TextBuilder, width: u128, height: u128) {
    if let (Ok(width), Ok(height)) = (u64::try_from(width), u64::try_from(height)) {
        text.tell(Fact::Value(Said::Sides(width, height)));
    }
}
