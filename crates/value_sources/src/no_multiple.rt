//! Who makes it so that what is asked for has no common multiple.

use crate::multiples::{Multiple, lcm, lcm_but, needless};
use crate::participant::NamedParticipant;
use crate::sizes::{format_words, modifier_of, own_multiple};
use crate::wishes::{Side, Wishes};
use explanation_text::wording::put_few;
use explanation_text::{ListBuilder, Text, TextBuilder};
use std::alloc::{AllocError, Global};
use sysmem_counts::Field;
use sysmem_formats::{Modifier, Offer, bytes_per_pixel, own_alignment, own_row_divisor};
use sysmem_image::{Entry, Size, entry_for};

/// The least number that is too great for a common multiple.
const TOO_GREAT: u128 = 4_294_967_296;

/// How many are named; one more is named rather than counted.
const MOST_NAMED: usize = 4;

/// Numbers that have no common multiple: first an offer's own ones, then those that participants
/// state.
#[derive(Drop)]
struct Apart {
    parts: Vec<Multiple>,
    /// How many are the offer's own.
    own: usize,
}

impl Wishes<'_, '_> {
    /// Puts that what participants want multiples of by a field has no common multiple up to
    /// 4,294,967,295 after a text: whose numbers, and which of the offer's own.
    pub fn put_no_multiple(&self, text: &mut TextBuilder, field: Field) {
        match self.culprits(text.alloc(), field) {
            Ok((stated, own)) => put_culprits(text, field, &stated, &own),
            Err(AllocError) => text.refuse(),
        }
    }

    /// Whose numbers of a field have no common multiple, each with its number; and which of the
    /// offer's own with them.
    fn culprits(&self, alloc: Global, field: Field) -> Result<(Vec<Text>, Vec<Text>), AllocError> {
        let wide = self.apart(alloc, field, Side::Width)?;
        let by_width = needed(alloc, &wide)?;
        let by_height = needed(alloc, &self.apart(alloc, field, Side::Height)?)?;
        let mut stated = ListBuilder::new(alloc);
        let mut own = ListBuilder::new(alloc);
        for (k, part) in wide.parts.iter().enumerate() {
            if !by_width.contains(&k) && !by_height.contains(&k) {
                continue;
            }
            let words = TextBuilder::of_text(alloc, &part.who);
            if k < wide.own {
                own.add_text(words);
            } else {
                stated.add_text(words);
            }
        }
        Ok((stated.done()?, own.done()?))
    }

    /// What has to be a divisor of a field's number, in a side where the field has sides.
    fn apart(&self, alloc: Global, field: Field, side: Side) -> Result<Apart, AllocError> {
        let mut parts = self.own_parts(alloc, field, side)?;
        let own = parts.list().len();
        for participant in self.participants {
            if let Some(entry) = entry_for(participant.asked.entries(), &self.offer) {
                let sides = stated_at(entry, field);
                let mut words = TextBuilder::of_name(alloc, participant.called());
                words.put(" ");
                put_sides(&mut words, field, sides);
                parts.add(Multiple {
                    value: u128::from(side.of(sides)),
                    who: words.into_text()?,
                });
            }
        }
        Ok(Apart {
            parts: parts.done()?,
            own,
        })
    }

    /// What the offer itself asks for, and by it those who want rows to end at a whole pixel.
    fn own_parts(
        &self,
        alloc: Global,
        field: Field,
        side: Side,
    ) -> Result<ListBuilder<Multiple>, AllocError> {
        let sides = own_at(&self.offer, field);
        let mut words = TextBuilder::new(alloc);
        if field == Field::BytesPerRowDivisor && modifier_of(&self.offer) != Modifier::Linear {
            words.put("the tiles' own ");
        } else {
            words
                .put_words(&format_words(alloc, &self.offer))
                .put("'s own ");
        }
        put_sides(&mut words, field, sides);
        let mut parts = own_multiple(words, u128::from(side.of(sides)))?;
        if field == Field::BytesPerRowDivisor {
            self.add_pixels(&mut parts)?;
        }
        Ok(parts)
    }

    /// Adds the bytes of a pixel for each whose entry wants rows to end at a whole one.
    fn add_pixels(&self, parts: &mut ListBuilder<Multiple>) -> Result<(), AllocError> {
        let bytes = bytes_per_pixel(&self.offer);
        for participant in self.participants {
            if ends_at_pixel(participant, &self.offer) {
                let mut words = TextBuilder::of_name(parts.alloc(), participant.called());
                words
                    .put("'s whole pixels of ")
                    .put_number(bytes)
                    .put(" bytes");
                parts.add(Multiple {
                    value: u128::from(bytes),
                    who: words.into_text()?,
                });
            }
        }
        Ok(())
    }
}

/// Whether a participant's entry for an offer wants rows to end at a whole pixel.
fn ends_at_pixel(participant: &NamedParticipant<'_>, offer: &Offer) -> bool {
    match entry_for(participant.asked.entries(), offer) {
        Some(entry) => entry.bounds.at_pixel_boundary,
        None => false,
    }
}

/// What an entry wants multiples of by a field.
fn stated_at(entry: &Entry, field: Field) -> Size {
    let asked = &entry.bounds.asked;
    match field {
        Field::SizeAlignment => asked.size_alignment,
        Field::DisplayRectAlignment => asked.display_rect_alignment,
        Field::StartOffsetDivisor => both(asked.start_offset_divisor),
        _ => both(asked.bytes_per_row_divisor),
    }
}

/// What an offer itself wants multiples of, where a field stands for that.
fn own_at(offer: &Offer, field: Field) -> Size {
    match field {
        Field::SizeAlignment => {
            let (width, height) = own_alignment(offer);
            Size { width, height }
        }
        Field::BytesPerRowDivisor => both(own_row_divisor(offer)),
        _ => both(1),
    }
}

fn both(number: u32) -> Size {
    Size {
        width: number,
        height: number,
    }
}

/// Puts the number of a field after a text, or its width and height.
fn put_sides(text: &mut TextBuilder, field: Field, sides: Size) {
    text.put_number(sides.width);
    if matches!(field, Field::SizeAlignment | Field::DisplayRectAlignment) {
        text.put("x").put_number(sides.height);
    }
}

/// The indices of numbers that make it so that all have no common multiple: some without any of
/// which the others of these have one, and what can stand for one of these that is stated.
fn needed(alloc: Global, apart: &Apart) -> Result<Vec<usize>, AllocError> {
    let mut indices = Vec::new(alloc);
    if lcm_but(&apart.parts, usize::MAX, &[]) < TOO_GREAT {
        return Ok(indices);
    }
    let left_out = needless(alloc, &apart.parts, TOO_GREAT)?;
    let rests = rests_of(alloc, apart, &left_out)?;
    for (k, part) in apart.parts.iter().enumerate() {
        if !left_out.contains(&k) || stands_for_one(&rests, part.value) {
            indices.push(k)?;
        }
    }
    Ok(indices)
}

/// For each number that is stated and not left out the least common multiple of the others that
/// aren't.
fn rests_of(alloc: Global, apart: &Apart, left_out: &[usize]) -> Result<Vec<u128>, AllocError> {
    let mut rests = Vec::new(alloc);
    for k in apart.own..apart.parts.len() {
        if !left_out.contains(&k) {
            rests.push(lcm_but(&apart.parts, k, left_out))?;
        }
    }
    Ok(rests)
}

/// Whether a number has no common multiple with one of the others.
fn stands_for_one(rests: &[u128], number: u128) -> bool {
    for rest in rests {
        if lcm(*rest, number) >= TOO_GREAT {
            return true;
        }
    }
    false
}

/// Puts that stated numbers of a field, and some of an offer's own, have no common multiple after a
/// text.
fn put_culprits(text: &mut TextBuilder, field: Field, stated: &[Text], own: &[Text]) {
    text.field(field).put(" of ");
    put_few(text, stated, MOST_NAMED);
    if !own.is_empty() {
        text.put(", with ");
        put_few(text, own, MOST_NAMED);
        text.put(",");
    }
    let has = if stated.len() == 1 { " has" } else { " have" };
    text.put(has).put(" no common multiple up to 4294967295");
}
