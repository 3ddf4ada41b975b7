//! The sizes of the smallest image, each with where it comes from.

use crate::multiples::{Multiple, multiple_of, up};
use crate::participant::NamedParticipant;
use crate::wishes::{Side, Wish, Wishes};
use explanation_text::{ListBuilder, Text, TextBuilder};
use std::alloc::{AllocError, Global};
use sysmem_counts::Field;
use sysmem_formats::{
    Modifier, Offer, Sampling, bytes_per_pixel, own_alignment, own_row_divisor, tiled_rows,
};
use sysmem_image::entry_for;

/// A number, and where it comes from.
#[derive(Drop)]
pub struct DerivedNumber {
    pub value: u128,
    pub why: Text,
}

/// The name of an offer's format.
pub(crate) fn format_words(alloc: Global, offer: &Offer) -> TextBuilder {
    let mut words = TextBuilder::new(alloc);
    match offer {
        Offer::NoImage => words.put("none"),
        Offer::Image(pair, _) => words.format(pair.format),
    };
    words
}

pub(crate) fn modifier_of(offer: &Offer) -> Modifier {
    match offer {
        Offer::NoImage => Modifier::Linear,
        Offer::Image(pair, _) => pair.modifier,
    }
}

/// Whether a format has half a plane of colours below its first plane.
fn has_half_plane(offer: &Offer) -> bool {
    match offer {
        Offer::NoImage => false,
        Offer::Image(pair, _) => matches!(
            pair.format.sampling(),
            Sampling::TwoPlanes | Sampling::ThreePlanes
        ),
    }
}

/// How many rows a tile has.
fn tile_rows(offer: &Offer) -> u128 {
    u128::from(tiled_rows(modifier_of(offer), 1))
}

/// How many bytes a row of a tile has.
fn tile_bytes(offer: &Offer) -> u128 {
    match modifier_of(offer) {
        Modifier::Linear => 1,
        _ => u128::from(own_row_divisor(offer)),
    }
}

impl<'a> Wishes<'a, '_> {
    /// Puts a multiple that each participant with an entry for the offer asks for after those that
    /// are given.
    fn add_multiples(
        &self,
        parts: &mut ListBuilder<Multiple>,
        field: Option<Field>,
        wish: Wish,
    ) -> Result<(), AllocError> {
        for participant in self.participants {
            if let Some(entry) = entry_for(participant.asked.entries(), &self.offer) {
                let value = u128::from(wish.of(entry));
                let mut words = TextBuilder::of_name(parts.alloc(), participant.called());
                words.put(" ");
                match field {
                    Some(field) => words.field(field),
                    None => words.put("whole pixels in a row"),
                };
                parts.add(Multiple {
                    value,
                    who: words.into_text()?,
                });
            }
        }
        Ok(())
    }

    /// The least width or height.
    pub fn side(&self, alloc: Global, side: Side) -> Result<DerivedNumber, AllocError> {
        let (base, first) = self.side_asked(side);
        let mark = if first.is_some() { Some(" ") } else { None };
        let multiple = self.side_multiple(alloc, side)?;
        rounded(u128::from(base), multiple, mark, side_words(alloc, first))
    }

    /// The least width or height that anybody asks for, before it is rounded.
    pub fn asked(&self, side: Side) -> u128 {
        u128::from(self.side_asked(side).0)
    }

    /// The least width or height that somebody asks for, with who does and by which field, where it
    /// is above 1.
    fn side_asked(&self, side: Side) -> (u64, Option<(NamedParticipant<'a>, Field)>) {
        let wish = self.greatest(Wish::RequiredMost(side));
        match self.greatest(Wish::Least(side)) {
            Some((one, least)) if least > 1 => match wish {
                Some((other, most)) if most > least => (
                    most,
                    Some((other, Field::RequiredMaxSize)),
                ),
                _ => (least, Some((one, Field::MinSize))),
            },
            _ => match wish {
                Some((other, most)) if most > 1 => (most, Some((other, Field::RequiredMaxSize))),
                _ => (1, None),
            },
        }
    }

    /// What a side has to be a multiple of.
    fn side_multiple(&self, alloc: Global, side: Side) -> Result<DerivedNumber, AllocError> {
        let (width, height) = own_alignment(&self.offer);
        let own = if side == Side::Width { width } else { height };
        let who = itself(alloc, &self.offer);
        let mut parts = own_multiple(who, u128::from(own))?;
        let field = Some(Field::SizeAlignment);
        self.add_multiples(&mut parts, field, Wish::Alignment(side))?;
        multiple_of(alloc, parts.done()?)
    }

    /// Where the least width and height come from.
    pub fn why_size(&self, alloc: Global) -> Result<Text, AllocError> {
        let width = self.side(alloc, Side::Width)?.why;
        let height = self.side(alloc, Side::Height)?.why;
        if width == height {
            return Ok(width);
        }
        let mut words = TextBuilder::of(alloc, "the width ");
        words
            .put_text(&width)
            .put("; the height ")
            .put_text(&height);
        words.into_text()
    }

    /// The least row in bytes; where the width comes from is said too if that is asked for.
    pub fn row(&self, alloc: Global, is_alone: bool) -> Result<DerivedNumber, AllocError> {
        let multiple = self.row_multiple(alloc)?;
        let (value, why) = self.plain_row(alloc, is_alone)?;
        rounded(value, multiple, Some(" = "), why)
    }

    /// The least row that somebody asks for, or that the pixels of the least width take, before it is
    /// rounded.
    pub fn row_asked(&self, alloc: Global) -> Result<u128, AllocError> {
        let (row, _) = self.plain_row(alloc, false)?;
        Ok(row)
    }

    /// The least row before it is rounded, and where it comes from: that of the least width, or a
    /// longer one that somebody asks for.
    fn plain_row(&self, alloc: Global, is_alone: bool) -> Result<(u128, TextBuilder), AllocError> {
        let width = self.side(alloc, Side::Width)?;
        let packed = self.packed_row(width.value);
        let mut words = TextBuilder::new(alloc);
        match self.greatest(Wish::LeastRow) {
            Some((one, least)) if u128::from(least) > packed => {
                words
                    .name(one.called())
                    .put(" ")
                    .field(Field::MinBytesPerRow);
                Ok((u128::from(least), words))
            }
            _ => {
                self.put_packed(&mut words, &width, is_alone);
                Ok((packed, words))
            }
        }
    }

    /// The bytes of a row of a width in whole tiles.
    fn packed_row(&self, width: u128) -> u128 {
        let pixel = u128::from(bytes_per_pixel(&self.offer));
        up(width.saturating_mul(pixel), tile_bytes(&self.offer))
    }

    /// Puts where that row comes from after a text.
    fn put_packed(&self, text: &mut TextBuilder, width: &DerivedNumber, is_alone: bool) {
        let pixel = u128::from(bytes_per_pixel(&self.offer));
        put_pixels(text, width.value, pixel);
        if is_alone {
            text.put(" (").put_text(&width.why).put(")");
        }
        if self.packed_row(width.value) != width.value.saturating_mul(pixel) {
            let tile = tile_bytes(&self.offer);
            text.put(", rounded up to tiles of ")
                .put_number(tile)
                .put(" bytes");
        }
    }

    /// What a row has to be a multiple of.
    fn row_multiple(&self, alloc: Global) -> Result<DerivedNumber, AllocError> {
        let who = if modifier_of(&self.offer) == Modifier::Linear {
            itself(alloc, &self.offer)
        } else {
            TextBuilder::of(alloc, "tiles")
        };
        let mut parts = own_multiple(who, u128::from(own_row_divisor(&self.offer)))?;
        self.add_row_multiples(&mut parts)?;
        multiple_of(alloc, parts.done()?)
    }

    fn add_row_multiples(&self, parts: &mut ListBuilder<Multiple>) -> Result<(), AllocError> {
        self.add_multiples(parts, Some(Field::BytesPerRowDivisor), Wish::RowDivisor)?;
        let whole = Wish::WholePixels(bytes_per_pixel(&self.offer));
        self.add_multiples(parts, None, whole)
    }

    /// The least size of a buffer in bytes; where the image's sides come from is said too if that
    /// is asked for.
    pub fn size(&self, alloc: Global, is_alone: bool) -> Result<DerivedNumber, AllocError> {
        let least = self.least_size();
        let stated = match least {
            Some((_, value)) => u128::from(value),
            None => 1,
        };
        if let Offer::Image(_, _) = self.offer {
            let image = self.image(alloc, is_alone)?;
            if image.value >= stated {
                return Ok(image);
            }
        }
        let mut words = TextBuilder::new(alloc);
        match least {
            Some((one, _)) => words.name(one.called()).put(" ").field(Field::MinSizeBytes),
            None => words.put("nobody asks for more"),
        };
        Ok(DerivedNumber {
            value: stated,
            why: words.into_text()?,
        })
    }

    /// The bytes of the smallest image.
    fn image(&self, alloc: Global, is_alone: bool) -> Result<DerivedNumber, AllocError> {
        let image = self.smallest(alloc)?;
        let mut words = TextBuilder::new(alloc);
        image.put(&mut words);
        if is_alone {
            self.put_sides(&mut words, image);
        }
        Ok(DerivedNumber {
            value: image.bytes(),
            why: words.into_text()?,
        })
    }

    fn smallest(&self, alloc: Global) -> Result<Image, AllocError> {
        Ok(Image {
            width: self.side(alloc, Side::Width)?.value,
            height: self.side(alloc, Side::Height)?.value,
            row: self.row(alloc, false)?.value,
            offer: self.offer,
        })
    }

    /// Puts the sides of an image after a text, and where they come from.
    fn put_sides(&self, text: &mut TextBuilder, image: Image) {
        text.put(", for ").put_number(image.width);
        text.put("x").put_number(image.height);
        match self.why_size(text.alloc()) {
            Ok(from) => {
                text.put(" (").put_text(&from).put(")");
            }
            Err(AllocError) => text.refuse(),
        }
    }
}

/// The smallest image of an offer.
#[derive(Clone, Copy)]
struct Image {
    width: u128,
    height: u128,
    /// The bytes of a row.
    row: u128,
    offer: Offer,
}

impl Image {
    /// How many rows it has in whole tiles.
    fn rows(&self) -> u128 {
        up(self.height, tile_rows(&self.offer))
    }

    fn bytes(&self) -> u128 {
        let plane = self.row.saturating_mul(self.rows());
        if has_half_plane(&self.offer) {
            return plane.saturating_mul(3).saturating_add(1) / 2;
        }
        plane
    }

    /// Puts its bytes as a product after a text.
    fn put(&self, text: &mut TextBuilder) {
        let rows = self.rows();
        let word = if rows == 1 { "row" } else { "rows" };
        text.put("row ").put_number(self.row).put(" x ");
        text.put_number(rows).put(" ").put(word);
        if rows != self.height {
            text.put(" (").put_number(self.height);
            text.put(", rounded up to whole tiles)");
        }
        if has_half_plane(&self.offer) {
            let format = format_words(text.alloc(), &self.offer);
            text.put(" x 3/2 (").put_words(&format).put(")");
        }
    }
}

/// Who asks for a side, and by which field.
fn side_words(alloc: Global, first: Option<(NamedParticipant<'_>, Field)>) -> TextBuilder {
    let mut words = TextBuilder::new(alloc);
    match first {
        Some((one, field)) => words.name(one.called()).put(" ").field(field),
        None => words.put("nobody asks for more than 1"),
    };
    words
}

/// That an offer's format asks for it itself.
fn itself(alloc: Global, offer: &Offer) -> TextBuilder {
    let mut words = format_words(alloc, offer);
    words.put(" itself");
    words
}

/// A list of one multiple.
pub(crate) fn own_multiple(
    words: TextBuilder,
    value: u128,
) -> Result<ListBuilder<Multiple>, AllocError> {
    let mut parts = ListBuilder::new(words.alloc());
    parts.add(Multiple {
        value,
        who: words.into_text()?,
    });
    Ok(parts)
}

/// A number, rounded up to what it has to be a multiple of; where that changes it, it is shown
/// after a mark, if there is one.
fn rounded(
    base: u128,
    multiple: DerivedNumber,
    mark: Option<&str>,
    why: TextBuilder,
) -> Result<DerivedNumber, AllocError> {
    let mut words = why;
    let value = up(base, multiple.value);
    if value != base {
        put_rounding(&mut words, base, &multiple, mark);
    }
    Ok(DerivedNumber {
        value,
        why: words.into_text()?,
    })
}

fn put_rounding(text: &mut TextBuilder, base: u128, multiple: &DerivedNumber, mark: Option<&str>) {
    if let Some(mark) = mark {
        text.put(mark).put_number(base);
    }
    text.put(", rounded up to a multiple of ")
        .put_number(multiple.value);
    text.put(" (").put_text(&multiple.why).put(")");
}

/// Puts how many pixels of how many bytes after a text.
fn put_pixels(text: &mut TextBuilder, width: u128, bytes: u128) {
    let pixels = if width == 1 { "pixel" } else { "pixels" };
    let word = if bytes == 1 { "byte" } else { "bytes" };
    text.put_number(width).put(" ").put(pixels).put(" of ");
    text.put_number(bytes).put(" ").put(word);
}
