//! What entries ask of an offer's images, kept so that each line of
//! the conflict table can be asked.

ghost use Rattle.std.specs.Prelude.{◌↔◌, ◌≤◌, ◌<◌, ◌^◌, ℕ, List, [], ◌∷◌, ◌++◌, IsTrue, IfSome, IfNone};
ghost use Rattle.std.proofs.Props.{props};
ghost use Rattle.sysmem_counts.specs.declared.field.Field.{Field};
ghost use Rattle.sysmem_counts.specs.declared.field.Field.TheVariants.{MaxSize, MaxWidthTimesHeight, MaxBytesPerRow};
ghost use Rattle.sysmem_image.specs.declared.bounds.ImageBounds.{ImageBounds};
ghost use Rattle.sysmem_formats.specs.declared.offer.Offer.{Offer};
ghost use Rattle.sysmem_image.specs.Corners.{IsLeastAbove};
ghost use Rattle.sysmem_image.specs.Entries.{effective};
ghost use Rattle.sysmem_image.specs.Merged.{MergedOf};
ghost use Rattle.sysmem_image.specs.Lines.{AlignmentsMeet, DivisorsMeet, IsBoundsLine};
ghost use Rattle.sysmem_image.specs.Size.{IsSizeInRange};
ghost use Rattle.sysmem_counts.specs.Bounds.{most_number};
ghost use Rattle.sysmem_image.specs.Multiples.{IsJoined, IsSizeJoined};

use crate::bounds::ImageBounds;
use crate::bounds_table;
use crate::effective::effective;
use crate::entry::Entry;
use crate::keeping::is_size_up_to;
use crate::merging::{greatest, greatest_size, least, least_large, least_size};
use crate::multiples::lcm_capped;
use crate::size::Size;
use sysmem_counts::Field;
use sysmem_formats::{Offer, wide_row_bytes};

/// What entries ask of an offer's images, merged field by field.
///
/// Alignments and divisors are `None` once their least common multiple is above
/// 4,294,967,295, while the other fields go on.
#[derive(Clone, Copy, Debug)]
pub struct BoundsRead {
    min_size: Size,
    max_size: Size,
    size_alignment: Option<Size>,
    min_bytes_per_row: u32,
    max_bytes_per_row: u32,
    bytes_per_row_divisor: Option<u32>,
    start_offset_divisor: Option<u32>,
    display_rect_alignment: Option<Size>,
    required_min_size: Size,
    required_max_size: Size,
    max_width_times_height: u64,
    ghost min_width_some: { 1 ≤ min_size.width },
    ghost min_height_some: { 1 ≤ min_size.height },
    ghost min_row_some: { 1 ≤ min_bytes_per_row },
    ghost width_alignment_some: { IfSome size_alignment
        (λ s. 1 ≤ s.width) } by { Prim.hlevel props },
    ghost height_alignment_some: { IfSome size_alignment
        (λ s. 1 ≤ s.height) } by { Prim.hlevel props },
    ghost row_divisor_some: { IfSome bytes_per_row_divisor (λ n. 1 ≤ n) } by { Prim.hlevel props },
    ghost start_divisor_some: { IfSome start_offset_divisor (λ n. 1 ≤ n) } by { Prim.hlevel props },
    ghost display_width_some: { IfSome display_rect_alignment
        (λ s. 1 ≤ s.width) } by { Prim.hlevel props },
    ghost display_height_some: { IfSome display_rect_alignment
        (λ s. 1 ≤ s.height) } by { Prim.hlevel props },
}

macro_rules! own_read {
    (($own:expr) $($name:ident: $shape:ident $rule:ident $field:ident $absent:ident $range:ident,)*) => {
        BoundsRead { $($name: own_field!($rule $own.$name),)* }
    };
}

macro_rules! own_field {
    (multiple $own:expr) => { Some($own) };
    ($rule:ident $own:expr) => { $own };
}

macro_rules! more_read {
    (($a:expr, $b:expr) $($name:ident: $shape:ident $rule:ident $field:ident $absent:ident $range:ident,)*) => {{
        $(let $name = more_field!($shape $rule $a.$name, $b.$name);)*
        BoundsRead { $($name,)* }
    }};
}

macro_rules! more_field {
    (number greatest $a:expr, $b:expr) => { greatest($a, $b) };
    (number least $a:expr, $b:expr) => { least($a, $b) };
    (number multiple $a:expr, $b:expr) => { joined($a, $b) };
    (large least $a:expr, $b:expr) => { least_large($a, $b) };
    (size greatest $a:expr, $b:expr) => { greatest_size($a, $b) };
    (size least $a:expr, $b:expr) => { least_size($a, $b) };
    (size multiple $a:expr, $b:expr) => { joined_size($a, $b) };
}

macro_rules! merged_bounds {
    (($kept:expr) $($name:ident: $shape:ident $rule:ident $field:ident $absent:ident $range:ident,)*) => {{
        $(let $name = merged_field!($rule $kept.$name);)*
        Some(ImageBounds { $($name,)* })
    }};
}

macro_rules! merged_field {
    (multiple $kept:expr) => { $kept? };
    ($rule:ident $kept:expr) => { $kept };
}

impl BoundsRead {
    ghost use Rattle.sysmem_image.specs.Read.{AreRead, FitLeast, FitsLeastRow};

    /// What is kept of an offer where no entry asks for anything.
    pub fn new(offer: &Offer) -> BoundsRead
        ensures { AreRead offer.now [] result }
    {
        let own = ImageBounds::of(offer);
        bounds_table!(own_read!(own))
    }

    /// Keeps what one more entry asks for.
    pub fn add(&mut self, entry: &Entry, offer: &Offer)
        ensures { (es : List ImageBounds) → AreRead offer.now es self.old →
            AreRead offer.now (es ++ effective offer.now entry.now ∷ []) self.new }
    {
        let asked = effective(entry, offer);
        *self = self.with(&asked);
    }

    /// Whether the line of the conflict table that the field heads is true of the entries, in exact
    /// arithmetic. False of a field that heads no line of bounds.
    pub fn is_line(&self, offer: &Offer, field: Field) -> bool
        ensures { (es : List ImageBounds) → AreRead offer.now es self.now →
            IsTrue result ↔ IsBoundsLine field offer.now es }
    {
        match field {
            Field::SizeAlignment => self.size_alignment.is_none(),
            Field::BytesPerRowDivisor => self.bytes_per_row_divisor.is_none(),
            Field::StartOffsetDivisor => self.start_offset_divisor.is_none(),
            Field::DisplayRectAlignment => self.display_rect_alignment.is_none(),
            Field::RequiredMinSize => !is_size_up_to(self.min_size, self.required_min_size),
            Field::MaxSize => self.is_too_large(),
            Field::MaxWidthTimesHeight => self.has_too_many_pixels(),
            Field::MaxBytesPerRow => self.is_too_long(offer),
            _ => false,
        }
    }

    /// The bounds that stand for the offer's own and those of the entries. `None` where an
    /// alignment or a divisor has no common multiple up to 4,294,967,295, so that its line is true.
    pub fn merged(&self) -> Option<ImageBounds>
        ensures merged { (o : Offer) (es : List ImageBounds) → AreRead o es self.now →
            IfSome result (MergedOf o es) }
        ensures none { (o : Offer) (es : List ImageBounds) → AreRead o es self.now →
            IfNone result ((field : Field) × IsBoundsLine field o es) }
    {
        bounds_table!(merged_bounds!(self))
    }

    /// The least width and the least height that the entries allow, in pixels, below 2^33 each.
    /// `None` where their alignments have no common multiple up to 4,294,967,295.
    pub fn least_sides(&self) -> Option<(u64, u64)>
        ensures least { (o : Offer) (es : List ImageBounds) → AreRead o es self.now →
            IfSome result (λ s. FitLeast o es s.0 s.1) }
        ensures some { (o : Offer) (es : List ImageBounds) → AreRead o es self.now →
            IfSome result (λ _. AlignmentsMeet o es) }
        ensures none { (o : Offer) (es : List ImageBounds) → AreRead o es self.now →
            IfNone result (¬ AlignmentsMeet o es) }
        ensures small_width { IfSome result (λ s. s.0 < 2 ^ 33) }
        ensures small_height { IfSome result (λ s. s.1 < 2 ^ 33) }
    {
        let alignment = self.size_alignment?;
        let (low, large) = (self.min_size, self.required_max_size);
        let width = least_side(alignment.width, low.width, large.width);
        let height = least_side(alignment.height, low.height, large.height);
        Some((width, height))
    }

    /// The least row of the least width, in bytes, below 2^40. `None` where the row divisors have
    /// no common multiple up to 4,294,967,295.
    pub fn least_row(&self, offer: &Offer, width: u64) -> Option<u64>
        requires { width < 2 ^ 33 }
        ensures least { (es : List ImageBounds) (h : ℕ) → AreRead offer.now es self.now →
            FitLeast offer.now es width h →
            IfSome result (FitsLeastRow offer.now es width) }
        ensures some { (es : List ImageBounds) → AreRead offer.now es self.now →
            IfSome result (λ _. DivisorsMeet offer.now es) }
        ensures none { (es : List ImageBounds) → AreRead offer.now es self.now →
            IfNone result (¬ DivisorsMeet offer.now es) }
        ensures small { IfSome result (λ r. r < 2 ^ 40) }
    {
        let divisor = self.bytes_per_row_divisor?;
        Some(least_above(
            divisor,
            self.min_bytes_per_row,
            wide_row_bytes(offer, width),
        ))
    }

    /// What is kept with the bounds of one more entry.
    fn with(&self, more: &ImageBounds) -> BoundsRead
        ensures { (o : Offer) (es : List ImageBounds) → AreRead o es self.now →
            AreRead o (es ++ more.now ∷ []) result }
    {
        bounds_table!(more_read!(self, more))
    }

    /// Whether the least width or the least height is above the greatest that all allow.
    fn is_too_large(&self) -> bool
        ensures { (o : Offer) (es : List ImageBounds) → AreRead o es self.now →
            IsTrue result ↔ IsBoundsLine MaxSize o es }
    {
        match self.least_sides() {
            Some((width, height)) => {
                width > u64::from(self.max_size.width) || height > u64::from(self.max_size.height)
            }
            None => false,
        }
    }

    /// Whether the product of the least sides is above the greatest that all allow.
    fn has_too_many_pixels(&self) -> bool
        ensures { (o : Offer) (es : List ImageBounds) → AreRead o es self.now →
            IsTrue result ↔ IsBoundsLine MaxWidthTimesHeight o es }
    {
        match self.least_sides() {
            Some((width, height)) => {
                u128::from(width) * u128::from(height) > u128::from(self.max_width_times_height)
            }
            None => false,
        }
    }

    /// Whether the least row is above the greatest that all allow.
    fn is_too_long(&self, offer: &Offer) -> bool
        ensures { (es : List ImageBounds) → AreRead offer.now es self.now →
            IsTrue result ↔ IsBoundsLine MaxBytesPerRow offer.now es }
    {
        let Some((width, _)) = self.least_sides() else {
            return false;
        };
        match self.least_row(offer, width) {
            Some(row) => row > u64::from(self.max_bytes_per_row),
            None => false,
        }
    }
}

/// The least common multiple with one more, or `None` where it is above 4,294,967,295.
fn joined(kept: Option<u32>, more: u32) -> Option<u32>
    requires kept { IfSome kept (λ n. 1 ≤ n) }
    requires more { 1 ≤ more }
    ensures joined { IsJoined kept more result }
    ensures some { IfSome result (λ n. 1 ≤ n) }
    ensures small { IfSome result (λ n. n ≤ most_number) }
{
    lcm_capped(kept?, more)
}

/// The same of both dimensions.
fn joined_size(kept: Option<Size>, more: Size) -> Option<Size>
    requires width { IfSome kept (λ s. 1 ≤ s.width) }
    requires height { IfSome kept (λ s. 1 ≤ s.height) }
    requires more_width { 1 ≤ more.width }
    requires more_height { 1 ≤ more.height }
    ensures joined { IsSizeJoined kept more result }
    ensures some_width { IfSome result (λ s. 1 ≤ s.width) }
    ensures some_height { IfSome result (λ s. 1 ≤ s.height) }
    ensures small { IfSome result IsSizeInRange }
{
    let kept = kept?;
    let width = lcm_capped(kept.width, more.width)?;
    let height = lcm_capped(kept.height, more.height)?;
    Some(Size { width, height })
}

/// The least multiple of a side's alignment that isn't below its two lower
/// bounds; it may be above 32 bits.
fn least_side(alignment: u32, low: u32, large: u32) -> u64
    requires { 1 ≤ alignment }
    ensures least { IsLeastAbove alignment low large result }
    ensures small { result < 2 ^ 33 }
{
    least_above(alignment, low, u64::from(large))
}

/// The least multiple of a divisor that isn't below two numbers; it may be above 32 bits.
fn least_above(divisor: u32, low: u32, other: u64) -> u64
    requires divisor { 1 ≤ divisor }
    requires other { other < 2 ^ 36 }
    ensures least { IsLeastAbove divisor low other result }
    ensures small { result < 2 ^ 40 }
    ensures sides { other < 2 ^ 32 → result < 2 ^ 33 }
{
    other
        .max(u64::from(low))
        .next_multiple_of(u64::from(divisor))
}
