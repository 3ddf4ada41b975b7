//! Merging what entries ask for.

ghost use Rattle.std.specs.Prelude.{◌≡◌, ◌↔◌, ◌≤◌, max, min, List, [], ◌∷◌, ◌++◌, OnOk, OnErr, IfOk, IfErr};
ghost use Rattle.sysmem_image.specs.declared.bounds.ImageBounds.{ImageBounds};
ghost use Rattle.sysmem_image.specs.Size.{IsSizeGreatest, IsSizeLeast, IsSizeInRange};
ghost use Rattle.sysmem_image.specs.Multiples.{IsLcm, IsSizeLcm, IsAboveLimit, IsSizeAboveLimit};
ghost use Rattle.sysmem_image.specs.Bounds.{IsTighter, IsInRange};
ghost use Rattle.sysmem_image.specs.Merged.{MergedOf, NoneMerge, IsMerged, IsFirstAbove};
ghost use Rattle.sysmem_image.specs.Lines.{IsFirstLine, IsSteady};
ghost use Rattle.sysmem_formats.specs.declared.offer.Offer.{Offer};
ghost use Rattle.sysmem_image.specs.Entries.{effective};

use crate::bounds::ImageBounds;
use crate::bounds_table;
use crate::effective::effective;
use crate::entry::Entry;
use crate::multiples::lcm_capped;
use crate::size::Size;
use sysmem_counts::Field;
use sysmem_formats::Offer;

macro_rules! merged {
    (($a:expr, $b:expr) $($name:ident: $shape:ident $rule:ident $field:ident $absent:ident $range:ident,)*) => {{
        $(let $name = merged_field!($shape $rule $field $a.$name, $b.$name);)*
        ImageBounds { $($name,)* }
    }};
}

macro_rules! merged_field {
    (number greatest $field:ident $a:expr, $b:expr) => { greatest($a, $b) };
    (number least $field:ident $a:expr, $b:expr) => { least($a, $b) };
    (number multiple $field:ident $a:expr, $b:expr) => { multiple($a, $b, Field::$field)? };
    (large least $field:ident $a:expr, $b:expr) => { least_large($a, $b) };
    (size greatest $field:ident $a:expr, $b:expr) => { greatest_size($a, $b) };
    (size least $field:ident $a:expr, $b:expr) => { least_size($a, $b) };
    (size multiple $field:ident $a:expr, $b:expr) => { multiple_size($a, $b, Field::$field)? };
}

/// Merges what an entry asks for into bounds of an offer, so that they admit what both admit.
///
/// Refuses with the first field whose common multiple is above 32 bits; the bounds are unchanged
/// then.
pub fn merge_into(bounds: &mut ImageBounds, entry: &Entry, offer: &Offer) -> Result<(), Field>
    ensures ok { OnOk result ((s : ImageBounds) →
        IsTighter s bounds.new ↔
        (IsTighter s bounds.old × IsTighter s (effective offer.now entry.now))) }
    ensures merged { (es : List ImageBounds) → MergedOf offer.now es bounds.old →
        OnOk result (MergedOf offer.now (es ++ effective offer.now entry.now ∷ []) bounds.new) }
    ensures unchanged { OnErr result (bounds.new ≡ bounds.old) }
    ensures line { (es : List ImageBounds) → MergedOf offer.now es bounds.old →
        IfErr result
        (λ field. IsFirstLine field offer.now (es ++ effective offer.now entry.now ∷ [])) }
    ensures above { IfErr result
        (λ field. IsFirstAbove field bounds.old (effective offer.now entry.now)) }
    ensures steady { IfErr result IsSteady }
    ensures none { (es : List ImageBounds) → MergedOf offer.now es bounds.old →
        OnErr result (NoneMerge offer.now (es ++ effective offer.now entry.now ∷ [])) }
{
    let more = effective(entry, offer);
    *bounds = merged(bounds, &more)?;
    Ok(())
}

/// Merges more bounds of an offer into bounds of it: where both were merged of lists, they are
/// those of both lists.
///
/// Refuses with the first field whose common multiple is above 32 bits; the bounds are unchanged
/// then.
pub fn merge_bounds(bounds: &mut ImageBounds, more: &ImageBounds) -> Result<(), Field>
    ensures ok { OnOk result ((s : ImageBounds) →
        IsTighter s bounds.new ↔ (IsTighter s bounds.old × IsTighter s more.now)) }
    ensures merged { (o : Offer) (es fs : List ImageBounds) →
        MergedOf o es bounds.old → MergedOf o fs more.now →
        OnOk result (MergedOf o (es ++ fs) bounds.new) }
    ensures unchanged { OnErr result (bounds.new ≡ bounds.old) }
    ensures line { (o : Offer) (es fs : List ImageBounds) →
        MergedOf o es bounds.old → MergedOf o fs more.now →
        IfErr result (λ field. IsFirstLine field o (es ++ fs)) }
    ensures above { IfErr result (λ field. IsFirstAbove field bounds.old more.now) }
    ensures steady { IfErr result IsSteady }
{
    *bounds = merged(bounds, more)?;
    Ok(())
}

/// The bounds that are merged of two, or the first field whose common multiple is above the limit.
fn merged(a: &ImageBounds, b: &ImageBounds) -> Result<ImageBounds, Field>
    ensures ok { IfOk result (λ m. IsMerged a.now b.now m) }
    ensures in_range { IfOk result IsInRange }
    ensures above { IfErr result (λ field. IsFirstAbove field a.now b.now) }
{
    Ok(bounds_table!(merged!(a, b)))
}

pub(crate) fn greatest(a: u32, b: u32) -> u32
    ensures { result ≡ max a b }
{
    a.max(b)
}

pub(crate) fn least_large(a: u64, b: u64) -> u64
    ensures { result ≡ min a b }
{
    a.min(b)
}

pub(crate) fn least(a: u32, b: u32) -> u32
    ensures { result ≡ min a b }
{
    a.min(b)
}

/// The least common multiple, or the field that it is of where it is above the limit.
fn multiple(a: u32, b: u32, field: Field) -> Result<u32, Field>
    requires a_some { 1 ≤ a }
    requires b_some { 1 ≤ b }
    ensures ok { IfOk result (λ m. IsLcm a b m) }
    ensures some { IfOk result (λ m. 1 ≤ m) }
    ensures named { IfErr result (λ f. f ≡ field) }
    ensures above { OnErr result (IsAboveLimit a b) }
{
    lcm_capped(a, b).ok_or(field)
}

pub(crate) fn greatest_size(a: Size, b: Size) -> Size
    ensures size { IsSizeGreatest a b result }
    ensures in_range { IsSizeInRange result }
{
    Size {
        width: a.width.max(b.width),
        height: a.height.max(b.height),
    }
}

pub(crate) fn least_size(a: Size, b: Size) -> Size
    ensures size { IsSizeLeast a b result }
    ensures in_range { IsSizeInRange result }
{
    Size {
        width: a.width.min(b.width),
        height: a.height.min(b.height),
    }
}

/// The least common multiples of both dimensions, or the field where one is above the limit.
fn multiple_size(a: Size, b: Size, field: Field) -> Result<Size, Field>
    requires a_width { 1 ≤ a.width }
    requires a_height { 1 ≤ a.height }
    requires b_width { 1 ≤ b.width }
    requires b_height { 1 ≤ b.height }
    ensures ok { IfOk result (λ m. IsSizeLcm a b m) }
    ensures some_width { IfOk result (λ m. 1 ≤ m.width) }
    ensures some_height { IfOk result (λ m. 1 ≤ m.height) }
    ensures in_range { IfOk result IsSizeInRange }
    ensures named { IfErr result (λ f. f ≡ field) }
    ensures above { OnErr result (IsSizeAboveLimit a b) }
{
    let width = multiple(a.width, b.width, field)?;
    let height = multiple(a.height, b.height, field)?;
    Ok(Size { width, height })
}
