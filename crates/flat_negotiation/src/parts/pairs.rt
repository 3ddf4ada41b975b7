//! The pairs of a platform.

ghost use Rattle.std.specs.Prelude.{◌≡◌, ◌<◌, IfErr, IfNone, IfOk, IfSome, IsSomeAnd, slice_get};
ghost use Rattle.std.specs.List.{AllZip};
ghost use Rattle.sysmem_formats.specs.declared.offer.Pair.{Pair as Codes};
ghost use Rattle.flat_negotiation.specs.Pairs.{HasCodes, IsPairSaid, PairUnsaid};
ghost use Rattle.flat_negotiation.specs.Unsaid.{IfAmiss, IsAmiss};

use crate::parts::flat::FlatPair;
use crate::parts::unsaid::{Amiss, Unsaid, add};
use drm_images::{format_of, modifier_of};
use std::alloc::Global;
use sysmem_counts::Field;
use sysmem_formats::Pair;

/// The pair that has these codes.
pub(crate) fn pair_of(format: u32, modifier: u64) -> Option<Pair>
    ensures found { IfSome result (HasCodes format modifier) }
    ensures none { IfNone result ((pair : Codes) → HasCodes format modifier pair → ⊥) }
{
    let format = format_of(format)?;
    let modifier = modifier_of(modifier)?;
    Some(Pair { format, modifier })
}

fn stated_pair(flat: FlatPair) -> Result<Pair, Field>
    ensures said { IfOk result (IsPairSaid flat) }
    ensures amiss { IfErr result (λ field. PairUnsaid field flat) }
{
    let Some(format) = format_of(flat.format) else {
        return Err(Field::PixelFormat);
    };
    let Some(modifier) = modifier_of(flat.modifier) else {
        return Err(Field::PixelFormatModifier);
    };
    Ok(Pair { format, modifier })
}

/// The pairs that the structs state. It fails where memory is refused, or where no format or no
/// modifier has a code.
pub fn pairs_of(alloc: Global, flats: &[FlatPair]) -> Result<Vec<Pair>, Unsaid>
    ensures said { IfOk result (λ pairs. AllZip IsPairSaid flats.now pairs.items) }
    ensures amiss { IfErr result (IfAmiss (IsAmiss PairUnsaid flats.now)) }
{
    let mut pairs = Vec::new(alloc);
    for index in 0..flats.len() {
        match stated_pair(flats[index]) {
            Ok(pair) => add(&mut pairs, pair)?,
            Err(field) => return Err(Unsaid::Misstated(Amiss { index, field })),
        }
    }
    Ok(pairs)
}
