//! Pairs of a format and a modifier, and colour spaces, among others.

ghost use Rattle.std.specs.Prelude.{◌≡◌};
ghost use Rattle.negotiation_inputs.specs.Pairs.{same_pair, has_pair, lists_colour, is_tiled_misfit};

use sysmem_formats::{ColourSpace, Pair};

fn is_same(a: Pair, b: Pair) -> bool
    ensures { result ≡ same_pair a b }
{
    a.format as u32 == b.format as u32 && a.modifier as u32 == b.modifier as u32
}

/// Whether one of the pairs is the same.
pub fn has_pair(pairs: &[Pair], new: Pair) -> bool
    ensures { result ≡ has_pair pairs.now new }
{
    pairs.iter().any(|pair| is_same(*pair, new))
}

/// Whether a tiled modifier is with a format that isn't of 4 bytes.
pub fn is_tiled_misfit(pair: Pair) -> bool
    ensures { result ≡ is_tiled_misfit pair }
{
    sysmem_formats::is_tiled_misfit(pair)
}

/// Whether the colour space is among these.
pub fn lists_colour(colours: &[ColourSpace], new: ColourSpace) -> bool
    ensures { result ≡ lists_colour colours.now new }
{
    colours.contains(&new)
}
