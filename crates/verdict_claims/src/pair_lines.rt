//! Lines that the offers of a pair have in common.

ghost use Rattle.std.specs.Prelude.{◌≡◌, ◌≢◌, Bool, List, IsTrue};
ghost use Rattle.sysmem_counts.specs.declared.field.Field.TheVariants.{ColorSpaces, UnnamedColorSpace};
ghost use Rattle.sysmem_formats.specs.declared.offer.Offer.TheVariants.{NoImage};
ghost use Rattle.verdict_claims.specs.Conflict.{RefusesOffer};
ghost use Rattle.verdict_claims.specs.FirstConflict.{AreOfPair};
ghost use Rattle.verdict_claims.specs.Line.{LineFacts};
ghost use Rattle.sysmem_tree.specs.Shape.{Member};

use sysmem_counts::Field;
use sysmem_formats::{Offer, Pair};

/// Whether each line with this field that refuses the one offer refuses the other: they are of one
/// pair, and no such line speaks of the colour space.
pub fn is_shared(field: Field, one: &Offer, other: &Offer) -> bool
    ensures image { IsTrue result → one.now ≢ NoImage }
    ensures shared { IsTrue result → (whole : Bool) (ms : List Member) (line : LineFacts)
        → line.field ≡ field → RefusesOffer whole ms one.now line
        → RefusesOffer whole ms other.now line }
    ensures pair { IsTrue result → AreOfPair one.now other.now }
    ensures ignores { IsTrue result → (field ≢ ColorSpaces) × (field ≢ UnnamedColorSpace) }
{
    let (Offer::Image(pair, _), Offer::Image(own, _)) = (one, other) else {
        return false;
    };
    if !ignores_colour(field) {
        return false;
    }
    is_same_pair(pair, own)
}

/// Whether both pairs are the same.
pub fn is_same_pair(one: &Pair, other: &Pair) -> bool
    ensures { IsTrue result → one.now ≡ other.now }
{
    one == other
}

/// Whether no line with this field speaks of an offer's colour space.
fn ignores_colour(field: Field) -> bool
    ensures { IsTrue result → (field ≢ ColorSpaces) × (field ≢ UnnamedColorSpace) }
{
    !matches!(field, Field::ColorSpaces | Field::UnnamedColorSpace)
}
