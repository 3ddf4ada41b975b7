//! What the definitions of bounds, corners and lines imply, each as the contract of a function that
//! does nothing.

ghost use Rattle.sysmem_image.specs.Laws.{
  MergeIsIntersection,
  EffectiveKeeps,
  EffectiveAdmits,
  MergedIsExact,
  MergedSuits,
  TighterIsReflexive,
  TighterIsTransitive,
  TighterBothWays,
  LooserAdmits,
  NoCorner,
  CornerIsLeast,
  LinesHold,
  SteadyLines,
  SoundFits,
  MergedReads,
};

/// Merged bounds admit an image exactly where the offer's own
/// bounds and each merged entry admit it.
pub fn merge_is_intersection()
    ensures { MergeIsIntersection }
{}

/// The bounds that an entry puts on an offer are its own, with whole pixels
/// in a row where it asks for them.
pub fn effective_bounds()
    ensures keeps { EffectiveKeeps }
    ensures admits { EffectiveAdmits }
{}

/// Bounds that suit an offer keep to merged bounds exactly where they keep to each merged entry.
pub fn merged_is_exact()
    ensures { MergedIsExact }
{}

/// Merged bounds have alignments and a row divisor that are multiples of the offer's own.
pub fn merged_suits()
    ensures { MergedSuits }
{}

/// Bounds keep to themselves.
pub fn tighter_is_reflexive()
    ensures { TighterIsReflexive }
{}

/// What keeps to bounds keeps to what these keep to.
pub fn tighter_is_transitive()
    ensures { TighterIsTransitive }
{}

/// Bounds that keep to each other are one.
pub fn tighter_both_ways()
    ensures { TighterBothWays }
{}

/// Looser bounds admit what tighter ones admit.
pub fn looser_admits()
    ensures { LooserAdmits }
{}

/// Where the corner is refused, no image is as the bounds ask.
pub fn no_corner()
    ensures { NoCorner }
{}

/// The corner is the least image that the bounds admit and that is large enough.
pub fn corner_is_least()
    ensures { CornerIsLeast }
{}

/// A true line of bounds leaves no sound bounds that keep to the fields that it reads.
pub fn lines_hold()
    ensures { LinesHold }
{}

/// A true line about a common multiple stays true of each longer list.
pub fn steady_lines()
    ensures { SteadyLines }
{}

/// The image of sound bounds is as each list asks to which they keep.
pub fn sound_fits()
    ensures { SoundFits }
{}

/// What a corner reads of merged bounds is what it reads of the list.
pub fn merged_reads()
    ensures { MergedReads }
{}
