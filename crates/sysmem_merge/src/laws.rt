//! What is true of settings, whoever works them out.

ghost use Rattle.sysmem_merge.specs.Laws.{OneBest, OneFit, ReasonLeavesNone, ReasonOfSomeLeavesNone};
ghost use Rattle.sysmem_merge.specs.Laws.{OfferLineLeavesNone, PlaceLineLeavesNone, CountLineLeavesNone, SizeLineHolds};
ghost use Rattle.sysmem_merge.specs.Laws.{StandsInAnyOrder, SomeAreMet, UnmetBySome, UnnamedLineLeavesNone};
ghost use Rattle.sysmem_merge.specs.Sum.{SumsInAnyOrder};

/// Participants have at most one best settings.
pub fn one_best()
    ensures { OneBest }
{}

/// Two fits of one offer, neither of which is better than the other, are one.
pub fn one_fit()
    ensures { OneFit }
{}

/// A reason that is true of participants leaves them no settings; nor to more participants,
/// whatever their order, if it doesn't rest on what none of them names.
pub fn reason_leaves_none()
    ensures these { ReasonLeavesNone }
    ensures more { ReasonOfSomeLeavesNone }
{}

/// A line that is true of some of the participants for an offer leaves no
/// settings with that offer to all of them.
pub fn offer_line_leaves_none()
    ensures { OfferLineLeavesNone }
{}

/// A place that a field refuses to one of some of the participants is the
/// place of no settings for all of them.
pub fn place_line_leaves_none()
    ensures { PlaceLineLeavesNone }
{}

/// A count line that is true of some of the participants leaves no settings to all of them.
pub fn count_line_leaves_none()
    ensures { CountLineLeavesNone }
{}

/// What stands for participants stands for them in any order.
pub fn stands_in_any_order()
    ensures { StandsInAnyOrder }
{}

/// Settings that meet participants meet some of them, but for the names.
pub fn some_are_met()
    ensures { SomeAreMet }
{}

/// What nobody names leaves no settings.
pub fn unnamed_line_leaves_none()
    ensures { UnnamedLineLeavesNone }
{}

/// Where no settings meet some of the participants, none meet all of them.
pub fn unmet_by_some()
    ensures { UnmetBySome }
{}

/// A true line of `max_size_bytes` leaves the participants no size, with bounds that keep to
/// theirs in the fields that it reads.
pub fn size_line_holds()
    ensures { SizeLineHolds }
{}

/// A sum of participants is their sum in any order, so that a search may join the shares of
/// choices in the order of choices.
pub fn sums_in_any_order()
    ensures { SumsInAnyOrder }
{}
