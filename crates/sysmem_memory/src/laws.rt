//! Laws over the definitions alone. None of them makes a call of the crate.

ghost use Rattle.std.specs.Prelude.{◌≡◌};
ghost use Rattle.list_lemmas.specs.Each.{ListsEach};
ghost use Rattle.sysmem_memory.specs.Domain.{domain_name};
ghost use Rattle.sysmem_memory.specs.PlaceTable.{place_fields};
ghost use Rattle.sysmem_memory.specs.Laws.{SameHeapIsEqual, NoPlaceBeforeItself, EarlierIsTransitive, PlacesAreInOneOrder, TrueLineLeavesNoPlace, OneFirstPlace, RefusedByAllIsNoPlace};
ghost use Rattle.sysmem_memory.specs.Laws.{ListedIsPlace, ListedInOrder};

use crate::domain::CoherencyDomain;
use crate::refusal::PLACE_FIELDS;

/// `CoherencyDomain::ALL` has each coherency domain once.
pub fn all_domains()
    ensures { ListsEach domain_name CoherencyDomain.ALL }
{}

/// `PLACE_FIELDS` are those that can refuse a place, in the order in which they are asked.
pub fn all_place_fields()
    ensures { PLACE_FIELDS ≡ place_fields }
{}

/// Two heaps compare equal exactly where their types and their ids are.
pub fn equal_heaps_are_one()
    ensures { SameHeapIsEqual }
{}

/// Places are ordered totally: first by heap, then cpu, ram, inaccessible.
pub fn places_are_ordered()
    ensures irreflexive { NoPlaceBeforeItself }
    ensures transitive { EarlierIsTransitive }
    ensures total { PlacesAreInOneOrder }
{}

/// A field that refuses a place to one participant leaves that place to
/// no list that has the participant.
pub fn a_true_line_leaves_no_place()
    ensures { TrueLineLeavesNoPlace }
{}

/// The first place is one place, and where there is none, no place is allowed by all.
pub fn one_first_place()
    ensures one { OneFirstPlace }
    ensures none { RefusedByAllIsNoPlace }
{}

/// The list of a platform's places has each of them and no other, in their order.
pub fn places_are_listed()
    ensures places { ListedIsPlace }
    ensures order { ListedInOrder }
{}
