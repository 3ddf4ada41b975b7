//! What is true of counts, whoever works them out.

ghost use Rattle.list_lemmas.specs.Each.{ListsEach};
ghost use Rattle.sysmem_counts.specs.Field.{field_name};
ghost use Rattle.sysmem_counts.specs.Laws.{CountLineLeavesNoCount, CountSuitsSome, OneLeastCount};
ghost use Rattle.sysmem_counts.specs.Laws.{FixedCountLineHolds, UnsuitedCountHasLine};

use crate::field::Field;

/// `Field::ALL` has each field once.
pub fn all_fields()
    ensures { ListsEach field_name Field.ALL }
{}

/// What suits participants suits some of them.
pub fn count_suits_some()
    ensures { CountSuitsSome }
{}

/// A count line that is true of some participants leaves no count for all of them.
pub fn count_line_leaves_no_count()
    ensures { CountLineLeavesNoCount }
{}

/// Participants have at most one least count.
pub fn one_least_count()
    ensures { OneLeastCount }
{}

/// Where the count is fixed, a line that is true of some participants means that it
/// doesn't suit all of them; and where a count up to 128 doesn't suit participants, one
/// of the two lines is true of them.
pub fn fixed_count_lines()
    ensures holds { FixedCountLineHolds }
    ensures some { UnsuitedCountHasLine }
{}
