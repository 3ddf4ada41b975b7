//! What is true of verdicts and of their certificates, whoever works them out.

ghost use Rattle.verdict_claims.specs.Cannot.{LinesSay};
ghost use Rattle.verdict_claims.specs.Finder.{SomeAreNamed, CountsAreOfSome, FixedCountsAreOfSome, BoundsAreOfSome, ReasonsAreConflicts};
ghost use Rattle.verdict_claims.specs.Laws.{OneAnswer, CutsLoseNothing, SelectionsSplit, EarlierGoesBy, ConflictsAreTrue, TestsAreExact, FaultsAreFirst, AllRefutationsGrow, LeastIsComputed, OptimalHasProof};

use sysmem_merge::laws::{
    count_line_leaves_none, offer_line_leaves_none, one_best, one_fit, place_line_leaves_none,
    some_are_met, unnamed_line_leaves_none,
};
use sysmem_tree::laws::{members_stand_once, one_forest, one_path};

/// Two optimal verdicts of one domain, initial or attached on the same base, are equal
/// in kind, selection and settings.
pub fn one_answer()
    ensures { OneAnswer }
{
    one_best();
}

/// Where nothing meets the participants that are settled, but for the names of an image, nothing
/// meets a selection that goes on from there.
pub fn cuts_lose_nothing()
    ensures { CutsLoseNothing }
{
    some_are_met();
}

/// The selections of a forest are those of its choices for the first group.
pub fn selections_split()
    ensures { SelectionsSplit }
{}

/// What is earlier than a selection takes a smaller child somewhere, where
/// it chose as the selection before.
pub fn earlier_goes_by()
    ensures { EarlierGoesBy }
{}

/// A conflict leaves no settings to what is settled, nor to any selection that goes on from there.
pub fn conflicts_are_true()
    ensures { ConflictsAreTrue }
{
    offer_line_leaves_none();
    place_line_leaves_none();
    count_line_leaves_none();
    unnamed_line_leaves_none();
}

/// What is tested of a verdict and its certificate is exactly that the verdict is
/// optimal and the certificate one.
pub fn tests_are_exact()
    ensures { TestsAreExact }
{
    offer_line_leaves_none();
    place_line_leaves_none();
    count_line_leaves_none();
    unnamed_line_leaves_none();
}

/// A true line leaves no settings that are as the participants ask in what the line reads.
pub fn lines_say()
    ensures { LinesSay }
{}

/// Who has a count field makes a count line true, of a fixed count too, and who has an entry for an
/// offer a line of its bounds; and settled participants are named by their paths.
pub fn some_are_named()
    ensures counts { CountsAreOfSome }
    ensures fixed_counts { FixedCountsAreOfSome }
    ensures bounds { BoundsAreOfSome }
    ensures named { SomeAreNamed }
{}

/// Where there is a reason why no settings meet the settled participants of an initial domain,
/// a conflict of its kind is true of them: of a count line the same field, else a line for
/// each place, or one for each offer.
pub fn reasons_are_conflicts()
    ensures { ReasonsAreConflicts }
{}

/// What fails a test doesn't pass, and there is one number of the first test that is failed.
pub fn faults_are_first()
    ensures { FaultsAreFirst }
{}

/// Refutations of a group's choices, behind a split on it, refute what it stands
/// in; and what refutes the choices before the chosen one goes in front of what
/// refutes the earlier ones after it.
pub fn refutations_grow()
    ensures { AllRefutationsGrow }
{}

/// Settings that meet participants are the least of their offer in their place exactly where they
/// are those of the offer's best fit and the least count.
pub fn least_is_computed()
    ensures { LeastIsComputed }
{
    one_fit();
}

/// For each optimal verdict on a domain of a tree, initial or attached on its base,
/// there is a proof that proves it.
pub fn optimal_has_proof()
    ensures { OptimalHasProof }
{
    one_path();
    one_forest();
    members_stand_once();
}
