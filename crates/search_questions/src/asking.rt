//! The settings for the participants of a level, whose pairs are joined as they are looked at.

ghost use Rattle.std.specs.Prelude.{◌≡◌, ◌≢◌, ◌<◌, ◌≤◌, ◌+◌, ℕ, List, Some, IfSome, IsSomeAnd, length, slice_get};
ghost use Rattle.search_questions.specs.Asking.{HasPairsAt, IsAnswer, JoinsPairs, LooksAt};
ghost use Rattle.search_questions.specs.Standing.{StandsAt};
ghost use Rattle.search_questions.specs.declared.levels.Level.{Level as ALevel};
ghost use Rattle.sysmem_tree.specs.Forest.{settled};
ghost use Rattle.sysmem_tree.specs.Selection.{after};
ghost use Rattle.sysmem_tree.specs.declared.layout.Layout.{Layout};
ghost use Rattle.verdict_claims.specs.Matter.{Matter, forest};

use crate::kept::ChoiceShare;
use crate::levels::Level;
use conflict_finding::Subject;
use sysmem_merge::Settings;

/// Joins the pairs up to so many of the level below this depth, by a part.
fn join_below(levels: &mut Vec<Level>, depth: usize, part: &ChoiceShare, pairs: usize)
    requires there { depth + 1 < length levels.old.items }
    ensures many { length levels.new.items ≡ length levels.old.items }
    ensures same { (k : ℕ) → k ≢ depth + 1
        → slice_get levels.new.items k ≡ slice_get levels.old.items k }
    ensures joined { (above old : ALevel) → slice_get levels.old.items depth ≡ Some above
        → slice_get levels.old.items (depth + 1) ≡ Some old
        → IsSomeAnd (slice_get levels.new.items (depth + 1)) (λ level.
        (level.group ≡ old.group) × (level.slot ≡ old.slot)
        × JoinsPairs above.kept part.now pairs old.kept level.kept) }
{
    let (above, below) = levels.split_at_mut(depth + 1);
    let level = &mut below[0];
    level.kept.join_pairs(&above[depth].kept, part, pairs);
}

/// Joins the pairs up to so many of the level at this depth, and before of those above that haven't
/// them.
fn join_to(levels: &mut Vec<Level>, parts: &[Option<ChoiceShare>], depth: usize, pairs: usize)
    requires there { depth < length levels.old.items }
    ensures many { length levels.new.items ≡ length levels.old.items }
    ensures same { (k : ℕ) → depth < k
        → slice_get levels.new.items k ≡ slice_get levels.old.items k }
    ensures stands { (m : Matter) (layout : Layout) (cs : List ℕ) → depth ≤ length cs
        → pairs ≤ length m.platform.pairs → StandsAt m layout parts.now levels.old.items cs
        → StandsAt m layout parts.now levels.new.items cs
        × HasPairsAt levels.new.items depth pairs }
{
    let level = &levels[depth];
    if depth == 0 || level.kept.has_pairs(pairs) {
        return;
    }
    let Some(Some(part)) = parts.get(level.slot) else {
        return;
    };
    join_to(levels, parts, depth - 1, pairs);
    join_below(levels, depth - 1, part, pairs);
}

/// Has the pair at this index joined on the level at this depth. Where it isn't, as many behind it
/// are too as were looked at from the first on, so that few calls join many.
#[inline(always)]
fn join_ahead(
    levels: &mut Vec<Level>,
    parts: &[Option<ChoiceShare>],
    depth: usize,
    first: usize,
    index: usize,
    all: usize,
)
    requires there { depth < length levels.old.items }
    requires within { index < all }
    ensures many { length levels.new.items ≡ length levels.old.items }
    ensures stands { (m : Matter) (layout : Layout) (cs : List ℕ) → depth ≤ length cs
        → all ≤ length m.platform.pairs → StandsAt m layout parts.now levels.old.items cs
        → StandsAt m layout parts.now levels.new.items cs
        × HasPairsAt levels.new.items depth (index + 1) }
{
    if levels[depth].kept.has_pairs(index + 1) {
        return;
    }
    let ahead = index.saturating_sub(first);
    join_to(
        levels,
        parts,
        depth,
        (index + 1).saturating_add(ahead).min(all),
    );
}

/// What a look at the pair at this index gives for the level at this depth.
#[inline(always)]
fn look_at(
    levels: &mut Vec<Level>,
    subject: &Subject<'_>,
    depth: usize,
    index: usize,
    whole: bool,
) -> Option<Settings>
    requires there { depth < length levels.old.items }
    ensures many { length levels.new.items ≡ length levels.old.items }
    ensures same { (k : ℕ) → k ≢ depth
        → slice_get levels.new.items k ≡ slice_get levels.old.items k }
    ensures looked { (old : ALevel) → slice_get levels.old.items depth ≡ Some old
        → IsSomeAnd (slice_get levels.new.items depth) (λ level.
        (level.group ≡ old.group) × (level.slot ≡ old.slot)
        × LooksAt index whole subject.now old.kept level.kept result) }
{
    levels[depth].kept.ask_pair(subject, index, whole)
}

/// The best settings for the participants of the level at this depth, where no choice is made
/// further on; `None` where none meet them. `whole` says that they are all that there are. It takes
/// no memory.
// In line, a caller that asks only whether there are any copies no settings.
#[inline(always)]
pub(crate) fn best_at(
    levels: &mut Vec<Level>,
    parts: &[Option<ChoiceShare>],
    subject: &Subject<'_>,
    depth: usize,
    whole: bool,
) -> Option<Settings>
    requires there { depth < length levels.old.items }
    ensures stands { (layout : Layout) (cs : List ℕ) → length cs ≡ depth
        → StandsAt subject.now layout parts.now levels.old.items cs
        → StandsAt subject.now layout parts.now levels.new.items cs }
    ensures answer { (layout : Layout) (cs : List ℕ) → length cs ≡ depth
        → StandsAt subject.now layout parts.now levels.old.items cs
        → IfSome (after (forest subject.now) cs)
        (λ d. IsAnswer whole subject.now (settled d) result) }
{
    let from = match levels[depth].kept.ask(subject, whole) {
        Ok(known) => return known,
        Err(from) => from,
    };
    let all = subject.platform().pairs().len();
    for index in from..all {
        join_ahead(levels, parts, depth, from, index, all);
        let found = look_at(levels, subject, depth, index, whole);
        if found.is_some() {
            return found;
        }
    }
    None
}
