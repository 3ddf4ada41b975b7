//! Whether paths name participants, each once, and what these ask of the number of buffers.

ghost use Rattle.std.specs.Prelude.{◌↔◌, [], ◌∷◌, IfNone, IfSome, IsTrue};
ghost use Rattle.sysmem_counts.specs.Bounds.{IsTallyOf};
ghost use Rattle.offer_fits.specs.Demands.{counts_asked};
ghost use Rattle.verdict_claims.specs.Fault.{AreNamed};
ghost use Rattle.verdict_claims.specs.Roll.{asked_by, listed};

use crate::roll::Roll;
use sysmem_counts::CountBounds;
use sysmem_tree::MOST_NODES;
use verdict_claims::{PathList, add_count};

/// Whether each path is that of a participant on the roll, and none stands there twice.
pub(crate) fn are_named(roll: &Roll<'_>, paths: &PathList) -> bool
    ensures { IsTrue result ↔ AreNamed (listed roll.now) paths.now }
{
    let mut seen = [false; MOST_NODES];
    for path in paths.iter() {
        let Some(number) = roll.number_of(path) else {
            return false;
        };
        if seen[number] {
            return false;
        }
        seen[number] = true;
    }
    true
}

/// What the participants at the paths ask of the number of buffers; `None` where the paths don't
/// name participants on the roll, each once.
pub(crate) fn counts_named(roll: &Roll<'_>, paths: &PathList) -> Option<CountBounds>
    ensures none { IfNone result (¬ (AreNamed (listed roll.now) paths.now)) }
    ensures named { IfSome result (λ _. AreNamed (listed roll.now) paths.now) }
    ensures counts { IfSome result
        (λ counts. IsTallyOf counts (counts_asked (asked_by (listed roll.now) paths.now))) }
{
    roll.few_named();
    let mut counted = [false; MOST_NODES];
    let mut counts = CountBounds::new();
    for path in paths.iter() {
        let (number, asked) = roll.named_at(path)?;
        if counted[number] {
            return None;
        }
        counted[number] = true;
        add_count(&mut counts, Some(asked));
    }
    Some(counts)
}

/// Whether the path is that of a participant on the roll.
pub(crate) fn is_named(roll: &Roll<'_>, path: &[u32]) -> bool
    ensures { IsTrue result ↔ AreNamed (listed roll.now) (path.now ∷ []) }
{
    roll.has(path)
}
