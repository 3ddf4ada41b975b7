//! What limits keep, whoever acts.

ghost use Rattle.node_limits.specs.Laws.{LimitIsKept};

use sysmem_alloc::laws::{legal_is_sound, numbers_stay};
use sysmem_tree::laws::one_path;

/// Where each action was within the limits as it was entered, no child of the root ever has more
/// nodes below it than they allow.
pub fn limit_is_kept()
    ensures { LimitIsKept }
{
    legal_is_sound();
    numbers_stay();
    one_path();
}
