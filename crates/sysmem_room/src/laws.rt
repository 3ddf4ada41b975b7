//! What limits keep, whoever acts.

ghost use Rattle.sysmem_room.specs.Laws.{LimitGoesOn};

use sysmem_alloc::laws::legal_is_sound;
use sysmem_tree::laws::one_path;

/// A history whose actions were within the limits goes on so, with each action that `Room::act`
/// accepts and with each decision.
pub fn limit_goes_on()
    ensures { LimitGoesOn }
{
    legal_is_sound();
    one_path();
}
