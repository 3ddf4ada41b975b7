//! Laws over the definitions alone. None of them makes a call of the crate.

ghost use Rattle.negotiation_inputs.specs.Laws.{SameParticipantIsEqual, SamePlatformIsEqual};

/// What `==` calls equal is equal, and the other way round: of `Constraints` all that a participant
/// asks, and of `Platform` all that a platform has.
pub fn equal_is_same()
    ensures constraints { SameParticipantIsEqual }
    ensures platforms { SamePlatformIsEqual }
{}
