//! Laws over the definitions alone. None of them makes a call of the crate.

ghost use Rattle.record_laws.specs.Laws.{EachParticipantIsStated, EachPlatformIsStated, ParticipantOrWants, PlatformOrWants, WrittenParticipantIsRead, WrittenPlatformIsRead};

/// Nothing that the profile allows is refused: each participant and each platform, with numbers of
/// their types, is stated by a record, the one that gives all its fields.
pub fn each_is_stated()
    ensures participants { EachParticipantIsStated }
    ensures platforms { EachPlatformIsStated }
{}

/// Where memory for one field is refused, a record's answer is the one that it has with enough
/// memory, or that memory for this field was refused.
pub fn wants_or_same()
    ensures participants { ParticipantOrWants }
    ensures platforms { PlatformOrWants }
{}

/// What is written of a participant and of a platform, without the fields whose values are what an
/// absent field stands for, is read as that participant and that platform.
pub fn written_is_read()
    ensures participants { WrittenParticipantIsRead }
    ensures platforms { WrittenPlatformIsRead }
{}
