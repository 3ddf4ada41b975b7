//! What numbers mean.

ghost use Rattle.std.specs.Prelude.{◌≡◌, option_map};
ghost use Rattle.live_calls.specs.Numbers.{action_at, code_number, status_of, denial_status};
ghost use Rattle.sysmem_tree.specs.ActionKind.{deed_of};

use live_book::Denial;
use record_reading::Code;
use sysmem_tree::{Action, Refusal};

/// The call did what it is for.
pub const DONE: u32 = 0;

/// What isn't fit for a call lies behind the handle.
pub const MISUSED: u32 = 2;

/// There is no such text, a struct or a record states nothing, or a name is none.
pub const REFUSED: u32 = 3;

/// Memory was refused.
pub const NO_MEMORY: u32 = 4;

pub(crate) const TOO_SMALL: u32 = 5;

/// Nothing waits, nobody is in the way, or another node has the name.
pub const NO: u32 = 6;

/// That a domain waits for a decision, which has to be entered first.
pub(crate) const BUSY: u32 = 27;

/// The status of a refusal: `NO_MEMORY` of E1, and 16 and its number of the others.
pub(crate) fn status_of(refusal: Refusal) -> u32
    ensures { result ≡ status_of refusal }
{
    match refusal {
        Refusal::NoMemory => NO_MEMORY,
        Refusal::WrongState => 18,
        Refusal::TooManyNodes => 19,
        Refusal::NoChildren => 20,
        Refusal::NotSelected => 21,
        Refusal::DomainFailed => 22,
        Refusal::ConstraintsIntersectionEmpty => 23,
        Refusal::TooManyGroupChildCombinations => 24,
        Refusal::Pending => 25,
        Refusal::Strange => 26,
    }
}

/// The status of a call that is denied.
pub(crate) fn denial_status(denial: Denial) -> u32
    ensures { result ≡ denial_status denial }
{
    match denial {
        Denial::Busy => BUSY,
        Denial::Refused(refusal) => status_of(refusal),
    }
}

/// The action of a number, 1 to 9; the sixth sets no constraints. `None` of another number.
#[tactic(auto, using(crate::proofs::OtherNumbers::other_number))]
pub fn action_of(number: u32) -> Option<Action>
    ensures { option_map (λ action. deed_of action) result ≡ action_at number }
{
    match number {
        1 => Some(Action::Duplicate),
        2 => Some(Action::CreateGroup),
        3 => Some(Action::Bind),
        4 => Some(Action::CreateChild),
        5 => Some(Action::AllChildrenPresent),
        6 => Some(Action::SetConstraints(None)),
        7 => Some(Action::AttachToken),
        8 => Some(Action::Release),
        9 => Some(Action::Close),
        _ => None,
    }
}

/// The number of a fault's code: 1 for S1 and so on.
pub(crate) fn code_number(code: Code) -> u32
    ensures { result ≡ code_number code }
{
    match code {
        Code::NotAnObject => 1,
        Code::UnknownField => 2,
        Code::WrongKind => 3,
        Code::UnknownName => 4,
        Code::BadUsage => 5,
        Code::NoColourSpaces => 6,
        Code::BadMultiple => 7,
        Code::RepeatedPair => 8,
        Code::TooMany => 9,
        Code::RepeatedHeap => 10,
        Code::BadPlatformList => 11,
        Code::TiledMisfit => 12,
        Code::WantOfMemory => 13,
    }
}
