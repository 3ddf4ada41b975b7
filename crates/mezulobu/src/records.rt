//! Records: what is wrong with one, in words.

ghost use Rattle.std.specs.Prelude.{◌≡◌, None, IfOk, IfSome};
ghost use Rattle.mezulobu.specs.Ends.{Ends};
ghost use Rattle.mezulobu.specs.RecordFaults.{FaultSays, kind_at};

use crate::TOO_SMALL;
use crate::answers::Answer;
use caller_buffers::hand_out;
use live_calls::{DONE, MISUSED, NO, NO_MEMORY};
use script_faults::{RecordKind, record_fault};
use std::alloc::{AllocError, Global};

/// What stands before lines and columns, as a record has no file.
const FILE: &str = "record";

/// Says what is wrong with a record, as JSON: its first fault, where that stands, and what would be
/// right. `kind` is the number that a refusal has of its kind: a platform's or a participant's.
#[unsafe(no_mangle)]
pub extern "C" fn mezulobu_rt_record_fault(
    alloc: Global,
    kind: u32,
    bytes: &[u8],
    text: &mut [u8],
    size: &mut usize,
) -> u32
    ensures says { IfSome (kind_at kind)
        (λ whose. Ends (FaultSays whose bytes.now) text.old text.new size.new result) }
    ensures none { kind_at kind ≡ None → result ≡ 2 }
    ensures unwritten { kind_at kind ≡ None → text.new ≡ text.old }
    ensures untold { kind_at kind ≡ None → size.new ≡ size.old }
{
    match kind_of(kind) {
        Some(whose) => hand_out_fault(alloc, whose, bytes, text, size),
        None => MISUSED,
    }
}

/// Whose record a number says that it is: 1 or 2. `None` of another number.
#[tactic(auto, using(crate::proofs::RecordSayings::other_kind))]
fn kind_of(number: u32) -> Option<RecordKind>
    ensures { result ≡ kind_at number }
{
    match number {
        1 => Some(RecordKind::Platform),
        2 => Some(RecordKind::Participant),
        _ => None,
    }
}

fn hand_out_fault(
    alloc: Global,
    whose: RecordKind,
    bytes: &[u8],
    text: &mut [u8],
    size: &mut usize,
) -> u32
    ensures { Ends (FaultSays whose bytes.now) text.old text.new size.new result }
{
    let Ok(answer) = fault_answer(alloc, whose, bytes) else {
        *size = 0;
        return NO_MEMORY;
    };
    *size = answer.text.len();
    if hand_out(&answer.text, text) {
        answer.status
    } else {
        TOO_SMALL
    }
}

/// What is said of a record. It fails where memory is refused.
#[tactic(auto, using(crate::proofs::RecordSayings::says_fault, crate::proofs::RecordSayings::says_none))]
fn fault_answer(alloc: Global, whose: RecordKind, bytes: &[u8]) -> Result<Answer, AllocError>
    ensures { IfOk result (λ answer. FaultSays whose bytes.now answer.status answer.text.items) }
{
    match record_fault(alloc, whose, bytes, FILE)? {
        Some(words) => Ok(Answer {
            status: DONE,
            text: words.into_bytes(),
        }),
        None => Ok(Answer {
            status: NO,
            text: Vec::new(alloc),
        }),
    }
}
