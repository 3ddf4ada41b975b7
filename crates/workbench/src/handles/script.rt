//! A script that is played.

ghost use Rattle.std.specs.Prelude.{◌≡◌};
ghost use Rattle.sysmem_room.specs.Counting.{all_parts};

use super::ending::{end, put_audit};
use super::hand::Hand;
use super::playing::play_calls;
use super::showing::put_open;
use negotiation_inputs::Constraints;
use record_reading::{Code, Fault};
use script_reading::{Act, Call, Script};
use std::alloc::{AllocError, Global};
use std::marker::Brand;
use std::sync::ledger::{Blank, Ledger};
use std::sync::{Arc, Wait};
use std::thread::Threads;
use sysmem_participants::{Allocator, Stub};
use sysmem_sanitise::read_constraints;
use sysmem_search::NoGate;

/// What a call asks for, if it states anything, or why that can't be read.
pub(crate) type AskedConstraints = Result<Option<Arc<Constraints>>, Fault>;

/// What each call asks for.
pub(crate) fn all_stated(
    alloc: Global,
    calls: &[Call<'_>],
) -> Result<Vec<AskedConstraints>, AllocError> {
    let mut asked = Vec::with_capacity(alloc, calls.len())?;
    for call in calls {
        asked.push(stated(alloc, &call.act)?)?;
    }
    Ok(asked)
}

fn stated(alloc: Global, act: &Act<'_>) -> Result<AskedConstraints, AllocError> {
    let Act::SetConstraints(Some(stated)) = *act else {
        return Ok(Ok(None));
    };
    match read_constraints(alloc, stated.value()) {
        Ok(asked) => Ok(Ok(Some(Arc::new(alloc, asked)?))),
        Err(fault) if fault.code == Code::WantOfMemory => Err(AllocError),
        Err(fault) => Ok(Err(fault)),
    }
}

/// What the handles of a collection answer to the calls of a script. All memory is taken before the
/// first call, but for what the calls themselves take.
pub(crate) fn report_of<R: Threads + Wait + Sync>(
    rt: &R,
    alloc: Global,
    script: Script<'_>,
) -> Result<String, AllocError> {
    let Script { platform, calls } = script;
    let asked = all_stated(alloc, &calls)?;
    let allocator = Allocator::new(alloc, platform, NoGate)?;
    let mut text = String::with_capacity(alloc, 1 << 16)?;
    play(rt, alloc, &allocator, &calls, &asked, &mut text)?;
    Ok(text)
}

/// Plays the calls on a new collection, and on a second one where memory is refused to the first.
fn play<R: Threads + Wait + Sync>(
    rt: &R,
    alloc: Global,
    allocator: &Allocator<NoGate>,
    calls: &[Call<'_>],
    asked: &[AskedConstraints],
    text: &mut String,
) -> Result<(), AllocError> {
    if play_on::<Brand, R>(rt, alloc, allocator, Blank::new(129), calls, asked, text)? {
        return Ok(());
    }
    text.push_str("allocate_shared E1 NoMemory\n")?;
    play_on::<Brand, R>(rt, alloc, allocator, Blank::new(129), calls, asked, text)?;
    Ok(())
}

/// Plays the calls on a new collection; `false` where memory is refused to it, and then no call was
/// made.
fn play_on<L: Ledger, R: Threads + Wait + Sync>(
    rt: &R,
    alloc: Global,
    allocator: &Allocator<NoGate>,
    blank: Blank,
    calls: &[Call<'_>],
    asked: &[AskedConstraints],
    text: &mut String,
) -> Result<bool, AllocError>
    requires name { blank.name ≡ L.name }
    requires ledger { blank.parts ≡ L.parts }
    requires parts { blank.parts ≡ all_parts }
{
    let stubs = Vec::with_capacity(alloc, 129)?;
    let mut hands = Vec::with_capacity(alloc, 4097)?;
    match allocator.allocate_shared::<L>(blank) {
        Ok(root) => hands.push_reserved(Hand::Token(root)),
        Err(_no_memory) => {
            hands.destroy_empty();
            return Ok(false);
        }
    }
    play_with(rt, hands, stubs, calls, asked, text)?;
    Ok(true)
}

/// Plays the calls on these hands, of which the first is the root's.
fn play_with<L: Ledger, R: Threads + Wait + Sync>(
    rt: &R,
    hands: Vec<Hand<L>>,
    stubs: Vec<Stub<L>>,
    calls: &[Call<'_>],
    asked: &[AskedConstraints],
    text: &mut String,
) -> Result<(), AllocError> {
    let mut hands = hands;
    let played = play_calls(rt, &mut hands, calls, asked, text);
    let shown = put_open(text, &mut hands, calls);
    let stubs = end(rt, hands, stubs);
    played?;
    shown?;
    put_audit(rt, text, stubs)
}
