//! The threads of the camera, of the encoder, and of the app, which lets a recorder in.

ghost use Rattle.std.specs.Prelude.{◌≡◌};
ghost use Rattle.sysmem_room.specs.Counting.{all_parts};

use crate::failure::Failure;
use crate::happened::script_by;
use crate::start::Start;
use negotiation_inputs::Constraints;
use std::alloc::{AllocError, Global};
use std::sync::ledger::{Blank, Ledger};
use std::sync::{Arc, Mutex, Wait};
use std::thread;
use std::thread::Threads;
use sysmem_merge::Settings;
use sysmem_participants::{Allocator, Audit, Collection, Reader, Stub, Token, audit};
use sysmem_search::NoGate;
use sysmem_tree::Refusal;

/// What each asks for.
#[derive(Drop)]
pub(crate) struct Asks {
    pub(crate) camera: Arc<Constraints>,
    pub(crate) encoder: Arc<Constraints>,
    pub(crate) recorder: Arc<Constraints>,
}

/// What each was told, what an audit found of all, and what happened, as a script.
#[derive(Drop)]
pub(crate) struct Outcomes {
    pub(crate) camera: Result<Settings, Refusal>,
    pub(crate) encoder: Result<Settings, Refusal>,
    /// `None` where it wasn't let in.
    pub(crate) recorder: Option<Result<Settings, Refusal>>,
    pub(crate) audit: Audit,
    /// `None` where somebody acted while a decision was made.
    pub(crate) script: Option<Vec<u8>>,
}

/// How a token comes to another thread. A closure can't own one, since a token has to be spent, and
/// a closure may be let go.
type Slot<L> = Mutex<Option<Token<L, NoGate>>>;

/// What a participant was told, and what is left of its handle.
#[derive(Drop)]
struct Outcome<L: Ledger> {
    told: Result<Settings, Refusal>,
    stub: Stub<L>,
}

/// The slots of the three tokens.
struct Slots<L: Ledger> {
    app: Slot<L>,
    camera: Slot<L>,
    encoder: Slot<L>,
}

/// What the threads leave behind.
#[derive(Drop)]
struct Parts<L: Ledger> {
    app: Option<Stub<L>>,
    camera: Option<Outcome<L>>,
    encoder: Option<Outcome<L>>,
    /// `None` where it wasn't let in.
    recorder: Option<Outcome<L>>,
}

/// A camera and an encoder share buffers, and once they have them a recorder is let in.
pub(crate) fn share<L: Ledger + Send + Sync, R: Threads + Wait + Sync>(
    rt: &R,
    alloc: Global,
    allocator: &Allocator<NoGate>,
    blank: Blank,
    asks: &Asks,
) -> Result<Outcomes, Failure>
    requires name { blank.name ≡ L.name }
    requires ledger { blank.parts ≡ L.parts }
    requires parts { blank.parts ≡ all_parts }
{
    let Ok(mut root) = allocator.allocate_shared::<L>(blank) else {
        return Err(Failure::NoMemory);
    };
    let reader = root.reader();
    let camera = Mutex::new(root.duplicate(rt).ok());
    let encoder = Mutex::new(root.duplicate(rt).ok());
    let app = Mutex::new(Some(root));
    let slots = Slots {
        app,
        camera,
        encoder,
    };
    let parts = Mutex::new(Parts {
        app: None,
        camera: None,
        encoder: None,
        recorder: None,
    });
    let have_acted = act(rt, &slots, asks, &parts);
    let Slots {
        app,
        camera,
        encoder,
    } = slots;
    end(rt, camera);
    end(rt, encoder);
    end(rt, app);
    if !have_acted {
        return Err(Failure::NoThread);
    }
    audited(rt, alloc, parts.into_inner(), reader)
}

/// Has the three act on a thread each, and waits for their ends. Where one can't be started none
/// acts, and the result is `false`.
fn act<L: Ledger + Send + Sync, R: Threads + Wait + Sync>(
    rt: &R,
    slots: &Slots<L>,
    asks: &Asks,
    parts: &Mutex<Parts<L>>,
) -> bool {
    let start = Start::new();
    let start = &start;
    thread::scope(thread::scope_env(), rt, |scope| {
        let are_all_there = scope
            .spawn(move || lead(rt, start, slots, asks, parts))
            .is_ok()
            && scope
                .spawn(move || film(rt, start, slots, asks, parts))
                .is_ok()
            && scope
                .spawn(move || encode(rt, start, slots, asks, parts))
                .is_ok();
        start.tell(rt, are_all_there);
        are_all_there
    })
}

/// The token that was left here, if there is one.
fn taken<L: Ledger, R: Wait>(rt: &R, slot: &Slot<L>) -> Option<Token<L, NoGate>> {
    slot.lock(rt).take()
}

/// Spends the token that nobody took, if there is one.
fn end<L: Ledger, R: Threads + Wait + Sync>(rt: &R, slot: Slot<L>) {
    if let Some(token) = slot.into_inner() {
        let _stub = token.close(rt);
    }
}

/// The app's thread, on which the recorder takes part then, if it is let in.
fn lead<L: Ledger, R: Threads + Wait + Sync>(
    rt: &R,
    start: &Start,
    slots: &Slots<L>,
    asks: &Asks,
    parts: &Mutex<Parts<L>>,
) {
    if !start.awaited(rt) {
        return;
    }
    let (app, late) = invite(rt, taken(rt, &slots.app));
    let recorder = take_part(rt, late, &asks.recorder);
    let mut parts = parts.lock(rt);
    parts.app = app;
    parts.recorder = recorder;
}

/// The camera's thread.
fn film<L: Ledger, R: Threads + Wait + Sync>(
    rt: &R,
    start: &Start,
    slots: &Slots<L>,
    asks: &Asks,
    parts: &Mutex<Parts<L>>,
) {
    if start.awaited(rt) {
        let camera = take_part(rt, taken(rt, &slots.camera), &asks.camera);
        parts.lock(rt).camera = camera;
    }
}

/// The encoder's thread.
fn encode<L: Ledger, R: Threads + Wait + Sync>(
    rt: &R,
    start: &Start,
    slots: &Slots<L>,
    asks: &Asks,
    parts: &Mutex<Parts<L>>,
) {
    if start.awaited(rt) {
        let encoder = take_part(rt, taken(rt, &slots.encoder), &asks.encoder);
        parts.lock(rt).encoder = encoder;
    }
}

/// What is left of the app's handle, and a token for who is late, where there is one.
fn invite<L: Ledger, R: Threads + Wait + Sync>(
    rt: &R,
    token: Option<Token<L, NoGate>>,
) -> (Option<Stub<L>>, Option<Token<L, NoGate>>) {
    let Some(token) = token else {
        return (None, None);
    };
    let mut app = match token.bind(rt) {
        Ok(app) => app,
        Err((token, _refusal)) => return (Some(token.close(rt).0), None),
    };
    let late = late_token(rt, &mut app).ok();
    (Some(app.close(rt).0), late)
}

/// Asks for nothing, waits until the others have their buffers, and makes a token for who is late.
fn late_token<L: Ledger, R: Threads + Wait + Sync>(
    rt: &R,
    app: &mut Collection<L, NoGate>,
) -> Result<Token<L, NoGate>, Refusal> {
    app.set_constraints(rt, None)?;
    app.wait_for_all(rt)?;
    app.attach_token(rt)
}

/// Has a participant take part: what it is told, and what is left of its handle; `None` where there
/// is no token.
fn take_part<L: Ledger, R: Threads + Wait + Sync>(
    rt: &R,
    token: Option<Token<L, NoGate>>,
    asked: &Arc<Constraints>,
) -> Option<Outcome<L>> {
    let mut collection = match token?.bind(rt) {
        Ok(collection) => collection,
        Err((token, refusal)) => {
            return Some(Outcome {
                told: Err(refusal),
                stub: token.close(rt).0,
            });
        }
    };
    let told = negotiate(rt, &mut collection, asked);
    Some(Outcome {
        told,
        stub: collection.close(rt).0,
    })
}

/// States what is asked for, and waits for the settings that all share.
fn negotiate<L: Ledger, R: Threads + Wait + Sync>(
    rt: &R,
    collection: &mut Collection<L, NoGate>,
    asked: &Arc<Constraints>,
) -> Result<Settings, Refusal> {
    let Ok(own) = Arc::try_clone(asked) else {
        return Err(Refusal::NoMemory);
    };
    collection.set_constraints(rt, Some(own))?;
    let view = collection.wait_for_all(rt)?;
    Ok(view.settings())
}

/// What each was told, what an audit finds of what is left of all handles, and what happened.
fn audited<L: Ledger, R: Threads + Wait + Sync>(
    rt: &R,
    alloc: Global,
    parts: Parts<L>,
    reader: Result<Reader<L>, AllocError>,
) -> Result<Outcomes, Failure> {
    let (Some(app), Some(camera), Some(encoder)) = (parts.app, parts.camera, parts.encoder) else {
        return Err(Failure::NoMemory);
    };
    let mut stubs = Vec::from_array(alloc, [app, camera.stub, encoder.stub])?;
    let recorder = told_to(&mut stubs, parts.recorder)?;
    match audit(rt, stubs) {
        Ok((audit, _seen)) => Ok(Outcomes {
            camera: camera.told,
            encoder: encoder.told,
            recorder,
            audit,
            script: script_by(rt, alloc, &reader?)?,
        }),
        Err((fault, _seen, _stubs)) => Err(Failure::Audit(fault)),
    }
}

/// What somebody was told who was let in late, if anybody was; what is left of the handle comes to
/// the others' stubs.
fn told_to<L: Ledger>(
    stubs: &mut Vec<Stub<L>>,
    late: Option<Outcome<L>>,
) -> Result<Option<Result<Settings, Refusal>>, Failure> {
    let Some(part) = late else {
        return Ok(None);
    };
    stubs.push(part.stub)?;
    Ok(Some(part.told))
}
