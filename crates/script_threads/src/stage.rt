//! All names of a script, and what they stand for.

use crate::activity::Activity;
use crate::handle::Handle;
use crate::place::NameCell;
use crate::start::Start;
use script_reading::{Act, Call};
use std::alloc::{AllocError, Global};
use std::sync::Wait;
use std::sync::ledger::Ledger;
use std::thread::Threads;
use sysmem_participants::Stub;

/// The names of a script in the order of the calls that make them, the root's first, the actors'
/// start, and who of them can still act.
pub(crate) struct Stage<L: Ledger> {
    alloc: Global,
    places: Vec<NameCell<L>>,
    pub(crate) start: Start,
    pub(crate) activity: Activity,
}

/// What is left in the end of all that the names stood for.
#[derive(Drop)]
pub(crate) struct Remains<L: Ledger> {
    pub(crate) stubs: Vec<Stub<L>>,
    /// Whether memory was refused to a call.
    pub(crate) is_starved: bool,
}

impl<L: Ledger> Stage<L> {
    /// So many names besides the root's, and so many actors.
    pub(crate) fn new(alloc: Global, names: usize, actors: usize) -> Result<Stage<L>, AllocError> {
        let count = names.saturating_add(1);
        let mut places = Vec::with_capacity(alloc, count)?;
        for _made in 0..count {
            places.push_reserved(NameCell::new());
        }
        Ok(Stage {
            alloc,
            places,
            start: Start::new(),
            activity: Activity::new(actors),
        })
    }

    /// The name at this place stands for this from now on.
    pub(crate) fn answer<R: Threads + Wait + Sync>(
        &self,
        rt: &R,
        place: usize,
        made: Option<Handle<L>>,
    ) {
        match self.places.get(place) {
            Some(place) => place.answer(rt, &self.activity, made),
            None => {
                if let Some(handle) = made {
                    let _stub = handle.close(rt);
                }
            }
        }
    }

    /// Makes a call; the name that it makes, if it makes one, has this place.
    pub(crate) fn make<R: Threads + Wait + Sync>(&self, rt: &R, call: &Call<'_>, next: usize) {
        let made = match self.places.get(call.place) {
            Some(place) => place.call(rt, self.alloc, &self.activity, &call.act),
            None => None,
        };
        if call.act.name_made().is_some() {
            self.answer(rt, next, made);
        } else if let Some(handle) = made {
            let _stub = handle.close(rt);
        }
        if !matches!(call.act, Act::Check | Act::Wait) {
            self.activity.called(rt);
        }
    }

    /// Closes the handles that are left, in the order of their names.
    pub(crate) fn close<R: Threads + Wait + Sync>(self, rt: &R, stubs: Vec<Stub<L>>) -> Remains<L> {
        let Stage {
            alloc: _,
            places,
            start: _,
            activity: _,
        } = self;
        let mut remains = Remains {
            stubs,
            is_starved: false,
        };
        let mut places = places.into_iter();
        while let Some(place) = places.next() {
            let slot = place.into_slot();
            remains.is_starved = remains.is_starved || slot.is_starved;
            if let Some(stub) = slot.close(rt) {
                let _full = remains.stubs.push(stub);
            }
        }
        places.destroy_empty();
        remains
    }
}
