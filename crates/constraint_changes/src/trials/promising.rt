//! The decision that comes by several changes, told.

ghost use Rattle.std.specs.Prelude.{◌≡◌, map};
ghost use Rattle.script_reading.specs.Seen.{call_seen};
ghost use Rattle.constraint_changes.specs.Edited.{IsPromised, IsPromisedExchanged, edits_of};

use crate::trials::editing::EditedCall;
use crate::trials::exchanging::Exchange;
use crate::trials::group::Group;
use crate::trials::restating::RestatedConstraints;
use explanation_text::{Item, Items, Kind, Label, Text};
use script_story::Outcome;
use std::alloc::{AllocError, Global};

/// The decision that comes by edits of calls.
#[derive(Drop)]
pub struct Promise {
    pub edits: Vec<EditedCall>,
    pub outcome: Outcome,
}

impl Promise {
    /// What the calls state then.
    pub(crate) fn stated(&self, alloc: Global) -> Result<Vec<RestatedConstraints>, AllocError> {
        let mut stated = Vec::new(alloc);
        for edit in &self.edits {
            let value = edit.value.clone()?;
            stated.push(RestatedConstraints {
                place: edit.place,
                value,
            })?;
        }
        Ok(stated)
    }

    /// The decision alone.
    fn into_outcome(self) -> Outcome
        ensures { result ≡ self.outcome }
    {
        let Promise { edits: _, outcome } = self;
        outcome
    }
}

/// Puts the decision that comes by edits of calls.
pub fn put_promise(items: &mut Items, group: Group<'_, '_>, depth: usize, promise: Promise)
    requires { IsPromised group.scenario.now.platform.now
        (map call_seen group.scenario.now.calls.now) (edits_of promise.edits.items)
        group.path.now promise.outcome }
{
    promise.into_outcome().promise(items, depth)
}

/// Puts the decision that comes where the records of two calls are exchanged.
pub fn put_exchanged(
    items: &mut Items,
    group: Group<'_, '_>,
    depth: usize,
    exchange: &Exchange,
    outcome: Outcome,
)
    requires { IsPromisedExchanged group.scenario.now.platform.now
        (map call_seen group.scenario.now.calls.now) exchange.now.one exchange.now.other
        group.path.now outcome }
{
    outcome.promise(items, depth)
}

/// Puts which children a decision chooses, if it chooses some.
pub fn put_choice(items: &mut Items, depth: usize, choice: Text) {
    if !choice.is_empty() {
        items.add(Item::new(Kind::Words, depth, Label::Choice, choice));
    }
}
