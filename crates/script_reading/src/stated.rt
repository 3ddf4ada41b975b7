//! Constraints that a call states.
ghost use Rattle.std.specs.Prelude.{◌≡◌, Ok, IfSome};
ghost use Rattle.std.specs.Arc.{arc_value};
ghost use Rattle.std.specs.Option.{ForSome};
ghost use Rattle.serde_json.specs.View.{view};
ghost use Rattle.record_reading.specs.Reading.{participant_of};

use negotiation_inputs::Constraints;
use serde_json::Value;
use std::sync::Arc;

/// A record that a call states, with what it is read as, where it was read.
#[derive(Clone, Copy, Debug)]
pub struct Stated<'a> {
    value: &'a Value,
    read: Option<&'a Arc<Constraints>>,
    ghost is_read: { ForSome read (λ one. participant_of (view value.now) ≡ Ok (arc_value one.now)) },
}

impl<'a> Stated<'a> {
    /// A record that wasn't read.
    pub fn of(value: &'a Value) -> Stated<'a>
        ensures { result.value.now ≡ value.now }
    {
        Stated { value, read: None }
    }

    /// A record, with what it is read as.
    pub(crate) fn read_as(value: &'a Value, read: &'a Arc<Constraints>) -> Stated<'a>
        requires { participant_of (view value.now) ≡ Ok (arc_value read.now) }
        ensures { result.value.now ≡ value.now }
    {
        Stated {
            value,
            read: Some(read),
        }
    }

    /// The record.
    pub fn value(&self) -> &'a Value
        ensures { result.now ≡ self.now.value.now }
    {
        self.value
    }

    /// What it is read as, where it was read.
    pub fn read(&self) -> Option<&'a Arc<Constraints>>
        ensures { IfSome result
            (λ one. participant_of (view self.now.value.now) ≡ Ok (arc_value one.now)) }
    {
        self.read
    }
}
