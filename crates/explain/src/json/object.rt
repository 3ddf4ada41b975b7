//! An object of JSON that grows, and its line.

ghost use Rattle.std.specs.Prelude.{IfOk};
ghost use Rattle.std.specs.String.{string_bytes};
ghost use Rattle.serde_json.specs.View.{members_view};
ghost use Rattle.explain.specs.Lines.{IsLine, IsLineOf, IsObjectLine};

use serde_json::{Map, Value, put};
use std::alloc::{AllocError, Global};

/// An object of JSON that grows: each key stands once, and keys in the order of their bytes.
#[derive(Drop)]
pub(crate) struct Object {
    alloc: Global,
    members: Map<String, Value>,
}

impl Object {
    pub(crate) fn new(alloc: Global) -> Object {
        Object {
            alloc,
            members: Map::new(alloc),
        }
    }

    pub(crate) fn alloc(&self) -> Global {
        self.alloc
    }

    /// Gives a key a value.
    pub(crate) fn put(&mut self, key: &str, value: Value) -> Result<(), AllocError> {
        put(&mut self.members, self.alloc, key, value)
    }

    /// Gives a key a text.
    pub(crate) fn say(&mut self, key: &str, text: &str) -> Result<(), AllocError> {
        let value = Value::try_from_str(self.alloc, text)?;
        self.put(key, value)
    }

    /// Gives a key a list, if that has items.
    pub(crate) fn list(&mut self, key: &str, items: Vec<Value>) -> Result<(), AllocError> {
        if items.is_empty() {
            return Ok(());
        }
        self.put(key, Value::Array(items))
    }

    pub(crate) fn into_value(self) -> Value {
        Value::Object(self.members)
    }

    /// The line of the object with a text at the key `text`.
    #[tactic(auto, using(crate::proofs::More::line_said))]
    pub(crate) fn into_line(self, text: &str) -> Result<String, AllocError>
        ensures { IfOk result (λ line. IsLineOf text.now (string_bytes line)) }
    {
        let alloc = self.alloc;
        let mut members = self.members;
        let value = Value::try_from_str(alloc, text)?;
        put(&mut members, alloc, "text", value)?;
        let line = line_of(alloc, members)?;
        Ok(line)
    }

    /// The line of the object.
    #[tactic(auto, using(crate::proofs::More::line_some))]
    pub(crate) fn into_end(self) -> Result<String, AllocError>
        ensures { IfOk result (λ line. IsObjectLine (string_bytes line)) }
    {
        let alloc = self.alloc;
        let line = line_of(alloc, self.members)?;
        Ok(line)
    }
}

/// The line of an object with these members.
#[tactic(auto, using(crate::proofs::More::line_made))]
fn line_of(alloc: Global, members: Map<String, Value>) -> Result<String, AllocError>
    ensures { IfOk result (λ line. IsLine (members_view members.entries) (string_bytes line)) }
{
    let value = Value::Object(members);
    let mut line = value.to_string(alloc)?;
    line.push_str("\n")?;
    Ok(line)
}
