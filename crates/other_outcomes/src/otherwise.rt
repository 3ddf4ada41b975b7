//! A script's calls made otherwise, as far as something was told of what they do.

use explanation_text::ListBuilder;
use script_reading::{Act, Call};
use serde_json::{Map, Value, put};
use std::alloc::{AllocError, Global};

/// A script's calls made otherwise, of which a domain's verdict was told.
#[derive(Drop)]
pub struct Otherwise<'a> {
    pub calls: Vec<Call<'a>>,
    /// The places of the script's calls, from 0, in the order in which they are made; empty where
    /// that is the script's, and others may come after them.
    pub order: Vec<usize>,
    /// Whether settings are chosen.
    pub is_chosen: bool,
}

/// The script with its calls in the order of these places, from 0.
pub fn reordered(alloc: Global, value: &Value, order: &[usize]) -> Result<Value, AllocError> {
    let mut copy = value.clone()?;
    if let Some(Value::Array(calls)) = copy.get_mut("calls") {
        let list = in_order(alloc, calls, order)?;
        *calls = list;
    }
    Ok(copy)
}

/// Calls in the order of these places.
fn in_order(alloc: Global, calls: &[Value], order: &[usize]) -> Result<Vec<Value>, AllocError> {
    let mut list = ListBuilder::new(alloc);
    for place in order {
        if let Some(call) = calls.get(*place) {
            list.add(call.clone()?);
        }
    }
    list.done()
}

/// The script with these calls, each of which is made on the node of the one in its place; those
/// behind these are added.
pub fn with_calls(alloc: Global, value: &Value, calls: &[Call<'_>]) -> Result<Value, AllocError> {
    let mut copy = value.clone()?;
    if let Some(Value::Array(written)) = copy.get_mut("calls") {
        let list = written_as(alloc, written, calls)?;
        *written = list;
    }
    Ok(copy)
}

/// Calls as JSON, by those that stand in their places.
fn written_as(
    alloc: Global,
    written: &[Value],
    calls: &[Call<'_>],
) -> Result<Vec<Value>, AllocError> {
    let mut list = ListBuilder::new(alloc);
    for (place, call) in calls.iter().enumerate() {
        let one = call_written(alloc, written.get(place), call)?;
        list.add(one);
    }
    list.done()
}

/// A call as JSON, by the one that stands in its place, if one does.
fn call_written(
    alloc: Global,
    written: Option<&Value>,
    call: &Call<'_>,
) -> Result<Value, AllocError> {
    let mut members = match written.and_then(Value::as_object) {
        Some(members) => members.clone()?,
        None => new_call(alloc, call)?,
    };
    let act = Value::try_from_str(alloc, call.act.name())?;
    put(&mut members, alloc, "call", act)?;
    if let Act::SetConstraints(Some(stated)) = call.act {
        put(&mut members, alloc, "constraints", stated.value().clone()?)?;
    }
    Ok(Value::Object(members))
}

/// A call as JSON, but for its own name.
fn new_call(alloc: Global, call: &Call<'_>) -> Result<Map<String, Value>, AllocError> {
    let mut members = Map::new(alloc);
    put(
        &mut members,
        alloc,
        "on",
        Value::try_from_str(alloc, call.on)?,
    )?;
    if let Some(name) = call.act.name_made() {
        put(&mut members, alloc, "as", Value::try_from_str(alloc, name)?)?;
    }
    Ok(members)
}
