//! How much the runs and changes of an explanation may cost.

use negotiation_inputs::Platform;
use script_reading::{Act, Call, LONGEST};
use serde_json::Value;
use std::alloc::{AllocError, Global};
use std::cell::Cell;

/// From so many steps on nothing more is tried. In a step a value of a record is read or copied, or
/// a participant is joined with others on a narrow platform: about a third of a microsecond.
const MOST_STEPS: u64 = 3_000_000;

/// How many offers and places of a platform make a step more of joining a participant.
const WIDE: usize = 32;

/// How many bytes of a text count as a value more.
const LONG: usize = 64;

/// How often a record is gone through where it is changed and read.
const PASSES: u64 = 4;

/// What the runs and changes of an explanation cost so far, in steps.
#[derive(Drop)]
pub struct Effort {
    spent: Cell<u64>,
    /// How many values each call states, by its place.
    stated: Vec<u64>,
    /// What a run costs beside what its searches visit.
    run: u64,
    /// What it costs to join a participant with others.
    join: u64,
}

impl Effort {
    /// That of a script with this platform and these calls, before the first run.
    pub fn new(
        alloc: Global,
        platform: &Platform,
        calls: &[Call<'_>],
    ) -> Result<Effort, AllocError> {
        let mut stated: Vec<u64> = Vec::new(alloc);
        let mut run = 0u64;
        for call in calls {
            let values = stated_by(alloc, call)?;
            run = run.saturating_add(values);
            stated.push(values)?;
        }
        Ok(Effort {
            spent: Cell::new(0),
            stated,
            run,
            join: join_on(platform),
        })
    }

    /// Whether nothing more is to be tried.
    pub fn is_spent(&self) -> bool {
        self.spent.get() >= MOST_STEPS
    }

    /// Adds that the constraints of the call at a place, from 0, are changed so often, and read.
    pub fn change(&self, place: usize, times: usize) {
        let values = self.stated.get(place).copied().unwrap_or(0);
        let passes = PASSES.saturating_mul(times as u64);
        self.spend(values.saturating_mul(passes));
    }

    /// Adds that so many participants are asked together.
    pub fn ask(&self, participants: usize) {
        self.spend(self.join.saturating_mul(participants as u64));
    }

    /// Adds a run whose searches visited so many prefixes.
    pub(crate) fn add_run(&self, visits: u64) {
        self.spend(self.run.saturating_add(self.join.saturating_mul(visits)));
    }

    fn spend(&self, steps: u64) {
        self.spent.set(self.spent.get().saturating_add(steps));
    }
}

/// What it costs to join a participant with others on a platform.
fn join_on(platform: &Platform) -> u64 {
    let offers = platform
        .pairs()
        .len()
        .saturating_mul(platform.colours().len());
    let places = platform.heaps().len().saturating_mul(3);
    (offers.saturating_add(places) / WIDE).saturating_add(1) as u64
}

/// How many values a call states, and one for the call.
fn stated_by(alloc: Global, call: &Call<'_>) -> Result<u64, AllocError> {
    match call.act {
        Act::SetConstraints(Some(stated)) => {
            Ok(values_in(alloc, stated.value())?.saturating_add(1))
        }
        _ => Ok(1),
    }
}

/// How many values there are in one, of which long texts count as several.
fn values_in(alloc: Global, value: &Value) -> Result<u64, AllocError> {
    let mut left: Vec<&Value> = Vec::new(alloc);
    left.push(value)?;
    let mut count = 0u64;
    for _value in 0..LONGEST {
        match left.pop() {
            Some(one) => count = count.saturating_add(take_apart(&mut left, one)?),
            None => break,
        }
    }
    Ok(count)
}

/// Adds the lists and objects in a value to others; says for how many it counts with the rest.
fn take_apart<'a>(left: &mut Vec<&'a Value>, value: &'a Value) -> Result<u64, AllocError> {
    match value {
        Value::Array(items) => take_items(left, items),
        Value::Object(members) => {
            let mut count = 1u64;
            for (_, member) in members.iter() {
                count = count.saturating_add(take(left, member)?);
            }
            Ok(count)
        }
        _ => Ok(weight_of(value)),
    }
}

/// The same of the items of a list.
fn take_items<'a>(left: &mut Vec<&'a Value>, items: &'a [Value]) -> Result<u64, AllocError> {
    let mut count = 1u64;
    for item in items {
        count = count.saturating_add(take(left, item)?);
    }
    Ok(count)
}

/// Adds a value to others if it is a list or an object; else says for how many it counts.
fn take<'a>(left: &mut Vec<&'a Value>, value: &'a Value) -> Result<u64, AllocError> {
    match value {
        Value::Array(_) | Value::Object(_) => {
            left.push(value)?;
            Ok(0)
        }
        _ => Ok(weight_of(value)),
    }
}

/// For how many a value counts in which there are no others.
fn weight_of(value: &Value) -> u64 {
    match value.as_str() {
        Some(text) => (text.len() / LONG).saturating_add(1) as u64,
        None => 1,
    }
}
