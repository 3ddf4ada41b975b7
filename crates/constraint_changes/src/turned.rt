//! Sizes of a participant that may be meant with width and height exchanged, all of them together.

use crate::parts::PartyChange;
use crate::together::CombinedChange;
use crate::trials::RestatedConstraints;
use constraint_edits::{Amount, Edit, amounts_in};
use explanation_text::Items;
use serde_json::Value;
use std::alloc::{AllocError, Global};
use sysmem_counts::Field;

/// The fields that state sizes of images.
const SIZES: [Field; 4] = [
    Field::MinSize,
    Field::MaxSize,
    Field::RequiredMinSize,
    Field::RequiredMaxSize,
];

/// Why these are all changed.
const WHY: &str = "width and height exchanged in each";

/// Of how many participants it is told.
const MOST: usize = 3;

/// Tells that the sizes of one participant, who states several, help together with width and height
/// exchanged in each: of each of whom that is so, up to a number. Gives what calls state by the first;
/// nothing where none is told.
pub(crate) fn add_turned(
    items: &mut Items,
    joint: CombinedChange<'_, '_>,
    before: &str,
) -> Result<Vec<RestatedConstraints>, AllocError> {
    let alloc = items.alloc();
    let mut first: Vec<RestatedConstraints> = Vec::new(alloc);
    let mut count = 0usize;
    for (person, one) in joint.group.participants.iter().enumerate() {
        let Some(value) = one.stated else {
            continue;
        };
        let parts = turned(alloc, person, value)?;
        if parts.len() > 1 && count < MOST && !joint.group.scenario.effort.is_spent() {
            let word = if count == 0 { before } else { "or " };
            let told = joint.tell(items, &parts, word, WHY)?;
            count = count.saturating_add(usize::from(!told.is_empty()));
            if first.is_empty() {
                first = told;
            }
        }
    }
    Ok(first)
}

/// Of a participant's constraints the exchange of width and height by each field that states one size
/// alone, which isn't square.
fn turned(alloc: Global, person: usize, value: &Value) -> Result<Vec<PartyChange>, AllocError> {
    let mut parts = Vec::new(alloc);
    for field in SIZES {
        let edit = Edit::NoBound(field);
        let amounts = amounts_in(alloc, value, edit)?;
        if let [Amount::Sides(width, height)] = amounts.as_slice() {
            if *width != *height {
                parts.push(PartyChange {
                    person,
                    edit,
                    amount: Some(Amount::Sides(*height, *width)),
                })?;
            }
        }
    }
    Ok(parts)
}
