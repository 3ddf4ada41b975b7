//! What stands above an item: the changes with which it comes, and the domain of which it tells.

use crate::json::changes::change_value;
use crate::json::object::Object;
use crate::json::scene::Scene;
use explanation_text::{Fact, Item, Label, ListBuilder, Said};
use report_json::Root;
use serde_json::Value;
use std::alloc::{AllocError, Global};

/// The changes with which the item of an index comes, in the order in which they are made. Below a
/// `then` numbers and names may be those of another script, so only the words are given.
pub(crate) fn changes_above(
    alloc: Global,
    scene: &Scene<'_, '_>,
    items: &[Item],
    index: usize,
) -> Result<Vec<Value>, AllocError> {
    let mut values = ListBuilder::new(alloc);
    let mut is_other = false;
    let places = places_above(alloc, items, index)?;
    for place in places.iter().rev() {
        if let Some(item) = items.get(*place) {
            if !is_with_first(item) {
                values.add(value_of(alloc, scene, item, is_other)?);
            }
            is_other = is_other || item.label == Label::Then;
        }
    }
    values.done()
}

/// A change as an object; of another script its words alone.
fn value_of(
    alloc: Global,
    scene: &Scene<'_, '_>,
    item: &Item,
    is_other: bool,
) -> Result<Value, AllocError> {
    if !is_other {
        return change_value(alloc, scene, item);
    }
    let mut object = Object::new(alloc);
    object.say("text", &item.text)?;
    Ok(object.into_value())
}

/// Where the changes stand with which the item of an index comes, the last one first: above what the
/// script has with the first decision also those of that one.
fn places_above(alloc: Global, items: &[Item], index: usize) -> Result<Vec<usize>, AllocError> {
    let mut places = Vec::new(alloc);
    let mut end = index;
    for place in (0..index).rev() {
        let (Some(item), Some(below)) = (items.get(place), items.get(end)) else {
            continue;
        };
        if place >= end || !is_above(item, below.depth) {
            continue;
        }
        if item.label.is_change() {
            places.push(place)?;
        }
        end = if is_with_first(item) {
            first_above(items, place)
        } else {
            place
        };
    }
    Ok(places)
}

/// Whether an item that comes before others stands above them, which are so deep: changes that are
/// made together do also if these are as deep.
fn is_above(item: &Item, depth: usize) -> bool {
    item.depth < depth || (item.depth == depth && item.label == Label::And)
}

/// Whether what the script has with the first change stands below an item.
fn is_with_first(item: &Item) -> bool {
    item.label == Label::Then && item.facts.contains(&Fact::Heads)
}

/// Where the first decision stands that comes by changes listed before an item, and as deep; where
/// none does, the item itself.
fn first_above(items: &[Item], index: usize) -> usize {
    let mut first = index;
    let mut is_listed = false;
    for place in (0..index).rev() {
        let (Some(item), Some(then)) = (items.get(place), items.get(index)) else {
            break;
        };
        let is_as_deep = item.depth == then.depth;
        let is_list = is_as_deep && item.label == Label::Change;
        if item.depth < then.depth || (is_listed && is_as_deep && !is_list) {
            break;
        }
        is_listed = is_listed || is_list;
        if is_by_change(items, place) {
            first = place;
        }
    }
    first
}

/// Whether at a place a decision stands right below a change of constraints.
fn is_by_change(items: &[Item], place: usize) -> bool {
    match (items.get(place), items.get(place.saturating_sub(1))) {
        (Some(item), Some(above)) => {
            let is_edit = above.label.is_change() && above.label != Label::Then;
            item.label == Label::Promised && is_edit
        }
        _ => false,
    }
}

/// The domain that the nearest head above the item of an index names, if one does.
pub(crate) fn domain_above<'a>(items: &'a [Item], index: usize) -> Option<Root<'a>> {
    let mut depth = items.get(index)?.depth;
    for place in (0..index).rev() {
        let item = items.get(place)?;
        if item.depth < depth {
            depth = item.depth;
            if let Some(root) = root_in(item) {
                return Some(root);
            }
        }
    }
    None
}

/// The domain that a head names, if it names one: it tells its path, and then its root's name.
fn root_in(item: &Item) -> Option<Root<'_>> {
    if !item.facts.contains(&Fact::Heads) {
        return None;
    }
    let mut path = None;
    for fact in &item.facts {
        if let Fact::Value(Said::Words(span)) = fact {
            let said = span.text_in(&item.text);
            if let Some(path) = path {
                return Some(Root {
                    path,
                    name: Some(said),
                });
            }
            path = Some(said);
        }
    }
    None
}
