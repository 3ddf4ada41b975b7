//! What a node learns.

ghost use Rattle.std.specs.Prelude.{◌≡◌, Some};
ghost use Rattle.live_calls.specs.Checking.{Checks, TellsSelection};

use crate::settings::flat_settings;
use crate::statuses::{DONE, MISUSED, status_of};
use crate::writing::fit;
use flat_negotiation::FlatSettings;
use live_book::{Object, check, selection};
use live_held::Held;
use std::alloc::Global;

/// Writes the settings of the node of a number of an object, or says why it is given none.
fn check_in(object: &Object, node: u32, settings: &mut FlatSettings) -> u32
    ensures { Checks node (Some object.now) settings.old settings.new result }
{
    let Object::Collection(collection) = object else {
        return MISUSED;
    };
    match check(collection, node) {
        Ok(chosen) => {
            let size = settings.struct_size;
            *settings = flat_settings(size, collection.platform(), &chosen);
            DONE
        }
        Err(refusal) => status_of(refusal),
    }
}

/// Writes the settings of the node of a number, or says why it is given none.
pub fn check_on(alloc: Global, held: &mut Held, node: u32, settings: &mut FlatSettings) -> u32
    ensures checks { Checks node held.old.value settings.old settings.new result }
    ensures unchanged { held.new.value ≡ held.old.value }
{
    let Some(object) = held.take(alloc) else {
        return MISUSED;
    };
    let status = check_in(&object, node, settings);
    held.put(object);
    status
}

/// Writes the choices of the selection of the domain of the node of a number of an object.
fn selection_in(object: &Object, node: u32, choices: &mut [u8], size: &mut usize) -> u32
    ensures { TellsSelection node (Some object.now) choices.old choices.new
        size.old size.new result }
{
    let Object::Collection(collection) = object else {
        return MISUSED;
    };
    match selection(collection, node) {
        Ok(chosen) => fit(chosen, choices, size),
        Err(refusal) => status_of(refusal),
    }
}

/// Writes the choices of the selection that was chosen for the domain of the node of a number, or
/// says why there is none.
pub fn selection_on(
    alloc: Global,
    held: &mut Held,
    node: u32,
    choices: &mut [u8],
    size: &mut usize,
) -> u32
    ensures tells { TellsSelection node held.old.value choices.old choices.new
        size.old size.new result }
    ensures unchanged { held.new.value ≡ held.old.value }
{
    let Some(object) = held.take(alloc) else {
        return MISUSED;
    };
    let status = selection_in(&object, node, choices, size);
    held.put(object);
    status
}
