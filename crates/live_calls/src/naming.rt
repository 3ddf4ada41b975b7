//! Names of nodes.

ghost use Rattle.std.specs.Prelude.{◌≡◌, Some, IfOk};
ghost use Rattle.live_book.specs.declared.object.Object.TheVariants.{Collection as Live};
ghost use Rattle.live_calls.specs.Naming.{SetsName, TellsName, misname_status, nodes_in};
ghost use Rattle.node_names.specs.Names.{name_of};

use crate::statuses::{DONE, MISUSED, NO, NO_MEMORY, REFUSED};
use crate::writing::fit;
use live_book::{Collection, Misnamed, Object, set_name};
use live_held::Held;
use node_names::Unnamed;
use std::alloc::{AllocError, Global};

/// The status of why a node isn't given a name.
fn misname_status(why: Misnamed) -> u32
    ensures { result ≡ misname_status why }
{
    match why {
        Misnamed::NoNode => MISUSED,
        Misnamed::Unnamed(Unnamed::NoName) => REFUSED,
        Misnamed::Unnamed(Unnamed::Taken) => NO,
        Misnamed::Unnamed(Unnamed::NoMemory) => NO_MEMORY,
    }
}

/// Gives a node of a collection a name.
fn name_by(alloc: Global, collection: &mut Collection, node: u32, name: &str) -> u32
    ensures { SetsName node name.now (Some (Live collection.old)) (Some (Live collection.new))
        result }
{
    match set_name(alloc, collection, node, name) {
        Ok(()) => DONE,
        Err(why) => misname_status(why),
    }
}

/// Gives a node of an object a name.
fn set_name_in(alloc: Global, object: &mut Object, node: u32, name: &[u8]) -> u32
    ensures { SetsName node name.now (Some object.old) (Some object.new) result }
{
    let Object::Collection(collection) = object else {
        return MISUSED;
    };
    match str::from_utf8(name) {
        Ok(name) => name_by(alloc, collection, node, name),
        Err(_) => REFUSED,
    }
}

/// Gives the node of a number of a collection a name.
pub fn set_name_on(alloc: Global, held: &mut Held, node: u32, name: &[u8]) -> u32
    ensures { SetsName node name.now held.old.value held.new.value result }
{
    let Some(mut object) = held.take(alloc) else {
        return MISUSED;
    };
    let status = set_name_in(alloc, &mut object, node, name);
    held.put(object);
    status
}

fn nodes_in(collection: &Collection) -> u32
    ensures { result ≡ nodes_in collection.now }
{
    collection.book().tree().node_count()
}

/// What the node of a number is called.
fn name_of(alloc: Global, collection: &Collection, node: u32) -> Result<Vec<u8>, AllocError>
    ensures { IfOk result (λ name. name.items ≡ name_of collection.now.names node) }
{
    let mut text = String::new(alloc);
    collection.names().put(&mut text, node)?;
    Ok(text.into_bytes())
}

/// Writes what the node of a number of an object is called.
fn name_in(alloc: Global, object: &Object, node: u32, text: &mut [u8], size: &mut usize) -> u32
    ensures { TellsName node (Some object.now) text.old text.new size.old size.new result }
{
    let Object::Collection(collection) = object else {
        return MISUSED;
    };
    if node >= nodes_in(collection) {
        return MISUSED;
    }
    match name_of(alloc, collection, node) {
        Ok(name) => fit(&name, text, size),
        Err(_) => {
            *size = 0;
            NO_MEMORY
        }
    }
}

/// Writes what the node of a number of a collection is called.
pub fn name_on(alloc: Global, held: &mut Held, node: u32, text: &mut [u8], size: &mut usize) -> u32
    ensures tells { TellsName node held.old.value text.old text.new size.old size.new result }
    ensures unchanged { held.new.value ≡ held.old.value }
{
    let Some(object) = held.take(alloc) else {
        return MISUSED;
    };
    let status = name_in(alloc, &object, node, text, size);
    held.put(object);
    status
}
