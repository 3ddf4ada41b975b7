//! The script and the certificate of a collection for C.

ghost use Rattle.std.specs.Prelude.{◌≡◌, Some};
ghost use Rattle.live_script.specs.Script.{IsScriptOf, IsTooLong};
ghost use Rattle.live_script.specs.Texts.{HasNone, IsCertificateOf, Writes};
ghost use Rattle.live_script.specs.declared.script.Unwritten.TheVariants.{NoMemory, TooLong};

use crate::certificate::certificate_of;
use crate::script::{Unwritten, script_of};
use live_book::Object;
use live_calls::{MISUSED, NO_MEMORY, REFUSED, fit};
use live_held::Held;
use std::alloc::Global;

/// Says that there is no script.
fn unwritten(why: Unwritten, size: &mut usize) -> u32
    ensures none { why ≡ TooLong → result ≡ 3 }
    ensures starves { why ≡ NoMemory → result ≡ 4 }
    ensures size { size.new ≡ 0 }
{
    *size = 0;
    match why {
        Unwritten::TooLong => REFUSED,
        Unwritten::NoMemory => NO_MEMORY,
    }
}

fn script_in(alloc: Global, object: &Object, text: &mut [u8], size: &mut usize) -> u32
    ensures { Writes IsScriptOf IsTooLong (Some object.now) text.old text.new
        size.old size.new result }
{
    let Object::Snapshot(copy) = object else {
        return MISUSED;
    };
    match script_of(alloc, copy) {
        Ok(script) => fit(&script, text, size),
        Err(why) => unwritten(why, size),
    }
}

/// Writes the script of a copy of a collection; `REFUSED` where it is longer than a script may be.
pub fn script_on(alloc: Global, held: &mut Held, text: &mut [u8], size: &mut usize) -> u32
    ensures writes { Writes IsScriptOf IsTooLong held.old.value text.old text.new
        size.old size.new result }
    ensures unchanged { held.new.value ≡ held.old.value }
{
    let Some(object) = held.take(alloc) else {
        return MISUSED;
    };
    let status = script_in(alloc, &object, text, size);
    held.put(object);
    status
}

fn certificate_in(alloc: Global, object: &Object, text: &mut [u8], size: &mut usize) -> u32
    ensures { Writes IsCertificateOf HasNone (Some object.now) text.old text.new
        size.old size.new result }
{
    let Object::Snapshot(copy) = object else {
        return MISUSED;
    };
    match certificate_of(alloc, copy) {
        Ok(certificate) => fit(&certificate, text, size),
        Err(_) => unwritten(Unwritten::NoMemory, size),
    }
}

/// Writes the certificate of the decisions of a copy of a collection.
pub fn certificate_on(alloc: Global, held: &mut Held, text: &mut [u8], size: &mut usize) -> u32
    ensures writes { Writes IsCertificateOf HasNone held.old.value text.old text.new
        size.old size.new result }
    ensures unchanged { held.new.value ≡ held.old.value }
{
    let Some(object) = held.take(alloc) else {
        return MISUSED;
    };
    let status = certificate_in(alloc, &object, text, size);
    held.put(object);
    status
}
