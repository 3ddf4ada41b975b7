//! Reads the pairs of format and modifier that an entry asks for.

ghost use Rattle.std.specs.Prelude.{◌≡◌, [], None};
ghost use Rattle.serde_json.specs.View.{view, items_view};
ghost use Rattle.sysmem_counts.specs.declared.field.Field.TheVariants.{PixelFormatAndModifiers};
ghost use Rattle.record_reading.specs.Reading.Entries.{modifier_beside, asked_of, has_asked, with_asked, has_further, no_pair, own_pair, with_further, further_of, asked_pairs};
ghost use Rattle.record_reading.specs.Reading.Fields.{Reads, read_each, seen_by};

use super::field::{add, expect_object, list_of, stated};
use super::name::choice_of;
use super::pair::PAIR_FIELDS;
use crate::fault::{Code, Fault, FaultPlace};
use negotiation_inputs::{AskedPair, MOST_ENTRIES, asks_misfit, is_asked_already, is_same_asked};
use serde_json::Value;
use std::alloc::Global;
use sysmem_counts::Field;
use sysmem_formats::{Modifier, PixelFormat};
use sysmem_image::Entry;

fn modifier_beside(format: Option<PixelFormat>, object: &Value) -> Result<Option<Modifier>, Fault>
    ensures { result ≡ modifier_beside format (view object.now) }
{
    match object.get(Field::PixelFormatModifier.name()) {
        Some(value) => choice_of(value, Field::PixelFormatModifier),
        None => match format {
            Some(_) => Ok(Some(Modifier::Linear)),
            None => Ok(None),
        },
    }
}

fn asked_of(object: &Value) -> Result<AskedPair, Fault>
    ensures { result ≡ asked_of (view object.now) }
{
    let value = stated(object, Code::WrongKind, Field::PixelFormat)?;
    let format = choice_of(value, Field::PixelFormat)?;
    let modifier = modifier_beside(format, object)?;
    Ok(AskedPair { format, modifier })
}

fn has_asked(pairs: &[AskedPair], new: AskedPair) -> bool
    ensures { result ≡ has_asked pairs.now new }
{
    pairs.iter().any(|pair| is_same_asked(*pair, new))
}

fn add_asked(
    field: Field,
    entries: &[Entry],
    pairs: &mut Vec<AskedPair>,
    new: AskedPair,
) -> Result<(), Fault>
    ensures { Reads (λ lack. with_asked lack field entries.now pairs.old.items new)
        (seen_by (λ _. pairs.new.items) result) }
{
    if asks_misfit(new) {
        return Err(Fault::of(Code::TiledMisfit, field));
    }
    if MOST_ENTRIES <= entries.len() + pairs.len() {
        return Err(Fault::of(Code::TooMany, field));
    }
    if is_asked_already(entries, new) || has_asked(pairs, new) {
        return Err(Fault::of(Code::RepeatedPair, field));
    }
    add(pairs, new, field)
}

#[tactic(auto, using(crate::proofs::Members::items_rules))]
fn has_further(object: &Value) -> bool
    ensures { result ≡ has_further (view object.now) }
{
    match object.get(Field::PixelFormatAndModifiers.name()) {
        None => false,
        Some(value) => match value.as_array() {
            None => false,
            Some(list) => !list.is_empty(),
        },
    }
}

fn expect_no_pair(object: &Value) -> Result<(), Fault>
    ensures { seen_by (λ _. []) result ≡ no_pair (view object.now) }
{
    if !has_further(object) {
        return Err(Fault::of(Code::WrongKind, Field::PixelFormat));
    }
    modifier_beside(None, object)?;
    Ok(())
}

fn own_pair(alloc: Global, entries: &[Entry], object: &Value) -> Result<Vec<AskedPair>, Fault>
    ensures { Reads (λ lack. own_pair lack entries.now (view object.now))
        (seen_by (λ pairs. pairs.items) result) }
{
    let mut pairs = Vec::new(alloc);
    if object.get(Field::PixelFormat.name()).is_some() {
        let asked = asked_of(object)?;
        add_asked(Field::PixelFormat, entries, &mut pairs, asked)?;
    } else {
        expect_no_pair(object)?;
    }
    Ok(pairs)
}

fn add_further(entries: &[Entry], pairs: &mut Vec<AskedPair>, value: &Value) -> Result<(), Fault>
    ensures { Reads (λ lack. with_further lack entries.now pairs.old.items (view value.now))
        (seen_by (λ _. pairs.new.items) result) }
{
    expect_object(
        value,
        FaultPlace::At(Field::PixelFormatAndModifiers),
        &PAIR_FIELDS,
    )?;
    let asked = asked_of(value)?;
    add_asked(Field::PixelFormatAndModifiers, entries, pairs, asked)
}

fn further_in(
    entries: &[Entry],
    mut pairs: Vec<AskedPair>,
    list: &[Value],
) -> Result<Vec<AskedPair>, Fault>
    ensures { Reads (λ lack. read_each (with_further lack entries.now) pairs.items
        (items_view list.now))
        (seen_by (λ pairs. pairs.items) result) }
{
    for value in list {
        add_further(entries, &mut pairs, value)?;
    }
    Ok(pairs)
}

/// The pairs of an entry, and those that its further pairs state.
fn further_of(
    entries: &[Entry],
    own: Vec<AskedPair>,
    value: &Value,
) -> Result<Vec<AskedPair>, Fault>
    ensures { Reads (λ lack. further_of lack entries.now own.items (view value.now))
        (seen_by (λ pairs. pairs.items) result) }
{
    further_in(
        entries,
        own,
        list_of(value, Field::PixelFormatAndModifiers)?,
    )
}

/// The pairs that an entry asks for: its own, then its further ones. None of them, and none of the
/// entries before, asks for what another does.
pub(super) fn asked_pairs(
    alloc: Global,
    entries: &[Entry],
    object: &Value,
) -> Result<Vec<AskedPair>, Fault>
    ensures { Reads (λ lack. asked_pairs lack entries.now (view object.now))
        (seen_by (λ pairs. pairs.items) result) }
{
    let own = own_pair(alloc, entries, object)?;
    match object.get(Field::PixelFormatAndModifiers.name()) {
        None => Ok(own),
        Some(value) => further_of(entries, own, value),
    }
}
