//! The settings that were chosen.

ghost use Rattle.std.specs.Prelude.{◌≡◌, Some, option_map, position, slice_get};
ghost use Rattle.certificate_text.specs.Puts.{PutsData};
ghost use Rattle.certificate_text.specs.Reading.{named_at};
ghost use Rattle.certificate_text.specs.SettingsSaid.{heap_len, heap_said, id_said, image_said, is_heap, offer_said, offered, place_at, place_said, settings_said};
ghost use Rattle.serde_json.specs.View.{view};
ghost use Rattle.record_reading.specs.Reading.Names.{colour_named, domain_named, format_named, modifier_named};
ghost use Rattle.negotiation_inputs.specs.Pairs.{lists_colour, has_pair, same_pair};
ghost use Rattle.certificate_text.specs.Told.{heap_data, image_bounds_data, image_data, settings_data};

use crate::bounds::{bounds_beside, put_bounds};
use crate::json_writer::Writer;
use crate::member::{put_number, put_text};
use crate::reading::{expect_object, number_at, number_to, text_at};
use negotiation_inputs::Platform;
use serde_json::Value;
use std::alloc::AllocError;
use sysmem_counts::Field;
use sysmem_formats::{ColourSpace, Modifier, Offer, Pair, PixelFormat};
use sysmem_image::ImageBounds;
use sysmem_memory::{CoherencyDomain, HeapInfo, Place};
use sysmem_merge::Settings;

/// Puts settings, whose heap is one of the platform's.
pub(crate) fn put_settings(
    out: &mut Writer,
    platform: &Platform,
    settings: Settings,
) -> Result<(), AllocError>
    ensures { PutsData result out.old out.new (settings_data platform.now settings) }
{
    out.begin_object()?;
    out.key("bounds")?;
    put_image_bounds(out, settings.offer, settings.bounds)?;
    put_number(out, "count", u64::from(settings.count))?;
    put_text(out, "domain", settings.place.coherency.name())?;
    out.key("heap")?;
    put_heap(out, heap_at(platform, settings.place.heap))?;
    out.key("image")?;
    put_image(out, settings.offer)?;
    put_number(out, "size_bytes", settings.size_bytes)?;
    out.end_object()
}

fn put_image_bounds(out: &mut Writer, offer: Offer, bounds: ImageBounds) -> Result<(), AllocError>
    ensures { PutsData result out.old out.new (image_bounds_data offer bounds) }
{
    match offer {
        Offer::NoImage => out.null(),
        Offer::Image(_, _) => put_bounds(out, bounds),
    }
}

pub(crate) fn heap_at(platform: &Platform, index: usize) -> Option<&HeapInfo>
    ensures { option_map (λ info. info.now) result ≡ slice_get platform.now.heaps index }
{
    platform.heaps().get(index)
}

fn put_heap(out: &mut Writer, heap: Option<&HeapInfo>) -> Result<(), AllocError>
    ensures { PutsData result out.old out.new
        (heap_data (option_map (λ info. info.now) heap.entry)) }
{
    match heap {
        Some(info) => put_heap_name(out, info),
        None => out.null(),
    }
}

fn put_heap_name(out: &mut Writer, info: &HeapInfo) -> Result<(), AllocError>
    ensures { PutsData result out.old out.new (heap_data (Some info.now)) }
{
    out.begin_object()?;
    put_text(out, Field::HeapType.name(), info.heap.heap_type.as_str())?;
    put_number(out, Field::Id.name(), info.heap.id)?;
    out.end_object()
}

fn put_image(out: &mut Writer, offer: Offer) -> Result<(), AllocError>
    ensures { PutsData result out.old out.new (image_data offer) }
{
    match offer {
        Offer::NoImage => out.null(),
        Offer::Image(pair, colour) => put_names(out, pair, colour),
    }
}

fn put_names(out: &mut Writer, pair: Pair, colour: ColourSpace) -> Result<(), AllocError>
    ensures { PutsData result out.old out.new (image_data (Offer.Image pair colour)) }
{
    out.begin_object()?;
    put_text(out, "color_space", colour.name())?;
    put_text(out, Field::PixelFormat.name(), pair.format.name())?;
    put_text(out, Field::PixelFormatModifier.name(), pair.modifier.name())?;
    out.end_object()
}

/// Reads settings, whose place and offer are the platform's.
pub(crate) fn settings_of(platform: &Platform, value: &Value) -> Option<Settings>
    ensures { result ≡ settings_said platform.now (view value.now) }
{
    expect_object(value, 6)?;
    let count = number_at(value, "count", u64::from(u32::MAX))?;
    let size_bytes = number_at(value, "size_bytes", u64::MAX)?;
    let place = place_of(platform, value)?;
    let offer = offer_of(platform, value.get("image")?)?;
    let bounds = bounds_beside(offer, value.get("bounds")?)?;
    Some(Settings {
        offer,
        place,
        count: count as u32,
        size_bytes,
        bounds,
    })
}

fn place_of(platform: &Platform, value: &Value) -> Option<Place>
    ensures { result ≡ place_said platform.now (view value.now) }
{
    let coherency = coherency_at(value, "domain")?;
    let heap = heap_of(platform, value.get("heap")?)?;
    place_at(platform, heap, coherency)
}

/// The place, if the platform has it.
fn place_at(platform: &Platform, heap: usize, coherency: CoherencyDomain) -> Option<Place>
    ensures { result ≡ place_at platform.now heap coherency }
{
    if heap_at(platform, heap)?.domains.has(coherency) {
        Some(Place { heap, coherency })
    } else {
        None
    }
}

/// The index of the heap that is named.
fn heap_of(platform: &Platform, value: &Value) -> Option<usize>
    ensures { result ≡ heap_said platform.now (view value.now) }
{
    expect_object(value, heap_len(value.get(Field::Id.name())))?;
    let heap_type = text_at(value, Field::HeapType.name())?;
    let id = id_of(value.get(Field::Id.name()))?;
    heap_named(platform, heap_type, id)
}

fn heap_named(platform: &Platform, heap_type: &str, id: u64) -> Option<usize>
    ensures { result ≡ position (is_heap heap_type.now id) platform.now.heaps }
{
    platform
        .heaps()
        .iter()
        .position(|info| is_heap(heap_type, id, info))
}

fn is_heap(heap_type: &str, id: u64, info: &HeapInfo) -> bool
    ensures { result ≡ is_heap heap_type.now id info.now }
{
    info.heap.heap_type.as_str() == heap_type && info.heap.id == id
}

fn heap_len(id: Option<&Value>) -> usize
    ensures { result ≡ heap_len (option_map (λ d. view d.now) id.entry) }
{
    match id {
        None => 1,
        Some(_) => 2,
    }
}

fn id_of(id: Option<&Value>) -> Option<u64>
    ensures { result ≡ id_said (option_map (λ d. view d.now) id.entry) }
{
    match id {
        None => Some(0),
        Some(value) => number_to(value, u64::MAX),
    }
}

/// The offer of an image, or null for none.
fn offer_of(platform: &Platform, value: &Value) -> Option<Offer>
    ensures { result ≡ offer_said platform.now (view value.now) }
{
    if value.is_null() {
        return Some(Offer::NoImage);
    }
    offered(platform, image_of(value)?)
}

fn image_of(value: &Value) -> Option<Offer>
    ensures { result ≡ image_said (view value.now) }
{
    expect_object(value, 3)?;
    let colour = colour_at(value, "color_space")?;
    let format = format_at(value, Field::PixelFormat.name())?;
    let modifier = modifier_at(value, Field::PixelFormatModifier.name())?;
    Some(Offer::Image(Pair { format, modifier }, colour))
}

/// The offer, if the platform has it.
fn offered(platform: &Platform, offer: Offer) -> Option<Offer>
    ensures { result ≡ offered platform.now offer }
{
    match offer {
        Offer::NoImage => Some(offer),
        Offer::Image(pair, colour) => {
            if has_pair(platform.pairs(), pair) && lists_colour(platform.colours(), colour) {
                Some(offer)
            } else {
                None
            }
        }
    }
}

fn has_pair(pairs: &[Pair], pair: Pair) -> bool
    ensures { result ≡ has_pair pairs.now pair }
{
    pairs.iter().any(|other| is_same(*other, pair))
}

fn is_same(a: Pair, b: Pair) -> bool
    ensures { result ≡ same_pair a b }
{
    a == b
}

fn lists_colour(colours: &[ColourSpace], colour: ColourSpace) -> bool
    ensures { result ≡ lists_colour colours.now colour }
{
    colours.contains(&colour)
}

fn coherency_at(value: &Value, key: &str) -> Option<CoherencyDomain>
    ensures { result ≡ named_at key.now domain_named (view value.now) }
{
    coherency_named(text_at(value, key)?)
}

fn coherency_named(name: &str) -> Option<CoherencyDomain>
    ensures { result ≡ domain_named name.now }
{
    CoherencyDomain::from_name(name)
}

fn colour_at(value: &Value, key: &str) -> Option<ColourSpace>
    ensures { result ≡ named_at key.now colour_named (view value.now) }
{
    colour_named(text_at(value, key)?)
}

fn colour_named(name: &str) -> Option<ColourSpace>
    ensures { result ≡ colour_named name.now }
{
    ColourSpace::from_name(name)
}

fn format_at(value: &Value, key: &str) -> Option<PixelFormat>
    ensures { result ≡ named_at key.now format_named (view value.now) }
{
    format_named(text_at(value, key)?)
}

fn format_named(name: &str) -> Option<PixelFormat>
    ensures { result ≡ format_named name.now }
{
    PixelFormat::from_name(name)
}

fn modifier_at(value: &Value, key: &str) -> Option<Modifier>
    ensures { result ≡ named_at key.now modifier_named (view value.now) }
{
    modifier_named(text_at(value, key)?)
}

fn modifier_named(name: &str) -> Option<Modifier>
    ensures { result ≡ modifier_named name.now }
{
    Modifier::from_name(name)
}
