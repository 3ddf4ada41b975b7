//! The objects of domains.

use crate::image_object::put_image;
use crate::put::{put_comma, put_name, put_number};
use negotiation_inputs::Platform;
use std::alloc::{AllocError, Global};
use std::fmt::Write;
use sysmem_formats::Offer;
use sysmem_image::Corner;
use sysmem_memory::Place;

/// The root of a domain: its path, and its name, if it has one.
#[derive(Clone, Copy)]
pub struct Root<'a> {
    pub path: &'a str,
    pub name: Option<&'a str>,
}

/// What was chosen for a domain, as it is told.
#[derive(Clone, Copy)]
pub struct Choice<'a> {
    pub selection: &'a [u8],
    pub count: u32,
    pub size_bytes: u64,
    pub place: Place,
    pub offer: Offer,
    pub corner: Corner,
}

/// The object of a domain of which a word is said.
pub fn word_object(alloc: Global, root: Root<'_>, verdict: &str) -> Result<String, AllocError> {
    let mut out = String::new(alloc);
    put_word(&mut out, root, verdict)?;
    Ok(out)
}

/// The object of a domain for which settings were chosen.
pub fn chosen_object(
    alloc: Global,
    platform: &Platform,
    root: Root<'_>,
    choice: &Choice<'_>,
) -> Result<String, AllocError> {
    let mut out = String::new(alloc);
    put_chosen(&mut out, platform, root, choice)?;
    Ok(out)
}

/// Puts the object of a domain of which a word is said:
/// `{"domain":"/0","name":"camera","verdict":"failed"}`.
pub(crate) fn put_word(out: &mut String, root: Root<'_>, verdict: &str) -> Result<(), AllocError> {
    out.push_str("{")?;
    put_root(out, root)?;
    put_verdict(out, verdict)
}

/// Puts the path of a domain's root and its name.
pub(crate) fn put_root(out: &mut String, root: Root<'_>) -> Result<(), AllocError> {
    let path = root.path;
    write!(out, "\"domain\":\"{path}\",\"name\":")?;
    put_name(out, root.name)
}

/// Puts the verdict, which ends the object.
pub(crate) fn put_verdict(out: &mut String, verdict: &str) -> Result<(), AllocError> {
    writeln!(out, ",\"verdict\":\"{verdict}\"}}")
}

/// Puts the object of a domain for which settings were chosen.
pub(crate) fn put_chosen(
    out: &mut String,
    platform: &Platform,
    root: Root<'_>,
    choice: &Choice<'_>,
) -> Result<(), AllocError> {
    let (path, count) = (root.path, choice.count);
    write!(out, "{{\"count\":{count},\"domain\":\"{path}\",\"image\":")?;
    put_image(out, choice.offer, choice.corner)?;
    out.push_str(",\"name\":")?;
    put_name(out, root.name)?;
    put_place(out, platform, choice.place)?;
    put_selection(out, choice.selection)?;
    out.push_str("],\"size_bytes\":")?;
    put_number(out, choice.size_bytes)?;
    put_verdict(out, "chosen")
}

/// Puts the place of settings.
fn put_place(out: &mut String, platform: &Platform, place: Place) -> Result<(), AllocError> {
    let Some(info) = platform.heaps().get(place.heap) else {
        return Ok(());
    };
    let (coherency, index) = (place.coherency.name(), place.heap);
    let heap_type = info.heap.heap_type.as_str();
    write!(
        out,
        ",\"place\":{{\"domain\":\"{coherency}\",\"heap\":{index},\"heap_type\":\"{heap_type}\",\"id\":"
    )?;
    put_number(out, info.heap.id)?;
    out.push_str("}")
}

/// Puts the chosen child of each group.
fn put_selection(out: &mut String, selection: &[u8]) -> Result<(), AllocError> {
    out.push_str(",\"selection\":[")?;
    for (index, choice) in selection.iter().enumerate() {
        put_comma(out, index > 0)?;
        let choice = *choice;
        write!(out, "{choice}")?;
    }
    Ok(())
}
