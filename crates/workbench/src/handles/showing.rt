//! What the collections that are still open are shown.

use super::hand::Hand;
use negotiation_inputs::Platform;
use script_reading::Call;
use std::alloc::AllocError;
use std::fmt::Write;
use std::sync::ledger::Ledger;
use sysmem_formats::Offer;
use sysmem_image::corner;
use sysmem_merge::Settings;
use sysmem_participants::{Collection, View};
use sysmem_proof::check;
use sysmem_search::NoGate;

/// Puts a line for each open collection after the text.
pub(crate) fn put_open<L: Ledger>(
    text: &mut String,
    hands: &mut [Hand<L>],
    calls: &[Call<'_>],
) -> Result<(), AllocError> {
    for place in 0..hands.len() {
        if let Hand::Collection(collection) = &mut hands[place] {
            text.push_str(name_at(calls, place))?;
            put_shown(text, collection)?;
        }
    }
    Ok(())
}

/// The name of a place.
fn name_at<'a>(calls: &'a [Call<'_>], place: usize) -> &'a str {
    let mut left = place;
    for call in calls {
        if let Some(name) = call.act.name_made() {
            if left == 1 {
                return name;
            }
            left = left.saturating_sub(1);
        }
    }
    "root"
}

/// Puts what a collection is shown after the text, or why it isn't.
fn put_shown<L: Ledger>(
    text: &mut String,
    collection: &mut Collection<L, NoGate>,
) -> Result<(), AllocError> {
    match collection.check() {
        Ok(view) => put_view(text, &view),
        Err(refusal) => {
            let name = refusal.name();
            writeln!(text, " {name}")
        }
    }
}

/// Puts ` chosen 1 count 2 size 4096 place ram#0 cpu image none checked` after the text.
fn put_view(text: &mut String, view: &View<'_>) -> Result<(), AllocError> {
    put_selection(text, view.selection().choices())?;
    put_settings(text, view.platform(), view.settings())?;
    put_image(text, view.settings())?;
    let checked = check(
        view.platform(),
        view.tree(),
        view.domain(),
        view.base(),
        view.claim(),
    );
    text.push_str(if checked.is_ok() {
        " checked\n"
    } else {
        " unchecked\n"
    })
}

fn put_selection(text: &mut String, choices: &[u8]) -> Result<(), AllocError> {
    if choices.is_empty() {
        return text.push_str(" chosen -");
    }
    let mut before = " chosen ";
    for choice in choices {
        write!(text, "{before}{choice}")?;
        before = ".";
    }
    Ok(())
}

fn put_settings(
    text: &mut String,
    platform: &Platform,
    settings: Settings,
) -> Result<(), AllocError> {
    let Some(info) = platform.heaps().get(settings.place.heap) else {
        return text.push_str(" of no heap");
    };
    let (count, size) = (settings.count, settings.size_bytes);
    let (name, id) = (info.heap.heap_type.as_str(), info.heap.id);
    let coherency = settings.place.coherency.name();
    write!(
        text,
        " count {count} size {size} place {name}#{id} {coherency}"
    )
}

fn put_image(text: &mut String, settings: Settings) -> Result<(), AllocError> {
    let Offer::Image(pair, colour) = settings.offer else {
        return text.push_str(" image none");
    };
    let (format, modifier, colour) = (pair.format.name(), pair.modifier.name(), colour.name());
    let Ok(least) = corner(&settings.bounds, &settings.offer) else {
        return write!(text, " image {format} {modifier} {colour}");
    };
    let (width, height, row) = (least.width, least.height, least.bytes_per_row);
    write!(
        text,
        " image {format} {modifier} {colour} {width}x{height} row {row}"
    )
}
