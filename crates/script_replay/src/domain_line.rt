//! The lines of domains, each put after the text so far.

ghost use Rattle.std.specs.Prelude.{◌≡◌, ◌++◌, codes, option_map, slice_get, IfOk};
ghost use Rattle.std.specs.Fmt.{decimal};
ghost use Rattle.std.specs.String.{string_bytes};
ghost use Rattle.certificate_text.specs.Paths.{path_text};
ghost use Rattle.script_replay.specs.Lines.{Puts, chosen_text, domain_line, heap_text, image_text, marked, selection_text, settings_text};

use certificate_text::push_path;
use negotiation_inputs::Platform;
use std::alloc::{AllocError, Global};
use std::fmt::Write;
use sysmem_formats::{ColourSpace, Offer, Pair};
use sysmem_image::Corner;
use sysmem_memory::HeapInfo;
use sysmem_merge::Settings;
use sysmem_tree::Path;
use verdict_claims::Chosen;

/// Puts the line of a domain that was decided after the text: `domain /0 chosen 1 count 2 size
/// 4096 place ram#0 cpu image none`.
pub fn put_chosen(
    text: &mut String,
    platform: &Platform,
    path: &Path,
    chosen: &Chosen,
    corner: Corner,
) -> Result<(), AllocError>
    ensures { Puts result text.old text.new
        (domain_line path.now (chosen_text platform.now chosen.now corner)) }
{
    put_path(text, path)?;
    text.push_str(" ")?;
    put_chosen_text(text, platform, chosen, corner)?;
    text.push_str("\n")?;
    Ok(())
}

/// Puts what was chosen after the text: `chosen 1 count 2 size 4096 place ram#0 cpu image none`.
pub(crate) fn put_chosen_text(
    text: &mut String,
    platform: &Platform,
    chosen: &Chosen,
    corner: Corner,
) -> Result<(), AllocError>
    ensures { Puts result text.old text.new (chosen_text platform.now chosen.now corner) }
{
    text.push_str("chosen ")?;
    put_selection(text, chosen.selection().choices())?;
    text.push_str(" ")?;
    put_settings(text, platform, chosen.settings())?;
    put_image(text, chosen.settings().offer, corner)?;
    Ok(())
}

/// Puts a line of one word after the text: `domain /0 empty`.
pub fn put_word(text: &mut String, path: &Path, word: &str) -> Result<(), AllocError>
    ensures { Puts result text.old text.new (domain_line path.now word.now) }
{
    put_path(text, path)?;
    put_end(text, word)?;
    Ok(())
}

/// Puts the name of a domain after the text, by the path of its root: `domain /0`.
pub fn put_path(text: &mut String, path: &Path) -> Result<(), AllocError>
    ensures { Puts result text.old text.new (codes "domain " ++ path_text path.now) }
{
    text.push_str("domain ")?;
    push_path(text, path.ordinals())?;
    Ok(())
}

/// A path as a text: `/0/1`.
pub fn text_of_path(alloc: Global, path: &Path) -> Result<String, AllocError>
    ensures { IfOk result (λ text. string_bytes text ≡ path_text path.now) }
{
    let mut text = String::new(alloc);
    push_path(&mut text, path.ordinals())?;
    Ok(text)
}

fn put_selection(text: &mut String, choices: &[u8]) -> Result<(), AllocError>
    ensures { Puts result text.old text.new (selection_text choices.now) }
{
    match choices.split_first() {
        None => text.push_str("-"),
        Some((first, others)) => put_choices(text, *first, others),
    }
}

fn put_choices(text: &mut String, first: u8, others: &[u8]) -> Result<(), AllocError>
    ensures { Puts result text.old text.new (decimal first ++ marked (codes ".") others.now) }
{
    put_choice(text, first)?;
    put_further(text, others)?;
    Ok(())
}

fn put_further(text: &mut String, choices: &[u8]) -> Result<(), AllocError>
    ensures { Puts result text.old text.new (marked (codes ".") choices.now) }
{
    for choice in choices {
        put_next(text, *choice)?;
    }
    Ok(())
}

fn put_choice(text: &mut String, choice: u8) -> Result<(), AllocError>
    ensures { Puts result text.old text.new (decimal choice) }
{
    write!(text, "{choice}")
}

fn put_next(text: &mut String, choice: u8) -> Result<(), AllocError>
    ensures { Puts result text.old text.new (codes "." ++ decimal choice) }
{
    write!(text, ".{choice}")
}

fn put_end(text: &mut String, word: &str) -> Result<(), AllocError>
    ensures { Puts result text.old text.new (codes " " ++ word.now ++ codes "\n") }
{
    writeln!(text, " {word}")
}

fn put_settings(
    text: &mut String,
    platform: &Platform,
    settings: Settings,
) -> Result<(), AllocError>
    ensures { Puts result text.old text.new (settings_text platform.now settings) }
{
    put_numbers(text, settings.count, settings.size_bytes)?;
    put_heap(text, heap_at(platform, settings.place.heap))?;
    put_coherency(text, settings.place.coherency.name())?;
    Ok(())
}

fn put_numbers(text: &mut String, count: u32, size: u64) -> Result<(), AllocError>
    ensures { Puts result text.old text.new
        (codes "count " ++ decimal count ++ codes " size " ++ decimal size ++ codes " place ") }
{
    write!(text, "count {count} size {size} place ")
}

fn heap_at(platform: &Platform, index: usize) -> Option<&HeapInfo>
    ensures { option_map (λ info. info.now) result ≡ slice_get platform.now.heaps index }
{
    platform.heaps().get(index)
}

fn put_heap(text: &mut String, heap: Option<&HeapInfo>) -> Result<(), AllocError>
    ensures { Puts result text.old text.new (heap_text (option_map (λ info. info.now) heap.entry)) }
{
    match heap {
        Some(info) => put_heap_name(text, info.heap.heap_type.as_str(), info.heap.id),
        None => Ok(()),
    }
}

fn put_heap_name(text: &mut String, heap_type: &str, id: u64) -> Result<(), AllocError>
    ensures { Puts result text.old text.new (heap_type.now ++ codes "#" ++ decimal id) }
{
    write!(text, "{heap_type}#{id}")
}

fn put_coherency(text: &mut String, coherency: &str) -> Result<(), AllocError>
    ensures { Puts result text.old text.new (codes " " ++ coherency.now ++ codes " image ") }
{
    write!(text, " {coherency} image ")
}

fn put_image(text: &mut String, offer: Offer, corner: Corner) -> Result<(), AllocError>
    ensures { Puts result text.old text.new (image_text offer corner) }
{
    match offer {
        Offer::NoImage => text.push_str("none"),
        Offer::Image(pair, colour) => put_shown(text, pair, colour, corner),
    }
}

fn put_shown(
    text: &mut String,
    pair: Pair,
    colour: ColourSpace,
    corner: Corner,
) -> Result<(), AllocError>
    ensures { Puts result text.old text.new (image_text (Offer.Image pair colour) corner) }
{
    put_format(
        text,
        pair.format.name(),
        pair.modifier.name(),
        colour.name(),
    )?;
    put_corner(text, corner.width, corner.height, corner.bytes_per_row)?;
    Ok(())
}

fn put_format(
    text: &mut String,
    format: &str,
    modifier: &str,
    colour: &str,
) -> Result<(), AllocError>
    ensures { Puts result text.old text.new
        (format.now ++ codes " " ++ modifier.now ++ codes " " ++ colour.now ++ codes " ") }
{
    write!(text, "{format} {modifier} {colour} ")
}

fn put_corner(text: &mut String, width: u32, height: u32, row: u32) -> Result<(), AllocError>
    ensures { Puts result text.old text.new
        (decimal width ++ codes "x" ++ decimal height ++ codes " row " ++ decimal row) }
{
    write!(text, "{width}x{height} row {row}")
}
