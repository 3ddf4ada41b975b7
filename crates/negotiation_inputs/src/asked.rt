//! The pairs of format and modifier that entries ask for.

ghost use Rattle.std.specs.Prelude.{◌≡◌};
ghost use Rattle.negotiation_inputs.specs.Asked.{pair_asked, same_format, same_modifier, same_asked, asks_misfit, is_asked_already};

use sysmem_formats::{Modifier, Pair, PixelFormat, is_tiled_misfit};
use sysmem_image::Entry;

/// A format and a modifier that an entry asks for, each `None` for `DO_NOT_CARE`.
#[derive(Clone, Copy)]
pub struct AskedPair {
    pub format: Option<PixelFormat>,
    pub modifier: Option<Modifier>,
}

/// Whether a tiled modifier is asked for with a named format that isn't of 4 bytes.
pub fn asks_misfit(asked: AskedPair) -> bool
    ensures { result ≡ asks_misfit asked.format asked.modifier }
{
    match (asked.format, asked.modifier) {
        (Some(format), Some(modifier)) => is_tiled_misfit(Pair { format, modifier }),
        _ => false,
    }
}

fn is_same_format(a: Option<PixelFormat>, b: Option<PixelFormat>) -> bool
    ensures { result ≡ same_format a b }
{
    a == b
}

fn is_same_modifier(a: Option<Modifier>, b: Option<Modifier>) -> bool
    ensures { result ≡ same_modifier a b }
{
    a == b
}

/// Whether the two ask for the same, `DO_NOT_CARE` being the same as itself alone.
pub fn is_same_asked(a: AskedPair, b: AskedPair) -> bool
    ensures { result ≡ same_asked a b }
{
    is_same_format(a.format, b.format) && is_same_modifier(a.modifier, b.modifier)
}

/// The pair of format and modifier that an entry asks for.
pub fn pair_asked(entry: &Entry) -> AskedPair
    ensures { result ≡ pair_asked entry.now }
{
    AskedPair {
        format: entry.format,
        modifier: entry.modifier,
    }
}

/// Whether one of the entries asks for the same.
pub fn is_asked_already(entries: &[Entry], new: AskedPair) -> bool
    ensures { result ≡ is_asked_already entries.now new }
{
    entries
        .iter()
        .any(|entry| is_same_asked(pair_asked(entry), new))
}
