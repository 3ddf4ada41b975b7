//! Reads the colour spaces of an entry.

ghost use Rattle.std.specs.Prelude.{◌≡◌};
ghost use Rattle.serde_json.specs.View.{view, items_view};
ghost use Rattle.sysmem_image.specs.Colours.{no_colours};
ghost use Rattle.record_reading.specs.Reading.Entries.{with_colour_or_any, with_listed, colour_set_of};
ghost use Rattle.record_reading.specs.Reading.Fields.{read_each};

use super::field::list_of;
use super::name::choice_of;
use crate::fault::{Code, Fault};
use serde_json::Value;
use sysmem_counts::Field;
use sysmem_formats::ColourSpace;
use sysmem_image::ColourSet;

fn with_colour_or_any(mut set: ColourSet, colour: Option<ColourSpace>) -> ColourSet
    ensures { result ≡ with_colour_or_any set colour }
{
    match colour {
        None => set.insert_any(),
        Some(colour) => set.insert(colour),
    }
    set
}

fn with_listed(set: ColourSet, value: &Value) -> Result<ColourSet, Fault>
    ensures { result ≡ with_listed set (view value.now) }
{
    Ok(with_colour_or_any(set, choice_of(value, Field::ColorSpaces)?))
}

fn listed_in(list: &[Value]) -> Result<ColourSet, Fault>
    ensures { result ≡ read_each with_listed no_colours (items_view list.now) }
{
    let mut set = ColourSet::new();
    for value in list {
        set = with_listed(set, value)?;
    }
    Ok(set)
}

/// A list of colour spaces that isn't empty. A repeated one counts once.
#[tactic(auto, using(crate::proofs::Members::items_rules))]
pub(super) fn colour_set_of(value: &Value) -> Result<ColourSet, Fault>
    ensures { result ≡ colour_set_of (view value.now) }
{
    let list = list_of(value, Field::ColorSpaces)?;
    if list.is_empty() {
        return Err(Fault::of(Code::NoColourSpaces, Field::ColorSpaces));
    }
    listed_in(list)
}
