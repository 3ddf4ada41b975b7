//! Reads what a name names.

ghost use Rattle.std.specs.Prelude.{◌≡◌, ℕ, List, Option};
ghost use Rattle.serde_json.specs.View.{view};
ghost use Rattle.record_reading.specs.Reading.Fields.{named};
ghost use Rattle.record_reading.specs.Reading.Names.{format_named, modifier_named, colour_named, domain_named, choice_named};

use super::field::text_of;
use crate::fault::{Code, Fault};
use serde_json::Value;
use sysmem_counts::Field;
use sysmem_formats::{ColourSpace, Modifier, PixelFormat};
use sysmem_memory::CoherencyDomain;

/// What a text of a record can name.
pub(super) trait Named: Sized + Copy {
    ghost by_name: { List ℕ → Option Self };

    /// What has the name.
    fn by_name(name: &str) -> Option<Self>
        ensures { result ≡ by_name name.now };
}

impl Named for PixelFormat {
    ghost by_name = { format_named };

    fn by_name(name: &str) -> Option<PixelFormat> {
        PixelFormat::from_name(name)
    }
}

impl Named for Modifier {
    ghost by_name = { modifier_named };

    fn by_name(name: &str) -> Option<Modifier> {
        Modifier::from_name(name)
    }
}

impl Named for ColourSpace {
    ghost by_name = { colour_named };

    fn by_name(name: &str) -> Option<ColourSpace> {
        ColourSpace::from_name(name)
    }
}

impl Named for CoherencyDomain {
    ghost by_name = { domain_named };

    fn by_name(name: &str) -> Option<CoherencyDomain> {
        CoherencyDomain::from_name(name)
    }
}

/// What the text names.
pub(super) fn name_of<T: Named>(value: &Value, field: Field) -> Result<T, Fault>
    ensures { result ≡ named T.by_name field (view value.now) }
{
    T::by_name(text_of(value, field)?).ok_or(Fault::of(Code::UnknownName, field))
}

fn choice_by_name<T: Named>(name: &str) -> Option<Option<T>>
    ensures { result ≡ choice_named T.by_name name.now }
{
    if name == "DO_NOT_CARE" {
        Some(None)
    } else {
        Some(Some(T::by_name(name)?))
    }
}

/// What the text names, or `None` for `DO_NOT_CARE`.
pub(super) fn choice_of<T: Named>(value: &Value, field: Field) -> Result<Option<T>, Fault>
    ensures { result ≡ named (choice_named T.by_name) field (view value.now) }
{
    choice_by_name(text_of(value, field)?).ok_or(Fault::of(Code::UnknownName, field))
}
