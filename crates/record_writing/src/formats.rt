//! A format and its modifier, and a platform's pairs and colour spaces.

ghost use Rattle.std.specs.Prelude.{⊤, ◌≡◌, OnOk};
ghost use Rattle.serde_json.specs.Data.{string};
ghost use Rattle.sysmem_formats.specs.Names.{format_name, modifier_name};
ghost use Rattle.record_laws.specs.Records.{choice, colour_record};
ghost use Rattle.record_laws.specs.Sparse.{with_fields, is_usual, formats_said, pair_written};
ghost use Rattle.record_writing.specs.Growing.{fields_in};

use crate::fields::Fields;
use crate::listed::Listed;
use serde_json::Value;
use std::alloc::{AllocError, Global};
use sysmem_counts::Field;
use sysmem_formats::{ColourSpace, Modifier, Pair, PixelFormat};

/// The name of a format, or `DO_NOT_CARE`.
fn name_of_format(format: Option<PixelFormat>) -> &'static str
    ensures { string result.now ≡ choice format_name format }
{
    match format {
        Some(format) => format.name(),
        None => "DO_NOT_CARE",
    }
}

/// The name of a modifier, or `DO_NOT_CARE`.
fn name_of_modifier(modifier: Option<Modifier>) -> &'static str
    ensures { string result.now ≡ choice modifier_name modifier }
{
    match modifier {
        Some(modifier) => modifier.name(),
        None => "DO_NOT_CARE",
    }
}

/// Whether the modifier is the one that an absent field stands for: `LINEAR` beside a format, and
/// `DO_NOT_CARE` beside `DO_NOT_CARE`.
fn is_usual(format: Option<PixelFormat>, modifier: Option<Modifier>) -> bool
    ensures { result ≡ is_usual format modifier }
{
    match (format, modifier) {
        (None, None) => true,
        (None, Some(_)) => false,
        (Some(_), None) => false,
        (Some(_), Some(Modifier::Linear)) => true,
        (Some(_), Some(Modifier::IntelXTiled)) => false,
        (Some(_), Some(Modifier::IntelYTiled)) => false,
    }
}

/// Puts a format, and its modifier where that isn't the usual one.
#[tactic(auto, unfolding(record_laws::specs::Sparse::with_field))]
pub(crate) fn put_formats(
    fields: &mut Fields,
    format: Option<PixelFormat>,
    modifier: Option<Modifier>,
) -> Result<(), AllocError>
    ensures { OnOk result
        (fields_in fields.new ≡ with_fields (fields_in fields.old) (formats_said format modifier)) }
{
    fields.put_text(Field::PixelFormat, name_of_format(format))?;
    if is_usual(format, modifier) {
        return Ok(());
    }
    Ok(fields.put_text(Field::PixelFormatModifier, name_of_modifier(modifier))?)
}

/// A pair of a platform.
impl Listed for Pair {
    ghost written = { pair_written };

    ghost in_range = { λ _. ⊤ };

    fn value(&self, alloc: Global) -> Result<Value, AllocError> {
        let mut fields = Fields::new(alloc);
        put_formats(&mut fields, Some(self.format), Some(self.modifier))?;
        Ok(fields.into_value())
    }
}

/// A colour space of a platform.
impl Listed for ColourSpace {
    ghost written = { colour_record };

    ghost in_range = { λ _. ⊤ };

    fn value(&self, alloc: Global) -> Result<Value, AllocError> {
        Value::try_from_str(alloc, self.name())
    }
}
