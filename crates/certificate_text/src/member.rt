//! Members of objects.

ghost use Rattle.certificate_text.specs.Bounds.{count_data};
ghost use Rattle.certificate_text.specs.Puts.{PutsMember};
ghost use Rattle.serde_json.specs.Data.{string};

use crate::json_writer::Writer;
use std::alloc::AllocError;

/// Puts a text under a key.
pub(crate) fn put_text(out: &mut Writer, key: &str, text: &str) -> Result<(), AllocError>
    ensures { PutsMember result out.old out.new key.now (string text.now) }
{
    out.key(key)?;
    out.string(text)
}

/// Puts a number under a key.
pub(crate) fn put_number(out: &mut Writer, key: &str, number: u64) -> Result<(), AllocError>
    ensures { PutsMember result out.old out.new key.now (count_data number) }
{
    out.key(key)?;
    out.u64(number)
}
