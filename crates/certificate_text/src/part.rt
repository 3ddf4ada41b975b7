//! Parts of a certificate.

ghost use Rattle.certificate_text.specs.Puts.{PutsData, PutsMember};
ghost use Rattle.certificate_text.specs.Told.{list_data};
ghost use Rattle.certificate_text.specs.Reading.{Says};
ghost use Rattle.serde_json.specs.Data.{Data};
ghost use Rattle.serde_json.specs.View.{view};
ghost use Rattle.std.specs.Prelude.{Option};

use crate::json_writer::Writer;
use crate::unread::Unread;
use serde_json::Value;
use std::alloc::{AllocError, Global};

/// A part of a certificate that is put by its tokens.
pub(crate) trait Put: Sized + Drop {
    ghost told: { Self → Data };

    /// Puts it after what is written.
    fn put(&self, out: &mut Writer) -> Result<(), AllocError>
        ensures { PutsData result out.old out.new (told self.now) };
}

/// A part of a certificate that is read from JSON data.
pub(crate) trait CertificatePart: Sized + Drop {
    ghost said: { Data → Option Self };

    /// Reads it from a value.
    fn read(alloc: Global, value: &Value) -> Result<Self, Unread>
        ensures { Says result (said (view value.now)) };

    /// Reads it from a value that stands in a list after these. What it has in common with one of
    /// them may be kept once for both.
    fn read_behind(alloc: Global, _parts: &[Self], value: &Value) -> Result<Self, Unread>
        ensures { Says result (said (view value.now)) }
    {
        Self::read(alloc, value)
    }
}

/// Puts a list of parts after what is written.
pub(crate) fn put_list<T: Put>(out: &mut Writer, parts: &[T]) -> Result<(), AllocError>
    ensures { PutsData result out.old out.new (list_data T.told parts.now) }
{
    out.begin_array()?;
    for part in parts {
        part.put(out)?;
    }
    out.end_array()
}

/// Puts a list of parts under a key.
pub(crate) fn put_list_at<T: Put>(
    out: &mut Writer,
    key: &str,
    parts: &[T],
) -> Result<(), AllocError>
    ensures { PutsMember result out.old out.new key.now (list_data T.told parts.now) }
{
    out.key(key)?;
    put_list(out, parts)
}
