//! The record of an image entry.

ghost use Rattle.sysmem_image.specs.Bounds.{IsInRange};
ghost use Rattle.record_laws.specs.Sparse.{entry_written};

use crate::bounds::put_bounds;
use crate::fields::Fields;
use crate::formats::put_formats;
use crate::listed::Listed;
use crate::names::colours_value;
use serde_json::Value;
use std::alloc::{AllocError, Global};
use sysmem_counts::Field;
use sysmem_image::Entry;

/// An image entry, with no further pairs.
impl Listed for Entry {
    ghost written = { entry_written };

    ghost in_range = { λ entry. IsInRange entry.bounds.asked };

    fn value(&self, alloc: Global) -> Result<Value, AllocError> {
        let mut fields = Fields::new(alloc);
        put_formats(&mut fields, self.format, self.modifier)?;
        let colours = colours_value(alloc, &self.colours)?;
        fields.put(Field::ColorSpaces, colours)?;
        put_bounds(&mut fields, &self.bounds)?;
        Ok(fields.into_value())
    }
}
