//! The fields of a record that grows, each put where it isn't what an absent one stands for.

ghost use Rattle.std.specs.Prelude.{◌≡◌, ◌≤◌, ◌==◌, ◌&&◌, Some, IfOk, OnOk};
ghost use Rattle.serde_json.specs.Data.{no_members, object, string};
ghost use Rattle.serde_json.specs.View.{view, items_view};
ghost use Rattle.sysmem_counts.specs.Bounds.{most_number};
ghost use Rattle.sysmem_image.specs.Size.{IsSizeInRange};
ghost use Rattle.record_laws.specs.Ranges.{most_large};
ghost use Rattle.record_laws.specs.Records.{size_record};
ghost use Rattle.record_laws.specs.Sparse.{unless, with_field, number_said, true_said, false_said, size_said, list_said, object_said};
ghost use Rattle.record_writing.specs.Growing.{fields_in};

use serde_json::{Map, Value, json};
use std::alloc::{AllocError, Global};
use sysmem_counts::Field;
use sysmem_image::Size;

/// The fields of a record that grows.
#[derive(Drop)]
pub(crate) struct Fields {
    alloc: Global,
    members: Map<String, Value>,
}

fn is_square(size: Size, side: u32) -> bool
    ensures { result ≡ (size.width == side && size.height == side) }
{
    size.width == side && size.height == side
}

fn size_value(alloc: Global, size: Size) -> Result<Value, AllocError>
    ensures { IfOk result (λ value. view value ≡ size_record size) }
{
    json!(in alloc; {"height": size.height, "width": size.width})
}

impl Fields {
    pub(crate) fn new(alloc: Global) -> Fields
        ensures { fields_in result ≡ no_members }
    {
        Fields {
            alloc,
            members: Map::new(alloc),
        }
    }

    /// The record with these fields.
    pub(crate) fn into_value(self) -> Value
        ensures { view result ≡ object (fields_in self) }
    {
        Value::from(self.members)
    }

    /// Puts a field.
    #[tactic(auto, unfolding(record_laws::specs::Sparse::with_field))]
    pub(crate) fn put(&mut self, field: Field, value: Value) -> Result<(), AllocError>
        ensures { OnOk result
            (fields_in self.new ≡ with_field (fields_in self.old) field (Some (view value))) }
    {
        Ok(serde_json::put(&mut self.members, self.alloc, field.name(), value)?)
    }

    /// Puts a text.
    pub(crate) fn put_text(&mut self, field: Field, text: &str) -> Result<(), AllocError>
        ensures { OnOk result
            (fields_in self.new ≡ with_field (fields_in self.old) field (Some (string text.now))) }
    {
        let value = Value::try_from_str(self.alloc, text)?;
        Ok(self.put(field, value)?)
    }

    /// Puts a field, unless it is left out.
    #[tactic(auto, unfolding(record_laws::specs::Sparse::with_field))]
    pub(crate) fn put_unless(
        &mut self,
        field: Field,
        is_left_out: bool,
        value: Value,
    ) -> Result<(), AllocError>
        ensures { OnOk result (fields_in self.new
            ≡ with_field (fields_in self.old) field (unless is_left_out (view value))) }
    {
        if is_left_out {
            return Ok(());
        }
        Ok(self.put(field, value)?)
    }

    /// Puts a number, unless it is what an absent one stands for.
    pub(crate) fn put_number(
        &mut self,
        field: Field,
        number: u64,
        absent: u64,
    ) -> Result<(), AllocError>
        ensures put { OnOk result (fields_in self.new
            ≡ with_field (fields_in self.old) field (number_said absent number)) }
        ensures small { number ≤ most_large }
    {
        Ok(self.put_unless(field, number == absent, Value::from(number))?)
    }

    /// Puts a number of 32 bits, unless it is what an absent one stands for.
    pub(crate) fn put_count(
        &mut self,
        field: Field,
        count: u32,
        absent: u32,
    ) -> Result<(), AllocError>
        ensures put { OnOk result (fields_in self.new
            ≡ with_field (fields_in self.old) field (number_said absent count)) }
        ensures small { count ≤ most_number }
    {
        Ok(self.put_number(field, u64::from(count), u64::from(absent))?)
    }

    /// Puts a flag that is false where it is absent.
    #[tactic(auto, unfolding(record_laws::specs::Sparse::with_field))]
    pub(crate) fn put_true(&mut self, field: Field, flag: bool) -> Result<(), AllocError>
        ensures { OnOk result
            (fields_in self.new ≡ with_field (fields_in self.old) field (true_said flag)) }
    {
        if !flag {
            return Ok(());
        }
        Ok(self.put(field, Value::from(true))?)
    }

    /// Puts a flag that is true where it is absent.
    #[tactic(auto, unfolding(record_laws::specs::Sparse::with_field))]
    pub(crate) fn put_false(&mut self, field: Field, flag: bool) -> Result<(), AllocError>
        ensures { OnOk result
            (fields_in self.new ≡ with_field (fields_in self.old) field (false_said flag)) }
    {
        if flag {
            return Ok(());
        }
        Ok(self.put(field, Value::from(false))?)
    }

    /// Puts a size, unless both of its sides are what absent ones stand for.
    pub(crate) fn put_size(
        &mut self,
        field: Field,
        size: Size,
        absent: u32,
    ) -> Result<(), AllocError>
        ensures put { OnOk result (fields_in self.new
            ≡ with_field (fields_in self.old) field (size_said absent size)) }
        ensures small { IsSizeInRange size }
    {
        let value = size_value(self.alloc, size)?;
        Ok(self.put_unless(field, is_square(size, absent), value)?)
    }

    /// Puts a list, unless it is empty.
    #[tactic(auto, unfolding(record_laws::specs::Sparse::with_field))]
    pub(crate) fn put_list(&mut self, field: Field, items: Vec<Value>) -> Result<(), AllocError>
        ensures { OnOk result (fields_in self.new
            ≡ with_field (fields_in self.old) field (list_said (items_view items.items))) }
    {
        if items.as_slice().is_empty() {
            return Ok(());
        }
        Ok(self.put(field, Value::from(items))?)
    }

    /// Puts a record, unless it has no fields.
    #[tactic(auto, unfolding(record_laws::specs::Sparse::with_field))]
    pub(crate) fn put_fields(&mut self, field: Field, fields: Fields) -> Result<(), AllocError>
        ensures { OnOk result (fields_in self.new
            ≡ with_field (fields_in self.old) field (object_said (fields_in fields))) }
    {
        if fields.members.is_empty() {
            return Ok(());
        }
        Ok(self.put(field, fields.into_value())?)
    }
}
