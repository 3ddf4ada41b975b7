//! What a text names: nodes, calls, fields, formats and modifiers.

use crate::json::changes::field_changed;
use crate::json::object::Object;
use crate::json::scene::Scene;
use crate::json::values::count_value;
use drm_images::{bits_of, letters_of};
use explanation_text::{Item, ListBuilder, Thing};
use serde_json::Value;
use std::alloc::{AllocError, Global};
use sysmem_counts::Field;
use sysmem_formats::{Modifier, PixelFormat};

/// What is named, in the order of the words, each once.
#[derive(Drop)]
pub(crate) struct Mentions {
    /// By number.
    nodes: Vec<usize>,
    /// By number, from 1.
    pub(crate) calls: Vec<usize>,
    fields: Vec<Field>,
    formats: Vec<PixelFormat>,
    modifiers: Vec<Modifier>,
}

/// What the text of an item names, each kind by itself, in order and once; last the field that it
/// changes.
pub(crate) fn mentions_in(alloc: Global, item: &Item) -> Result<Mentions, AllocError> {
    let mut mentions = Mentions {
        nodes: Vec::new(alloc),
        calls: Vec::new(alloc),
        fields: Vec::new(alloc),
        formats: Vec::new(alloc),
        modifiers: Vec::new(alloc),
    };
    for mention in &item.mentions {
        match mention.thing {
            Thing::Node(node) => add(&mut mentions.nodes, node)?,
            Thing::Call(number) => add(&mut mentions.calls, number)?,
            Thing::Field(field) => add(&mut mentions.fields, field)?,
            Thing::Format(format) => add(&mut mentions.formats, format)?,
            Thing::Modifier(modifier) => add(&mut mentions.modifiers, modifier)?,
        }
    }
    if let Some(field) = field_changed(item) {
        add(&mut mentions.fields, field)?;
    }
    Ok(mentions)
}

fn add<T: PartialEq + Copy>(list: &mut Vec<T>, item: T) -> Result<(), AllocError> {
    if !list.contains(&item) {
        list.push(item)?;
    }
    Ok(())
}

impl Mentions {
    /// Puts what is named into an object.
    pub(crate) fn put(&self, object: &mut Object, scene: &Scene<'_, '_>) -> Result<(), AllocError> {
        let alloc = object.alloc();
        object.list("calls", self.call_values(alloc)?)?;
        object.list("fields", self.field_values(alloc)?)?;
        object.list("formats", self.format_values(alloc)?)?;
        object.list("modifiers", self.modifier_values(alloc)?)?;
        object.list("nodes", self.node_values(alloc, scene)?)
    }

    fn call_values(&self, alloc: Global) -> Result<Vec<Value>, AllocError> {
        let mut values = Vec::new(alloc);
        for number in &self.calls {
            values.push(count_value(*number))?;
        }
        Ok(values)
    }

    fn field_values(&self, alloc: Global) -> Result<Vec<Value>, AllocError> {
        let mut values = ListBuilder::new(alloc);
        for field in &self.fields {
            values.add(Value::try_from_str(alloc, field.name())?);
        }
        values.done()
    }

    /// Each format with the letters of its code, or null.
    fn format_values(&self, alloc: Global) -> Result<Vec<Value>, AllocError> {
        let mut values = ListBuilder::new(alloc);
        for format in &self.formats {
            let mut object = Object::new(alloc);
            match letters_of(*format) {
                Some(letters) => object.say("fourcc", letters)?,
                None => object.put("fourcc", Value::Null)?,
            }
            object.say("pixel_format", format.name())?;
            values.add(object.into_value());
        }
        values.done()
    }

    /// Each modifier with its 64 bits.
    fn modifier_values(&self, alloc: Global) -> Result<Vec<Value>, AllocError> {
        let mut values = ListBuilder::new(alloc);
        for modifier in &self.modifiers {
            let mut object = Object::new(alloc);
            let bits = bits_of(*modifier);
            object.say("drm_modifier", &format!(in alloc; "0x{bits:016x}")?)?;
            object.say("modifier", modifier.name())?;
            values.add(object.into_value());
        }
        values.done()
    }

    fn node_values(&self, alloc: Global, scene: &Scene<'_, '_>) -> Result<Vec<Value>, AllocError> {
        let mut values = ListBuilder::new(alloc);
        for node in &self.nodes {
            values.add(scene.node_value(alloc, *node)?);
        }
        values.done()
    }
}
