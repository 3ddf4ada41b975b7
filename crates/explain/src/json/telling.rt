//! The lines of an explanation, item by item.

ghost use Rattle.std.specs.Prelude.{IfOk};
ghost use Rattle.std.specs.String.{string_bytes};
ghost use Rattle.explain.specs.Lines.{IsLineOf};

use crate::json::above::{changes_above, domain_above};
use crate::json::item_object::{put_form, put_item};
use crate::json::object::Object;
use crate::json::scene::Scene;
use crate::lines::then_of;
use explanation_text::{Choice, Decided, Item, Kind, Label, Thing};
use report_json::{Choice as ReportedChoice, Root, chosen_object, word_object};
use serde_json::Value;
use std::alloc::AllocError;

/// What is kept from item to item.
#[derive(Drop)]
pub(crate) struct Telling<'a, 'b> {
    scene: Scene<'a, 'b>,
    items: &'b [Item],
    /// The root of the domain whose section it is, by number.
    root: Option<usize>,
    /// How deep the item stands that tells of calls made otherwise, if the words below it tell what
    /// these would do.
    then: Option<usize>,
}

impl<'a, 'b> Telling<'a, 'b> {
    pub(crate) fn new(scene: Scene<'a, 'b>, items: &'b [Item]) -> Telling<'a, 'b> {
        Telling {
            scene,
            items,
            root: None,
            then: None,
        }
    }

    /// The line of the next item, which has this index.
    pub(crate) fn line(&mut self, index: usize, item: &Item) -> Result<String, AllocError>
        ensures { IfOk result (λ line. IsLineOf (string_bytes item.now.text) (string_bytes line)) }
    {
        let object = self.object(index, item)?;
        let line = object.into_line(&item.text)?;
        Ok(line)
    }

    /// What the line says beside the text.
    fn object(&mut self, index: usize, item: &Item) -> Result<Object, AllocError> {
        let alloc = *item.text.allocator();
        let mut object = Object::new(alloc);
        let has_words = matches!(item.kind, Kind::Words | Kind::Source);
        if self.is_below_then(item) && has_words {
            put_form(&mut object, item)?;
        } else {
            put_item(&mut object, &self.scene, item)?;
        }
        match item.kind {
            Kind::Title => self.begin(&mut object, item)?,
            Kind::Decision => self.decide(&mut object, index, item)?,
            _ => {}
        }
        if let Some(root) = self.root {
            self.put_domain(&mut object, root, item.kind == Kind::Title)?;
        }
        Ok(object)
    }

    /// Whether an item tells what calls would do that are made otherwise: the numbers and names in
    /// its words are of another script.
    fn is_below_then(&mut self, item: &Item) -> bool {
        self.then = then_of(item, self.then);
        matches!(self.then, Some(depth) if item.depth > depth)
    }

    /// Begins a section: of the domain whose root its title names first, if it names one.
    fn begin(&mut self, object: &mut Object, item: &Item) -> Result<(), AllocError> {
        self.root = None;
        let (Some(first), Some(played)) = (item.mentions.first(), self.scene.played) else {
            return Ok(());
        };
        let Thing::Node(root) = first.thing else {
            return Ok(());
        };
        for domain in &played.story.domains {
            if domain.root == root {
                self.root = Some(root);
                return object.say("verdict", domain.became.word());
            }
        }
        Ok(())
    }

    /// Puts whose section it is, in its title with the name.
    fn put_domain(
        &self,
        object: &mut Object,
        root: usize,
        is_title: bool,
    ) -> Result<(), AllocError> {
        if is_title {
            return self.scene.put_node(object, "domain", root);
        }
        match self.scene.played {
            Some(played) => object.say("domain", played.story.path(root)),
            None => Ok(()),
        }
    }

    /// Puts the changes with which a decision would come, and in the section of a domain what is
    /// decided.
    fn decide(&self, object: &mut Object, index: usize, item: &Item) -> Result<(), AllocError> {
        let alloc = object.alloc();
        if item.label == Label::Promised {
            object.list(
                "changes",
                changes_above(alloc, &self.scene, self.items, index)?,
            )?;
        }
        let (Some(root), Some(played)) = (self.root, self.scene.played) else {
            return Ok(());
        };
        let root = match domain_above(self.items, index) {
            Some(other) => other,
            None => Root {
                path: played.story.path(root),
                name: Some(played.story.name(root)),
            },
        };
        let told = match &item.decided {
            Some(Decided::Chosen(one)) => {
                chosen_object(alloc, played.platform, root, &choice_of(one))?
            }
            Some(Decided::Word(word)) => word_object(alloc, root, word)?,
            None => return Ok(()),
        };
        match Value::from_str(alloc, &told) {
            Ok(decision) => object.put("decision", decision),
            Err(_) => Err(AllocError),
        }
    }
}

/// What was chosen, as a report's object has it.
fn choice_of(one: &Choice) -> ReportedChoice<'_> {
    ReportedChoice {
        selection: &one.selection,
        count: one.count,
        size_bytes: one.size_bytes,
        place: one.place,
        offer: one.offer,
        corner: one.corner,
    }
}
