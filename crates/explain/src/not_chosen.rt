//! What is told of a decision that would come: how many buffers there are and how large, who refuses
//! what stands before it, and what would do too but stands after it.

use crate::helping::add_later;
use domain_reasons::add_domain;
use explanation_text::{Item, Items, Label, Thing};
use script_story::{Scenario, Story};
use serde_json::Value;
use std::alloc::{AllocError, Global};

/// How many lines are told.
const MOST: usize = 12;

/// Tells of the domain of an index, which is chosen, why there are so many buffers of that width and
/// height, why children, places and offers before those that are chosen aren't, and which later ones
/// would do too. It stands as deep as the decision, and right after the choice of children if there
/// is one.
pub(crate) fn add_not_chosen(
    items: &mut Items,
    scenario: &Scenario<'_>,
    value: &Value,
    story: &Story<'_>,
    index: usize,
    depth: usize,
) -> Result<(), AllocError> {
    let alloc = items.alloc();
    let path = story.path(story.root_of(index));
    let mut section = Items::new(alloc);
    add_domain(&mut section, scenario.platform, story, index)?;
    let refused = refused_in(alloc, section.into_list()?)?;
    let mut later = Items::new(alloc);
    add_later(&mut later, scenario, value, story, index, path)?;
    let most = MOST.saturating_sub(later.len());
    let deeper = depth.saturating_sub(1);
    items.append_section(refused, deeper, most)?;
    items.append_section(later, deeper, usize::MAX)
}

/// What is kept of a section.
#[derive(Drop)]
struct Kept {
    items: Items,
    /// What was chosen, above what is kept next; told only above something.
    head: Option<Item>,
    is_open: bool,
    /// Whether what is next says why there has to be an image.
    is_on_image: bool,
}

impl Kept {
    /// Keeps an item of the section if it stands below a choice, a place or an image.
    fn take(&mut self, item: Item) {
        if item.depth < 2 {
            return self.begin(item);
        }
        if !self.is_open || self.is_on_image {
            self.is_on_image = false;
            return;
        }
        if let Some(head) = self.head.take() {
            self.items.add(head);
        }
        self.items.add(item)
    }

    /// Begins with an item that others may stand below; keeps how many buffers there are and how
    /// large an image is, and why.
    fn begin(&mut self, item: Item) {
        if is_number(&item) {
            self.is_open = false;
            return self.items.add(item);
        }
        let has_head = item.label == Label::Place || item.label == Label::Image;
        self.is_open = has_head || item.label == Label::Choice;
        self.is_on_image = item.label == Label::Image;
        self.head = if has_head { Some(item) } else { None };
    }
}

/// Whether an item says how many buffers there are, how large an image is, or by whom a row is longer
/// than its pixels, or a buffer larger than its image.
fn is_number(item: &Item) -> bool {
    match item.label {
        Label::Count | Label::Pixels | Label::Width | Label::Height => true,
        Label::Row | Label::Size => item
            .mentions
            .iter()
            .any(|one| matches!(one.thing, Thing::Node(_))),
        _ => false,
    }
}

/// Tells of the domain of an index, which is chosen, how many buffers there are and how large an
/// image is, and why; nothing of children that aren't chosen. It stands as deep as the decision, and
/// right after the choice of children if there is one.
pub(crate) fn add_numbers(
    items: &mut Items,
    scenario: &Scenario<'_>,
    story: &Story<'_>,
    index: usize,
    depth: usize,
) -> Result<(), AllocError> {
    let alloc = items.alloc();
    let mut section = Items::new(alloc);
    add_domain(&mut section, scenario.platform, story, index)?;
    let mut numbers = Items::new(alloc);
    for item in section.into_list()? {
        if item.depth < 2 && is_number(&item) {
            numbers.add(item);
        }
    }
    items.append_section(numbers, depth.saturating_sub(1), MOST)
}

/// What the section of a chosen domain tells of children, places and offers that aren't chosen.
fn refused_in(alloc: Global, section: Vec<Item>) -> Result<Items, AllocError> {
    let mut kept = Kept {
        items: Items::new(alloc),
        head: None,
        is_open: false,
        is_on_image: false,
    };
    for item in section {
        kept.take(item);
    }
    Ok(kept.items)
}
