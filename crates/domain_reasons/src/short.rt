//! Why domains have no settings, in a few lines.

use crate::domains::add_domain;
use crate::selecting::{DomainView, add_left_out};
use explanation_text::Items;
use negotiation_inputs::Platform;
use script_story::{Became, Story};
use std::alloc::AllocError;

/// How many lines are told of a domain.
const MOST: usize = 12;

/// Tells why a domain has no settings, or none with an earlier child, in a few lines.
pub fn add_shortly(
    items: &mut Items,
    platform: &Platform,
    story: &Story<'_>,
    index: usize,
) -> Result<(), AllocError> {
    let mut section = Items::new(items.alloc());
    add_reasons(&mut section, &*platform, &*story, index)?;
    items.append_section(section, 1, MOST)
}

/// Tells the same in as many lines as it takes.
fn add_reasons<'a, 'b>(
    items: &mut Items,
    platform: &'b Platform,
    story: &'b Story<'a>,
    index: usize,
) -> Result<(), AllocError> {
    let Some(domain) = story.domains.get(index) else {
        return Ok(());
    };
    if domain.became != Became::Chosen {
        return add_domain(items, platform, story, index);
    }
    if domain.host.is_some() {
        return Ok(());
    }
    let selections = DomainView {
        platform,
        story,
        root: domain.root,
        late: None,
    };
    add_left_out(items, selections)
}
