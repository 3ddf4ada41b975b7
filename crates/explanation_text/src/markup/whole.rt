//! A page, whole.

use crate::items::{Item, Kind};
use crate::markup::calls::{put_calls, put_proofs};
use crate::markup::drawing::Drawing;
use crate::markup::page::Page;
use crate::markup::picture::put_tree;
use crate::markup::sections::put_items;
use crate::markup::style::STYLE;
use std::alloc::{AllocError, Global};

/// The page of what is told, its answer first, and of what was done, where a script wasn't refused:
/// HTML in one file.
pub fn page_of(
    alloc: Global,
    items: &[Item],
    drawing: Option<&Drawing<'_>>,
) -> Result<String, AllocError> {
    let mut page = Page::new(alloc);
    put_head(&mut page, answer_in(items));
    if let Some(drawing) = drawing {
        put_tree(&mut page, drawing);
    }
    put_items(&mut page, alloc, items);
    if let Some(drawing) = drawing {
        put_calls(&mut page, drawing);
        put_proofs(&mut page, drawing);
    }
    page.put("</main>\n</body>\n</html>\n");
    page.into_text()
}

/// The first answer among what is told.
fn answer_in(items: &[Item]) -> &str {
    for item in items {
        if item.kind == Kind::Answer {
            return item.text.as_str();
        }
    }
    ""
}

fn put_head(page: &mut Page, answer: &str) {
    page.put("<!DOCTYPE html>\n<html lang=\"en\">\n<head>\n<meta charset=\"utf-8\">\n");
    page.put("<meta name=\"viewport\" content=\"width=device-width,initial-scale=1\">\n<title>");
    page.say(answer);
    page.put("</title>\n<style>");
    page.put(STYLE);
    page.put("</style>\n</head>\n<body>\n<header>\n<h1>");
    page.say(answer);
    page.put("</h1>\n</header>\n<main>\n")
}
