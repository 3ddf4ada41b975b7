//! The tree as a picture within the page, and as nested lists.

use crate::markup::drawing::{Drawing, Joint, Shape, Standing, class_of};
use crate::markup::page::Page;
use crate::wording::width_of;

/// How high a row is, in pixels.
const ROW: usize = 28;
/// How much further to the right a joint stands than the one above it.
const STEP: usize = 26;
/// How wide ten characters are.
const TEN: usize = 79;
/// Where the first joint stands.
const LEFT: usize = 14;
/// How many characters have room for how a joint stands.
const WORD: usize = 16;

/// Where the columns of the picture begin, in pixels from the left.
#[derive(Clone, Copy)]
struct Columns {
    states: usize,
    words: usize,
    end: usize,
}

/// Puts the tree after the page.
pub(crate) fn put_tree(page: &mut Page, drawing: &Drawing<'_>) {
    page.put("<h2>Tokens</h2>\n<div class=\"scroll\">\n");
    put_picture(page, drawing);
    page.put("</div>\n<details><summary>the same as a list</summary>\n");
    put_list(page, drawing);
    page.put(
        "</details>\n<p class=\"soft\">Circles are collections (dashed: tokens), diamonds are ",
    );
    page.put("groups; a dashed line leads to a token that was attached later.</p>\n");
}

/// How wide some characters are, in pixels.
fn pixels(characters: usize) -> usize {
    characters.saturating_mul(TEN) / 10
}

fn columns_of(drawing: &Drawing<'_>) -> Columns {
    let mut deep = 0usize;
    let mut names = 0usize;
    let mut states = 0usize;
    for joint in &drawing.joints {
        deep = deep.max(joint.depth);
        let name = width_of(joint.name).saturating_add(width_of(joint.path));
        names = names.max(name);
        states = states.max(width_of(&joint.state));
    }
    let first = x_of(deep).saturating_add(22);
    let second = first.saturating_add(pixels(names.saturating_add(3)));
    let third = second.saturating_add(pixels(states.saturating_add(2)));
    Columns {
        states: second,
        words: third,
        end: third.saturating_add(pixels(WORD)),
    }
}

/// Where a joint at a depth stands, in pixels from the left.
fn x_of(depth: usize) -> usize {
    depth.saturating_mul(STEP).saturating_add(LEFT)
}

/// The middle of a row, in pixels from the top.
fn y_of(row: usize) -> usize {
    row.saturating_mul(ROW).saturating_add(18)
}

fn put_picture(page: &mut Page, drawing: &Drawing<'_>) {
    let columns = columns_of(drawing);
    let height = y_of(drawing.joints.len());
    page.put("<svg role=\"img\" aria-label=\"The tree of tokens; the list below says the same\"");
    page.put_numbers(&[
        (" width=\"", columns.end),
        ("\" height=\"", height),
        ("\" viewBox=\"0 0 ", columns.end),
        (" ", height),
    ]);
    page.put("\">\n");
    for (row, joint) in drawing.joints.iter().enumerate() {
        put_branch(page, drawing, row, joint);
    }
    for (row, joint) in drawing.joints.iter().enumerate() {
        put_joint(page, joint, y_of(row));
        put_words(page, joint, y_of(row), columns);
    }
    page.put("</svg>\n")
}

/// Puts the line from the joint above to a joint after the page: thick where both are chosen,
/// dashed where it was attached later.
fn put_branch(page: &mut Page, drawing: &Drawing<'_>, row: usize, joint: &Joint<'_>) {
    let Some(above) = joint.above else {
        return;
    };
    let Some(other) = drawing.joints.get(above) else {
        return;
    };
    let are_chosen = joint.standing == Standing::Chosen && other.standing == Standing::Chosen;
    let begin = match (joint.is_late, are_chosen) {
        (true, _) => "<path class=\"late\" d=\"M",
        (false, true) => "<path class=\"way\" d=\"M",
        (false, false) => "<path d=\"M",
    };
    page.put_numbers(&[
        (begin, x_of(other.depth)),
        (" ", y_of(above).saturating_add(7)),
        ("V", y_of(row)),
        ("H", x_of(joint.depth).saturating_sub(7)),
    ]);
    page.put("\"/>\n")
}

/// Puts a joint after the page: a circle, dashed of a token, or a diamond.
fn put_joint(page: &mut Page, joint: &Joint<'_>, y: usize) {
    let class = class_of(joint.standing);
    let x = x_of(joint.depth);
    page.put(match joint.shape {
        Shape::Group => "<path class=\"shape ",
        Shape::Token => "<circle class=\"shape token ",
        Shape::Collection => "<circle class=\"shape ",
    });
    page.put(class);
    if joint.shape == Shape::Group {
        page.put_numbers(&[("\" d=\"M", x), (" ", y.saturating_sub(7))]);
        page.put("l7 7l-7 7l-7 -7Z\"/>\n")
    } else {
        page.put_numbers(&[("\" cx=\"", x), ("\" cy=\"", y)]);
        page.put("\" r=\"6\"/>\n")
    }
}

/// Puts a joint's name, what it is and how it stands after the page.
fn put_words(page: &mut Page, joint: &Joint<'_>, y: usize, columns: Columns) {
    let base = y.saturating_add(4);
    let x = x_of(joint.depth).saturating_add(22);
    page.put_numbers(&[("<text x=\"", x), ("\" y=\"", base)]);
    page.add_in("\"><tspan class=\"name\">", joint.name, "</tspan> ");
    page.say(joint.path);
    page.put(" </text>\n");
    put_column(page, "soft", columns.states, base, &joint.state);
    if joint.word.is_empty() {
        return;
    }
    let class = match joint.standing {
        Standing::Plain => "soft",
        standing => class_of(standing),
    };
    put_column(page, class, columns.words, base, joint.word)
}

/// Puts words of a class at a place after the page.
fn put_column(page: &mut Page, class: &'static str, x: usize, y: usize, words: &str) {
    page.put("<text class=\"");
    page.put(class);
    page.put_numbers(&[("\" x=\"", x), ("\" y=\"", y)]);
    page.add_in("\">", words, " </text>\n")
}

/// Puts the joints as nested lists after the page.
fn put_list(page: &mut Page, drawing: &Drawing<'_>) {
    let mut open = 0usize;
    for joint in &drawing.joints {
        let wanted = joint.depth.saturating_add(1);
        if open < wanted {
            page.put("<ul>\n");
            open = open.saturating_add(1);
        } else {
            close_lists(page, open, wanted);
            page.put("</li>\n");
            open = wanted;
        }
        page.put("<li>");
        put_entry(page, joint);
    }
    close_lists(page, open, 0)
}

/// Closes lists after the page until so many are open.
fn close_lists(page: &mut Page, open: usize, wanted: usize) {
    for _list in wanted..open {
        page.put("</li>\n</ul>\n");
    }
}

fn put_entry(page: &mut Page, joint: &Joint<'_>) {
    page.say(joint.name);
    page.add_in(" ", joint.path, ": ");
    page.say(&joint.state);
    if !joint.word.is_empty() {
        page.put("; ");
        page.say(joint.word);
    }
    if joint.is_late {
        page.put("; attached");
    }
}
