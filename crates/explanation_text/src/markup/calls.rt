//! The calls as a table with a column for each actor, and what proves the decisions.

use crate::markup::drawing::{Drawing, Line, class_of};
use crate::markup::page::Page;

/// Puts the calls after the page, a row for each, and a row across for each decision where it came.
pub(crate) fn put_calls(page: &mut Page, drawing: &Drawing<'_>) {
    page.put(
        "<h2>Calls</h2>\n<div class=\"scroll\"><table>\n<thead><tr><th scope=\"col\">call</th>",
    );
    for actor in &drawing.actors {
        page.add_in("<th scope=\"col\">", actor, "</th>");
    }
    page.put("</tr></thead>\n<tbody>\n");
    let columns = drawing.actors.len();
    for line in &drawing.lines {
        match line.number {
            Some(number) => put_call(page, line, number, columns),
            None => put_decision(page, line, columns),
        }
    }
    page.put("</tbody></table></div>\n")
}

fn put_call(page: &mut Page, line: &Line, number: usize, columns: usize) {
    page.put("<tr class=\"");
    page.put(class_of(line.standing));
    page.put("\"><td class=\"n\">");
    page.put_number(number);
    page.put("</td>");
    for column in 0..columns {
        page.put("<td>");
        if column == line.actor {
            page.say(&line.words);
        }
        page.put("</td>");
    }
    page.put("</tr>\n")
}

fn put_decision(page: &mut Page, line: &Line, columns: usize) {
    page.put("<tr class=\"event ");
    page.put(class_of(line.standing));
    page.put("\"><td class=\"n\">&#9656;</td><td colspan=\"");
    page.put_number(columns.max(1));
    page.add_in("\">", &line.words, "</td></tr>\n")
}

/// Puts what proves each decision after the page, and the commands that write and test it.
pub(crate) fn put_proofs(page: &mut Page, drawing: &Drawing<'_>) {
    page.put("<h2>Certificate</h2>\n");
    if drawing.proofs.is_empty() {
        page.put("<p>Nothing was decided, so it is empty.</p>\n");
        return;
    }
    page.put("<ul>\n");
    for proof in &drawing.proofs {
        page.add_in("<li>", proof, "</li>\n");
    }
    page.put(
        "</ul>\n<p class=\"soft\"><code>sysmem_replay run FILE --proof OUT</code> writes it, and ",
    );
    page.put("<code>sysmem_replay check FILE OUT</code> tests it without the search.</p>\n");
}
