//! Rows of what fails for the same reasons.

use explanation_text::wording::put_few;
use explanation_text::{Items, Label, ListBuilder, Text, TextBuilder};
use std::alloc::AllocError;
use value_sources::{NamedParticipant, put_has};

/// How many rows of one kind are told; one more is shown rather than counted.
const MOST_ROWS: usize = 6;

/// How many names of a row, and how many reasons in one line, are told; one more is shown rather
/// than counted.
const MOST_OF_ROW: usize = 3;

/// Of how many rows with the same first reason is told what else is said against them.
const MOST_ALSO: usize = 2;

/// What fails for the same reasons.
pub(crate) struct FailureRow {
    /// The names of what fails.
    pub(crate) names: Vec<Text>,
    /// Each reason in words.
    pub(crate) reasons: Vec<Text>,
    /// How far these are from not failing: the less the nearer.
    pub(crate) distance: usize,
    /// How many fail; a name may stand for several.
    pub(crate) count: usize,
}

impl Drop for FailureRow {
    fn drop(self) {
        let FailureRow {
            names: _,
            reasons: _,
            distance: _,
            count: _,
        } = self;
    }
}

/// Puts what fails into the row of those with its reasons.
pub(crate) fn add(
    rows: &mut Vec<FailureRow>,
    name: Text,
    reasons: Vec<Text>,
    distance: usize,
    count: usize,
) -> Result<(), AllocError> {
    let alloc = name.alloc();
    for row in rows.iter_mut() {
        if row.reasons == reasons {
            row.names.push(name)?;
            row.count = row.count.saturating_add(count);
            return Ok(());
        }
    }
    rows.push(FailureRow {
        names: vec![in alloc; name]?,
        reasons,
        distance,
        count,
    })?;
    Ok(())
}

/// How many of so many are told, if these are the most; one more is shown rather than counted.
pub(crate) fn told_of(count: usize, most: usize) -> usize {
    if count <= most.saturating_add(1) {
        count
    } else {
        most
    }
}

/// How many of the rows aren't farther than a distance.
fn near(rows: &[FailureRow], far: usize) -> usize {
    let mut count = 0usize;
    for row in rows {
        if row.distance <= far {
            count = count.saturating_add(1);
        }
    }
    count
}

/// Tells the rows, the nearest first and else in their order; more than some are counted, with what
/// is said of them, and so are those that are farther than a distance.
pub(crate) fn add_rows(
    items: &mut Items,
    depth: usize,
    rows: &[FailureRow],
    far: usize,
    what: &str,
) {
    let most = told_of(told_of(rows.len(), near(rows, far)), MOST_ROWS);
    let mut told = 0usize;
    let mut others = 0usize;
    for distance in 0..farthest(rows).saturating_add(1) {
        for row in rows {
            if row.distance != distance {
                continue;
            }
            if told < most {
                add_row(items, depth, &row.names, &row.reasons);
                told = told.saturating_add(1);
            } else {
                others = others.saturating_add(row.count);
            }
        }
    }
    add_others(items, depth, "the other ", others, what)
}

/// Tells how many others there are, if there are some, with what is said of them.
fn add_others(items: &mut Items, depth: usize, start: &str, others: usize, what: &str) {
    if others == 0 {
        return;
    }
    let mut words = TextBuilder::of(items.alloc(), start);
    words.put_number(others).put(what);
    items.say(depth, Label::Plain, words)
}

/// How the places or offers are told that weren't chosen.
#[derive(Clone, Copy)]
pub(crate) struct Unchosen {
    /// What stands after the names of those in a line.
    end: &'static str,
    /// How many lines they have; one more is shown rather than counted.
    most: usize,
    /// What stands before the number of the others.
    start: &'static str,
    /// What these are.
    what: &'static str,
}

impl Unchosen {
    /// Those that could have been chosen first.
    pub(crate) fn of(what: &'static str) -> Unchosen {
        Unchosen {
            end: "",
            most: MOST_ROWS,
            start: "not the other ",
            what,
        }
    }

    /// Those that stand after what was chosen.
    pub(crate) fn after(what: &'static str) -> Unchosen {
        Unchosen {
            end: ", after it",
            most: MOST_OF_ROW,
            start: "not ",
            what,
        }
    }

    /// Tells rows in their order, those with the same first reason in one line, with all that is
    /// said against each; and how many the others are.
    pub(crate) fn add(self, items: &mut Items, rows: &[FailureRow]) {
        let most = told_of(lines_of(rows), self.most);
        let mut told = 0usize;
        let mut others = 0usize;
        for (k, row) in rows.iter().enumerate() {
            if !is_first(rows, k, row) {
                continue;
            }
            if told < most {
                self.add_line(items, rows, row);
                told = told.saturating_add(1);
            } else {
                others = others.saturating_add(alike(rows, row));
            }
        }
        add_others(items, 2, self.start, others, self.what)
    }

    /// Tells in one line what fails for the first reason of a row.
    fn add_line(self, items: &mut Items, rows: &[FailureRow], first: &FailureRow) {
        let mut names = ListBuilder::new(items.alloc());
        for row in rows {
            if are_alike(row, first) {
                add_names(&mut names, &row.names);
            }
        }
        match names.done() {
            Ok(names) => {
                let mut text = TextBuilder::of(items.alloc(), "not ");
                put_few(&mut text, &names, MOST_OF_ROW);
                text.put(self.end);
                put_all(&mut text, rows, first);
                items.say(2, Label::Plain, text)
            }
            Err(AllocError) => items.refuse(),
        }
    }
}

/// How many lines rows have: one for each first reason.
fn lines_of(rows: &[FailureRow]) -> usize {
    let mut count = 0usize;
    for (k, row) in rows.iter().enumerate() {
        if is_first(rows, k, row) {
            count = count.saturating_add(1);
        }
    }
    count
}

/// Whether a row, which has this index, is the first with its first reason.
fn is_first(rows: &[FailureRow], index: usize, row: &FailureRow) -> bool {
    for (k, other) in rows.iter().enumerate() {
        if are_alike(other, row) {
            return k == index;
        }
    }
    true
}

/// How many fail for the first reason of a row.
fn alike(rows: &[FailureRow], first: &FailureRow) -> usize {
    let mut count = 0usize;
    for row in rows {
        if are_alike(row, first) {
            count = count.saturating_add(row.count);
        }
    }
    count
}

/// Whether two rows have the same first reason.
fn are_alike(a: &FailureRow, b: &FailureRow) -> bool {
    0 < shared(&a.reasons, &b.reasons)
}

fn add_names(names: &mut ListBuilder<Text>, more: &[Text]) {
    let alloc = names.alloc();
    for name in more {
        names.add_text(TextBuilder::of_text(alloc, name));
    }
}

/// Puts what is said against all rows with the first reason of one after their names, and then what
/// else is said against some.
fn put_all(text: &mut TextBuilder, rows: &[FailureRow], first: &FailureRow) {
    let mut common = first.reasons.len();
    for row in rows {
        if are_alike(row, first) {
            common = common.min(shared(&row.reasons, &first.reasons));
        }
    }
    text.put(": ");
    put_reasons(text, first.reasons.get(..common).unwrap_or(&[]));
    put_also(text, rows, first, common)
}

/// Puts what is said against rows with the first reason of one beside so many reasons after a text:
/// of more than two such rows only that there is more.
fn put_also(text: &mut TextBuilder, rows: &[FailureRow], first: &FailureRow, common: usize) {
    let has_more = |row: &&FailureRow| are_alike(row, first) && row.reasons.len() > common;
    if rows.iter().filter(has_more).count() > MOST_ALSO {
        text.put("; and for other reasons, not the same for each");
        return;
    }
    for row in rows {
        if has_more(&row) {
            put_more(text, row, common);
        }
    }
}

/// Puts how many others there are after a text, if there are some.
fn put_others(text: &mut TextBuilder, others: usize) {
    if others > 0 {
        text.put("; and ").put_number(others).put(" others");
    }
}

/// How many of the first texts of two lists are the same.
pub(crate) fn shared(texts: &[Text], others: &[Text]) -> usize {
    for (k, (text, other)) in texts.iter().zip(others.iter()).enumerate() {
        if *text != *other {
            return k;
        }
    }
    texts.len().min(others.len())
}

/// Puts what is said against a row beside so many reasons after a text, with its names.
fn put_more(text: &mut TextBuilder, row: &FailureRow, common: usize) {
    text.put("; ");
    put_few(text, &row.names, MOST_OF_ROW);
    text.put(" also: ");
    put_reasons(text, row.reasons.get(common..).unwrap_or(&[]))
}

/// Puts reasons after a text; of more than some how many the others are.
pub(crate) fn put_reasons(text: &mut TextBuilder, reasons: &[Text]) {
    let most = told_of(reasons.len(), MOST_OF_ROW);
    for (k, reason) in reasons.iter().enumerate() {
        if k < most {
            text.put(if k == 0 { "" } else { "; " }).put_text(reason);
        }
    }
    put_others(text, reasons.len().saturating_sub(most))
}

/// The distance of the nearest row.
pub(crate) fn nearest(rows: &[FailureRow]) -> usize {
    let mut least = usize::MAX;
    for row in rows {
        least = least.min(row.distance);
    }
    least
}

fn farthest(rows: &[FailureRow]) -> usize {
    let mut most = 0usize;
    for row in rows {
        most = most.max(row.distance);
    }
    most
}

/// Tells names with their reason where they have one alone, else with each below them.
fn add_row(items: &mut Items, depth: usize, names: &[Text], reasons: &[Text]) {
    let mut head = TextBuilder::new(items.alloc());
    put_few(&mut head, names, MOST_OF_ROW);
    match reasons {
        [] => items.say(depth, Label::Plain, head),
        [reason] => {
            head.put(": ").put_text(reason);
            items.say(depth, Label::Plain, head)
        }
        _ => {
            head.head();
            items.say(depth, Label::Plain, head);
            add_reasons(items, depth.saturating_add(1), reasons)
        }
    }
}

fn add_reasons(items: &mut Items, depth: usize, reasons: &[Text]) {
    for reason in reasons {
        let words = TextBuilder::of_text(items.alloc(), reason);
        items.say(depth, Label::Plain, words);
    }
}

/// What stands between a text and a further sentence.
pub(crate) fn mark_after(text: &str) -> &'static str {
    if text.is_empty() { "" } else { "; " }
}

/// Puts a sentence on participants after a text, if they are some.
pub(crate) fn put_those(
    text: &mut TextBuilder,
    participants: &[NamedParticipant<'_>],
    one: &str,
    many: &str,
) {
    if participants.is_empty() {
        return;
    }
    let mark = mark_after(text.as_str());
    text.put(mark);
    put_has(text, participants, one, many)
}
