//! The items as sections of the page: lists of terms where they have labels, else plain lists.

use crate::facts::Fact;
use crate::items::{Item, Kind};
use crate::label::Label;
use crate::markup::Standing;
use crate::markup::page::Page;
use std::alloc::Global;

/// A kind of list.
#[derive(Clone, Copy, PartialEq, Eq)]
enum List {
    /// Of labels with what is told of them.
    Terms,
    Numbered,
    Plain,
}

/// A list that isn't closed yet, with an entry that isn't.
#[derive(Clone, Copy)]
struct Open {
    depth: usize,
    list: List,
    label: Label,
}

/// The sections of a page, so far.
#[derive(Drop)]
struct Sections<'b> {
    page: &'b mut Page,
    open: Vec<Open>,
    is_in_article: bool,
    is_in_decisions: bool,
}

/// Puts the items after the page, but for the answer.
pub(crate) fn put_items(page: &mut Page, alloc: Global, items: &[Item]) {
    let mut sections = Sections {
        page,
        open: Vec::new(alloc),
        is_in_article: false,
        is_in_decisions: false,
    };
    for item in items {
        sections.put_item(item);
    }
    sections.close_article()
}

impl Sections<'_> {
    fn put_item(&mut self, item: &Item) {
        match item.kind {
            Kind::Answer => {}
            Kind::Title => self.put_title(item),
            Kind::Source => self.put_source(item),
            Kind::Decision if item.label == Label::Promised => self.put_promise(item),
            Kind::Words | Kind::Decision => self.put_entry(item),
        }
    }

    /// A new article: of a domain below the heading of all decisions, else below its own.
    fn put_title(&mut self, item: &Item) {
        let title = item.text.as_str();
        self.close_article();
        let is_domain = is_of_domain(item);
        if is_domain && !self.is_in_decisions {
            self.page.put("<h2>Decisions</h2>\n");
            self.is_in_decisions = true;
        }
        if !is_domain {
            self.page.add_in("<h2>", title, "</h2>\n");
        }
        self.page.put(article_of(item));
        self.is_in_article = true;
        if is_domain {
            self.page.add_in("<h3>", title, "</h3>\n");
        }
    }

    /// An article without a title, where none is open.
    fn want_article(&mut self) {
        if self.is_in_article {
            return;
        }
        self.is_in_article = true;
        self.page.put("<h2>Where</h2>\n<article class=\"bad\">\n")
    }

    fn close_article(&mut self) {
        self.close_lists(0);
        if self.is_in_article {
            self.page.put("</article>\n");
        }
        self.is_in_article = false;
    }

    /// Closes the lists at this depth and below.
    fn close_lists(&mut self, depth: usize) {
        for _list in 0..self.open.len() {
            let Some(last) = self.open.last().copied() else {
                break;
            };
            if last.depth < depth {
                break;
            }
            self.page.put(match last.list {
                List::Terms => "</dd>\n</dl>\n",
                List::Numbered => "</li>\n</ol>\n",
                List::Plain => "</li>\n</ul>\n",
            });
            let _closed = self.open.pop();
        }
    }

    fn keep(&mut self, open: Open) {
        if self.open.push(open).is_err() {
            self.page.cut();
        }
    }

    fn put_source(&mut self, item: &Item) {
        self.want_article();
        self.close_lists(item.depth);
        self.page.put("<pre>");
        self.page.add_lines(&item.text);
        self.page.put("</pre>\n")
    }

    /// A decision that a change gives.
    fn put_promise(&mut self, item: &Item) {
        self.want_article();
        self.close_lists(item.depth);
        self.page
            .add_in("<br>&rarr; <code>", &item.text, "</code>\n")
    }

    /// An entry of a list, which is open or a new one. What has no label is told of the term before
    /// it, unless it heads what stands below.
    fn put_entry(&mut self, item: &Item) {
        self.want_article();
        let list = list_of(item.label);
        self.close_lists(item.depth.saturating_add(1));
        match self.open.last().copied() {
            Some(last) if last.depth == item.depth && last.list == list => {
                self.begin_next(last, item.label);
            }
            Some(last) if last.depth == item.depth && joins(last.list, item) => {
                self.page.put("</dd>\n<dd>");
            }
            _ => self.begin_list(item, list),
        }
        if item.kind != Kind::Decision {
            return self.page.say(&item.text);
        }
        self.page.add_in("<code>", &item.text, "</code>")
    }

    /// Closes an entry, and begins the next of its list.
    fn begin_next(&mut self, last: Open, label: Label) {
        if last.list != List::Terms {
            return self.page.put("</li>\n<li>");
        }
        self.page.put("</dd>\n");
        let _before = self.open.pop();
        self.keep(Open { label, ..last });
        if last.label != label {
            self.put_term(label);
        }
        self.page.put("<dd>")
    }

    /// Begins a list, with its first entry.
    fn begin_list(&mut self, item: &Item, list: List) {
        self.close_lists(item.depth);
        self.keep(Open {
            depth: item.depth,
            list,
            label: item.label,
        });
        match list {
            List::Terms => {
                self.page.put("<dl>\n");
                self.put_term(item.label);
                self.page.put("<dd>")
            }
            List::Numbered => self.page.put("<ol>\n<li>"),
            List::Plain => self.page.put("<ul>\n<li>"),
        }
    }

    fn put_term(&mut self, label: Label) {
        self.page.add_in("<dt>", label.word(), "</dt>\n")
    }
}

/// Whether an item is told of the term before it.
fn joins(list: List, item: &Item) -> bool {
    list == List::Terms && item.label == Label::Plain && !item.facts.contains(&Fact::Heads)
}

/// The kind of list in which an item with this label stands.
fn list_of(label: Label) -> List {
    match label {
        Label::Plain => List::Plain,
        Label::Alone(_) => List::Numbered,
        _ => List::Terms,
    }
}

/// Whether a title is of a domain's section.
fn is_of_domain(title: &Item) -> bool {
    title
        .facts
        .iter()
        .any(|fact| matches!(fact, Fact::Domain(_)))
}

/// How what stands below a title stands with a decision.
fn standing_of(title: &Item) -> Standing {
    for fact in &title.facts {
        if let Fact::Domain(standing) | Fact::Section(standing) = fact {
            return *standing;
        }
    }
    Standing::Plain
}

/// The opening of an article, by its title.
fn article_of(title: &Item) -> &'static str {
    match standing_of(title) {
        Standing::Chosen => "<article class=\"chosen\">\n",
        Standing::Open => "<article class=\"open\">\n",
        Standing::Plain | Standing::Bad => "<article class=\"bad\">\n",
    }
}
