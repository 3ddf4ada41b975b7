//! What a text tells, as values.

use crate::markup::Standing;
use crate::places::Span;
use sysmem_counts::Field;

/// A value that a text says.
#[derive(Clone, Copy, PartialEq, Eq)]
pub enum Said {
    Number(u64),
    /// A width and a height.
    Sides(u64, u64),
    Flag(bool),
    /// A name, or several values: a part of the text.
    Words(Span),
}

impl Said {
    /// The same where so many bytes stand before the text.
    fn behind(self, bytes: usize) -> Said {
        match self {
            Said::Words(span) => Said::Words(Span {
                start: span.start.saturating_add(bytes),
                end: span.end.saturating_add(bytes),
            }),
            _ => self,
        }
    }
}

/// What a change does to the constraints of a participant.
#[derive(Clone, Copy, PartialEq, Eq)]
pub enum Deed {
    /// A field gets a value, in the place of what it was; `None` where it was absent.
    Set {
        field: Field,
        was: Option<Said>,
        value: Said,
    },
    /// A field that has this value is left out.
    LeaveOut(Field, Said),
    /// Two fields get each other's values.
    Exchange(Field, Field),
    /// The list of a field has an item more.
    Add(Field, Said),
    /// The list of a field has an item in the place of another.
    Replace {
        field: Field,
        was: Said,
        item: Said,
    },
    /// The list of a field lacks an item.
    Remove(Field, Said),
    /// An entry more takes a pixel format and a modifier.
    AddEntry(Said),
    /// The entry of a number, from 1, stands before the others.
    PutFirst(usize),
}

impl Deed {
    fn behind(self, bytes: usize) -> Deed {
        match self {
            Deed::Set { field, was, value } => Deed::Set {
                field,
                was: was.map(|was| was.behind(bytes)),
                value: value.behind(bytes),
            },
            Deed::LeaveOut(field, was) => Deed::LeaveOut(field, was.behind(bytes)),
            Deed::Add(field, item) => Deed::Add(field, item.behind(bytes)),
            Deed::Replace { field, was, item } => Deed::Replace {
                field,
                was: was.behind(bytes),
                item: item.behind(bytes),
            },
            Deed::Remove(field, item) => Deed::Remove(field, item.behind(bytes)),
            Deed::AddEntry(pair) => Deed::AddEntry(pair.behind(bytes)),
            Deed::Exchange(_, _) | Deed::PutFirst(_) => self,
        }
    }
}

/// What a text tells.
#[derive(Clone, Copy, PartialEq, Eq)]
pub enum Fact {
    /// A change.
    Change(Deed),
    /// The lines that a change alters in the constraints of a call, by its number from 1, are told.
    Lined(usize),
    /// How much or how great what its label names is.
    Value(Said),
    /// A field is stated in a line; by which entry, from 1, if not by the first.
    Stated(Field, usize, Option<usize>),
    /// It is the title of a domain's section, and how that stands.
    Domain(Standing),
    /// It is the title of another section, and how what it tells stands.
    Section(Standing),
    /// It has no label, and heads what stands below it.
    Heads,
}

impl Fact {
    /// The same where so many bytes stand before the text.
    pub(crate) fn behind(self, bytes: usize) -> Fact {
        match self {
            Fact::Change(deed) => Fact::Change(deed.behind(bytes)),
            Fact::Value(said) => Fact::Value(said.behind(bytes)),
            Fact::Lined(_) | Fact::Stated(_, _, _) | Fact::Heads => self,
            Fact::Domain(_) | Fact::Section(_) => self,
        }
    }
}
