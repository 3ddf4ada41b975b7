//! What may be meant by a part of a text.

use crate::places::Span;
use crate::words::TextBuilder;
use sysmem_counts::Field;

/// What may be meant by what stands somewhere.
#[derive(Drop)]
pub enum Meant {
    /// The name of a node.
    Node(String),
    /// A key, or a name that a field takes.
    Word(String),
    /// A name that the script gives: an actor's, or that of a new node.
    Name(String),
    /// A number.
    Number(u64),
    /// A number that is the value of a field, or a side of it.
    Value(Field, u64),
    /// The value of a field that is true or false.
    Flag(Field, bool),
    /// A list of what stands there.
    List,
    /// The same in double quotes.
    Quotes,
    /// This text of JSON, in the place of what stands there, if something does.
    Written(String),
    /// The same of one mark: a comma, a colon, a quote or a bracket.
    Mark(char),
    /// The member stands in other objects.
    Moved(Moved),
    /// The call of a number stands right after another, of this number, which ends there.
    Later {
        call: usize,
        after: usize,
        end: usize,
    },
    /// Nothing: a member or an item stands there that may be left out, with a comma beside it.
    Nothing,
    /// The same of the call of this number.
    NoCall(usize),
    /// Nothing: just what stands there may be left out.
    Blank,
}

/// An object of a call's constraints.
#[derive(Clone, Copy, PartialEq, Eq)]
pub enum Owner {
    /// The constraints themselves.
    Constraints,
    /// Those of the memory.
    Memory,
    /// One of those of image formats.
    Entry,
}

impl Owner {
    /// Puts the object after a text.
    pub fn put(self, text: &mut TextBuilder) {
        match self {
            Owner::Constraints => text.put("the constraints themselves"),
            Owner::Memory => text.field(Field::BufferMemoryConstraints),
            Owner::Entry => text
                .put("an entry of ")
                .field(Field::ImageFormatConstraints),
        };
    }

    /// The key of the object, or of the list of such.
    pub fn key(self) -> &'static str {
        match self {
            Owner::Constraints => "constraints",
            Owner::Memory => Field::BufferMemoryConstraints.name(),
            Owner::Entry => Field::ImageFormatConstraints.name(),
        }
    }
}

/// Where a member belongs.
#[derive(Drop)]
pub struct Moved {
    pub into: Owner,
    /// The field that is meant by its key, where that is another.
    pub renamed: Option<Renamed>,
    /// Whether the object isn't there yet: it comes with the member.
    pub is_new: bool,
    /// Behind which brackets it comes first: the byte after each.
    pub places: Vec<usize>,
}

/// A field that is meant by the key of a member.
#[derive(Clone, Copy)]
pub struct Renamed {
    pub field: Field,
    /// Where the member's value stands.
    pub value: Span,
}

/// A part of a text, and what may be meant by it.
#[derive(Drop)]
pub struct Correction {
    pub span: Span,
    pub meant: Meant,
}
