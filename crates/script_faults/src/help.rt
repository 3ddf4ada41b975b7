//! What helps with a fault: words, and what may be meant by what stands there.

use explanation_text::wording::put_joined;
use explanation_text::{Meant, TextBuilder, nearest};
use std::alloc::{AllocError, Global};

/// What helps with a fault.
pub struct Help {
    pub words: TextBuilder,
    /// What may be meant by the part that is pointed at, where that is known.
    pub meant: Option<Meant>,
}

impl Drop for Help {
    fn drop(self) {
        let Help { words: _, meant: _ } = self;
    }
}

/// What a name that may be meant is.
#[derive(Clone, Copy)]
pub(crate) enum Naming {
    /// A node's.
    Node,
    /// A key, or a name that a field takes.
    Word,
    /// One that the script gives.
    Given,
}

impl Naming {
    pub(crate) fn meant(self, name: String) -> Meant {
        match self {
            Naming::Node => Meant::Node(name),
            Naming::Word => Meant::Word(name),
            Naming::Given => Meant::Name(name),
        }
    }
}

impl Help {
    /// Words alone.
    pub fn of(words: TextBuilder) -> Help {
        Help { words, meant: None }
    }

    /// The same of one text.
    pub fn of_text(alloc: Global, text: &str) -> Help {
        Help::of(TextBuilder::of(alloc, text))
    }

    /// The name of a node, with words that say that it may be meant.
    pub fn of_node(words: TextBuilder, name: &str) -> Help {
        meaning(words, name, Naming::Node)
    }

    /// The same of a key or another name.
    pub fn of_word(words: TextBuilder, name: &str) -> Help {
        meaning(words, name, Naming::Word)
    }

    /// The same of a name that the script gives.
    pub(crate) fn of_given(words: TextBuilder, name: &str) -> Help {
        meaning(words, name, Naming::Given)
    }

    /// A key or another name that may be meant.
    pub fn near(alloc: Global, name: &str) -> Help {
        Help::of_word(did_you_mean(alloc, name), name)
    }

    /// The name of a node that may be meant.
    pub fn near_node(alloc: Global, name: &str) -> Help {
        Help::of_node(did_you_mean(alloc, name), name)
    }

    /// Words, with a name that may be meant, which is put together.
    pub(crate) fn meaning(words: TextBuilder, name: TextBuilder, naming: Naming) -> Help {
        let mut words = words;
        match name.done() {
            Ok(name) => Help {
                words,
                meant: Some(naming.meant(name)),
            },
            Err(AllocError) => {
                words.refuse();
                Help::of(words)
            }
        }
    }

    /// The words, with what may be meant, if something is known.
    pub(crate) fn with_meant(self, meant: Option<Meant>) -> Help {
        let Help { words, meant: _ } = self;
        Help { words, meant }
    }

    /// Its words alone.
    pub(crate) fn unmeant(self) -> Help {
        self.with_meant(None)
    }

    /// The words, and what may be meant.
    pub(crate) fn into_parts(self) -> (TextBuilder, Option<Meant>) {
        let Help { words, meant } = self;
        (words, meant)
    }
}

fn meaning(words: TextBuilder, name: &str, naming: Naming) -> Help {
    let name = TextBuilder::of(words.alloc(), name);
    Help::meaning(words, name, naming)
}

/// `did you mean camera?`
pub(crate) fn did_you_mean(alloc: Global, name: &str) -> TextBuilder {
    let mut words = TextBuilder::of(alloc, "did you mean ");
    words.put(name).put("?");
    words
}

/// `id is missing`
pub(crate) fn missing(alloc: Global, name: &str) -> TextBuilder {
    let mut words = TextBuilder::of(alloc, name);
    words.put(" is missing");
    words
}

/// Names after a text, the last with a word before it.
pub(crate) fn listed(alloc: Global, text: &str, names: &[&str], word: &str) -> TextBuilder {
    let mut words = TextBuilder::of(alloc, text);
    put_joined(&mut words, names, word);
    words
}

/// The known name that is near one, or else all that are known, after a text and with a word before
/// the last.
pub(crate) fn near_or_listed(
    alloc: Global,
    name: &str,
    known: &[&str],
    text: &str,
    word: &str,
) -> Result<Help, AllocError> {
    Ok(match nearest(alloc, name, known)? {
        Some(near) => Help::near(alloc, near),
        None => Help::of(listed(alloc, text, known, word)),
    })
}
