//! Scripts that aren't explained, since to read them takes much memory.

use explanation_text::{Items, Kind, Label, TextBuilder};

/// How many bytes of memory the value of a script may take that is explained, as reckoned from its
/// text. A part that has a fault is read once more.
const MOST: usize = 120_000_000;
/// How many lists and objects may stand in each other; what is nested deeper isn't read.
const DEEPEST: usize = 127;

/// What is reckoned of a value, as far as its text was gone through.
#[derive(Clone, Copy)]
struct Reckoned {
    size: usize,
    /// How many lists and objects are open.
    depth: usize,
    is_string: bool,
    /// Whether the next character of a string stands behind a backslash.
    is_escaped: bool,
}

impl Reckoned {
    fn take(&mut self, character: u8) {
        if self.is_string {
            return self.take_in_string(character);
        }
        match character {
            b'"' => self.is_string = true,
            b'[' | b'{' => self.depth = self.depth.saturating_add(1),
            b']' | b'}' => self.depth = self.depth.saturating_sub(1),
            _ => {}
        }
        self.size = self.size.saturating_add(size_by(character));
    }

    fn take_in_string(&mut self, character: u8) {
        if self.is_escaped {
            self.is_escaped = false;
            return;
        }
        match character {
            b'\\' => self.is_escaped = true,
            b'"' => self.is_string = false,
            _ => {}
        }
    }
}

/// Whether the value of a text is reckoned to take more memory than that of a script that is
/// explained.
pub(crate) fn is_too_great(bytes: &[u8]) -> bool {
    let mut reckoned = Reckoned {
        size: bytes.len(),
        depth: 0,
        is_string: false,
        is_escaped: false,
    };
    for character in bytes {
        reckoned.take(*character);
        if reckoned.depth > DEEPEST {
            break;
        }
    }
    reckoned.size > MOST
}

/// How many bytes of memory a value takes by a character that spells it, at most. A list has room
/// for four values, an object for eleven members, of which it keeps six or more where it has more
/// than eleven.
fn size_by(character: u8) -> usize {
    match character {
        b'[' => 144,
        b'{' => 720,
        b':' => 150,
        b',' => 40,
        _ => 0,
    }
}

/// Tells that the script isn't explained.
pub(crate) fn add_too_great(items: &mut Items) {
    let mut words = TextBuilder::of(
        items.alloc(),
        "not explained: to read the script takes more than ",
    );
    words.put_number(MOST).put(" bytes of memory");
    items.push(Kind::Answer, 0, Label::Plain, words);
}
