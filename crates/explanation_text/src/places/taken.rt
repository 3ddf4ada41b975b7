//! What the bytes of a JSON text do, one after the other.

ghost use Rattle.std.specs.Prelude.{◌≡◌};
ghost use Rattle.explanation_text.specs.declared.places.taken.Halt.TheVariants.{NoMemory};

use std::alloc::{AllocError, AllocFailed};

/// What the grammar allows where a text stops being JSON.
#[derive(Clone, Copy)]
pub enum Expected {
    /// A value.
    Value,
    /// A key, in quotes.
    Key,
    /// The colon after a key.
    Colon,
    /// A comma, or the end of the object.
    CommaOrBrace,
    /// A comma, or the end of the list.
    CommaOrBracket,
    /// Nothing more: one value is complete.
    End,
    /// A digit of a number.
    Digit,
    /// No digit, after a first 0.
    NoDigit,
    /// Four hexadecimal digits of an escape.
    Hex,
    /// What may stand after a backslash.
    Escape,
    /// A further character of a string, or its end.
    Text,
    /// Two escapes for the halves of one character.
    Pair,
    /// The rest of `null`.
    Null,
    /// The rest of `true`.
    True,
    /// The rest of `false`.
    False,
    /// A list or an object that is nested less deeply.
    Shallow,
    /// A number that isn't too great.
    Smaller,
}

impl Expected {
    /// In words, after "expected".
    pub fn words(self) -> &'static str {
        match self {
            Expected::Value => "a value",
            Expected::Key => "a key",
            Expected::Colon => ": after the key",
            Expected::CommaOrBrace => ", or }",
            Expected::CommaOrBracket => ", or ]",
            Expected::End => "the end",
            Expected::Digit => "a digit",
            Expected::NoDigit => "no digit after a leading 0",
            Expected::Hex => "four hexadecimal digits",
            Expected::Escape => "one of \" \\ / b f n r t u after \\",
            Expected::Text => "\" or a further character of the string",
            Expected::Pair => "a string whose surrogates come in pairs",
            Expected::Null => "null",
            Expected::True => "true",
            Expected::False => "false",
            Expected::Shallow => "no more than 127 lists and objects within each other",
            Expected::Smaller => "a number of at most about 1.8e308",
        }
    }
}

/// Why no further byte is taken.
#[derive(Clone, Copy)]
pub(crate) enum Halt {
    /// A growth was refused.
    NoMemory,
    /// The byte can't stand here.
    Wrong(Expected),
}

impl From<AllocError> for Halt {
    ghost from_gives = { λ _ halt. halt ≡ NoMemory };

    fn from(_e: AllocError) -> Halt {
        Halt::NoMemory
    }
}

impl<T: Drop> From<AllocFailed<T>> for Halt {
    ghost from_gives = { λ _ halt. halt ≡ NoMemory };

    fn from(_e: AllocFailed<T>) -> Halt {
        Halt::NoMemory
    }
}

/// What ends with a byte.
#[derive(Clone, Copy)]
pub(crate) enum Mark {
    Nothing,
    /// A value.
    Ends,
    /// A key.
    KeyEnds,
}
