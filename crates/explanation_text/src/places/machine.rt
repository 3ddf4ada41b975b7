//! Reads a JSON text a byte at a time, and keeps what is open.

use crate::places::keys::Span;
use crate::places::taken::{Expected, Halt, Mark};
use std::alloc::Global;

/// How many lists and objects may be open at once.
const MOST_OPEN: usize = 127;

/// What the next byte belongs to.
#[derive(Clone, Copy)]
enum State {
    /// A value is due.
    Value,
    /// The same in a list that may end here.
    FirstItem,
    /// A key is due, or the end of the object.
    FirstKey,
    /// A key is due.
    Key,
    Colon,
    /// A value or a list or object is complete.
    After,
    Text,
    Escape,
    /// An escape of which so many hexadecimal digits are left.
    Hex(u8),
    /// The second half of a pair is due: its backslash, then its `u`.
    SecondSlash,
    SecondU,
    Minus,
    Zero,
    Digits,
    Point,
    Fraction,
    Exponent,
    ExponentSign,
    ExponentDigits,
    /// A word of which so many letters are there.
    Word(Word, u8),
}

#[derive(Clone, Copy)]
enum Word {
    Null,
    True,
    False,
}

impl Word {
    fn letters(self) -> &'static [u8] {
        match self {
            Word::Null => b"null",
            Word::True => b"true",
            Word::False => b"false",
        }
    }

    fn expected(self) -> Expected {
        match self {
            Word::Null => Expected::Null,
            Word::True => Expected::True,
            Word::False => Expected::False,
        }
    }
}

/// A list or an object that is not complete.
#[derive(Clone, Copy)]
pub(crate) struct Open {
    /// Where its bracket stands.
    pub(crate) start: usize,
    pub(crate) is_list: bool,
    /// Where the latest key stands.
    pub(crate) key: Span,
}

/// How far a text is read.
#[derive(Drop)]
pub(crate) struct Machine {
    state: State,
    open: Vec<Open>,
    /// Whether the string that is read is a key.
    in_key: bool,
    /// What the digits of the escape spell so far.
    code: u32,
    /// Whether the first half of a pair was read, so that the second is due.
    has_first: bool,
    /// Where the last string or number begins.
    begin: usize,
    /// Where the last value that is complete ends.
    last_end: usize,
}

pub(crate) fn is_space(byte: u8) -> bool {
    byte == b' ' || byte == b'\t' || byte == b'\n' || byte == b'\r'
}

fn hex_of(byte: u8) -> Option<u32> {
    char::from(byte).to_digit(16)
}

impl Machine {
    pub(crate) fn new(alloc: Global) -> Machine {
        Machine {
            state: State::Value,
            open: Vec::new(alloc),
            in_key: false,
            code: 0,
            has_first: false,
            begin: 0,
            last_end: 0,
        }
    }

    /// The lists and objects that are open, the outermost first.
    pub(crate) fn open(&self) -> &[Open] {
        &self.open
    }

    /// Where the last string or number begins.
    pub(crate) fn begin(&self) -> usize {
        self.begin
    }

    /// Where the last value that is complete ends.
    pub(crate) fn last_end(&self) -> usize {
        self.last_end
    }

    /// Whether the byte is due within a string.
    pub(crate) fn is_in_text(&self) -> bool {
        matches!(
            self.state,
            State::Text | State::Escape | State::Hex(_) | State::SecondSlash | State::SecondU
        )
    }

    /// Whether a number ends before this byte, which then is complete.
    pub(crate) fn end_number(&mut self, at: usize, byte: u8) -> bool {
        let ends = self.ends_number(byte);
        if ends {
            self.complete(at);
        }
        ends
    }

    /// Takes the byte at this place, where no number ends before it.
    pub(crate) fn take(&mut self, at: usize, byte: u8) -> Result<Mark, Halt> {
        match self.state {
            State::FirstItem if byte == b']' => self.close(at),
            State::FirstKey if byte == b'}' => self.close(at),
            State::Value | State::FirstItem => self.value(at, byte),
            State::FirstKey | State::Key => self.key(at, byte),
            State::Colon => self.colon(byte),
            State::After => self.after(at, byte),
            State::Text | State::Escape | State::Hex(_) | State::SecondSlash | State::SecondU => {
                self.text(at, byte)
            }
            State::Word(word, done) => self.word(at, byte, word, done),
            _ => self.number(byte),
        }
    }

    /// At the end of the text: whether a number ended with it, or what is due.
    pub(crate) fn finish(&mut self, at: usize) -> Result<bool, Expected> {
        let number_ended = self.end_number(at, b' ');
        if matches!(self.state, State::After) && self.open.is_empty() {
            return Ok(number_ended);
        }
        Err(self.due())
    }

    /// Whether this byte ends a number that may end.
    fn ends_number(&self, byte: u8) -> bool {
        let goes_on = byte.is_ascii_digit();
        match self.state {
            State::Zero | State::Digits => {
                !goes_on && byte != b'.' && byte != b'e' && byte != b'E'
            }
            State::Fraction => !goes_on && byte != b'e' && byte != b'E',
            State::ExponentDigits => !goes_on,
            _ => false,
        }
    }

    /// A value is complete, and ends before this place.
    fn complete(&mut self, at: usize) {
        self.state = State::After;
        self.last_end = at;
    }

    /// What is due.
    fn due(&self) -> Expected {
        match self.state {
            State::Value | State::FirstItem => Expected::Value,
            State::FirstKey | State::Key => Expected::Key,
            State::Colon => Expected::Colon,
            State::After => self.due_after(),
            State::Text => Expected::Text,
            State::Escape => Expected::Escape,
            State::Hex(_) => Expected::Hex,
            State::SecondSlash | State::SecondU => Expected::Pair,
            State::Zero => Expected::NoDigit,
            State::Word(word, _) => word.expected(),
            _ => Expected::Digit,
        }
    }

    /// What is due after a value.
    fn due_after(&self) -> Expected {
        match self.open.last() {
            None => Expected::End,
            Some(open) => if open.is_list {
                Expected::CommaOrBracket
            } else {
                Expected::CommaOrBrace
            },
        }
    }

    fn go(&mut self, state: State, mark: Mark) -> Result<Mark, Halt> {
        self.state = state;
        Ok(mark)
    }

    fn wrong(&self) -> Result<Mark, Halt> {
        Err(Halt::Wrong(self.due()))
    }

    /// A byte where a value is due.
    fn value(&mut self, at: usize, byte: u8) -> Result<Mark, Halt> {
        if is_space(byte) {
            return Ok(Mark::Nothing);
        }
        if byte == b'{' || byte == b'[' {
            return self.open_at(at, byte == b'[');
        }
        self.begin = at;
        self.in_key = false;
        let next = match byte {
            b'"' => State::Text,
            b'-' => State::Minus,
            b'0' => State::Zero,
            b'1'..=b'9' => State::Digits,
            b'n' => State::Word(Word::Null, 1),
            b't' => State::Word(Word::True, 1),
            b'f' => State::Word(Word::False, 1),
            _ => return Err(Halt::Wrong(Expected::Value)),
        };
        self.go(next, Mark::Nothing)
    }

    fn open_at(&mut self, at: usize, is_list: bool) -> Result<Mark, Halt> {
        if self.open.len() >= MOST_OPEN {
            return Err(Halt::Wrong(Expected::Shallow));
        }
        self.open.push(Open {
            start: at,
            is_list,
            key: Span { start: 0, end: 0 },
        })?;
        let next = if is_list {
            State::FirstItem
        } else {
            State::FirstKey
        };
        self.go(next, Mark::Nothing)
    }

    /// The bracket that ends what was opened last.
    fn close(&mut self, at: usize) -> Result<Mark, Halt> {
        let _closed = self.open.pop();
        self.complete(at.saturating_add(1));
        Ok(Mark::Ends)
    }

    /// A byte where a key is due.
    fn key(&mut self, at: usize, byte: u8) -> Result<Mark, Halt> {
        if is_space(byte) {
            return Ok(Mark::Nothing);
        }
        if byte != b'"' {
            return Err(Halt::Wrong(Expected::Key));
        }
        self.in_key = true;
        self.begin = at;
        self.go(State::Text, Mark::Nothing)
    }

    fn colon(&mut self, byte: u8) -> Result<Mark, Halt> {
        if is_space(byte) {
            return Ok(Mark::Nothing);
        }
        if byte == b':' {
            return self.go(State::Value, Mark::Nothing);
        }
        self.wrong()
    }

    /// A byte after a complete value.
    fn after(&mut self, at: usize, byte: u8) -> Result<Mark, Halt> {
        if is_space(byte) {
            return Ok(Mark::Nothing);
        }
        let Some(open) = self.open.last() else {
            return self.wrong();
        };
        let is_list = open.is_list;
        match byte {
            b',' if is_list => self.go(State::Value, Mark::Nothing),
            b',' => self.go(State::Key, Mark::Nothing),
            b']' if is_list => self.close(at),
            b'}' if !is_list => self.close(at),
            _ => self.wrong(),
        }
    }

    /// A byte within a string.
    fn text(&mut self, at: usize, byte: u8) -> Result<Mark, Halt> {
        match self.state {
            State::Escape => self.escape(byte),
            State::Hex(left) => self.hex(byte, left),
            State::SecondSlash if byte == b'\\' => self.go(State::SecondU, Mark::Nothing),
            State::SecondU if byte == b'u' => self.go(State::Hex(4), Mark::Nothing),
            State::SecondSlash | State::SecondU => self.wrong(),
            _ => self.letter(at, byte),
        }
    }

    fn letter(&mut self, at: usize, byte: u8) -> Result<Mark, Halt> {
        match byte {
            b'"' => self.end_text(at),
            b'\\' => self.go(State::Escape, Mark::Nothing),
            0..=31 => self.wrong(),
            _ => Ok(Mark::Nothing),
        }
    }

    fn end_text(&mut self, at: usize) -> Result<Mark, Halt> {
        let end = at.saturating_add(1);
        if !self.in_key {
            self.complete(end);
            return Ok(Mark::Ends);
        }
        let start = self.begin;
        if let Some(open) = self.open.last_mut() {
            open.key = Span { start, end };
        }
        self.go(State::Colon, Mark::KeyEnds)
    }

    fn escape(&mut self, byte: u8) -> Result<Mark, Halt> {
        match byte {
            b'u' => {
                self.code = 0;
                self.go(State::Hex(4), Mark::Nothing)
            }
            b'"' | b'\\' | b'/' | b'b' | b'f' | b'n' | b'r' | b't' => {
                self.go(State::Text, Mark::Nothing)
            }
            _ => self.wrong(),
        }
    }

    fn hex(&mut self, byte: u8, left: u8) -> Result<Mark, Halt> {
        let Some(digit) = hex_of(byte) else {
            return self.wrong();
        };
        let first = if left == 4 { 0 } else { self.code };
        self.code = first.wrapping_mul(16).wrapping_add(digit);
        if left > 1 {
            return self.go(State::Hex(left - 1), Mark::Nothing);
        }
        self.end_escape()
    }

    /// An escape of four digits is complete: half of a pair, or a character.
    fn end_escape(&mut self) -> Result<Mark, Halt> {
        let is_first = 0xD800 <= self.code && self.code <= 0xDBFF;
        let is_second = 0xDC00 <= self.code && self.code <= 0xDFFF;
        if is_second != self.has_first {
            return Err(Halt::Wrong(Expected::Pair));
        }
        self.has_first = is_first;
        if is_first {
            self.go(State::SecondSlash, Mark::Nothing)
        } else {
            self.go(State::Text, Mark::Nothing)
        }
    }

    /// A byte that goes on a number.
    fn number(&mut self, byte: u8) -> Result<Mark, Halt> {
        let is_digit = byte.is_ascii_digit();
        let is_e = byte == b'e' || byte == b'E';
        let next = match self.state {
            State::Minus if byte == b'0' => State::Zero,
            State::Minus if is_digit => State::Digits,
            State::Zero | State::Digits if byte == b'.' => State::Point,
            State::Zero | State::Digits | State::Fraction if is_e => State::Exponent,
            State::Digits if is_digit => State::Digits,
            State::Point | State::Fraction if is_digit => State::Fraction,
            State::Exponent if byte == b'+' || byte == b'-' => State::ExponentSign,
            State::Exponent | State::ExponentSign | State::ExponentDigits if is_digit => {
                State::ExponentDigits
            }
            _ => return self.wrong(),
        };
        self.go(next, Mark::Nothing)
    }

    /// A further letter of a word.
    fn word(&mut self, at: usize, byte: u8, word: Word, done: u8) -> Result<Mark, Halt> {
        if word.letters().get(usize::from(done)) != Some(&byte) {
            return self.wrong();
        }
        let more = done.saturating_add(1);
        if usize::from(more) < word.letters().len() {
            return self.go(State::Word(word, more), Mark::Nothing);
        }
        self.complete(at.saturating_add(1));
        Ok(Mark::Ends)
    }
}
