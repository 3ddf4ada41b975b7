//! Lines and columns of a text, both counted from 1. A column is one character.

ghost use Rattle.std.specs.Prelude.{◌≡◌, ◌+◌, ◌≤◌, ◌==◌, length, take, count_by};

/// The line of the byte at a place: one more than the line ends before it.
pub fn line_of(bytes: &[u8], at: usize) -> usize
    requires { at ≤ length bytes.now }
    ensures { result ≡ 1 + count_by (λ b. b == 10) (take at bytes.now) }
{
    1 + newlines(&bytes[..at])
}

fn newlines(bytes: &[u8]) -> usize
    ensures { result ≡ count_by (λ b. b == 10) bytes.now }
{
    bytes.iter().filter(|b| **b == 10).count()
}

/// The column of the byte at a place: one more than the characters before it on its line.
pub fn column_of(bytes: &[u8], at: usize) -> usize {
    let line = bytes.get(start_of_line(bytes, at)..at).unwrap_or(&[]);
    characters(line).saturating_add(1)
}

/// How many characters begin in the bytes, as UTF-8 has them.
pub fn characters(bytes: &[u8]) -> usize {
    bytes.iter().filter(|b| begins_character(**b)).count()
}

/// Whether a byte of UTF-8 begins a character.
pub fn begins_character(byte: u8) -> bool {
    byte < 0x80 || byte >= 0xC0
}

/// Where the line of the byte at a place begins.
pub fn start_of_line(bytes: &[u8], at: usize) -> usize
    ensures { result ≤ length bytes.now }
{
    let before = bytes.get(..at).unwrap_or(bytes);
    match before.iter().rposition(|b| *b == b'\n') {
        Some(k) => k + 1,
        None => 0,
    }
}

/// Where the line of the byte at a place ends, its end not among it.
pub fn end_of_line(bytes: &[u8], at: usize) -> usize {
    let rest = bytes.get(at..).unwrap_or(&[]);
    match rest.iter().position(|b| *b == b'\n') {
        Some(k) => at.saturating_add(k),
        None => bytes.len(),
    }
}
