//! What a name is.

ghost use Rattle.std.specs.Prelude.{◌≡◌, ◌++◌, OnOk};
ghost use Rattle.std.specs.List.{list_all};
ghost use Rattle.std.specs.String.{string_bytes};
ghost use Rattle.node_names.specs.Names.{is_digit, is_name, is_name_byte, is_numbered, own_name};

use std::alloc::AllocError;
use std::fmt::Write;

/// The longest name, in bytes.
pub const LONGEST_NAME: usize = 32;

fn is_digit(byte: u8) -> bool
    ensures { result ≡ is_digit byte }
{
    byte.is_ascii_digit()
}

fn is_name_byte(byte: u8) -> bool
    ensures { result ≡ is_name_byte byte }
{
    byte.is_ascii_alphanumeric() || byte == b'_' || byte == b'-'
}

fn has_name_bytes(name: &str) -> bool
    ensures { result ≡ list_all is_name_byte name.now }
{
    name.as_bytes().iter().all(|byte| is_name_byte(*byte))
}

fn are_digits(text: &[u8]) -> bool
    ensures { result ≡ list_all is_digit text.now }
{
    text.iter().all(|byte| is_digit(*byte))
}

/// Whether a text is `n` and digits.
fn is_numbered(text: &[u8]) -> bool
    ensures { result ≡ is_numbered text.now }
{
    match text {
        [first, digits @ ..] => *first == b'n' && are_digits(digits),
        [] => false,
    }
}

/// Whether a text is a name that a node may be given: 1 to 32 ASCII letters, digits, `_` or `-`,
/// and neither `root` nor `n` and digits.
pub fn is_name(name: &str) -> bool
    ensures { result ≡ is_name name.now }
{
    1 <= name.len()
        && name.len() <= LONGEST_NAME
        && has_name_bytes(name)
        && name != "root"
        && !is_numbered(name.as_bytes())
}

/// Puts the name of a node that was given none.
pub(crate) fn put_own(text: &mut String, node: u32) -> Result<(), AllocError>
    ensures { OnOk result (string_bytes text.new ≡ string_bytes text.old ++ own_name node) }
{
    if node == 0 {
        return text.push_str("root");
    }
    write!(text, "n{node}")
}
