//! Names of tokens and of actors.
ghost use Rattle.std.specs.Prelude.{◌≡◌};
ghost use Rattle.std.specs.List.{list_all};
ghost use Rattle.script_reading.specs.Names.{is_name, is_name_byte};

/// The token that each script begins with.
pub(crate) const ROOT: &str = "root";

/// The actor of a call that names none.
pub(crate) const MAIN: &str = "main";

fn is_name_byte(byte: u8) -> bool
    ensures { result ≡ is_name_byte byte }
{
    byte.is_ascii_alphanumeric() || byte == b'_' || byte == b'-'
}

fn has_only_name_bytes(text: &str) -> bool
    ensures { result ≡ list_all is_name_byte text.now }
{
    text.as_bytes().iter().all(|byte| is_name_byte(*byte))
}

/// Whether a text is 1 to 32 ASCII letters, digits, `_` and `-`.
pub(crate) fn is_name(text: &str) -> bool
    ensures { result ≡ is_name text.now }
{
    1 <= text.len() && text.len() <= 32 && has_only_name_bytes(text)
}
