//! Paths, as they are told.

ghost use Rattle.std.specs.Prelude.{◌≡◌, ◌<◌, ◌+◌, [], ◌∷◌, length, get_or, IsTrue};
ghost use Rattle.std.specs.Fmt.{decimal};
ghost use Rattle.certificate_pieces.specs.Telling.{Tells};
ghost use Rattle.certificate_text.specs.Paths.{steps_text};
ghost use Rattle.certificate_text.specs.Told.{path_data, paths_data};
ghost use Rattle.serde_json.specs.Written.{comma_if, compact_text};

use crate::piece::Piece;
use byte_transfer::Sink;
use verdict_claims::PathList;

/// Tells a list of paths: `["/0","/1/2"]`.
pub(crate) fn put_paths<P: Sink>(out: &mut Piece, sink: &mut P, paths: &PathList)
    ensures { Tells (P.contents sink.old) (P.failures sink.old) out.old
        (P.contents sink.new) (P.failures sink.new) out.new (compact_text (paths_data paths.now)) }
{
    out.put_byte(sink, b'[');
    let mut later = false;
    for path in paths.iter() {
        put_comma(out, sink, later);
        put_path(out, sink, path);
        later = true;
    }
    out.put_byte(sink, b']');
}

/// Tells a comma, where something stands before.
pub(crate) fn put_comma<P: Sink>(out: &mut Piece, sink: &mut P, later: bool)
    ensures { Tells (P.contents sink.old) (P.failures sink.old) out.old
        (P.contents sink.new) (P.failures sink.new) out.new (comma_if later) }
{
    if !later {
        return;
    }
    out.put_byte(sink, b',');
}

/// Tells the path of these ordinals: `"/0/1"`.
pub(crate) fn put_path<P: Sink>(out: &mut Piece, sink: &mut P, ordinals: &[u32])
    ensures { Tells (P.contents sink.old) (P.failures sink.old) out.old
        (P.contents sink.new) (P.failures sink.new) out.new (compact_text (path_data ordinals.now)) }
{
    if ordinals.is_empty() {
        out.put(sink, b"\"/\"");
        return;
    }
    if is_short(ordinals) {
        return put_short(out, sink, ordinals);
    }
    out.put_byte(sink, b'"');
    put_steps(out, sink, ordinals);
    out.put_byte(sink, b'"');
}

/// Whether a path has two steps, with a digit each, as most have.
fn is_short(ordinals: &[u32]) -> bool
    ensures many { IsTrue result → length ordinals.now ≡ 2 }
    ensures first { IsTrue result → get_or ordinals.now 0 0 < 10 }
    ensures second { IsTrue result → get_or ordinals.now 1 0 < 10 }
{
    if ordinals.len() != 2 {
        return false;
    }
    ordinals[0] < 10 && ordinals[1] < 10
}

/// Tells such a path at once.
fn put_short<P: Sink>(out: &mut Piece, sink: &mut P, ordinals: &[u32])
    requires many { length ordinals.now ≡ 2 }
    requires first { get_or ordinals.now 0 0 < 10 }
    requires second { get_or ordinals.now 1 0 < 10 }
    ensures { Tells (P.contents sink.old) (P.failures sink.old) out.old
        (P.contents sink.new) (P.failures sink.new) out.new (compact_text (path_data ordinals.now)) }
{
    let (first, second) = (ordinals[0] as u8, ordinals[1] as u8);
    out.put(sink, &[b'"', b'/', b'0' + first, b'/', b'0' + second, b'"']);
}

fn put_steps<P: Sink>(out: &mut Piece, sink: &mut P, ordinals: &[u32])
    ensures { Tells (P.contents sink.old) (P.failures sink.old) out.old
        (P.contents sink.new) (P.failures sink.new) out.new (steps_text ordinals.now) }
{
    for ordinal in ordinals {
        out.put_byte(sink, b'/');
        put_number(out, sink, u64::from(*ordinal));
    }
}

/// Tells a number. Most have one digit or two.
pub(crate) fn put_number<P: Sink>(out: &mut Piece, sink: &mut P, number: u64)
    ensures { Tells (P.contents sink.old) (P.failures sink.old) out.old
        (P.contents sink.new) (P.failures sink.new) out.new (decimal number) }
{
    if number < 10 {
        return put_digit(out, sink, number as u8);
    }
    if number < 100 {
        put_digit(out, sink, (number / 10) as u8);
        return put_digit(out, sink, (number % 10) as u8);
    }
    let mut digits = itoa::Buffer::new();
    out.put(sink, digits.format(number).as_bytes());
}

fn put_digit<P: Sink>(out: &mut Piece, sink: &mut P, digit: u8)
    requires { digit < 10 }
    ensures { Tells (P.contents sink.old) (P.failures sink.old) out.old
        (P.contents sink.new) (P.failures sink.new) out.new ((48 + digit) ∷ []) }
{
    out.put_byte(sink, b'0' + digit);
}
