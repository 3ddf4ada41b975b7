//! Lists, as they are told.

ghost use Rattle.std.specs.Prelude.{List, map, ℕ};
ghost use Rattle.certificate_pieces.specs.Telling.{Tells};
ghost use Rattle.certificate_pieces.specs.Texts.{list_text};

use crate::kept::LineCache;
use crate::path::put_comma;
use crate::piece::Piece;
use byte_transfer::Sink;

/// A part of a certificate that is told.
pub(crate) trait Tell: Sized + Drop {
    ghost text: { Self → List ℕ };

    /// Tells it behind what was told.
    fn tell<P: Sink>(&self, out: &mut Piece, sink: &mut P, kept: &mut LineCache)
        ensures { Tells (P.contents sink.old) (P.failures sink.old) out.old
            (P.contents sink.new) (P.failures sink.new) out.new (text self.now) };
}

/// Tells a list of parts. Where the sink has failed, the others are left out.
pub(crate) fn put_list<T: Tell, P: Sink>(
    out: &mut Piece,
    sink: &mut P,
    kept: &mut LineCache,
    parts: &[T],
)
    ensures { Tells (P.contents sink.old) (P.failures sink.old) out.old
        (P.contents sink.new) (P.failures sink.new) out.new (list_text (map T.text parts.now)) }
{
    out.put_byte(sink, b'[');
    let mut later = false;
    for part in parts {
        if out.is_failed() {
            return;
        }
        put_comma(out, sink, later);
        part.tell(out, sink, kept);
        later = true;
    }
    out.put_byte(sink, b']');
}
