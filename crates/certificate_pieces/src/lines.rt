//! Lists of lines, as they are told.

ghost use Rattle.std.specs.Prelude.{◌≡◌, Contains, IfSome, IsTrue};
ghost use Rattle.certificate_pieces.specs.KeptText.{GoesOn, IsKnown, kept_text};
ghost use Rattle.certificate_pieces.specs.Telling.{Tells};
ghost use Rattle.certificate_text.specs.Told.{line_data, lines_data};
ghost use Rattle.serde_json.specs.Written.{compact_text};
ghost use Rattle.verdict_claims.specs.declared.line.SharedPaths.{SharedPaths as Shared};

use crate::conflict::put_listed;
use crate::kept::{LineCache, NextLine};
use crate::path::put_comma;
use crate::piece::Piece;
use byte_transfer::Sink;
use std::mem;
use verdict_claims::{Line, Lines, SharedPaths};

/// Tells a list of lines. Where a line is known to be the one before once more, or to have the
/// paths of an earlier one, nothing is compared.
pub(crate) fn put_lines<P: Sink>(out: &mut Piece, sink: &mut P, kept: &mut LineCache, lines: &Lines)
    ensures { Tells (P.contents sink.old) (P.failures sink.old) out.old
        (P.contents sink.new) (P.failures sink.new) out.new (compact_text (lines_data lines.now)) }
{
    let again = lines.again();
    let shared = lines.shared();
    let mut next = 0;
    let mut next_shared = 0;
    let mut is_there = false;
    kept.begin();
    out.put_byte(sink, b'[');
    for (place, line) in lines.as_slice().iter().enumerate() {
        put_comma(out, sink, place > 0);
        let comes_again = is_next(again, next, place + 1);
        next += usize::from(comes_again);
        let earlier = earlier_of(shared, next_shared, place);
        next_shared += usize::from(earlier.is_some());
        let known = NextLine {
            place,
            earlier,
            comes_again,
        };
        is_there = put_next(out, sink, kept, line, is_there, known);
    }
    out.put_byte(sink, b']');
}

/// Whether the place of a line is the one that comes next among those of lines that are the one
/// before once more.
fn is_next(again: &[u8], next: usize, index: usize) -> bool
    ensures { IsTrue result → Contains again.now index }
{
    match again.get(next) {
        Some(place) => usize::from(*place) == index,
        None => false,
    }
}

/// The place of a line whose paths the line at a place has, if that pair comes next among those of
/// lines with the same paths.
fn earlier_of(shared: &[SharedPaths], next: usize, place: usize) -> Option<usize>
    ensures { IfSome result (λ earlier. (pair : Shared) × Contains shared.now pair
        × (pair.earlier ≡ earlier) × (pair.later ≡ place)) }
{
    let pair = shared.get(next)?;
    if usize::from(pair.later) != place {
        return None;
    }
    Some(usize::from(pair.earlier))
}

/// Tells a line, whose text is there already, or perhaps not. Answers whether it is there for the
/// next line too, which it is only if that is known to be this one once more.
fn put_next<P: Sink>(
    out: &mut Piece,
    sink: &mut P,
    kept: &mut LineCache,
    line: &Line,
    is_there: bool,
    known: NextLine,
) -> bool
    requires there { IsTrue is_there
        → kept_text kept.old line.now ≡ compact_text (line_data line.now) }
    requires known { IsKnown kept.old line.now known }
    ensures again { IsTrue result → IsTrue known.comes_again }
    ensures kept { IsTrue result → kept_text kept.new line.now ≡ compact_text (line_data line.now) }
    ensures paths { GoesOn kept.old kept.new line.now known.place }
    ensures told { Tells (P.contents sink.old) (P.failures sink.old) out.old
        (P.contents sink.new) (P.failures sink.new) out.new (compact_text (line_data line.now)) }
{
    if is_there {
        out.put(sink, kept.text(line));
        return known.comes_again;
    }
    if kept.keeps(line, known) {
        out.put(sink, kept.text(line));
        return known.comes_again;
    }
    if !kept.front.has(line.field()) {
        mem::swap(&mut kept.front, &mut kept.other_front);
    }
    put_listed(out, sink, &mut kept.front, line);
    false
}
