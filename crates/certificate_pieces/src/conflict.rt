//! Refutations and lines, as they are told.

ghost use Rattle.std.specs.Prelude.{◌≡◌, List, ℕ};
ghost use Rattle.certificate_pieces.specs.Telling.{Tells};
ghost use Rattle.certificate_pieces.specs.Texts.{named_front};
ghost use Rattle.certificate_text.specs.Told.{conflict_data, earlier_data, item_data, line_data, named_data, refutation_data};
ghost use Rattle.json.specs.Print.{escape};
ghost use Rattle.serde_json.specs.Written.{compact_text};

use crate::kept::LineCache;
use crate::kept_front::KeptFront;
use crate::lines::put_lines;
use crate::list::{Tell, put_list};
use crate::path::{put_number, put_path, put_paths};
use crate::piece::Piece;
use byte_transfer::Sink;
use sysmem_counts::Field;
use sysmem_tree::Path;
use verdict_claims::{Conflict, EarlierChoices, Item, Line, Refutation};

impl Tell for EarlierChoices {
    ghost text = { λ earlier. compact_text (earlier_data earlier) };

    fn tell<P: Sink>(&self, out: &mut Piece, sink: &mut P, kept: &mut LineCache) {
        put_list(out, sink, kept, self.refutations());
    }
}

impl Tell for Refutation {
    ghost text = { λ items. compact_text (refutation_data items) };

    fn tell<P: Sink>(&self, out: &mut Piece, sink: &mut P, kept: &mut LineCache) {
        put_list(out, sink, kept, self.items());
    }
}

impl Tell for Item {
    ghost text = { λ item. compact_text (item_data item) };

    fn tell<P: Sink>(&self, out: &mut Piece, sink: &mut P, kept: &mut LineCache) {
        match self {
            Item::Split(children) => put_split(out, sink, *children),
            Item::Leaf(conflict) => put_conflict(out, sink, kept, conflict),
        }
    }
}

/// Tells how many children a group has: `{"split":2}`.
fn put_split<P: Sink>(out: &mut Piece, sink: &mut P, children: u64)
    ensures { Tells (P.contents sink.old) (P.failures sink.old) out.old
        (P.contents sink.new) (P.failures sink.new) out.new
        (compact_text (item_data (Item.Split children))) }
{
    out.put(sink, b"{\"split\":");
    put_number(out, sink, children);
    out.put_byte(sink, b'}');
}

fn put_conflict<P: Sink>(out: &mut Piece, sink: &mut P, kept: &mut LineCache, conflict: &Conflict)
    ensures { Tells (P.contents sink.old) (P.failures sink.old) out.old
        (P.contents sink.new) (P.failures sink.new) out.new
        (compact_text (conflict_data conflict.now)) }
{
    match conflict {
        Conflict::Count(line) => put_line(out, sink, b"{\"count\":\"", line),
        Conflict::Fixed(field, node) => put_fixed(out, sink, *field, node),
        Conflict::Places(lines) => {
            out.put(sink, b"{\"places\":");
            put_lines(out, sink, kept, lines);
            out.put_byte(sink, b'}');
        }
        Conflict::Offers(lines) => {
            out.put(sink, b"{\"offers\":");
            put_lines(out, sink, kept, lines);
            out.put_byte(sink, b'}');
        }
    }
}

/// Tells a conflict of settings that are given: `{"fixed":"usage","nodes":["/0"]}`.
fn put_fixed<P: Sink>(out: &mut Piece, sink: &mut P, field: Field, node: &Path)
    ensures { Tells (P.contents sink.old) (P.failures sink.old) out.old
        (P.contents sink.new) (P.failures sink.new) out.new
        (compact_text (conflict_data (Conflict.Fixed field node.now))) }
{
    out.put(sink, b"{\"fixed\":\"");
    out.put(sink, field.name().as_bytes());
    out.put(sink, b"\",\"nodes\":[");
    put_path(out, sink, node.ordinals());
    out.put(sink, b"]}");
}

/// Tells a line, whose object begins so: `{"count":"`.
pub(crate) fn put_line<P: Sink>(out: &mut Piece, sink: &mut P, front: &[u8], line: &Line)
    ensures { (kind : List ℕ) → escape kind ≡ kind → front.now ≡ named_front kind
        → Tells (P.contents sink.old) (P.failures sink.old) out.old
        (P.contents sink.new) (P.failures sink.new) out.new
        (compact_text (named_data kind line.now.field line.now.nodes)) }
{
    out.put(sink, front);
    out.put(sink, line.field().name().as_bytes());
    out.put(sink, b"\",\"nodes\":");
    put_paths(out, sink, line.nodes());
    out.put_byte(sink, b'}');
}

/// Tells a line of a list. The text before its paths is kept for the next line with its field.
pub(crate) fn put_listed<P: Sink>(out: &mut Piece, sink: &mut P, front: &mut KeptFront, line: &Line)
    ensures { Tells (P.contents sink.old) (P.failures sink.old) out.old
        (P.contents sink.new) (P.failures sink.new) out.new (compact_text (line_data line.now)) }
{
    if !front.keeps(line.field()) {
        return put_line(out, sink, b"{\"field\":\"", line);
    }
    out.put(sink, front.text());
    put_paths(out, sink, line.nodes());
    out.put_byte(sink, b'}');
}
