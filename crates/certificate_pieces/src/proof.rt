//! What proves a verdict, as it is told.

ghost use Rattle.certificate_pieces.specs.Telling.{Tells};
ghost use Rattle.certificate_pieces.specs.Texts.{proof_text};

use crate::kept::LineCache;
use crate::lines::put_lines;
use crate::list::put_list;
use crate::piece::Piece;
use byte_transfer::Sink;
use verdict_claims::{Certificate, Proof};

/// Tells the members of a decision that prove its verdict.
pub(crate) fn put_proof<P: Sink>(out: &mut Piece, sink: &mut P, kept: &mut LineCache, proof: &Proof)
    ensures { Tells (P.contents sink.old) (P.failures sink.old) out.old
        (P.contents sink.new) (P.failures sink.new) out.new (proof_text proof.now) }
{
    match proof {
        Proof::Choice(certificate) => put_certificate(out, sink, kept, certificate),
        Proof::Empty(refutation) => {
            out.put(sink, b",\"refutation\":");
            put_list(out, sink, kept, refutation.items());
        }
        Proof::Nothing => {}
    }
}

fn put_certificate<P: Sink>(
    out: &mut Piece,
    sink: &mut P,
    kept: &mut LineCache,
    certificate: &Certificate,
)
    ensures { Tells (P.contents sink.old) (P.failures sink.old) out.old
        (P.contents sink.new) (P.failures sink.new) out.new
        (proof_text (Proof.Choice certificate.now)) }
{
    out.put(sink, b",\"earlier\":");
    put_list(out, sink, kept, certificate.earlier());
    out.put(sink, b",\"offers\":");
    put_lines(out, sink, kept, certificate.offers());
    out.put(sink, b",\"places\":");
    put_lines(out, sink, kept, certificate.places());
}
