//! The decisions of a certificate, and how they are written.

ghost use Rattle.std.specs.Prelude.{◌≡◌, ◌≢◌, ◌++◌, [], ◌∷◌, option_map, IfOk, OnErr, OnOk};
ghost use Rattle.std.specs.Arc.{arc_value};
ghost use Rattle.std.specs.Io.KnownBytes.{Appends};
ghost use Rattle.byte_transfer.specs.Transfer.{WritesFront};
ghost use Rattle.certificate_pieces.specs.Texts.{pieces_text};
ghost use Rattle.certificate_text.specs.Told.{decision_data};
ghost use Rattle.serde_json.specs.Written.{compact_text};

use crate::decision::{Decision, decision_of};
use crate::kept::LineCache;
use crate::list::put_list;
use crate::piece::Piece;
use byte_transfer::{Sink, WriteFault};
use negotiation_inputs::Platform;
use std::alloc::{AllocError, Global};
use std::marker::Model;
use std::sync::Arc;
use sysmem_tree::Path;
use verdict_claims::Claim;

/// The decisions of a certificate so far. Their claims are kept, and no text of what proves them.
#[derive(Drop)]
pub struct CertificatePieces {
    alloc: Global,
    decisions: Vec<Decision>,
    out: Piece,
    kept: LineCache,
}

impl Model for CertificatePieces {
    ghost use Rattle.std.specs.Prelude.{ℕ, List, map};
    ghost use Rattle.certificate_pieces.specs.Texts.{decision_text};

    ghost Value = { List (List ℕ) };

    ghost view = { λ p. map decision_text p.decisions.items };
}

impl CertificatePieces {
    /// Begins a certificate, which has no decision yet. All the room that writing it needs is taken.
    pub fn new(alloc: Global) -> Result<CertificatePieces, AllocError>
        ensures { IfOk result (λ pieces. pieces ≡ []) }
    {
        Ok(CertificatePieces {
            alloc,
            decisions: Vec::new(alloc),
            out: Piece::new(alloc)?,
            kept: LineCache::new(alloc)?,
        })
    }

    /// Puts what was decided of the domain whose root is at the path: a claim, or that memory was
    /// refused.
    pub fn put(
        &mut self,
        platform: &Platform,
        path: &Path,
        claim: &Option<Arc<Claim>>,
    ) -> Result<(), AllocError>
        ensures { OnOk result (self.new ≡ self.old ++ compact_text (decision_data platform.now
            path.now (option_map (λ shared. arc_value shared) claim.now)) ∷ []) }
    {
        let decision = decision_of(self.alloc, platform, path, claim)?;
        self.decisions.push(decision)?;
        Ok(())
    }

    /// Writes the certificate's text, or a prefix of it. No memory is taken.
    ///
    /// Any failure of the sink is the fault, a write that takes no byte too, and nothing else is.
    pub fn write<P: Sink>(self, sink: &mut P) -> Result<(), WriteFault>
        ensures written { OnOk result
            (Appends (P.contents sink.old) (P.contents sink.new) (pieces_text self)) }
        ensures front { OnErr result
            (WritesFront (P.contents sink.old) (P.contents sink.new) (pieces_text self)) }
        ensures worked { OnOk result (P.failures sink.new ≡ P.failures sink.old) }
        ensures failed { OnErr result (P.failures sink.new ≢ P.failures sink.old) }
    {
        let CertificatePieces {
            decisions,
            mut out,
            mut kept,
            ..
        } = self;
        out.clear();
        put_list(&mut out, sink, &mut kept, decisions.as_slice());
        out.put(sink, b"\n");
        out.finish(sink)
    }
}
