//! Writes a certificate, decision by decision.

ghost use Rattle.std.specs.Prelude.{◌≡◌, ◌++◌, List, [], ◌∷◌, option_map, IfOk, OnOk};
ghost use Rattle.serde_json.specs.Data.{Data};
ghost use Rattle.certificate_text.specs.Certificate.{HasTaken, certificate_text};
ghost use Rattle.certificate_text.specs.Told.{claim_data, decision_data};

use crate::claim::{put_claim, put_decision};
use crate::json_writer::Writer;
use negotiation_inputs::Platform;
use std::alloc::{AllocError, Global};
use std::marker::Model;
use sysmem_tree::Path;
use verdict_claims::{Claim, Proof, Verdict};

/// A certificate that is being written: the list of decisions so far.
#[derive(Drop)]
pub struct CertificateWriter {
    out: Writer,
    text: String,
}

impl Model for CertificateWriter {
    ghost use Rattle.json.specs.Written.{Written, written_code};

    ghost Value = { Written };

    ghost coded = { written_code };

    ghost view = { λ w. w.out };
}

impl CertificateWriter {
    /// Begins a certificate, which has no decision yet.
    pub fn new(alloc: Global) -> Result<CertificateWriter, AllocError>
        ensures { IfOk result (λ writer. HasTaken writer []) }
    {
        let mut out = Writer::new(alloc);
        out.begin_array()?;
        Ok(CertificateWriter {
            out,
            text: String::new(alloc),
        })
    }

    /// Writes what was decided of the domain whose root is at the path: a claim, or that memory was
    /// refused. Where memory is refused to the text, a part of it may be written, and nothing is
    /// said of the certificate any more.
    pub fn put(
        &mut self,
        platform: &Platform,
        path: &Path,
        claim: Option<&Claim>,
    ) -> Result<(), AllocError>
        ensures { (decisions : List Data) → HasTaken self.old decisions → OnOk result
            (HasTaken self.new (decisions
            ++ decision_data platform.now path.now (option_map (λ c. c.now) claim.entry) ∷ [])) }
    {
        put_decision(&mut self.out, &mut self.text, platform, path, claim)
    }

    /// Writes a verdict on the domain whose root is at the path, and nothing that proves it. Where
    /// memory is refused to the text, a part of it may be written, and nothing is said of the
    /// certificate any more.
    pub fn put_verdict(
        &mut self,
        platform: &Platform,
        path: &Path,
        verdict: &Verdict,
    ) -> Result<(), AllocError>
        ensures { (decisions : List Data) → HasTaken self.old decisions → OnOk result
            (HasTaken self.new (decisions
            ++ claim_data platform.now path.now verdict.now Proof.Nothing ∷ [])) }
    {
        put_claim(
            &mut self.out,
            &mut self.text,
            platform,
            path,
            verdict,
            &Proof::Nothing,
        )
    }

    /// Ends the certificate: its text, with a newline.
    pub fn finish(self) -> Result<Vec<u8>, AllocError>
        ensures { (decisions : List Data) → HasTaken self decisions
            → IfOk result (λ text. text.items ≡ certificate_text decisions) }
    {
        let CertificateWriter { mut out, .. } = self;
        out.end_array()?;
        let mut text = out.into_inner()?;
        text.push(b'\n')?;
        Ok(text)
    }
}
