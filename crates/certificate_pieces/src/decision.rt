//! A decision whose proof is told only when it is written.

ghost use Rattle.std.specs.Prelude.{◌≡◌, ◌≤◌, ◌+◌, ◌++◌, [], ◌∷◌, ℕ, List, length, option_map, IfOk};
ghost use Rattle.std.specs.Arc.{arc_value};
ghost use Rattle.certificate_pieces.specs.Telling.{Tells};
ghost use Rattle.certificate_pieces.specs.Texts.{bare_data, decision_text, head_text, verdict_of};
ghost use Rattle.certificate_text.specs.Certificate.{certificate_text};
ghost use Rattle.certificate_text.specs.Told.{decision_data};
ghost use Rattle.serde_json.specs.Written.{compact_text};

use crate::kept::LineCache;
use crate::list::Tell;
use crate::piece::Piece;
use crate::proof::put_proof;
use byte_transfer::Sink;
use certificate_text::{CertificateWriter, push_path};
use negotiation_inputs::Platform;
use std::alloc::{AllocError, Global};
use std::sync::Arc;
use sysmem_tree::Path;
use verdict_claims::{Claim, Verdict};

/// What is kept of a decision: the text before its proof, the claim that has the proof, and the
/// text behind it.
#[derive(Drop)]
pub(crate) struct Decision {
    head: Vec<u8>,
    claim: Option<Arc<Claim>>,
    tail: Vec<u8>,
}

impl Tell for Decision {
    ghost text = { decision_text };

    fn tell<P: Sink>(&self, out: &mut Piece, sink: &mut P, kept: &mut LineCache) {
        out.put(sink, self.head.as_slice());
        if let Some(claim) = &self.claim {
            put_proof(out, sink, kept, &claim.proof);
        }
        out.put(sink, self.tail.as_slice());
    }
}

/// What was decided of the domain whose root is at the path: a claim, or that memory was refused.
pub(crate) fn decision_of(
    alloc: Global,
    platform: &Platform,
    path: &Path,
    claim: &Option<Arc<Claim>>,
) -> Result<Decision, AllocError>
    ensures { IfOk result (λ decision. decision_text decision ≡ compact_text
        (decision_data platform.now path.now (option_map (λ shared. arc_value shared) claim.now))) }
{
    let head = head_of(alloc, path.ordinals())?;
    let text = bare_text(alloc, platform, path, claim)?;
    let tail = tail_of(alloc, &text, &head)?;
    let claim = again(claim)?;
    Ok(Decision { head, claim, tail })
}

/// The text of a decision before its proof: `{"domain":"/0"`.
fn head_of(alloc: Global, ordinals: &[u32]) -> Result<Vec<u8>, AllocError>
    ensures { IfOk result (λ head. head.items ≡ head_text ordinals.now) }
{
    let mut text = String::new(alloc);
    push_path(&mut text, ordinals)?;
    let mut head = Vec::from_slice(alloc, b"{\"domain\":\"")?;
    head.extend_from_slice(text.as_bytes())?;
    head.push(b'"')?;
    Ok(head)
}

/// The text of a certificate with this decision alone, which has its proof left out.
fn bare_text(
    alloc: Global,
    platform: &Platform,
    path: &Path,
    claim: &Option<Arc<Claim>>,
) -> Result<Vec<u8>, AllocError>
    ensures { IfOk result (λ text. text.items ≡ certificate_text
        (bare_data platform.now path.now
        (verdict_of (option_map (λ shared. arc_value shared) claim.now)) ∷ [])) }
{
    match claim {
        Some(shared) => text_of(alloc, platform, path, &shared.verdict),
        None => text_of(alloc, platform, path, &Verdict::NoMemory),
    }
}

/// The text of a certificate with this verdict alone, and nothing that proves it.
fn text_of(
    alloc: Global,
    platform: &Platform,
    path: &Path,
    verdict: &Verdict,
) -> Result<Vec<u8>, AllocError>
    ensures { IfOk result (λ text. text.items ≡ certificate_text
        (bare_data platform.now path.now verdict.now ∷ [])) }
{
    let mut writer = CertificateWriter::new(alloc)?;
    writer.put_verdict(platform, path, verdict)?;
    writer.finish()
}

/// What stands behind the head in the text of a certificate with one decision: not the bracket
/// before, nor the bracket and the newline behind.
fn tail_of(alloc: Global, text: &[u8], head: &[u8]) -> Result<Vec<u8>, AllocError>
    requires { length head.now + 3 ≤ length text.now }
    ensures { (tail : List ℕ) → text.now ≡ 91 ∷ (head.now ++ (tail ++ 93 ∷ 10 ∷ []))
        → IfOk result (λ rest. rest.items ≡ tail) }
{
    Vec::from_slice(alloc, &text[head.len() + 1..text.len() - 2])
}

/// The same claim, if there is one: it is kept once for both.
fn again(claim: &Option<Arc<Claim>>) -> Result<Option<Arc<Claim>>, AllocError>
    ensures { IfOk result (λ again. option_map (λ shared. arc_value shared) again
        ≡ option_map (λ shared. arc_value shared) claim.now) }
{
    match claim {
        Some(shared) => Ok(Some(Arc::try_clone(shared)?)),
        None => Ok(None),
    }
}
