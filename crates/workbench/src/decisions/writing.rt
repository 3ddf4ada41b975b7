//! What is repeated of a certificate: the writing of its text, and beside it the serialising of the
//! value that this text spells.

use super::deciding::claim_of;
use crate::failure::Failure;
use certificate_text::CertificateWriter;
use negotiation_inputs::Platform;
use serde_json::Value;
use std::alloc::Global;
use sysmem_tree::{Path, Tree};
use verdict_claims::Claim;

/// Writes the certificate of the initial domain's verdict so many times.
pub(crate) fn write_again(
    alloc: Global,
    platform: &Platform,
    tree: &Tree,
    times: u32,
) -> Result<(), Failure> {
    let claim = claim_of(alloc, platform, tree)?;
    let path = tree.path_of(tree.root())?;
    for _ in 0..times {
        certificate_of(alloc, platform, &path, &claim)?;
    }
    Ok(())
}

/// The text of a certificate with this one decision.
fn certificate_of(
    alloc: Global,
    platform: &Platform,
    path: &Path,
    claim: &Claim,
) -> Result<Vec<u8>, Failure> {
    let mut writer = CertificateWriter::new(alloc)?;
    writer.put(platform, path, Some(claim))?;
    let text = writer.finish()?;
    Ok(text)
}

/// Reads that certificate as a JSON value, and then makes the value's text so many times.
pub(crate) fn serialise_again(
    alloc: Global,
    platform: &Platform,
    tree: &Tree,
    times: u32,
) -> Result<(), Failure> {
    let claim = claim_of(alloc, platform, tree)?;
    let path = tree.path_of(tree.root())?;
    let text = certificate_of(alloc, platform, &path, &claim)?;
    let Ok(value) = Value::from_slice(alloc, &text) else {
        return Err(Failure::NotJson);
    };
    for _ in 0..times {
        value.to_vec(alloc)?;
    }
    Ok(())
}
