//! A copy of what is kept of each offer.

ghost use Rattle.std.specs.Prelude.{◌≡◌, IfOk};

use crate::kept::KeptOffer;
use std::alloc::{AllocError, Global};

/// A copy of what is kept of each offer, in memory of its own.
pub(crate) fn copied_offers(alloc: Global, kept: &[KeptOffer]) -> Result<Vec<KeptOffer>, AllocError>
    ensures { IfOk result (λ copy. copy.items ≡ kept.now) }
{
    let mut copy = Vec::new(alloc);
    for one in kept {
        copy.push(*one)?;
    }
    Ok(copy)
}
