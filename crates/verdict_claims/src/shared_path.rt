//! Paths that lists have in common.

ghost use Rattle.std.specs.Prelude.{◌≡◌, IfOk};

use std::alloc::{AllocError, Global};
use std::marker::Model;
use std::sync::ArcSlice;

/// The ordinals of a path, kept once for all lists that have it.
#[derive(Debug, Drop)]
pub(crate) struct SharedPath {
    ordinals: ArcSlice<u32>,
}

impl Model for SharedPath {
    ghost use Rattle.std.specs.Prelude.{ℕ, List};
    ghost use Rattle.std.specs.Arc.{arc_slice_items};

    ghost Value = { List ℕ };

    ghost view = { λ p. arc_slice_items p.ordinals };
}

impl SharedPath {
    /// The path of these ordinals. `AllocError` where memory is refused.
    pub(crate) fn new(alloc: Global, ordinals: &[u32]) -> Result<SharedPath, AllocError>
        ensures { IfOk result (λ path. path ≡ ordinals.now) }
    {
        let ordinals = ArcSlice::from_slice(alloc, ordinals)?;
        Ok(SharedPath { ordinals })
    }

    /// The same path, kept once for both.
    pub(crate) fn again(&self) -> Result<SharedPath, AllocError>
        ensures { IfOk result (λ path. path ≡ self.now) }
    {
        let ordinals = self.ordinals.clone()?;
        Ok(SharedPath { ordinals })
    }

    /// Its ordinals.
    pub(crate) fn ordinals(&self) -> &[u32]
        ensures { result.now ≡ self.now }
    {
        self.ordinals.as_slice()
    }
}
