//! The page of a script's items.

use crate::json::Scene;
use crate::page::drawing::drawing_of;
use crate::page::proofs::proofs_of;
use explanation_text::{Item, page_of};
use std::alloc::{AllocError, Global};

/// The page of a script's items, with the tree and the calls; of one that is refused without these.
pub(crate) fn page_of_scene(
    alloc: Global,
    scene: Scene<'_, '_>,
    items: &[Item],
) -> Result<String, AllocError> {
    let Some(played) = scene.played else {
        return page_of(alloc, items, None);
    };
    let mut drawing = drawing_of(alloc, played.platform, played.story)?;
    drawing.proofs = proofs_of(alloc, played)?;
    page_of(alloc, items, Some(&drawing))
}
