//! What is learnt of participants where one conflict after another is looked for.

ghost use Rattle.std.specs.Prelude.{List};
ghost use Rattle.sysmem_memory.specs.Heap.{HeapFacts};
ghost use Rattle.conflict_finding.specs.Learnt.{IsLearnt};
ghost use Rattle.sysmem_tree.specs.Node.{NodeFacts};

use crate::alone_lines::AloneLines;
use crate::offers_asked::OffersAsked;
use crate::places_asked::PlacesAsked;
use std::alloc::Global;

/// What the participants of a tree said of places and of offers, and lines that name one of them
/// each.
#[derive(Drop)]
pub struct Learnt {
    pub(crate) asked: PlacesAsked,
    pub(crate) offers: OffersAsked,
    pub(crate) alone: AloneLines,
}

impl Learnt {
    /// Nothing so far.
    pub fn new(alloc: Global) -> Learnt
        ensures { (nodes : List NodeFacts) (heaps : List HeapFacts) → IsLearnt nodes heaps result }
    {
        Learnt {
            asked: PlacesAsked::new(alloc),
            offers: OffersAsked::new(alloc),
            alone: AloneLines::new(alloc),
        }
    }
}
