//! Lists that may not have an item twice.

ghost use Rattle.std.specs.Prelude.{◌≡◌, ◌↔◌, Bool, false, AllPairs, IsTrue};
ghost use Rattle.std.specs.List.{list_any};
ghost use Rattle.sysmem_memory.specs.Heap.{same_heap};
ghost use Rattle.negotiation_inputs.specs.Asked.{pair_asked, same_asked};
ghost use Rattle.negotiation_inputs.specs.Pairs.{same_colour, same_pair};

use crate::asked::{is_asked_already, pair_asked};
use crate::heaps::{has_heap, has_permitted};
use crate::pairs::{has_pair, lists_colour};
use sysmem_formats::{ColourSpace, Pair};
use sysmem_image::Entry;
use sysmem_memory::{Heap, HeapInfo};

/// An item of a list that may not have it twice.
pub(crate) trait Distinct: Sized {
    ghost same: { Self → Self → Bool };

    /// Whether one of the items is the same.
    fn is_among(&self, items: &[Self]) -> bool
        ensures { result ≡ list_any (λ item. same item self.now) items.now };
}

impl Distinct for HeapInfo {
    ghost same = { λ a b. same_heap a.heap b.heap };

    fn is_among(&self, items: &[HeapInfo]) -> bool {
        has_heap(items, self)
    }
}

impl Distinct for Heap {
    ghost same = { same_heap };

    fn is_among(&self, items: &[Heap]) -> bool {
        has_permitted(items, self)
    }
}

impl Distinct for Pair {
    ghost same = { same_pair };

    fn is_among(&self, items: &[Pair]) -> bool {
        has_pair(items, *self)
    }
}

impl Distinct for ColourSpace {
    ghost same = { same_colour };

    fn is_among(&self, items: &[ColourSpace]) -> bool {
        lists_colour(items, *self)
    }
}

impl Distinct for Entry {
    ghost same = { λ a b. same_asked (pair_asked a) (pair_asked b) };

    fn is_among(&self, items: &[Entry]) -> bool {
        is_asked_already(items, pair_asked(self))
    }
}

/// Whether no item is there twice.
pub(crate) fn are_distinct<T: Distinct>(items: &[T]) -> bool
    ensures { IsTrue result ↔ AllPairs (λ a b. T.same a b ≡ false) items.now }
{
    for (index, item) in items.iter().enumerate() {
        if item.is_among(&items[..index]) {
            return false;
        }
    }
    true
}
