//! Sets of heaps.

ghost use Rattle.std.specs.Prelude.{◌≡◌, ◌≢◌, ◌<◌, ℕ, false, ◌&&◌, ◌||◌, IfSome, IfNone};
ghost use Rattle.sysmem_memory.specs.HeapSet.{has_heap, IsLowestHeap};

/// A set of heaps, by their indexes, which are below 64: bit k of the word stands for heap k.
#[derive(Clone, Copy, Debug)]
pub struct HeapSet {
    word: u64,
}

impl HeapSet {
    /// No heap.
    pub const NONE: HeapSet = HeapSet { word: 0 };

    /// Whether the set has the heap.
    pub fn has(self, heap: usize) -> bool
        requires { heap < 64 }
        ensures { result ≡ has_heap self heap }
    {
        (self.word >> heap) & 1 == 1
    }

    /// The set, with the heap if it is `there`.
    pub fn with_if(self, there: bool, heap: usize) -> HeapSet
        requires { heap < 64 }
        ensures heap { has_heap result heap ≡ (there || has_heap self heap) }
        ensures others { (k : ℕ) → k ≢ heap → has_heap result k ≡ has_heap self k }
    {
        if !there {
            return self;
        }
        HeapSet {
            word: self.word | (1u64 << heap),
        }
    }

    /// The heaps that are in both sets.
    pub fn both(self, other: HeapSet) -> HeapSet
        ensures { (k : ℕ) → has_heap result k ≡ (has_heap self k && has_heap other k) }
    {
        HeapSet {
            word: self.word & other.word,
        }
    }

    /// The heaps that are in any of the sets.
    pub fn either(self, other: HeapSet) -> HeapSet
        ensures { (k : ℕ) → has_heap result k ≡ (has_heap self k || has_heap other k) }
    {
        HeapSet {
            word: self.word | other.word,
        }
    }

    /// The set's lowest heap, or `None` where it is empty.
    pub fn lowest(self) -> Option<usize>
        ensures lowest { IfSome result (IsLowestHeap self) }
        ensures none { IfNone result ((k : ℕ) → has_heap self k ≡ false) }
    {
        if self.word == 0 {
            return None;
        }
        Some(self.word.trailing_zeros() as usize)
    }
}
