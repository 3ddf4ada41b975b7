//! Values that no report shows: the text of a want of memory, the corner of no image, a copy of
//! what is kept of participants, and heaps that make no platform.

use crate::equal::is_equal;
use crate::steps::{asked, platform};
use negotiation_inputs::{Constraints, Platform};
use record_reading::{Code, Fault, FaultPlace};
use std::alloc::Global;
use std::process::Abort;
use sysmem_counts::Field;
use sysmem_formats::{ColourSpace, Modifier, Offer, Pair, PixelFormat};
use sysmem_image::{Corner, ImageBounds, corner};
use sysmem_memory::{CoherencyDomains, Heap, HeapInfo};
use sysmem_merge::{Aggregate, Reason};

#[test]
fn want_of_memory(rt: HostRuntime) {
    let fault = Fault {
        code: Code::WantOfMemory,
        at: FaultPlace::At(Field::Heaps),
    };
    let text = fault.to_string(rt.alloc()).expect(&rt, "memory");
    is_equal(&rt, "fault", &text.as_str(), &"S13 heaps");
}

/// What stands for the smallest image where there is none.
#[test]
fn no_image(rt: HostRuntime) {
    let none = Corner {
        width: 1,
        height: 1,
        bytes_per_row: 1,
        bytes: 0,
    };
    let bounds = ImageBounds::of(&Offer::NoImage);
    is_equal(&rt, "corner", &corner(&bounds, &Offer::NoImage), &Ok(none));
}

// Whether a copy of what is kept of one participant answers as its source; and then, with another
// added to the source, whether that has no offer, and the copy answers as before.
fn copies(
    rt: &impl Abort,
    alloc: Global,
    platform: &Platform,
    first: &Constraints,
    second: &Constraints,
) -> [bool; 3] {
    let mut source = Aggregate::new(alloc, platform).expect(rt, "new");
    source.add(first).expect(rt, "add");
    let copy = source.copy().expect(rt, "copy");
    let before = source.best_settings(true);
    let is_same = before.is_ok() && copy.best_settings(true) == before;
    source.add(second).expect(rt, "add");
    let is_empty = source.best_settings(true) == Err(Reason::NoOffer);
    [is_same, is_empty, copy.best_settings(true) == before]
}

#[test]
fn a_copy_of_an_aggregate(rt: HostRuntime) {
    let platform = platform(&rt, rt.alloc());
    let nv12 = asked(&rt, rt.alloc(), "nv12");
    let r8 = asked(&rt, rt.alloc(), "r8");
    let found = copies(&rt, rt.alloc(), &platform, &nv12, &r8);
    is_equal(&rt, "copy", &found, &[true; 3]);
}

// A heap of a type and of this id.
fn heap(rt: &impl Abort, alloc: Global, heap_type: &str, id: u64) -> HeapInfo {
    let mut domains = CoherencyDomains::NONE;
    domains.cpu = true;
    let heap_type = String::from_str(alloc, heap_type).expect(rt, heap_type);
    HeapInfo {
        heap: Heap { heap_type, id },
        contiguous: false,
        secure: false,
        domains,
    }
}

// What is amiss with a platform that has heaps of this type and of these ids, and a pair and a
// colour space.
fn amiss(rt: &impl Abort, alloc: Global, heap_type: &str, ids: &[u64]) -> Option<Field> {
    let mut heaps = Vec::new(alloc);
    for id in ids {
        heaps
            .push(heap(rt, alloc, heap_type, *id))
            .expect(rt, heap_type);
    }
    let pair = Pair {
        format: PixelFormat::R8,
        modifier: Modifier::Linear,
    };
    let pairs = Vec::from_slice(alloc, &[pair]).expect(rt, heap_type);
    let colours = Vec::from_slice(alloc, &[ColourSpace::Srgb]).expect(rt, heap_type);
    Platform::of(heaps, pairs, colours).err()
}

// The type of a platform's heaps, their ids, and what is amiss with it.
const HEAPS: [(&str, &[u64], Option<Field>); 3] = [
    ("a", &[1, 2, 1], Some(Field::Heaps)),
    ("a b", &[1], Some(Field::HeapType)),
    ("a", &[1, 2], None),
];

#[test]
fn heaps_that_make_no_platform(rt: HostRuntime) {
    for (heap_type, ids, wanted) in HEAPS {
        let found = amiss(&rt, rt.alloc(), heap_type, ids);
        is_equal(&rt, heap_type, &found, &wanted);
    }
}
