//! How much is taken from a reader.

use crate::equal::is_equal;
use byte_transfer::{Counted, ReadFault, read_up_to_limit};
use std::alloc::Global;
use std::io::{self, Read};

// Gives so many bytes, few at a time.
#[derive(Drop)]
struct Spring {
    left: usize,
    step: usize,
}

impl Read for Spring {
    fn read(&mut self, buf: &mut [u8]) -> io::Result<usize> {
        let count = self.left.min(self.step).min(buf.len());
        self.left -= count;
        Ok(count)
    }
}

// How many bytes are taken of a spring under this limit, and how many it has left.
fn taken(alloc: Global, spring: Spring, limit: usize) -> Result<(usize, usize), ReadFault> {
    let mut reader = Counted::new(spring);
    let bytes = read_up_to_limit(alloc, &mut reader, limit)?;
    Ok((bytes.len(), reader.inner.left))
}

#[test]
fn reads_to_the_end_or_one_byte_further(rt: HostRuntime) {
    for (left, step, limit, wanted) in [
        (7, 1, 9, (7, 0)),
        (7, 1, 0, (1, 6)),
        (4_194_304, 9_000, 4_194_304, (4_194_304, 0)),
        (5_000_000, 9_000, 4_194_304, (4_194_305, 805_695)),
        (5_000, 9_000, usize::MAX, (5_000, 0)),
    ] {
        let answered = taken(rt.alloc(), Spring { left, step }, limit);
        is_equal(&rt, "bytes, left", &answered, &Ok(wanted));
    }
}
