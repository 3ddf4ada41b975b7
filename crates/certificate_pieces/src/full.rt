//! A sink that takes nothing.

ghost use Rattle.std.specs.Prelude.{[], Some};

use byte_transfer::Sink;
use std::io;

/// Takes no byte: what is told to it is whole only where a piece has room for it.
#[derive(Drop)]
pub(crate) struct Full {
    failures: u64,
}

impl Full {
    /// It hasn't failed yet.
    pub(crate) fn new() -> Full {
        Full { failures: 0 }
    }
}

impl Sink for Full {
    ghost contents = { λ _. Some [] };

    ghost failures = { λ full. full.failures };

    fn write(&mut self, _bytes: &[u8]) -> io::Result<usize> {
        self.failures = self.failures.wrapping_add(1);
        Err(io::Error::from(io::ErrorKind::WriteZero))
    }
}
