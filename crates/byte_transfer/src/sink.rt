//! What a report is written to.
ghost use Rattle.std.specs.Prelude.{◌≡◌, ◌≢◌, ◌<◌, ℕ, List, Option, length, IfOk, OnOk, OnErr};
ghost use Rattle.std.specs.Io.{WritesAtMost};
ghost use Rattle.std.specs.Io.KnownBytes.{WriteAppends};

use std::io;

/// A writer that tells its failures: std's `Write` has no clause for a call that failed.
///
/// `Counted` makes one of any writer.
pub trait Sink {
    /// The bytes that the sink holds, where they are known.
    ghost contents: { Self → Option (List ℕ) };

    /// A number that is another after each failed write, and else stays.
    ghost failures: { Self → ℕ };

    /// Takes bytes from the front, and says how many: at least one, if there is one.
    ///
    /// An `Err` is a failure, and takes no byte.
    fn write(&mut self, bytes: &[u8]) -> io::Result<usize>
        ensures bound { WritesAtMost result bytes.now }
        ensures some { IfOk result (λ count. 0 < length bytes.now → 0 < count) }
        ensures bytes { WriteAppends (contents self.old) (contents self.new) result bytes.now }
        ensures worked { OnOk result (failures self.new ≡ failures self.old) }
        ensures failed { OnErr result (failures self.new ≢ failures self.old) };
}
