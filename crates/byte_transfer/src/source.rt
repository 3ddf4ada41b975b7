//! What a script is read from.
ghost use Rattle.std.specs.Prelude.{◌≡◌, ◌≢◌, ℕ, List, Option, OnOk, OnErr};
ghost use Rattle.std.specs.Io.{ReadsAtMost};
ghost use Rattle.std.specs.Io.KnownBytes.{ReadConsumes};

use std::io;

/// A reader that tells its failures: std's `Read` has no clause for a call that failed.
///
/// `Counted` makes one of any reader.
pub trait Source {
    /// The bytes that reads will give from here on, where they are known.
    ghost remaining: { Self → Option (List ℕ) };

    /// A number that is another after each failed read, and else stays.
    ghost failures: { Self → ℕ };

    /// Gives the next bytes at the front of `buf`, and says how many. None are
    /// the end, unless `buf` has no room.
    ///
    /// An `Err` is a failure, and takes no byte.
    fn read(&mut self, buf: &mut [u8]) -> io::Result<usize>
        ensures bound { ReadsAtMost result buf.new }
        ensures bytes { ReadConsumes (remaining self.old) (remaining self.new) result buf.new }
        ensures worked { OnOk result (failures self.new ≡ failures self.old) }
        ensures failed { OnErr result (failures self.new ≢ failures self.old) };
}
