//! Any reader or writer, as a source or a sink.
ghost use Rattle.std.specs.Prelude.{◌≡◌, ◌≢◌};

use crate::sink::Sink;
use crate::source::Source;
use std::io::{self, Read, Write};

/// A reader or a writer, and a count of its failures.
#[derive(Drop)]
pub struct Counted<T> {
    pub inner: T,
    /// How many calls have failed. After the greatest number comes 0.
    pub failures: u64,
}

impl<T> Counted<T> {
    /// The reader or writer, with no failure so far.
    pub fn new(inner: T) -> Counted<T>
        ensures inner { result.inner ≡ inner }
        ensures failures { result.failures ≡ 0 }
    {
        Counted { inner, failures: 0 }
    }

    fn count_failure(&mut self)
        ensures inner { self.new.inner ≡ self.old.inner }
        ensures failures { self.new.failures ≢ self.old.failures }
    {
        self.failures = self.failures.wrapping_add(1);
    }
}

impl<R: Read> Source for Counted<R> {
    ghost remaining = { λ counted. R.remaining counted.inner };

    ghost failures = { λ counted. counted.failures };

    fn read(&mut self, buf: &mut [u8]) -> io::Result<usize> {
        let result = self.inner.read(buf);
        if result.is_err() {
            self.count_failure();
        }
        result
    }
}

/// A write that takes none of some bytes is a failure too, of the kind `WriteZero`.
impl<W: Write> Sink for Counted<W> {
    ghost contents = { λ counted. W.contents counted.inner };

    ghost failures = { λ counted. counted.failures };

    fn write(&mut self, bytes: &[u8]) -> io::Result<usize> {
        let mut result = self.inner.write(bytes);
        if let Ok(0) = result
            && !bytes.is_empty()
        {
            result = Err(io::Error::from(io::ErrorKind::WriteZero));
        }
        if result.is_err() {
            self.count_failure();
        }
        result
    }
}
