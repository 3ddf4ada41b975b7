//! Which calls are failures: no clause of std's readers and writers says that a call failed.
ghost use Rattle.std.specs.Prelude.{◌≤◌, IfOk};

use crate::equal::is_equal;
use byte_transfer::{Counted, Sink, Source};
use std::io::{self, ErrorKind, Read, Write};

// Answers its calls in turn, with a count of bytes or an error, and then with 0.
#[derive(Drop)]
struct ScriptedAnswers<'a> {
    answers: &'a [Option<usize>],
}

impl ScriptedAnswers<'_> {
    fn answer(&mut self, most: usize) -> io::Result<usize>
        ensures { IfOk result (λ count. count ≤ most) }
    {
        let Some((answer, rest)) = self.answers.split_first() else {
            return Ok(0);
        };
        self.answers = rest;
        match answer {
            Some(count) => Ok(most.min(*count)),
            None => Err(io::Error::from(ErrorKind::Interrupted)),
        }
    }
}

impl Read for ScriptedAnswers<'_> {
    fn read(&mut self, buf: &mut [u8]) -> io::Result<usize> {
        let count = self.answer(buf.len())?;
        buf[..count].fill(7);
        Ok(count)
    }
}

impl Write for ScriptedAnswers<'_> {
    fn write(&mut self, buf: &[u8]) -> io::Result<usize> {
        self.answer(buf.len())
    }

    fn flush(&mut self) -> io::Result<()> {
        Ok(())
    }
}

const ANSWERS: &[Option<usize>] = &[Some(3), None, Some(0), None, Some(9)];

// What is answered, the bytes of the buffer then, and how many reads have failed. After the
// greatest count the next failure still gives another one.
const READS: [(Result<usize, ErrorKind>, [u8; 4], u64); 6] = [
    (Ok(3), [7, 7, 7, 0], u64::MAX),
    (Err(ErrorKind::Interrupted), [0; 4], 0),
    (Ok(0), [0; 4], 0),
    (Err(ErrorKind::Interrupted), [0; 4], 1),
    (Ok(4), [7; 4], 1),
    (Ok(0), [0; 4], 1),
];

#[test]
fn counts_errors_of_a_reader_and_gives_what_it_gave(rt: HostRuntime) {
    let mut reader = Counted {
        inner: ScriptedAnswers { answers: ANSWERS },
        failures: u64::MAX,
    };
    for (given, bytes, failures) in READS {
        let mut buf = [0; 4];
        let answered = Source::read(&mut reader, &mut buf).map_err(|error| error.kind());
        let found = (answered, buf, reader.failures);
        is_equal(&rt, "read", &found, &(given, bytes, failures));
    }
}

// What is written, what that answers, and how many writes have failed: of no byte there is none to
// take.
const WRITES: [(&[u8], Result<usize, ErrorKind>, u64); 7] = [
    (b"four", Ok(3), 0),
    (b"four", Err(ErrorKind::Interrupted), 1),
    (b"four", Err(ErrorKind::WriteZero), 2),
    (b"four", Err(ErrorKind::Interrupted), 3),
    (b"four", Ok(4), 3),
    (b"four", Err(ErrorKind::WriteZero), 4),
    (b"", Ok(0), 4),
];

#[test]
fn counts_errors_and_empty_writes_of_a_writer(rt: HostRuntime) {
    let mut writer = Counted::new(ScriptedAnswers { answers: ANSWERS });
    for (bytes, taken, failures) in WRITES {
        let answered = Sink::write(&mut writer, bytes).map_err(|error| error.kind());
        let found = (answered, writer.failures);
        is_equal(&rt, "write", &found, &(taken, failures));
    }
}
