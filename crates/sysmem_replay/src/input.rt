//! What a script or a certificate is read from.
use script_run::RunFault;
use std::fs::{self, File};
use std::io::{self, Read, Stdin};
use std::os::unix::fs::MetadataExt;

/// The word that stands for standard input where a file is named.
pub(crate) const STDIN: &str = "-";

/// A file, or standard input.
#[derive(Drop)]
pub(crate) enum Input {
    File(File),
    Stdin(Stdin),
}

/// Opens what a word names.
pub(crate) fn open_input(rt: &HostRuntime, word: &str) -> Result<Input, RunFault> {
    if word == STDIN {
        return Ok(Input::Stdin(rt.stdin()));
    }
    match File::open(rt, word) {
        Ok(file) => Ok(Input::File(file)),
        Err(_) => Err(RunFault::Read),
    }
}

impl Read for Input {
    fn read(&mut self, buf: &mut [u8]) -> io::Result<usize> {
        match self {
            Input::File(file) => file.read(buf),
            Input::Stdin(stdin) => stdin.read(buf),
        }
    }
}

/// Whether two words name one file that can be emptied, also where one is a link to the other.
pub(crate) fn is_one_file(rt: &HostRuntime, one: &str, other: &str) -> bool {
    match (fs::metadata(rt, one), fs::metadata(rt, other)) {
        (Ok(one), Ok(other)) => {
            one.is_file() && one.dev() == other.dev() && one.ino() == other.ino()
        }
        _ => false,
    }
}
