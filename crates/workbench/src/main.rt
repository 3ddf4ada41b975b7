//! What the tests and the bench run beside the program itself: plays scripts through handles, plays
//! actions on trees line by line, and does one thing again and again. No user calls it.
//!
//! - `decisions FILE JOBS TIMES` does jobs for the initial domain of a script, so many times, or
//!   once where no number is given (`decisions.rt`).
//! - `handles FILE` plays a script through handles, and prints what they answer (`handles.rt`).
//! - `handles FILE JOB TIMES` does a job of handles, so many times, or once.
//! - `records` writes the records of standard input again (`records.rt`).
//! - `rows` plays the lines of standard input on trees (`rows.rt`).
//!
//! One program has all, since each is read with all that it stands on for minutes before its own
//! functions are proved.
#![tactic(auto)]

mod decisions;
mod failure;
mod handles;
mod records;
mod rows;

use decisions::{read_again, repeat_jobs};
use failure::Failure;
use handles::{play_script, repeat_job};
use records::write_records;
use rows::play_rows;
use script_reading::{parse_script, read_script};
use std::sync::Wait;
use std::thread::Threads;
use std::time::Clock;
use std::{env, fs};

fn main(rt: HostRuntime) -> Result<(), Failure> {
    let mut words = Vec::new(rt.alloc());
    for word in env::args(&rt)? {
        words.push(word)?;
    }
    obey(&rt, &rt, &words)
}

/// Does what these words ask for, of which the first is the program's name.
fn obey<T: Threads + Wait + Clock + Sync>(
    rt: &HostRuntime,
    threads: &T,
    words: &[String],
) -> Result<(), Failure> {
    let (part, file, job) = (word(words, 1), word(words, 2), word(words, 3));
    if part == "records" {
        return write_records(rt);
    }
    if part == "rows" {
        return play_rows(rt);
    }
    let times = match word(words, 4) {
        "" => 1,
        number => times_of(number)?,
    };
    let bytes = fs::read(rt, file)?;
    if part == "decisions" && job == "read" {
        return read_again(rt.alloc(), &bytes, times);
    }
    use_script(rt, threads, &bytes, part, job, times)
}

/// The word at an index; an empty one where there is none.
fn word(words: &[String], index: usize) -> &str {
    match words.get(index) {
        Some(word) => word.as_str(),
        None => "",
    }
}

fn times_of(word: &str) -> Result<u32, Failure> {
    match word.parse::<u32>() {
        Ok(times) => Ok(times),
        Err(_) => Err(Failure::Usage),
    }
}

/// Does what these words ask for, for the script of these bytes.
fn use_script<T: Threads + Wait + Clock + Sync>(
    rt: &HostRuntime,
    threads: &T,
    bytes: &[u8],
    part: &str,
    job: &str,
    times: u32,
) -> Result<(), Failure> {
    let Ok(value) = parse_script(rt.alloc(), bytes) else {
        return Err(Failure::Script);
    };
    let Ok(script) = read_script(rt.alloc(), &value) else {
        return Err(Failure::Script);
    };
    match part {
        "decisions" => repeat_jobs(rt, threads, bytes, script, job, times),
        "handles" if job.is_empty() => play_script(rt, threads, script),
        "handles" => repeat_job(rt, threads, script, job, times),
        _ => Err(Failure::Usage),
    }
}
