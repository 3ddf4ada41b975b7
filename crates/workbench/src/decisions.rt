//! Does a job for the initial domain of a script as often as it is told, or several, one after the
//! other.
//!
//! - `read`: reading the bytes of the file as a JSON value. As the only job it reads nothing else,
//!   so the file needn't be a script.
//! - `search`: the search for the verdict.
//! - `together`: the same search by two workers.
//! - `add`: adding the participants of the selection that is found to a fresh aggregate; where none
//!   is, those of the first selection.
//! - `settle`: asking such an aggregate for its best settings.
//! - `prove`: making what proves the verdict.
//! - `check`: checking the verdict with its proof.
//! - `write`: writing the certificate of both.
//! - `serialise`: making the text of a `serde_json::Value` of the same, which is read once.
//! - `rows`: nothing; plays the lines of standard input once (`rows.rt`).
//!
//! Calls that are refused, checks and waits are passed over.

mod adding;
mod deciding;
mod writing;

use crate::failure::Failure;
use crate::handles::{all_stated, book_after};
use crate::rows::play_rows;
pub(crate) use adding::choose;
use adding::{add_again, settle_again};
use deciding::{check_again, prove_again, search_again, search_together_again};
use negotiation_inputs::Platform;
use script_reading::Script;
use serde_json::Value;
use std::alloc::Global;
use std::thread::Threads;
use sysmem_alloc::Book;
use sysmem_tree::Tree;
use writing::{serialise_again, write_again};

/// Does each of these jobs for a script of these bytes, so many times.
pub(crate) fn repeat_jobs<T: Threads + Sync>(
    rt: &HostRuntime,
    threads: &T,
    bytes: &[u8],
    script: Script<'_>,
    jobs: &str,
    times: u32,
) -> Result<(), Failure> {
    let Script { platform, calls } = script;
    let asked = all_stated(rt.alloc(), &calls)?;
    let book = book_after(rt.alloc(), platform, &calls, &asked)?;
    repeat_each(rt, threads, bytes, jobs, &book, times)
}

fn repeat_each<T: Threads + Sync>(
    rt: &HostRuntime,
    threads: &T,
    bytes: &[u8],
    jobs: &str,
    book: &Book,
    times: u32,
) -> Result<(), Failure> {
    for job in jobs.split(',') {
        match job {
            "read" => read_again(rt.alloc(), bytes, times)?,
            "rows" => play_rows(rt)?,
            _ => repeat(
                threads,
                rt.alloc(),
                job,
                book.platform(),
                book.tree(),
                times,
            )?,
        }
    }
    Ok(())
}

/// Reads the bytes as a JSON value so many times.
pub(crate) fn read_again(alloc: Global, bytes: &[u8], times: u32) -> Result<(), Failure> {
    for _ in 0..times {
        if Value::from_slice(alloc, bytes).is_err() {
            return Err(Failure::NotJson);
        }
    }
    Ok(())
}

/// Does the job of this name so many times.
fn repeat<R: Threads + Sync>(
    rt: &R,
    alloc: Global,
    job: &str,
    platform: &Platform,
    tree: &Tree,
    times: u32,
) -> Result<(), Failure> {
    match job {
        "search" => search_again(alloc, platform, tree, times),
        "together" => search_together_again(rt, alloc, platform, tree, times),
        "add" => add_again(alloc, platform, tree, times),
        "settle" => settle_again(alloc, platform, tree, times),
        "prove" => prove_again(alloc, platform, tree, times),
        "check" => check_again(alloc, platform, tree, times),
        "write" => write_again(alloc, platform, tree, times),
        "serialise" => serialise_again(alloc, platform, tree, times),
        _ => Err(Failure::NoSuchJob),
    }
}
