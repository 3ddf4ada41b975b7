//! Plays a script through the handles of one collection, on one thread, and prints what they
//! answer; and does a job of handles as often as it is told.
//!
//! Each call has the line that it has in the program's report. A call that is refused for want of
//! memory is made once more, and has a second line then. `wait` waits where there is a verdict, and
//! else asks as `check` does. After the calls each collection that is still open has a line: what
//! it is shown, in the words of a domain's line, and what the checker says of that. Then all
//! handles are closed, and the last line is the audit's. A job prints nothing but where it says so.
//!
//! - `script`: playing the calls once, and printing what happened as a script, of the moment before
//!   the handles are closed (`happened.rt`).
//! - `handles`: playing the calls through the handles of a new collection, and closing these.
//! - `audited`: the same, and an audit of what is left.
//! - `book`: applying the calls to a new book, without a decision.
//! - `decided`: the same, and deciding each domain that waits, by a search and its proof
//!   (`settling.rt`).
//! - `calls`: the calls of participants of a new collection, one for each `set_constraints` of the
//!   script (`taking.rt`).
//! - `applied`: the same calls on a new book.
//! - `alone`: the calls of 126 participants of a new collection, on one thread (`crowding.rt`); how
//!   many nanoseconds they take is printed.
//! - `crowd`: the same, shared out among 16 threads that begin together.
//! - `refused_alone`: the same as `alone`, once, with so many calls more of each participant that
//!   are refused.
//! - `refused_crowd`: the same on 16 threads.

mod crowding;
mod ending;
mod hand;
mod happened;
mod naming;
mod playing;
mod repeating;
mod script;
mod settling;
mod showing;
mod taking;
mod tokens;

use crate::failure::Failure;
use crowding::{Crowd, crowd_on};
use happened::script_after;
use negotiation_inputs::{Constraints, Platform};
pub(crate) use repeating::book_after;
use repeating::{repeat_book, repeat_handles};
pub(crate) use script::all_stated;
use script::report_of;
use script_reading::Script;
use settling::repeat_decided;
use std::alloc::Global;
use std::io::{self, Write};
use std::sync::{Arc, Wait};
use std::thread::Threads;
use std::time::Clock;
use taking::{all_asked, apply_again, take_again};

/// Plays a script, and prints what the handles answer.
pub(crate) fn play_script<R: Threads + Wait + Sync>(
    host: &HostRuntime,
    rt: &R,
    script: Script<'_>,
) -> Result<(), Failure> {
    let report = report_of(rt, host.alloc(), script)?;
    print!(host; "{report}")?;
    Ok(())
}

/// Plays a script, and prints what happened as a script.
fn print_script<R: Threads + Wait + Sync>(
    host: &HostRuntime,
    rt: &R,
    script: Script<'_>,
) -> Result<(), Failure> {
    let text = script_after(rt, host.alloc(), script)?;
    io::writer(host).write_all(&text)?;
    Ok(())
}

/// Does the job of this name for a script, so many times.
pub(crate) fn repeat_job<R: Threads + Wait + Clock + Sync>(
    host: &HostRuntime,
    rt: &R,
    script: Script<'_>,
    job: &str,
    times: u32,
) -> Result<(), Failure> {
    let alloc = host.alloc();
    if job == "script" {
        return print_script(host, rt, script);
    }
    let Script { platform, calls } = script;
    let asked = all_stated(alloc, &calls)?;
    match job {
        "handles" => return repeat_handles(rt, alloc, platform, &calls, &asked, false, times),
        "audited" => return repeat_handles(rt, alloc, platform, &calls, &asked, true, times),
        "book" => return Ok(repeat_book(alloc, &platform, &calls, &asked, times)?),
        "decided" => return repeat_decided(alloc, &platform, &calls, &asked, times),
        _ => {}
    }
    let asked = all_asked(alloc, asked)?;
    match job {
        "calls" => return take_again(rt, alloc, platform, &asked, times),
        "applied" => return Ok(apply_again(alloc, &platform, &asked, times)?),
        _ => {}
    }
    let nanos = crowd(rt, alloc, platform, &asked, job, times)?;
    println!(host; "{nanos}")?;
    Ok(())
}

/// How many nanoseconds the calls of 126 participants take, who ask for what the first asks for.
fn crowd<R: Threads + Wait + Clock + Sync>(
    rt: &R,
    alloc: Global,
    platform: Platform,
    asked: &[Arc<Constraints>],
    job: &str,
    times: u32,
) -> Result<u64, Failure> {
    let Some(asked) = asked.first() else {
        return Err(Failure::NobodyAsks);
    };
    let (threads, collections, refused) = match job {
        "alone" => (1, times, 0),
        "crowd" => (16, times, 0),
        "refused_alone" => (1, 1, times),
        "refused_crowd" => (16, 1, times),
        _ => return Err(Failure::NoSuchJob),
    };
    let crowd = Crowd {
        asked,
        threads,
        refused,
    };
    crowd_on(rt, alloc, platform, &crowd, collections)
}
