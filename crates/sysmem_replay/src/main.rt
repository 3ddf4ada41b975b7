//! `sysmem_replay run FILE` replays a script of calls on shared buffer collections and prints its
//! report, with `--json` as an object of JSON for each line; with `--proof OUT` it also writes the
//! certificate of its decisions.
//! `sysmem_replay threads FILE` replays it with a thread for each actor, and prints what became of
//! each domain.
//! `sysmem_replay explain FILE` says what a script means: where it has a fault, or what its report
//! comes from, with `--json` as an object of JSON for each item; with `--page OUT` it also writes
//! that as a page of HTML, and with `--strict` the exit status tells whether all went well.
//! `sysmem_replay check FILE PROOF` tests such a certificate.
//! Where FILE or PROOF is `-`, it is standard input.
#![tactic(auto)]

mod input;
mod refusal;

use byte_transfer::{Counted, Sink, Source};
use clap::Error;
pub use command_line::{Job, Refusal, read_words};
pub use explain::{
    Outcome, explain_as_json, explain_as_json_to_page, explain_file, explain_to_page,
    explained_ending,
};
use input::{STDIN, is_one_file, open_input};
use refusal::refusal_ending;
pub use report_json::{run_as_json, run_as_json_with_proof};
pub use script_check::check_file;
pub use script_run::{
    Ending, RunFault, RunOutcome, ending_of, run, run_leaving, run_with_proof,
    run_with_proof_leaving,
};
pub use script_threads::run_threads;
use std::alloc::Global;
use std::fs::File;
use std::process::ExitCode;
use std::sync::Wait;
use std::thread::Threads;
use std::{env, io, mem};

fn main(rt: HostRuntime) -> ExitCode {
    let ending = match given_words(&rt) {
        Ok(words) => obey(&rt, &rt, words.as_slice()),
        Err(ending) => ending,
    };
    if let Some(fault) = ending.fault {
        let _unsaid = eprintln!(rt; "{fault}");
    }
    ExitCode::from(ending.status)
}

/// The words after the program's name.
fn given_words(rt: &HostRuntime) -> Result<Vec<String>, Ending> {
    let mut words = match env::args(rt) {
        Ok(words) => words,
        Err(error) => return Err(unread_words(rt, error.kind())),
    };
    let _program = words.next();
    let mut given = Vec::new(rt.alloc());
    for word in words {
        if given.push(word).is_err() {
            return Err(ending_of(Err(RunFault::NoMemory)));
        }
    }
    Ok(given)
}

/// What is told where a file would be emptied before it is read.
const ONE_FILE: &str = "FILE and OUT are the same file, which would be emptied";

/// Does what the words ask for; only `threads` starts any.
fn obey<T: Threads + Wait + Sync>(rt: &HostRuntime, threads: &T, words: &[String]) -> Ending {
    let job = match read_words(rt.alloc(), words) {
        Ok(job) => job,
        Err(Refusal::Parser(error)) => return tell(rt, &error),
        Err(Refusal::OneFile) => return refuse(rt, ONE_FILE),
    };
    match refused_files(rt, job) {
        Some(why) => refuse(rt, why),
        None => done(rt, threads, job),
    }
}

/// Why a job's files are refused before one is opened: one would be emptied, or read twice.
fn refused_files(rt: &HostRuntime, job: Job<'_>) -> Option<&'static str> {
    match job {
        Job::Run {
            file,
            proof: Some(out),
            ..
        }
        | Job::Explain {
            file,
            page: Some(out),
            ..
        } if is_one_file(rt, file, out) => Some(ONE_FILE),
        Job::Check { file, proof } if file == STDIN && proof == STDIN => {
            Some("FILE and PROOF are both standard input")
        }
        _ => None,
    }
}

/// Does a job, and tells how it ended.
fn done<T: Threads + Wait + Sync>(rt: &HostRuntime, threads: &T, job: Job<'_>) -> Ending {
    match job {
        Job::Run {
            file,
            is_json: true,
            proof,
        } => ending_of(tell_file(rt, file, proof)),
        Job::Run { file, proof, .. } => ending_of(run_file(rt, file, proof)),
        Job::Threads { file } => ending_of(play_file(rt, threads, file)),
        Job::Explain {
            file,
            is_json: true,
            page,
            is_strict,
        } => explained_ending(tell_script(rt, file, page), is_strict),
        Job::Explain {
            file,
            page,
            is_strict,
            ..
        } => explained_ending(explain_script(rt, file, page), is_strict),
        Job::Check { file, proof } => ending_of(check_files(rt, file, proof)),
    }
}

/// Tells why the words ask for no job, as the parser has it.
fn tell(rt: &HostRuntime, error: &Error) -> Ending {
    let ending = refusal_ending(error.kind());
    if ending.fault.is_some() {
        return ending;
    }
    match error.print(rt) {
        Err(_) if !error.use_stderr() => ending_of(Err(RunFault::Write)),
        _ => ending,
    }
}

/// Opens the script, then empties the certificate's file where one is asked for, and replays.
fn run_file(rt: &HostRuntime, file: &str, proof: Option<&str>) -> Result<RunOutcome, RunFault> {
    let script = open_input(rt, file)?;
    let mut reader = Counted::new(script);
    let mut writer = Counted::new(io::writer(rt));
    let Some(out) = proof else {
        return run_last(rt.alloc(), &mut reader, &mut writer);
    };
    let Ok(certificate) = File::create(rt, out) else {
        return Err(RunFault::Write);
    };
    let mut certificate = Counted::new(certificate);
    prove_last(rt.alloc(), &mut reader, &mut writer, &mut certificate)
}

/// Replays, and leaves the script's value to the end of the process.
fn run_last<R: Source, W: Sink>(
    alloc: Global,
    reader: &mut R,
    writer: &mut W,
) -> Result<RunOutcome, RunFault> {
    let mut left = None;
    let ended = run_leaving(alloc, reader, writer, &mut left);
    mem::forget(left);
    ended
}

/// The same with a certificate.
fn prove_last<R: Source, W: Sink, P: Sink>(
    alloc: Global,
    reader: &mut R,
    writer: &mut W,
    proof: &mut P,
) -> Result<RunOutcome, RunFault> {
    let mut left = None;
    let ended = run_with_proof_leaving(alloc, reader, writer, proof, &mut left);
    mem::forget(left);
    ended
}

/// Opens the script, then empties the certificate's file where one is asked for, replays, and
/// writes the objects of the report.
fn tell_file(rt: &HostRuntime, file: &str, proof: Option<&str>) -> Result<RunOutcome, RunFault> {
    let script = open_input(rt, file)?;
    let mut reader = Counted::new(script);
    let mut writer = Counted::new(io::writer(rt));
    let Some(out) = proof else {
        return run_as_json(rt.alloc(), &mut reader, &mut writer);
    };
    let Ok(certificate) = File::create(rt, out) else {
        return Err(RunFault::Write);
    };
    let mut certificate = Counted::new(certificate);
    run_as_json_with_proof(rt.alloc(), &mut reader, &mut writer, &mut certificate)
}

/// Opens the script, and replays it with a thread for each actor.
fn play_file<T: Threads + Wait + Sync>(
    rt: &HostRuntime,
    threads: &T,
    file: &str,
) -> Result<RunOutcome, RunFault> {
    let script = open_input(rt, file)?;
    let mut reader = Counted::new(script);
    let mut writer = Counted::new(io::writer(rt));
    run_threads(threads, rt.alloc(), &mut reader, &mut writer)
}

/// The name of a script in its explanation.
fn shown(file: &str) -> &str {
    if file == STDIN { "<stdin>" } else { file }
}

/// Opens the script, then empties the page's file where one is asked for, and explains it.
fn explain_script(rt: &HostRuntime, file: &str, page: Option<&str>) -> Result<Outcome, RunFault> {
    let script = open_input(rt, file)?;
    let mut reader = Counted::new(script);
    let mut writer = Counted::new(io::writer(rt));
    let Some(out) = page else {
        return explain_file(rt.alloc(), shown(file), &mut reader, &mut writer);
    };
    let Ok(page) = File::create(rt, out) else {
        return Err(RunFault::Write);
    };
    let mut page = Counted::new(page);
    explain_to_page(rt.alloc(), shown(file), &mut reader, &mut writer, &mut page)
}

/// Opens the script, then empties the page's file where one is asked for, explains it, and writes
/// the objects of the explanation.
fn tell_script(rt: &HostRuntime, file: &str, page: Option<&str>) -> Result<Outcome, RunFault> {
    let script = open_input(rt, file)?;
    let mut reader = Counted::new(script);
    let mut writer = Counted::new(io::writer(rt));
    let Some(out) = page else {
        return explain_as_json(rt.alloc(), shown(file), &mut reader, &mut writer);
    };
    let Ok(page) = File::create(rt, out) else {
        return Err(RunFault::Write);
    };
    let mut page = Counted::new(page);
    explain_as_json_to_page(rt.alloc(), shown(file), &mut reader, &mut writer, &mut page)
}

/// Opens the script and then the certificate, and tests that.
fn check_files(rt: &HostRuntime, file: &str, proof: &str) -> Result<RunOutcome, RunFault> {
    let script = open_input(rt, file)?;
    let certificate = open_input(rt, proof)?;
    let mut reader = Counted::new(script);
    let mut proof = Counted::new(certificate);
    let mut writer = Counted::new(io::writer(rt));
    check_file(rt.alloc(), &mut reader, &mut proof, &mut writer)
}

fn unread_words(rt: &HostRuntime, kind: io::ErrorKind) -> Ending {
    if kind == io::ErrorKind::OutOfMemory {
        return ending_of(Err(RunFault::NoMemory));
    }
    refuse(rt, "the command line is not UTF-8")
}

/// Tells why words are refused of which the parser says nothing.
fn refuse(rt: &HostRuntime, why: &str) -> Ending {
    let _unsaid = eprintln!(rt; "error: {why}");
    Ending {
        status: 2,
        fault: None,
    }
}
