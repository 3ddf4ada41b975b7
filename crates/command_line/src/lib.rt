//! The command line of `sysmem_replay`: the job that the words after the program's name ask for,
//! as clap reads them.
//!
//! ```
//! match read_words(rt.alloc(), &words) {
//!     Ok(Job::Run { file, proof, .. }) => println!(&rt; "run {file}, {proof:?}"),
//!     Ok(Job::Threads { file }) => println!(&rt; "threads {file}"),
//!     Ok(Job::Explain { file, page, .. }) => println!(&rt; "explain {file}, {page:?}"),
//!     Ok(Job::Check { file, proof }) => println!(&rt; "check {file}, {proof}"),
//!     Err(Refusal::OneFile) => eprintln!(&rt; "FILE and OUT are the same file"),
//!     Err(Refusal::Parser(error)) => error.print(&rt),
//! }
//! ```
#![tactic(auto)]

mod words;

pub use words::{Job, Refusal, read_words};
