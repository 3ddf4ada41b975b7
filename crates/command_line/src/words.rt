//! The command line: the job that the words after the program's name ask for.
ghost use Rattle.std.specs.Prelude.{◌≡◌, Err, IfNone, IfOk, IfSome, IsOkAnd, IsSomeAnd, false, map, string_bytes};
ghost use Rattle.std.specs.Bool.{Decides};
ghost use Rattle.clap.specs.Words.{AddsSubcommand, FailsBy, app_of, fault_of, found_of, rows_of, rule_of, subcommand_of, subcommand_rows_of};
ghost use Rattle.clap.specs.declared.builder.command.Command.TheViews.{out-Command as fields_of};
ghost use Rattle.command_line.specs.CommandLine.{AsksForJob, AsksForNone, EmptiesScript, IsOneFile, IsPlainRun, IsRefusedBy, certificate_rule, check_app, explain_app, file_rule, flag_of, jobless_app, json_rule, page_rule, players_app, proof_rule, replay_app, run_app, runs_app, strict_rule, tellers_app, threads_app};

use clap::{Arg, ArgAction, ArgMatches, Command, Error};
use std::alloc::{AllocError, Global};

/// The version that `--version` tells: major and minor number, as in `c/mezulobu.h`.
const VERSION: &str = "1.6";

/// What a command line asks for, with the files that it names.
#[derive(Clone, Copy)]
pub enum Job<'a> {
    /// Replay a script and print its report, with `is_json` as JSON; with `proof` also write its
    /// certificate there.
    Run {
        file: &'a str,
        is_json: bool,
        proof: Option<&'a str>,
    },
    /// Replay a script with a thread for each of its actors.
    Threads {
        file: &'a str,
    },
    /// Say in words what a script's report means, or where the script has a fault, with `is_json`
    /// as JSON; with `page` also write it there as a page, and with `is_strict` tell by the exit
    /// status whether all went well.
    Explain {
        file: &'a str,
        is_json: bool,
        page: Option<&'a str>,
        is_strict: bool,
    },
    /// Test the certificate in `proof` against the script in `file`.
    Check {
        file: &'a str,
        proof: &'a str,
    },
}

/// Why words ask for no job.
#[derive(Drop)]
pub enum Refusal {
    /// The parser refuses them, by an error that has its text for the user, or they ask for help.
    Parser(Error),
    /// FILE and OUT are one word: the script would be emptied.
    OneFile,
}

/// Reads the words after the program's name. It answers a request for help by an error of the kind
/// `DisplayHelp`, one for the version by `DisplayVersion`, and want of memory by `OutOfMemory`. A
/// job whose FILE and OUT are one word is refused; whether two words name one file isn't looked at.
pub fn read_words<'a>(alloc: Global, words: &'a [String]) -> Result<Job<'a>, Refusal>
    ensures entries { IfOk result (λ job. IsSomeAnd (subcommand_of replay_app
        (map string_bytes words.entry.now))
        (λ entries. AsksForJob entries job × ¬ EmptiesScript entries)) }
    ensures kinds { IsRefusedBy (fault_of replay_app (map string_bytes words.entry.now)) result }
    ensures one_file { result ≡ Err Refusal.OneFile → IsSomeAnd (subcommand_of replay_app
        (map string_bytes words.entry.now)) EmptiesScript }
{
    match job_asked(alloc, words) {
        Ok(job) if is_one_file(&job) => Err(Refusal::OneFile),
        Ok(job) => Ok(job),
        Err(error) => Err(Refusal::Parser(error)),
    }
}

/// Whether a job would empty the script that it is to read.
fn is_one_file(job: &Job<'_>) -> bool
    ensures { Decides result (IsOneFile job.now) }
{
    match job {
        Job::Run {
            file,
            proof: Some(out),
            ..
        }
        | Job::Explain {
            file,
            page: Some(out),
            ..
        } => file == out,
        _ => false,
    }
}

/// The job that the words ask for, whichever files they name.
fn job_asked<'a>(alloc: Global, words: &'a [String]) -> Result<Job<'a>, Error>
    ensures entries { IfOk result (λ job. IsSomeAnd (subcommand_of replay_app
        (map string_bytes words.entry.now)) (λ entries. AsksForJob entries job)) }
    ensures kinds { FailsBy (fault_of replay_app (map string_bytes words.entry.now)) result }
{
    if let Some(file) = plain_run(words) {
        return Ok(Job::Run {
            file,
            is_json: false,
            proof: None,
        });
    }
    parse_words(alloc, words)
}

/// The file of the words `run FILE`, where it doesn't begin as an option does: what these ask for
/// is told without the parser.
fn plain_run<'a>(words: &'a [String]) -> Option<&'a str>
    ensures { IfSome result (λ file. IsPlainRun (map string_bytes words.entry.now) file.now) }
{
    let (job, others) = words.split_first()?;
    let (file, rest) = others.split_first()?;
    if job.as_str() != "run" || !rest.is_empty() || file.as_bytes().starts_with(b"-") {
        return None;
    }
    Some(file.as_str())
}

/// Reads the words by the parser.
fn parse_words<'a>(alloc: Global, words: &'a [String]) -> Result<Job<'a>, Error>
    ensures entries { IfOk result (λ job. IsSomeAnd (subcommand_of replay_app
        (map string_bytes words.entry.now)) (λ entries. AsksForJob entries job)) }
    ensures kinds { FailsBy (fault_of replay_app (map string_bytes words.entry.now)) result }
{
    let mut command = replay_command(alloc)?;
    let matches = command.try_get_matches_from_mut(words)?;
    match job_in(&matches) {
        Some(job) => Ok(job),
        None => unreachable!(),
    }
}

/// The job that the subcommand asks for, with its files.
fn job_in<'a>(matches: &ArgMatches<'a>) -> Option<Job<'a>>
    ensures some { IfSome result (λ job. IsSomeAnd (subcommand_rows_of matches.now)
        (λ entries. AsksForJob entries job)) }
    ensures none { IfNone result (IfSome (subcommand_rows_of matches.now) AsksForNone) }
{
    let (name, entries) = matches.subcommand()?;
    match name {
        "run" => {
            let file = entries.get_str("FILE")?;
            let proof = entries.get_str("proof");
            let is_json = is_set(entries, "json");
            Some(Job::Run {
                file,
                is_json,
                proof,
            })
        }
        "threads" => {
            let file = entries.get_str("FILE")?;
            Some(Job::Threads { file })
        }
        "explain" => {
            let file = entries.get_str("FILE")?;
            let page = entries.get_str("page");
            let is_json = is_set(entries, "json");
            let is_strict = is_set(entries, "strict");
            Some(Job::Explain {
                file,
                is_json,
                page,
                is_strict,
            })
        }
        "check" => {
            let file = entries.get_str("FILE")?;
            let proof = entries.get_str("PROOF")?;
            Some(Job::Check { file, proof })
        }
        _ => None,
    }
}

/// Whether a flag was given: the parser enters the text `true` for it, and else `false`.
fn is_set(entries: &ArgMatches<'_>, flag: &str) -> bool
    ensures { result ≡ flag_of flag.now (rows_of (found_of entries.now)) }
{
    match entries.get_str(flag) {
        Some(value) => value == "true",
        None => false,
    }
}

/// The program's command line, with a subcommand for each job.
fn replay_command<'a>(alloc: Global) -> Result<Command<'a>, AllocError>
    ensures { IfOk result (λ c. app_of c ≡ replay_app) }
{
    with_subcommand(command_of_tellers(alloc)?, check_command(alloc))
}

/// The same without `check`.
fn command_of_tellers<'a>(alloc: Global) -> Result<Command<'a>, AllocError>
    ensures { IfOk result (λ c. app_of c ≡ tellers_app) }
{
    with_subcommand(command_of_players(alloc)?, explain_command(alloc))
}

/// The same with the subcommands `run` and `threads` alone.
fn command_of_players<'a>(alloc: Global) -> Result<Command<'a>, AllocError>
    ensures { IfOk result (λ c. app_of c ≡ players_app) }
{
    with_subcommand(command_of_runs(alloc)?, threads_command(alloc))
}

/// The same with the subcommand `run` alone.
fn command_of_runs<'a>(alloc: Global) -> Result<Command<'a>, AllocError>
    ensures { IfOk result (λ c. app_of c ≡ runs_app) }
{
    with_subcommand(jobless_command(alloc)?, run_command(alloc))
}

/// The command, with the subcommand that was made for it. `AllocError` where memory to make it, or
/// to add it, is refused.
fn with_subcommand<'a>(
    command: Command<'a>,
    subcommand: Result<Command<'a>, AllocError>,
) -> Result<Command<'a>, AllocError>
    ensures { IfOk result (λ new. IsOkAnd subcommand.entry
        (λ sub. AddsSubcommand command.entry sub new)) }
{
    command.subcommand(subcommand?)
}

/// The command line with no subcommand.
fn jobless_command<'a>(alloc: Global) -> Result<Command<'a>, AllocError>
    ensures { IfOk result (λ c. app_of c ≡ jobless_app) }
{
    let command = Command::new(alloc, "sysmem_replay")
        .about(
            "Negotiates shared buffers for the calls of a script, by a profile of Fuchsia's sysmem",
        )
        .version(VERSION)
        .no_binary_name(true)
        .disable_help_subcommand(true)
        .subcommand_required(true);
    command.bin_name("sysmem_replay")
}

fn run_command<'a>(alloc: Global) -> Result<Command<'a>, AllocError>
    ensures app { IfOk result (λ c. app_of c ≡ run_app) }
    ensures local { IfOk result (λ c. (fields_of c).has_globals ≡ false) }
{
    Command::new(alloc, "run")
        .about("Replays a script, and prints a line for each call and each decision")
        .arg(file_arg(alloc))?
        .arg(json_arg(alloc))?
        .arg(out_arg(alloc))
}

fn threads_command<'a>(alloc: Global) -> Result<Command<'a>, AllocError>
    ensures app { IfOk result (λ c. app_of c ≡ threads_app) }
    ensures local { IfOk result (λ c. (fields_of c).has_globals ≡ false) }
{
    Command::new(alloc, "threads")
        .about("Replays a script with a thread for each actor, and prints a line for each domain")
        .arg(file_arg(alloc))
}

fn explain_command<'a>(alloc: Global) -> Result<Command<'a>, AllocError>
    ensures app { IfOk result (λ c. app_of c ≡ explain_app) }
    ensures local { IfOk result (λ c. (fields_of c).has_globals ≡ false) }
{
    Command::new(alloc, "explain")
        .about(
            "Says who is awaited or in the way, which field decided, or where the script is wrong",
        )
        .arg(file_arg(alloc))?
        .arg(json_arg(alloc))?
        .arg(strict_arg(alloc))?
        .arg(page_arg(alloc))
}

fn check_command<'a>(alloc: Global) -> Result<Command<'a>, AllocError>
    ensures app { IfOk result (λ c. app_of c ≡ check_app) }
    ensures local { IfOk result (λ c. (fields_of c).has_globals ≡ false) }
{
    Command::new(alloc, "check")
        .about(
            "Tests a certificate: prints yes and the number of its decisions, or the first that fails",
        )
        .arg(file_arg(alloc))?
        .arg(certificate_arg(alloc))
}

fn file_arg<'a>(alloc: Global) -> Arg<'a>
    ensures rule { rule_of result ≡ file_rule }
    ensures local { result.global ≡ false }
{
    Arg::new(alloc, "FILE").required(true).help(
        "A JSON script (- is standard input), of at most 4194304 bytes: a platform, and calls on it",
    )
}

/// The option `--proof`.
fn out_arg<'a>(alloc: Global) -> Arg<'a>
    ensures rule { rule_of result ≡ proof_rule }
    ensures local { result.global ≡ false }
{
    Arg::new(alloc, "proof")
        .long("proof")
        .value_name("OUT")
        .help("Also writes the certificate of the decisions to OUT, which is emptied first")
}

/// The flag `--json`.
fn json_arg<'a>(alloc: Global) -> Arg<'a>
    ensures rule { rule_of result ≡ json_rule }
    ensures local { result.global ≡ false }
{
    Arg::new(alloc, "json")
        .long("json")
        .action(ArgAction::SetTrue)
        .help("Prints an object of JSON for each line")
}

/// The flag `--strict`.
fn strict_arg<'a>(alloc: Global) -> Arg<'a>
    ensures rule { rule_of result ≡ strict_rule }
    ensures local { result.global ≡ false }
{
    Arg::new(alloc, "strict")
        .long("strict")
        .action(ArgAction::SetTrue)
        .help("Ends with status 6 where a call was refused or a domain isn't chosen")
}

/// The option `--page`.
fn page_arg<'a>(alloc: Global) -> Arg<'a>
    ensures rule { rule_of result ≡ page_rule }
    ensures local { result.global ≡ false }
{
    Arg::new(alloc, "page").long("page").value_name("OUT").help(
        "Also writes the explanation as a page of HTML to OUT, which is emptied first",
    )
}

fn certificate_arg<'a>(alloc: Global) -> Arg<'a>
    ensures rule { rule_of result ≡ certificate_rule }
    ensures local { result.global ≡ false }
{
    Arg::new(alloc, "PROOF").required(true).help(
        "A certificate of the script's decisions (- is standard input), of at most 4194304 bytes",
    )
}
