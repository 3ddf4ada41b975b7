//! A certificate's check, from the bytes of a script and of a certificate to the answer that is
//! written.

ghost use Rattle.std.specs.Prelude.{◌≡◌, ◌≢◌, Err, IfErr, IfOk, map};
ghost use Rattle.std.specs.String.{string_bytes};
ghost use Rattle.serde_json.specs.View.{view};
ghost use Rattle.script_reading.specs.Seen.{script_seen};
ghost use Rattle.script_check.specs.Checked.{Answers, too_many};
ghost use Rattle.script_check.specs.CheckedFile.{AnswersIn, ChecksTo, HasChecked, IsRefusal, IsScriptFault, IsUnchecked, IsValueOf, answer_text, no_text};
ghost use Rattle.script_replay.specs.Lines.{Puts};
ghost use Rattle.script_run.specs.Run.{IsCausedBy, both_counts};

use crate::checking::Checking;
use byte_transfer::{Sink, Source, read_up_to_limit, write_fully};
use script_reading::{LONGEST, ParseFault, Script, parse_script, read_script};
use script_replay::{Objection, Stop, put_path, report_of};
use script_run::{RunFault, RunOutcome};
use serde_json::Value;
use std::alloc::{AllocError, Global};
use std::fmt::Write;
use sysmem_tree::Path;
use verdict_claims::No;

/// What a check of a certificate says.
#[derive(Drop)]
pub enum CheckAnswer {
    /// Each object is accepted, and there is one for each decision.
    Yes,
    /// The first that isn't.
    No(Objection),
}

/// What a check says, and the line in which it says so.
#[derive(Drop)]
pub struct CheckReply {
    pub answer: CheckAnswer,
    pub text: String,
}

/// Reads a script and then a certificate, makes the script's calls with the certificate's objects
/// as decisions, and writes `yes N` where a check says yes to each of the N objects, or `no Nk
/// domain PATH` for the first to which it doesn't.
///
/// The script is read and tested first: where that fails, nothing is read of the certificate. That
/// is refused (`Proof`) where it is longer than 4,194,304 bytes, no JSON or no list. Any failure of
/// a reader is the fault `Read`, and any of the writer the fault `Write`; what was written then is
/// a prefix of the answer. After any other fault nothing was written.
pub fn check_file<R: Source, Q: Source, W: Sink>(
    alloc: Global,
    reader: &mut R,
    proof: &mut Q,
    writer: &mut W,
) -> Result<RunOutcome, RunFault>
    ensures checked { HasChecked result (R.remaining reader.old) (Q.remaining proof.old)
        (W.contents writer.old) (W.contents writer.new) }
    ensures read_fault { IsCausedBy (result ≡ Err RunFault.Read)
        (both_counts (R.failures reader.old) (Q.failures proof.old))
        (both_counts (R.failures reader.new) (Q.failures proof.new)) }
    ensures write_fault { IsCausedBy (result ≡ Err RunFault.Write)
        (W.failures writer.old) (W.failures writer.new) }
    ensures reader_first { R.failures reader.new ≢ R.failures reader.old → proof.new ≡ proof.old }
    ensures script_first { IsScriptFault result → proof.new ≡ proof.old }
{
    let bytes = read_up_to_limit(alloc, reader, LONGEST)?;
    let value = parse_script(alloc, &bytes)?;
    let script = read_script(alloc, &value)?;
    let certificate = read_up_to_limit(alloc, proof, LONGEST)?;
    let answered = answer_to(alloc, &script, &certificate)?;
    write_fully(writer, answered.text.as_bytes())?;
    match answered.answer {
        CheckAnswer::Yes => Ok(RunOutcome::Done),
        CheckAnswer::No(_) => Ok(RunOutcome::CheckedNo),
    }
}

/// `check_file` of bytes that are there. The script is read and tested first. The fault is the
/// script's, or `Proof` where the certificate is longer than 4,194,304 bytes, no JSON or no list,
/// or that memory was refused.
pub fn check_of_bytes(
    alloc: Global,
    script: &[u8],
    certificate: &[u8],
) -> Result<CheckReply, RunFault>
    ensures answer { IfOk result (λ reply.
        ChecksTo script.now certificate.now reply.answer (string_bytes reply.text)) }
    ensures fault { IfErr result (IsUnchecked script.now certificate.now) }
{
    let value = parse_script(alloc, script)?;
    let script = read_script(alloc, &value)?;
    answer_to(alloc, &script, certificate)
}

/// What the bytes of a certificate answer for a script.
fn answer_to(alloc: Global, script: &Script<'_>, certificate: &[u8]) -> Result<CheckReply, RunFault>
    ensures answer { IfOk result (λ answered. AnswersIn (script_seen script.now)
        certificate.now answered.answer (string_bytes answered.text)) }
    ensures fault { IfErr result (IsRefusal certificate.now) }
{
    let value = parse_certificate(alloc, certificate)?;
    let Some(objects) = value.as_array() else {
        return Err(RunFault::Proof);
    };
    let Ok(answer) = check_objects(alloc, script, objects) else {
        return Err(RunFault::NoMemory);
    };
    let Ok(text) = answer_text(alloc, &answer, objects.len()) else {
        return Err(RunFault::NoMemory);
    };
    Ok(CheckReply { answer, text })
}

/// The value that the bytes of a certificate spell.
fn parse_certificate(alloc: Global, bytes: &[u8]) -> Result<Value, RunFault>
    ensures value { IfOk result (λ value. IsValueOf bytes.now (view value)) }
    ensures fault { IfErr result (IsRefusal bytes.now) }
{
    match parse_script(alloc, bytes) {
        Ok(value) => Ok(value),
        Err(ParseFault::NoMemory) => Err(RunFault::NoMemory),
        Err(ParseFault::Refused(_)) => Err(RunFault::Proof),
    }
}

/// What objects answer for a script.
fn check_objects(
    alloc: Global,
    script: &Script<'_>,
    objects: &[Value],
) -> Result<CheckAnswer, AllocError>
    ensures { IfOk result (Answers (script_seen script.now).platform
        (script_seen script.now).calls (map view objects.now)) }
{
    let platform = script.platform.copy()?;
    let mut checking = Checking::new(objects);
    match report_of(alloc, platform, &script.calls, &mut checking) {
        Ok(report) if report.starved => Err(AllocError),
        Ok(_) if checking.taken() < objects.len() => Ok(one_too_many(alloc)),
        Ok(_) => Ok(CheckAnswer::Yes),
        Err(Stop::Refused(objection)) => Ok(CheckAnswer::No(objection)),
        Err(Stop::NoMemory) => Err(AllocError),
    }
}

/// The answer where an object is left after the last decision.
fn one_too_many(alloc: Global) -> CheckAnswer
    ensures { result ≡ too_many }
{
    CheckAnswer::No(Objection {
        no: No::WrongShape,
        path: Path::new(Vec::new(alloc)),
    })
}

/// The text of an answer about so many objects.
fn answer_text(alloc: Global, answer: &CheckAnswer, many: usize) -> Result<String, AllocError>
    ensures { IfOk result (λ text. string_bytes text ≡ answer_text answer.now many) }
{
    let mut text = String::new(alloc);
    match answer {
        CheckAnswer::Yes => writeln!(text, "yes {many}")?,
        CheckAnswer::No(objection) => put_no(&mut text, objection)?,
    }
    Ok(text)
}

/// Puts `no N2 domain /0` after the text, with a newline.
fn put_no(text: &mut String, objection: &Objection) -> Result<(), AllocError>
    ensures { Puts result text.old text.new (answer_text (CheckAnswer.No objection.now) 0) }
{
    let name = no_name(objection.no);
    write!(text, "no {name} ")?;
    put_path(text, &objection.path)?;
    text.push_str("\n")
}

/// The name of a test that fails.
fn no_name(no: No) -> &'static str
    ensures { result.now ≡ no_text no }
{
    match no {
        No::WrongShape => "N1",
        No::WrongNode => "N2",
        No::NoConflict => "N3",
        No::NotMet => "N4",
        No::Missing => "N5",
        No::NotLeast => "N6",
    }
}
