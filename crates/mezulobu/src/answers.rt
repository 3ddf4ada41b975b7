//! What the bytes of a script say, and those of a certificate.

ghost use Rattle.std.specs.Prelude.{◌≡◌, ℕ, List, false, IfErr, IfOk, IsOk, IsOkAnd};
ghost use Rattle.std.specs.String.{string_bytes};
ghost use Rattle.certificate_pieces.specs.Texts.{pieces_text};
ghost use Rattle.script_check.specs.CheckedFile.{ChecksTo, IsUnchecked};
ghost use Rattle.script_reading.specs.Faults.{GivesOneOf};
ghost use Rattle.script_replay.specs.Outcome.{RunsTo, report_seen};
ghost use Rattle.mezulobu.specs.Says.{CheckSays, ProvedRunSays, RunSays, check_status};
ghost use Rattle.mezulobu.specs.Words.{refusal_words};

use crate::words::refusal_words;
use byte_transfer::Counted;
use certificate_pieces::CertificatePieces;
use live_calls::{DONE, NO, REFUSED};
use script_check::{CheckAnswer, CheckReply, check_of_bytes};
use script_reading::{ParseFault, ScriptFault};
use script_replay::Report;
use script_run::{CertifiedReport, RunFault, certified_of_bytes, report_of_bytes};
use std::alloc::{AllocError, Global};

/// A status, and the text for the caller.
#[derive(Drop)]
pub(crate) struct Answer {
    pub status: u32,
    pub text: Vec<u8>,
}

/// The same with a certificate.
#[derive(Drop)]
pub(crate) struct CertifiedAnswer {
    pub status: u32,
    pub text: Vec<u8>,
    pub certificate: Vec<u8>,
}

/// What a run says. It fails where memory is refused.
pub(crate) fn run_answer(alloc: Global, script: &[u8]) -> Result<Answer, AllocError>
    ensures { IfOk result (λ answer. RunSays script.now answer.status answer.text.items) }
{
    answer_of_run(alloc, report_of_bytes(alloc, script))
}

/// What a run says, with its certificate. It fails where memory is refused.
pub(crate) fn proved_run_answer(alloc: Global, script: &[u8]) -> Result<CertifiedAnswer, AllocError>
    ensures { IfOk result (λ answer.
        ProvedRunSays script.now answer.status answer.text.items answer.certificate.items) }
{
    match certified_of_bytes(alloc, script) {
        Ok(
            CertifiedReport {
                report,
                certificate,
            },
        ) => answer_of_certified(report, bytes_of(alloc, certificate)?),
        Err(ParseFault::Refused(fault)) => Ok(CertifiedAnswer {
            status: REFUSED,
            text: fault_words(alloc, fault)?,
            certificate: Vec::new(alloc),
        }),
        Err(ParseFault::NoMemory) => Err(AllocError),
    }
}

/// What a check says. It fails where memory is refused.
pub(crate) fn check_answer(
    alloc: Global,
    script: &[u8],
    certificate: &[u8],
) -> Result<Answer, AllocError>
    ensures { IfOk result (λ answer.
        CheckSays script.now certificate.now answer.status answer.text.items) }
{
    answer_of_check(alloc, check_of_bytes(alloc, script, certificate))
}

/// A report in which memory wasn't refused is told without more memory.
#[tactic(auto, using(crate::proofs::Sayings::run_done, crate::proofs::Sayings::run_refused))]
fn answer_of_run(alloc: Global, outcome: Result<Report, ParseFault>) -> Result<Answer, AllocError>
    ensures says { (script : List ℕ) → GivesOneOf report_seen outcome (RunsTo script)
        → IfOk result (λ answer. RunSays script answer.status answer.text.items) }
    ensures done { IfOk outcome (λ report. report.starved ≡ false
        → IsOkAnd result (λ answer. answer.status ≡ 0)) }
{
    match outcome {
        Ok(report) => {
            if report.starved {
                return Err(AllocError);
            }
            Ok(Answer {
                status: DONE,
                text: report.text.into_bytes(),
            })
        }
        Err(ParseFault::Refused(fault)) => Ok(Answer {
            status: REFUSED,
            text: fault_words(alloc, fault)?,
        }),
        Err(ParseFault::NoMemory) => Err(AllocError),
    }
}

/// A report in which memory wasn't refused is told with its certificate, without more memory.
fn answer_of_certified(report: Report, certificate: Vec<u8>) -> Result<CertifiedAnswer, AllocError>
    ensures fed { IfOk result (λ answer. report.starved ≡ false) }
    ensures text { IfOk result (λ answer. answer.text.items ≡ string_bytes report.text) }
    ensures certificate { IfOk result (λ answer. answer.certificate.items ≡ certificate.items) }
    ensures status { IfOk result (λ answer. answer.status ≡ 0) }
    ensures done { report.starved ≡ false → IsOk result }
{
    if report.starved {
        return Err(AllocError);
    }
    Ok(CertifiedAnswer {
        status: DONE,
        text: report.text.into_bytes(),
        certificate,
    })
}

/// The bytes of a certificate.
fn bytes_of(alloc: Global, certificate: CertificatePieces) -> Result<Vec<u8>, AllocError>
    ensures { IfOk result (λ bytes. bytes.items ≡ pieces_text certificate) }
{
    let mut bytes = Counted::new(Vec::new(alloc));
    match certificate.write(&mut bytes) {
        Ok(()) => Ok(bytes.inner),
        Err(_) => Err(AllocError),
    }
}

/// An answer of a check is told without more memory.
#[tactic(auto, using(crate::proofs::Sayings::check_yes, crate::proofs::Sayings::check_no, crate::proofs::Sayings::check_refused, crate::proofs::Sayings::check_unread))]
fn answer_of_check(
    alloc: Global,
    outcome: Result<CheckReply, RunFault>,
) -> Result<Answer, AllocError>
    ensures says { (script certificate : List ℕ)
        → IfOk outcome (λ reply. ChecksTo script certificate reply.answer (string_bytes reply.text))
        → IfErr outcome (IsUnchecked script certificate)
        → IfOk result (λ answer. CheckSays script certificate answer.status answer.text.items) }
    ensures done { IfOk outcome (λ reply.
        IsOkAnd result (λ answer. answer.status ≡ check_status reply.answer)) }
{
    match outcome {
        Ok(
            CheckReply {
                answer: CheckAnswer::Yes,
                text,
            },
        ) => Ok(Answer {
            status: DONE,
            text: text.into_bytes(),
        }),
        Ok(
            CheckReply {
                answer: CheckAnswer::No(_),
                text,
            },
        ) => Ok(Answer {
            status: NO,
            text: text.into_bytes(),
        }),
        Err(RunFault::Script(fault)) => Ok(Answer {
            status: REFUSED,
            text: fault_words(alloc, fault)?,
        }),
        Err(RunFault::Proof) => Ok(Answer {
            status: REFUSED,
            text: Vec::from_slice(alloc, b"proof refused")?,
        }),
        Err(_) => Err(AllocError),
    }
}

/// The words of a script's fault.
fn fault_words(alloc: Global, fault: ScriptFault) -> Result<Vec<u8>, AllocError>
    ensures { IfOk result (λ text. text.items ≡ refusal_words fault) }
{
    Ok(refusal_words(alloc, fault)?.into_bytes())
}
