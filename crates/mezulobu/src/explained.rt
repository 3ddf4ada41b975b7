//! What the bytes of a script mean, in words or as objects of JSON.

ghost use Rattle.std.specs.Prelude.{ℕ, List, IfOk};
ghost use Rattle.serde_json.specs.View.{view};
ghost use Rattle.mezulobu.specs.Explains.{ExplanationSays, HasFault, IsFaultOf};

use crate::answers::Answer;
use explain::{Outcome, Outputs, explain};
use live_calls::{DONE, NO, REFUSED};
use script_reading::{ParseFault, ScriptFault, parse_script, read_script};
use serde_json::Value;
use std::alloc::{AllocError, Global};

/// An explanation's text, and whether it tells of a call that was refused or of a domain that isn't
/// chosen.
#[derive(Drop)]
struct ExplanationText {
    is_faulty: bool,
    text: Vec<u8>,
}

/// What an explanation says; where it is strict, its status tells whether all went well. The file's
/// name stands before lines and columns. It fails where memory is refused, and where the script would
/// take too much to be read.
pub(crate) fn explanation_answer(
    alloc: Global,
    script: &[u8],
    file: &[u8],
    is_json: bool,
    is_strict: bool,
) -> Result<Answer, AllocError>
    ensures { IfOk result (λ answer.
        ExplanationSays script.now is_strict answer.status answer.text.items) }
{
    let explained = explained_of(alloc, script, file, is_json)?;
    let fault = fault_of(alloc, script)?;
    Ok(answer_of_explanation(fault, explained, is_strict))
}

/// The first fault of a script, if it has one. It fails where memory is refused.
#[tactic(auto, using(crate::proofs::Explanations::fault_unspelled))]
fn fault_of(alloc: Global, script: &[u8]) -> Result<Option<ScriptFault>, AllocError>
    ensures { IfOk result (HasFault script.now) }
{
    match parse_script(alloc, script) {
        Ok(value) => fault_in(alloc, &value),
        Err(ParseFault::Refused(fault)) => Ok(Some(fault)),
        Err(ParseFault::NoMemory) => Err(AllocError),
    }
}

/// The first fault of a script's value, if it has one. It fails where memory is refused.
fn fault_in(alloc: Global, value: &Value) -> Result<Option<ScriptFault>, AllocError>
    ensures { IfOk result (IsFaultOf (view value.now)) }
{
    match read_script(alloc, value) {
        Ok(_) => Ok(None),
        Err(ParseFault::Refused(fault)) => Ok(Some(fault)),
        Err(ParseFault::NoMemory) => Err(AllocError),
    }
}

fn explained_of(
    alloc: Global,
    script: &[u8],
    file: &[u8],
    is_json: bool,
) -> Result<ExplanationText, AllocError> {
    let file = String::from_utf8_lossy(alloc, file)?;
    let wanted = Outputs {
        text: !is_json,
        objects: is_json,
        page: false,
    };
    let answer = explain(alloc, file.as_str(), script, wanted)?;
    if answer.outcome == Outcome::Untold {
        return Err(AllocError);
    }
    let is_faulty = answer.outcome == Outcome::Faulty;
    match answer.objects.or(answer.text) {
        Some(text) => Ok(ExplanationText {
            is_faulty,
            text: text.into_bytes(),
        }),
        None => Err(AllocError),
    }
}

/// What is told of a script that has this fault, or none.
#[tactic(auto, using(crate::proofs::Explanations::says_fault, crate::proofs::Explanations::says_no, crate::proofs::Explanations::says_done))]
fn answer_of_explanation(
    fault: Option<ScriptFault>,
    explained: ExplanationText,
    is_strict: bool,
) -> Answer
    ensures { (script : List ℕ) → HasFault script fault
        → ExplanationSays script is_strict result.status result.text.items }
{
    let ExplanationText { is_faulty, text } = explained;
    match fault {
        Some(_) => Answer {
            status: REFUSED,
            text,
        },
        None if is_strict && is_faulty => Answer { status: NO, text },
        None => Answer { status: DONE, text },
    }
}
