//! The words of a refusal.

ghost use Rattle.std.specs.Prelude.{◌≡◌, IfOk, string_bytes};
ghost use Rattle.script_replay.specs.Lines.{Puts};
ghost use Rattle.mezulobu.specs.Words.{at_call, refusal_words, script_words};

use script_reading::ScriptFault;
use std::alloc::{AllocError, Global};
use std::fmt::Write;

/// Puts `Q4 at call 7` after the text.
fn put_at_call(text: &mut String, code: &str, number: usize) -> Result<(), AllocError>
    ensures { Puts result text.old text.new (at_call code.now number) }
{
    write!(text, "{code} at call {number}")
}

fn put_script_words(text: &mut String, fault: ScriptFault) -> Result<(), AllocError>
    ensures { Puts result text.old text.new (script_words fault) }
{
    match fault {
        ScriptFault::TooLong => text.push_str("Q1"),
        ScriptFault::NotJson => text.push_str("Q2"),
        ScriptFault::Misshapen => text.push_str("Q3"),
        ScriptFault::CallMisshapen(number) => put_at_call(text, "Q3", number),
        ScriptFault::BadName(number) => put_at_call(text, "Q4", number),
        ScriptFault::Platform(fault) => write!(text, "Q5 {fault}"),
        ScriptFault::TooManyCalls => text.push_str("Q6"),
        ScriptFault::TooManyActors(number) => put_at_call(text, "Q6", number),
        ScriptFault::SharedName(number) => put_at_call(text, "Q7", number),
    }
}

/// The words of a script's refusal: `script refused: Q4 at call 7`.
pub(crate) fn refusal_words(alloc: Global, fault: ScriptFault) -> Result<String, AllocError>
    ensures { IfOk result (λ text. string_bytes text ≡ refusal_words fault) }
{
    let mut text = String::from_str(alloc, "script refused: ")?;
    put_script_words(&mut text, fault)?;
    Ok(text)
}
