//! The lines of a report, each put after the text so far.

ghost use Rattle.std.specs.Prelude.{◌≡◌, ◌++◌, codes};
ghost use Rattle.std.specs.Fmt.{decimal};
ghost use Rattle.record_reading.specs.Faults.{fault_text};
ghost use Rattle.script_replay.specs.Lines.{Puts, call_line, new_name, reply_text};
ghost use Rattle.script_reading.specs.Call.{act_name};
ghost use Rattle.script_reading.specs.Seen.{act_seen, call_seen};

use crate::reply::Reply;
use record_reading::Fault;
use script_reading::{Act, Call};
use std::alloc::AllocError;
use std::fmt::Write;

/// Puts the line of a call after the text: `7 duplicate root a ok`.
pub(crate) fn put_call(
    text: &mut String,
    number: usize,
    call: &Call<'_>,
    reply: Reply,
) -> Result<(), AllocError>
    ensures { Puts result text.old text.new (call_line number (call_seen call.now) reply) }
{
    put_head(text, number, &call.act, call.on)?;
    put_new_name(text, &call.act)?;
    put_reply(text, reply)
}

fn put_head(text: &mut String, number: usize, act: &Act<'_>, on: &str) -> Result<(), AllocError>
    ensures { Puts result text.old text.new
        (decimal number ++ codes " " ++ act_name (act_seen act.now) ++ codes " " ++ on.now) }
{
    let mut digits = itoa::Buffer::new();
    text.push_str(digits.format(number))?;
    text.push_str(" ")?;
    text.push_str(act.name())?;
    text.push_str(" ")?;
    text.push_str(on)
}

fn put_new_name(text: &mut String, act: &Act<'_>) -> Result<(), AllocError>
    ensures { Puts result text.old text.new (new_name (act_seen act.now)) }
{
    match act.name_made() {
        Some(name) => put_name(text, name),
        None => Ok(()),
    }
}

fn put_name(text: &mut String, name: &str) -> Result<(), AllocError>
    ensures { Puts result text.old text.new (codes " " ++ name.now) }
{
    write!(text, " {name}")
}

fn put_reply(text: &mut String, reply: Reply) -> Result<(), AllocError>
    ensures { Puts result text.old text.new (codes " " ++ reply_text reply ++ codes "\n") }
{
    text.push_str(" ")?;
    put_reply_text(text, reply)?;
    text.push_str("\n")
}

/// Puts a reply after the text: `ok`, `E7`, `S2 usage`.
pub fn put_reply_text(text: &mut String, reply: Reply) -> Result<(), AllocError>
    ensures { Puts result text.old text.new (reply_text reply) }
{
    match reply {
        Reply::Accepted => text.push_str("ok"),
        Reply::Refused(refusal) => text.push_str(refusal.name()),
        Reply::Misread(fault) => put_fault(text, fault),
        Reply::Skipped => text.push_str("skipped"),
    }
}

fn put_fault(text: &mut String, fault: Fault) -> Result<(), AllocError>
    ensures { Puts result text.old text.new (fault_text fault) }
{
    let code = fault.code.name();
    let at = fault.at.name();
    write!(text, "{code} {at}")
}
