//! Calls by their names in a script.

use record_reading::Fault;
use script_reading::Call;
use std::alloc::AllocError;
use std::fmt::Write;
use sysmem_tree::Refusal;

/// What a call answers.
#[derive(Clone, Copy)]
pub(crate) enum Reply {
    Accepted,
    Refused(Refusal),
    /// What the call asks for can't be read, and it isn't made.
    Misread(Fault),
    /// The call that makes its name was refused.
    Skipped,
}

impl Reply {
    /// Of a call that is accepted where it isn't refused.
    pub(crate) fn new(refused: Option<Refusal>) -> Reply {
        match refused {
            Some(refusal) => Reply::Refused(refusal),
            None => Reply::Accepted,
        }
    }

    fn put(self, text: &mut String) -> Result<(), AllocError> {
        match self {
            Reply::Accepted => text.push_str(" ok\n"),
            Reply::Refused(refusal) => {
                let name = refusal.name();
                writeln!(text, " {name}")
            }
            Reply::Misread(fault) => {
                let (code, at) = (fault.code.name(), fault.at.name());
                writeln!(text, " {code} {at}")
            }
            Reply::Skipped => text.push_str(" skipped\n"),
        }
    }
}

/// Puts the line of a call after the text: `7 duplicate root a ok`.
pub(crate) fn put_call(
    text: &mut String,
    number: usize,
    call: &Call<'_>,
    reply: Reply,
) -> Result<(), AllocError> {
    let (act, on) = (call.act.name(), call.on);
    match call.act.name_made() {
        Some(name) => write!(text, "{number} {act} {on} {name}")?,
        None => write!(text, "{number} {act} {on}")?,
    }
    reply.put(text)
}
