//! The object of a call.

use script_replay::{CallEvent, Reply, put_reply_text};
use std::alloc::AllocError;
use std::fmt::Write;

/// Puts the object of a call: `{"as":"camera","call":1,"does":"duplicate","ok":true,"on":"root"}`.
pub(crate) fn put_call(out: &mut String, called: &CallEvent<'_>) -> Result<(), AllocError> {
    out.push_str("{")?;
    if let Some(name) = called.call.act.name_made() {
        write!(out, "\"as\":\"{name}\",")?;
    }
    let number = called.number;
    let act = called.call.act.name();
    write!(out, "\"call\":{number},\"does\":\"{act}\",\"ok\":")?;
    put_reply(out, called.call.on, called.reply)
}

fn put_reply(out: &mut String, on: &str, reply: Reply) -> Result<(), AllocError> {
    if let Reply::Accepted = reply {
        return writeln!(out, "true,\"on\":\"{on}\"}}");
    }
    write!(out, "false,\"on\":\"{on}\",\"refused\":\"")?;
    put_reply_text(out, reply)?;
    out.push_str("\"}\n")
}
