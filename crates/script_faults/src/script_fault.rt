//! The faults of a script, in words.

use crate::call_fault::add_call_fault;
use crate::help::{Help, did_you_mean, missing};
use crate::keys::SCRIPT;
use crate::no_json::{Broken, add_break, is_blank};
use crate::record::{
    Document, RecordPart, add_record_fault, first_unknown, is_field_of, key_of, wrong_kind,
};
use explanation_text::{
    Correction, Item, Items, Kind, Label, Meant, Span, Step, TextBuilder, line_of, nearest,
};
use record_reading::PLATFORM_FIELDS;
use script_reading::{LONGEST, ScriptFault};
use serde_json::Value;
use std::alloc::{AllocError, Global};

/// Tells why a script is refused, and where.
pub fn add_fault<'a>(
    items: &mut Items,
    document: &Document<'a>,
    fault: ScriptFault,
) -> Result<(), AllocError> {
    put_answer(items, fault);
    match fault {
        ScriptFault::TooLong => add_length(items),
        ScriptFault::NotJson => {}
        ScriptFault::Misshapen => add_misshapen(items, document)?,
        ScriptFault::CallMisshapen(number)
        | ScriptFault::BadName(number)
        | ScriptFault::TooManyActors(number)
        | ScriptFault::SharedName(number) => { add_call_fault(items, document, fault, number)? }
        ScriptFault::Platform(record) => {
            let base = [Step::Key("platform")];
            add_record_fault(items, 1, document, &base, record, true)?
        }
        ScriptFault::TooManyCalls => add_calls(items, document),
    }
    Ok(())
}

/// The answer of a script that is refused.
fn put_answer(items: &mut Items, fault: ScriptFault) {
    let alloc = items.alloc();
    let what = match fault {
        ScriptFault::NotJson => ", no JSON",
        ScriptFault::Platform(_) => ", the platform",
        _ => "",
    };
    match format!(in alloc; "script refused: {fault}{what}") {
        Ok(text) => items.add(Item {
            label: Label::Plain,
            text,
            mentions: Vec::new(alloc),
            facts: Vec::new(alloc),
            depth: 0,
            kind: Kind::Answer,
            decided: None,
            shown: None,
        }),
        Err(AllocError) => items.refuse(),
    }
}

fn add_length(items: &mut Items) {
    let mut words = TextBuilder::of(items.alloc(), "the script has more than ");
    words.put_number(LONGEST).put(" bytes; no more are read");
    items.say(1, Label::Plain, words)
}

fn add_calls(items: &mut Items, document: &Document<'_>) {
    let count = match document.at(&[Step::Key("calls")]) {
        Some(Value::Array(calls)) => calls.len(),
        _ => 0,
    };
    let mut words = TextBuilder::of(items.alloc(), "the script has ");
    words.put_number(count).put(" calls, at most 4096 are made");
    items.say(1, Label::Plain, words)
}

/// Tells where a script stops being JSON.
pub fn add_no_json(items: &mut Items, file: &str, bytes: &[u8]) -> Result<(), AllocError> {
    put_answer(items, ScriptFault::NotJson);
    if is_blank(bytes) {
        let text = "the file is empty: a script is an object with platform and calls";
        items.list_text(1, Label::Plain, text);
        return Ok(());
    }
    let depth = 1;
    add_break(items, Broken { file, bytes, depth })
}

/// Tells a script that is no object with a platform and a list of calls.
fn add_misshapen(items: &mut Items, document: &Document<'_>) -> Result<(), AllocError> {
    if !document.value.is_object() {
        let due = "an object with platform and calls is";
        add_wrong(items, document, &[], document.value, due);
        return Ok(());
    }
    match first_unknown(items.alloc(), document, &[], SCRIPT)? {
        Some(path) => add_key(items, document, &path),
        None => add_members(items, document),
    }
}

/// Tells a member that is missing, or calls that are no list.
fn add_members(items: &mut Items, document: &Document<'_>) -> Result<(), AllocError> {
    for key in SCRIPT {
        if document.value.get(*key).is_none() {
            return add_missing(items, document, key);
        }
    }
    let path = [Step::Key("calls")];
    if let Some(calls) = document.at(&path) {
        add_wrong(items, document, &path, calls, "a list is");
    }
    Ok(())
}

/// Tells a member that is missing: calls may stand in the platform.
fn add_missing(items: &mut Items, document: &Document<'_>, key: &str) -> Result<(), AllocError> {
    let alloc = items.alloc();
    let note = missing(alloc, key);
    let path = [Step::Key("platform"), Step::Key(key)];
    match document.span(alloc, &path, RecordPart::Key)? {
        Some(inner) => add_within(items, document, &path, note, inner),
        None => {
            document.note(items, 1, &[], RecordPart::Begin, note);
            Ok(())
        }
    }
}

/// Tells that the script lacks a member which its platform has, with this key: the platform is
/// likely meant to end before it, if it is the last one.
fn add_within(
    items: &mut Items,
    document: &Document<'_>,
    path: &[Step<'_>],
    note: TextBuilder,
    inner: Span,
) -> Result<(), AllocError> {
    let alloc = items.alloc();
    let ends = ends_meant(alloc, document, path, inner)?;
    let help = Help::of(words_within(alloc, document, key_of(path), inner, ends.is_some()));
    document.tell(items, 1, &[], RecordPart::Begin, note, help);
    if let Some((span, end)) = ends {
        let meant = Meant::Mark('}');
        items.correct(Correction { span, meant });
        document.show(items, 1, end, "platform", "platform ends here", &[]);
        let (span, meant) = (end, Meant::Blank);
        items.correct(Correction { span, meant });
    }
    Ok(())
}

/// `platform has the key calls (line 9): platform should end before it`
fn words_within(
    alloc: Global,
    document: &Document<'_>,
    key: &str,
    inner: Span,
    is_last: bool,
) -> TextBuilder {
    let at = inner.start.min(document.bytes.len());
    let mut words = TextBuilder::of(alloc, "platform has the key ");
    words
        .put(key)
        .put(" (line ")
        .put_number(line_of(document.bytes, at));
    words.put(if is_last {
        "): platform should end before it"
    } else {
        "): it belongs beside platform"
    });
    words
}

/// Where the platform would end before its member at a path, with this key, and where it does;
/// `None` where that is its first member, or not the last.
fn ends_meant(
    alloc: Global,
    document: &Document<'_>,
    path: &[Step<'_>],
    inner: Span,
) -> Result<Option<(Span, Span)>, AllocError> {
    let member = document.span(alloc, path, RecordPart::Value)?;
    let platform = document.span(alloc, &[Step::Key("platform")], RecordPart::Value)?;
    let (Some(member), Some(platform)) = (member, platform) else {
        return Ok(None);
    };
    let end = Span {
        start: platform.end.saturating_sub(1),
        end: platform.end,
    };
    let between = document.bytes.get(member.end..end.start).unwrap_or(b"}");
    let before = document.bytes.get(..inner.start).unwrap_or(&[]);
    Ok(match before.trim_ascii_end().strip_suffix(b",") {
        Some(front) if is_blank(between) => {
            let at = front.len();
            Some((Span { start: at, end: at }, end))
        }
        _ => None,
    })
}

/// Tells a value of a wrong kind.
fn add_wrong(
    items: &mut Items,
    document: &Document<'_>,
    path: &[Step<'_>],
    value: &Value,
    due: &str,
) {
    let note = wrong_kind(items.alloc(), value, due);
    document.note(items, 1, path, RecordPart::Value, note)
}

/// Tells a key that a script can't have.
fn add_key(
    items: &mut Items,
    document: &Document<'_>,
    path: &[Step<'_>],
) -> Result<(), AllocError> {
    let alloc = items.alloc();
    if is_of_platform(document, key_of(path)) {
        return add_outside(items, document, path);
    }
    let help = match nearest(alloc, key_of(path), SCRIPT)? {
        Some(near) => Help::near(alloc, near),
        None => help_of_member(alloc, document),
    };
    document.advise(items, 1, path, RecordPart::Key, "unknown key", help);
    if !items.is_corrected() {
        document.leave_out(items, path);
    }
    Ok(())
}

/// Whether a key is one of a platform's, and the script's platform lacks it.
fn is_of_platform(document: &Document<'_>, key: &str) -> bool {
    match document.at(&[Step::Key("platform")]) {
        Some(platform) => {
            is_field_of(key, &PLATFORM_FIELDS)
                && platform.is_object()
                && platform.get(key).is_none()
        }
        None => false,
    }
}

/// Tells a member beside the platform that belongs in it: it is likely meant there.
fn add_outside(
    items: &mut Items,
    document: &Document<'_>,
    path: &[Step<'_>],
) -> Result<(), AllocError> {
    let alloc = items.alloc();
    let help = Help::of_text(alloc, "it belongs in platform");
    document.advise(items, 1, path, RecordPart::Key, "unknown key", help);
    document.leave_out(items, path);
    let platform = [Step::Key("platform")];
    let note = missing(alloc, key_of(path));
    document.note(items, 1, &platform, RecordPart::Begin, note);
    let written = in_one_line(alloc, document.written(alloc, path)?);
    document.add_member(items, &platform, key_of(path), written);
    Ok(())
}

/// A part of a script in one line, as it stands there but for its blanks.
fn in_one_line(alloc: Global, written: &[u8]) -> TextBuilder {
    let mut text = TextBuilder::new(alloc);
    let written = std::str::from_utf8(written).unwrap_or("");
    for (k, word) in written.split_ascii_whitespace().enumerate() {
        text.put(if k > 0 { " " } else { "" }).put(word);
    }
    text
}

/// What helps with a key that is near none: the one that is missing may be meant.
fn help_of_member(alloc: Global, document: &Document<'_>) -> Help {
    for key in SCRIPT {
        if document.value.get(*key).is_none() {
            let mut words = did_you_mean(alloc, key);
            words.put(" It is missing");
            return Help::of_word(words, key);
        }
    }
    Help::of_text(alloc, "a script has just platform and calls")
}
