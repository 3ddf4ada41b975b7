//! The faults of a script's calls, in words.

use crate::help::{Help, Naming, did_you_mean, listed, missing, near_or_listed};
use crate::keys::KNOWN;
use crate::only::Only;
use crate::record::{
    Document, RecordPart, call_in, first_unknown, is_field_of, is_one_of, key_of, wrong_kind,
};
use explanation_text::wording::put_few;
use explanation_text::{Items, ListBuilder, Meant, Moved, Owner, Step, TextBuilder, nearest};
use script_reading::{CALLS, ScriptFault, makes_name};
use serde_json::Value;
use std::alloc::{AllocError, Global};
use sysmem_sanitise::CONSTRAINTS_FIELDS;

/// What is said of a node whose name no earlier call makes.
const UNMADE: &str = "no earlier call makes this name";

/// A call with a fault.
#[derive(Clone, Copy)]
struct Faulty<'a, 'b> {
    document: &'b Document<'a>,
    calls: &'a [Value],
    /// From 0.
    index: usize,
    call: &'a Value,
}

/// Tells the fault of the call of this number.
pub(crate) fn add_call_fault<'a>(
    items: &mut Items,
    document: &Document<'a>,
    fault: ScriptFault,
    number: usize,
) -> Result<(), AllocError> {
    let Some(faulty) = faulty_at(document, number.saturating_sub(1)) else {
        return Ok(());
    };
    match fault {
        ScriptFault::TooManyActors(_) => add_actors(items, faulty)?,
        ScriptFault::BadName(_) => add_name(items, faulty)?,
        ScriptFault::SharedName(_) => add_shared(items, faulty),
        _ => add_shape(items, faulty)?,
    }
    if !items.is_corrected() {
        document.mean(items, &faulty.path(), Meant::NoCall(number));
    }
    Ok(())
}

/// The call of an index, if there is one.
fn faulty_at<'a, 'b>(document: &'b Document<'a>, index: usize) -> Option<Faulty<'a, 'b>> {
    let calls = document.at(&[Step::Key("calls")])?.as_array()?;
    let call = calls.get(index)?;
    Some(Faulty {
        document,
        calls,
        index,
        call,
    })
}

impl<'a> Faulty<'a, '_> {
    fn path(&self) -> [Step<'static>; 2] {
        [Step::Key("calls"), Step::Item(self.index)]
    }

    fn member(&self, key: &'static str) -> [Step<'static>; 3] {
        [Step::Key("calls"), Step::Item(self.index), Step::Key(key)]
    }

    /// Points at a member's value, or at the call where there is none.
    fn point(&self, items: &mut Items, key: &'static str, note: &str, help: Help) {
        let member = self.member(key);
        let steps = if self.call.get(key).is_some() { 3 } else { 2 };
        let path = member.get(..steps).unwrap_or(&member);
        self.document
            .advise(items, 1, path, RecordPart::Value, note, help)
    }

    /// Points at the call, which lacks a member; or at a key that it can't have, which is likely
    /// meant.
    fn lacks(
        &self,
        items: &mut Items,
        key: &'static str,
        help: TextBuilder,
    ) -> Result<(), AllocError> {
        match first_unknown(items.alloc(), self.document, &self.path(), KNOWN)? {
            Some(other) => {
                self.put_meant(items, &other, key);
                Ok(())
            }
            None => self.put_missing(items, key, help),
        }
    }

    /// Points at the call, which lacks a member.
    fn put_missing(
        &self,
        items: &mut Items,
        key: &'static str,
        help: TextBuilder,
    ) -> Result<(), AllocError> {
        let alloc = items.alloc();
        let path = self.path();
        let note = missing(alloc, key);
        self.document
            .tell(items, 1, &path, RecordPart::Begin, note, Help::of(help));
        if let Some(name) = self.meant_by(alloc, key)? {
            self.document
                .add_member(items, &path, key, quoted(alloc, name));
        }
        Ok(())
    }

    /// The name that a member is likely to have which the call lacks.
    fn meant_by(&self, alloc: Global, key: &str) -> Result<Option<&'a str>, AllocError> {
        match key {
            "as" => Ok(only_unmade(self.calls, self.index)),
            "on" => Ok(only_idle(self.calls, &names_made(alloc, *self)?)),
            "call" if self.call.get("constraints").is_some() => Ok(Some("set_constraints")),
            "call" if self.call.get("as").is_some() => Ok(Some("duplicate")),
            _ => Ok(None),
        }
    }

    /// Keeps that a member of the call is likely meant to have this name.
    fn mean_name(&self, items: &mut Items, key: &'static str, name: &str, naming: Naming) {
        match String::from_str(items.alloc(), name) {
            Ok(name) => {
                let meant = Some(naming.meant(name));
                self.document
                    .correct(items, &self.member(key), RecordPart::Value, meant)
            }
            Err(AllocError) => items.refuse(),
        }
    }

    /// Tells a key that the call can't have, in the place of which one that it lacks is meant.
    fn put_meant(&self, items: &mut Items, other: &[Step<'_>], key: &str) {
        let mut words = TextBuilder::of(items.alloc(), "did you mean ");
        words.put(key).put("? It is missing");
        let help = Help::of_word(words, key);
        self.document
            .advise(items, 1, other, RecordPart::Key, "unknown key", help)
    }

    /// The text of a member; an empty one where it is none.
    fn text(&self, key: &str) -> &'a str {
        text_at(self.call, key).unwrap_or("")
    }

    fn earlier(&self) -> &'a [Value] {
        self.calls.get(..self.index).unwrap_or(self.calls)
    }
}

/// The text that a call has at a key, if it is one.
fn text_at<'a>(call: &'a Value, key: &str) -> Option<&'a str> {
    call.get(key).and_then(Value::as_str)
}

/// Whether a call has just this text at a key.
fn has_text(call: &Value, key: &str, text: &str) -> bool {
    text_at(call, key) == Some(text)
}

/// The actor of a call, as it is named.
pub fn actor_of(call: &Value) -> &str {
    match call.get("actor") {
        Some(actor) => actor.as_str().unwrap_or("main"),
        None => "main",
    }
}

fn quoted(alloc: Global, name: &str) -> TextBuilder {
    let mut words = TextBuilder::of(alloc, "\"");
    words.put(name).put("\"");
    words
}

/// `call 3 makes it`
fn of_call(alloc: Global, index: usize, what: &str) -> TextBuilder {
    let mut words = TextBuilder::of(alloc, "call ");
    words.put_number(index.saturating_add(1)).put(what);
    words
}

fn add_actors(items: &mut Items, faulty: Faulty<'_, '_>) -> Result<(), AllocError> {
    let alloc = items.alloc();
    let actors = actors_before(alloc, faulty)?;
    let Some((index, near)) = misspelt_actor(alloc, faulty, &actors)? else {
        let help = Help::of(listed(alloc, "at most 16 may call: ", &actors, "and"));
        faulty.point(items, "actor", "the 17th actor", help);
        return Ok(());
    };
    let mut words = TextBuilder::of(alloc, "at most 16 may call: did you mean ");
    words
        .put(near)
        .put(" in call ")
        .put_number(index.saturating_add(1))
        .put("? Its actor makes no other call");
    faulty.point(items, "actor", "the 17th actor", Help::of(words));
    let source = Faulty { index, ..faulty };
    source.mean_name(items, "actor", near, Naming::Given);
    Ok(())
}

/// The call whose actor is likely misspelt, and what is likely meant: the only one of some actors, or
/// of the call with the fault, who makes one call alone and whose name is near one of these.
fn misspelt_actor<'a>(
    alloc: Global,
    faulty: Faulty<'a, '_>,
    actors: &[&'a str],
) -> Result<Option<(usize, &'a str)>, AllocError> {
    let mut found: Option<(usize, &str)> = None;
    let last = [actor_of(faulty.call)];
    for actor in actors.iter().chain(last.iter()) {
        let near = near_actor(alloc, *actor, actors, &last)?;
        match (only_call_by(faulty.calls, *actor), near) {
            (Some(_), Some(_)) if found.is_some() => return Ok(None),
            (Some(index), Some(near)) => found = Some((index, near)),
            _ => {}
        }
    }
    Ok(found)
}

/// The index of the only one of these calls that an actor makes by its name; `None` where there are
/// more, or none.
fn only_call_by(calls: &[Value], actor: &str) -> Option<usize> {
    let first = calls
        .iter()
        .position(|call| has_text(call, "actor", actor))?;
    let behind = calls.get(first.saturating_add(1)..).unwrap_or(&[]);
    if behind.iter().any(|call| has_text(call, "actor", actor)) {
        None
    } else {
        Some(first)
    }
}

/// The other one of some actors, or of further ones, whose name is near that of an actor.
fn near_actor<'a>(
    alloc: Global,
    actor: &str,
    actors: &[&'a str],
    further: &[&'a str],
) -> Result<Option<&'a str>, AllocError> {
    let mut others: ListBuilder<&str> = ListBuilder::new(alloc);
    for other in actors.iter().chain(further.iter()) {
        if *other != actor {
            others.add(*other);
        }
    }
    nearest(alloc, actor, &others.done()?)
}

/// The first 16 actors of the calls before one.
fn actors_before<'a>(alloc: Global, faulty: Faulty<'a, '_>) -> Result<Vec<&'a str>, AllocError> {
    let mut actors: ListBuilder<&str> = ListBuilder::new(alloc);
    for call in faulty.earlier() {
        let actor = actor_of(call);
        if actors.list().len() < 16 && !is_one_of(actor, actors.list()) {
            actors.add(actor);
        }
    }
    actors.done()
}

/// Tells a wrong kind, an unknown or missing key, or an unknown name of a call.
fn add_shape(items: &mut Items, faulty: Faulty<'_, '_>) -> Result<(), AllocError> {
    let alloc = items.alloc();
    match faulty.call.get("call") {
        _ if !faulty.call.is_object() => add_no_object(items, faulty),
        None => return faulty.lacks(items, "call", calls_known(alloc)),
        Some(Value::String(name)) if is_one_of(name, &CALLS) => {
            return add_members(items, faulty, name);
        }
        Some(Value::String(name)) => {
            faulty.point(items, "call", "unknown call", hint_of_call(alloc, name)?)
        }
        Some(value) => add_kind(items, faulty, "call", value),
    }
    Ok(())
}

fn add_no_object(items: &mut Items, faulty: Faulty<'_, '_>) {
    let note = wrong_kind(items.alloc(), faulty.call, "a call is");
    faulty
        .document
        .note(items, 1, &faulty.path(), RecordPart::Value, note)
}

/// What an unknown call may mean.
fn hint_of_call(alloc: Global, name: &str) -> Result<Help, AllocError> {
    let near = match nearest(alloc, name, &CALLS)? {
        Some(near) => Some(near),
        None => call_in(alloc, name, &CALLS)?,
    };
    Ok(match near {
        Some(near) => Help::near(alloc, near),
        None => Help::of(calls_known(alloc)),
    })
}

fn calls_known(alloc: Global) -> TextBuilder {
    listed(alloc, "calls: ", &CALLS, "and")
}

/// Tells a member that is no name.
fn add_kind(items: &mut Items, faulty: Faulty<'_, '_>, key: &'static str, value: &Value) {
    let alloc = items.alloc();
    let path = faulty.member(key);
    let note = wrong_kind(alloc, value, "a name is");
    let help = Help::of_text(alloc, "names stand in double quotes");
    faulty
        .document
        .tell(items, 1, &path, RecordPart::Value, note, help)
}

/// Tells what is wrong with the members of a call that has a name.
fn add_members(items: &mut Items, faulty: Faulty<'_, '_>, name: &str) -> Result<(), AllocError> {
    let alloc = items.alloc();
    match faulty.call.get("as") {
        None if makes_name(name) => {
            let mut words = TextBuilder::of(alloc, name);
            words.put(" makes a node: as gives it its name");
            faulty.lacks(items, "as", words)
        }
        Some(value) if makes_name(name) && !value.is_string() => {
            add_kind(items, faulty, "as", value);
            Ok(())
        }
        _ if faulty.call.get("on").is_none() => {
            let help = TextBuilder::of(alloc, "on names the node that the call is made on");
            faulty.lacks(items, "on", help)
        }
        _ => add_keys(items, faulty, name),
    }
}

/// Tells a key that the call can't have, or a name that is no text.
fn add_keys(items: &mut Items, faulty: Faulty<'_, '_>, name: &str) -> Result<(), AllocError> {
    let keys = keys_of(name);
    match first_unknown(items.alloc(), faulty.document, &faulty.path(), keys)? {
        Some(unknown) => add_key(items, faulty, name, keys, &unknown),
        None => {
            add_texts(items, faulty);
            Ok(())
        }
    }
}

/// Tells which of the members that name a node or an actor is no text.
fn add_texts(items: &mut Items, faulty: Faulty<'_, '_>) {
    for key in ["on", "actor"] {
        match faulty.call.get(key) {
            Some(value) if !value.is_string() => return add_kind(items, faulty, key, value),
            _ => {}
        }
    }
}

/// The keys of a call of this name.
fn keys_of(name: &str) -> &'static [&'static str] {
    if makes_name(name) {
        &["call", "on", "actor", "as"]
    } else if name == "set_constraints" {
        &["call", "on", "actor", "constraints"]
    } else {
        &["call", "on", "actor"]
    }
}

/// Tells a key that the call can't have.
fn add_key(
    items: &mut Items,
    faulty: Faulty<'_, '_>,
    name: &str,
    keys: &'static [&'static str],
    path: &[Step<'_>],
) -> Result<(), AllocError> {
    let (alloc, document, key) = (items.alloc(), faulty.document, key_of(path));
    if key == "constraints" && is_to_state(faulty) {
        let text = "did you mean call set_constraints? Only that has constraints";
        let help = Help::of_text(alloc, text);
        document.advise(items, 1, path, RecordPart::Key, "unknown key", help);
        faulty.mean_name(items, "call", "set_constraints", Naming::Word);
        return Ok(());
    }
    let help = help_of_key(alloc, key, name, keys)?;
    document.advise(items, 1, path, RecordPart::Key, "unknown key", help);
    if is_field_of(key, &CONSTRAINTS_FIELDS) {
        if let Some(moved) = in_constraints(alloc, faulty)? {
            document.mean(items, path, Meant::Moved(moved));
        }
    } else if !items.is_corrected() {
        document.leave_out(items, path);
    }
    Ok(())
}

/// Whether a call is likely meant to state its constraints: its node is bound by then, and no call
/// states any for it.
fn is_to_state(faulty: Faulty<'_, '_>) -> bool {
    let on = faulty.text("on");
    has_call(faulty.earlier(), on, "bind") && !has_call(faulty.calls, on, "set_constraints")
}

/// Whether one of some calls is made on a node and has this name.
fn has_call(calls: &[Value], on: &str, name: &str) -> bool {
    calls.iter().any(|call| has_text(call, "on", on) && has_text(call, "call", name))
}

/// Where a member belongs that stands beside the constraints of a call.
fn in_constraints(alloc: Global, faulty: Faulty<'_, '_>) -> Result<Option<Moved>, AllocError> {
    let into = Owner::Constraints;
    let inner = faulty
        .document
        .first_place(alloc, &faulty.member(into.key()))?;
    let outer = faulty.document.first_place(alloc, &faulty.path())?;
    let Some(place) = inner.or(outer) else {
        return Ok(None);
    };
    Ok(Some(Moved {
        into,
        renamed: None,
        is_new: inner.is_none(),
        places: vec![in alloc; place]?,
    }))
}

/// What helps with such a key of a call that has a name.
fn help_of_key(
    alloc: Global,
    key: &str,
    name: &str,
    keys: &[&'static str],
) -> Result<Help, AllocError> {
    if is_field_of(key, &CONSTRAINTS_FIELDS) {
        Ok(Help::of_text(alloc, "it belongs in constraints"))
    } else if key == "as" {
        let mut words = TextBuilder::of(alloc, name);
        words.put(" makes no node");
        Ok(Help::of(words))
    } else if key == "constraints" {
        Ok(Help::of_text(alloc, "only set_constraints has constraints"))
    } else {
        near_or_listed(alloc, key, keys, "keys of this call: ", "and")
    }
}

/// Whether a text is 1 to 32 ASCII letters, digits, `_` and `-`.
fn is_name(text: &str) -> bool {
    !text.is_empty() && text.len() <= 32 && has_name_bytes(text)
}

/// Whether a text is ASCII letters, digits, `_` and `-`.
pub fn has_name_bytes(text: &str) -> bool {
    text.as_bytes().iter().all(|byte| byte.is_ascii_alphanumeric()
        || *byte == b'_'
        || *byte == b'-')
}

/// Tells a bad name, a name that no earlier call made, or one that is made again.
fn add_name(items: &mut Items, faulty: Faulty<'_, '_>) -> Result<(), AllocError> {
    if let Some(key) = bad_name(faulty) {
        let help = hint_of_bad(items.alloc(), key, faulty.text(key));
        faulty.point(items, key, "a bad name", help);
        return Ok(());
    }
    let on = faulty.text("on");
    if on == "root" || maker_of(faulty.earlier(), on).is_some() {
        add_made(items, faulty);
        return Ok(());
    }
    add_unmade(items, faulty, on)
}

/// The first member that is to be a name, and has a wrong length or character.
fn bad_name(faulty: Faulty<'_, '_>) -> Option<&'static str> {
    for key in ["on", "as", "actor"] {
        match text_at(faulty.call, key) {
            Some(text) if !is_name(text) => return Some(key),
            _ => {}
        }
    }
    None
}

/// What helps with a bad name: a like one may be meant.
fn hint_of_bad(alloc: Global, key: &str, bad: &str) -> Help {
    let words = TextBuilder::of(alloc, "a name is 1 to 32 ASCII letters, digits, _ or -");
    let naming = if key == "actor" {
        Naming::Given
    } else {
        Naming::Node
    };
    Help::meaning(words, good_name(alloc, bad), naming)
}

/// A name that is like a bad one: `_` stands for each character that it can't have, and it is cut.
fn good_name(alloc: Global, bad: &str) -> TextBuilder {
    let mut name = TextBuilder::new(alloc);
    for c in bad.chars().take(32) {
        let is_good = c.is_ascii_alphanumeric() || c == '-';
        name.put_char(if is_good { c } else { '_' });
    }
    if bad.is_empty() {
        name.put("_");
    }
    name
}

/// Tells a name that is made again.
fn add_made(items: &mut Items, faulty: Faulty<'_, '_>) {
    let alloc = items.alloc();
    let words = of_maker(alloc, faulty, faulty.text("as"));
    let help = match only_unmade(faulty.calls, faulty.index) {
        Some(name) => Help::of_given(words, name),
        None => Help::of(words),
    };
    faulty.point(items, "as", "made before", help)
}

/// Who makes a name before a call: an earlier call, or the program.
fn of_maker(alloc: Global, faulty: Faulty<'_, '_>, name: &str) -> TextBuilder {
    match maker_of(faulty.earlier(), name) {
        Some(index) => of_call(alloc, index, " makes it"),
        None => TextBuilder::of(alloc, "the program makes root"),
    }
}

/// Tells a name on which another actor made a call.
fn add_shared(items: &mut Items, faulty: Faulty<'_, '_>) {
    let alloc = items.alloc();
    let note = "another actor's name";
    match another_on(faulty) {
        Some((index, call)) => {
            let words = of_call(alloc, index, " is made on it by another actor");
            faulty.point(items, "on", note, Help::of(words));
            mean_actor(items, faulty, actor_of(call))
        }
        None => {
            let help = Help::of_text(alloc, "an earlier call on it is another actor's");
            faulty.point(items, "on", note, help)
        }
    }
}

/// Keeps that a call is likely meant to be made by this actor.
fn mean_actor(items: &mut Items, faulty: Faulty<'_, '_>, actor: &str) {
    if faulty.call.get("actor").is_some() {
        return faulty.mean_name(items, "actor", actor, Naming::Given);
    }
    let written = quoted(items.alloc(), actor);
    faulty
        .document
        .add_member(items, &faulty.path(), "actor", written)
}

/// The earlier call that is made on the same name by another actor, with its index.
fn another_on<'a>(faulty: Faulty<'a, '_>) -> Option<(usize, &'a Value)> {
    let (on, actor) = (faulty.text("on"), actor_of(faulty.call));
    let index = faulty
        .earlier()
        .iter()
        .position(|call| has_text(call, "on", on) && actor_of(call) != actor)?;
    Some((index, faulty.calls.get(index)?))
}

/// The index of the first of some calls that makes a name.
fn maker_of(calls: &[Value], name: &str) -> Option<usize> {
    calls.iter().position(|call| has_text(call, "as", name))
}

/// Tells a name that no earlier call made.
fn add_unmade(items: &mut Items, faulty: Faulty<'_, '_>, on: &str) -> Result<(), AllocError> {
    let alloc = items.alloc();
    match maker_of(faulty.calls, on) {
        None if is_exchanged(faulty, on) => {
            add_exchanged(items, faulty, on);
            Ok(())
        }
        None => add_never_made(items, faulty, on),
        Some(maker) if maker == faulty.index => {
            let help = Help::of_text(alloc, "this call itself makes it");
            faulty.point(items, "on", UNMADE, help);
            Ok(())
        }
        Some(maker) => {
            let words = of_call(alloc, maker, " makes it, and that comes later");
            faulty.point(items, "on", UNMADE, Help::of(words));
            mean_later(items, faulty, maker)
        }
    }
}

/// Whether a call that is made on a name which no call makes has `on` and `as` exchanged: it makes
/// the root's name, or one that is made by then, and later calls are made on the other.
fn is_exchanged(faulty: Faulty<'_, '_>, on: &str) -> bool {
    let made = faulty.text("as");
    let is_made = made == "root" || maker_of(faulty.earlier(), made).is_some();
    is_made && makes_name(faulty.text("call")) && calls_on(faulty.calls, on) > 1
}

/// Tells that `on` and `as` of a call are likely exchanged.
fn add_exchanged(items: &mut Items, faulty: Faulty<'_, '_>, on: &str) {
    let made = faulty.text("as");
    let mut words = TextBuilder::of(items.alloc(), "did you mean on ");
    words
        .put(made)
        .put(" and as ")
        .put(on)
        .put("? They are exchanged");
    faulty.point(items, "on", UNMADE, Help::of(words));
    faulty.mean_name(items, "on", made, Naming::Given);
    let words = of_maker(items.alloc(), faulty, made);
    faulty.point(items, "as", "made before", Help::of(words));
    faulty.mean_name(items, "as", on, Naming::Given)
}

/// Tells a name that no call makes.
fn add_never_made(items: &mut Items, faulty: Faulty<'_, '_>, on: &str) -> Result<(), AllocError> {
    let alloc = items.alloc();
    let made = names_made(alloc, faulty)?;
    match nearest(alloc, on, &made)? {
        Some(near) => add_near(items, faulty, on, near),
        None => faulty.point(items, "on", UNMADE, hint_of_made(alloc, faulty, on, &made)),
    }
    Ok(())
}

/// Tells a name that no call makes, where an earlier call makes one that is near. The first is likely
/// meant if no call is made on that, and several are on this.
fn add_near(items: &mut Items, faulty: Faulty<'_, '_>, on: &str, near: &str) {
    let alloc = items.alloc();
    let Some(maker) = misspelt_by(faulty, on, near) else {
        return faulty.point(items, "on", UNMADE, Help::near_node(alloc, near));
    };
    let mut words = did_you_mean(alloc, on);
    words
        .put(" Call ")
        .put_number(maker.saturating_add(1))
        .put(" makes ")
        .put(near)
        .put(", on which no call is made");
    faulty.point(items, "on", UNMADE, Help::of(words));
    let source = Faulty {
        index: maker,
        ..faulty
    };
    source.mean_name(items, "as", on, Naming::Given)
}

/// The index of the call that makes a name which is likely misspelt: no call is made on it, and
/// several are on one that is near.
fn misspelt_by(faulty: Faulty<'_, '_>, on: &str, near: &str) -> Option<usize> {
    if calls_on(faulty.calls, near) == 0 && calls_on(faulty.calls, on) > 1 {
        maker_of(faulty.earlier(), near)
    } else {
        None
    }
}

/// Keeps that the call is likely meant right after a later one, which makes its node.
fn mean_later(items: &mut Items, faulty: Faulty<'_, '_>, maker: usize) -> Result<(), AllocError> {
    let path = [Step::Key("calls"), Step::Item(maker)];
    let span = faulty
        .document
        .span(items.alloc(), &path, RecordPart::Value)?;
    if let Some(span) = span {
        let meant = Meant::Later {
            call: faulty.index.saturating_add(1),
            after: maker.saturating_add(1),
            end: span.end,
        };
        faulty.document.mean(items, &faulty.path(), meant);
    }
    Ok(())
}

/// The only one of the names made on which an actor of the name makes calls, that is longer than the
/// name or shorter and lacks such a call, or on which no call is made; or else these names.
fn hint_of_made(alloc: Global, faulty: Faulty<'_, '_>, on: &str, made: &[&str]) -> Help {
    if let Some(node) = only_of_actor(faulty.calls, on)
        && is_one_of(node, made)
    {
        let mut words = did_you_mean(alloc, node);
        words
            .put(" ")
            .put(on)
            .put(" is the actor that makes calls on it");
        return Help::of_node(words, node);
    }
    if let Some(node) = only_longer(made, on)
        && !has_call(faulty.calls, node, faulty.text("call"))
    {
        return Help::near_node(alloc, node);
    }
    match only_idle(faulty.calls, made) {
        Some(idle) => {
            let mut words = did_you_mean(alloc, idle);
            words.put(" No call is made on it");
            Help::of_node(words, idle)
        }
        None => {
            let mut words = TextBuilder::of(alloc, "names so far: ");
            put_few(&mut words, made, 8);
            Help::of(words)
        }
    }
}

/// The only node on which an actor makes calls; `None` where there are more, or none.
fn only_of_actor<'a>(calls: &'a [Value], actor: &str) -> Option<&'a str> {
    let mut only = Only::Nothing;
    for call in calls {
        match text_at(call, "on") {
            Some(name) if name != actor && actor_of(call) == actor => only = only.and(name),
            _ => {}
        }
    }
    only.name()
}

/// The only one of some names that begins or ends with a name, or with which that begins or ends;
/// `None` where there are more, or none.
fn only_longer<'a>(names: &[&'a str], name: &str) -> Option<&'a str> {
    let mut only = Only::Nothing;
    for other in names {
        if is_part(name, *other) || is_part(*other, name) {
            only = only.and(*other);
        }
    }
    only.name()
}

/// Whether another name begins or ends with a name, which is no single letter.
fn is_part(name: &str, other: &str) -> bool {
    name.len() > 1 && (other.starts_with(name) || other.ends_with(name))
}

/// The only one of some names, but for the root's, on which none of these calls is made; `None`
/// where there are more, or none.
fn only_idle<'a>(calls: &[Value], names: &[&'a str]) -> Option<&'a str> {
    let mut only = Only::Nothing;
    for name in names.iter().skip(1) {
        if calls_on(calls, *name) == 0 {
            only = only.and(*name);
        }
    }
    only.name()
}

/// The only name on which calls after that of an index are made and that no call makes; `None` where
/// there are more, or none. What can't be a name counts for nothing.
fn only_unmade(calls: &[Value], index: usize) -> Option<&str> {
    let mut only = Only::Nothing;
    for call in calls.iter().skip(index.saturating_add(1)) {
        match text_at(call, "on") {
            Some(name) if is_unmade(calls, name) => only = only.and(name),
            _ => {}
        }
    }
    only.name()
}

/// Whether a text is a name that no call makes, and not the root's.
fn is_unmade(calls: &[Value], name: &str) -> bool {
    name != "root" && is_name(name) && maker_of(calls, name).is_none()
}

/// How many calls are made on a name.
fn calls_on(calls: &[Value], name: &str) -> usize {
    calls
        .iter()
        .filter(|call| has_text(call, "on", name))
        .count()
}

/// The names of the root and of what the calls before one make.
fn names_made<'a>(alloc: Global, faulty: Faulty<'a, '_>) -> Result<Vec<&'a str>, AllocError> {
    let mut made: ListBuilder<&str> = ListBuilder::new(alloc);
    made.add("root");
    for call in faulty.earlier() {
        if let Some(name) = text_at(call, "as") {
            made.add(name);
        }
    }
    made.done()
}
