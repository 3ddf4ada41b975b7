//! The form of one call: what its object says, apart from the other calls.
ghost use Rattle.std.specs.Prelude.{◌≡◌, option_map};
ghost use Rattle.std.specs.List.{list_all};
ghost use Rattle.serde_json.specs.View.{view, members_view};
ghost use Rattle.script_reading.specs.Call.{actor_of, constraints_of, act_of, makes_name, may_have, form_of, name_in, text_at};
ghost use Rattle.record_reading.specs.Reading.Fields.{keys_of};
ghost use Rattle.script_reading.specs.Seen.{act_seen, form_seen, stated_seen};

use crate::call::Act;
use crate::names::MAIN;
use crate::stated::Stated;
use serde_json::{Map, Value};

/// What a call does, on which name, by which actor.
#[derive(Clone, Copy)]
pub(crate) struct Form<'a> {
    pub act: Act<'a>,
    pub on: &'a str,
    pub actor: &'a str,
}

fn text_at<'a>(call: &'a Value, key: &str) -> Option<&'a str>
    ensures { option_map (λ text. text.now) result ≡ text_at key.now (view call.now) }
{
    call.get(key).and_then(Value::as_str)
}

fn actor_of(call: &Value) -> Option<&str>
    ensures { option_map (λ actor. actor.now) result ≡ actor_of (view call.now) }
{
    match call.get("actor") {
        None => Some(MAIN),
        Some(actor) => actor.as_str(),
    }
}

fn constraints_of(call: &Value) -> Option<Stated<'_>>
    ensures { option_map stated_seen result ≡ constraints_of (view call.now) }
{
    let value = call.get("constraints")?;
    if value.is_null() {
        return None;
    }
    Some(Stated::of(value))
}

fn name_in(call: &Value) -> Option<&str>
    ensures { option_map (λ name. name.now) result ≡ name_in (view call.now) }
{
    text_at(call, "as")
}

/// What a call of this name does. The kinds that a script may repeat most come first, as the names
/// are compared in this order.
fn act_of<'a>(name: &str, call: &'a Value) -> Option<Act<'a>>
    ensures { option_map act_seen result ≡ act_of name.now (view call.now) }
{
    match name {
        "check" => Some(Act::Check),
        "wait" => Some(Act::Wait),
        "duplicate" => Some(Act::Duplicate(name_in(call)?)),
        "bind" => Some(Act::Bind),
        "set_constraints" => Some(Act::SetConstraints(constraints_of(call))),
        "create_group" => Some(Act::CreateGroup(name_in(call)?)),
        "create_child" => Some(Act::CreateChild(name_in(call)?)),
        "all_children_present" => Some(Act::AllChildrenPresent),
        "attach_token" => Some(Act::AttachToken(name_in(call)?)),
        "release" => Some(Act::Release),
        "close" => Some(Act::Close),
        _ => None,
    }
}

/// Whether a call of this name makes one.
#[tactic(auto, unfolding(crate::specs::Call::makes_name))]
pub fn makes_name(name: &str) -> bool
    ensures { result ≡ makes_name name.now }
{
    matches!(
        name,
        "duplicate" | "create_group" | "create_child" | "attach_token"
    )
}

#[tactic(auto, unfolding(crate::specs::Call::may_have))]
fn may_have(name: &str, key: &str) -> bool
    ensures { result ≡ may_have name.now key.now }
{
    match key {
        "call" | "on" | "actor" => true,
        "as" => makes_name(name),
        "constraints" => name == "set_constraints",
        _ => false,
    }
}

fn has_only_known(name: &str, members: &Map<String, Value>) -> bool
    ensures { result ≡ list_all (may_have name.now) (keys_of (members_view members.now.entries)) }
{
    members.keys().all(|key| may_have(name, key.as_str()))
}

/// The form of a call, or none where a kind or a key is wrong, unknown or missing.
pub(crate) fn form_of(call: &Value) -> Option<Form<'_>>
    ensures { option_map form_seen result ≡ form_of (view call.now) }
{
    let members = call.as_object()?;
    let name = text_at(call, "call")?;
    let on = text_at(call, "on")?;
    let actor = actor_of(call)?;
    let act = act_of(name, call)?;
    if has_only_known(name, members) {
        Some(Form { act, on, actor })
    } else {
        None
    }
}
