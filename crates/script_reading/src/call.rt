//! The calls of a script.
ghost use Rattle.std.specs.Prelude.{◌≡◌, option_map};
ghost use Rattle.script_reading.specs.Call.{act_name, name_made};
ghost use Rattle.script_reading.specs.Seen.{act_seen};

use crate::stated::Stated;

/// What a call does to the node that it is made on.
#[derive(Clone, Copy, Debug)]
pub enum Act<'a> {
    /// Makes a token of this name.
    Duplicate(&'a str),
    Bind,
    /// States these constraints, or none.
    SetConstraints(Option<Stated<'a>>),
    /// Makes a group of this name: of its children one is selected.
    CreateGroup(&'a str),
    /// Makes a token of this name, the group's next child.
    CreateChild(&'a str),
    /// The group has all its children.
    AllChildrenPresent,
    /// Makes a token of this name, for a participant who comes later.
    AttachToken(&'a str),
    Release,
    Close,
    /// Asks for the verdict.
    Check,
    /// Asks for the verdict once there is one.
    Wait,
}

/// The names of the calls that a script may make.
pub const CALLS: [&str; 11] = [
    "duplicate",
    "bind",
    "set_constraints",
    "release",
    "check",
    "close",
    "wait",
    "create_group",
    "create_child",
    "all_children_present",
    "attach_token",
];

impl<'a> Act<'a> {
    /// The call's name.
    pub fn name(&self) -> &'static str
        ensures { result.now ≡ act_name (act_seen self.now) }
    {
        match self {
            Act::Duplicate(_) => "duplicate",
            Act::Bind => "bind",
            Act::SetConstraints(_) => "set_constraints",
            Act::CreateGroup(_) => "create_group",
            Act::CreateChild(_) => "create_child",
            Act::AllChildrenPresent => "all_children_present",
            Act::AttachToken(_) => "attach_token",
            Act::Release => "release",
            Act::Close => "close",
            Act::Check => "check",
            Act::Wait => "wait",
        }
    }

    /// The name that the call makes, if it makes one.
    pub fn name_made(&self) -> Option<&'a str>
        ensures { option_map (λ name. name.now) result ≡ name_made (act_seen self.now) }
    {
        match *self {
            Act::Duplicate(name)
            | Act::CreateGroup(name)
            | Act::CreateChild(name)
            | Act::AttachToken(name) => Some(name),
            _ => None,
        }
    }
}

/// One call of a script.
#[derive(Clone, Copy, Debug)]
pub struct Call<'a> {
    pub act: Act<'a>,
    /// The name of the node that the call is made on.
    pub on: &'a str,
    /// The place of that name: 0 is the root's, and each call that makes a name gives it the next.
    pub place: usize,
    /// The actor who makes the call, by number: they are counted from 0, in the order in which they
    /// make their first.
    pub actor: usize,
}
