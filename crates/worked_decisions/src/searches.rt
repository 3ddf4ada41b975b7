//! Searches of small trees and of attached domains: verdicts, and how many prefixes are visited.
//! The scripts of the same names in `tests/data/rows` have what proves the verdicts.

use crate::equal::is_equal;
use crate::finding::{search_frozen, tell_search};
use crate::playing::frozen_after;
use std::alloc::{AllocError, Global};
use std::process::Abort;
use sysmem_alloc::Frozen;

// Groups of two children each, below the root, without the second ones, and without the first ones
// but that of the first group; then the root's release.
fn tell_groups(script: &mut String, many: u32) -> Result<(), AllocError> {
    for group in 0..many {
        let first = if group > 0 { "release" } else { "" };
        write!(
            script,
            "/ create_group /{group} create_child create_child all_children_present /{group}/1 release /{group}/0 {first} "
        )?;
    }
    script.push_str(if many > 0 { "/ release " } else { "" })
}

/// What is frozen after these groups and steps.
pub(crate) fn frozen(rt: &impl Abort, alloc: Global, many: u32, then: &str) -> Frozen {
    let mut script = String::new(alloc);
    tell_groups(&mut script, many).expect(rt, then);
    script.push_str(then).expect(rt, then);
    frozen_after(rt, alloc, &script)
}

/// A name, how many groups of two there are, the steps, and what is found.
pub(crate) type Row = (&'static str, u32, &'static str, &'static str);

/// As worked by hand.
pub(crate) const ROWS: &[Row] = &[
    (
        "slack",
        0,
        "/ duplicate duplicate release /0 bind camps_on_2_and_slack /1 bind camps_on_3",
        "chosen [] count 9 visits 1 told 1 most 0",
    ),
    (
        "groups_share_nv12",
        0,
        "/ create_group /0 create_child create_child all_children_present / create_group /1 create_child all_children_present / bind any /0/0 bind any /0/1 bind any /1/0 bind nv12",
        "chosen [0, 0] count 1 visits 3 told 3 most 2",
    ),
    (
        "nothing_named",
        0,
        "/ create_group /0 create_child create_child all_children_present / create_group /1 create_child all_children_present / bind any /0/0 bind any /0/1 bind any /1/0 bind any",
        "empty visits 5 told 5 most 2",
    ),
    (
        "first_of_two_selections",
        0,
        "/ create_group /0 create_child create_child all_children_present / create_group /1 create_child create_child create_child all_children_present / release /0/0 bind r8 /0/1 bind nv12 /1/0 bind nv12 /1/1 bind r8g8b8a8 /1/2 bind r8",
        "chosen [0, 2] count 1 visits 5 told 5 most 2",
    ),
    (
        "nested_groups",
        0,
        "/ create_group release /0 create_child create_child all_children_present /0/0 create_group /0/0/0 create_child create_child all_children_present /0/0 release /0/0/0/0 bind never /0/0/0/1 bind never /0/1 bind cpu",
        "chosen [1] count 1 visits 5 told 5 most 2",
    ),
    (
        "twelve_groups",
        12,
        "/0/0 release",
        "chosen [0, 0, 0, 0, 0, 0, 0, 0, 0, 0, 0, 0] count 1 visits 13 told 13 most 12",
    ),
    (
        "prefix_cut",
        12,
        "/0/0 bind never",
        "chosen [1, 0, 0, 0, 0, 0, 0, 0, 0, 0, 0, 0] count 1 visits 14 told 14 most 12",
    ),
    (
        "thirteen_groups",
        13,
        "/0/0 bind never",
        "too_many visits 0 told 0 most 0",
    ),
    (
        "attached_group",
        0,
        "/ duplicate duplicate release /0 bind camps_on_2_and_slack /1 bind camps_on_3 decide /0 attach_token /0/0 create_group /0/0/0 create_child create_child all_children_present /0/0 release /0/0/0/0 bind camps_on_2 /0/0/0/1 bind camps_on_1",
        "chosen [1] count 9 visits 3 told 3 most 1",
    ),
    (
        "attached_group_empty",
        0,
        "/ duplicate duplicate release /0 bind camps_on_2_and_slack /1 bind camps_on_3 decide /0 attach_token /0/0 create_group /0/0/0 create_child create_child all_children_present /0/0 release /0/0/0/0 bind camps_on_2 /0/0/0/1 bind camps_on_2",
        "empty visits 3 told 3 most 1",
    ),
    // two ask for a tenth buffer of nine: that of a, who was released once their domain waited,
    // still counts for them
    (
        "released_meanwhile",
        0,
        "/ duplicate duplicate release /0 bind camps_on_2_and_slack /1 bind camps_on_3 decide /0 attach_token /0/0 bind camps_on_1 decide /1 attach_token /1/0 duplicate duplicate release /1/0/1 bind cpu /1/0/0 bind camps_on_1 /0 release",
        "empty visits 1 told 1 most 0",
    ),
    // and is given back to who comes later
    (
        "released_before",
        0,
        "/ duplicate duplicate release /0 bind camps_on_2_and_slack /1 bind camps_on_3 decide /0 attach_token /0/0 bind camps_on_1 decide /1 attach_token /1/0 duplicate duplicate release /1/0/1 bind cpu /1/0/0 bind camps_on_1 /0 release / decide /1 attach_token /1/1 bind camps_on_1",
        "chosen [] count 9 visits 1 told 1 most 0",
    ),
];

fn is_as_worked(rt: &impl Abort, alloc: Global, row: Row) {
    let (name, many, then, wanted) = row;
    let frozen = frozen(rt, alloc, many, then);
    let found = search_frozen(alloc, &frozen).expect(rt, name);
    let mut text = String::new(alloc);
    tell_search(&mut text, &found).expect(rt, name);
    is_equal(rt, name, &text.as_str(), &wanted);
}

#[test]
fn what_is_found(rt: HostRuntime) {
    for row in ROWS {
        is_as_worked(&rt, rt.alloc(), *row);
    }
}
