//! How many prefixes of small trees are visited. What is chosen of them is compared with going
//! through every selection by `tests/program/every_selection`.

use crate::equal::is_equal;
use crate::finding::search_frozen;
use crate::playing::frozen_after;
use std::alloc::{AllocError, Global};
use std::process::Abort;
use verdict_claims::Verdict;

// Scripts, in which a number stands for what the participant of that number asks. Groups stand in
// the order of their choices: those of a child before the next one of the node above it.
const SHAPES: [&str; 4] = [
    "/ create_group /0 create_child create_child all_children_present / create_group /1 create_child create_child create_child all_children_present /0/0 bind 1 /0/1 bind 2 /1/0 bind 5 /1/1 bind 6 /1/2 bind 7 / bind 0",
    "/ create_group /0 create_child create_child all_children_present /0/0 create_group /0/0/0 create_child create_child all_children_present / create_group /1 create_child create_child all_children_present /0/0 bind 1 /0/1 bind 2 /0/0/0/0 bind 5 /0/0/0/1 bind 6 /1/0 bind 9 /1/1 bind 10 / bind 0",
    "/ create_group /0 create_child create_child create_child all_children_present /0/1 create_group /0/1/0 create_child create_child all_children_present /0/1/0/1 create_group /0/1/0/1/0 create_child create_child all_children_present /0/0 bind 1 /0/1 bind 2 /0/2 bind 3 /0/1/0/0 bind 5 /0/1/0/1 bind 6 /0/1/0/1/0/0 bind 9 /0/1/0/1/0/1 bind 10 / bind 0",
    "/ create_group /0 create_child all_children_present /0/0 create_group /0/0/0 create_child create_child all_children_present /0/0 create_group /0/0/1 create_child create_child all_children_present / create_group /1 create_child create_child all_children_present /0/0 bind 1 /0/0/0/0 bind 5 /0/0/0/1 bind 6 /0/0/1/0 bind 9 /0/0/1/1 bind 10 /1/0 bind 13 /1/1 bind 14 / bind 0",
];

// What participants ask: images, with and without names, and counts that can't all be shared.
const WORDS: [&str; 7] = [
    "any",
    "nv12",
    "camps_on_40",
    "r8_or_nv12",
    "three_r8",
    "at_most_90",
    "short_rows",
];

// What the participant of this number asks in the tree of this number: for 49 trees no two are
// alike.
fn asked(tree: usize, participant: usize) -> &'static str {
    let square = participant.wrapping_mul(participant).wrapping_add(3);
    let first = (tree % 7).wrapping_mul(square);
    let second = (tree / 7).wrapping_mul(participant.wrapping_add(1));
    WORDS[first.wrapping_add(second).wrapping_add(participant) % 7]
}

// The script of this shape for the tree of this number.
fn tell_tree(script: &mut String, shape: &str, tree: usize) -> Result<(), AllocError> {
    for word in shape.split_whitespace() {
        let told = match word.parse::<usize>() {
            Ok(participant) => asked(tree, participant),
            Err(_) => word,
        };
        script.push_str(told)?;
        script.push(' ')?;
    }
    Ok(())
}

// Whether the tree of this number has a choice, as a number, and its visits; the gate of the search
// is told of each.
fn visited(rt: &impl Abort, alloc: Global, shape: &str, tree: usize) -> (u64, u64) {
    let mut script = String::new(alloc);
    tell_tree(&mut script, shape, tree).expect(rt, shape);
    let frozen = frozen_after(rt, alloc, &script);
    let found = search_frozen(alloc, &frozen).expect(rt, shape);
    is_equal(rt, "told of", &found.told, &found.visits);
    let is_chosen = matches!(found.verdict, Verdict::Chosen(_));
    (is_chosen as u64, found.visits)
}

// How many of the 49 trees of a shape have a choice, and the visits of all.
fn tally(rt: &impl Abort, alloc: Global, shape: &str) -> (u64, u64) {
    let (mut chosen, mut visits) = (0u64, 0u64);
    for tree in 0..49 {
        let (choices, more) = visited(rt, alloc, shape, tree);
        chosen = chosen.wrapping_add(choices);
        visits = visits.wrapping_add(more);
    }
    (chosen, visits)
}

// Each shape with 49 trees; how many are chosen and visited was counted by a program of other
// hands.
#[test]
fn visits_of_small_trees(rt: HostRuntime) {
    let (mut chosen, mut visits) = (0u64, 0u64);
    for shape in SHAPES {
        let (choices, more) = tally(&rt, rt.alloc(), shape);
        chosen = chosen.wrapping_add(choices);
        visits = visits.wrapping_add(more);
    }
    is_equal(&rt, "chosen, visits", &(chosen, visits), &(170, 857));
}
