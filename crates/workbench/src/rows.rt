//! Plays actions and decisions on trees, one a line of standard input, and prints what each is
//! answered and how the tree's domains stand after it.
//!
//! - `tree WORDS` begins a new tree, and is printed as it is.
//! - `PATH ACTION` makes an action, as `duplicate` or `bind`, on the node at a path, as `/` or
//!   `/0/2`: `ok`, or the refusal, and the domains.
//! - `PATH chosen PREFIX` decides the node's domain for a selection, as `-` or `0.2`: `ok` and the
//!   domains, or why not.
//! - `PATH try PREFIX` decides the node's domain so in a copy of the tree, and the tree stays as it
//!   is: `ok` and the copy's domains, or why not.
//! - `PATH none` decides the node's domain for none: `ok` and the domains, or why not.
//! - `PATH selections`: how many selections the node's domain has.
//! - `PATH next PREFIX`: the path of the group that is next and how many children it has, or
//!   `none`.
//! - `PATH settled PREFIX`: the paths of the nodes with constraints that the prefix settles.
//! - `PATH members CHOICES`: the paths of the nodes that the choices settle, with constraints or
//!   without; none where they are no prefix.
//! - `PATH walk PREFIX`: over the domain's layout, the nodes that no choice settles, and then those
//!   that each choice of the prefix does; after each the group that is open then, or `whole`.
//! - `PATH shape`: the paths of the domain's nodes, a group's with `g`, a token's with `t`, a
//!   collection's with `c`, and `+` after one that set constraints.
//!
//! But for a walk, nodes are printed in the order in which they were made. Domains are printed as
//! one letter each, in the order in which their roots were made: `u` neither ready nor decided, `r`
//! ready, `c` decided for a selection, `n` for none, `f` failed.

mod actions;
mod asking;
mod choosing;
mod lines;
mod nodes;
mod walking;

use crate::failure::Failure;
use lines::answer;
use std::alloc::Global;
use std::io;
use sysmem_tree::Tree;

/// Plays the lines of standard input.
// What owns memory is made by one function and lent to another that may fail: else each `?` is
// proved to free it.
pub(crate) fn play_rows(rt: &HostRuntime) -> Result<(), Failure> {
    let rows = io::read_to_string(rt.alloc(), rt.reader())?;
    let text = played(rt.alloc(), &rows)?;
    print!(rt; "{text}")?;
    Ok(())
}

/// What is printed of these lines.
fn played(alloc: Global, rows: &str) -> Result<String, Failure> {
    let mut text = String::new(alloc);
    play(alloc, &mut text, &mut Tree::new(alloc)?, rows)?;
    Ok(text)
}

fn play(alloc: Global, text: &mut String, tree: &mut Tree, rows: &str) -> Result<(), Failure> {
    for line in rows.lines() {
        if line.starts_with("tree ") {
            *tree = Tree::new(alloc)?;
            text.push_str(line)?;
        } else {
            answer(alloc, text, tree, line)?;
        }
        text.push('\n')?;
    }
    Ok(())
}
