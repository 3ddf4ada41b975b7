//! The names that a script has for nodes.

use script_replay::{Event, ReplayedCalls};
use std::alloc::{AllocError, Global};
use sysmem_tree::Path;

/// A node's name in the script, and its path.
#[derive(Drop)]
struct NodeName<'a> {
    name: &'a str,
    path: Path,
}

/// The nodes of a collection, in the order in which they were made.
#[derive(Drop)]
pub(crate) struct Names<'a> {
    list: Vec<NodeName<'a>>,
}

impl<'a> Names<'a> {
    /// The names of the nodes that calls made.
    pub(crate) fn of(alloc: Global, replayed: &ReplayedCalls<'a>) -> Result<Names<'a>, AllocError> {
        let mut names = Names {
            list: Vec::new(alloc),
        };
        names.add(replayed, 0, "root")?;
        let mut place = 0usize;
        for event in replayed.events.as_slice() {
            let Event::Call(called) = event else {
                continue;
            };
            if let Some(name) = called.call.act.name_made() {
                place = place.saturating_add(1);
                names.add(replayed, place, name)?;
            }
        }
        Ok(names)
    }

    /// Adds the node that the name at a place stands for, if there is one.
    fn add(
        &mut self,
        replayed: &ReplayedCalls<'a>,
        place: usize,
        name: &'a str,
    ) -> Result<(), AllocError> {
        let tree = replayed.book().tree();
        let Some(number) = replayed.node_named(place) else {
            return Ok(());
        };
        if let Some(node) = tree.node(number) {
            let path = tree.path_of(node)?;
            self.list.push(NodeName { name, path })?;
        }
        Ok(())
    }

    /// The name of the node at a path of these ordinals, if there is one.
    pub(crate) fn at(&self, ordinals: &[u32]) -> Option<&'a str> {
        for named in &self.list {
            if named.path.ordinals() == ordinals {
                return Some(named.name);
            }
        }
        None
    }
}
