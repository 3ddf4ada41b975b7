//! Where in a history the actions on each node are.

ghost use Rattle.std.specs.Prelude.{◌≡◌, ◌≢◌, ◌<◌, ◌≤◌, ◌+◌, [], IfSome, get_or, slice_set};
ghost use Rattle.sysmem_room.specs.Places.{ArePlaces};

use sysmem_tree::{ActionKind, MOST_NODES};

/// The places of the actions on each node in a history, from the last one back. A place is the
/// number of entries up to an action and with it; it is 0 where there is none. The `Duplicate`s at
/// the end of a node's actions, of which a token that is shared with many has many, are counted.
#[derive(Drop)]
pub(crate) struct Places {
    /// For each node the place of the last action on it.
    last: [u16; MOST_NODES],
    /// For each action, by its index in the history, the place of the one before it on its node.
    before: [u16; 640],
    /// For each node the place of the last action on it that is no `Duplicate`.
    other: [u16; MOST_NODES],
    /// For each node how many `Duplicate`s come after that.
    duplicates: [u16; MOST_NODES],
}

impl Places {
    /// Of a history without entries.
    pub(crate) fn new() -> Places
        ensures { ArePlaces [] result }
    {
        Places {
            last: [0; MOST_NODES],
            before: [0; 640],
            other: [0; MOST_NODES],
            duplicates: [0; MOST_NODES],
        }
    }

    /// Notes an action of this kind on a node that was entered after so many entries.
    pub(crate) fn add(&mut self, node: u32, entries: usize, kind: ActionKind)
        requires node { node < MOST_NODES }
        requires few { entries < 640 }
        requires duplicates { get_or self.old.duplicates node 0 ≤ entries }
        ensures last { self.new.last ≡ slice_set self.old.last node (entries + 1) }
        ensures before { self.new.before
            ≡ slice_set self.old.before entries (get_or self.old.last node 0) }
        ensures again { kind ≡ ActionKind.Duplicate → (self.new.other ≡ self.old.other)
            × (self.new.duplicates ≡ slice_set self.old.duplicates node
            (get_or self.old.duplicates node 0 + 1)) }
        ensures other { kind ≢ ActionKind.Duplicate
            → (self.new.other ≡ slice_set self.old.other node (entries + 1))
            × (self.new.duplicates ≡ slice_set self.old.duplicates node 0) }
    {
        let number = node as usize;
        let place = (entries + 1) as u16;
        self.before[entries] = self.last[number];
        self.last[number] = place;
        if kind == ActionKind::Duplicate {
            self.duplicates[number] += 1;
        } else {
            self.other[number] = place;
            self.duplicates[number] = 0;
        }
    }

    /// The place of the last action on a node that is no `Duplicate`.
    pub(crate) fn other(&self, node: u32) -> usize
        requires { node < MOST_NODES }
        ensures { result ≡ get_or self.now.other node 0 }
    {
        self.other[node as usize] as usize
    }

    /// How many `Duplicate`s come after that.
    pub(crate) fn duplicates(&self, node: u32) -> usize
        requires { node < MOST_NODES }
        ensures { result ≡ get_or self.now.duplicates node 0 }
    {
        self.duplicates[node as usize] as usize
    }

    /// The place of the action before the one at this index in the history, on the same node.
    pub(crate) fn earlier(&self, index: usize) -> Option<usize>
        ensures { IfSome result (λ place. place ≡ get_or self.now.before index 0) }
    {
        let place = *self.before.get(index)?;
        Some(place as usize)
    }
}
