//! What proves that no settings meet any selection that goes on from some choices.

ghost use Rattle.std.specs.Prelude.{◌≡◌};

use crate::conflict::Conflict;
use std::marker::Model;

/// One of the items of a refutation.
#[derive(Debug, Drop)]
pub enum Item {
    /// The next group has this many children; behind it stands a refutation of the choice of each.
    Split(u64),
    /// A conflict of those that are settled.
    Leaf(Conflict),
}

/// Splits and conflicts in pre-order, one flat list.
#[derive(Debug)]
pub struct Refutation {
    items: Vec<Item>,
}

impl Drop for Refutation {
    fn drop(self) {
        let Refutation { items: _ } = self;
    }
}

impl Model for Refutation {
    ghost use Rattle.std.specs.Prelude.{List};
    ghost use Rattle.verdict_claims.specs.declared.refutation.Item.{Item};

    ghost Value = { List Item };

    ghost view = { λ r. r.items.items };
}

impl Refutation {
    /// These items. Any are a refutation; what they refute is a checker's matter.
    pub fn new(items: Vec<Item>) -> Refutation
        ensures { result ≡ items.items }
    {
        Refutation { items }
    }

    /// The items in pre-order.
    pub fn items(&self) -> &[Item]
        ensures { result.now ≡ self.now }
    {
        &self.items
    }
}
