//! The tree of a collection: its nodes, what their actions make of it, and when its domains are
//! ready for a decision.
//!
//! ```
//! let mut tree = Tree::new(rt.alloc())?;
//! let camera = tree.apply(Event { node: tree.root(), action: Action::Duplicate })?;
//! tree.apply(Event { node: tree.root(), action: Action::Release })?;
//! assert!(!tree.is_ready(tree.domain_of(camera)));
//! ```
#![tactic(auto)]

mod action;
mod completing;
mod copying;
mod count;
mod deciding;
mod domain;
mod fate;
mod id;
pub mod laws;
mod layout;
pub mod layout_laws;
mod links;
mod members;
mod next_group;
mod node;
mod numbered;
mod open_groups;
mod participants;
mod path;
mod paths;
mod prefix;
mod refusal;
mod selecting;
mod settled;
mod shapes;
mod standing;
mod state;
mod sweep;
mod table;
mod tree;

pub use action::{Action, ActionKind, Event};
pub use fate::Fate;
pub use id::{DomainId, NodeId};
pub use layout::Layout;
pub use open_groups::{ChildPlace, GroupPlace, SettledNodes};
pub use path::Path;
pub use prefix::Prefix;
pub use refusal::Refusal;
pub use state::{NodeKind, NodeState};
pub use tree::{MOST_NODES, Tree};
