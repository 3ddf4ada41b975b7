//! The story of a script's calls as a page shows it: the tree with how each node stands, and the
//! calls by actor with the decisions where they came.

mod hindering;
mod joints;
mod states;
mod timeline;

pub(crate) use timeline::drawing_of;
