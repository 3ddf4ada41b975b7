//! A script's explanation, written as text and as a page, and how it ends the program.

mod drawing;
mod ending;
mod paged;
mod proofs;
mod written;

pub use ending::explained_ending;
pub(crate) use paged::page_of_scene;
pub use written::explain_to_page;
