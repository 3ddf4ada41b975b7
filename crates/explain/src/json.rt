//! An explanation for programs: an object of JSON for each of its items, and one that ends them.

mod above;
mod changes;
mod item_object;
mod mentions;
mod object;
mod objects;
mod places;
mod scene;
mod telling;
mod values;
mod written;

pub(crate) use objects::objects_of;
pub(crate) use scene::{PlayedScript, Scene};
pub use written::{explain_as_json, explain_as_json_to_page};
