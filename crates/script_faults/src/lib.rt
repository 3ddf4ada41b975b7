//! Where the faults of a script, and of a record in it, stand in its text, and what would be right,
//! in words.
//!
//! ```
//! let mut items = Items::new(rt.alloc());
//! let (file, whole) = ("camera.json", Whole::Script);
//! add_fault(&mut items, &Document { file, bytes, value: &value, whole }, fault)?;
//! print!(rt; "{}", text_of(rt.alloc(), &items.into_list()?)?)?;
//! if let Some(words) = record_fault(rt.alloc(), RecordKind::Platform, record, "pixel.json")? {
//!     print!(rt; "{words}")?;
//! }
//! ```
#![tactic(auto)]

mod call_fault;
mod help;
mod keys;
mod no_json;
mod only;
mod record;
mod record_alone;
mod script_fault;

pub use call_fault::actor_of;
pub use help::Help;
pub use record::{Document, RecordPart, Whole, add_record_fault};
pub use record_alone::{RecordFault, RecordKind, record_fault};
pub use script_fault::{add_fault, add_no_json};
