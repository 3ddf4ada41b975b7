//! What a script means, in words: where it has a fault, why calls were refused, who is awaited,
//! what decided each value of a choice, and who is in the way where nothing is chosen. As text, as
//! a page, and for programs as objects of JSON.
//!
//! ```
//! let explanation = explain(rt.alloc(), "camera.json", bytes)?;
//! print!(rt; "{}", text_of(rt.alloc(), &explanation.items)?)?;
//! print!(rt; "{}", objects_of(rt.alloc(), "camera.json", bytes, &explanation)?)?;
//! let outcome = explain_to_page(rt.alloc(), "camera.json", &mut reader, &mut writer, &mut page)?;
//! ```
#![tactic(auto)]

mod broken;
mod corrected;
mod domains;
mod drafts;
mod entries;
mod explaining;
mod helping;
mod idle_modifiers;
mod json;
mod lines;
mod mended;
mod mended_words;
mod not_chosen;
mod page;
mod too_great;
mod written;

pub use explaining::{Explanation, Outcome, Outputs, explain};
pub use explanation_text::{Item, Kind, text_of};
pub use json::{explain_as_json, explain_as_json_to_page};
pub use page::{explain_to_page, explained_ending};
pub use written::explain_file;
