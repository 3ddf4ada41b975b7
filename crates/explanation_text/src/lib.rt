//! What is told, as a list of items, and its text: lines of words, and lines of a source with
//! carets below a part of them; the same as a page of HTML; and where the values of a JSON text
//! stand in it.
//!
//! ```
//! let mut items = Items::new(rt.alloc());
//! items.list_text(1, Label::Who, "camera /0 and display /1");
//! print!(rt; "{}", text_of(rt.alloc(), &items.into_list()?)?)?;
//! if let Some(span) = span_of(rt.alloc(), bytes, &[Step::Key("calls"), Step::Item(3)], &value)? {
//!     println!(rt; "line {}", line_of(bytes, span.start))?;
//! }
//! ```
#![tactic(auto)]

mod correction;
mod decided;
mod facts;
mod items;
mod label;
mod markup;
mod near;
mod places;
mod printing;
mod snippet;
pub mod wording;
mod words;

pub use correction::{Correction, Meant, Moved, Owner, Renamed};
pub use decided::{Choice, Decided};
pub use facts::{Deed, Fact, Said};
pub use items::{Item, Items, Kind, are_same};
pub use label::Label;
pub use markup::{Drawing, Joint, Line, Shape, Standing, page_of};
pub use near::nearest;
pub use places::{
    Expected, JsonStop, Span, Step, begins_character, characters, column_of, end_of_line,
    key_span_of, line_of, repeated_keys, span_of, start_of_line, stop_of, value_at,
};
pub use printing::text_of;
pub use snippet::{Mark, Shown, show};
pub use words::{ListBuilder, Mention, Name, Phrase, Text, TextBuilder, Thing};
