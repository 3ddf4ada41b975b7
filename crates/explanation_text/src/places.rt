//! Where the values of a JSON text stand in it, and where a text that is no JSON stops being some.

mod finding;
mod helping;
mod keys;
mod lines;
mod machine;
mod mending;
mod path;
mod repeats;
mod skipping;
mod spelling;
mod stopping;
mod taken;

pub use finding::{key_span_of, span_of};
pub use keys::{Span, Step};
pub use lines::{begins_character, characters, column_of, end_of_line, line_of, start_of_line};
pub use path::value_at;
pub use repeats::repeated_keys;
pub use stopping::{JsonStop, stop_of};
pub use taken::Expected;
