//! Why no settings meet the participants that are settled.

use crate::line::{Line, Lines};
use sysmem_counts::Field;
use sysmem_tree::Path;

/// A conflict of participants that are settled by choices.
#[derive(Debug, Drop)]
pub enum Conflict {
    /// No count suits them; of an attached domain, its base's count doesn't, where
    /// those accepted before take part.
    Count(Line),
    /// Each place of the platform is refused by some of them: a line for each.
    Places(Lines),
    /// No offer of the platform suits some of them: a line for each.
    Offers(Lines),
    /// Of an attached domain: the base's settings fail the participant at this path in this field.
    Fixed(Field, Path),
}
