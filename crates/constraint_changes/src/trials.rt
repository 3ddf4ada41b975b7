//! Other constraints of a script's participants, tried by a run of the changed script: which are
//! worth a try, and what the report says then of a domain.

mod changed_lines;
mod drafting;
mod editing;
mod entries;
mod exchanging;
mod group;
mod need;
mod parties;
mod promising;
mod restating;
mod trying;
mod unmet;
mod worth;

pub use drafting::asked_after;
pub use editing::{EditedCall, edited_calls, is_edit};
pub use entries::{EntryPlace, entries_behind, entry_place};
pub use exchanging::{Exchange, exchanged_calls};
pub use group::{Group, line_at};
pub use parties::{Party, asked_with, can_help, first_open, hindering, parties_of};
pub use promising::{Promise, put_choice, put_exchanged, put_promise};
pub use restating::{RestatedConstraints, copied, restated};
pub use trying::{MOST_HALVINGS, Trial, TrialResult, chosen_with, reached_by};
pub use unmet::{ReadRecord, change_leaves_none, has_groups, leave_none, leaves_none};
pub use worth::{are_sized, is_image_named, is_worth, lacking_pair, lacks_image};
