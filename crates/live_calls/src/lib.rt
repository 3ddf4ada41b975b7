//! The calls of live collections for C: each works on an object behind a handle and answers a
//! status.
#![tactic(auto)]

mod acting;
mod checking;
mod copying;
mod deciding;
mod making;
mod naming;
mod opening;
mod reading;
mod settings;
mod statuses;
mod writing;

pub use acting::{act_on, set_on};
pub use checking::{check_on, selection_on};
pub use copying::copy_on;
pub use deciding::{decide_on, enter_on, freeze_on, give_up_on};
pub use making::{put_constraints, put_platform};
pub use naming::{name_on, set_name_on};
pub use opening::open;
pub use reading::{read_constraints_into, read_platform_into};
pub use statuses::{DONE, MISUSED, NO, NO_MEMORY, REFUSED};
pub use writing::fit;
