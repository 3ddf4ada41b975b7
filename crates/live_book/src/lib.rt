//! Live collections: what is kept of one between calls, and what each call does to it. Nothing here
//! knows of a lock: each call has what it is lent for itself.
#![tactic(auto)]

mod acting;
mod checking;
mod collection;
mod deciding;
mod decision;
mod naming;
mod object;
mod quota;
mod snapshot;

pub use acting::{AcceptedCall, Denial, act};
pub use checking::{check, selection};
pub use collection::Collection;
pub use deciding::{decide, enter, freeze, give_up};
pub use decision::Decision;
pub use naming::{Misnamed, set_name};
pub use object::Object;
pub use snapshot::Snapshot;
