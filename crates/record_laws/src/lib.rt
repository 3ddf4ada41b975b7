//! Laws that join what participants and platforms may be to the records that state them. They stand
//! above `sysmem_sanitise`, so that its readers are proved without them.
#![tactic(auto)]

pub mod laws;
