//! Collections that threads share: handles, each of which acts, waits, and learns what was decided;
//! and an audit of them all at the end.
//!
//! ```
//! // of a collection's root token, and with a list of stubs that has room
//! let camera = root.duplicate(&rt);
//! match root.release(&rt) {
//!     Ok(stub) => stubs.push_reserved(stub),
//!     Err((root, refusal)) => stubs.push_reserved(root.close(&rt).0),
//! }
//! // on the camera's thread, with the token of `camera`
//! match camera.bind(&rt) {
//!     Ok(mut camera) => {
//!         let told = negotiate(&rt, &mut camera, constraints);
//!         stubs.push_reserved(camera.close(&rt).0);
//!     }
//!     Err((camera, refusal)) => stubs.push_reserved(camera.close(&rt).0),
//! }
//! // negotiate: it borrows the handle, so it can use `?`
//! collection.set_constraints(&rt, Some(constraints))?;
//! let view = collection.wait_for_all(&rt)?;
//! Ok(view.settings())
//! ```
#![tactic(auto)]

mod acting;
mod agreeing;
mod allocator;
mod collection;
mod deciding;
mod ending;
mod faults;
mod gathering;
mod group;
mod holding;
pub mod laws;
mod reading;
mod seat;
mod shared;
mod stub;
mod telling;
mod token;
mod view;
mod waiting;

pub use agreeing::stubs_agree;
pub use allocator::Allocator;
pub use collection::Collection;
pub use faults::{Audit, AuditFault};
pub use gathering::audit;
pub use group::Group;
pub use reading::{Reader, Reading};
pub use stub::Stub;
pub use token::Token;
pub use view::View;
