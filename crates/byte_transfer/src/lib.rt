//! Bytes from a reader up to a limit, and to a writer: whole, or up to the
//! first failure, which is counted.
//!
//! ```
//! let mut reader = Counted::new(file);
//! let bytes = read_up_to_limit(rt.alloc(), &mut reader, 4096)?;
//! let mut writer = Counted::new(io::writer(&rt));
//! write_fully(&mut writer, &bytes)?;
//! ```
#![tactic(auto)]

mod counted;
mod fault;
mod sink;
mod source;
mod transfer;

pub use counted::Counted;
pub use fault::{ReadFault, WriteFault};
pub use sink::Sink;
pub use source::Source;
pub use transfer::{read_up_to_limit, write_fully};
