//! Verdicts and what proves them as the text of a certificate, and back.
//!
//! ```
//! let mut writer = CertificateWriter::new(alloc)?;
//! writer.put(&platform, &path, Some(&claim))?;
//! let text = writer.finish()?;
//! ```
#![tactic(auto)]

mod bounds;
mod claim;
mod item;
mod json_writer;
pub mod laws;
mod line;
mod member;
mod part;
mod path;
mod path_list;
mod reading;
mod settings;
mod text;
mod unread;
mod writer;

pub use claim::read_proof;
pub use path::push_path;
pub use unread::Unread;
pub use writer::CertificateWriter;
