//! A certificate that is written in pieces: of the proofs no text is made before it is written.
//!
//! ```
//! let mut pieces = CertificatePieces::new(alloc)?;
//! pieces.put(&platform, &path, &claim)?;
//! pieces.write(&mut file)?;
//! ```
#![tactic(auto)]

mod conflict;
mod decision;
mod full;
mod kept;
mod kept_front;
mod kept_line;
mod lines;
mod list;
mod path;
mod piece;
mod pieces;
mod proof;

pub use pieces::CertificatePieces;
