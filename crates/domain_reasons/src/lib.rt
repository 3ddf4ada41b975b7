//! What became of each domain of a script, and why: who is awaited and what helps, what decided
//! each value of a choice, and who is in the way where nothing is chosen.
//!
//! ```
//! add_domain(&mut items, &script.platform, &story, 0)?;
//! print!(rt; "{}", text_of(rt.alloc(), &items.into_list()?)?)?;
//! ```
#![tactic(auto)]

mod answer;
mod awaiting;
mod choosing;
mod combinations;
mod domains;
mod failing;
mod late_choices;
mod lost;
mod passed_over;
mod room;
mod selecting;
mod short;

pub use answer::answer_of;
pub use awaiting::who_holds_up;
pub use domains::add_domain;
pub use lost::{Losses, add_gone, add_lost, add_reasons, domain_now, put_end, put_head};
pub use room::{accepted_before, count_above, gone_before, rooms_needed};
pub use selecting::choices_in;
pub use short::add_shortly;
