//! Calls of which two state each other's records.

ghost use Rattle.std.specs.Prelude.{map, IfOk, IfSome};
ghost use Rattle.script_reading.specs.Seen.{call_seen};
ghost use Rattle.constraint_changes.specs.Edited.{AreExchanged};

use crate::trials::editing::stated_at;
use crate::trials::restating::RestatedConstraints;
use crate::trials::trying::replaced;
use script_reading::Call;
use std::alloc::{AllocError, Global};

/// Two calls whose records are exchanged.
#[derive(Drop)]
pub struct Exchange {
    /// The place of one, from 0.
    pub one: usize,
    /// The place of the other one.
    pub other: usize,
    /// What they state then.
    pub stated: Vec<RestatedConstraints>,
}

/// The calls, of which those at two places state each what the other one states; `None` where one
/// of them states nothing.
#[tactic(auto, using(crate::proofs::Promises::exchanged_at))]
pub fn exchanged_calls<'a>(
    alloc: Global,
    calls: &[Call<'a>],
    one: usize,
    other: usize,
) -> Result<Option<Vec<Call<'a>>>, AllocError>
    ensures { IfOk result (λ made. IfSome made (λ made.
        AreExchanged (map call_seen calls.now) one other (map call_seen made.items))) }
{
    let Some(mine) = stated_at(calls, one) else {
        return Ok(None);
    };
    let Some(its) = stated_at(calls, other) else {
        return Ok(None);
    };
    let first = replaced(alloc, calls, one, its)?;
    let both = replaced(alloc, &first, other, mine)?;
    Ok(Some(both))
}
