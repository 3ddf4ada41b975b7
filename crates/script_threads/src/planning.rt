//! The calls of a script as actors on threads make them.

use script_reading::{Act, Call};
use script_replay::Reply;
use sysmem_tree::Refusal;

/// With more names than these the order in which actors come decides which nodes are made, since a
/// collection has at most 128.
const MOST_NAMES: usize = 127;

/// Whether what a wait answers in the order of the script is no verdict.
fn is_unanswered(reply: Reply) -> bool {
    matches!(reply, Reply::Refused(Refusal::Pending) | Reply::Skipped)
}

/// How many names the calls make.
pub(crate) fn names_made(calls: &[Call<'_>]) -> usize {
    calls
        .iter()
        .filter(|call| call.act.name_made().is_some())
        .count()
}

/// Makes a check of each wait that could last for ever: that gets no verdict in the order of the
/// script, by these replies, or any where there are too many names.
pub(crate) fn settle_waits(calls: &mut [Call<'_>], replies: &[Reply]) {
    let is_crowded = names_made(calls) > MOST_NAMES;
    for (call, reply) in calls.iter_mut().zip(replies) {
        if matches!(call.act, Act::Wait) && (is_crowded || is_unanswered(*reply)) {
            call.act = Act::Check;
        }
    }
}
