//! The audit of a collection whose handles are all spent.

ghost use Rattle.std.specs.Prelude.{◌≡◌, ◌≢◌, ◌<◌, ◌+◌, ◌↔◌, Err, None, length, sum_by, vec_len, IfErr, IfOk, IsSomeAnd, IsTrue, MatchResult};
ghost use Rattle.sysmem_alloc.specs.Book.{IsBook};
ghost use Rattle.sysmem_participants.specs.Audit.{AgreesWith, AreFor, AreRead, IsFaultOf};
ghost use Rattle.sysmem_room.specs.Counting.{actions_in};

use crate::agreeing::stubs_agree;
use crate::faults::{Audit, AuditFault};
use crate::shared::SharedBook;
use crate::stub::Stub;
use negotiation_inputs::Platform;
use std::sync::ledger::{Ledger, Share};
use std::sync::{Arc, Wait};
use sysmem_room::{Room, SeenBook};

/// A share with all parts and amounts of the stubs'.
fn joined<L: Ledger>(start: Share<L>, stubs: Vec<Stub<L>>) -> Share<L>
    ensures parts { result.parts ≡ start.parts + vec_len stubs }
    ensures amount { result.amount ≡ start.amount + sum_by (λ s. length s.deeds) stubs.items }
{
    let mut all = start;
    for stub in stubs {
        all.merge(stub.into_share());
    }
    all
}

/// Counts the stubs' actions, of which there are as many as in the history where there is a stub
/// for each node.
fn count<L: Ledger>(room: &mut Room<L>, stubs: Vec<Stub<L>>)
    requires { vec_len stubs ≡ length room.old.state.tree.nodes }
    ensures same { room.new ≡ room.old }
    ensures actions { sum_by (λ s. length s.deeds) stubs.items ≡ actions_in room.old.history }
{
    let start = room.no_share();
    let mut all = joined(start, stubs);
    room.count(&mut all);
}

/// Whether all stubs are of collections for this platform.
fn are_for<L: Ledger>(platform: &Platform, stubs: &[Stub<L>]) -> bool
    ensures { IsTrue result ↔ AreFor platform.now stubs.now }
{
    for stub in stubs {
        if !stub.shared.platform.is_same(platform) {
            return false;
        }
    }
    true
}

/// What is found of a collection by the stubs of all its handles, once these are spent: its book,
/// which stays as it is, has what they have, for their platform, and as many actions as they have
/// together. Else the first fault, and the stubs, with what was read of their cells. Beside both
/// stands the book.
fn audited<L: Ledger>(
    room: &mut Room<L>,
    stubs: Vec<Stub<L>>,
) -> Result<(Audit, SeenBook<L>), (AuditFault, SeenBook<L>, Vec<Stub<L>>)>
    ensures same { room.new ≡ room.old }
    ensures legal { IsBook room.old }
    ensures seen { MatchResult result (λ found. found.1 ≡ room.old)
        (λ refused. refused.1 ≡ room.old) }
    ensures agree { IfOk result (λ found. AgreesWith found.1 stubs.items found.0) }
    ensures read { IfErr result (λ refused. AreRead stubs.items refused.2.items) }
    ensures fault { IfErr result (λ refused. IsFaultOf refused.1 refused.2.items refused.0) }
    ensures memory { IfErr result (λ refused. refused.0 ≢ AuditFault.NoMemory) }
    ensures sum { IfOk result (λ found.
        found.0.actions ≡ sum_by (λ s. length s.deeds) stubs.items) }
{
    let seen = room.seen();
    let mut stubs = stubs;
    let is_for = are_for(room.book().platform(), &stubs);
    if !is_for {
        return Err((AuditFault::Stubs, seen, stubs));
    }
    let audit = match stubs_agree(room.book(), &mut stubs) {
        Ok(audit) => audit,
        Err(fault) => return Err((fault, seen, stubs)),
    };
    count(room, stubs);
    Ok((audit, seen))
}

/// One more owner of the collection of the first stub.
fn shared_of<L: Ledger>(stubs: &[Stub<L>]) -> Result<Arc<SharedBook<L>>, AuditFault>
    ensures empty { length stubs.now ≡ 0 → result ≡ Err AuditFault.Stubs }
    ensures some { IfErr result (λ fault.
        0 < length stubs.now → fault ≡ AuditFault.NoMemory) }
{
    let Some(stub) = stubs.first() else {
        return Err(AuditFault::Stubs);
    };
    match Arc::try_clone(&stub.shared) {
        Ok(shared) => Ok(shared),
        Err(_) => Err(AuditFault::NoMemory),
    }
}

/// Joins the stubs of a collection, once all its handles are spent: whether they and its book say
/// the same, and what there is to count; or the first fault. Beside that stands the book as it was
/// seen under its lock, which is legal. Where they say the same, it is for the stubs' platform, and
/// as many actions as the handles made stand in it. Of no stubs, and of some for another platform,
/// it answers `Stubs`; of no stubs, and where memory is refused, it sees no book. Beside a fault
/// come the stubs, each with what was read of its cell: where memory was refused they can be handed
/// to an audit again.
pub fn audit<L: Ledger, R: Wait>(
    rt: &R,
    stubs: Vec<Stub<L>>,
) -> Result<(Audit, SeenBook<L>), (AuditFault, Option<SeenBook<L>>, Vec<Stub<L>>)>
    ensures book { IfOk result (λ found. IsBook found.1) }
    ensures agree { IfOk result (λ found. AgreesWith found.1 stubs.items found.0) }
    ensures some { IfOk result (λ _. 0 < vec_len stubs) }
    ensures empty { IfErr result (λ refused. vec_len stubs ≡ 0
        → (refused.0 ≡ AuditFault.Stubs) × (refused.1 ≡ None)) }
    ensures read { IfErr result (λ refused. AreRead stubs.items refused.2.items) }
    ensures fault { IfErr result (λ refused.
        0 < vec_len stubs → refused.0 ≢ AuditFault.NoMemory → IsSomeAnd refused.1
        (λ book. IsBook book × IsFaultOf book refused.2.items refused.0)) }
    ensures unseen { IfErr result (λ refused.
        refused.0 ≡ AuditFault.NoMemory → refused.1 ≡ None) }
    ensures sum { IfOk result (λ found.
        found.0.actions ≡ sum_by (λ s. length s.deeds) stubs.items) }
{
    let shared = match shared_of(&stubs) {
        Ok(shared) => shared,
        Err(fault) => return Err((fault, None, stubs)),
    };
    let mut room = shared.room.lock(rt);
    match audited(&mut room, stubs) {
        Ok(found) => Ok(found),
        Err((fault, seen, stubs)) => Err((fault, Some(seen), stubs)),
    }
}
