//! One hold of a collection's lock, in which an action is entered.

ghost use Rattle.std.specs.Prelude.{◌≡◌, ◌≢◌, ◌≤◌, ◌+◌, ◌++◌, ℕ, [], ◌∷◌, None, false, is_some, length, option_map, IfErr, IfOk, OnErr, OnOk};
ghost use Rattle.sysmem_alloc.specs.Book.{IsBook};
ghost use Rattle.sysmem_room.specs.Agreeing.{IsOwn};
ghost use Rattle.sysmem_room.specs.Entering.{HasEntered, IsRefused};
ghost use Rattle.node_limits.specs.Limits.{is_spent};
ghost use Rattle.sysmem_room.specs.Log.{shown_by};
ghost use Rattle.sysmem_room.specs.Refusals.{IsAnswer, IsDisputed, due};
ghost use Rattle.sysmem_tree.specs.ActionKind.{deed_of, ends_node, kind_of};
ghost use Rattle.sysmem_tree.specs.Table.{makes_root};

use crate::shared::SharedBook;
use node_limits::Limits;
use std::sync::Wait;
use std::sync::ledger::Ledger;
use sysmem_room::{EnteredAction, FreshCell, Log, Outcome, SeenBook, Turn};
use sysmem_tree::{Action, Refusal};

/// The book as an action found it in a hold, and as it left it; for clauses alone: it takes no
/// bytes.
#[derive(Drop)]
pub(crate) struct Hold<L: Ledger> {
    pub(crate) found: SeenBook<L>,
    pub(crate) left: SeenBook<L>,
}

/// Enters an action in one hold, in the book and in the log, and gives the turn to decide where that
/// is this thread's; `copy` is the same action, for the log. Beside that stands the book: an
/// accepted action is one more on the node that is at the log's path and agrees with the log and
/// what is known, and nothing else; and a refused one leaves it as it was.
pub(crate) fn in_hold<L: Ledger, R: Wait>(
    rt: &R,
    shared: &SharedBook<L>,
    log: &mut Log<L>,
    known: Option<&Outcome>,
    action: Action,
    copy: Action,
    fresh: Option<FreshCell>,
    limits: Limits,
) -> (
    Result<(EnteredAction<L>, Option<Turn<L>>), Refusal>,
    Hold<L>,
)
    requires same { deed_of copy ≡ deed_of action }
    requires room { ends_node (kind_of (deed_of action)) ≡ false
        → length log.old.deeds + 2 ≤ log.old.places }
    requires fresh { is_some fresh ≡ makes_root (kind_of (deed_of action)) }
    ensures legal { IsBook result.1.found }
    ensures entered { OnOk result.0 (HasEntered result.1.found result.1.left log.old
        (option_map (λ o. o.now) known.entry) (deed_of action)) }
    ensures unchanged { OnErr result.0 ((result.1.left ≡ result.1.found) × (log.new ≡ log.old)) }
    ensures own { IfErr result.0 (λ refusal. refusal ≢ Refusal.Strange → (node : ℕ)
        × IsOwn result.1.found log.old (option_map (λ o. o.now) known.entry) node) }
    ensures strange { IfErr result.0 (λ refusal. refusal ≡ Refusal.Strange → (node : ℕ)
        → IsOwn result.1.found log.old (option_map (λ o. o.now) known.entry) node
        → IsDisputed result.1.found log.old.path (shown_by log.old).state
        (option_map (λ o. o.now) known.entry) (kind_of (deed_of action)) node) }
    ensures told { IfErr result.0 (λ refusal. refusal ≢ Refusal.Strange
        → due (option_map (λ o. o.now) known.entry) log.old.path (shown_by log.old).state
        (kind_of (deed_of action)) ≡ None → IsRefused limits result.1.found log.old
        (option_map (λ o. o.now) known.entry) (deed_of action) refusal) }
    ensures within { OnOk result.0 (is_spent limits result.1.found.state.tree.nodes log.old.path
        (kind_of (deed_of action)) ≡ false) }
    ensures path { log.new.path ≡ log.old.path }
    ensures begun { log.new.begun ≡ log.old.begun }
    ensures logged { OnOk result.0 (log.new.deeds ≡ log.old.deeds ++ deed_of action ∷ []) }
    ensures foreseen { OnOk result.0 (due (option_map (λ o. o.now) known.entry) log.old.path
        (shown_by log.old).state (kind_of (deed_of action)) ≡ None) }
    ensures answers { IfErr result.0 (λ refusal. refusal ≢ Refusal.Strange
        → IsAnswer (due (option_map (λ o. o.now) known.entry) log.old.path
        (shown_by log.old).state (kind_of (deed_of action)))
        (option_map (λ o. o.now) known.entry) (kind_of (deed_of action)) refusal) }
    ensures before { IfOk result.0 (λ done. done.0.before ≡ log.old) }
    ensures kind { IfOk result.0 (λ done. done.0.kind ≡ kind_of (deed_of action)) }
{
    let mut room = shared.room.lock(rt);
    room.book().recall_legal();
    let found = room.seen();
    match room.act(log, known, action, copy, fresh, limits) {
        Ok(done) => {
            let left = room.seen();
            (Ok(done), Hold { found, left })
        }
        Err(refusal) => {
            let left = room.seen();
            (Err(refusal), Hold { found, left })
        }
    }
}
