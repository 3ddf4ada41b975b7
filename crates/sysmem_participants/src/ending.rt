//! The actions that spend a handle.

ghost use Rattle.std.specs.Prelude.{◌≡◌, ◌≢◌, ◌++◌, ℕ, [], ◌∷◌, None, Some, false, true, option_map, IfErr, IfOk, IfSome, MatchOption, MatchResult, OnErr, OnOk};
ghost use Rattle.sysmem_participants.specs.Held.{AnswersAtEnd, HasActed, HasOwn, IsInBook, MayEnter, RefusesInBook, acted, left_of, state_of};
ghost use Rattle.sysmem_alloc.specs.Book.{IsBook};
ghost use Rattle.sysmem_room.specs.Agreeing.{IsOwn};
ghost use Rattle.sysmem_room.specs.Entering.{HasEntered};
ghost use Rattle.sysmem_room.specs.Log.{shown_by};
ghost use Rattle.sysmem_room.specs.Refusals.{due};
ghost use Rattle.sysmem_tree.specs.ActionKind.{closes, deed_of, ends_node, kind_of, releases};
ghost use Rattle.sysmem_tree.specs.Table.{makes_root};

use crate::acting::enter;
use crate::holding::Hold;
use crate::seat::Seat;
use crate::shared::{Rules, SharedBook};
use crate::stub::Stub;
use once_cell::race::Note;
use std::sync::Wait;
use std::sync::ledger::Ledger;
use std::thread::Threads;
use sysmem_room::{Log, Outcome};
use sysmem_search::Gate;
use sysmem_tree::{Action, Refusal};

/// The book's refusal as an action that ends its node answers it: a domain's verdict refuses none
/// of these.
fn at_end(refusal: Refusal) -> Refusal
    ensures told { result ≢ Refusal.Strange
        → (result ≡ Refusal.WrongState) × (refusal ≡ Refusal.WrongState) }
    ensures same { refusal ≡ Refusal.WrongState → result ≡ Refusal.WrongState }
{
    if refusal == Refusal::WrongState {
        Refusal::WrongState
    } else {
        Refusal::Strange
    }
}

/// Enters the last action on a node, in the book and in the log, and decides where that is this
/// thread's turn. Beside that the book as the action found and left it.
fn end<L: Ledger, G: Gate + Drop + Sync, R: Threads + Wait + Sync>(
    rt: &R,
    shared: &SharedBook<L>,
    rules: &Rules<G>,
    log: &mut Log<L>,
    known: Option<&Outcome>,
    action: Action,
    copy: Action,
) -> (Result<(), Refusal>, Hold<L>)
    requires same { deed_of copy ≡ deed_of action }
    requires rootless { makes_root (kind_of (deed_of action)) ≡ false }
    requires ends { ends_node (kind_of (deed_of action)) ≡ true }
    ensures entered { OnOk result.0 (HasEntered result.1.found result.1.left log.old
        (option_map (λ o. o.now) known.entry) (deed_of action)) }
    ensures path { log.new.path ≡ log.old.path }
    ensures begun { log.new.begun ≡ log.old.begun }
    ensures logged { OnOk result.0 (log.new.deeds ≡ log.old.deeds ++ deed_of action ∷ []) }
    ensures strange { IfErr result.0 (λ refusal. refusal ≡ Refusal.Strange → (node : ℕ)
        → IsOwn result.1.found log.old (option_map (λ o. o.now) known.entry) node → ⊥) }
    ensures legal { IsBook result.1.found }
    ensures own { IfErr result.0 (λ refusal. refusal ≢ Refusal.Strange → (node : ℕ)
        × IsOwn result.1.found log.old (option_map (λ o. o.now) known.entry) node) }
    ensures unchanged { OnErr result.0 ((result.1.left ≡ result.1.found) × (log.new ≡ log.old)) }
    ensures foreseen { OnOk result.0 (due (option_map (λ o. o.now) known.entry) log.old.path
        (shown_by log.old).state (kind_of (deed_of action)) ≡ None) }
    ensures answers { IfErr result.0 (λ refusal. refusal ≢ Refusal.Strange
        → (refusal ≡ Refusal.WrongState)
        × (due (option_map (λ o. o.now) known.entry) log.old.path (shown_by log.old).state
        (kind_of (deed_of action)) ≡ Some Refusal.WrongState)) }
{
    let (entered, hold) = enter(rt, shared, rules, log, known, action, copy, None);
    match entered {
        Ok(_entered) => (Ok(()), hold),
        Err(refusal) => (Err(at_end(refusal)), hold),
    }
}

impl<L: Ledger, G: Gate + Drop> Seat<L, G> {
    /// What is left of the handle.
    fn left(self) -> Stub<L>
        ensures { result ≡ left_of self }
    {
        let Seat {
            shared,
            rules: _rules,
            log,
            cell,
            note,
        } = self;
        Stub {
            shared,
            log: log.spent(),
            cell,
            note,
        }
    }
}

impl<L: Ledger, G: Gate + Drop + Sync> Seat<L, G> {
    /// Ends the node by an action: what is left of the handle, or the handle as it was, and why.
    /// `copy` is the same action, for the log. Beside that the book as the action found and left
    /// it, and what it saw in the cell before.
    fn spend<R: Threads + Wait + Sync>(
        self,
        rt: &R,
        action: Action,
        copy: Action,
    ) -> (
        Result<Stub<L>, (Seat<L, G>, Refusal)>,
        Hold<L>,
        Note<Outcome>,
    )
        requires same { deed_of copy ≡ deed_of action }
        requires rootless { makes_root (kind_of (deed_of action)) ≡ false }
        requires ends { ends_node (kind_of (deed_of action)) ≡ true }
        ensures left { IfOk result.0 (λ stub. stub ≡ left_of (acted self (deed_of action))) }
        ensures back { IfErr result.0 (λ refused. refused.0 ≡ self) }
        ensures was_open { (state_of self).is_open ≡ true }
        ensures foreseen { OnOk result.0 (MayEnter self (deed_of action)) }
        ensures answers { IfErr result.0 (λ refused.
            AnswersAtEnd self (deed_of action) refused.1) }
        ensures saw { (result.2.cell ≡ self.cell)
            × IfSome self.known (λ known. result.2.known ≡ Some known) }
        ensures taken { OnOk result.0
            (HasActed result.1.found result.1.left self result.2.known (deed_of action)) }
        ensures as_found { OnErr result.0 (result.1.left ≡ result.1.found) }
        ensures own { IfErr result.0 (λ refused. refused.1 ≢ Refusal.Strange
            → HasOwn result.1.found self result.2.known) }
        ensures strange { IfErr result.0 (λ refused. refused.1 ≡ Refusal.Strange
            → (HasOwn result.1.found self result.2.known → ⊥)) }
        ensures there { MatchResult result.0 (λ _. IsInBook self)
            (λ refused. RefusesInBook self refused.1) }
    {
        let Seat {
            shared,
            rules,
            mut log,
            cell,
            mut note,
        } = self;
        let mut seen = note.again();
        let known = cell.get_as(&mut seen);
        let (ended, hold) = end(rt, &shared, &rules, &mut log, known, action, copy);
        match ended {
            Ok(()) => {
                let stub = Stub {
                    shared,
                    log: log.spent(),
                    cell,
                    note,
                };
                (Ok(stub), hold, seen)
            }
            Err(refusal) => {
                let seat = Seat {
                    shared,
                    rules,
                    log,
                    cell,
                    note,
                };
                (Err((seat, refusal)), hold, seen)
            }
        }
    }

    /// Releases the node: what is left of the handle, or the handle as it was, and why. Beside that
    /// the book as the release found and left it, and what it saw in the cell before.
    pub(crate) fn release<R: Threads + Wait + Sync>(
        self,
        rt: &R,
    ) -> (
        Result<Stub<L>, (Seat<L, G>, Refusal)>,
        Hold<L>,
        Note<Outcome>,
    )
        ensures left { IfOk result.0 (λ stub. stub ≡ left_of (acted self releases)) }
        ensures back { IfErr result.0 (λ refused. refused.0 ≡ self) }
        ensures foreseen { OnOk result.0 (MayEnter self releases) }
        ensures answers { IfErr result.0 (λ refused. AnswersAtEnd self releases refused.1) }
        ensures saw { (result.2.cell ≡ self.cell)
            × IfSome self.known (λ known. result.2.known ≡ Some known) }
        ensures taken { OnOk result.0
            (HasActed result.1.found result.1.left self result.2.known releases) }
        ensures as_found { OnErr result.0 (result.1.left ≡ result.1.found) }
        ensures own { IfErr result.0 (λ refused. refused.1 ≢ Refusal.Strange
            → HasOwn result.1.found self result.2.known) }
        ensures strange { IfErr result.0 (λ refused. refused.1 ≡ Refusal.Strange
            → (HasOwn result.1.found self result.2.known → ⊥)) }
        ensures there { MatchResult result.0 (λ _. IsInBook self)
            (λ refused. RefusesInBook self refused.1) }
    {
        self.spend(rt, Action::Release, Action::Release)
    }

    /// Closes the node, as a channel that ends: what is left of the handle, and that the close was
    /// refused, if it was: since a handle's node is open by its log, that the two disagree. Beside
    /// that the book as the close found and left it, and what it saw in the cell before.
    pub(crate) fn close<R: Threads + Wait + Sync>(
        self,
        rt: &R,
    ) -> (Stub<L>, Option<Refusal>, Hold<L>, Note<Outcome>)
        ensures left { MatchOption result.1 (result.0 ≡ left_of (acted self closes))
            (λ _. result.0 ≡ left_of self) }
        ensures foreseen { MatchOption result.1 (MayEnter self closes) (λ _. Unit {0}) }
        ensures saw { (result.3.cell ≡ self.cell)
            × IfSome self.known (λ known. result.3.known ≡ Some known) }
        ensures taken { MatchOption result.1
            (HasActed result.2.found result.2.left self result.3.known closes) (λ _. Unit {0}) }
        ensures as_found { MatchOption result.1 (Unit {0})
            (λ _. result.2.left ≡ result.2.found) }
        ensures strange { IfSome result.1 (λ refusal. (refusal ≡ Refusal.Strange)
            × (HasOwn result.2.found self result.3.known → ⊥)) }
        ensures there { MatchOption result.1 (IsInBook self) (λ _. Unit {0}) }
    {
        let (spent, hold, seen) = self.spend(rt, Action::Close, Action::Close);
        match spent {
            Ok(stub) => (stub, None, hold, seen),
            Err((seat, refusal)) => (seat.left(), Some(refusal), hold, seen),
        }
    }
}
