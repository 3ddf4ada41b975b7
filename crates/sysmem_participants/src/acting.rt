//! The actions after which a handle is still there.

ghost use Rattle.std.specs.Prelude.{◌≡◌, ◌≢◌, ◌≤◌, ◌+◌, ◌++◌, ℕ, [], ◌∷◌, None, false, true, is_some, length, option_map, Err, Some, IfErr, IfOk, IfSome, MatchResult, OnErr, OnOk};
ghost use Rattle.std.specs.Arc.{arc_value};
ghost use Rattle.once_cell.specs.Once.{cell_name};
ghost use Rattle.sysmem_participants.specs.Held.{Answers, Disputes, HasActed, HasOwn, IsInBook, MayEnter, RefusesInBook, acted, child_of, state_of};
ghost use Rattle.sysmem_alloc.specs.Book.{IsBook};
ghost use Rattle.sysmem_room.specs.Agreeing.{IsOwn};
ghost use Rattle.sysmem_room.specs.Entering.{HasEntered, IsRefused};
ghost use Rattle.node_limits.specs.Limits.{is_spent};
ghost use Rattle.sysmem_room.specs.Log.{begun_by, next_path, shown_by};
ghost use Rattle.sysmem_room.specs.Refusals.{IsAnswer, IsDisputed, due};
ghost use Rattle.sysmem_tree.specs.ActionKind.{attaches_token, binds, creates_child, creates_group, deed_of, duplicates, ends_node, has_all_children, kind_of, sets};
ghost use Rattle.sysmem_tree.specs.Table.{makes_root};

use crate::deciding::decide;
use crate::holding::{Hold, in_hold};
use crate::seat::{PreparedHandle, Seat};
use crate::shared::{Rules, SharedBook};
use negotiation_inputs::Constraints;
use once_cell::race::{Note, OnceBox};
use std::alloc::{AllocError, Global};
use std::sync::ledger::Ledger;
use std::sync::{Arc, Wait};
use std::thread::Threads;
use sysmem_room::{EnteredAction, FreshCell, Log, Outcome};
use sysmem_search::Gate;
use sysmem_tree::{Action, NodeKind, Refusal};

/// One more owner of constraints, if there are any.
fn shared_again(asked: &Option<Arc<Constraints>>) -> Result<Option<Arc<Constraints>>, AllocError>
    ensures { IfOk result (λ copy. option_map (λ one. arc_value one) copy
        ≡ option_map (λ one. arc_value one) asked.now) }
{
    match asked {
        Some(one) => Ok(Some(Arc::try_clone(one)?)),
        None => Ok(None),
    }
}

/// Enters an action, in the book and in the log, and decides where that is this thread's turn.
/// Beside that the book as the action found and left it.
pub(crate) fn enter<L: Ledger, G: Gate + Drop + Sync, R: Threads + Wait + Sync>(
    rt: &R,
    shared: &SharedBook<L>,
    rules: &Rules<G>,
    log: &mut Log<L>,
    known: Option<&Outcome>,
    action: Action,
    copy: Action,
    fresh: Option<FreshCell>,
) -> (Result<EnteredAction<L>, Refusal>, Hold<L>)
    requires same { deed_of copy ≡ deed_of action }
    requires room { ends_node (kind_of (deed_of action)) ≡ false
        → length log.old.deeds + 2 ≤ log.old.places }
    requires fresh { is_some fresh ≡ makes_root (kind_of (deed_of action)) }
    ensures entered { OnOk result.0 (HasEntered result.1.found result.1.left log.old
        (option_map (λ o. o.now) known.entry) (deed_of action)) }
    ensures strange { IfErr result.0 (λ refusal. refusal ≡ Refusal.Strange → (node : ℕ)
        → IsOwn result.1.found log.old (option_map (λ o. o.now) known.entry) node
        → IsDisputed result.1.found log.old.path (shown_by log.old).state
        (option_map (λ o. o.now) known.entry) (kind_of (deed_of action)) node) }
    ensures legal { IsBook result.1.found }
    ensures own { IfErr result.0 (λ refusal. refusal ≢ Refusal.Strange → (node : ℕ)
        × IsOwn result.1.found log.old (option_map (λ o. o.now) known.entry) node) }
    ensures unchanged { OnErr result.0 ((result.1.left ≡ result.1.found) × (log.new ≡ log.old)) }
    ensures foreseen { OnOk result.0 (due (option_map (λ o. o.now) known.entry) log.old.path
        (shown_by log.old).state (kind_of (deed_of action)) ≡ None) }
    ensures answers { IfErr result.0 (λ refusal. refusal ≢ Refusal.Strange
        → IsAnswer (due (option_map (λ o. o.now) known.entry) log.old.path
        (shown_by log.old).state (kind_of (deed_of action)))
        (option_map (λ o. o.now) known.entry) (kind_of (deed_of action)) refusal) }
    ensures told { IfErr result.0 (λ refusal. refusal ≢ Refusal.Strange
        → due (option_map (λ o. o.now) known.entry) log.old.path (shown_by log.old).state
        (kind_of (deed_of action)) ≡ None → IsRefused rules.now.limits result.1.found log.old
        (option_map (λ o. o.now) known.entry) (deed_of action) refusal) }
    ensures within { OnOk result.0 (is_spent rules.now.limits result.1.found.state.tree.nodes
        log.old.path (kind_of (deed_of action)) ≡ false) }
    ensures path { log.new.path ≡ log.old.path }
    ensures begun { log.new.begun ≡ log.old.begun }
    ensures logged { OnOk result.0 (log.new.deeds ≡ log.old.deeds ++ deed_of action ∷ []) }
    ensures before { IfOk result.0 (λ entered. entered.before ≡ log.old) }
    ensures kind { IfOk result.0 (λ entered. entered.kind ≡ kind_of (deed_of action)) }
{
    let ends = action.kind().ends_node();
    let limits = rules.limits;
    let (done, hold) = in_hold(rt, shared, log, known, action, copy, fresh, limits);
    let (entered, turn) = match done {
        Ok(done) => done,
        Err(refusal) => return (Err(refusal), hold),
    };
    if ends {
        shared.changed.notify_all();
    }
    match turn {
        Some(turn) => {
            let _none_waits = decide(rt, shared, rules, turn);
        }
        None => {}
    }
    (Ok(entered), hold)
}

/// A cell for a domain that is to be made, and one more owner of it for the handle of its root.
pub(crate) fn fresh_cell(alloc: Global) -> Result<(FreshCell, Arc<OnceBox<Outcome>>), AllocError> {
    let fresh = FreshCell::new(alloc)?;
    let cell = fresh.shared()?;
    Ok((fresh, cell))
}

impl<L: Ledger, G: Gate + Drop> PreparedHandle<L, G> {
    /// What the handle of the further node holds, once it is made.
    fn seated(self, entered: EnteredAction<L>) -> Seat<L, G>
        requires path { self.fresh.path ≡ next_path entered.before }
        requires begun { begun_by entered.kind ≡ Some self.fresh.begun }
        requires is_open { self.fresh.begun.state.is_open ≡ true }
        ensures { result ≡ record {
          path = self.fresh.path;
          begun = self.fresh.begun;
          deeds = [];
          cell = cell_name (arc_value self.cell);
          known = None;
          platform = (arc_value self.shared).platform;
        } }
    {
        let PreparedHandle {
            shared,
            rules,
            fresh,
            cell,
        } = self;
        let note = cell.note();
        Seat {
            shared,
            rules,
            log: entered.into_log(fresh),
            cell,
            note,
        }
    }
}

impl<L: Ledger, G: Gate + Drop + Sync> Seat<L, G> {
    /// Enters an action that leaves the handle there. `copy` is the same action, for the log. Beside
    /// that the book as the action found and left it, and what it saw in the cell before; without
    /// these the answer is `NoMemory`.
    fn step<R: Threads + Wait + Sync>(
        &mut self,
        rt: &R,
        action: Action,
        copy: Action,
        fresh: Option<FreshCell>,
    ) -> (
        Result<EnteredAction<L>, Refusal>,
        Option<(Hold<L>, Note<Outcome>)>,
    )
        requires same { deed_of copy ≡ deed_of action }
        requires fresh { is_some fresh ≡ makes_root (kind_of (deed_of action)) }
        requires stays { ends_node (kind_of (deed_of action)) ≡ false }
        ensures entered { OnOk result.0 (self.new ≡ acted self.old (deed_of action)) }
        ensures unchanged { OnErr result.0 (self.new ≡ self.old) }
        ensures foreseen { OnOk result.0 (MayEnter self.old (deed_of action)) }
        ensures answers { IfErr result.0 (Answers self.old (deed_of action)) }
        ensures next { IfOk result.0 (λ entered. next_path entered.before
            ≡ self.old.path ++ (state_of self.old).children ∷ []) }
        ensures kind { IfOk result.0 (λ entered. entered.kind ≡ kind_of (deed_of action)) }
        ensures starved { is_some result.1 ≡ false → result.0 ≡ Err Refusal.NoMemory }
        ensures saw { IfSome result.1 (λ look. (look.1.cell ≡ self.old.cell)
            × IfSome self.old.known (λ known. look.1.known ≡ Some known)) }
        ensures taken { IfSome result.1 (λ look. OnOk result.0
            (HasActed look.0.found look.0.left self.old look.1.known (deed_of action))) }
        ensures as_found { IfSome result.1 (λ look. OnErr result.0 (look.0.left ≡ look.0.found)) }
        ensures own { IfSome result.1 (λ look. IfErr result.0 (λ refusal.
            refusal ≢ Refusal.Strange → HasOwn look.0.found self.old look.1.known)) }
        ensures strange { IfSome result.1 (λ look. IfErr result.0 (λ refusal.
            refusal ≡ Refusal.Strange
            → Disputes look.0.found self.old look.1.known (deed_of action))) }
        ensures there { MatchResult result.0 (λ _. IsInBook self.old) (RefusesInBook self.old) }
    {
        if self.log.reserve().is_err() {
            return (Err(Refusal::NoMemory), None);
        }
        let mut seen = self.note.again();
        let known = self.cell.get_as(&mut seen);
        let (entered, hold) = enter(
            rt,
            &self.shared,
            &self.rules,
            &mut self.log,
            known,
            action,
            copy,
            fresh,
        );
        (entered, Some((hold, seen)))
    }

    /// A further token, the last child of a token.
    pub(crate) fn duplicate<R: Threads + Wait + Sync>(
        &mut self,
        rt: &R,
    ) -> Result<Seat<L, G>, Refusal>
        ensures entered { OnOk result (self.new ≡ acted self.old duplicates) }
        ensures unchanged { OnErr result (self.new ≡ self.old) }
        ensures made { IfOk result (λ child.
            child ≡ child_of self.old NodeKind.Token false self.old.cell) }
        ensures foreseen { OnOk result (MayEnter self.old duplicates) }
        ensures answers { IfErr result (Answers self.old duplicates) }
        ensures there { MatchResult result (λ _. IsInBook self.old) (RefusesInBook self.old) }
    {
        let Ok(child) = self.prepared(NodeKind::Token, false) else {
            return Err(Refusal::NoMemory);
        };
        let (done, _look) = self.step(rt, Action::Duplicate, Action::Duplicate, None);
        match done {
            Ok(entered) => Ok(child.seated(entered)),
            Err(refusal) => Err(refusal),
        }
    }

    /// A group, the last child of a token.
    pub(crate) fn create_group<R: Threads + Wait + Sync>(
        &mut self,
        rt: &R,
    ) -> Result<Seat<L, G>, Refusal>
        ensures entered { OnOk result (self.new ≡ acted self.old creates_group) }
        ensures unchanged { OnErr result (self.new ≡ self.old) }
        ensures made { IfOk result (λ child.
            child ≡ child_of self.old NodeKind.Group false self.old.cell) }
        ensures foreseen { OnOk result (MayEnter self.old creates_group) }
        ensures answers { IfErr result (Answers self.old creates_group) }
        ensures there { MatchResult result (λ _. IsInBook self.old) (RefusesInBook self.old) }
    {
        let Ok(child) = self.prepared(NodeKind::Group, false) else {
            return Err(Refusal::NoMemory);
        };
        let (done, _look) = self.step(rt, Action::CreateGroup, Action::CreateGroup, None);
        match done {
            Ok(entered) => Ok(child.seated(entered)),
            Err(refusal) => Err(refusal),
        }
    }

    /// A token, the last child of a group.
    pub(crate) fn create_child<R: Threads + Wait + Sync>(
        &mut self,
        rt: &R,
    ) -> Result<Seat<L, G>, Refusal>
        ensures entered { OnOk result (self.new ≡ acted self.old creates_child) }
        ensures unchanged { OnErr result (self.new ≡ self.old) }
        ensures made { IfOk result (λ child.
            child ≡ child_of self.old NodeKind.Token false self.old.cell) }
        ensures foreseen { OnOk result (MayEnter self.old creates_child) }
        ensures answers { IfErr result (Answers self.old creates_child) }
        ensures there { MatchResult result (λ _. IsInBook self.old) (RefusesInBook self.old) }
    {
        let Ok(child) = self.prepared(NodeKind::Token, false) else {
            return Err(Refusal::NoMemory);
        };
        let (done, _look) = self.step(rt, Action::CreateChild, Action::CreateChild, None);
        match done {
            Ok(entered) => Ok(child.seated(entered)),
            Err(refusal) => Err(refusal),
        }
    }

    /// A token, the last child of a collection, that is the root of a domain of its own.
    pub(crate) fn attach_token<R: Threads + Wait + Sync>(
        &mut self,
        rt: &R,
    ) -> Result<Seat<L, G>, Refusal>
        ensures entered { OnOk result (self.new ≡ acted self.old attaches_token) }
        ensures unchanged { OnErr result (self.new ≡ self.old) }
        ensures made { IfOk result (λ child.
            child ≡ child_of self.old NodeKind.Token true child.cell) }
        ensures foreseen { OnOk result (MayEnter self.old attaches_token) }
        ensures answers { IfErr result (Answers self.old attaches_token) }
        ensures there { MatchResult result (λ _. IsInBook self.old) (RefusesInBook self.old) }
    {
        let Ok(mut child) = self.prepared(NodeKind::Token, true) else {
            return Err(Refusal::NoMemory);
        };
        let Ok((fresh, cell)) = fresh_cell(self.rules.alloc) else {
            return Err(Refusal::NoMemory);
        };
        child.cell = cell;
        let (done, _look) = self.step(rt, Action::AttachToken, Action::AttachToken, Some(fresh));
        match done {
            Ok(entered) => Ok(child.seated(entered)),
            Err(refusal) => Err(refusal),
        }
    }

    /// The token becomes a collection.
    pub(crate) fn bind<R: Threads + Wait + Sync>(&mut self, rt: &R) -> Result<(), Refusal>
        ensures entered { OnOk result (self.new ≡ acted self.old binds) }
        ensures unchanged { OnErr result (self.new ≡ self.old) }
        ensures foreseen { OnOk result (MayEnter self.old binds) }
        ensures answers { IfErr result (Answers self.old binds) }
        ensures there { MatchResult result (λ _. IsInBook self.old) (RefusesInBook self.old) }
    {
        let (done, _look) = self.step(rt, Action::Bind, Action::Bind, None);
        match done {
            Ok(_entered) => Ok(()),
            Err(refusal) => Err(refusal),
        }
    }

    /// The group is complete.
    pub(crate) fn all_children_present<R: Threads + Wait + Sync>(
        &mut self,
        rt: &R,
    ) -> Result<(), Refusal>
        ensures entered { OnOk result (self.new ≡ acted self.old has_all_children) }
        ensures unchanged { OnErr result (self.new ≡ self.old) }
        ensures foreseen { OnOk result (MayEnter self.old has_all_children) }
        ensures answers { IfErr result (Answers self.old has_all_children) }
        ensures there { MatchResult result (λ _. IsInBook self.old) (RefusesInBook self.old) }
    {
        let (done, _look) = self.step(
            rt,
            Action::AllChildrenPresent,
            Action::AllChildrenPresent,
            None,
        );
        match done {
            Ok(_entered) => Ok(()),
            Err(refusal) => Err(refusal),
        }
    }

    /// Sets these constraints on a collection, or that it has none.
    pub(crate) fn set_constraints<R: Threads + Wait + Sync>(
        &mut self,
        rt: &R,
        asked: Option<Arc<Constraints>>,
    ) -> Result<(), Refusal>
        ensures entered { OnOk result (self.new
            ≡ acted self.old (sets (option_map (λ one. arc_value one) asked))) }
        ensures unchanged { OnErr result (self.new ≡ self.old) }
        ensures foreseen { OnOk result (MayEnter self.old (sets None)) }
        ensures answers { IfErr result (Answers self.old (sets None)) }
        ensures there { MatchResult result (λ _. IsInBook self.old) (RefusesInBook self.old) }
    {
        let Ok(own) = shared_again(&asked) else {
            return Err(Refusal::NoMemory);
        };
        let (done, _look) = self.step(
            rt,
            Action::SetConstraints(asked),
            Action::SetConstraints(own),
            None,
        );
        match done {
            Ok(_entered) => Ok(()),
            Err(refusal) => Err(refusal),
        }
    }
}
