//! Collections.

ghost use Rattle.std.specs.Prelude.{◌≡◌, ◌≢◌, None, Some, true, option_map, IfErr, IfOk, IfSome, MatchOption, MatchResult, OnErr, OnOk, ⊤};
ghost use Rattle.std.specs.Arc.{arc_value};
ghost use Rattle.sysmem_participants.specs.Held.{Answers, AnswersAtEnd, IsInBook, IsSameBut, IsStillKnown, MayEnter, RefusesInBook, acted, child_of, left_of};
ghost use Rattle.sysmem_participants.specs.Told.{IsShownTo, IsToldBy, Tells};
ghost use Rattle.sysmem_tree.specs.ActionKind.{attaches_token, closes, releases, sets};

use crate::seat::Seat;
use crate::stub::Stub;
use crate::token::Token;
use crate::view::View;
use negotiation_inputs::Constraints;
use std::marker::Model;
use std::sync::ledger::Ledger;
use std::sync::{Arc, Wait};
use std::thread::Threads;
use sysmem_room::Outcome;
use sysmem_search::Gate;
use sysmem_tree::{NodeKind, Refusal};

/// A participant of a collection of buffers. It has to be spent, by `release` or `close`.
pub struct Collection<L: Ledger, G: Gate + Drop> {
    seat: Seat<L, G>,
}

impl<L: Ledger, G: Gate + Drop> Model for Collection<L, G> {
    ghost use Rattle.sysmem_participants.specs.Held.{Held};

    ghost Value = { Held };

    ghost view = { λ h. h.seat };
}

impl<L: Ledger, G: Gate + Drop + Sync> Collection<L, G> {
    ghost use Rattle.std.specs.Borrow.{sem};
    ghost use mathlib.Core.Option.{none};
    ghost use denote.Follow.{follows_so};
    ghost use Rattle.sysmem_participants.specs.contracts.collection.Collection.{the_row};

    /// Of what it holds.
    pub(crate) fn new(seat: Seat<L, G>) -> Collection<L, G>
        ensures { result ≡ seat }
    {
        Collection { seat }
    }

    /// Sets these constraints, or that the participant has none.
    pub fn set_constraints<R: Threads + Wait + Sync>(
        &mut self,
        rt: &R,
        asked: Option<Arc<Constraints>>,
    ) -> Result<(), Refusal>
        ensures entered { OnOk result (self.new
            ≡ acted self.old (sets (option_map (λ one. arc_value one) asked))) }
        ensures unchanged { OnErr result (self.new ≡ self.old) }
        ensures foreseen { OnOk result (MayEnter self.old (sets None)) }
        ensures answers { IfErr result (Answers self.old (sets None)) }
        ensures there { MatchResult result (λ _. IsInBook self.old) (RefusesInBook self.old) }
    {
        self.seat.set_constraints(rt, asked)
    }

    /// A token, the last child of this node, the root of a domain that is decided after this one,
    /// with its settings or none, or fails.
    pub fn attach_token<R: Threads + Wait + Sync>(&mut self, rt: &R) -> Result<Token<L, G>, Refusal>
        ensures entered { OnOk result (self.new ≡ acted self.old attaches_token) }
        ensures unchanged { OnErr result (self.new ≡ self.old) }
        ensures made { IfOk result (λ child.
            child ≡ child_of self.old NodeKind.Token true child.cell) }
        ensures foreseen { OnOk result (MayEnter self.old attaches_token) }
        ensures answers { IfErr result (Answers self.old attaches_token) }
        ensures there { MatchResult result (λ _. IsInBook self.old) (RefusesInBook self.old) }
    {
        match self.seat.attach_token(rt) {
            Ok(seat) => Ok(Token::new(seat)),
            Err(refusal) => Err(refusal),
        }
    }

    /// What the cell tells that was decided, or why nothing can be shown: `Pending` as long as it
    /// tells nothing, `DomainFailed` where the domain failed, `NoMemory` where memory was refused to
    /// its decision, `ConstraintsIntersectionEmpty` and `TooManyGroupChildCombinations` where nothing
    /// was chosen, `NotSelected` where the node isn't a member, `Strange` where it was decided for
    /// another platform, or without what this node asks for. It neither waits nor takes memory.
    pub fn check(&mut self) -> Result<View<'_>, Refusal>
        ensures* after { sem 𝓛 (follows_so (the_row L.row G.row L.Ledger)
            (the_row L.row G.row L.Ledger) self.entry.ghost_name none (λ _ _. ⊤)
            (λ n. IsSameBut self.old n × IsStillKnown self.old n × MatchResult result
            (λ view. n.known ≡ Some (Outcome.Decided view.ruling.now))
            (IsToldBy self.old n.known))) }
        ensures pending { IfErr result (λ refusal.
            refusal ≡ Refusal.Pending → self.old.known ≡ None) }
        ensures known { IfOk result (λ view.
            IfSome self.old.known (λ known. known ≡ Outcome.Decided view.ruling.now)) }
        ensures shown { IfOk result (λ view. IsShownTo self.old view.ruling.now) }
        ensures tells { IfErr result (Tells self.old) }
    {
        self.seat.check()
    }

    /// The same as `check`, once the cell tells a verdict. Nothing says that it ever does.
    pub fn wait_for_all<R: Wait>(&mut self, rt: &R) -> Result<View<'_>, Refusal>
        ensures* after { sem 𝓛 (follows_so (the_row L.row G.row L.Ledger)
            (the_row L.row G.row L.Ledger) self.entry.ghost_name none (λ _ _. ⊤)
            (λ n. IsSameBut self.old n × IsStillKnown self.old n × MatchResult result
            (λ view. n.known ≡ Some (Outcome.Decided view.ruling.now))
            (IsToldBy self.old n.known))) }
        ensures decided { IfErr result (λ refusal. refusal ≢ Refusal.Pending) }
        ensures known { IfOk result (λ view.
            IfSome self.old.known (λ known. known ≡ Outcome.Decided view.ruling.now)) }
        ensures shown { IfOk result (λ view. IsShownTo self.old view.ruling.now) }
        ensures tells { IfErr result (Tells self.old) }
    {
        self.seat.wait_for_all(rt)
    }

    /// Two collections with one cell that know its verdict know the same one. It does nothing when
    /// it runs.
    pub fn compare(&mut self, other: &mut Collection<L, G>)
        requires { other.old.cell ≡ self.old.cell }
        ensures same { (self.new ≡ self.old) × (other.new ≡ other.old) }
        ensures agree { IfSome other.old.known (λ one.
            IfSome self.old.known (λ own. own ≡ one)) }
    {
        self.seat.compare(&mut other.seat)
    }

    /// Releases the node: what is left of the handle, or the handle as it was, and why. It takes no
    /// memory.
    pub fn release<R: Threads + Wait + Sync>(
        self,
        rt: &R,
    ) -> Result<Stub<L>, (Collection<L, G>, Refusal)>
        ensures left { IfOk result (λ stub. stub ≡ left_of (acted self releases)) }
        ensures back { IfErr result (λ refused. refused.0 ≡ self) }
        ensures foreseen { OnOk result (MayEnter self releases) }
        ensures answers { IfErr result (λ refused. AnswersAtEnd self releases refused.1) }
        ensures there { MatchResult result (λ _. IsInBook self)
            (λ refused. RefusesInBook self refused.1) }
    {
        let Collection { seat } = self;
        let (released, _hold, _seen) = seat.release(rt);
        match released {
            Ok(stub) => Ok(stub),
            Err(refused) => Err((Collection { seat: refused.0 }, refused.1)),
        }
    }

    /// Closes the node, as a channel that ends does: what is left of the handle, with the action
    /// where it was accepted, or beside it the refusal, which is `Strange`. It takes no memory.
    pub fn close<R: Threads + Wait + Sync>(self, rt: &R) -> (Stub<L>, Option<Refusal>)
        ensures left { MatchOption result.1 (result.0 ≡ left_of (acted self closes))
            (λ _. result.0 ≡ left_of self) }
        ensures foreseen { MatchOption result.1 (MayEnter self closes) (λ _. Unit {0}) }
        ensures strange { IfSome result.1 (λ refusal. refusal ≡ Refusal.Strange) }
        ensures there { MatchOption result.1 (IsInBook self) (λ _. Unit {0}) }
    {
        let Collection { seat } = self;
        let (stub, refused, _hold, _seen) = seat.close(rt);
        (stub, refused)
    }
}
