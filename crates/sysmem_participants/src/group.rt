//! Groups.

ghost use Rattle.std.specs.Prelude.{◌≡◌, false, IfErr, IfOk, IfSome, MatchOption, MatchResult, OnErr, OnOk};
ghost use Rattle.sysmem_participants.specs.Held.{Answers, AnswersAtEnd, IsInBook, MayEnter, RefusesInBook, acted, child_of, left_of};
ghost use Rattle.sysmem_tree.specs.ActionKind.{closes, creates_child, has_all_children, releases};

use crate::seat::Seat;
use crate::stub::Stub;
use crate::token::Token;
use std::marker::Model;
use std::sync::Wait;
use std::sync::ledger::Ledger;
use std::thread::Threads;
use sysmem_search::Gate;
use sysmem_tree::{NodeKind, Refusal};

/// Alternatives: where settings are chosen and the group is in effect, one of its children is. It
/// has to be spent, by `release` once it is complete, or by `close`.
pub struct Group<L: Ledger, G: Gate + Drop> {
    seat: Seat<L, G>,
}

impl<L: Ledger, G: Gate + Drop> Model for Group<L, G> {
    ghost use Rattle.sysmem_participants.specs.Held.{Held};

    ghost Value = { Held };

    ghost view = { λ h. h.seat };
}

impl<L: Ledger, G: Gate + Drop + Sync> Group<L, G> {
    /// Of what it holds.
    pub(crate) fn new(seat: Seat<L, G>) -> Group<L, G>
        ensures { result ≡ seat }
    {
        Group { seat }
    }

    /// A token, the last child of the group.
    pub fn create_child<R: Threads + Wait + Sync>(&mut self, rt: &R) -> Result<Token<L, G>, Refusal>
        ensures entered { OnOk result (self.new ≡ acted self.old creates_child) }
        ensures unchanged { OnErr result (self.new ≡ self.old) }
        ensures made { IfOk result (λ child.
            child ≡ child_of self.old NodeKind.Token false self.old.cell) }
        ensures foreseen { OnOk result (MayEnter self.old creates_child) }
        ensures answers { IfErr result (Answers self.old creates_child) }
        ensures there { MatchResult result (λ _. IsInBook self.old) (RefusesInBook self.old) }
    {
        match self.seat.create_child(rt) {
            Ok(seat) => Ok(Token::new(seat)),
            Err(refusal) => Err(refusal),
        }
    }

    /// The group is complete: it gets no further children.
    pub fn all_children_present<R: Threads + Wait + Sync>(&mut self, rt: &R) -> Result<(), Refusal>
        ensures entered { OnOk result (self.new ≡ acted self.old has_all_children) }
        ensures unchanged { OnErr result (self.new ≡ self.old) }
        ensures foreseen { OnOk result (MayEnter self.old has_all_children) }
        ensures answers { IfErr result (Answers self.old has_all_children) }
        ensures there { MatchResult result (λ _. IsInBook self.old) (RefusesInBook self.old) }
    {
        self.seat.all_children_present(rt)
    }

    /// Releases the node: what is left of the handle, or the handle as it was, and why. It takes no
    /// memory.
    pub fn release<R: Threads + Wait + Sync>(
        self,
        rt: &R,
    ) -> Result<Stub<L>, (Group<L, G>, Refusal)>
        ensures left { IfOk result (λ stub. stub ≡ left_of (acted self releases)) }
        ensures back { IfErr result (λ refused. refused.0 ≡ self) }
        ensures foreseen { OnOk result (MayEnter self releases) }
        ensures answers { IfErr result (λ refused. AnswersAtEnd self releases refused.1) }
        ensures there { MatchResult result (λ _. IsInBook self)
            (λ refused. RefusesInBook self refused.1) }
    {
        let Group { seat } = self;
        let (released, _hold, _seen) = seat.release(rt);
        match released {
            Ok(stub) => Ok(stub),
            Err(refused) => Err((Group { seat: refused.0 }, refused.1)),
        }
    }

    /// Closes the node, as a channel that ends does: what is left of the handle, with the action
    /// where it was accepted, or beside it the refusal, which is `Strange`. It takes no memory.
    pub fn close<R: Threads + Wait + Sync>(self, rt: &R) -> (Stub<L>, Option<Refusal>)
        ensures left { MatchOption result.1 (result.0 ≡ left_of (acted self closes))
            (λ _. result.0 ≡ left_of self) }
        ensures foreseen { MatchOption result.1 (MayEnter self closes) (λ _. Unit {0}) }
        ensures strange { IfSome result.1 (λ refusal. refusal ≡ Refusal.Strange) }
        ensures there { MatchOption result.1 (IsInBook self) (λ _. Unit {0}) }
    {
        let Group { seat } = self;
        let (stub, refused, _hold, _seen) = seat.close(rt);
        (stub, refused)
    }
}
