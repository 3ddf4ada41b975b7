//! Tokens.

ghost use Rattle.std.specs.Prelude.{◌≡◌, false, IfErr, IfOk, IfSome, MatchOption, MatchResult, OnErr, OnOk};
ghost use Rattle.sysmem_participants.specs.Held.{Answers, AnswersAtEnd, IsInBook, MayEnter, RefusesInBook, acted, child_of, left_of};
ghost use Rattle.sysmem_tree.specs.ActionKind.{binds, closes, creates_group, duplicates, releases};

use crate::collection::Collection;
use crate::group::Group;
use crate::reading::Reader;
use crate::seat::Seat;
use crate::stub::Stub;
use std::alloc::AllocError;
use std::marker::Model;
use std::sync::ledger::Ledger;
use std::sync::{Arc, Wait};
use std::thread::Threads;
use sysmem_search::Gate;
use sysmem_tree::{NodeKind, Refusal};

/// The right to take part in a collection, and to let others take part. It has to be spent, by
/// `bind`, `release` or `close`.
pub struct Token<L: Ledger, G: Gate + Drop> {
    seat: Seat<L, G>,
}

impl<L: Ledger, G: Gate + Drop> Model for Token<L, G> {
    ghost use Rattle.sysmem_participants.specs.Held.{Held};

    ghost Value = { Held };

    ghost view = { λ h. h.seat };
}

impl<L: Ledger, G: Gate + Drop + Sync> Token<L, G> {
    /// Of what it holds.
    pub(crate) fn new(seat: Seat<L, G>) -> Token<L, G>
        ensures { result ≡ seat }
    {
        Token { seat }
    }

    /// A further token, the last child of this one.
    pub fn duplicate<R: Threads + Wait + Sync>(&mut self, rt: &R) -> Result<Token<L, G>, Refusal>
        ensures entered { OnOk result (self.new ≡ acted self.old duplicates) }
        ensures unchanged { OnErr result (self.new ≡ self.old) }
        ensures made { IfOk result (λ child.
            child ≡ child_of self.old NodeKind.Token false self.old.cell) }
        ensures foreseen { OnOk result (MayEnter self.old duplicates) }
        ensures answers { IfErr result (Answers self.old duplicates) }
        ensures there { MatchResult result (λ _. IsInBook self.old) (RefusesInBook self.old) }
    {
        match self.seat.duplicate(rt) {
            Ok(seat) => Ok(Token::new(seat)),
            Err(refusal) => Err(refusal),
        }
    }

    /// A group, the last child of this token: where settings are chosen and the group is in effect,
    /// one of its children is.
    pub fn create_group<R: Threads + Wait + Sync>(&mut self, rt: &R) -> Result<Group<L, G>, Refusal>
        ensures entered { OnOk result (self.new ≡ acted self.old creates_group) }
        ensures unchanged { OnErr result (self.new ≡ self.old) }
        ensures made { IfOk result (λ child.
            child ≡ child_of self.old NodeKind.Group false self.old.cell) }
        ensures foreseen { OnOk result (MayEnter self.old creates_group) }
        ensures answers { IfErr result (Answers self.old creates_group) }
        ensures there { MatchResult result (λ _. IsInBook self.old) (RefusesInBook self.old) }
    {
        match self.seat.create_group(rt) {
            Ok(seat) => Ok(Group::new(seat)),
            Err(refusal) => Err(refusal),
        }
    }

    /// The token becomes a collection; or the token as it was, and why not.
    pub fn bind<R: Threads + Wait + Sync>(
        self,
        rt: &R,
    ) -> Result<Collection<L, G>, (Token<L, G>, Refusal)>
        ensures bound { IfOk result (λ collection. collection ≡ acted self binds) }
        ensures back { IfErr result (λ refused. refused.0 ≡ self) }
        ensures foreseen { OnOk result (MayEnter self binds) }
        ensures answers { IfErr result (λ refused. Answers self binds refused.1) }
        ensures there { MatchResult result (λ _. IsInBook self)
            (λ refused. RefusesInBook self refused.1) }
    {
        let Token { mut seat } = self;
        match seat.bind(rt) {
            Ok(()) => Ok(Collection::new(seat)),
            Err(refusal) => Err((Token { seat }, refusal)),
        }
    }

    /// Releases the node: what is left of the handle, or the handle as it was, and why. It takes no
    /// memory.
    pub fn release<R: Threads + Wait + Sync>(
        self,
        rt: &R,
    ) -> Result<Stub<L>, (Token<L, G>, Refusal)>
        ensures left { IfOk result (λ stub. stub ≡ left_of (acted self releases)) }
        ensures back { IfErr result (λ refused. refused.0 ≡ self) }
        ensures foreseen { OnOk result (MayEnter self releases) }
        ensures answers { IfErr result (λ refused. AnswersAtEnd self releases refused.1) }
        ensures there { MatchResult result (λ _. IsInBook self)
            (λ refused. RefusesInBook self refused.1) }
    {
        let Token { seat } = self;
        let (released, _hold, _seen) = seat.release(rt);
        match released {
            Ok(stub) => Ok(stub),
            Err(refused) => Err((Token { seat: refused.0 }, refused.1)),
        }
    }

    /// Closes the node, as a channel that ends does: what is left of the handle, with the action
    /// where it was accepted, or beside it the refusal, which is `Strange`. It takes no memory.
    pub fn close<R: Threads + Wait + Sync>(self, rt: &R) -> (Stub<L>, Option<Refusal>)
        ensures left { MatchOption result.1 (result.0 ≡ left_of (acted self closes))
            (λ _. result.0 ≡ left_of self) }
        ensures foreseen { MatchOption result.1 (MayEnter self closes) (λ _. Unit {0}) }
        ensures strange { IfSome result.1 (λ refusal. refusal ≡ Refusal.Strange) }
        ensures there { MatchOption result.1 (IsInBook self) (λ _. Unit {0}) }
    {
        let Token { seat } = self;
        let (stub, refused, _hold, _seen) = seat.close(rt);
        (stub, refused)
    }

    /// What reads the collection's book. `AllocError` where memory is refused.
    pub fn reader(&self) -> Result<Reader<L>, AllocError>
        ensures { IfOk result (λ reader. reader ≡ self.now.platform) }
    {
        let shared = Arc::try_clone(&self.seat.shared)?;
        Ok(Reader::new(shared))
    }
}
