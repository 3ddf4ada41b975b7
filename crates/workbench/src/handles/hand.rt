//! What the names of a script stand for.

use negotiation_inputs::Constraints;
use std::mem;
use std::sync::ledger::Ledger;
use std::sync::{Arc, Wait};
use std::thread::Threads;
use sysmem_participants::{Collection, Group, Stub, Token};
use sysmem_search::NoGate;
use sysmem_tree::Refusal;

/// What a name stands for: a handle, or what is left of it.
pub(crate) enum Hand<L: Ledger> {
    Token(Token<L, NoGate>),
    Group(Group<L, NoGate>),
    Collection(Collection<L, NoGate>),
    Left(Stub<L>),
    /// The call that was to make it was refused.
    Nobody,
}

impl<L: Ledger> Hand<L> {
    pub(crate) fn duplicate<R: Threads + Wait + Sync>(
        &mut self,
        rt: &R,
    ) -> Result<Hand<L>, Refusal> {
        match self {
            Hand::Token(token) => match token.duplicate(rt) {
                Ok(child) => Ok(Hand::Token(child)),
                Err(refusal) => Err(refusal),
            },
            _ => Err(Refusal::WrongState),
        }
    }

    pub(crate) fn create_group<R: Threads + Wait + Sync>(
        &mut self,
        rt: &R,
    ) -> Result<Hand<L>, Refusal> {
        match self {
            Hand::Token(token) => match token.create_group(rt) {
                Ok(group) => Ok(Hand::Group(group)),
                Err(refusal) => Err(refusal),
            },
            _ => Err(Refusal::WrongState),
        }
    }

    pub(crate) fn create_child<R: Threads + Wait + Sync>(
        &mut self,
        rt: &R,
    ) -> Result<Hand<L>, Refusal> {
        match self {
            Hand::Group(group) => match group.create_child(rt) {
                Ok(child) => Ok(Hand::Token(child)),
                Err(refusal) => Err(refusal),
            },
            _ => Err(Refusal::WrongState),
        }
    }

    pub(crate) fn attach_token<R: Threads + Wait + Sync>(
        &mut self,
        rt: &R,
    ) -> Result<Hand<L>, Refusal> {
        match self {
            Hand::Collection(collection) => match collection.attach_token(rt) {
                Ok(child) => Ok(Hand::Token(child)),
                Err(refusal) => Err(refusal),
            },
            _ => Err(Refusal::WrongState),
        }
    }

    pub(crate) fn all_children_present<R: Threads + Wait + Sync>(
        &mut self,
        rt: &R,
    ) -> Result<(), Refusal> {
        match self {
            Hand::Group(group) => group.all_children_present(rt),
            _ => Err(Refusal::WrongState),
        }
    }

    pub(crate) fn set_constraints<R: Threads + Wait + Sync>(
        &mut self,
        rt: &R,
        asked: Option<Arc<Constraints>>,
    ) -> Result<(), Refusal> {
        match self {
            Hand::Collection(collection) => collection.set_constraints(rt, asked),
            _ => Err(Refusal::WrongState),
        }
    }

    pub(crate) fn check(&mut self) -> Result<(), Refusal> {
        match self {
            Hand::Collection(collection) => match collection.check() {
                Ok(_view) => Ok(()),
                Err(refusal) => Err(refusal),
            },
            _ => Err(Refusal::WrongState),
        }
    }

    /// Waits where there is a verdict, and else answers as `check` does.
    pub(crate) fn wait<R: Threads + Wait + Sync>(&mut self, rt: &R) -> Result<(), Refusal> {
        if self.check() == Err(Refusal::Pending) {
            return Err(Refusal::Pending);
        }
        match self {
            Hand::Collection(collection) => match collection.wait_for_all(rt) {
                Ok(_view) => Ok(()),
                Err(refusal) => Err(refusal),
            },
            _ => Err(Refusal::WrongState),
        }
    }

    /// What becomes of it by `bind`, and why it was refused, if it was.
    pub(crate) fn bound<R: Threads + Wait + Sync>(self, rt: &R) -> (Hand<L>, Option<Refusal>) {
        match self {
            Hand::Token(token) => match token.bind(rt) {
                Ok(collection) => (Hand::Collection(collection), None),
                Err((token, refusal)) => (Hand::Token(token), Some(refusal)),
            },
            other => (other, Some(Refusal::WrongState)),
        }
    }

    /// What becomes of it by `release`, and why it was refused, if it was.
    pub(crate) fn released<R: Threads + Wait + Sync>(self, rt: &R) -> (Hand<L>, Option<Refusal>) {
        match self {
            Hand::Token(token) => match token.release(rt) {
                Ok(stub) => (Hand::Left(stub), None),
                Err((token, refusal)) => (Hand::Token(token), Some(refusal)),
            },
            Hand::Group(group) => match group.release(rt) {
                Ok(stub) => (Hand::Left(stub), None),
                Err((group, refusal)) => (Hand::Group(group), Some(refusal)),
            },
            Hand::Collection(collection) => match collection.release(rt) {
                Ok(stub) => (Hand::Left(stub), None),
                Err((collection, refusal)) => (Hand::Collection(collection), Some(refusal)),
            },
            other => (other, Some(Refusal::WrongState)),
        }
    }

    /// What becomes of it by `close`, and why it was refused, if it was.
    pub(crate) fn closed<R: Threads + Wait + Sync>(self, rt: &R) -> (Hand<L>, Option<Refusal>) {
        let (stub, refusal) = match self {
            Hand::Token(token) => token.close(rt),
            Hand::Group(group) => group.close(rt),
            Hand::Collection(collection) => collection.close(rt),
            other => return (other, Some(Refusal::WrongState)),
        };
        (Hand::Left(stub), refusal)
    }

    /// What is left of it once it is closed; `None` where there never was a handle.
    pub(crate) fn left<R: Threads + Wait + Sync>(self, rt: &R) -> Option<Stub<L>> {
        match self {
            Hand::Token(token) => Some(token.close(rt).0),
            Hand::Group(group) => Some(group.close(rt).0),
            Hand::Collection(collection) => Some(collection.close(rt).0),
            Hand::Left(stub) => Some(stub),
            Hand::Nobody => None,
        }
    }
}

/// Takes what stands there away.
pub(crate) fn taken<L: Ledger>(hand: &mut Hand<L>) -> Hand<L> {
    mem::replace(hand, Hand::Nobody)
}

/// Puts it where nobody stands.
pub(crate) fn put<L: Ledger, R: Threads + Wait + Sync>(rt: &R, place: &mut Hand<L>, hand: Hand<L>) {
    let _nobody = mem::replace(place, hand).left(rt);
}
